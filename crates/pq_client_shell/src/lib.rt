//! The top call for clients: a script whose writes are dealt to clients that step in turn over one store.
//!
//! The pieces before the first write are made and reported as by a run. The writes from there on are dealt in turn to
//! the clients, and what each client was told of each write is written behind their last step.
#![tactic(auto)]

mod dealing;
mod front;
mod gathered;
mod lines;
mod run;
mod script;
mod telling;
mod turns;
mod words;
mod writes;

pub use run::run_piql_clients;
