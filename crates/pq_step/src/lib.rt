//! Statements over a store: each makes one step of the model.
#![tactic(auto)]

mod prepare;
mod run;
mod select;
mod stepping;

pub use stepping::statement;
