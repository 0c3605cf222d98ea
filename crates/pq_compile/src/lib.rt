//! The choice of a query's least candidate, and the plan that runs it.
//!
//! `compile` gives a plan for the least candidate, with exactly its numbers, which means the query's answer
//! over all tables that keep the schema; or exactly the refusal that the rules name.
#![tactic(auto)]

mod choosing;
mod compiler;
mod lowering;
mod wanting;

pub use compiler::{Compiled, compile};
