//! What is told of a script with the plans of its queries: `tell_script` gives the report that a check makes of each
//! statement, and before it the nodes of the plan of a query that is prepared, explained or run once.
#![tactic(auto)]

mod plan;
mod telling;

pub use telling::{Told, tell_script};
