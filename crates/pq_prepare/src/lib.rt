//! PREPARE of a query that wants an index, which is filled.
#![tactic(auto)]

mod prepare;

pub use prepare::build_query;
