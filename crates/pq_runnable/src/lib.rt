//! Plans that can be run: what stays of a query over a catalog that has grown since, the indexes that its plan
//! goes over, and what running the plan's nodes rests on.
//!
//! The definitions stand in `specs/`. Each call here does nothing, and its contract is a law of theirs.
#![tactic(auto)]

mod laws;

pub use laws::{compiled_laws, grown_laws, index_laws, run_laws};
