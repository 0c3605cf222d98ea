//! The logical trees of a query, and its candidates with their costs.
//!
//! Each tree means the query's answer over all tables that keep the schema. `candidates` gives exactly the
//! candidates that the rules name, in their order; `has_candidate` tells without memory whether there is one.
#![tactic(auto)]

mod costs;
mod listing;
mod rewrites;
mod stops;

pub use listing::{Candidate, candidates};
pub use rewrites::{build, place_data_stops, push_stop};
pub use stops::has_candidate;
