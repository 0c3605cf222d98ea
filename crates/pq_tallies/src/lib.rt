//! Tallies: how many rows each group of a counter has, the pairs that stand for these numbers in a store, and
//! what a write makes of them.
#![tactic(auto)]

mod codes;
mod laws;
mod moves;

pub use codes::{MOST_COUNT, count_of, counter_key, next_count, stored_count};
pub use laws::{counter_laws, schema_laws, tally_laws};
pub use moves::{MovedKeys, move_in};
