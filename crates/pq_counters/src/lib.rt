//! Counters kept by writes: what a write changes of the counters' pairs, within which bound, and how one number is
//! read.
#![tactic(auto)]

mod bound;
mod groups;
mod moved;
mod plan;
mod read;
mod reading;
mod steps;
mod whole;

pub use bound::{counter_bound, reads_behind, whole_bound, whole_changes};
pub use pq_tallies::{MOST_COUNT, counter_key, next_count};
pub use read::read_counter;
pub use reading::plan_counters;
pub use whole::plan_whole;
