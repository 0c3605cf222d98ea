//! Ranges of a sequence: the rows that have tied values at a limit's columns, and the first rows by position.
#![tactic(auto)]

mod limit;
mod stop;

pub use limit::{limit_range, range_inputs};
pub use stop::index_scan;
