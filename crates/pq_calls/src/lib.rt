//! Calls on a store that are paid from an allowance, the reading of a row by its key, and what shows
//! that a content is damaged.
//!
//! Whatever the store tells, each call spends exactly what the meter rose by, leaves the content as it
//! is, and gives up only for a cause: a fault that was counted, want of memory, or damage that shows.
#![tactic(auto)]

mod calls;
mod rows;

pub use calls::Calls;
pub use rows::{StoredRow, answered_row, types_of};
