//! Keys of rows, of their entries and of groups of rows, coded straight from values, and the values of
//! rows at columns.
#![tactic(auto)]

mod groups;
mod keys;
mod rows;

pub use groups::{group_key, group_key_of};
pub use keys::{entry_of, key_at, put_cells};
pub use rows::{all_given, given, null_at, same_cells, same_entry, values_at};
