//! Rows of a table and entries of its indexes, read by paid calls: the rows of a range, the values of the
//! keys of a range, and the row that an entry names.
//!
//! A key or a value that is the code of nothing, and an entry whose row is not there, are damage.
#![tactic(auto)]

mod decode;
mod fetch;
mod keys;
mod ranges;
mod sequences;

pub use fetch::{named_row, named_rows};
pub use keys::{sequence_key, types_at};
pub use ranges::{range_rows, range_values, rows_in, values_in, values_read};
pub use sequences::sequence_rows;
