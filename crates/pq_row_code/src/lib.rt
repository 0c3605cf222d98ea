//! Rows and change lists as bytes, exact both ways.
//!
//! A row code says how many columns it has and each column's bytes, a change list each key with
//! its new value or its removal. Bytes that are no code are told from those that are.
//!
//! A store holds the code of a row's stored row: the row without the longest suffix of added columns
//! that hold their defaults. So adding a column touches no row, and each row has one code.
#![tactic(auto)]

mod changes;
mod decode;
mod encode;
mod stored_row;

pub use changes::{Change, changes_len, decode_changes, encode_changes};
pub use decode::decode_row;
pub use encode::{encode_row, row_code_len};
pub use stored_row::{decode_filled, encode_stored, known_fillers, stored_code_len, stored_len};
