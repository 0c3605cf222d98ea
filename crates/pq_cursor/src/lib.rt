//! Cursors: the text by which the next page of a query begins behind a position.
//!
//! A cursor is the URL-safe base64 without padding of a format byte, the number of the query's definition
//! in two bytes, and the key code of the position. Each position that fits has one text, and no other text
//! is read as it: padding, trailing bits, other bytes and another query's number are refused.
#![tactic(auto)]

mod cursor;
pub mod laws;

pub use cursor::{cursor_text, read_cursor};
