//! Counters: of each group of a table's rows the number.

use pq_base::{List, PText};

/// A counter has of each group of its table's rows, those with the same values at its columns, the number.
/// The table is by its number from 1, and the columns by their places from 0.
#[derive(Drop)]
pub struct Counter {
    pub name: PText,
    pub table: u8,
    pub cols: List<u8>,
}
