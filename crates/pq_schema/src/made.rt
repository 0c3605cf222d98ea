//! What a definition made.

use crate::counter::Counter;
use crate::query::Query;

/// An index that a PREPARE made: the table's number and the index's, each from 1.
#[derive(Clone, Copy, PartialEq, Eq)]
pub struct Made {
    pub table: u8,
    pub index: u8,
}

/// A definition by its kind: a table's number with how many indexes its CREATE TABLE made, the index
/// that a query's PREPARE made, the place of an added column with its table's number, or a counter.
#[derive(Clone, Copy, PartialEq, Eq)]
pub enum Def {
    Table { table: u8, made: u8 },
    Query { made: Option<Made> },
    Added { table: u8, col: u8 },
    Counter,
}

/// A definition of a schema.
#[derive(Drop)]
pub enum Definition {
    /// The table of this number, whose CREATE TABLE gave its first columns and made its first indexes,
    /// so many of each.
    OfTable { table: u8, columns: u8, made: u8 },
    /// A query, with the index that its PREPARE made.
    OfQuery { query: Query, made: Option<Made> },
    /// The added column at this place of the table of this number.
    OfColumn { table: u8, col: u8 },
    /// A counter.
    OfCounter { counter: Counter },
}
