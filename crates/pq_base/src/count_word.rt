//! What is counted, each by the place of its word in `count_words` (docs/FORMATS.md, "Refusals").

/// How many words there are.
pub const WORDS: usize = 17;

/// N of a CARDINALITY LIMIT.
pub const CARDINALITY: u8 = 0;

/// Columns of a table.
pub const COLUMNS: u8 = 1;

/// Counters of a table.
pub const COUNTERS: u8 = 2;

/// Definitions: tables, queries, added columns and counters together.
pub const DEFINITIONS: u8 = 3;

/// Foreign keys of a table.
pub const FOREIGN: u8 = 4;

/// Indexes of a table.
pub const INDEXES: u8 = 5;

/// Columns of a primary key.
pub const KEY: u8 = 6;

/// Columns of a limit.
pub const LIMIT_COLUMNS: u8 = 7;

/// Limits of a table.
pub const LIMITS: u8 = 8;

/// Columns of ORDER BY.
pub const ORDER: u8 = 9;

/// Predicates of a query.
pub const PREDICATES: u8 = 10;

/// Relations of a query.
pub const RELATIONS: u8 = 11;

/// Selected columns.
pub const SELECTED: u8 = 12;

/// The number of LIMIT or PAGINATE.
pub const STOP: u8 = 13;

/// Tables.
pub const TABLES: u8 = 14;

/// N of TEXT(n).
pub const TEXT: u8 = 15;

/// Writes of a batch.
pub const WRITES: u8 = 16;
