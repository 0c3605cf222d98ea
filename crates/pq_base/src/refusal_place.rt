//! The refusals, each by the place of its number in `refusal_numbers` (docs/FORMATS.md, "Refusals").

/// E101.
pub const NOT_UTF8: usize = 0;

/// E102.
pub const UNFINISHED: usize = 1;

/// E103.
pub const STATEMENT_LONG: usize = 2;

/// E104.
pub const SYNTAX: usize = 3;

/// E201.
pub const NAME_TAKEN: usize = 4;

/// E202.
pub const NO_TABLE: usize = 5;

/// E203.
pub const NO_COLUMN: usize = 6;

/// E204.
pub const REPEATED: usize = 7;

/// E205.
pub const FOREIGN_SHAPE: usize = 8;

/// E206.
pub const COUNT: usize = 9;

/// E207.
pub const TOO_MANY_ROWS: usize = 10;

/// E208.
pub const NULLABLE_KEY: usize = 11;

/// E209.
pub const NOT_EMPTY: usize = 12;

/// E301.
pub const ALIAS: usize = 13;

/// E302.
pub const OPERAND_KIND: usize = 14;

/// E303.
pub const PARAMS: usize = 15;

/// E304.
pub const NO_BOUND: usize = 16;

/// E305.
pub const BOUND_LARGE: usize = 17;

/// E401.
pub const NO_QUERY: usize = 18;

/// E402.
pub const PARAM_VALUE: usize = 19;

/// E403.
pub const CURSOR: usize = 20;

/// E404.
pub const NOT_PAGED: usize = 21;

/// E405.
pub const NO_COUNTER: usize = 22;

/// E406.
pub const INDEX_WANTED: usize = 23;

/// E501.
pub const VALUE_KIND: usize = 24;

/// E502.
pub const WRONG_COLUMNS: usize = 25;

/// E503.
pub const DUPLICATE_KEY: usize = 26;

/// E504.
pub const NO_ROW: usize = 27;

/// E505.
pub const NO_PARENT: usize = 28;

/// E506.
pub const REFERENCED: usize = 29;

/// E507.
pub const CARDINALITY: usize = 30;

/// E508.
pub const ROW_LONG: usize = 31;

/// E510.
pub const COUNTER_FULL: usize = 32;

/// E511.
pub const CONDITION: usize = 33;

/// E512.
pub const BATCH_LONG: usize = 34;

/// E513.
pub const IN_BATCH: usize = 35;

/// E514.
pub const SUM: usize = 36;
