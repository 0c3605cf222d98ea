//! Writes, with names in place of numbers.
use pq_base::{List, Op, PText, Value};

/// What a column is set to.
#[derive(Drop)]
pub enum Setting {
    /// This value.
    Is(Value),
    /// What the row has there and this number, by ADD.
    Add(i64),
}

/// A column and what it is set to.
#[derive(Drop)]
pub struct SetDef {
    pub col: PText,
    pub to: Setting,
}

/// A column of the key and the value that it has.
#[derive(Drop)]
pub struct Assign {
    pub col: PText,
    pub value: Value,
}

/// What a column of the row must be like. The value beside IS NULL is NULL.
#[derive(Drop)]
pub struct CondDef {
    pub col: PText,
    pub op: Op,
    pub value: Value,
}

/// A write. Names are in small letters.
#[derive(Drop)]
pub enum WriteDef {
    /// INSERT, with the columns where they are listed.
    Insert {
        table: PText,
        cols: Option<List<PText>>,
        values: List<Value>,
    },
    /// UPDATE of the row with this key, where it meets the conditions.
    Update {
        table: PText,
        sets: List<SetDef>,
        key: List<Assign>,
        conds: List<CondDef>,
    },
    /// DELETE of the row with this key, where it meets the conditions.
    Delete {
        table: PText,
        key: List<Assign>,
        conds: List<CondDef>,
    },
}
