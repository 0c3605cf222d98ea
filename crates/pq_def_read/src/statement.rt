//! Statements, with names in place of numbers.
use crate::write::WriteDef;
use pq_base::{List, PText, Value};
use pq_schema::{AlterDef, CounterDef, TableDef};

/// A statement. Names are in small letters.
#[derive(Drop)]
pub enum Statement {
    /// CREATE TABLE.
    Create(TableDef),
    /// INSERT, UPDATE or DELETE.
    Write(WriteDef),
    /// BATCH: several writes that are made as one.
    Batch(List<WriteDef>),
    /// PREPARE, with the place of the token after its head.
    Prepare {
        name: PText,
        from: u32,
    },
    /// EXPLAIN, with the place of the token after its head.
    Explain {
        from: u32,
    },
    /// RUN, with the values of its parameters and the cursor after which it goes on.
    Run {
        name: PText,
        values: List<Value>,
        after: Option<PText>,
    },
    /// ALTER TABLE.
    Alter(AlterDef),
    /// CREATE COUNTER.
    Counter(CounterDef),
    /// READ of a counter, with the values of a group.
    Read {
        name: PText,
        values: List<Value>,
    },
    /// SHOW.
    Show,
    /// SELECT: the query is all of the text.
    Select,
}
