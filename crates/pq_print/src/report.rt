//! Reports: what a statement answers, before it is text.

use pq_base::{Bound, Choice, Dir, List, PText, Refusal, Row, Used};

/// A column of an index that was made, with its direction.
#[derive(Drop)]
pub struct IndexCol {
    pub name: PText,
    pub dir: Dir,
}

/// A line of a report before its end line.
#[derive(Drop)]
pub enum Line {
    /// A row of an answer.
    Row(Row),
    /// A query that was compiled, how it runs, and what each run may use.
    Query {
        name: PText,
        choice: Choice,
        bound: Bound,
    },
    /// An index that was made, by its table and its number from 1.
    Index {
        table: PText,
        number: u8,
        cols: List<IndexCol>,
    },
    /// A definition with its number from 1 and its canonical text.
    Def {
        number: u16,
        text: PText,
    },
}

/// How a statement ended.
#[derive(Drop)]
pub enum End {
    Done,
    /// So many rows, and the cursor of the next page where this one is full.
    Rows { count: u32, next: Option<PText> },
    Refused(Refusal),
    /// The batch is refused: the write at this place, from 1, for this cause.
    InBatch { place: u16, cause: Refusal },
}

/// The report of a statement, numbered from 1.
pub struct Report {
    pub number: u32,
    pub lines: List<Line>,
    pub end: End,
    pub bound: Bound,
    pub used: Used,
}

// Written out, so that whoever drops a report makes one call for it.
impl Drop for Report {
    fn drop(self) {
        let Report {
            number: _number,
            lines: _lines,
            end: _end,
            bound: _bound,
            used: _used,
        } = self;
    }
}

/// The opening of a store: how many definitions were found.
pub struct Opened {
    pub defs: u16,
    pub bound: Bound,
    pub used: Used,
}

// Written out, so that whoever drops an answer makes one call for it.
impl Drop for Opened {
    fn drop(self) {
        let Opened {
            defs: _defs,
            bound: _bound,
            used: _used,
        } = self;
    }
}
