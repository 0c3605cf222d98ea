//! Why a statement is refused, with the fields that its report names (docs/FORMATS.md, "Refusals").
use crate::list::NoMem;
use crate::text::PText;

/// A refusal. A refused statement changes nothing. Names are in small letters.
pub enum Refusal {
    /// E101: the piece isn't UTF-8.
    NotUtf8,
    /// E102: the rest after the last cut is unfinished.
    Unfinished,
    /// E103: the piece has more than 65,536 bytes.
    StatementLong,
    /// E104: the tokens spell no statement; the byte offset of the first token that fits none.
    Syntax { at: u32 },
    /// E201: a table, a query or a counter has the name.
    NameTaken { name: PText },
    /// E202: no table has the name.
    NoTable { name: PText },
    /// E203: there is no such column, or several relations have it.
    NoColumn { name: PText },
    /// E204: a column stands twice where it may stand once.
    Repeated { name: PText },
    /// E205: the foreign key's columns aren't of the number and kinds of the key that they name.
    ForeignShape { number: u8 },
    /// E206: a count outside its limit; the place of its word in `count_words`.
    Count { word: u8 },
    /// E207: the table has more rows than an index is filled over.
    TooManyRows { table: PText },
    /// E208: a column of the key is nullable; the first such.
    NullableKey { name: PText },
    /// E209: a counter is made over a table without rows, and this one has some.
    NotEmpty { table: PText },
    /// E301: the alias is unknown or repeated.
    Alias { name: PText },
    /// E302: the operand of this predicate, or of this condition of a write, counted from 1, is of another kind
    /// than its column, a text of more than 1,000 bytes, or a column of the same relation.
    OperandKind { pred: u8 },
    /// E303: the parameters aren't numbered from 1 without a gap, or one has two kinds.
    Params,
    /// E304: the query has no bound.
    NoBound { alias: PText },
    /// E305: the query's bound is too large.
    BoundLarge { ops: u128, entries: u128 },
    /// E401: no query has the name.
    NoQuery { name: PText },
    /// E402: 0 for a wrong number of values, else the first value of another kind or too long.
    ParamValue { number: u8 },
    /// E403: the text is no cursor of the query.
    Cursor,
    /// E404: the query has no pages.
    NotPaged,
    /// E405: no counter has the name.
    NoCounter { name: PText },
    /// E406: a SELECT that isn't prepared wants a new index over this table.
    IndexWanted { table: PText },
    /// E501: a value does not fit its column's type.
    ValueKind { table: PText, column: PText },
    /// E502: the statement names other columns than it has to, or has another number of values.
    WrongColumns { table: PText },
    /// E503: a row with this key is there.
    DuplicateKey { table: PText },
    /// E504: there is no row with this key.
    NoRow { table: PText },
    /// E505: the row that this foreign key names is missing.
    NoParent { table: PText, number: u8 },
    /// E506: a row of that table refers to the row by that foreign key.
    Referenced { table: PText, number: u8 },
    /// E507: the group of that limit has n rows already.
    Cardinality { table: PText, number: u8, n: u32 },
    /// E508: the row's code is too long.
    RowLong { table: PText, length: u32 },
    /// E510: a group of this counter that would grow has the greatest number of rows.
    CounterFull { name: PText },
    /// E511: the row is there, and this condition, counted from 1, doesn't hold of it.
    Condition { table: PText, number: u8 },
    /// E512: the code of the batch's changes is too long.
    BatchLong { length: u32 },
    /// E514: what this column has is NULL, or leaves 64 bits by its ADD.
    Sum { table: PText, column: PText },
}

// Written out, so that whoever drops a refusal makes one call for it.
impl Drop for Refusal {
    fn drop(self) {
        match self {
            Refusal::NotUtf8 => {}
            Refusal::Unfinished => {}
            Refusal::StatementLong => {}
            Refusal::Syntax { at: _at } => {}
            Refusal::NameTaken { name: _name } => {}
            Refusal::NoTable { name: _name } => {}
            Refusal::NoColumn { name: _name } => {}
            Refusal::Repeated { name: _name } => {}
            Refusal::ForeignShape { number: _number } => {}
            Refusal::Count { word: _word } => {}
            Refusal::TooManyRows { table: _table } => {}
            Refusal::NullableKey { name: _name } => {}
            Refusal::NotEmpty { table: _table } => {}
            Refusal::Alias { name: _name } => {}
            Refusal::OperandKind { pred: _pred } => {}
            Refusal::Params => {}
            Refusal::NoBound { alias: _alias } => {}
            Refusal::BoundLarge {
                ops: _ops,
                entries: _entries,
            } => {}
            Refusal::NoQuery { name: _name } => {}
            Refusal::ParamValue { number: _number } => {}
            Refusal::Cursor => {}
            Refusal::NotPaged => {}
            Refusal::NoCounter { name: _name } => {}
            Refusal::IndexWanted { table: _table } => {}
            Refusal::ValueKind {
                table: _table,
                column: _column,
            } => {}
            Refusal::WrongColumns { table: _table } => {}
            Refusal::DuplicateKey { table: _table } => {}
            Refusal::NoRow { table: _table } => {}
            Refusal::NoParent {
                table: _table,
                number: _number,
            } => {}
            Refusal::Referenced {
                table: _table,
                number: _number,
            } => {}
            Refusal::Cardinality {
                table: _table,
                number: _number,
                n: _n,
            } => {}
            Refusal::RowLong {
                table: _table,
                length: _length,
            } => {}
            Refusal::CounterFull { name: _name } => {}
            Refusal::Condition {
                table: _table,
                number: _number,
            } => {}
            Refusal::BatchLong { length: _length } => {}
            Refusal::Sum {
                table: _table,
                column: _column,
            } => {}
        }
    }
}

/// Why a call that may refuse gave no answer.
#[derive(Drop)]
pub enum Stopped {
    Refused(Refusal),
    NoMem,
}

impl From<NoMem> for Stopped {
    ghost use Rattle.std.specs.Prelude.{◌≡◌};
    ghost use Rattle.pq_base.specs.declared.refusal.Stopped.TheVariants as stopped;

    ghost from_gives = { λ _ made. made ≡ stopped.NoMem };

    fn from(_error: NoMem) -> Stopped {
        Stopped::NoMem
    }
}
