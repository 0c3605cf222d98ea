//! Tables by number: columns from 0, tables, limits, foreign keys and indexes from 1.

ghost use Rattle.std.specs.Prelude.{◌≡◌};
ghost use Rattle.pq_schema.specs.Schema.{find_column};
ghost use Rattle.pq_base.specs.Values.{same_kind};
ghost use Rattle.pq_schema.specs.Tables.{type_at};

use pq_base::{ColType, Dir, List, PText, Value};

/// A column of a table.
#[derive(Drop)]
pub struct Column {
    pub name: PText,
    pub ty: ColType,
}

/// At most `n` rows without NULL in the columns agree on them.
#[derive(Drop)]
pub struct Limit {
    pub n: u32,
    pub cols: List<u8>,
}

/// The columns name the key of a row of the table.
#[derive(Drop)]
pub struct Foreign {
    pub cols: List<u8>,
    pub table: u8,
}

/// A column of a sequence with its direction.
#[derive(Clone, Copy, PartialEq, Eq)]
pub struct KeyPart {
    pub col: u8,
    pub dir: Dir,
}

impl Default for KeyPart {
    fn default() -> KeyPart {
        KeyPart {
            col: 0,
            dir: Dir::Asc,
        }
    }
}

/// A secondary index. Its sequence goes on with the key columns that are not among its own.
#[derive(Drop)]
pub struct Index {
    pub cols: List<KeyPart>,
}

/// A table, with the indexes that it has by now. `fillers` has a place for each column: the default of an
/// added one, and None at the columns of the definition.
pub struct Table {
    pub name: PText,
    pub columns: List<Column>,
    pub fillers: List<Option<Value>>,
    pub key: List<u8>,
    pub limits: List<Limit>,
    pub foreign: List<Foreign>,
    pub indexes: List<Index>,
}

// Written out, so that whoever drops a table makes one call for it.
impl Drop for Table {
    fn drop(self) {
        let Table {
            name: _name,
            columns: _columns,
            fillers: _fillers,
            key: _key,
            limits: _limits,
            foreign: _foreign,
            indexes: _indexes,
        } = self;
    }
}

/// The place of the column of this name, from 0; None exactly where there is none.
pub fn find_column(columns: &[Column], name: &PText) -> Option<usize>
    ensures { result ≡ find_column columns.now name.now }
{
    columns
        .iter()
        .position(|column| column.name.bytes() == name.bytes())
}

/// The type of the column at a place; BOOL at a place that no column has.
pub fn type_at(columns: &[Column], col: u8) -> ColType
    ensures { result ≡ type_at columns.now col }
{
    match columns.get(col as usize) {
        None => ColType::Bool,
        Some(column) => column.ty,
    }
}

/// Whether both are numbers, both truth values or both texts, of any length.
pub fn same_kind(a: ColType, b: ColType) -> bool
    ensures { result ≡ same_kind a b }
{
    a.kind().is(b.kind())
}

/// A sequence of a table: that of its key, or of a secondary index by its number, from 1.
#[derive(Clone, Copy, PartialEq, Eq)]
pub enum Access {
    Primary,
    Secondary(u8),
}

/// An index that a query wants, with the number that it gets.
#[derive(Drop)]
pub struct NewIndex {
    pub table: u8,
    pub number: u8,
    pub index: Index,
}

/// A foreign key of a table, by its number from 1.
#[derive(Clone, Copy, PartialEq, Eq)]
pub struct Referring {
    pub table: u8,
    pub foreign: u8,
}
