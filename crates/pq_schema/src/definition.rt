//! The definitions of a table, of an added column and of a counter as their texts have them, with names in
//! place of numbers.

use pq_base::{List, PText, Value};

/// A column: its kind is INT, BOOL or TEXT, and its size is that of TEXT, else 0.
#[derive(Drop)]
pub struct ColumnDef {
    pub name: PText,
    pub kind: PText,
    pub size: i64,
    pub nullable: bool,
}

/// A limit: at most n rows without NULL in the columns agree on them.
#[derive(Drop)]
pub struct LimitDef {
    pub n: i64,
    pub cols: List<PText>,
}

/// A foreign key: the columns name the key of a row of the table.
#[derive(Drop)]
pub struct ForeignDef {
    pub cols: List<PText>,
    pub table: PText,
}

/// A table. Names are in small letters.
pub struct TableDef {
    pub name: PText,
    pub columns: List<ColumnDef>,
    pub key: List<PText>,
    pub limits: List<LimitDef>,
    pub foreign: List<ForeignDef>,
}

// Written out, so that whoever drops a definition makes one call for it.
impl Drop for TableDef {
    fn drop(self) {
        let TableDef {
            name: _name,
            columns: _columns,
            key: _key,
            limits: _limits,
            foreign: _foreign,
        } = self;
    }
}

/// A column that comes behind those of a table, with the value that it has in the rows that are there.
#[derive(Drop)]
pub struct AlterDef {
    pub table: PText,
    pub column: ColumnDef,
    pub filler: Value,
}

/// A counter of the rows of a table that have the same values at the columns.
#[derive(Drop)]
pub struct CounterDef {
    pub name: PText,
    pub table: PText,
    pub cols: List<PText>,
}
