//! Writes by numbers: tables from 1, columns from 0.
ghost use Rattle.std.specs.Prelude.{◌≡◌, ◌<◌, All};
ghost use Rattle.pq_index_keep.specs.Tested.{touches, scope_of};

use pq_base::{ColSet, List, Op, Row, Value};
use pq_def_read::Setting;
use pq_schema::Table;

/// A column and what it is set to.
#[derive(Drop)]
pub struct SetCol {
    pub col: u8,
    pub to: Setting,
}

/// What a column of the row has to be like; the value beside IsNull is NULL.
#[derive(Drop)]
pub struct Cond {
    pub col: u8,
    pub op: Op,
    pub value: Value,
}

/// An INSERT, UPDATE or DELETE of one row.
pub enum Write {
    /// The row, with a value for each column.
    Insert {
        table: u8,
        row: Row,
    },
    /// The row with this key is set so, where the conditions hold of it.
    Update {
        table: u8,
        key: Row,
        sets: List<SetCol>,
        conds: List<Cond>,
    },
    /// The row with this key, where the conditions hold of it.
    Delete {
        table: u8,
        key: Row,
        conds: List<Cond>,
    },
}

// Written out, so that whoever drops a write makes one call for it.
impl Drop for Write {
    fn drop(self) {
        match self {
            Write::Insert {
                table: _table,
                row: _row,
            } => {}
            Write::Update {
                table: _table,
                key: _key,
                sets: _sets,
                conds: _conds,
            } => {}
            Write::Delete {
                table: _table,
                key: _key,
                conds: _conds,
            } => {}
        }
    }
}

/// The columns that a write gives values: all of them, or those of a set.
#[derive(Clone, Copy)]
pub enum Scope {
    All,
    Columns(ColSet),
}

/// A row that is to stand in its table: the columns that get values, and the row that it comes in the place of.
#[derive(Clone, Copy)]
pub(crate) struct NewRow<'a> {
    pub scope: &'a Scope,
    pub old: &'a Option<Row>,
    pub number: u8,
    pub table: &'a Table,
    pub row: &'a Row,
}

fn has_any(set: ColSet, cols: &[u8]) -> bool
    requires { All (λ col. col < 32) cols.now }
    ensures { result ≡ touches (Scope.Columns set) cols.now }
{
    cols.iter().any(|col| set.has(*col))
}

impl Scope {
    /// Whether some of these columns get a value.
    pub fn touches(&self, cols: &[u8]) -> bool
        requires { All (λ col. col < 32) cols.now }
        ensures { result ≡ touches self.now cols.now }
    {
        match self {
            Scope::All => true,
            Scope::Columns(set) => has_any(*set, cols),
        }
    }

    /// The columns that an UPDATE sets.
    pub fn of(sets: &[SetCol]) -> Scope
        requires { All (λ set. set.col < 32) sets.now }
        ensures { result ≡ scope_of sets.now }
    {
        let mut columns = ColSet::empty();
        for set in sets {
            columns = columns.with(set.col);
        }
        Scope::Columns(columns)
    }
}
