//! What a build is of: the index of a table, and the definition of the query that made it.
ghost use Rattle.std.specs.Prelude.{◌≡◌, IfOk};
ghost use Rattle.pq_schema.specs.Sequences.{IsAccess, index_numbered};
ghost use Rattle.pq_schema.specs.Sound.{IsTable, AreColumns, AreParts};
ghost use Rattle.pq_content.specs.Tables.{values_of};
ghost use Rattle.pq_builds.specs.Filling.{entry_at};
ghost use Rattle.pq_builds.specs.Targets.{target_of};

use pq_base::{Bytes, ColType, List, NoMem, Row, Value, value_of};
use pq_calls::types_of;
use pq_key_code::entry_key;
use pq_schema::{Access, KeyPart, NewIndex, Table, dirs_of, index_sequence, sequence};
use std::alloc::Global;

/// An index that is filled: the table's number and its own, from 1, the types of the table's columns and
/// the defaults of those that were added, and the index's sequence.
pub struct Target {
    pub table: u8,
    pub index: u8,
    pub types: List<ColType>,
    pub fillers: List<Option<Value>>,
    pub parts: List<KeyPart>,
}

// Written out, so that whoever drops a target makes one call for it.
impl Drop for Target {
    fn drop(self) {
        let Target {
            table: _table,
            index: _index,
            types: _types,
            fillers: _fillers,
            parts: _parts,
        } = self;
    }
}

/// The definition whose index is filled: its key in the store, its format, and its canonical text.
pub struct NewQuery {
    pub key: Bytes,
    pub format: u8,
    pub text: Bytes,
}

// Written out, so that whoever drops a definition makes one call for it.
impl Drop for NewQuery {
    fn drop(self) {
        let NewQuery {
            key: _key,
            format: _format,
            text: _text,
        } = self;
    }
}

/// A copy of the default of a column.
fn copied_filler(alloc: Global, filler: &Option<Value>) -> Result<Option<Value>, NoMem>
    ensures { IfOk result (λ copy. copy ≡ filler.now) }
{
    match filler {
        None => Ok(None),
        Some(value) => Ok(Some(value.copy(alloc)?)),
    }
}

/// A copy of the defaults of some columns.
fn copied_fillers(alloc: Global, fillers: &[Option<Value>]) -> Result<List<Option<Value>>, NoMem>
    ensures { IfOk result (λ copy. copy ≡ fillers.now) }
{
    let mut copy = List::with_room(alloc, fillers.len())?;
    for filler in fillers {
        copy.push(alloc, copied_filler(alloc, filler)?)?;
    }
    Ok(copy)
}

impl Target {
    /// The index that a query wants of this table.
    pub fn wanted(alloc: Global, table: &Table, new: &NewIndex) -> Result<Target, NoMem>
        requires key { AreColumns table.now.key }
        requires parts { AreParts new.now.index.cols }
        ensures { IfOk result (λ target. target ≡ target_of new.now.table new.now.number table.now new.now.index) }
    {
        Ok(Target {
            table: new.table,
            index: new.number,
            types: types_of(alloc, table)?,
            fillers: copied_fillers(alloc, table.fillers.items())?,
            parts: index_sequence(alloc, table, &new.index)?,
        })
    }

    /// The index of the table of this number that has this number, from 1.
    pub fn made(alloc: Global, number: u8, table: &Table, index: u8) -> Result<Target, NoMem>
        requires table { IsTable table.now }
        requires access { IsAccess table.now (Access.Secondary index) }
        ensures { IfOk result (λ target. target ≡ target_of number index table.now (index_numbered table.now index)) }
    {
        Ok(Target {
            table: number,
            index,
            types: types_of(alloc, table)?,
            fillers: copied_fillers(alloc, table.fillers.items())?,
            parts: sequence(alloc, table, Access::Secondary(index))?,
        })
    }
}

/// The values at the columns of a sequence.
fn values_of(alloc: Global, parts: &[KeyPart], row: &Row) -> Result<Row, NoMem>
    ensures { IfOk result (λ values. values ≡ values_of parts.now row.now) }
{
    let mut values = List::new(alloc);
    for part in parts {
        values.push(alloc, value_of(alloc, row.items(), part.col)?)?;
    }
    Ok(values)
}

/// The key of a row's entry.
pub(crate) fn entry_of(alloc: Global, target: &Target, row: &Row) -> Result<Bytes, NoMem>
    ensures { IfOk result (λ key. key ≡ entry_at target.now row.now) }
{
    let values = values_of(alloc, target.parts.items(), row)?;
    let dirs = dirs_of(alloc, target.parts.items())?;
    entry_key(alloc, target.table, target.index, &values, dirs.items())
}
