//! Keys of a table's sequences, and what they are made of.
ghost use Rattle.std.specs.Prelude.{◌≡◌, ◌≤◌, ◌++◌, length, map, replicate, IfOk, OnOk};
ghost use Rattle.pq_base.specs.declared.value.Dir.TheVariants.{Asc};
ghost use Rattle.pq_key_code.specs.KeyCode.{component, code_of, row_key};
ghost use Rattle.pq_schema.specs.Keys.{dirs_of, given_value};
ghost use Rattle.pq_schema.specs.Sequences.{IsAccess, columns_of, then_key, sequence_of};
ghost use Rattle.pq_schema.specs.Sound.{IsTable, AreColumns};
ghost use Rattle.pq_schema.specs.Tables.{types_at};
ghost use Rattle.pq_calls.specs.Keys.{sequence_key, named_key};

use pq_base::{Bytes, ColSet, ColType, Dir, List, NoMem, Row, Value, no_value};
use pq_key_code::{entry_front, put_component, row_front, row_key};
use pq_schema::{Access, Column, KeyPart, Table, columns_in, part_at, sequence, type_at};
use std::alloc::Global;

/// The types of the columns of the parts.
pub fn types_at(
    alloc: Global,
    columns: &[Column],
    parts: &[KeyPart],
) -> Result<List<ColType>, NoMem>
    ensures { IfOk result (λ types. types ≡ types_at columns.now (columns_of parts.now)) }
{
    let mut types = List::with_room(alloc, parts.len())?;
    for part in parts {
        types.push(alloc, type_at(columns, part.col))?;
    }
    Ok(types)
}

/// Puts the values in the directions of the parts and then of the key columns that are not in the set.
fn put_values(
    alloc: Global,
    out: &mut Bytes,
    parts: &[KeyPart],
    set: ColSet,
    key: &[u8],
    values: &[Value],
) -> Result<(), NoMem>
    requires { AreColumns key.now }
    ensures { OnOk result (out.new ≡ out.old ++ code_of (dirs_of (then_key parts.now set key.now)) values.now) }
{
    for (place, value) in values.iter().enumerate() {
        match part_at(parts, set, key, place) {
            Some(part) => put_component(alloc, out, part.dir, value)?,
            None => return Ok(()),
        }
    }
    Ok(())
}

/// The beginning of the keys of an index's entries with these first values, or the whole key.
#[tactic(auto, using(crate::proofs::Placed::behind_front))]
fn secondary_key(
    alloc: Global,
    number: u8,
    table: &Table,
    index: u8,
    values: &[Value],
) -> Result<Bytes, NoMem>
    requires table { IsTable table.now }
    requires access { IsAccess table.now (Access.Secondary index) }
    ensures { IfOk result (λ key. key ≡ sequence_key number table.now (Access.Secondary index) values.now) }
{
    let parts = table.indexes.items()[index as usize - 1].cols.items();
    let mut key = entry_front(alloc, number, index)?;
    put_values(
        alloc,
        &mut key,
        parts,
        columns_in(parts),
        table.key.items(),
        values,
    )?;
    Ok(key)
}

/// The key of these values in a sequence of the table, or the beginning of the keys with these first values.
pub fn sequence_key(
    alloc: Global,
    number: u8,
    table: &Table,
    access: Access,
    values: &Row,
) -> Result<Bytes, NoMem>
    requires table { IsTable table.now }
    requires access { IsAccess table.now access }
    requires short { length values.now ≤ length (sequence_of table.now access) }
    ensures { IfOk result (λ key. key ≡ sequence_key number table.now access values.now) }
{
    match access {
        Access::Primary => row_key(alloc, number, values),
        Access::Secondary(index) => secondary_key(alloc, number, table, index, values.items()),
    }
}

/// The value that a column is given, where the columns of the parts are given these values.
fn given(alloc: Global, parts: &[KeyPart], values: &[Value], col: u8) -> Result<Value, NoMem>
    ensures { IfOk result (λ value. value ≡ given_value (columns_of parts.now) values.now col) }
{
    match (parts.split_first(), values.split_first()) {
        (Some((part, parts)), Some((value, values))) => {
            if part.col == col {
                value.copy(alloc)
            } else {
                given(alloc, parts, values, col)
            }
        }
        _ => Ok(no_value()),
    }
}

/// The key of the row that the entry with these values names.
pub(crate) fn named_key(
    alloc: Global,
    table: &Table,
    access: Access,
    values: &Row,
) -> Result<Row, NoMem>
    requires table { IsTable table.now }
    requires access { IsAccess table.now access }
    ensures { IfOk result (λ key. key ≡ named_key table.now access values.now) }
{
    let parts = sequence(alloc, table, access)?;
    let mut key = Row::new(alloc);
    for col in table.key.items() {
        key.push(alloc, given(alloc, parts.items(), values.items(), *col)?)?;
    }
    Ok(key)
}

/// Puts the value that a column is given, where the columns of the parts are given these values.
fn put_given(
    alloc: Global,
    out: &mut Bytes,
    parts: &[KeyPart],
    values: &[Value],
    col: u8,
) -> Result<(), NoMem>
    ensures { OnOk result (out.new ≡ out.old ++ component Asc (given_value (columns_of parts.now) values.now col)) }
{
    match (parts.split_first(), values.split_first()) {
        (Some((part, parts)), Some((value, values))) => {
            if part.col == col {
                put_component(alloc, out, Dir::Asc, value)
            } else {
                put_given(alloc, out, parts, values, col)
            }
        }
        _ => put_component(alloc, out, Dir::Asc, &no_value()),
    }
}

/// Puts the ascending code of the values that columns are given.
fn put_key(
    alloc: Global,
    out: &mut Bytes,
    parts: &[KeyPart],
    values: &[Value],
    key: &[u8],
) -> Result<(), NoMem>
    ensures { OnOk result (out.new ≡ out.old ++ code_of (replicate (length key.now) Asc)
        (map (given_value (columns_of parts.now) values.now) key.now)) }
{
    let Some((col, key)) = key.split_first() else {
        return Ok(());
    };
    put_given(alloc, out, parts, values, *col)?;
    put_key(alloc, out, parts, values, key)
}

/// The key in the store of the row that an entry names, by the parts of the index's sequence, the values of the
/// entry and the columns of the key.
#[tactic(auto, using(crate::proofs::Placed::behind_row_front))]
pub(crate) fn named_at(
    alloc: Global,
    number: u8,
    parts: &[KeyPart],
    values: &[Value],
    key: &[u8],
) -> Result<Bytes, NoMem>
    ensures { IfOk result (λ at. at ≡ row_key number (map (given_value (columns_of parts.now) values.now) key.now)) }
{
    let mut at = row_front(alloc, number)?;
    put_key(alloc, &mut at, parts, values, key)?;
    Ok(at)
}
