//! Keys of rows and of entries, coded straight from the values.
ghost use Rattle.std.specs.Prelude.{◌≡◌, ◌++◌, [], length, replicate, take, count_ones, IfOk, OnOk};
ghost use Rattle.pq_base.specs.Columns.{set_of};
ghost use Rattle.pq_base.specs.declared.value.Dir.TheVariants.{Asc};
ghost use Rattle.pq_key_code.specs.KeyCode.{code_of, component, row_key};
ghost use Rattle.pq_schema.specs.Sound.{AreColumns, AreParts};
ghost use Rattle.pq_schema.specs.Sequences.{columns_of, then_key, index_sequence};
ghost use Rattle.pq_content.specs.Pairs.{entry_pair};
ghost use Rattle.pq_content.specs.Tables.{value_of, cells};
ghost use Rattle.pq_row_keys.specs.Coded.{sequence_code};
ghost use Rattle.pq_row_keys.specs.Groups.{values_from};
ghost use Rattle.pq_schema.specs.Keys.{given_value};

use pq_base::{Bytes, ColSet, Dir, NoMem, Row, Value, no_value};
use pq_key_code::{entry_front, put_component, row_front};
use pq_schema::{Index, KeyPart, Table, columns_in, part_at};
use std::alloc::Global;

/// Puts the row's value at a column.
fn put_cell(alloc: Global, out: &mut Bytes, dir: Dir, row: &[Value], col: u8) -> Result<(), NoMem>
    ensures { OnOk result (out.new ≡ out.old ++ component dir (value_of row.now col)) }
{
    match row.get(col as usize) {
        Some(value) => put_component(alloc, out, dir, value),
        None => put_component(alloc, out, dir, &no_value()),
    }
}

/// Puts the value that a column is given, where these columns are given these values.
fn put_given(
    alloc: Global,
    out: &mut Bytes,
    dir: Dir,
    cols: &[u8],
    values: &[Value],
    col: u8,
) -> Result<(), NoMem>
    ensures { OnOk result (out.new ≡ out.old ++ component dir (given_value cols.now values.now col)) }
{
    match (cols.split_first(), values.split_first()) {
        (Some((other, cols)), Some((value, values))) => {
            if *other == col {
                put_component(alloc, out, dir, value)
            } else {
                put_given(alloc, out, dir, cols, values, col)
            }
        }
        _ => put_component(alloc, out, dir, &no_value()),
    }
}

/// Puts the value that a column is given, where these columns are given the row's values at them.
fn put_given_cell(
    alloc: Global,
    out: &mut Bytes,
    dir: Dir,
    cols: &[u8],
    row: &[Value],
    col: u8,
) -> Result<(), NoMem>
    ensures { OnOk result (out.new ≡ out.old ++ component dir (given_value cols.now (cells cols.now row.now) col)) }
{
    match cols.split_first() {
        Some((other, cols)) => {
            if *other == col {
                put_cell(alloc, out, dir, row, col)
            } else {
                put_given_cell(alloc, out, dir, cols, row, col)
            }
        }
        None => put_component(alloc, out, dir, &no_value()),
    }
}

/// Where columns have their values.
#[derive(Clone, Copy)]
pub(crate) enum Source {
    /// In the order of the columns.
    InOrder,
    /// In a row, each at its column's place.
    InRow,
}

/// Puts the value that a column is given, where these columns have their values so.
fn put_from(
    alloc: Global,
    out: &mut Bytes,
    dir: Dir,
    source: Source,
    cols: &[u8],
    values: &[Value],
    col: u8,
) -> Result<(), NoMem>
    ensures { OnOk result (out.new
        ≡ out.old ++ component dir (given_value cols.now (values_from source cols.now values.now) col)) }
{
    match source {
        Source::InOrder => put_given(alloc, out, dir, cols, values, col),
        Source::InRow => put_given_cell(alloc, out, dir, cols, values, col),
    }
}

/// Puts the ascending code of the row's values at the columns.
pub fn put_cells(alloc: Global, out: &mut Bytes, cols: &[u8], row: &[Value]) -> Result<(), NoMem>
    ensures { OnOk result (out.new ≡ out.old ++ code_of (replicate (length cols.now) Asc) (cells cols.now row.now)) }
{
    for col in cols {
        put_cell(alloc, out, Dir::Asc, row, *col)?;
    }
    Ok(())
}

/// The key of the row whose key is the values of this row at the columns.
pub fn key_at(alloc: Global, number: u8, cols: &[u8], row: &[Value]) -> Result<Bytes, NoMem>
    ensures { IfOk result (λ key. key ≡ row_key number (cells cols.now row.now)) }
{
    let mut key = row_front(alloc, number)?;
    put_cells(alloc, &mut key, cols, row)?;
    Ok(key)
}

/// Puts the row's values at the columns of the parts.
fn put_parts(alloc: Global, out: &mut Bytes, parts: &[KeyPart], row: &[Value]) -> Result<(), NoMem>
    ensures { OnOk result (out.new ≡ out.old ++ sequence_code (value_of row.now) parts.now) }
{
    for part in parts {
        put_cell(alloc, out, part.dir, row, part.col)?;
    }
    Ok(())
}

/// Puts the row's values at the columns that are not in the set.
fn put_left(
    alloc: Global,
    out: &mut Bytes,
    cols: &[u8],
    set: ColSet,
    row: &[Value],
) -> Result<(), NoMem>
    requires { AreColumns cols.now }
    ensures { OnOk result (out.new ≡ out.old ++ sequence_code (value_of row.now) (then_key [] set cols.now)) }
{
    for col in cols {
        if !set.has(*col) {
            put_cell(alloc, out, Dir::Asc, row, *col)?;
        }
    }
    Ok(())
}

/// The key of the row's entry in an index of this number, from 1.
pub fn entry_of(
    alloc: Global,
    number: u8,
    place: u8,
    table: &Table,
    index: &Index,
    row: &Row,
) -> Result<Bytes, NoMem>
    requires key { AreColumns table.now.key }
    requires parts { AreParts index.now.cols }
    ensures { IfOk result (λ key. key ≡ (entry_pair number place (index_sequence table.now index.now) row.now).0) }
{
    let cols = index.cols.items();
    let mut key = entry_front(alloc, number, place)?;
    put_parts(alloc, &mut key, cols, row.items())?;
    put_left(
        alloc,
        &mut key,
        table.key.items(),
        columns_in(cols),
        row.items(),
    )?;
    Ok(key)
}

/// Puts the first components of the parts and then the key columns that are not of the parts: as many as
/// there are columns, each with the value that it is given.
pub(crate) fn put_first(
    alloc: Global,
    out: &mut Bytes,
    parts: &[KeyPart],
    key: &[u8],
    source: Source,
    cols: &[u8],
    values: &[Value],
) -> Result<(), NoMem>
    requires parts { AreParts parts.now }
    requires key { AreColumns key.now }
    requires columns { AreColumns cols.now }
    ensures { OnOk result (out.new
        ≡ out.old ++ sequence_code (given_value cols.now (values_from source cols.now values.now))
        (take (count_ones (set_of cols.now)) (then_key parts.now (set_of (columns_of parts.now)) key.now))) }
{
    let set = columns_in(parts);
    for place in 0..ColSet::of(cols).count() as usize {
        match part_at(parts, set, key, place) {
            Some(part) => put_from(alloc, out, part.dir, source, cols, values, part.col)?,
            None => return Ok(()),
        }
    }
    Ok(())
}
