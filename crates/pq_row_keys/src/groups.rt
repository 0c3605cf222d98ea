//! The beginning of the keys of the rows that have given values at some columns, in the first sequence
//! that begins with these columns.
ghost use Rattle.std.specs.Prelude.{◌≡◌, ◌≤◌, length, IfOk, IsSome};
ghost use Rattle.pq_base.specs.Columns.{set_of};
ghost use Rattle.pq_schema.specs.Sequences.{index_numbered, group_access};
ghost use Rattle.pq_schema.specs.Sound.{IsTable, AreColumns, AreParts};
ghost use Rattle.pq_calls.specs.Keys.{sequence_key};
ghost use Rattle.pq_content.specs.Tables.{cells};
ghost use Rattle.pq_row_keys.specs.Groups.{first_values, group_key, values_from};

use crate::keys::{Source, put_first};
use pq_base::{Bytes, ColSet, NoMem, Value};
use pq_key_code::{entry_front, row_front};
use pq_schema::{Access, Index, Table, group_access};
use std::alloc::Global;

/// The beginning of the keys of the rows with these values at these columns, in the primary sequence.
fn primary_key(
    alloc: Global,
    number: u8,
    table: &Table,
    source: Source,
    cols: &[u8],
    values: &[Value],
) -> Result<Bytes, NoMem>
    requires columns { AreColumns cols.now }
    requires table { IsTable table.now }
    ensures { IfOk result (λ key. key
        ≡ sequence_key number table.now Access.Primary
        (first_values table.now Access.Primary cols.now (values_from source cols.now values.now))) }
{
    let mut front = row_front(alloc, number)?;
    put_first(
        alloc,
        &mut front,
        &[],
        table.key.items(),
        source,
        cols,
        values,
    )?;
    Ok(front)
}

/// The index of this number, from 1.
fn index_numbered(table: &Table, number: u8) -> &Index
    requires table { IsTable table.now }
    requires from_one { 1 ≤ number }
    requires there { number ≤ length table.now.indexes }
    ensures index { result.now ≡ index_numbered table.now number }
    ensures parts { AreParts result.now.cols }
{
    &table.indexes.items()[number as usize - 1]
}

/// The same in the sequence of an index, by its number from 1.
fn secondary_key(
    alloc: Global,
    number: u8,
    table: &Table,
    index: u8,
    source: Source,
    cols: &[u8],
    values: &[Value],
) -> Result<Bytes, NoMem>
    requires columns { AreColumns cols.now }
    requires table { IsTable table.now }
    requires from_one { 1 ≤ index }
    requires there { index ≤ length table.now.indexes }
    ensures { IfOk result (λ key. key
        ≡ sequence_key number table.now (Access.Secondary index)
        (first_values table.now (Access.Secondary index) cols.now (values_from source cols.now values.now))) }
{
    let parts = index_numbered(table, index).cols.items();
    let mut front = entry_front(alloc, number, index)?;
    put_first(
        alloc,
        &mut front,
        parts,
        table.key.items(),
        source,
        cols,
        values,
    )?;
    Ok(front)
}

/// The same in the first sequence that begins with the columns.
#[tactic(auto, unfolding(crate::specs::Groups::group_key))]
fn key_from(
    alloc: Global,
    number: u8,
    table: &Table,
    source: Source,
    cols: &[u8],
    values: &[Value],
) -> Result<Bytes, NoMem>
    requires columns { AreColumns cols.now }
    requires table { IsTable table.now }
    requires access { IsSome (group_access table.now (set_of cols.now)) }
    ensures { IfOk result (λ key. key
        ≡ group_key number table.now cols.now (values_from source cols.now values.now)) }
{
    match group_access(table, ColSet::of(cols)) {
        Some(Access::Secondary(index)) => {
            secondary_key(alloc, number, table, index, source, cols, values)
        }
        Some(Access::Primary) | None => primary_key(alloc, number, table, source, cols, values),
    }
}

/// The beginning of the keys of the rows with these values at these columns.
pub fn group_key(
    alloc: Global,
    number: u8,
    table: &Table,
    cols: &[u8],
    values: &[Value],
) -> Result<Bytes, NoMem>
    requires columns { AreColumns cols.now }
    requires table { IsTable table.now }
    requires access { IsSome (group_access table.now (set_of cols.now)) }
    ensures { IfOk result (λ key. key ≡ group_key number table.now cols.now values.now) }
{
    key_from(alloc, number, table, Source::InOrder, cols, values)
}

/// The beginning of the keys of the rows that agree with the row at these columns.
pub fn group_key_of(
    alloc: Global,
    number: u8,
    table: &Table,
    cols: &[u8],
    row: &[Value],
) -> Result<Bytes, NoMem>
    requires columns { AreColumns cols.now }
    requires table { IsTable table.now }
    requires access { IsSome (group_access table.now (set_of cols.now)) }
    ensures { IfOk result (λ key. key ≡ group_key number table.now cols.now (cells cols.now row.now)) }
{
    key_from(alloc, number, table, Source::InRow, cols, row)
}
