//! The sequences of a table, walked without memory.

ghost use Rattle.std.specs.Prelude.{◌≡◌, ◌==◌, ◌<◌, [], IfOk, slice_get, position};
ghost use Rattle.pq_schema.specs.Keys.{dirs_of};
ghost use Rattle.pq_schema.specs.Sound.{IsTable, AreColumns, AreParts};
ghost use Rattle.pq_schema.specs.Sequences.{then_key, begins_with, columns_of, primary_sequence, index_sequence, sequence_of, IsAccess, group_access};
ghost use Rattle.pq_base.specs.Columns.{set_of};

use crate::table::{Access, Index, KeyPart, Table};
use pq_base::{ColSet, Dir, List, NoMem};
use std::alloc::Global;

/// The part at a place among the parts and then the key columns that are not in the set.
pub fn part_at(parts: &[KeyPart], set: ColSet, key: &[u8], place: usize) -> Option<KeyPart>
    requires { AreColumns key.now }
    ensures { result ≡ slice_get (then_key parts.now set key.now) place }
{
    if place < parts.len() {
        return Some(parts[place]);
    }
    let mut left = place - parts.len();
    for col in key {
        if !set.has(*col) {
            if left == 0 {
                return Some(KeyPart {
                    col: *col,
                    dir: Dir::Asc,
                });
            }
            left -= 1;
        }
    }
    None
}

/// Whether the parts and then the key columns that are not in the one set begin with the other.
pub fn begins(parts: &[KeyPart], left_out: ColSet, key: &[u8], set: ColSet) -> bool
    requires parts { AreParts parts.now }
    requires key { AreColumns key.now }
    ensures { result ≡ begins_with (then_key parts.now left_out key.now) set }
{
    let mut first = ColSet::empty();
    for place in 0..set.count() as usize {
        match part_at(parts, left_out, key, place) {
            Some(part) => {
                first = first.with(part.col);
            }
            None => {
                return first.same(set);
            }
        }
    }
    first.same(set)
}

/// The columns of the parts.
pub fn columns_in(parts: &[KeyPart]) -> ColSet
    requires { AreParts parts.now }
    ensures { result ≡ set_of (columns_of parts.now) }
{
    let mut set = ColSet::empty();
    for part in parts {
        set = set.with(part.col);
    }
    set
}

/// Whether the primary sequence begins with the set.
#[tactic(auto, using(crate::proofs::Places::all_left))]
pub fn primary_begins(table: &Table, set: ColSet) -> bool
    requires { IsTable table.now }
    ensures { result ≡ begins_with (primary_sequence table.now) set }
{
    begins(&[], ColSet::empty(), table.key.items(), set)
}

/// Whether the sequence of the index begins with the set.
pub fn index_begins(table: &Table, index: &Index, set: ColSet) -> bool
    requires table { IsTable table.now }
    requires index { AreParts index.now.cols }
    ensures { result ≡ begins_with (index_sequence table.now index.now) set }
{
    let parts = index.cols.items();
    begins(parts, columns_in(parts), table.key.items(), set)
}

/// The first index whose sequence begins with the set.
fn first_beginning(table: &Table, set: ColSet) -> Option<usize>
    requires { IsTable table.now }
    ensures { result ≡ position (λ index. begins_with (index_sequence table.now index) set) table.now.indexes }
{
    table
        .indexes
        .items()
        .iter()
        .position(|index| index_begins(table, index, set))
}

/// The first of the table's sequences that begins with the set.
pub fn group_access(table: &Table, set: ColSet) -> Option<Access>
    requires { IsTable table.now }
    ensures { result ≡ group_access table.now set }
{
    if primary_begins(table, set) {
        return Some(Access::Primary);
    }
    match first_beginning(table, set) {
        None => None,
        Some(place) => Some(Access::Secondary(place as u8 + 1)),
    }
}

/// The parts, and then the key columns that are not in the set, ascending.
fn parts_then_key(
    alloc: Global,
    parts: &[KeyPart],
    set: ColSet,
    key: &[u8],
) -> Result<List<KeyPart>, NoMem>
    requires { AreColumns key.now }
    ensures { IfOk result (λ made. made ≡ then_key parts.now set key.now) }
{
    let mut made = List::new(alloc);
    for part in parts {
        made.push(alloc, *part)?;
    }
    for col in key {
        if !set.has(*col) {
            made.push(
                alloc,
                KeyPart {
                    col: *col,
                    dir: Dir::Asc,
                },
            )?;
        }
    }
    Ok(made)
}

/// The columns of the index, and then the key columns not among them.
pub fn index_sequence(alloc: Global, table: &Table, index: &Index) -> Result<List<KeyPart>, NoMem>
    requires key { AreColumns table.now.key }
    requires parts { AreParts index.now.cols }
    ensures { IfOk result (λ parts. parts ≡ index_sequence table.now index.now) }
{
    let parts = index.cols.items();
    parts_then_key(alloc, parts, columns_in(parts), table.key.items())
}

/// The primary sequence, or that of an index of the table.
#[tactic(auto, using(crate::proofs::Places::all_left))]
pub fn sequence(alloc: Global, table: &Table, access: Access) -> Result<List<KeyPart>, NoMem>
    requires table { IsTable table.now }
    requires access { IsAccess table.now access }
    ensures { IfOk result (λ parts. parts ≡ sequence_of table.now access) }
{
    match access {
        Access::Primary => parts_then_key(alloc, &[], ColSet::empty(), table.key.items()),
        Access::Secondary(number) => {
            index_sequence(alloc, table, &table.indexes.items()[number as usize - 1])
        }
    }
}

/// The directions of the parts.
pub fn dirs_of(alloc: Global, parts: &[KeyPart]) -> Result<List<Dir>, NoMem>
    ensures { IfOk result (λ dirs. dirs ≡ dirs_of parts.now) }
{
    let mut dirs = List::new(alloc);
    for part in parts {
        dirs.push(alloc, part.dir)?;
    }
    Ok(dirs)
}
