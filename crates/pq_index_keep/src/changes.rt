//! The changes that a write makes of the pairs of a row.
ghost use Rattle.std.specs.Prelude.{◌≡◌, ◌+◌, ◌∷◌, ◌++◌, map, IfOk, OnOk, Some, None};
ghost use Rattle.pq_schema.specs.Sound.{AreColumns, AreParts};
ghost use Rattle.pq_content.specs.Pairs.{entries_from, entry_changes, puts, removals};
ghost use Rattle.pq_content.specs.Standing.{change_of};
ghost use Rattle.pq_index_keep.specs.Moved.{moved_entry_changes};
ghost use Rattle.pq_index_keep.specs.Needs.{AreIndexes, IsCodable};
ghost use Rattle.pq_content.specs.Tables.{stored_code};

use pq_base::{Bytes, List, NoMem, Row};
use pq_row_code::{Change, encode_stored};
use pq_row_keys::{entry_of, same_entry};
use pq_schema::{Index, Table};
use std::alloc::Global;

/// The change that writes the row at its key.
fn put_row(alloc: Global, at: Bytes, table: &Table, row: &Row) -> Result<Change, NoMem>
    requires row { IsCodable row.now }
    ensures { IfOk result (λ change. change_of change ≡ (at, Some (stored_code table.now row.now))) }
{
    let new = Some(encode_stored(alloc, row, &table.fillers)?);
    Ok(Change { key: at, new })
}

/// The changes of an INSERT: the row's own pair at its key, and its entry in each index.
pub(crate) fn puts(
    alloc: Global,
    at: Bytes,
    number: u8,
    table: &Table,
    row: &Row,
) -> Result<List<Change>, NoMem>
    requires indexes { AreIndexes table.now table.now.indexes }
    requires row { IsCodable row.now }
    ensures { IfOk result (λ changes. map change_of changes
        ≡ (at, Some (stored_code table.now row.now))
        ∷ puts (entries_from number 1 table.now table.now.indexes row.now)) }
{
    let mut changes = List::new(alloc);
    changes.push(alloc, put_row(alloc, at, table, row)?)?;
    put_entries(
        alloc,
        number,
        table,
        table.indexes.items(),
        row,
        &mut changes,
    )?;
    Ok(changes)
}

/// Puts the writes of the row's entries in these indexes behind the changes.
fn put_entries(
    alloc: Global,
    number: u8,
    table: &Table,
    indexes: &[Index],
    row: &Row,
    changes: &mut List<Change>,
) -> Result<(), NoMem>
    requires indexes { AreIndexes table.now indexes.now }
    ensures { OnOk result (map change_of changes.new
        ≡ map change_of changes.old ++ puts (entries_from number 1 table.now indexes.now row.now)) }
{
    for (i, index) in indexes.iter().enumerate() {
        let key = entry_of(alloc, number, i as u8 + 1, table, index, row)?;
        let new = Some(Bytes::new(alloc));
        changes.push(alloc, Change { key, new })?;
    }
    Ok(())
}

/// The changes of a DELETE: the removals of the row's own pair at its key and of its entries.
pub(crate) fn removals(
    alloc: Global,
    at: Bytes,
    number: u8,
    table: &Table,
    row: &Row,
) -> Result<List<Change>, NoMem>
    requires indexes { AreIndexes table.now table.now.indexes }
    ensures { IfOk result (λ changes. map change_of changes
        ≡ (at, None) ∷ removals (entries_from number 1 table.now table.now.indexes row.now)) }
{
    let mut changes = List::new(alloc);
    changes.push(alloc, Change { key: at, new: None })?;
    remove_entries(
        alloc,
        number,
        table,
        table.indexes.items(),
        row,
        &mut changes,
    )?;
    Ok(changes)
}

/// Puts the removals of the row's entries in these indexes behind the changes.
fn remove_entries(
    alloc: Global,
    number: u8,
    table: &Table,
    indexes: &[Index],
    row: &Row,
    changes: &mut List<Change>,
) -> Result<(), NoMem>
    requires indexes { AreIndexes table.now indexes.now }
    ensures { OnOk result (map change_of changes.new
        ≡ map change_of changes.old ++ removals (entries_from number 1 table.now indexes.now row.now)) }
{
    for (i, index) in indexes.iter().enumerate() {
        let key = entry_of(alloc, number, i as u8 + 1, table, index, row)?;
        changes.push(alloc, Change { key, new: None })?;
    }
    Ok(())
}

/// An index at its place among those of a table.
#[derive(Clone, Copy)]
struct PlacedIndex<'a> {
    number: u8,
    table: &'a Table,
    place: u8,
    index: &'a Index,
}

/// Puts the removal of the old entry in an index and the write of the new one behind the changes,
/// where the two differ.
fn move_entry(
    alloc: Global,
    placed: &PlacedIndex<'_>,
    old: &Row,
    new: &Row,
    changes: &mut List<Change>,
) -> Result<(), NoMem>
    requires key { AreColumns placed.now.table.now.key }
    requires parts { AreParts placed.now.index.now.cols }
    ensures { OnOk result (map change_of changes.new ≡ map change_of changes.old ++ moved_entry_changes
        placed.now.number placed.now.place placed.now.table.now placed.now.index.now old.now new.now) }
{
    let PlacedIndex {
        number,
        table,
        place,
        index,
    } = *placed;
    if same_entry(table, index, old, new) {
        return Ok(());
    }
    let key = entry_of(alloc, number, place, table, index, old)?;
    changes.push(alloc, Change { key, new: None })?;
    let key = entry_of(alloc, number, place, table, index, new)?;
    let new = Some(Bytes::new(alloc));
    changes.push(alloc, Change { key, new })
}

/// The changes of an UPDATE: the row's pair at its key, and the old and the new entry where they
/// differ.
pub(crate) fn updates(
    alloc: Global,
    at: Bytes,
    number: u8,
    table: &Table,
    old: &Row,
    new: &Row,
) -> Result<List<Change>, NoMem>
    requires indexes { AreIndexes table.now table.now.indexes }
    requires row { IsCodable new.now }
    ensures { IfOk result (λ changes. map change_of changes
        ≡ (at, Some (stored_code table.now new.now))
        ∷ entry_changes number 1 table.now table.now.indexes old.now new.now) }
{
    let mut changes = List::new(alloc);
    changes.push(alloc, put_row(alloc, at, table, new)?)?;
    move_entries(
        alloc,
        number,
        table,
        table.indexes.items(),
        old,
        new,
        &mut changes,
    )?;
    Ok(changes)
}

fn move_entries(
    alloc: Global,
    number: u8,
    table: &Table,
    indexes: &[Index],
    old: &Row,
    new: &Row,
    changes: &mut List<Change>,
) -> Result<(), NoMem>
    requires indexes { AreIndexes table.now indexes.now }
    ensures { OnOk result (map change_of changes.new
        ≡ map change_of changes.old ++ entry_changes number 1 table.now indexes.now old.now new.now) }
{
    for (i, index) in indexes.iter().enumerate() {
        let placed = PlacedIndex {
            number,
            table,
            place: i as u8 + 1,
            index,
        };
        move_entry(alloc, &placed, old, new, changes)?;
    }
    Ok(())
}
