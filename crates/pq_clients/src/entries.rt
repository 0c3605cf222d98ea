//! The entries of a write's rows: those that it adds, and those that it clears.
ghost use Rattle.std.specs.Prelude.{◌≡◌, ◌≤◌, ◌++◌, ◌∷◌, ℕ, List as Items, length, All, IfOk, OnOk, map};
ghost use Rattle.std.specs.Ordering.{eq_by_cmp};
ghost use Rattle.pq_content.specs.Pairs.{entries_from};
ghost use Rattle.pq_schema.specs.Sound.{AreColumns, AreParts};
ghost use Rattle.pq_store.specs.Content.{key_cmp};
ghost use Rattle.pq_clients.specs.Fitting.{MayWrite, IsMadeTable};
ghost use Rattle.pq_clients.specs.Flights.{entry_keys, keys_of_row, has_entry, left_out, old_entries, new_entries, fresh_entries, stale_entries};
ghost use Rattle.pq_clients.specs.InFlight.{tables_of, seen_flight, MayFly};

use crate::flight::InFlight;
use crate::rows::{new_row, old_row, table_number, table_of};
use pq_base::{Bytes, List, NoMem, Row};
use pq_row_keys::entry_of;
use pq_schema::{Index, Table};
use std::alloc::Global;

fn put_keys(
    alloc: Global,
    number: u8,
    table: &Table,
    indexes: &[Index],
    row: &Row,
    keys: &mut List<Bytes>,
) -> Result<(), NoMem>
    requires key { AreColumns table.now.key }
    requires parts { All (λ index. AreParts index.cols) indexes.now }
    requires few { length indexes.now ≤ 16 }
    ensures { OnOk result (keys.new
        ≡ keys.old ++ map (λ pair. pair.0) (entries_from number 1 table.now indexes.now row.now)) }
{
    for (i, index) in indexes.iter().enumerate() {
        let key = entry_of(alloc, number, i as u8 + 1, table, index, row)?;
        keys.push(alloc, key)?;
    }
    Ok(())
}

/// The keys of a row's entries.
#[tactic(auto, unfolding(crate::specs::Flights::entry_keys))]
fn entry_keys(alloc: Global, number: u8, table: &Table, row: &Row) -> Result<List<Bytes>, NoMem>
    requires { IsMadeTable table.now }
    ensures { IfOk result (λ keys. keys ≡ entry_keys number table.now row.now) }
{
    let mut keys = List::new(alloc);
    put_keys(alloc, number, table, table.indexes.items(), row, &mut keys)?;
    Ok(keys)
}

fn keys_of_row(
    alloc: Global,
    number: u8,
    table: &Table,
    row: &Option<Row>,
) -> Result<List<Bytes>, NoMem>
    requires { IsMadeTable table.now }
    ensures { IfOk result (λ keys. keys ≡ keys_of_row number table.now row.now) }
{
    match row {
        None => Ok(List::new(alloc)),
        Some(row) => entry_keys(alloc, number, table, row),
    }
}

fn are_same(a: &[u8], b: &[u8]) -> bool
    ensures { result ≡ eq_by_cmp key_cmp a.now b.now }
{
    a.cmp(b).is_eq()
}

/// Whether a key is among some keys.
fn has_entry(key: &[u8], keys: &[Bytes]) -> bool
    ensures { result ≡ has_entry key.now keys.now }
{
    keys.iter().any(|other| are_same(key, other.items()))
}

/// Puts a copy of the key behind the keys where it is not among the others.
fn put_unless(
    alloc: Global,
    key: &Bytes,
    others: &[Bytes],
    left: &mut List<Bytes>,
) -> Result<(), NoMem>
    ensures { OnOk result ((rest : Items (Items ℕ)) → left.new ++ left_out rest others.now
        ≡ left.old ++ left_out (key.now ∷ rest) others.now) }
{
    if has_entry(key.items(), others) {
        return Ok(());
    }
    left.push(alloc, copy_key(alloc, key)?)
}

/// Those of the keys that are not among the others.
fn left_out(alloc: Global, keys: &[Bytes], others: &[Bytes]) -> Result<List<Bytes>, NoMem>
    ensures { IfOk result (λ left. left ≡ left_out keys.now others.now) }
{
    let mut left = List::new(alloc);
    for key in keys {
        put_unless(alloc, key, others, &mut left)?;
    }
    Ok(left)
}

#[tactic(auto, unfolding(crate::specs::Flights::old_entries))]
fn old_entries(alloc: Global, flight: &InFlight<'_>) -> Result<List<Bytes>, NoMem>
    requires { MayWrite (tables_of flight.now) flight.now.write.now }
    ensures { IfOk result (λ keys. keys ≡ old_entries (tables_of flight.now) (seen_flight flight.now)) }
{
    let row = old_row(alloc, flight)?;
    keys_of_row(
        alloc,
        table_number(flight.write),
        table_of(flight.catalog, flight.write),
        &row,
    )
}

#[tactic(auto, unfolding(crate::specs::Flights::new_entries))]
fn new_entries(alloc: Global, flight: &InFlight<'_>) -> Result<List<Bytes>, NoMem>
    requires { MayFly flight.now }
    ensures { IfOk result (λ keys. keys ≡ new_entries (tables_of flight.now) (seen_flight flight.now)) }
{
    let row = new_row(alloc, flight)?;
    keys_of_row(
        alloc,
        table_number(flight.write),
        table_of(flight.catalog, flight.write),
        &row,
    )
}

/// The entries that the new row has and the old one has not.
pub(crate) fn fresh_entries(alloc: Global, flight: &InFlight<'_>) -> Result<List<Bytes>, NoMem>
    requires { MayFly flight.now }
    ensures { IfOk result (λ keys. keys ≡ fresh_entries (tables_of flight.now) (seen_flight flight.now)) }
{
    let new = new_entries(alloc, flight)?;
    let old = old_entries(alloc, flight)?;
    left_out(alloc, new.items(), old.items())
}

/// The entries that the old row has and the new one has not.
pub(crate) fn stale_entries(alloc: Global, flight: &InFlight<'_>) -> Result<List<Bytes>, NoMem>
    requires { MayFly flight.now }
    ensures { IfOk result (λ keys. keys ≡ stale_entries (tables_of flight.now) (seen_flight flight.now)) }
{
    let old = old_entries(alloc, flight)?;
    let new = new_entries(alloc, flight)?;
    left_out(alloc, old.items(), new.items())
}

pub(crate) fn copy_key(alloc: Global, key: &Bytes) -> Result<Bytes, NoMem>
    ensures { IfOk result (λ copy. copy ≡ key.now) }
{
    Bytes::of_bytes(alloc, key.items())
}

pub(crate) fn copy_keys(alloc: Global, keys: &[Bytes]) -> Result<List<Bytes>, NoMem>
    ensures { IfOk result (λ copy. copy ≡ keys.now) }
{
    let mut copy = List::new(alloc);
    for key in keys {
        copy.push(alloc, copy_key(alloc, key)?)?;
    }
    Ok(copy)
}

/// The key in front of the others.
pub(crate) fn with_front(alloc: Global, key: &Bytes, keys: &[Bytes]) -> Result<List<Bytes>, NoMem>
    ensures { IfOk result (λ all. all ≡ key.now ∷ keys.now) }
{
    let mut all = List::new(alloc);
    all.push(alloc, copy_key(alloc, key)?)?;
    for other in keys {
        all.push(alloc, copy_key(alloc, other)?)?;
    }
    Ok(all)
}

/// The copy of a key or none.
pub(crate) fn copy_found(alloc: Global, found: &Option<Bytes>) -> Result<Option<Bytes>, NoMem>
    ensures { IfOk result (λ copy. copy ≡ found.now) }
{
    match found {
        None => Ok(None),
        Some(value) => Ok(Some(copy_key(alloc, value)?)),
    }
}
