//! The changes of counters' pairs that belong to a write whose rows are not at hand.
ghost use Rattle.std.specs.Prelude.{◌≡◌, ◌≤◌, ◌<◌, All, length, option_map, IfOk, IfErr, IfSome};
ghost use Rattle.std.specs.FinMap.{get as value_at};
ghost use Rattle.pq_base.specs.Values.{AllFit};
ghost use Rattle.pq_key_code.specs.KeyCode.{row_key};
ghost use Rattle.pq_schema.specs.Tables.{table_at};
ghost use Rattle.pq_schema.specs.Valid.{IsValid};
ghost use Rattle.pq_content.specs.Tables.{AllOfKinds, IsTableNumber, key_types, types_of, shape_of};
ghost use Rattle.pq_pending.specs.Calls.{seen};
ghost use Rattle.pq_pending.specs.Pending.{seen_content, seen_answers};
ghost use Rattle.pq_calls.specs.Evidence.{IsRead, IsNoRow};
ghost use Rattle.pq_calls.specs.World.{Affords, where_told};
ghost use Rattle.pq_index_keep.specs.Sound.{IsWrite};
ghost use Rattle.pq_tallies.specs.Defined.{counters_in};
ghost use Rattle.pq_counters.specs.Bounds.{rereading, counter_reads};
ghost use Rattle.pq_counters.specs.Evidence.{ShowsCounted};
ghost use Rattle.pq_counters.specs.Planning.{CanRead, Asks, AsksFrom, store_world, behind_world, IsUndamagedOver, AreRowsOf, CountsWrite};
ghost use Rattle.pq_counters.specs.Steps.{row_in_place};

use crate::bound::all_moves;
use crate::plan::plan_by;
use pq_base::{List, NoMem, Row};
use pq_calls::StoredRow;
use pq_index_keep::{Cond, Planned, SetCol, Write, held_refusal, with_sets};
use pq_pending::{Pending, PendingCalls};
use pq_schema::{Catalog, Table};
use pq_store::{Allowance, Broke, Meter, Store};
use std::alloc::Global;
use std::sync::ledger::Ledger;

/// The row of the table with this key.
fn stored_row<S: Store<L>, L: Ledger>(
    alloc: Global,
    catalog: &Catalog,
    table: u8,
    key: &Row,
    calls: &mut PendingCalls<S, L>,
) -> Result<Option<StoredRow>, Broke>
    requires number { IsTableNumber catalog.now.tables table }
    requires kinds { AllOfKinds (key_types (table_at catalog.now.tables table)) key.now }
    requires share { CanRead calls.old 1 }
    ensures asks { Asks S.Store (where_told (IsNoRow catalog.now.tables)) calls.old calls.new 1 result }
    ensures read { IfOk result (λ found. IfSome (seen S.content calls.old)
        (λ c. IsRead (shape_of (table_at catalog.now.tables table)) (value_at c (row_key table key.now))
        (option_map (λ stored. stored.row) found))) }
    ensures fits { IfOk result (λ found. IfSome found
        (λ stored. AllFit (types_of (table_at catalog.now.tables table)) stored.row)) }
{
    match calls.row(alloc, table, catalog.table(table), key) {
        Err(error) => Err(error),
        Ok(found) => Ok(found),
    }
}

/// The row that an UPDATE puts in the place of this one; None where a condition or an ADD refuses it.
fn row_in_place(
    alloc: Global,
    table: &Table,
    sets: &List<SetCol>,
    conds: &List<Cond>,
    row: &Row,
) -> Result<Option<Row>, NoMem>
    requires few { length conds.now ≤ 16 }
    requires columns { All (λ set. set.col < length table.now.columns) sets.now }
    requires inside { All (λ set. set.col < length row.now) sets.now }
    ensures { IfOk result (λ new. new ≡ row_in_place table.now sets.now conds.now row.now) }
{
    match held_refusal(alloc, table, sets.items(), conds.items(), row)? {
        Some(_) => Ok(None),
        None => Ok(Some(with_sets(alloc, row, sets.items())?)),
    }
}

/// The old row of a write, and the row that an UPDATE puts in its place.
#[derive(Drop)]
struct ReadRows {
    old: Option<Row>,
    new: Option<Row>,
}

/// The rows of a write.
fn read_rows<S: Store<L>, L: Ledger>(
    alloc: Global,
    catalog: &Catalog,
    write: &Write,
    calls: &mut PendingCalls<S, L>,
) -> Result<ReadRows, Broke>
    requires write { IsWrite catalog.now.tables write.now }
    requires share { CanRead calls.old (rereading write.now) }
    ensures asks { Asks S.Store (where_told (IsNoRow catalog.now.tables)) calls.old calls.new (rereading write.now)
        result }
    ensures rows { IfOk result (λ rows. AreRowsOf catalog.now.tables write.now (seen S.content calls.old) rows.old
        rows.new) }
{
    match write {
        Write::Insert { .. } => Ok(ReadRows {
            old: None,
            new: None,
        }),
        Write::Update {
            table,
            key,
            sets,
            conds,
        } => match stored_row(alloc, catalog, *table, key, calls) {
            Err(error) => Err(error),
            Ok(None) => Ok(ReadRows {
                old: None,
                new: None,
            }),
            Ok(Some(found)) => {
                let new = row_in_place(alloc, catalog.table(*table), sets, conds, &found.row)?;
                Ok(ReadRows {
                    old: Some(found.row),
                    new,
                })
            }
        },
        Write::Delete { table, key, .. } => match stored_row(alloc, catalog, *table, key, calls) {
            Err(error) => Err(error),
            Ok(None) => Ok(ReadRows {
                old: None,
                new: None,
            }),
            Ok(Some(found)) => Ok(ReadRows {
                old: Some(found.row),
                new: None,
            }),
        },
    }
}

/// The changes of any write, whose row is read again; nothing is read where none can move.
fn plan_reading<S: Store<L>, L: Ledger>(
    alloc: Global,
    catalog: &Catalog,
    write: &Write,
    calls: &mut PendingCalls<S, L>,
) -> Result<Planned, Broke>
    requires valid { IsValid catalog.now }
    requires write { IsWrite catalog.now.tables write.now }
    requires share { CanRead calls.old (counter_reads (counters_in catalog.now) write.now) }
    ensures asks { Asks S.Store (where_told (ShowsCounted catalog.now)) calls.old calls.new
        (counter_reads (counters_in catalog.now) write.now) result }
    ensures plan { IfOk result (CountsWrite catalog.now write.now (seen S.content calls.old)) }
{
    if all_moves(catalog, write) == 0 {
        return Ok(Planned::Changes(List::new(alloc)));
    }
    match read_rows(alloc, catalog, write, calls) {
        Err(error) => Err(error),
        Ok(rows) => match plan_by(alloc, catalog, write, &rows.old, &rows.new, calls) {
            Err(error) => Err(error),
            Ok(planned) => Ok(planned),
        },
    }
}

/// The changes of any write behind changes that are not made yet.
fn plan_behind<S: Store<L>, L: Ledger>(
    alloc: Global,
    catalog: &Catalog,
    write: &Write,
    pending: &Pending,
    store: &mut S,
    allowance: &mut Allowance,
    meter: &mut Meter<L>,
) -> Result<Planned, Broke>
    requires write { IsWrite catalog.now.tables write.now }
    requires share { Affords allowance.old (counter_reads (counters_in catalog.now) write.now)
        (counter_reads (counters_in catalog.now) write.now) }
    ensures asks { AsksFrom (where_told (ShowsCounted catalog.now))
        (behind_world S.Store pending.now.changes store.old allowance.old meter.old)
        (behind_world S.Store pending.now.changes store.new allowance.new meter.new)
        (counter_reads (counters_in catalog.now) write.now) (seen_answers S.answers pending.now.changes) result }
    ensures undamaged { IfErr result (IsUndamagedOver catalog.now
        (seen_content pending.now.changes (S.content store.old))) }
    ensures plan { IfOk result (CountsWrite catalog.now write.now
        (seen_content pending.now.changes (S.content store.old))) }
{
    catalog.known();
    let mut calls = PendingCalls {
        pending,
        store,
        allowance,
        meter,
    };
    plan_reading(alloc, catalog, write, &mut calls)
}

/// The changes that keep the counters' pairs with a write, for which `plan_write` answered changes, or the refusal of
/// the first counter of which a group would have too many rows. It reads the old row again where it needs it, and
/// changes nothing in the store.
pub fn plan_counters<S: Store<L>, L: Ledger>(
    alloc: Global,
    catalog: &Catalog,
    write: &Write,
    store: &mut S,
    allowance: &mut Allowance,
    meter: &mut Meter<L>,
) -> Result<Planned, Broke>
    requires write { IsWrite catalog.now.tables write.now }
    requires share { Affords allowance.old (counter_reads (counters_in catalog.now) write.now)
        (counter_reads (counters_in catalog.now) write.now) }
    ensures asks { AsksFrom (where_told (ShowsCounted catalog.now))
        (store_world S.Store store.old allowance.old meter.old) (store_world S.Store store.new allowance.new meter.new)
        (counter_reads (counters_in catalog.now) write.now) S.answers result }
    ensures undamaged { IfErr result (IsUndamagedOver catalog.now (S.content store.old)) }
    // At most as many changes as the counters add, each of a counter's key to a number, whatever the store tells.
    ensures plan { IfOk result (CountsWrite catalog.now write.now (S.content store.old)) }
{
    let pending = Pending::none(alloc);
    plan_behind(alloc, catalog, write, &pending, store, allowance, meter)
}
