//! The plan of any write.
ghost use Rattle.std.specs.Prelude.{◌≡◌, ◌≤◌, ◌+◌, List, IfOk, IfErr, IfSome};
ghost use Rattle.pq_content.specs.Pairs.{Pair};
ghost use Rattle.pq_content.specs.Standing.{write_ops};
ghost use Rattle.pq_content.specs.Tables.{Rows};
ghost use Rattle.pq_index_keep.specs.Bounds.{most_changes, write_tests, write_bound, tests_behind};
ghost use Rattle.pq_store.specs.Breaks.{IsUndamaged, IsAnswered};
ghost use Rattle.pq_pending.specs.Calls.{seen};
ghost use Rattle.pq_pending.specs.Pending.{seen_content, seen_answers};
ghost use Rattle.pq_calls.specs.Evidence.{IsNoRow};
ghost use Rattle.pq_calls.specs.World.{world, Affords, Reads, Explains, where_told};
ghost use Rattle.pq_index_keep.specs.Promises.{HoldsRows, Plans, IsPlannedWithin, ChangesFrom, ChangesOwn, IsShortWithin, RemovesFew, IsReadFor, IsAllowed, FitsItsTable, IsNewFor, IsPlannedWrite};
ghost use Rattle.pq_index_keep.specs.Refusals.{RefusesAs};
ghost use Rattle.pq_index_keep.specs.Rounds.{write_rounds, alone_rounds};
ghost use Rattle.pq_index_keep.specs.Sound.{AreWritable, IsWrite};
ghost use Rattle.pq_index_keep.specs.Spending.{CanSpend, Spends, Stops};

use crate::plan::{KeyedRow, Planned, PlannedWrite, plan_delete, plan_insert};
use crate::update::plan_update;
use crate::write::Write;
use pq_pending::{Pending, PendingCalls};
use pq_schema::Catalog;
use pq_store::{Allowance, Broke, Meter, Store};
use std::alloc::Global;
use std::sync::ledger::Ledger;

/// The changes that the write makes, or its first refusal.
fn plan_by<S: Store<L>, L: Ledger>(
    alloc: Global,
    catalog: &Catalog,
    write: &Write,
    calls: &mut PendingCalls<S, L>,
) -> Result<PlannedWrite, Broke>
    requires sound { AreWritable catalog.now.tables }
    requires write { IsWrite catalog.now.tables write.now }
    requires share { CanSpend calls.old
        (tests_behind calls.old.pending.now.removers catalog.now.tables write.now) }
    ensures spends { Spends S.Store calls.old calls.new
        (tests_behind calls.old.pending.now.removers catalog.now.tables write.now)
        (write_rounds calls.old.pending.now.changes catalog.now.tables write.now) }
    ensures stops { IfErr result (Stops S.Store (where_told (IsNoRow catalog.now.tables)) calls.old calls.new) }
    ensures plan { IfOk result (IsPlannedWrite catalog.now.tables (seen S.content calls.old) write.now) }
{
    match write {
        Write::Insert { table, row } => {
            match plan_insert(alloc, catalog, *table, row, calls) {
                Err(error) => Err(error),
                Ok(planned) => Ok(PlannedWrite {
                    planned,
                    old: None,
                    new: None,
                }),
            }
        }
        Write::Update {
            table,
            key,
            sets,
            conds,
        } => {
            let keyed = KeyedRow {
                catalog,
                number: *table,
                key,
            };
            plan_update(alloc, &keyed, sets, conds, calls)
        }
        Write::Delete { table, key, conds } => {
            let keyed = KeyedRow {
                catalog,
                number: *table,
                key,
            };
            plan_delete(alloc, &keyed, conds, calls)
        }
    }
}

/// The changes that the write makes behind those that are pending, or its first refusal, and the rows that it was
/// planned by. It changes nothing in the store. Each count of a test may read one pair more for each write before it
/// that removes pairs.
pub fn plan_with_rows<S: Store<L>, L: Ledger>(
    alloc: Global,
    catalog: &Catalog,
    write: &Write,
    pending: &Pending,
    store: &mut S,
    allowance: &mut Allowance,
    meter: &mut Meter<L>,
) -> Result<PlannedWrite, Broke>
    requires write { IsWrite catalog.now.tables write.now }
    requires few { pending.now.removers ≤ 256 }
    requires share { Affords allowance.old
        (tests_behind pending.now.removers catalog.now.tables write.now).ops
        (tests_behind pending.now.removers catalog.now.tables write.now).entries }
    ensures same { S.content store.new ≡ S.content store.old }
    ensures reads { Reads
        (world (seen_content pending.now.changes (S.content store.old)) (S.faults store.old) allowance.old meter.old)
        (world (seen_content pending.now.changes (S.content store.new)) (S.faults store.new) allowance.new meter.new)
        (tests_behind pending.now.removers catalog.now.tables write.now).ops
        (tests_behind pending.now.removers catalog.now.tables write.now).entries }
    ensures rounds { S.rounds store.new ≤ S.rounds store.old
        + write_rounds pending.now.changes catalog.now.tables write.now }
    ensures cause { IfErr result (Explains (where_told (IsNoRow catalog.now.tables))
        (world (seen_content pending.now.changes (S.content store.old)) (S.faults store.old) allowance.old meter.old)
        (world (seen_content pending.now.changes (S.content store.new)) (S.faults store.new) allowance.new meter.new)) }
    ensures answered { IfErr result (IsAnswered (seen_answers S.answers pending.now.changes)) }
    ensures undamaged { IfErr result (λ error. (rows : Rows) (others : List Pair)
        → HoldsRows (seen_content pending.now.changes (S.content store.old)) catalog.now.tables rows others
        → IsUndamaged error) }
    ensures plan { IfOk result (λ seen. IsPlannedWithin (most_changes catalog.now.tables write.now) seen.planned) }
    // Over every store, told or not: the changes are those of the old row, short, and remove few pairs, and a refusal
    // is one that the write can have.
    ensures own { IfOk result (λ seen. ChangesFrom catalog.now.tables write.now seen.old seen.planned) }
    ensures short { IfOk result (λ seen. IsShortWithin seen.planned) }
    ensures thin { IfOk result (λ seen. RemovesFew write.now seen.planned) }
    ensures can { IfOk result (λ seen. RefusesAs catalog.now.tables write.now seen.planned) }
    // What isn't refused passes its tests, whatever the content that is told stands for.
    ensures passed { IfOk result (λ seen. IsAllowed catalog.now.tables write.now seen.old
        (seen_content pending.now.changes (S.content store.old)) seen.planned) }
    ensures answer { IfOk result (λ seen. (rows : Rows) (others : List Pair)
        → HoldsRows (seen_content pending.now.changes (S.content store.old)) catalog.now.tables rows others
        → Plans catalog.now.tables rows others write.now seen.planned) }
    ensures read { IfOk result (λ seen. IfSome (seen_content pending.now.changes (S.content store.old))
        (λ c. IsReadFor catalog.now.tables write.now c seen.old)) }
    ensures fits { IfOk result (λ seen. FitsItsTable catalog.now.tables write.now seen.old) }
    ensures new { IfOk result (λ seen. IsNewFor catalog.now.tables write.now seen.old seen.new) }
{
    catalog.known();
    let mut calls = PendingCalls {
        pending,
        store,
        allowance,
        meter,
    };
    match plan_by(alloc, catalog, write, &mut calls) {
        Err(error) => Err(error),
        Ok(seen) => Ok(seen),
    }
}

/// The changes that the write makes where none are pending, or its first refusal. It changes nothing in the store, and
/// leaves enough of the allowance for the changes.
pub fn plan_write<S: Store<L>, L: Ledger>(
    alloc: Global,
    catalog: &Catalog,
    write: &Write,
    store: &mut S,
    allowance: &mut Allowance,
    meter: &mut Meter<L>,
) -> Result<Planned, Broke>
    requires write { IsWrite catalog.now.tables write.now }
    requires share { Affords allowance.old (write_bound catalog.now.tables write.now).ops
        (write_bound catalog.now.tables write.now).entries }
    ensures reads { Reads (world (S.content store.old) (S.faults store.old) allowance.old meter.old)
        (world (S.content store.new) (S.faults store.new) allowance.new meter.new)
        (write_tests catalog.now.tables write.now).ops (write_tests catalog.now.tables write.now).entries }
    ensures left { Affords allowance.new (write_ops (most_changes catalog.now.tables write.now)) 0 }
    ensures rounds { S.rounds store.new ≤ S.rounds store.old + alone_rounds write.now }
    ensures cause { IfErr result (Explains (where_told (IsNoRow catalog.now.tables))
        (world (S.content store.old) (S.faults store.old) allowance.old meter.old)
        (world (S.content store.new) (S.faults store.new) allowance.new meter.new)) }
    ensures answered { IfErr result (IsAnswered S.answers) }
    ensures undamaged { IfErr result (λ error. (rows : Rows) (others : List Pair)
        → HoldsRows (S.content store.old) catalog.now.tables rows others → IsUndamaged error) }
    ensures plan { IfOk result (IsPlannedWithin (most_changes catalog.now.tables write.now)) }
    // Over every store, told or not: the changes are those of some old row, and a refusal is one that the write can
    // have.
    ensures own { IfOk result (ChangesOwn catalog.now.tables write.now) }
    ensures can { IfOk result (RefusesAs catalog.now.tables write.now) }
    ensures answer { IfOk result (λ planned. (rows : Rows) (others : List Pair)
        → HoldsRows (S.content store.old) catalog.now.tables rows others
        → Plans catalog.now.tables rows others write.now planned) }
{
    let pending = Pending::none(alloc);
    match plan_with_rows(alloc, catalog, write, &pending, store, allowance, meter) {
        Err(error) => Err(error),
        Ok(seen) => Ok(seen.planned),
    }
}
