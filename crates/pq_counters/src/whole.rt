//! The whole plan of a write: what it changes of rows and entries, and behind that what it changes of counters' pairs.
ghost use Rattle.std.specs.Prelude.{◌≡◌, ◌≤◌, ◌+◌, ◌++◌, List, IfOk, IfErr};
ghost use Rattle.pq_content.specs.Pairs.{Pair};
ghost use Rattle.pq_content.specs.Tables.{Rows};
ghost use Rattle.pq_store.specs.Breaks.{IsUndamaged, IsAnswered};
ghost use Rattle.pq_calls.specs.World.{world, Affords, Reads, Explains, where_told};
ghost use Rattle.pq_pending.specs.Calls.{seen};
ghost use Rattle.pq_pending.specs.Pending.{seen_content, seen_answers};
ghost use Rattle.pq_index_keep.specs.Promises.{IsShortWithin, RemovesFew};
ghost use Rattle.pq_index_keep.specs.Sound.{IsWrite};
ghost use Rattle.pq_tallies.specs.Counters.{HoldsCounted};
ghost use Rattle.pq_tallies.specs.Defined.{counters_in};
ghost use Rattle.pq_counters.specs.Bounds.{counter_reads, counter_rounds};
ghost use Rattle.pq_counters.specs.Evidence.{ShowsCounted};
ghost use Rattle.pq_counters.specs.Planning.{CanRead, Asks, AsksWithin, AreRowsOf, ArePlannedBy, IsUndamagedOver, IsWholePlan, PlansBehind};
ghost use Rattle.pq_counters.specs.Whole.{reads_behind, whole_changes, whole_rounds, IsWholeWithin, ChangesWhole, RefusesWhole, PlansWhole};

use crate::plan::plan_any;
use pq_base::{List, NoMem, Row};
use pq_index_keep::{Planned, PlannedWrite, Write, plan_with_rows};
use pq_pending::{Pending, PendingCalls};
use pq_row_code::Change;
use pq_schema::Catalog;
use pq_store::{Allowance, Broke, Meter, Store};
use std::alloc::Global;
use std::sync::ledger::Ledger;

/// The second changes behind the first ones.
fn both(changes: List<Change>, more: List<Change>) -> Result<List<Change>, NoMem>
    ensures { IfOk result (λ all. all ≡ changes ++ more) }
{
    let mut all = changes.into_vec();
    let mut rest = more.into_vec();
    all.append(&mut rest)?;
    Ok(List::from_vec(all))
}

/// The changes of rows and entries and behind them those of the counters, or the refusal of a counter that is full.
fn plan_more<S: Store<L>, L: Ledger>(
    alloc: Global,
    catalog: &Catalog,
    write: &Write,
    old: &Option<Row>,
    new: &Option<Row>,
    changes: List<Change>,
    calls: &mut PendingCalls<S, L>,
) -> Result<Planned, Broke>
    requires write { IsWrite catalog.now.tables write.now }
    requires planned { ArePlannedBy catalog.now.tables write.now (seen S.content calls.old) old.now changes }
    requires rows { AreRowsOf catalog.now.tables write.now (seen S.content calls.old) old.now new.now }
    requires share { CanRead calls.old (counter_reads (counters_in catalog.now) write.now) }
    ensures asks { Asks S.Store (where_told (ShowsCounted catalog.now)) calls.old calls.new
        (counter_reads (counters_in catalog.now) write.now) result }
    ensures rounds { AsksWithin S.Store calls.old calls.new (counter_rounds (counters_in catalog.now) write.now) }
    ensures undamaged { IfErr result (IsUndamagedOver catalog.now (seen S.content calls.old)) }
    ensures plan { IfOk result (IsWholePlan catalog.now write.now (seen S.content calls.old)) }
    ensures answer { IfOk result (PlansBehind catalog.now write.now (seen S.content calls.old) changes) }
{
    catalog.known();
    match plan_any(alloc, catalog, write, old, new, calls) {
        Err(error) => Err(error),
        Ok(Planned::Refused(why)) => Ok(Planned::Refused(why)),
        Ok(Planned::Changes(more)) => match both(changes, more) {
            Err(NoMem) => Err(Broke::NoMem),
            Ok(all) => Ok(Planned::Changes(all)),
        },
    }
}

/// The changes of a write and of its counters behind changes that are not made yet, or its first refusal. It changes
/// nothing in the store.
pub fn plan_whole<S: Store<L>, L: Ledger>(
    alloc: Global,
    catalog: &Catalog,
    write: &Write,
    pending: &Pending,
    store: &mut S,
    allowance: &mut Allowance,
    meter: &mut Meter<L>,
) -> Result<Planned, Broke>
    requires write { IsWrite catalog.now.tables write.now }
    requires few { pending.now.removers ≤ 256 }
    requires share { Affords allowance.old (reads_behind pending.now.removers catalog.now write.now).ops
        (reads_behind pending.now.removers catalog.now write.now).entries }
    ensures same { S.content store.new ≡ S.content store.old }
    ensures reads { Reads
        (world (seen_content pending.now.changes (S.content store.old)) (S.faults store.old) allowance.old meter.old)
        (world (seen_content pending.now.changes (S.content store.new)) (S.faults store.new) allowance.new meter.new)
        (reads_behind pending.now.removers catalog.now write.now).ops
        (reads_behind pending.now.removers catalog.now write.now).entries }
    ensures rounds { S.rounds store.new ≤ S.rounds store.old + whole_rounds pending.now.changes catalog.now write.now }
    ensures cause { IfErr result (Explains (where_told (ShowsCounted catalog.now))
        (world (seen_content pending.now.changes (S.content store.old)) (S.faults store.old) allowance.old meter.old)
        (world (seen_content pending.now.changes (S.content store.new)) (S.faults store.new) allowance.new meter.new)) }
    ensures answered { IfErr result (IsAnswered (seen_answers S.answers pending.now.changes)) }
    ensures undamaged { IfErr result (λ error. (rows : Rows) (others : List Pair)
        → HoldsCounted (seen_content pending.now.changes (S.content store.old)) catalog.now rows others
        → IsUndamaged error) }
    // Over every store, told or not: the changes are some that an intent can hold, those of the row that was read, where
    // the write's tests pass, and behind them the counters' numbers, one more or one less than what was read; short, and
    // at most one removal of a sequence where the write removes pairs. And a refusal is one that the write can have.
    ensures plan { IfOk result (IsWholeWithin (whole_changes catalog.now write.now)) }
    ensures own { IfOk result
        (ChangesWhole catalog.now (seen_content pending.now.changes (S.content store.old)) write.now) }
    ensures can { IfOk result (RefusesWhole catalog.now write.now) }
    ensures short { IfOk result IsShortWithin }
    ensures thin { IfOk result (RemovesFew write.now) }
    ensures answer { IfOk result (λ planned. (rows : Rows) (others : List Pair)
        → HoldsCounted (seen_content pending.now.changes (S.content store.old)) catalog.now rows others
        → PlansWhole catalog.now rows others write.now planned) }
{
    catalog.known();
    match plan_with_rows(alloc, catalog, write, pending, store, allowance, meter) {
        Err(error) => Err(error),
        Ok(PlannedWrite { planned, old, new }) => match planned {
            Planned::Refused(why) => Ok(Planned::Refused(why)),
            Planned::Changes(changes) => {
                let mut calls = PendingCalls {
                    pending,
                    store,
                    allowance,
                    meter,
                };
                match plan_more(alloc, catalog, write, &old, &new, changes, &mut calls) {
                    Err(error) => Err(error),
                    Ok(planned) => Ok(planned),
                }
            }
        },
    }
}
