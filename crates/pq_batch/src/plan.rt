//! The plan of a batch.
ghost use Rattle.std.specs.Prelude.{◌≡◌, ◌≤◌, ◌+◌, List, [], length, Some, IfOk, IfErr};
ghost use Rattle.std.specs.List.{AllByRecursion};
ghost use Rattle.pq_content.specs.Pairs.{Pair};
ghost use Rattle.pq_content.specs.Standing.{write_ops};
ghost use Rattle.pq_content.specs.Tables.{Rows};
ghost use Rattle.pq_store.specs.Breaks.{IsUndamaged, IsAnswered};
ghost use Rattle.pq_store.specs.Content.{Content};
ghost use Rattle.pq_calls.specs.Calls.{Uses, Fails};
ghost use Rattle.pq_calls.specs.World.{world, Affords, Reads, Explains, where_told};
ghost use Rattle.pq_pending.specs.Pending.{seen_content, seen_answers};
ghost use Rattle.pq_index_keep.specs.Promises.{IsShortWithin, RemovesFew};
ghost use Rattle.pq_index_keep.specs.Sound.{IsWrite};
ghost use Rattle.pq_tallies.specs.Counters.{HoldsCounted};
ghost use Rattle.pq_counters.specs.Evidence.{ShowsCounted};
ghost use Rattle.pq_counters.specs.Whole.{reads_behind, whole_changes, whole_rounds, IsWholeWithin, ChangesWhole, RefusesWhole, PlansWhole};
ghost use Rattle.pq_batch.specs.Batches.{batch_bound, batch_changes, batch_reads, batch_rounds};
ghost use Rattle.pq_batch.specs.From.{AreAhead, FinishesAs, PlansFrom, RefusesFrom, ShowsSeen, ShowsFrom, AnswersFrom};
ghost use Rattle.pq_batch.specs.Promises.{IsBatch, IsBatchWithin, ChangesBehind, RefusesBatch, PlansBatch, ShowsBehind, AnswersBehind};

use crate::bound::removers_of;
use pq_base::{List, Refusal};
use pq_calls::Calls;
use pq_counters::plan_whole;
use pq_index_keep::{Planned, Write};
use pq_pending::Pending;
use pq_row_code::{Change, changes_len};
use pq_schema::Catalog;
use pq_store::{Allowance, Broke, Meter, Store};
use std::alloc::Global;
use std::sync::ledger::Ledger;

/// The greatest number of bytes that the changes of a batch have as an intent.
const MOST_BYTES: u32 = 1_048_576;

/// The changes that a batch makes, or why it isn't made.
#[derive(Drop)]
pub enum PlannedBatch {
    Changes(List<Change>),
    /// The write at this place, from 1, is refused.
    Refused { place: u16, cause: Refusal },
    /// The code of the changes has so many bytes, and at most 1,048,576 are allowed.
    TooLong(u32),
}

/// The changes of all writes, or the length of their code.
fn finished(pending: Pending) -> PlannedBatch
    requires some { 1 ≤ length pending.changes }
    requires few { length pending.changes ≤ 10496 }
    requires ahead { AreAhead pending.changes }
    ensures plan { IsBatchWithin (length pending.changes) result }
    ensures finishes { FinishesAs pending.changes result }
{
    let changes = pending.into_changes();
    let len = changes_len(&changes);
    if len > MOST_BYTES {
        return PlannedBatch::TooLong(len);
    }
    PlannedBatch::Changes(changes)
}

/// The plan of a write behind the changes of those before it.
fn plan_next<S: Store<L>, L: Ledger>(
    alloc: Global,
    catalog: &Catalog,
    write: &Write,
    pending: &Pending,
    calls: &mut Calls<S, L>,
) -> Result<Planned, Broke>
    requires write { IsWrite catalog.now.tables write.now }
    requires few { pending.now.removers ≤ 256 }
    requires share { Affords calls.old.allowance.now (reads_behind pending.now.removers catalog.now write.now).ops
        (reads_behind pending.now.removers catalog.now write.now).entries }
    ensures uses { Uses S.content S.faults calls.old calls.new
        (reads_behind pending.now.removers catalog.now write.now).ops
        (reads_behind pending.now.removers catalog.now write.now).entries }
    ensures rounds { S.rounds calls.new.store.now ≤ S.rounds calls.old.store.now
        + whole_rounds pending.now.changes catalog.now write.now }
    ensures cause { IfErr result (Fails (ShowsSeen pending.now.changes (where_told (ShowsCounted catalog.now)))
        S.content S.faults calls.old calls.new) }
    ensures answered { IfErr result (IsAnswered (seen_answers S.answers pending.now.changes)) }
    ensures undamaged { IfErr result (λ error. (rows : Rows) (others : List Pair)
        → HoldsCounted (seen_content pending.now.changes (S.content calls.old.store.now)) catalog.now rows others
        → IsUndamaged error) }
    ensures plan { IfOk result (IsWholeWithin (whole_changes catalog.now write.now)) }
    ensures own { IfOk result
        (ChangesWhole catalog.now (seen_content pending.now.changes (S.content calls.old.store.now)) write.now) }
    ensures can { IfOk result (RefusesWhole catalog.now write.now) }
    ensures short { IfOk result IsShortWithin }
    ensures thin { IfOk result (RemovesFew write.now) }
    ensures answer { IfOk result (λ planned. (rows : Rows) (others : List Pair)
        → HoldsCounted (seen_content pending.now.changes (S.content calls.old.store.now)) catalog.now rows others
        → PlansWhole catalog.now rows others write.now planned) }
{
    plan_whole(
        alloc,
        catalog,
        write,
        pending,
        calls.store,
        calls.allowance,
        calls.meter,
    )
}

/// The plan of the writes from a place on, behind the changes of those before. It is as deep as there are writes, and a
/// batch has at most 256.
fn plan_from<S: Store<L>, L: Ledger>(
    alloc: Global,
    catalog: &Catalog,
    writes: &[Write],
    place: u16,
    pending: Pending,
    calls: &mut Calls<S, L>,
) -> Result<PlannedBatch, Broke>
    requires each { AllByRecursion (IsWrite catalog.now.tables) writes.now }
    requires places { place + length writes.now ≤ 257 }
    requires thin { pending.removers + length writes.now ≤ 256 }
    requires some { 1 ≤ length pending.changes + length writes.now }
    requires few { length pending.changes + batch_changes catalog.now writes.now ≤ 10496 }
    requires ahead { AreAhead pending.changes }
    requires share { Affords calls.old.allowance.now (batch_reads catalog.now pending.removers writes.now).ops
        (batch_reads catalog.now pending.removers writes.now).entries }
    ensures uses { Uses S.content S.faults calls.old calls.new
        (batch_reads catalog.now pending.removers writes.now).ops
        (batch_reads catalog.now pending.removers writes.now).entries }
    ensures rounds { S.rounds calls.new.store.now ≤ S.rounds calls.old.store.now + batch_rounds catalog.now writes.now }
    ensures cause { IfErr result (Fails (ShowsFrom catalog.now writes.now pending.changes
        (where_told (ShowsCounted catalog.now))) S.content S.faults calls.old calls.new) }
    ensures answered { IfErr result (IsAnswered (AnswersFrom catalog.now writes.now pending.changes S.answers)) }
    ensures undamaged { IfErr result (λ error. (rows : Rows) (others : List Pair)
        → HoldsCounted (seen_content pending.changes (S.content calls.old.store.now)) catalog.now rows others
        → IsUndamaged error) }
    ensures plan { IfOk result (IsBatchWithin (length pending.changes + batch_changes catalog.now writes.now)) }
    ensures own { IfOk result
        (ChangesBehind catalog.now (S.content calls.old.store.now) writes.now pending.changes) }
    ensures can { IfOk result (RefusesFrom catalog.now writes.now place) }
    ensures answer { IfOk result (λ planned. (before : Content) (rows : Rows) (others : List Pair)
        → S.content calls.old.store.now ≡ Some before
        → HoldsCounted (seen_content pending.changes (S.content calls.old.store.now)) catalog.now rows others
        → PlansFrom catalog.now place rows pending.changes writes.now before others planned) }
{
    let [write, rest @ ..] = writes else {
        return Ok(finished(pending));
    };
    match plan_next(alloc, catalog, write, &pending, calls) {
        Err(error) => Err(error),
        Ok(Planned::Refused(cause)) => Ok(PlannedBatch::Refused { place, cause }),
        Ok(Planned::Changes(changes)) => {
            pending.known();
            let pending = pending.with(alloc, changes, removers_of(write))?;
            plan_from(alloc, catalog, rest, place + 1, pending, calls)
        }
    }
}

/// The changes of all writes of a batch, each planned behind those before it, or why the batch isn't made. It changes
/// nothing in the store, and leaves enough of the allowance for the changes.
pub fn plan_batch<S: Store<L>, L: Ledger>(
    alloc: Global,
    catalog: &Catalog,
    writes: &List<Write>,
    store: &mut S,
    allowance: &mut Allowance,
    meter: &mut Meter<L>,
) -> Result<PlannedBatch, Broke>
    requires batch { IsBatch catalog.now writes.now }
    requires share { Affords allowance.old (batch_bound catalog.now writes.now).ops
        (batch_bound catalog.now writes.now).entries }
    ensures reads { Reads (world (S.content store.old) (S.faults store.old) allowance.old meter.old)
        (world (S.content store.new) (S.faults store.new) allowance.new meter.new)
        (batch_reads catalog.now 0 writes.now).ops (batch_reads catalog.now 0 writes.now).entries }
    ensures rounds { S.rounds store.new ≤ S.rounds store.old + batch_rounds catalog.now writes.now }
    ensures left { Affords allowance.new (write_ops (batch_changes catalog.now writes.now)) 0 }
    ensures cause { IfErr result (Explains (ShowsBehind catalog.now writes.now (where_told (ShowsCounted catalog.now)))
        (world (S.content store.old) (S.faults store.old) allowance.old meter.old)
        (world (S.content store.new) (S.faults store.new) allowance.new meter.new)) }
    ensures answered { IfErr result (IsAnswered (AnswersBehind catalog.now writes.now S.answers)) }
    ensures undamaged { IfErr result (λ error. (rows : Rows) (others : List Pair)
        → HoldsCounted (S.content store.old) catalog.now rows others → IsUndamaged error) }
    // Over every store, told or not: the changes are some that an intent can hold, those of each write by the row that
    // it finds behind the writes before it, and a refusal is one that the write at its place can have.
    ensures plan { IfOk result (IsBatchWithin (batch_changes catalog.now writes.now)) }
    ensures own { IfOk result (ChangesBehind catalog.now (S.content store.old) writes.now []) }
    ensures can { IfOk result (RefusesBatch catalog.now writes.now) }
    ensures answer { IfOk result (λ planned. (rows : Rows) (others : List Pair)
        → HoldsCounted (S.content store.old) catalog.now rows others
        → PlansBatch catalog.now rows others writes.now planned) }
{
    catalog.known();
    let pending = Pending::none(alloc);
    let mut calls = Calls {
        store,
        allowance,
        meter,
    };
    plan_from(alloc, catalog, writes.items(), 1, pending, &mut calls)
}
