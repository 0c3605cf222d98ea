//! BATCH.
ghost use Rattle.std.specs.Prelude.{◌≤◌, ◌+◌, IfErr, Ok};
ghost use Rattle.pq_batch.specs.Batches.{batch_changes, batch_rounds};
ghost use Rattle.pq_batch.specs.Promises.{IsBatch};
ghost use Rattle.pq_content.specs.Standing.{write_ops};
ghost use Rattle.pq_store.specs.Breaks.{IsAnswered};
ghost use Rattle.pq_store.specs.Content.{HasBrokeCause};
ghost use Rattle.pq_statement.specs.Actions.{Batches};
ghost use Rattle.pq_reports.specs.Evidence.{AnswersFor};
ghost use Rattle.pq_reports.specs.Promise.{Promises};

use pq_base::{List, Refusal};
use pq_batch::{PlannedBatch, batch_bound, plan_batch};
use pq_catalog::PlannedCatalog;
use pq_index_keep::Write;
use pq_intent::commit;
use pq_print::Report;
use pq_reports::{done_report, in_batch_report, refusal_report};
use pq_store::{Allowance, Broke, Meter, Store};
use std::alloc::Global;
use std::sync::ledger::Ledger;

/// Makes all writes of a batch as one, or none of them, and keeps the counters, within its bound.
pub fn make_batch<S: Store<L>, L: Ledger>(
    alloc: Global,
    planned: PlannedCatalog,
    number: u32,
    writes: &List<Write>,
    store: &mut S,
    meter: &mut Meter<L>,
) -> Result<(PlannedCatalog, Report), Broke>
    requires { IsBatch planned writes.now }
    ensures step { Promises number (Ok (Batches writes.now)) (S.content store.old) (S.content store.new) planned
        meter.old meter.new result }
    ensures rounds { S.rounds store.new ≤ S.rounds store.old
        + (batch_rounds planned writes.now + write_ops (batch_changes planned writes.now)) }
    ensures cause { HasBrokeCause (S.faults store.old) (S.faults store.new) result }
    ensures answered { IfErr result (IsAnswered (AnswersFor planned (Ok (Batches writes.now)) S.answers)) }
{
    let catalog = planned.catalog();
    let bound = batch_bound(catalog, writes);
    let mut allowance = Allowance::grant(bound);
    match plan_batch(alloc, catalog, writes, store, &mut allowance, meter)? {
        PlannedBatch::Refused { place, cause } => {
            let report = in_batch_report(alloc, number, place, cause, bound, allowance.used());
            Ok((planned, report))
        }
        PlannedBatch::TooLong(length) => {
            let why = Refusal::BatchLong { length };
            let report = refusal_report(alloc, number, why, bound, allowance.used());
            Ok((planned, report))
        }
        PlannedBatch::Changes(changes) => {
            commit(alloc, changes, store, &mut allowance, meter)?;
            let report = done_report(alloc, number, bound, allowance.used());
            Ok((planned, report))
        }
    }
}
