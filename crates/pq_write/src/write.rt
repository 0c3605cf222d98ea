//! INSERT, UPDATE and DELETE.
ghost use Rattle.std.specs.Prelude.{◌≤◌, ◌+◌, [], List, IfOk, IfErr, Ok};
ghost use Rattle.pq_calls.specs.World.{world, Affords, Reads, Explains, where_told};
ghost use Rattle.pq_content.specs.Pairs.{Pair};
ghost use Rattle.pq_content.specs.Tables.{Rows};
ghost use Rattle.pq_content.specs.Standing.{write_ops};
ghost use Rattle.pq_counters.specs.Bounds.{whole_bound, whole_ops};
ghost use Rattle.pq_counters.specs.Evidence.{ShowsCounted};
ghost use Rattle.pq_counters.specs.Whole.{whole_reads, whole_changes, whole_rounds, IsWholeWithin, ChangesWhole, RefusesWhole, PlansWhole};
ghost use Rattle.pq_tallies.specs.Counters.{HoldsCounted};
ghost use Rattle.pq_store.specs.Breaks.{IsAnswered, IsUndamaged};
ghost use Rattle.pq_store.specs.Content.{HasBrokeCause};
ghost use Rattle.pq_index_keep.specs.Sound.{IsWrite};
ghost use Rattle.pq_statement.specs.Actions.{Writes};
ghost use Rattle.pq_reports.specs.Promise.{Promises};

use pq_catalog::PlannedCatalog;
use pq_counters::{plan_whole, whole_bound};
use pq_index_keep::{Planned, Write};
use pq_intent::commit;
use pq_pending::Pending;
use pq_print::Report;
use pq_reports::{done_report, refusal_report};
use pq_schema::Catalog;
use pq_store::{Allowance, Broke, Meter, Store};
use std::alloc::Global;
use std::sync::ledger::Ledger;

/// The changes of a write and of its counters over the store as it is, or its first refusal. It changes nothing in the
/// store, and leaves enough of the allowance for the changes.
fn plan_alone<S: Store<L>, L: Ledger>(
    alloc: Global,
    catalog: &Catalog,
    write: &Write,
    store: &mut S,
    allowance: &mut Allowance,
    meter: &mut Meter<L>,
) -> Result<Planned, Broke>
    requires write { IsWrite catalog.now.tables write.now }
    requires share { Affords allowance.old (whole_bound catalog.now write.now).ops
        (whole_bound catalog.now write.now).entries }
    ensures reads { Reads (world (S.content store.old) (S.faults store.old) allowance.old meter.old)
        (world (S.content store.new) (S.faults store.new) allowance.new meter.new)
        (whole_reads catalog.now write.now).ops (whole_reads catalog.now write.now).entries }
    ensures rounds { S.rounds store.new ≤ S.rounds store.old + whole_rounds [] catalog.now write.now }
    ensures left { Affords allowance.new (whole_ops catalog.now write.now) 0 }
    ensures cause { IfErr result (Explains (where_told (ShowsCounted catalog.now))
        (world (S.content store.old) (S.faults store.old) allowance.old meter.old)
        (world (S.content store.new) (S.faults store.new) allowance.new meter.new)) }
    ensures answered { IfErr result (IsAnswered S.answers) }
    ensures undamaged { IfErr result (λ error. (rows : Rows) (others : List Pair)
        → HoldsCounted (S.content store.old) catalog.now rows others → IsUndamaged error) }
    ensures plan { IfOk result (IsWholeWithin (whole_changes catalog.now write.now)) }
    ensures own { IfOk result (ChangesWhole catalog.now (S.content store.old) write.now) }
    ensures can { IfOk result (RefusesWhole catalog.now write.now) }
    ensures answer { IfOk result (λ planned. (rows : Rows) (others : List Pair)
        → HoldsCounted (S.content store.old) catalog.now rows others
        → PlansWhole catalog.now rows others write.now planned) }
{
    let pending = Pending::none(alloc);
    plan_whole(alloc, catalog, write, &pending, store, allowance, meter)
}

/// Makes a write and keeps the counters, within its bound.
pub fn make_write<S: Store<L>, L: Ledger>(
    alloc: Global,
    planned: PlannedCatalog,
    number: u32,
    write: &Write,
    store: &mut S,
    meter: &mut Meter<L>,
) -> Result<(PlannedCatalog, Report), Broke>
    requires { IsWrite planned.tables write.now }
    ensures step { Promises number (Ok (Writes write.now)) (S.content store.old) (S.content store.new) planned
        meter.old meter.new result }
    ensures rounds { S.rounds store.new ≤ S.rounds store.old
        + (whole_rounds [] planned write.now + write_ops (whole_changes planned write.now)) }
    ensures cause { HasBrokeCause (S.faults store.old) (S.faults store.new) result }
    ensures answered { IfErr result (IsAnswered S.answers) }
{
    let catalog = planned.catalog();
    let bound = whole_bound(catalog, write);
    let mut allowance = Allowance::grant(bound);
    match plan_alone(alloc, catalog, write, store, &mut allowance, meter)? {
        Planned::Refused(why) => {
            let report = refusal_report(alloc, number, why, bound, allowance.used());
            Ok((planned, report))
        }
        Planned::Changes(changes) => {
            commit(alloc, changes, store, &mut allowance, meter)?;
            let report = done_report(alloc, number, bound, allowance.used());
            Ok((planned, report))
        }
    }
}
