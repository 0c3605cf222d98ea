//! SELECT: the answer of a query that is run once.
ghost use Rattle.std.specs.Prelude.{Result, IfErr};
ghost use Rattle.pq_base.specs.declared.refusal.Refusal.{Refusal};
ghost use Rattle.pq_store.specs.Breaks.{IsAnswered};
ghost use Rattle.pq_store.specs.Content.{HasBrokeCause};
ghost use Rattle.pq_planning.specs.Planned.{IsComputed, IsOnce};
ghost use Rattle.pq_statement.specs.Actions.{Action, Selects};
ghost use Rattle.pq_statement.specs.Requests.{IsPlannedAs};
ghost use Rattle.pq_reports.specs.Promise.{Promises};
ghost use Rattle.pq_step.specs.Rounds.{AsksQuery};

use crate::run::page_report;
use pq_catalog::PlannedCatalog;
use pq_pages::run_once;
use pq_planning::PlannedQuery;
use pq_print::Report;
use pq_store::{Broke, Meter, Store};
use std::alloc::Global;
use std::sync::ledger::Ledger;

/// Answers a query that was planned, which no definition has.
pub(crate) fn select_query<S: Store<L>, L: Ledger>(
    alloc: Global,
    planned: PlannedCatalog,
    number: u32,
    plan: &PlannedQuery,
    store: &mut S,
    meter: &mut Meter<L>,
) -> Result<(PlannedCatalog, Report), Broke>
    requires computed { IsComputed planned.tables plan.now }
    requires once { IsOnce plan.now }
    ensures step { (asked : Result Action Refusal) → IsPlannedAs Selects asked plan.now
        → Promises number asked (S.content store.old) (S.content store.new) planned meter.old meter.new result }
    ensures rounds { AsksQuery planned.tables plan.now.query (S.rounds store.old) (S.rounds store.new) }
    ensures cause { HasBrokeCause (S.faults store.old) (S.faults store.new) result }
    ensures answered { IfErr result (IsAnswered S.answers) }
{
    planned.known();
    let page = run_once(
        alloc,
        planned.catalog(),
        &plan.query,
        &plan.compiled.plan,
        store,
        meter,
    )?;
    let report = page_report(alloc, number, page)?;
    Ok((planned, report))
}
