//! PREPARE: a query that was planned is defined, with the index that it wants.
ghost use Rattle.std.specs.Prelude.{◌≡◌, None, Result, IfErr};
ghost use Rattle.pq_base.specs.declared.refusal.Refusal.{Refusal};
ghost use Rattle.pq_store.specs.Content.{HasBrokeCause};
ghost use Rattle.pq_store.specs.Breaks.{IsAnswered, IsAnsweredBut};
ghost use Rattle.pq_reports.specs.Promise.{Promises};
ghost use Rattle.pq_statement.specs.Actions.{Action, Prepares};
ghost use Rattle.pq_statement.specs.Requests.{IsDefinable, IsPlannedAs};
ghost use Rattle.pq_catalog.specs.Stands.{next_key};
ghost use Rattle.pq_step.specs.Rounds.{AsksPrepared};

use pq_catalog::PlannedCatalog;
use pq_compile::Compiled;
use pq_define::write_query;
use pq_planning::{PlannedQuery, planned_lines};
use pq_prepare::build_query;
use pq_print::Report;
use pq_store::{Broke, Meter, Store};
use std::alloc::Global;
use std::sync::ledger::Ledger;

/// Defines a query that was planned, with the index that it wants.
pub(crate) fn define_query<S: Store<L>, L: Ledger>(
    alloc: Global,
    planned: PlannedCatalog,
    number: u32,
    plan: PlannedQuery,
    store: &mut S,
    meter: &mut Meter<L>,
) -> Result<(PlannedCatalog, Report), Broke>
    requires { IsDefinable planned plan }
    ensures step { (asked : Result Action Refusal) → IsPlannedAs Prepares asked plan
        → Promises number asked (S.content store.old) (S.content store.new) planned meter.old meter.new result }
    ensures rounds { AsksPrepared plan.compiled.wanted (S.rounds store.old) (S.rounds store.new) }
    ensures cause { HasBrokeCause (S.faults store.old) (S.faults store.new) result }
    ensures answered { IfErr result (IsAnsweredBut S.answers (next_key planned)) }
    ensures unbuilt { plan.compiled.wanted ≡ None → IfErr result (IsAnswered S.answers) }
{
    let lines = planned_lines(alloc, planned.catalog(), &plan)?;
    let PlannedQuery { query, compiled } = plan;
    let Compiled {
        plan: kept,
        wanted,
        ..
    } = compiled;
    match wanted {
        None => write_query(alloc, planned, number, lines, query, kept, store, meter),
        Some(new) => build_query(
            alloc, planned, number, lines, query, kept, new, store, meter,
        ),
    }
}
