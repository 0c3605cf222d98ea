//! ALTER TABLE: a column's definition is one write of its pair, and no row is touched.
ghost use Rattle.std.specs.Prelude.{◌≤◌, ◌+◌, IfErr, MatchResult};
ghost use Rattle.pq_schema.specs.Definitions.{new_column};
ghost use Rattle.pq_schema.specs.Names.{IsAlterDef};
ghost use Rattle.pq_store.specs.Breaks.{IsAnswered};
ghost use Rattle.pq_store.specs.Content.{HasBrokeCause};
ghost use Rattle.pq_statement.specs.Actions.{Adds, action_from};
ghost use Rattle.pq_reports.specs.Promise.{Promises};

use crate::define::write_last;
use pq_base::List;
use pq_catalog::PlannedCatalog;
use pq_print::Report;
use pq_reports::unread_report;
use pq_schema::AlterDef;
use pq_store::{Broke, Meter, Store};
use std::alloc::Global;
use std::sync::ledger::Ledger;

/// Adds a column to a table, where nothing refuses it.
pub fn add_column<S: Store<L>, L: Ledger>(
    alloc: Global,
    planned: PlannedCatalog,
    number: u32,
    def: AlterDef,
    store: &mut S,
    meter: &mut Meter<L>,
) -> Result<(PlannedCatalog, Report), Broke>
    requires { IsAlterDef def }
    ensures step { Promises number (action_from (λ next. Adds def) (new_column planned def)) (S.content store.old)
        (S.content store.new) planned meter.old meter.new result }
    ensures rounds { MatchResult (new_column planned def) (λ next. S.rounds store.new ≤ S.rounds store.old + 1)
        (λ why. S.rounds store.new ≤ S.rounds store.old) }
    ensures cause { HasBrokeCause (S.faults store.old) (S.faults store.new) result }
    ensures answered { IfErr result (IsAnswered S.answers) }
{
    let (planned, made) = planned.with_column_of(alloc, def)?;
    match made {
        Err(why) => Ok((planned, unread_report(alloc, number, why))),
        Ok(_) => write_last(alloc, planned, number, List::new(alloc), store, meter),
    }
}
