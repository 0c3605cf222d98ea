//! PREPARE of a query that wants an index: the definition is written, and each row of its table gets its entry.
ghost use Rattle.std.specs.Prelude.{◌≡◌, ◌<◌, ℕ, Some, Ok, length, IfOk, IfErr};
ghost use Rattle.pq_base.specs.declared.refusal.Refusal.{Refusal};
ghost use Rattle.pq_store.specs.Content.{HasBrokeCause};
ghost use Rattle.pq_prepare.specs.Filling.{FillsIndex};
ghost use Rattle.pq_store.specs.Breaks.{IsAnsweredBut};
ghost use Rattle.pq_reports.specs.Promise.{BrokenStatement, Promises};
ghost use Rattle.pq_catalog.specs.Kept.{IsPlanWanting};
ghost use Rattle.pq_statement.specs.Actions.{Prepares};
ghost use Rattle.pq_planning.specs.Planning.{planned_definition};
ghost use Rattle.pq_schema.specs.Candidates.{Candidate};
ghost use Rattle.pq_schema.specs.Sound.{AreParts};
ghost use Rattle.pq_schema.specs.Valid.{IsDefined};
ghost use Rattle.pq_builds.specs.Targets.{target_of};
ghost use Rattle.pq_planning.specs.Lines.{query_lines};
ghost use Rattle.pq_catalog.specs.Stands.{new_query_of, next_key};
ghost use Rattle.pq_schema.specs.Tables.{table_at};
ghost use Rattle.pq_content.specs.Tables.{IsTableNumber};

use pq_base::{List, NoMem, Refusal};
use pq_builds::{Built, NewQuery, Target, build_index};
use pq_catalog::{PlannedCatalog, QUERY_FORMAT};
use pq_key_code::catalog_key;
use pq_plan::BoundedPlan;
use pq_print::{Line, Report, print_query};
use pq_reports::{build_report, too_many_report};
use pq_schema::{NewIndex, Query};
use pq_store::{Broke, Meter, Store};
use std::alloc::Global;
use std::sync::ledger::Ledger;

/// Over how many rows an index was filled, or why it is refused.
type Filled = Result<u32, Refusal>;

/// What a query's definition is in the store while its index is filled.
fn new_query(alloc: Global, planned: &PlannedCatalog, query: &Query) -> Result<NewQuery, NoMem>
    requires { length planned.now.definitions < 65535 }
    ensures { IfOk result (λ new. new ≡ new_query_of planned.now query.now) }
{
    Ok(NewQuery {
        key: catalog_key(alloc, planned.catalog().defs() + 1)?,
        format: QUERY_FORMAT,
        text: print_query(alloc, planned.catalog().tables(), query)?,
    })
}

/// The index that a query wants, as it is filled.
fn target(alloc: Global, planned: &PlannedCatalog, new: &NewIndex) -> Result<Target, NoMem>
    requires { IsTableNumber planned.now.tables new.now.table × AreParts new.now.index.cols }
    ensures { IfOk result (λ target. target
        ≡ target_of new.now.table new.now.number (table_at planned.now.tables new.now.table) new.now.index) }
{
    planned.known();
    Target::wanted(alloc, planned.catalog().table(new.table), new)
}

/// The refusal of an index over too many rows.
fn too_many_rows(alloc: Global, planned: &PlannedCatalog, table: u8) -> Result<Refusal, NoMem>
    requires { IsTableNumber planned.now.tables table }
    ensures { IfOk result (λ why. why ≡ Refusal.TooManyRows (table_at planned.now.tables table).name) }
{
    let table = planned.catalog().table(table).name.copy(alloc)?;
    Ok(Refusal::TooManyRows { table })
}

/// Writes the definition of a query and fills the index that it wants, and answers over how many rows, or why it is
/// refused.
fn fill_index<S: Store<L>, L: Ledger>(
    alloc: Global,
    planned: &PlannedCatalog,
    query: &Query,
    new: &NewIndex,
    store: &mut S,
    meter: &mut Meter<L>,
) -> Result<Filled, Broke>
    requires { IsDefined planned.now query.now (Some new.now) }
    ensures filled { IfOk result (FillsIndex planned.now query.now new.now (S.content store.old)
        (S.content store.new) meter.old meter.new) }
    ensures broken { IfErr result (λ broke. (number : ℕ) (best : Candidate)
        → BrokenStatement number (Ok (Prepares (planned_definition query.now best (Some new.now))))
        (S.content store.old) (S.content store.new) planned.now meter.old meter.new broke) }
    ensures cause { HasBrokeCause (S.faults store.old) (S.faults store.new) result }
    ensures answered { IfErr result (IsAnsweredBut S.answers (next_key planned.now)) }
{
    planned.known();
    let target = target(alloc, planned, new)?;
    let defined = new_query(alloc, planned, query)?;
    match build_index(alloc, &target, &defined, store, meter)? {
        Built::TooMany => Ok(Err(too_many_rows(alloc, planned, new.table)?)),
        Built::Rows(count) => Ok(Ok(count)),
    }
}

/// Defines a query, and makes the index that it wants: each row of its table gets its entry.
pub fn build_query<S: Store<L>, L: Ledger>(
    alloc: Global,
    planned: PlannedCatalog,
    number: u32,
    lines: List<Line>,
    query: Query,
    plan: BoundedPlan,
    new: NewIndex,
    store: &mut S,
    meter: &mut Meter<L>,
) -> Result<(PlannedCatalog, Report), Broke>
    requires defined { IsDefined planned query (Some new) }
    requires compiled { IsPlanWanting planned.tables query plan (Some new) }
    ensures step { (best : Candidate) → lines ≡ query_lines planned.tables (planned_definition query best (Some new))
        → Promises number (Ok (Prepares (planned_definition query best (Some new)))) (S.content store.old)
        (S.content store.new) planned meter.old meter.new result }
    ensures cause { HasBrokeCause (S.faults store.old) (S.faults store.new) result }
    ensures answered { IfErr result (IsAnsweredBut S.answers (next_key planned)) }
{
    match fill_index(alloc, &planned, &query, &new, store, meter)? {
        Err(why) => Ok((planned, too_many_report(alloc, number, why))),
        Ok(count) => {
            let planned = planned.with_defined(alloc, query, plan, Some(new))?;
            Ok((planned, build_report(number, lines, count)))
        }
    }
}
