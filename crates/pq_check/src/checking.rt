//! Statements as far as no store decides them: each is a step over tables without rows.
ghost use Rattle.std.specs.Prelude.{◌≡◌, [], false, Result, IfOk};
ghost use Rattle.pq_base.specs.declared.refusal.Refusal.{Refusal};
ghost use Rattle.pq_builds.specs.Bounds.{prepare_bound};
ghost use Rattle.pq_schema.specs.Definitions.{new_table, new_column, new_counter};
ghost use Rattle.pq_schema.specs.Names.{IsTableDef, IsAlterDef, IsCounterDef};
ghost use Rattle.pq_statement.specs.Actions.{Action, Creates, Adds, Counts, Prepares, Selects, action_from};
ghost use Rattle.pq_planning.specs.Planned.{IsComputed};
ghost use Rattle.pq_check.specs.Checks.{IsChecked, check_step, without_rows};
ghost use Rattle.pq_statement.specs.Requests.{Asks, IsDefinable, IsPlannedAs, IsRequest};
ghost use Rattle.pq_check.specs.Written.{IsPrepareOf, IsDefinedAs};
ghost use Rattle.pq_print.specs.Report.{is_refusal};
ghost use Rattle.pq_schema.specs.declared.query.Query.{Query};

use pq_base::{Bound, List, NoMem, Stopped};
use pq_batch::batch_bound;
use pq_catalog::PlannedCatalog;
use pq_compile::Compiled;
use pq_counters::whole_bound;
use pq_planning::{PlannedQuery, planned_lines};
use pq_print::Report;
use pq_reports::{
    COUNTER_BOUND, NOTHING_USED, READ_BOUND, done_report, lines_of, misread_report, plan_report,
    request_of, show, unpaid_report, unread_report,
};
use pq_schema::{AlterDef, CounterDef, NewIndex, TableDef};
use pq_statement::Request;
use pq_text::Piece;
use std::alloc::Global;

/// The bound of a PREPARE over a table without rows.
fn prepare_bound(wanted: &Option<NewIndex>) -> Bound
    ensures { result ≡ prepare_bound wanted.now [] }
{
    let ops = match wanted {
        None => 1,
        Some(_) => 4,
    };
    Bound { ops, entries: 0 }
}

/// Makes one step of a check: the statement of a piece of the script, with its number, as far as the
/// definitions decide it. What is reported as used is nothing.
pub fn check(
    alloc: Global,
    planned: PlannedCatalog,
    number: u32,
    piece: &Piece,
) -> Result<(PlannedCatalog, Report), NoMem>
    ensures report { IfOk result (λ p. p.1 ≡ (check_step (without_rows planned) number piece.now).report) }
    ensures next { IfOk result (λ p. p.0 ≡ (check_step (without_rows planned) number piece.now).model.schema) }
    ensures arranged { IfOk result (λ p. (written : Query) → IsPrepareOf planned written piece.now
        → is_refusal p.1 ≡ false → IsDefinedAs planned.tables written p.0) }
{
    planned.known();
    match request_of(alloc, &planned, piece) {
        Err(Stopped::NoMem) => Err(NoMem),
        Err(Stopped::Refused(why)) => Ok((planned, unread_report(alloc, number, why))),
        Ok(request) => check_request(alloc, planned, number, request),
    }
}

/// Makes of what was asked for what needs no store.
fn check_request(
    alloc: Global,
    planned: PlannedCatalog,
    number: u32,
    request: Request,
) -> Result<(PlannedCatalog, Report), NoMem>
    requires { IsRequest planned request }
    ensures { IfOk result (λ p. (asked : Result Action Refusal) → Asks planned request asked
        → IsChecked planned number asked p.0 p.1) }
{
    match request {
        Request::Create(def) => check_table(alloc, planned, number, def),
        Request::Alter(def) => check_column(alloc, planned, number, def),
        Request::Write(write) => {
            let bound = whole_bound(planned.catalog(), &write);
            Ok((planned, done_report(alloc, number, bound, NOTHING_USED)))
        }
        Request::Batch(writes) => {
            let bound = batch_bound(planned.catalog(), &writes);
            Ok((planned, done_report(alloc, number, bound, NOTHING_USED)))
        }
        Request::Misread { place, cause } => {
            Ok((planned, misread_report(alloc, number, place, cause)))
        }
        Request::Prepare(plan) => check_query(alloc, planned, number, plan),
        Request::Explain(plan) => {
            let report = plan_report(alloc, &planned, number, &plan)?;
            Ok((planned, report))
        }
        Request::Run(run) => {
            let bound = planned.kept_plan(run.query).bound();
            Ok((planned, done_report(alloc, number, bound, NOTHING_USED)))
        }
        Request::Count(def) => check_counter(alloc, planned, number, def),
        Request::Read(_) => Ok((
            planned,
            done_report(alloc, number, READ_BOUND, NOTHING_USED),
        )),
        Request::Show => show(alloc, planned, number),
        Request::Select(plan) => Ok(check_once(alloc, planned, number, &plan)),
    }
}

/// Tells just the bound of a query that is run once.
fn check_once(
    alloc: Global,
    planned: PlannedCatalog,
    number: u32,
    plan: &PlannedQuery,
) -> (PlannedCatalog, Report)
    requires { IsComputed planned.tables plan.now }
    ensures { (asked : Result Action Refusal) → IsPlannedAs Selects asked plan.now
        → IsChecked planned number asked result.0 result.1 }
{
    let bound = plan.compiled.plan.bound();
    (planned, done_report(alloc, number, bound, NOTHING_USED))
}

/// Defines a table, where nothing refuses it.
fn check_table(
    alloc: Global,
    planned: PlannedCatalog,
    number: u32,
    def: TableDef,
) -> Result<(PlannedCatalog, Report), NoMem>
    requires { IsTableDef def }
    ensures { IfOk result (λ p. IsChecked planned number (action_from Creates (new_table planned def)) p.0 p.1) }
{
    let (planned, made) = planned.with_table_of(alloc, def)?;
    match made {
        Err(why) => Ok((planned, unread_report(alloc, number, why))),
        Ok(table) => {
            let lines = lines_of(alloc, &planned, table)?;
            let bound = Bound { ops: 1, entries: 0 };
            Ok((planned, unpaid_report(number, lines, bound)))
        }
    }
}

/// Adds a column to a table, where nothing refuses it.
fn check_column(
    alloc: Global,
    planned: PlannedCatalog,
    number: u32,
    def: AlterDef,
) -> Result<(PlannedCatalog, Report), NoMem>
    requires { IsAlterDef def }
    ensures { IfOk result (λ p. IsChecked planned number (action_from (λ next. Adds def) (new_column planned def))
        p.0 p.1) }
{
    let (planned, made) = planned.with_column_of(alloc, def)?;
    match made {
        Err(why) => Ok((planned, unread_report(alloc, number, why))),
        Ok(_) => {
            let bound = Bound { ops: 1, entries: 0 };
            Ok((planned, unpaid_report(number, List::new(alloc), bound)))
        }
    }
}

/// Defines a counter, where nothing refuses it: over no store its table has no rows.
fn check_counter(
    alloc: Global,
    planned: PlannedCatalog,
    number: u32,
    def: CounterDef,
) -> Result<(PlannedCatalog, Report), NoMem>
    requires { IsCounterDef def }
    ensures { IfOk result (λ p. IsChecked planned number
        (action_from (λ next. Counts def) (new_counter planned def)) p.0 p.1) }
{
    let (planned, made) = planned.with_counter_of(alloc, def)?;
    match made {
        Err(why) => Ok((planned, unread_report(alloc, number, why))),
        Ok(_) => Ok((
            planned,
            unpaid_report(number, List::new(alloc), COUNTER_BOUND),
        )),
    }
}

/// Defines a query that was planned.
fn check_query(
    alloc: Global,
    planned: PlannedCatalog,
    number: u32,
    plan: PlannedQuery,
) -> Result<(PlannedCatalog, Report), NoMem>
    requires { IsDefinable planned plan }
    ensures { IfOk result (λ p. (asked : Result Action Refusal) → IsPlannedAs Prepares asked plan
        → IsChecked planned number asked p.0 p.1) }
{
    let lines = planned_lines(alloc, planned.catalog(), &plan)?;
    let PlannedQuery { query, compiled } = plan;
    let Compiled {
        plan: kept,
        wanted,
        ..
    } = compiled;
    let bound = prepare_bound(&wanted);
    let planned = planned.with_defined(alloc, query, kept, wanted)?;
    Ok((planned, unpaid_report(number, lines, bound)))
}
