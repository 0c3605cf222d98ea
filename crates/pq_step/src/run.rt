//! RUN: a page of a query that was defined.
ghost use Rattle.std.specs.Prelude.{◌≡◌, ◌<◌, length, map, IfOk, IfErr, Ok};
ghost use Rattle.pq_base.specs.Values.{AllFit};
ghost use Rattle.pq_schema.specs.Schema.{query_at};
ghost use Rattle.pq_store.specs.Breaks.{IsAnswered};
ghost use Rattle.pq_store.specs.Content.{HasBrokeCause};
ghost use Rattle.pq_nodes.specs.Operators.{IsCursor};
ghost use Rattle.pq_running.specs.Running.{IsQueryNumber, running_with};
ghost use Rattle.pq_statement.specs.Actions.{Runs};
ghost use Rattle.pq_reports.specs.Promise.{Promises};
ghost use Rattle.pq_step.specs.Paged.{page_report};
ghost use Rattle.pq_step.specs.Rounds.{AsksQuery};

use pq_base::{List, NoMem, Row};
use pq_catalog::PlannedCatalog;
use pq_pages::{Page, run_page};
use pq_print::{End, Line, Report};
use pq_statement::RunRequest;
use pq_store::{Broke, Meter, Store};
use std::alloc::Global;
use std::sync::ledger::Ledger;

/// The lines of rows.
fn row_lines(alloc: Global, rows: List<Row>) -> Result<List<Line>, NoMem>
    ensures { IfOk result (λ lines. lines ≡ map Line.Row rows) }
{
    let mut lines = List::with_room(alloc, rows.items().len())?;
    for row in rows.into_vec() {
        lines.push(alloc, Line::Row(row))?;
    }
    Ok(lines)
}

/// The report of a page, or of an answer that no page follows.
#[inline(always)]
pub(crate) fn page_report(alloc: Global, number: u32, page: Page) -> Result<Report, NoMem>
    requires { length page.rows < 4294967296 }
    ensures { IfOk result (λ report. report ≡ page_report number page) }
{
    let Page {
        rows,
        next,
        bound,
        used,
    } = page;
    let count = rows.items().len() as u32;
    Ok(Report {
        number,
        lines: row_lines(alloc, rows)?,
        end: End::Rows { count, next },
        bound,
        used,
    })
}

/// Runs a query with parameters that fit, behind a position.
#[inline(always)]
pub(crate) fn run_query<S: Store<L>, L: Ledger>(
    alloc: Global,
    planned: PlannedCatalog,
    number: u32,
    run: &RunRequest,
    store: &mut S,
    meter: &mut Meter<L>,
) -> Result<(PlannedCatalog, Report), Broke>
    requires number { IsQueryNumber planned run.now.query }
    requires fits { AllFit (query_at planned run.now.query).params run.now.params }
    requires cursor { IsCursor planned.tables (query_at planned run.now.query) run.now.after }
    ensures step { Promises number
        (Ok (Runs (running_with run.now.query (query_at planned run.now.query) run.now.params run.now.after)))
        (S.content store.old) (S.content store.new) planned meter.old meter.new result }
    ensures rounds { AsksQuery planned.tables (query_at planned run.now.query) (S.rounds store.old) (S.rounds store.new) }
    ensures cause { HasBrokeCause (S.faults store.old) (S.faults store.new) result }
    ensures answered { IfErr result (IsAnswered S.answers) }
{
    let plan = planned.kept_plan(run.query);
    let page = run_page(
        alloc,
        planned.catalog(),
        run.query,
        plan,
        &run.params,
        run.after.as_ref(),
        store,
        meter,
    )?;
    let report = page_report(alloc, number, page)?;
    Ok((planned, report))
}
