//! What is told without a store: the lines of a table, a plan, and the definitions.
ghost use Rattle.std.specs.Prelude.{◌≡◌, IfOk};
ghost use Rattle.pq_planning.specs.Planned.{IsComputed};
ghost use Rattle.pq_builds.specs.Bounds.{bound};
ghost use Rattle.pq_reports.specs.Step.{report_of};
ghost use Rattle.pq_plan.specs.Cost.{cost};
ghost use Rattle.pq_print.specs.declared.report.End.TheVariants as End;
ghost use Rattle.pq_planning.specs.Lines.{planned_lines, show_lines, table_lines};
ghost use Rattle.pq_schema.specs.Tables.{table_at};
ghost use Rattle.pq_content.specs.Tables.{IsTableNumber};

use crate::reports::{NO_CALLS, unpaid_report};
use pq_base::{List, NoMem};
use pq_catalog::PlannedCatalog;
use pq_planning::{PlannedQuery, planned_lines, show_lines, table_lines};
use pq_print::{Line, Report};
use std::alloc::Global;

/// The lines of the indexes that a table was made with.
pub fn lines_of(alloc: Global, planned: &PlannedCatalog, table: u8) -> Result<List<Line>, NoMem>
    requires { IsTableNumber planned.now.tables table }
    ensures { IfOk result (λ lines. lines ≡ table_lines (table_at planned.now.tables table)) }
{
    planned.known();
    table_lines(alloc, planned.catalog().table(table))
}

/// Shows the definitions, and the indexes that each of them made.
pub fn show(
    alloc: Global,
    planned: PlannedCatalog,
    number: u32,
) -> Result<(PlannedCatalog, Report), NoMem>
    ensures { IfOk result (λ made. made ≡ (planned, report_of number (show_lines planned) End.Done (bound 0 0))) }
{
    planned.known();
    let lines = show_lines(alloc, planned.catalog())?;
    Ok((planned, unpaid_report(number, lines, NO_CALLS)))
}

/// The report of a plan that nothing is made of.
pub fn plan_report(
    alloc: Global,
    planned: &PlannedCatalog,
    number: u32,
    plan: &PlannedQuery,
) -> Result<Report, NoMem>
    requires { IsComputed planned.now.tables plan.now }
    ensures { IfOk result (λ report. report ≡ report_of number (planned_lines planned.now.tables plan.now.query.name
        plan.now.compiled.choice (cost plan.now.compiled.plan) plan.now.compiled.wanted) End.Done (bound 0 0)) }
{
    let lines = planned_lines(alloc, planned.catalog(), plan)?;
    Ok(unpaid_report(number, lines, NO_CALLS))
}
