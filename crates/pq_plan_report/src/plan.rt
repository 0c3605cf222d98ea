//! The plan that a statement asks for, as the lines of its nodes.
ghost use Rattle.std.specs.Prelude.{◌≡◌, ◌++◌, flat_map, string_bytes, IfOk};
ghost use Rattle.pq_plan.specs.Cost.{IsPlanTree, cost};
ghost use Rattle.pq_plan.specs.Nodes.{nodes};
ghost use Rattle.pq_plan_lines.specs.Lines.{plan_lines, sum_of};
ghost use Rattle.pq_nodes.specs.Rounds.{plan_rounds};
ghost use Rattle.pq_plan_lines.specs.Texts.{line_text, rounds_text};
ghost use Rattle.pq_statement.specs.Actions.{action_of};
ghost use Rattle.pq_statement.specs.Requests.{IsRequest};
ghost use Rattle.pq_planning.specs.Planned.{IsComputed};
ghost use Rattle.pq_plan_report.specs.Plans.{TellsAsked, TellsPlanned, TellsRequested};

use pq_base::{NoMem, Stopped};
use pq_compile::Compiled;
use pq_plan_lines::{plan_lines, put_lines, put_rounds};
use pq_planning::PlannedQuery;
use pq_schema::{Catalog, Query};
use pq_statement::{Request, asked};
use pq_text::Piece;
use std::alloc::Global;

/// The lines of a plan's nodes, and that of its rounds. The costs in them sum to the plan's bound.
fn plan_text(
    alloc: Global,
    catalog: &Catalog,
    query: &Query,
    compiled: &Compiled,
) -> Result<String, NoMem>
    requires { IsPlanTree compiled.now.plan }
    ensures text { IfOk result (λ text. string_bytes text
        ≡ flat_map (line_text catalog.now.tables query.now compiled.now.wanted)
        (plan_lines (nodes compiled.now.plan)) ++ rounds_text (plan_rounds compiled.now.plan)) }
    ensures sum { IfOk result (λ _. sum_of (plan_lines (nodes compiled.now.plan)) ≡ cost compiled.now.plan) }
{
    let lines = plan_lines(alloc, &compiled.plan)?;
    let mut text = String::new(alloc);
    put_lines(
        alloc,
        catalog.tables(),
        query,
        &compiled.wanted,
        lines.items(),
        &mut text,
    )?;
    put_rounds(&compiled.plan, &mut text)?;
    Ok(text)
}

/// The lines of the plan of a query that was planned.
fn planned_text(alloc: Global, catalog: &Catalog, plan: &PlannedQuery) -> Result<String, NoMem>
    requires { IsComputed catalog.now.tables plan.now }
    ensures { IfOk result (λ told. TellsPlanned catalog.now plan.now (string_bytes told)) }
{
    catalog.known();
    let told = plan_text(alloc, catalog, &plan.query, &plan.compiled)?;
    Ok(told)
}

/// The lines of the plan that a request asks for, none where it asks for none.
fn request_plan(alloc: Global, catalog: &Catalog, request: &Request) -> Result<String, NoMem>
    requires { IsRequest catalog.now request.now }
    ensures { IfOk result (λ told. TellsRequested catalog.now request.now (string_bytes told)) }
{
    match request {
        Request::Prepare(plan) | Request::Explain(plan) | Request::Select(plan) => {
            planned_text(alloc, catalog, plan)
        }
        _ => Ok(String::new(alloc)),
    }
}

/// The lines of the plan that a piece asks for, none where it asks for none or is refused.
pub(crate) fn piece_plan(alloc: Global, catalog: &Catalog, piece: &Piece) -> Result<String, NoMem>
    ensures { IfOk result (λ told. TellsAsked catalog.now (action_of catalog.now piece.now) (string_bytes told)) }
{
    match asked(alloc, catalog, piece) {
        Ok(request) => request_plan(alloc, catalog, &request),
        Err(Stopped::Refused(_why)) => Ok(String::new(alloc)),
        Err(Stopped::NoMem) => Err(NoMem),
    }
}
