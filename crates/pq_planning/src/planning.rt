//! A query of a text, as it stands or arranged, with the plan of its least candidate.
ghost use Rattle.std.specs.Prelude.{◌≡◌, ◌≤◌, length, IfOk, IfErr};
ghost use Rattle.pq_base.specs.Answers.{Passes, Refuses};
ghost use Rattle.pq_plan.specs.Cost.{cost};
ghost use Rattle.pq_schema.specs.Resolved.{IsResolved};
ghost use Rattle.pq_text.specs.Tokens.{tokens_of};
ghost use Rattle.pq_planning.specs.Planned.{IsOnce, IsPlanned};
ghost use Rattle.pq_planning.specs.Planning.{arranged_from, arranged_plan, explained_name, index_refusal, once_refusal, plan_from, selected_from, selected_plan};
ghost use Rattle.pq_planning.specs.Lines.{IsLined, planned_lines};

use crate::lines::put_wanted_line;
use pq_arrange::arranged;
use pq_base::{List, NoMem, PText, Refusal, Stopped};
use pq_compile::{Compiled, compile};
use pq_print::Line;
use pq_query_read::read_query;
use pq_schema::{Catalog, NewIndex, Query};
use pq_text::Token;
use std::alloc::Global;

/// A query, and the plan of its least candidate.
#[derive(Drop)]
pub struct PlannedQuery {
    pub query: Query,
    pub compiled: Compiled,
}

/// The query of this name that the tokens of the text spell from a place on, as it stands, with its plan, or
/// the first refusal of the two.
pub fn plan_query(
    alloc: Global,
    catalog: &Catalog,
    name: PText,
    text: &PText,
    tokens: &List<Token>,
    from: u32,
) -> Result<PlannedQuery, Stopped>
    requires tokens { tokens.now ≡ tokens_of text.now }
    requires within { from ≤ length tokens.now }
    ensures planned { IfOk result (IsPlanned catalog.now name
        (plan_from catalog.now name text.now tokens.now from)) }
    ensures refused { IfErr result (λ stopped. Refuses stopped (plan_from catalog.now name text.now tokens.now from)) }
{
    catalog.known();
    let query = read_query(alloc, catalog, name, text, tokens, from)?;
    let compiled = compile(alloc, catalog, &query)?;
    Ok(PlannedQuery { query, compiled })
}

/// The query that is planned in place of one that was read, with its plan.
fn plan_written(alloc: Global, catalog: &Catalog, written: Query) -> Result<PlannedQuery, Stopped>
    requires { IsResolved catalog.now.tables written }
    ensures planned { IfOk result (IsPlanned catalog.now written.name (arranged_plan catalog.now.tables written)) }
    ensures params { IfOk result (λ plan. plan.query.params ≡ written.params) }
    ensures refused { IfErr result (λ stopped. Refuses stopped (arranged_plan catalog.now.tables written)) }
{
    catalog.known();
    let query = arranged(alloc, catalog, written)?;
    let compiled = compile(alloc, catalog, &query)?;
    Ok(PlannedQuery { query, compiled })
}

/// The same of the query that is planned in its place.
pub fn plan_arranged(
    alloc: Global,
    catalog: &Catalog,
    name: PText,
    text: &PText,
    tokens: &List<Token>,
    from: u32,
) -> Result<PlannedQuery, Stopped>
    requires tokens { tokens.now ≡ tokens_of text.now }
    requires within { from ≤ length tokens.now }
    ensures planned { IfOk result (IsPlanned catalog.now name
        (arranged_from catalog.now name text.now tokens.now from)) }
    ensures refused { IfErr result
        (λ stopped. Refuses stopped (arranged_from catalog.now name text.now tokens.now from)) }
{
    let written = read_query(alloc, catalog, name, text, tokens, from)?;
    plan_written(alloc, catalog, written)
}

/// The name that the query of an EXPLAIN has in its report, and that of a SELECT.
pub fn explained_name(alloc: Global) -> Result<PText, NoMem>
    ensures { IfOk result (λ name. name ≡ explained_name) }
{
    let name = String::from_str(alloc, "explain")?;
    Ok(PText::from_string(name))
}

/// Refuses a query with parameters.
fn check_params(query: &Query) -> Result<(), Stopped>
    ensures { Passes result (once_refusal query.now) }
{
    if query.params.items().len() == 0 {
        Ok(())
    } else {
        Err(Stopped::Refused(Refusal::Params))
    }
}

/// Refuses a query that wants an index which isn't there.
fn check_index(alloc: Global, catalog: &Catalog, wanted: &Option<NewIndex>) -> Result<(), Stopped>
    requires { IsLined catalog.now.tables wanted.now }
    ensures { Passes result (index_refusal catalog.now.tables wanted.now) }
{
    match wanted {
        None => Ok(()),
        Some(new) => {
            let table = catalog.table(new.table).name.copy(alloc)?;
            Err(Stopped::Refused(Refusal::IndexWanted { table }))
        }
    }
}

/// The query that is planned in place of one that was read and is run once, with its plan.
fn plan_once(alloc: Global, catalog: &Catalog, written: Query) -> Result<PlannedQuery, Stopped>
    requires { IsResolved catalog.now.tables written }
    ensures planned { IfOk result (IsPlanned catalog.now written.name (selected_plan catalog.now.tables written)) }
    ensures once { IfOk result IsOnce }
    ensures refused { IfErr result (λ stopped. Refuses stopped (selected_plan catalog.now.tables written)) }
{
    check_params(&written)?;
    let plan = plan_written(alloc, catalog, written)?;
    check_index(alloc, catalog, &plan.compiled.wanted)?;
    Ok(plan)
}

/// The query that all tokens of the text spell, arranged, with its plan, as it is run once; or its first refusal,
/// which one with parameters has too, and one that wants an index which isn't there.
pub fn plan_select(
    alloc: Global,
    catalog: &Catalog,
    text: &PText,
    tokens: &List<Token>,
) -> Result<PlannedQuery, Stopped>
    requires { tokens.now ≡ tokens_of text.now }
    ensures planned { IfOk result (IsPlanned catalog.now explained_name
        (selected_from catalog.now text.now tokens.now)) }
    ensures once { IfOk result IsOnce }
    ensures refused { IfErr result (λ stopped. Refuses stopped (selected_from catalog.now text.now tokens.now)) }
{
    let name = explained_name(alloc)?;
    let written = read_query(alloc, catalog, name, text, tokens, 0)?;
    plan_once(alloc, catalog, written)
}

/// The lines of a planned query: its candidate with its bound, and the index that it wants.
pub fn planned_lines(
    alloc: Global,
    catalog: &Catalog,
    plan: &PlannedQuery,
) -> Result<List<Line>, NoMem>
    requires { IsLined catalog.now.tables plan.now.compiled.wanted }
    ensures { IfOk result (λ lines. lines ≡ planned_lines catalog.now.tables plan.now.query.name
        plan.now.compiled.choice (cost plan.now.compiled.plan) plan.now.compiled.wanted) }
{
    let mut lines = List::new(alloc);
    lines.push(
        alloc,
        Line::Query {
            name: plan.query.name.copy(alloc)?,
            choice: plan.compiled.choice,
            bound: plan.compiled.plan.bound(),
        },
    )?;
    put_wanted_line(alloc, catalog, &plan.compiled.wanted, &mut lines)?;
    Ok(lines)
}
