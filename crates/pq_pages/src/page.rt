//! The page of a query's answer.
ghost use Rattle.std.specs.Prelude.{◌≡◌, ◌<◌, ◌≤◌, ◌+◌, length, option_copied, IfOk, IfErr, IfSome};
ghost use Rattle.std.specs.List.{AllByRecursion};
ghost use Rattle.pq_base.specs.Values.{AllFit};
ghost use Rattle.pq_schema.specs.Schema.{query_at};
ghost use Rattle.pq_store.specs.Breaks.{IfDamaged, IsAnswered};
ghost use Rattle.pq_store.specs.Content.{HasBrokeCause};
ghost use Rattle.pq_calls.specs.World.{where_told};
ghost use Rattle.pq_nodes.specs.Operators.{IsCursor, ShowsRead, IsSoundOverRows};
ghost use Rattle.pq_exec.specs.Execution.{RisesByUsed, RisesWithin};
ghost use Rattle.pq_plan.specs.Cost.{cost};
ghost use Rattle.pq_runnable.specs.Runnable.{IsRunnablePlan};
ghost use Rattle.pq_cursor.specs.Cursors.{cursor_text};
ghost use Rattle.pq_nodes.specs.Combos.{position_types, selected_types};
ghost use Rattle.pq_nodes.specs.Rounds.{plan_rounds};
ghost use Rattle.pq_schema.specs.Resolved.{IsResolved};
ghost use Rattle.pq_running.specs.Running.{IsQueryNumber, next_cursor, position_dirs, query_bound, running_with};
ghost use Rattle.pq_pages.specs.Paging.{IsPageIn, IsPageOf};

use pq_base::{Bound, List, NoMem, PText, Row, Stopped, Used};
use pq_cursor::cursor_text;
use pq_exec::{Answer, execute};
use pq_plan::BoundedPlan;
use pq_running::{page_size, position_shape};
use pq_schema::{Catalog, Query};
use pq_store::{Broke, Meter, Store};
use std::alloc::Global;
use std::sync::ledger::Ledger;

/// The rows of a page, and the cursor of the next one where the page is full; the bound of the query, and
/// what was used of it.
#[derive(Drop)]
pub struct Page {
    pub rows: List<Row>,
    pub next: Option<PText>,
    pub bound: Bound,
    pub used: Used,
}

/// The cursor of a position of the query.
fn cursor_at(
    alloc: Global,
    catalog: &Catalog,
    number: u16,
    query: &Query,
    position: &Row,
) -> Result<PText, NoMem>
    requires resolved { IsResolved catalog.now.tables query.now }
    requires fits { AllFit (position_types catalog.now.tables query.now) position.now }
    ensures { IfOk result (λ text. text
        ≡ cursor_text number (position_dirs catalog.now.tables query.now) position.now) }
{
    let shape = position_shape(alloc, catalog, query)?;
    cursor_text(alloc, number, position, shape.dirs.items())
}

/// The cursor of the next page, where this one has as many rows as a page may have.
fn next_cursor(
    alloc: Global,
    catalog: &Catalog,
    number: u16,
    query: &Query,
    answer: &Answer,
) -> Result<Option<PText>, NoMem>
    requires resolved { IsResolved catalog.now.tables query.now }
    requires fits { IfSome answer.now.last (AllFit (position_types catalog.now.tables query.now)) }
    ensures { IfOk result (λ next. next
        ≡ next_cursor catalog.now.tables number query.now (length answer.now.rows) answer.now.last) }
{
    match (page_size(query.stop), &answer.last) {
        (Some(k), Some(last)) if answer.rows.items().len() == k as usize => {
            Ok(Some(cursor_at(alloc, catalog, number, query, last)?))
        }
        _ => Ok(None),
    }
}

/// The page of a query's answer behind a position, by its plan, on an allowance of just the query's bound.
///
/// Over every store the content stays as it was, and no more is used than the bound, also on an `Err`.
/// `Failed` comes only where the store's count of faults rose, and `Damaged` only with a key and a value
/// that show damage in the content.
pub fn run_page<S: Store<L>, L: Ledger>(
    alloc: Global,
    catalog: &Catalog,
    number: u16,
    plan: &BoundedPlan,
    params: &Row,
    after: Option<&Row>,
    store: &mut S,
    meter: &mut Meter<L>,
) -> Result<Page, Broke>
    requires number { IsQueryNumber catalog.now number }
    requires plan { IsRunnablePlan catalog.now.tables (query_at catalog.now number) plan.now }
    requires bound { cost plan.now ≡ query_bound catalog.now.tables (query_at catalog.now number) }
    requires fits { AllFit (query_at catalog.now number).params params.now }
    requires cursor { IsCursor catalog.now.tables (query_at catalog.now number) (option_copied after) }
    // Over a content that holds rows.
    ensures page { IfOk result (IsPageOf (S.content store.old) catalog.now.tables
        (running_with number (query_at catalog.now number) params.now (option_copied after.entry))) }
    ensures undamaged { IfErr result (IsSoundOverRows (S.content store.old) catalog.now.tables) }
    // Over any content that is told its rows are made of what the plan finds there: nothing is passed over.
    ensures codes { IfOk result (λ page. IfSome (S.content store.old) (IsPageIn catalog.now.tables
        (running_with number (query_at catalog.now number) params.now (option_copied after.entry)) plan.now page)) }
    // Over every store.
    ensures few { IfOk result (λ page. length page.rows < 4294967296) }
    ensures fit { IfOk result (λ page. AllByRecursion
        (AllFit (selected_types catalog.now.tables (query_at catalog.now number))) page.rows) }
    ensures bound { IfOk result (λ page. page.bound ≡ query_bound catalog.now.tables (query_at catalog.now number)) }
    ensures used { IfOk result (λ page. RisesByUsed page.used meter.old meter.new) }
    ensures within { RisesWithin (query_bound catalog.now.tables (query_at catalog.now number)) meter.old meter.new }
    ensures content { S.content store.new ≡ S.content store.old }
    ensures damage { IfErr result (IfDamaged (where_told (ShowsRead catalog.now.tables) (S.content store.old))) }
    ensures cause { HasBrokeCause (S.faults store.old) (S.faults store.new) result }
    ensures rounds { S.rounds store.new ≤ S.rounds store.old + plan_rounds plan.now }
    ensures answered { IfErr result (IsAnswered S.answers) }
{
    catalog.known();
    let query = catalog.query(number);
    let answer = execute(alloc, catalog, query, plan, params, after, store, meter)?;
    let next = next_cursor(alloc, catalog, number, query, &answer)?;
    let Answer { rows, used, .. } = answer;
    Ok(Page {
        rows,
        next,
        bound: plan.bound(),
        used,
    })
}
