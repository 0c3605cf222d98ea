//! The answer of a query that is run once, which no definition has.
ghost use Rattle.std.specs.Prelude.{◌≡◌, ◌<◌, ◌≤◌, ◌+◌, [], length, None, IfOk, IfErr, IfSome};
ghost use Rattle.std.specs.List.{AllByRecursion};
ghost use Rattle.pq_base.specs.Values.{AllFit};
ghost use Rattle.pq_store.specs.Breaks.{IfDamaged, IsAnswered};
ghost use Rattle.pq_store.specs.Content.{HasBrokeCause};
ghost use Rattle.pq_calls.specs.World.{where_told};
ghost use Rattle.pq_nodes.specs.Combos.{selected_types};
ghost use Rattle.pq_nodes.specs.Operators.{IsAsked, ShowsRead, IsSoundOverRows};
ghost use Rattle.pq_nodes.specs.Rounds.{plan_rounds};
ghost use Rattle.pq_exec.specs.Execution.{RisesByUsed, RisesWithin};
ghost use Rattle.pq_plan.specs.Cost.{cost};
ghost use Rattle.pq_runnable.specs.Runnable.{IsRunnablePlan};
ghost use Rattle.pq_running.specs.Running.{query_bound};
ghost use Rattle.pq_pages.specs.Paging.{IsAnswerOf, IsOnceIn};

use crate::page::Page;
use pq_base::Row;
use pq_exec::{Answer, execute};
use pq_plan::BoundedPlan;
use pq_schema::{Catalog, Query};
use pq_store::{Broke, Meter, Store};
use std::alloc::Global;
use std::sync::ledger::Ledger;

/// The answer of a query without parameters, by its plan, on an allowance of just the query's bound. Of a
/// query with PAGINATE it is the first page. It has no cursor, since no definition could take one.
///
/// Over every store the content stays as it was, and no more is used than the bound, also on an `Err`.
/// `Failed` comes only where the store's count of faults rose, and `Damaged` only with a key and a value
/// that show damage in the content.
pub fn run_once<S: Store<L>, L: Ledger>(
    alloc: Global,
    catalog: &Catalog,
    query: &Query,
    plan: &BoundedPlan,
    store: &mut S,
    meter: &mut Meter<L>,
) -> Result<Page, Broke>
    requires asked { IsAsked catalog.now.tables query.now [] }
    requires plan { IsRunnablePlan catalog.now.tables query.now plan.now }
    requires bound { cost plan.now ≡ query_bound catalog.now.tables query.now }
    // Over a content that holds rows.
    ensures answer { IfOk result (IsAnswerOf (S.content store.old) catalog.now.tables query.now) }
    ensures undamaged { IfErr result (IsSoundOverRows (S.content store.old) catalog.now.tables) }
    // Over any content that is told its rows are made of what the plan finds there: nothing is passed over.
    ensures codes { IfOk result (λ page. IfSome (S.content store.old) (IsOnceIn catalog.now.tables query.now plan.now
        page)) }
    // Over every store.
    ensures few { IfOk result (λ page. length page.rows < 4294967296) }
    ensures fit { IfOk result (λ page. AllByRecursion
        (AllFit (selected_types catalog.now.tables query.now)) page.rows) }
    ensures last { IfOk result (λ page. page.next ≡ None) }
    ensures bound { IfOk result (λ page. page.bound ≡ query_bound catalog.now.tables query.now) }
    ensures used { IfOk result (λ page. RisesByUsed page.used meter.old meter.new) }
    ensures within { RisesWithin (query_bound catalog.now.tables query.now) meter.old meter.new }
    ensures content { S.content store.new ≡ S.content store.old }
    ensures damage { IfErr result (IfDamaged (where_told (ShowsRead catalog.now.tables) (S.content store.old))) }
    ensures cause { HasBrokeCause (S.faults store.old) (S.faults store.new) result }
    ensures rounds { S.rounds store.new ≤ S.rounds store.old + plan_rounds plan.now }
    ensures answered { IfErr result (IsAnswered S.answers) }
{
    let params = Row::new(alloc);
    let answer = execute(alloc, catalog, query, plan, &params, None, store, meter)?;
    let Answer { rows, used, .. } = answer;
    Ok(Page {
        rows,
        next: None,
        bound: plan.bound(),
        used,
    })
}
