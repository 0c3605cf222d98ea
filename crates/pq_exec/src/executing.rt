//! Executing a plan.
ghost use Rattle.std.specs.Prelude.{◌≡◌, ◌≤◌, ◌+◌, length, option_copied, IfOk, IfErr, IfSome};
ghost use Rattle.std.specs.List.{AllByRecursion};
ghost use Rattle.pq_base.specs.Values.{AllFit};
ghost use Rattle.pq_schema.specs.Resolved.{IsResolved};
ghost use Rattle.pq_store.specs.Breaks.{IfDamaged, IsAnswered};
ghost use Rattle.pq_store.specs.Content.{HasBrokeCause};
ghost use Rattle.pq_calls.specs.World.{where_told};
ghost use Rattle.pq_plan.specs.Cost.{cost};
ghost use Rattle.pq_nodes.specs.Combos.{FitsTables, position_types};
ghost use Rattle.pq_nodes.specs.Operators.{IsAsked, IsCursor, ShowsRead, IsSoundOverRows};
ghost use Rattle.pq_nodes.specs.Rounds.{plan_rounds};
ghost use Rattle.pq_runnable.specs.Runnable.{IsRunnablePlan};
ghost use Rattle.pq_exec.specs.Execution.{AnswersQuery, IsAnswerIn, IsLastPosition, IsPage, RisesByUsed, RisesWithin};

use crate::tree::run;
use pq_base::{List, NoMem, Row, Used};
use pq_local_ops::{position_of, take_selected};
use pq_plan::{BoundedPlan, Combo};
use pq_scan::Request;
use pq_schema::{Catalog, Query};
use pq_store::{Allowance, Broke, Meter, Store};
use std::alloc::Global;
use std::sync::ledger::Ledger;

/// The rows of an answer, the position of the last one, and what was used of the store.
#[derive(Drop)]
pub struct Answer {
    /// The selected columns.
    pub rows: List<Row>,
    /// The position of the last row's combination, None exactly where there are no rows.
    pub last: Option<Row>,
    pub used: Used,
}

/// The position of the last combination, where there is one.
fn last_position(
    alloc: Global,
    catalog: &Catalog,
    query: &Query,
    combos: &List<Combo>,
) -> Result<Option<Row>, NoMem>
    requires { IsResolved catalog.now.tables query.now }
    ensures last { IfOk result (IsLastPosition catalog.now.tables query.now combos.now) }
    ensures fits { IfOk result (λ last.
        AllByRecursion (FitsTables catalog.now.tables query.now (length query.now.relations)) combos.now
        → IfSome last (AllFit (position_types catalog.now.tables query.now))) }
{
    match combos.items().last() {
        Some(combo) => Ok(Some(position_of(alloc, catalog, query, combo)?)),
        None => Ok(None),
    }
}

/// Runs a plan of a query on an allowance of just the plan's numbers.
///
/// Over every store the content stays as it was, and no more is used than the plan's numbers, also on an
/// `Err`. `Failed` comes only where the store's count of faults rose, and `Damaged` only with a key and a
/// value that show damage in the content.
pub fn execute<S: Store<L>, L: Ledger>(
    alloc: Global,
    catalog: &Catalog,
    query: &Query,
    plan: &BoundedPlan,
    params: &Row,
    after: Option<&Row>,
    store: &mut S,
    meter: &mut Meter<L>,
) -> Result<Answer, Broke>
    requires asked { IsAsked catalog.now.tables query.now params.now }
    requires plan { IsRunnablePlan catalog.now.tables query.now plan.now }
    requires cursor { IsCursor catalog.now.tables query.now (option_copied after) }
    // Over a content that holds rows it is the query's answer over them.
    ensures answer { IfOk result (AnswersQuery (S.content store.old) catalog.now.tables query.now params.now
        (option_copied after.entry)) }
    // Over any content that is told its rows are made of what the nodes find there: nothing is passed over.
    ensures codes { IfOk result (λ answer. IfSome (S.content store.old) (IsAnswerIn catalog.now.tables query.now
        params.now (option_copied after.entry) plan.now answer)) }
    // Over every store.
    ensures page { IfOk result (IsPage catalog.now.tables query.now plan.now) }
    ensures content { S.content store.new ≡ S.content store.old }
    ensures bound { RisesWithin (cost plan.now) meter.old meter.new }
    ensures used { IfOk result (λ answer. RisesByUsed answer.used meter.old meter.new) }
    ensures cause { HasBrokeCause (S.faults store.old) (S.faults store.new) result }
    ensures rounds { S.rounds store.new ≤ S.rounds store.old + plan_rounds plan.now }
    ensures answered { IfErr result (IsAnswered S.answers) }
    ensures damage { IfErr result (IfDamaged (where_told (ShowsRead catalog.now.tables) (S.content store.old))) }
    ensures undamaged { IfErr result (IsSoundOverRows (S.content store.old) catalog.now.tables) }
{
    let request = Request {
        catalog,
        query,
        params,
        after,
    };
    let mut allowance = Allowance::grant(plan.bound());
    let combos = run(alloc, &request, plan.tree(), store, &mut allowance, meter)?;
    let last = last_position(alloc, catalog, query, &combos)?;
    Ok(Answer {
        rows: take_selected(alloc, query, combos)?,
        last,
        used: allowance.used(),
    })
}
