//! The tree of a plan, run from its innermost node on.
ghost use Rattle.std.specs.Prelude.{◌≡◌, ◌≤◌, ◌+◌, [], ◌∷◌, option_copied, IfOk, IfErr, IfSome};
ghost use Rattle.pq_store.specs.Breaks.{IsAnswered};
ghost use Rattle.pq_calls.specs.World.{world, Affords, Reads};
ghost use Rattle.pq_plan.specs.Cost.{cost};
ghost use Rattle.pq_plan.specs.Nodes.{nodes};
ghost use Rattle.pq_nodes.specs.Operators.{IsAsked, IsCursor, StopsReading, IsSoundOverRows};
ghost use Rattle.pq_nodes.specs.Rounds.{plan_rounds};
ghost use Rattle.pq_runnable.specs.Runnable.{IsRunnable};
ghost use Rattle.pq_exec.specs.Execution.{IsInputOf, AreFoundIn, AreRun, RunAnswers};

use crate::node::run_node;
use pq_base::{List, NoMem};
use pq_plan::{Combo, Physical};
use pq_scan::Request;
use pq_store::{Allowance, Broke, Meter, Store};
use std::alloc::Global;
use std::sync::ledger::Ledger;

/// The tree under the outermost node.
fn input_of(tree: &Physical) -> Option<&Physical>
    ensures { IsInputOf tree.now (option_copied result) }
{
    match tree {
        Physical::Unit => None,
        Physical::Lookup { input, .. }
        | Physical::LimitRange { input, .. }
        | Physical::StopScan { input, .. }
        | Physical::Filter { input, .. }
        | Physical::Sort { input }
        | Physical::Cut { input, .. }
        | Physical::Project { input } => Some(input),
    }
}

/// The one combination of no relation.
fn unit(alloc: Global) -> Result<List<Combo>, NoMem>
    ensures { IfOk result (λ found. found ≡ [] ∷ []) }
{
    let mut found = List::with_room(alloc, 1)?;
    found.push(alloc, Combo::empty(alloc))?;
    Ok(found)
}

/// What running a tree gives.
pub(crate) fn run<S: Store<L>, L: Ledger>(
    alloc: Global,
    request: &Request<'_>,
    tree: &Physical,
    store: &mut S,
    allowance: &mut Allowance,
    meter: &mut Meter<L>,
) -> Result<List<Combo>, Broke>
    requires asked { IsAsked request.now.catalog.now.tables request.now.query.now request.now.params.now }
    requires runnable { IsRunnable request.now.catalog.now.tables request.now.query.now
        (cost tree.now) (nodes tree.now) }
    requires cursor { IsCursor request.now.catalog.now.tables request.now.query.now (option_copied request.now.after) }
    requires share { Affords allowance.old (cost tree.now).ops (cost tree.now).entries }
    ensures codes { IfOk result (λ found. IfSome (S.content store.old) (AreFoundIn request.now.catalog.now.tables
        request.now.query.now request.now.params.now (option_copied request.now.after) ([] ∷ []) (nodes tree.now)
        found)) }
    ensures answer { IfOk result (RunAnswers (S.content store.old) request.now.catalog.now.tables
        request.now.query.now request.now.params.now (option_copied request.now.after) (nodes tree.now)) }
    ensures reads { Reads (world (S.content store.old) (S.faults store.old) allowance.old meter.old)
        (world (S.content store.new) (S.faults store.new) allowance.new meter.new)
        (cost tree.now).ops (cost tree.now).entries }
    ensures given { IfOk result (AreRun request.now.catalog.now.tables request.now.query.now (nodes tree.now)) }
    ensures cause { IfErr result (StopsReading request.now.catalog.now.tables
        (world (S.content store.old) (S.faults store.old) allowance.old meter.old)
        (world (S.content store.new) (S.faults store.new) allowance.new meter.new)) }
    ensures rounds { S.rounds store.new ≤ S.rounds store.old + plan_rounds tree.now }
    ensures answered { IfErr result (IsAnswered S.answers) }
    ensures undamaged { IfErr result (IsSoundOverRows (S.content store.old) request.now.catalog.now.tables) }
{
    match input_of(tree) {
        None => Ok(unit(alloc)?),
        Some(input) => {
            let inputs = run(alloc, request, input, store, allowance, meter)?;
            run_node(alloc, request, tree, inputs, store, allowance, meter)
        }
    }
}
