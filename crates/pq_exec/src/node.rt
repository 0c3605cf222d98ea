//! One node of a plan, run over its inputs.
ghost use Rattle.std.specs.Prelude.{◌≤◌, ◌+◌, length, option_copied, IfOk, IfErr, IfSome};
ghost use Rattle.std.specs.List.{AllByRecursion};
ghost use Rattle.pq_store.specs.Breaks.{IsAnswered};
ghost use Rattle.pq_calls.specs.World.{world};
ghost use Rattle.pq_nodes.specs.Combos.{FitsTables};
ghost use Rattle.pq_nodes.specs.Operators.{IsAsked, IsReadyNode, IsCursor, AffordsNode, ReadsNode};
ghost use Rattle.pq_nodes.specs.Operators.{AnswersNode, StopsReading, IsSoundOverRows};
ghost use Rattle.pq_nodes.specs.Rounds.{node_rounds};
ghost use Rattle.pq_exec.specs.Execution.{top_node, rows_before, AreGiven, ArePastCursor, IsCutOf, IsFoundIn};
ghost use Rattle.pq_local_ops.specs.Lists.{ArePart};

use pq_base::{List, NoMem};
use pq_calls::Calls;
use pq_fk_join::fk_join;
use pq_index_scan::limit_range;
use pq_local_ops::{first_k, keep_after, keep_matching, sort_combos};
use pq_plan::{Combo, Physical};
use pq_scan::{Request, scan_inputs};
use pq_store::{Allowance, Broke, Meter, Store};
use std::alloc::Global;
use std::sync::ledger::Ledger;

/// The combinations strictly after the cursor, in their order; all of them where there is no cursor.
fn behind_cursor(
    alloc: Global,
    request: &Request<'_>,
    combos: List<Combo>,
) -> Result<List<Combo>, NoMem>
    requires asked { IsAsked request.now.catalog.now.tables request.now.query.now request.now.params.now }
    requires inputs { AllByRecursion
        (FitsTables request.now.catalog.now.tables request.now.query.now (length request.now.query.now.relations))
        combos }
    requires cursor { IsCursor request.now.catalog.now.tables request.now.query.now (option_copied request.now.after) }
    ensures kept { IfOk result (ArePastCursor request.now.catalog.now.tables request.now.query.now
        (option_copied request.now.after) combos) }
    ensures part { IfOk result (ArePart combos) }
{
    match request.after {
        Some(after) => keep_after(alloc, request.catalog, request.query, after, combos),
        None => Ok(combos),
    }
}

/// The first `k` combinations strictly after the cursor.
fn cut_page(
    alloc: Global,
    request: &Request<'_>,
    k: u16,
    combos: List<Combo>,
) -> Result<List<Combo>, NoMem>
    requires asked { IsAsked request.now.catalog.now.tables request.now.query.now request.now.params.now }
    requires inputs { AllByRecursion
        (FitsTables request.now.catalog.now.tables request.now.query.now (length request.now.query.now.relations))
        combos }
    requires cursor { IsCursor request.now.catalog.now.tables request.now.query.now (option_copied request.now.after) }
    ensures cut { IfOk result (IsCutOf request.now.catalog.now.tables request.now.query.now
        (option_copied request.now.after) k combos) }
    ensures part { IfOk result (ArePart combos) }
{
    Ok(first_k(behind_cursor(alloc, request, combos)?, k))
}

/// What the outermost node of a tree makes of its inputs. A tree without nodes leaves them as they are.
#[inline(always)]
pub(crate) fn run_node<S: Store<L>, L: Ledger>(
    alloc: Global,
    request: &Request<'_>,
    tree: &Physical,
    inputs: List<Combo>,
    store: &mut S,
    allowance: &mut Allowance,
    meter: &mut Meter<L>,
) -> Result<List<Combo>, Broke>
    requires asked { IsAsked request.now.catalog.now.tables request.now.query.now request.now.params.now }
    requires ready { IsReadyNode request.now.catalog.now.tables request.now.query.now (top_node tree.now) }
    requires inputs { AllByRecursion
        (FitsTables request.now.catalog.now.tables request.now.query.now
        (rows_before request.now.query.now (top_node tree.now))) inputs }
    requires cursor { IsCursor request.now.catalog.now.tables request.now.query.now (option_copied request.now.after) }
    requires share { AffordsNode allowance.old (length inputs) (top_node tree.now) }
    ensures codes { IfOk result (λ found. IfSome (S.content store.old) (IsFoundIn request.now.catalog.now.tables
        request.now.query.now request.now.params.now (option_copied request.now.after) inputs (top_node tree.now)
        found)) }
    ensures answer { IfOk result (AnswersNode (S.content store.old) request.now.catalog.now.tables
        request.now.query.now request.now.params.now (option_copied request.now.after) inputs (top_node tree.now)) }
    ensures reads { ReadsNode (world (S.content store.old) (S.faults store.old) allowance.old meter.old)
        (world (S.content store.new) (S.faults store.new) allowance.new meter.new) (length inputs) (top_node tree.now) }
    ensures given { IfOk result (AreGiven request.now.catalog.now.tables request.now.query.now
        (length inputs) (top_node tree.now)) }
    ensures cause { IfErr result (StopsReading request.now.catalog.now.tables
        (world (S.content store.old) (S.faults store.old) allowance.old meter.old)
        (world (S.content store.new) (S.faults store.new) allowance.new meter.new)) }
    ensures rounds { S.rounds store.new ≤ S.rounds store.old + node_rounds (top_node tree.now) }
    ensures answered { IfErr result (IsAnswered S.answers) }
    ensures undamaged { IfErr result (IsSoundOverRows (S.content store.old) request.now.catalog.now.tables) }
{
    let Request {
        catalog,
        query,
        params,
        ..
    } = *request;
    match tree {
        Physical::Unit | Physical::Project { .. } => Ok(inputs),
        Physical::Lookup { rel, .. } => fk_join(
            alloc, catalog, query, params, *rel, inputs, store, allowance, meter,
        ),
        Physical::LimitRange {
            rel,
            limit,
            access,
            ..
        } => limit_range(
            alloc, catalog, query, params, *rel, *limit, *access, inputs, store, allowance, meter,
        ),
        Physical::StopScan { rel, k, access, .. } => {
            let mut calls = Calls {
                store,
                allowance,
                meter,
            };
            scan_inputs(
                alloc,
                request,
                *rel,
                *access,
                inputs.items(),
                *k,
                &mut calls,
            )
        }
        Physical::Filter { rel, .. } => Ok(keep_matching(query, params, *rel, inputs)?),
        Physical::Sort { .. } => Ok(sort_combos(alloc, catalog, query, inputs)?),
        Physical::Cut { k, .. } => Ok(cut_page(alloc, request, *k, inputs)?),
    }
}
