//! The nodes of a plan, each with what it costs and how many combinations it gives.
ghost use Rattle.std.specs.Prelude.{◌≡◌, ◌≤◌, ◌++◌, ◌∷◌, [], length, IfOk, OnOk};
ghost use Rattle.pq_plan.specs.Cost.{IsInLimits, IsPlanTree, cost, is_primary_access, reach, relations_read};
ghost use Rattle.pq_plan.specs.Nodes.{node_step, nodes};
ghost use Rattle.pq_plan.specs.Totals.{reached_total};
ghost use Rattle.pq_plan_lines.specs.Lines.{IsSmall, inputs_alone, line_of, meant, node_size, plan_lines, sum_of};

use pq_base::{Bound, List, NoMem};
use pq_plan::{BoundedPlan, Physical, Total, limit_cost, read_each, read_stop};
use pq_schema::Access;
use std::alloc::Global;

/// A node of a plan, apart from its tree. Relations and limits are numbered from 1.
#[derive(Clone, Copy)]
pub enum PlanNode {
    /// The row whose key is tied, for each input.
    Lookup {
        rel: u8,
    },
    /// The at most `n` rows of a limit's group, for each input.
    LimitRange {
        rel: u8,
        limit: u8,
        n: u32,
        access: Access,
    },
    /// The first `k` in the order of the answer, of all inputs together.
    StopScan {
        rel: u8,
        k: u16,
        access: Access,
    },
    /// What keeps the predicates that belong to the relation.
    Filter {
        rel: u8,
    },
    Sort,
    /// The first `k`.
    Cut {
        k: u16,
    },
    Project,
}

/// A node, with its operations and entries, and how many combinations it gives at most.
#[derive(Clone, Copy)]
pub struct NodeLine {
    pub node: PlanNode,
    pub cost: Bound,
    pub size: u128,
}

fn is_primary(access: Access) -> bool
    ensures { result ≡ is_primary_access access }
{
    match access {
        Access::Primary => true,
        Access::Secondary(_) => false,
    }
}

/// What is reached by one node behind so many inputs that cost nothing.
fn reached_by(node: PlanNode, inputs: u128) -> Total
    requires { IsSmall inputs (meant node) }
    ensures { reached_total result ≡ node_step (inputs_alone inputs) (meant node) }
{
    let before = Total {
        inputs,
        cost: Bound { ops: 0, entries: 0 },
    };
    match node {
        PlanNode::Lookup { .. } => read_each(1, Bound { ops: 1, entries: 1 }, before),
        PlanNode::LimitRange { n, access, .. } => {
            read_each(n, limit_cost(is_primary(access), n), before)
        }
        PlanNode::StopScan { k, access, .. } => read_stop(k, is_primary(access), before),
        PlanNode::Filter { .. } | PlanNode::Sort | PlanNode::Cut { .. } | PlanNode::Project => {
            before
        }
    }
}

/// Puts the line of a node for so many inputs behind the others, and says how many combinations it gives.
fn put_line(
    alloc: Global,
    node: PlanNode,
    inputs: u128,
    lines: &mut List<NodeLine>,
) -> Result<u128, NoMem>
    requires { IsSmall inputs (meant node) }
    ensures line { OnOk result (lines.new ≡ lines.old ++ line_of inputs (meant node) ∷ []) }
    ensures size { IfOk result (λ size. size ≡ node_size inputs (meant node)) }
{
    let reached = reached_by(node, inputs);
    let line = NodeLine {
        node,
        cost: reached.cost,
        size: reached.inputs,
    };
    lines.push(alloc, line)?;
    Ok(reached.inputs)
}

/// Puts the lines of a tree's nodes behind the others, the innermost node's first, and says how many
/// combinations the tree gives.
fn put_lines(alloc: Global, tree: &Physical, lines: &mut List<NodeLine>) -> Result<u128, NoMem>
    requires few { length (relations_read tree.now) ≤ 7 }
    requires small { IsInLimits tree.now }
    ensures lines { OnOk result (lines.new ≡ lines.old ++ plan_lines (nodes tree.now)) }
    ensures size { IfOk result (λ size. size ≡ (reach tree.now).inputs) }
{
    match tree {
        Physical::Unit => Ok(1),
        Physical::Lookup { input, rel } => {
            let inputs = put_lines(alloc, input, lines)?;
            put_line(alloc, PlanNode::Lookup { rel: *rel }, inputs, lines)
        }
        Physical::LimitRange {
            input,
            rel,
            limit,
            n,
            access,
        } => {
            let inputs = put_lines(alloc, input, lines)?;
            let node = PlanNode::LimitRange {
                rel: *rel,
                limit: *limit,
                n: *n,
                access: *access,
            };
            put_line(alloc, node, inputs, lines)
        }
        Physical::StopScan {
            input,
            rel,
            k,
            access,
        } => {
            let inputs = put_lines(alloc, input, lines)?;
            let node = PlanNode::StopScan {
                rel: *rel,
                k: *k,
                access: *access,
            };
            put_line(alloc, node, inputs, lines)
        }
        Physical::Filter { input, rel } => {
            let inputs = put_lines(alloc, input, lines)?;
            put_line(alloc, PlanNode::Filter { rel: *rel }, inputs, lines)
        }
        Physical::Sort { input } => {
            let inputs = put_lines(alloc, input, lines)?;
            put_line(alloc, PlanNode::Sort, inputs, lines)
        }
        Physical::Cut { input, k } => {
            let inputs = put_lines(alloc, input, lines)?;
            put_line(alloc, PlanNode::Cut { k: *k }, inputs, lines)
        }
        Physical::Project { input } => {
            let inputs = put_lines(alloc, input, lines)?;
            put_line(alloc, PlanNode::Project, inputs, lines)
        }
    }
}

/// The lines of a plan's nodes, from the innermost on. Their sum is the plan's bound.
pub fn plan_lines(alloc: Global, plan: &BoundedPlan) -> Result<List<NodeLine>, NoMem>
    requires { IsPlanTree plan.now }
    ensures lines { IfOk result (λ lines. lines ≡ plan_lines (nodes plan.now)) }
    ensures sum { IfOk result (λ lines. sum_of lines ≡ cost plan.now) }
{
    let mut lines = List::new(alloc);
    put_lines(alloc, plan.tree(), &mut lines)?;
    Ok(lines)
}
