//! What a tree costs.

ghost use Rattle.std.specs.Prelude.{◌≡◌, ◌+◌, ◌^◌, ◌<◌, ◌≤◌, length};
ghost use Rattle.pq_schema.specs.Costs.{bound, limit_cost, read_each, read_stop};
ghost use Rattle.pq_plan.specs.Cost.{is_primary_access, reach, cost, relations_read, IsInLimits, IsPlanTree};
ghost use Rattle.pq_plan.specs.Totals.{reached_total, IsLow};

use crate::physical::Physical;
use pq_base::Bound;
use pq_schema::Access;

/// How many combinations come, and what was spent.
#[derive(Clone, Copy)]
pub struct Total {
    pub inputs: u128,
    pub cost: Bound,
}

/// Small enough for one more read.
pub fn read_each(size: u32, cost: Bound, before: Total) -> Total
    requires size { size ≤ 10000 }
    requires ops { cost.ops ≤ 10001 }
    requires entries { cost.entries ≤ 20000 }
    requires low { IsLow before }
    ensures { reached_total result ≡ read_each size cost (reached_total before) }
{
    Total {
        inputs: before.inputs * size as u128,
        cost: Bound {
            ops: before.cost.ops + before.inputs * cost.ops,
            entries: before.cost.entries + before.inputs * cost.entries,
        },
    }
}

pub fn limit_cost(primary: bool, n: u32) -> Bound
    requires { n ≤ 10000 }
    ensures { result ≡ limit_cost primary n }
{
    if primary {
        Bound {
            ops: 1,
            entries: n as u128,
        }
    } else {
        Bound {
            ops: 1 + n as u128,
            entries: 2 * n as u128,
        }
    }
}

fn is_primary_access(access: Access) -> bool
    ensures { result ≡ is_primary_access access }
{
    match access {
        Access::Primary => true,
        Access::Secondary(_) => false,
    }
}

pub fn read_stop(k: u16, served: bool, before: Total) -> Total
    requires k { k ≤ 1000 }
    requires low { IsLow before }
    ensures total { reached_total result ≡ read_stop k served (reached_total before) }
    ensures ops { result.cost.ops < 2 ^ 120 }
    ensures entries { result.cost.entries < 2 ^ 120 }
{
    let fetched: u128 = if served { 0 } else { k as u128 };
    Total {
        inputs: k as u128,
        cost: Bound {
            ops: before.cost.ops + before.inputs + fetched,
            entries: before.cost.entries + before.inputs * k as u128 + fetched,
        },
    }
}

fn total_of(tree: &Physical) -> Total
    requires few { length (relations_read tree.now) ≤ 7 }
    requires small { IsInLimits tree.now }
    ensures { reached_total result ≡ reach tree.now }
{
    match tree {
        Physical::Unit => Total {
            inputs: 1,
            cost: Bound { ops: 0, entries: 0 },
        },
        Physical::Lookup { input, .. } => read_each(
            1,
            Bound { ops: 1, entries: 1 },
            total_of(input),
        ),
        Physical::LimitRange {
            input,
            n,
            access,
            ..
        } => read_each(
            *n,
            limit_cost(is_primary_access(*access), *n),
            total_of(input),
        ),
        Physical::StopScan {
            input,
            k,
            access,
            ..
        } => read_stop(*k, is_primary_access(*access), total_of(input)),
        Physical::Filter { input, .. } => total_of(input),
        Physical::Sort { input } => total_of(input),
        Physical::Cut { input, .. } => total_of(input),
        Physical::Project { input } => total_of(input),
    }
}

/// The sum over the nodes.
pub fn bound_of(tree: &Physical) -> Bound
    requires { IsPlanTree tree.now }
    ensures { result ≡ cost tree.now }
{
    total_of(tree).cost
}
