//! How often a plan asks the store.
ghost use Rattle.std.specs.Prelude.{◌≡◌, ◌≤◌, ◌*◌, length};
ghost use Rattle.pq_plan.specs.Cost.{relations_read};
ghost use Rattle.pq_nodes.specs.Rounds.{access_rounds, plan_rounds};

use pq_plan::Physical;
use pq_schema::Access;

/// The rounds of a read in a sequence: its ranges, and over an index the rows of the entries.
fn access_rounds(access: Access) -> usize
    ensures { result ≡ access_rounds access }
{
    match access {
        Access::Primary => 1,
        Access::Secondary(_) => 2,
    }
}

/// How many rounds a plan asks the store for: at most two for each relation that it reads.
pub fn plan_rounds(tree: &Physical) -> usize
    requires { length (relations_read tree.now) ≤ 7 }
    ensures rounds { result ≡ plan_rounds tree.now }
    ensures few { result ≤ 2 * length (relations_read tree.now) }
{
    match tree {
        Physical::Unit => 0,
        Physical::Lookup { input, .. } => plan_rounds(input) + 1,
        Physical::LimitRange { input, access, .. } => plan_rounds(input) + access_rounds(*access),
        Physical::StopScan { input, access, .. } => plan_rounds(input) + access_rounds(*access),
        Physical::Filter { input, .. }
        | Physical::Sort { input }
        | Physical::Cut { input, .. }
        | Physical::Project { input } => plan_rounds(input),
    }
}
