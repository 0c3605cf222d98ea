//! The candidates of a query.

ghost use Rattle.std.specs.Prelude.{◌≡◌, ◌++◌, ◌≤◌, length, map, flat_map, Some, IfOk, OnOk};
ghost use Rattle.std.specs.List.{range_with_len};
ghost use Rattle.pq_schema.specs.Sound.{IsQuery};
ghost use Rattle.pq_schema.specs.Candidates.{stop_at, stop_size, whole_candidates};
ghost use Rattle.pq_plan.specs.Meaning.{tree_of};
ghost use Rattle.pq_stop_push.specs.Pushes.{held_plan, planned_push, planned_candidates, placed_tree};

use crate::costs::{are_bounded, reached_after};
use crate::rewrites::{build, place_data_stops, push_stop};
use crate::stops::{stop_cost, stop_size};
use pq_base::{Bound, Choice, List, NoMem};
use pq_plan::Logical;
use pq_schema::{Catalog, Query};
use std::alloc::Global;

/// A way to run a query, with the cost that it has at most.
#[derive(Drop)]
pub struct Candidate {
    pub choice: Choice,
    pub tree: Logical,
    pub bound: Bound,
}

/// The tree of a query with its data stops.
fn placed(alloc: Global, catalog: &Catalog, query: &Query) -> Result<Logical, NoMem>
    requires { IsQuery catalog.now.tables query.now }
    ensures { IfOk result (λ t. tree_of t ≡ placed_tree catalog.now.tables query.now) }
{
    let tree = build(alloc, query)?;
    place_data_stops(alloc, catalog, query, tree)
}

fn push_whole(
    list: &mut List<Candidate>,
    alloc: Global,
    catalog: &Catalog,
    query: &Query,
) -> Result<(), NoMem>
    requires { IsQuery catalog.now.tables query.now }
    ensures { OnOk result (map held_plan list.new
        ≡ map held_plan list.old ++ map (planned_push catalog.now.tables query.now)
        (whole_candidates catalog.now.tables query.now)) }
{
    let count = query.relations.items().len() as u8;
    if are_bounded(catalog, query, count) {
        let tree = placed(alloc, catalog, query)?;
        list.push(
            alloc,
            Candidate {
                choice: Choice::Whole,
                tree,
                bound: reached_after(catalog, query, count).cost,
            },
        )?;
    }
    Ok(())
}

fn push_stop_at(
    list: &mut List<Candidate>,
    alloc: Global,
    catalog: &Catalog,
    query: &Query,
    k: u16,
    p: u8,
) -> Result<(), NoMem>
    requires query { IsQuery catalog.now.tables query.now }
    requires k { stop_size query.now.stop ≡ Some k }
    requires one { 1 ≤ p }
    requires there { p ≤ length query.now.relations }
    ensures { OnOk result (map held_plan list.new
        ≡ map held_plan list.old ++ map (planned_push catalog.now.tables query.now)
        (stop_at catalog.now.tables query.now k p)) }
{
    let tree = placed(alloc, catalog, query)?;
    if let Some(tree) = push_stop(alloc, catalog, query, tree, p)? {
        list.push(
            alloc,
            Candidate {
                choice: Choice::Stop(p),
                tree,
                bound: stop_cost(alloc, catalog, query, k, p),
            },
        )?;
    }
    Ok(())
}

fn push_stops(
    list: &mut List<Candidate>,
    alloc: Global,
    catalog: &Catalog,
    query: &Query,
    k: u16,
) -> Result<(), NoMem>
    requires query { IsQuery catalog.now.tables query.now }
    requires k { stop_size query.now.stop ≡ Some k }
    ensures { OnOk result (map held_plan list.new
        ≡ map held_plan list.old ++ map (planned_push catalog.now.tables query.now)
        (flat_map (stop_at catalog.now.tables query.now k) (range_with_len 1 (length query.now.relations)))) }
{
    for p in 1..query.relations.items().len() as u8 + 1 {
        push_stop_at(list, alloc, catalog, query, k, p)?;
    }
    Ok(())
}

/// The candidates with their costs: whole, and then with the stop at each relation, as far as they exist.
pub fn candidates(alloc: Global, catalog: &Catalog, query: &Query) -> Result<List<Candidate>, NoMem>
    requires { IsQuery catalog.now.tables query.now }
    ensures { IfOk result (λ list. map held_plan list ≡ planned_candidates catalog.now.tables query.now) }
{
    let mut list = List::new(alloc);
    push_whole(&mut list, alloc, catalog, query)?;
    if let Some(k) = stop_size(query.stop) {
        push_stops(&mut list, alloc, catalog, query, k)?;
    }
    Ok(list)
}
