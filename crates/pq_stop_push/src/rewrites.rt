//! The rewrites, each of which keeps the meaning.

ghost use Rattle.std.specs.Prelude.{◌≡◌, ◌≤◌, length, List, IfOk, IfSome, option_map};
ghost use Rattle.pq_schema.specs.declared.table.Table.{Table};
ghost use Rattle.pq_schema.specs.Sound.{IsQuery};
ghost use Rattle.pq_schema.specs.Candidates.{bound_at};
ghost use Rattle.pq_plan.specs.Meaning.{tree_of, MeansAnswer};
ghost use Rattle.pq_plan.specs.Rewrites.{reads_tree, top_of, placed_stops, pushed_tree};
ghost use Rattle.pq_stop_push.specs.Pushes.{IsOver, built_tree, placed_tree, stop_there};

use crate::costs::bound_at;
use crate::stops::{stop_size, stop_there};
use pq_base::NoMem;
use pq_plan::Logical;
use pq_schema::{Catalog, Query};
use std::alloc::Global;

/// Project over Cut over Order over the reads of the relations, the last outermost. There is no Cut where
/// there is no stop.
pub fn build(alloc: Global, query: &Query) -> Result<Logical, NoMem>
    requires { length query.now.relations ≤ 6 }
    ensures tree { IfOk result (λ t. tree_of t ≡ built_tree query.now) }
    ensures meaning { (tables : List Table) → IsQuery tables query.now
        → IfOk result (λ t. MeansAnswer tables query.now (tree_of t)) }
{
    tree_with(alloc, query)
}

/// The tree of `build` with a DataStop directly above each Read that has a data bound. After `NoMem` the
/// tree is dropped.
pub fn place_data_stops(
    alloc: Global,
    catalog: &Catalog,
    query: &Query,
    tree: Logical,
) -> Result<Logical, NoMem>
    requires query { IsQuery catalog.now.tables query.now }
    requires built { tree_of tree ≡ built_tree query.now }
    ensures tree { IfOk result (λ t. tree_of t ≡ placed_tree catalog.now.tables query.now) }
    ensures meaning { IfOk result (λ t. MeansAnswer catalog.now.tables query.now (tree_of t)) }
{
    place(alloc, catalog, query, tree)
}

/// The tree of `place_data_stops` with StopRead in place of the Read of a relation, and of a DataStop above
/// it. None exactly where the query has no stop candidate there. After `NoMem` the tree is dropped.
pub fn push_stop(
    alloc: Global,
    catalog: &Catalog,
    query: &Query,
    tree: Logical,
    rel: u8,
) -> Result<Option<Logical>, NoMem>
    requires query { IsQuery catalog.now.tables query.now }
    requires one { 1 ≤ rel }
    requires there { rel ≤ length query.now.relations }
    requires placed { tree_of tree ≡ placed_tree catalog.now.tables query.now }
    ensures tree { IfOk result (λ found. option_map tree_of found ≡ option_map
        (λ k. pushed_tree rel k (tree_of tree)) (stop_there catalog.now.tables query.now rel)) }
    ensures meaning { IfOk result (λ found. IfSome found (λ t. MeansAnswer catalog.now.tables query.now (tree_of t))) }
{
    match stop_there(catalog, query, rel) {
        None => Ok(None),
        Some(k) => Ok(Some(push(alloc, tree, rel, k)?)),
    }
}

/// The tree with a DataStop above each Read that has a data bound.
fn place(alloc: Global, catalog: &Catalog, query: &Query, tree: Logical) -> Result<Logical, NoMem>
    requires query { IsQuery catalog.now.tables query.now }
    requires over { IsOver (length query.now.relations) (tree_of tree) }
    ensures { IfOk result (λ t. tree_of t ≡ placed_stops (bound_at catalog.now.tables query.now) (tree_of tree)) }
{
    match tree {
        Logical::Unit => Ok(Logical::Unit),
        Logical::Read { input, rel } => {
            let input = place(alloc, catalog, query, Box::into_inner(input))?;
            let read = Logical::Read {
                input: Box::new(alloc, input)?,
                rel,
            };
            match bound_at(catalog, query, rel) {
                None => Ok(read),
                Some(n) => Ok(Logical::DataStop {
                    input: Box::new(alloc, read)?,
                    rel,
                    n,
                }),
            }
        }
        Logical::DataStop { input, rel, n } => {
            let input = place(alloc, catalog, query, Box::into_inner(input))?;
            Ok(Logical::DataStop {
                input: Box::new(alloc, input)?,
                rel,
                n,
            })
        }
        Logical::StopRead { input, rel, k } => {
            let input = place(alloc, catalog, query, Box::into_inner(input))?;
            Ok(Logical::StopRead {
                input: Box::new(alloc, input)?,
                rel,
                k,
            })
        }
        Logical::Order { input } => {
            let input = place(alloc, catalog, query, Box::into_inner(input))?;
            Ok(Logical::Order {
                input: Box::new(alloc, input)?,
            })
        }
        Logical::Cut { input, k } => {
            let input = place(alloc, catalog, query, Box::into_inner(input))?;
            Ok(Logical::Cut {
                input: Box::new(alloc, input)?,
                k,
            })
        }
        Logical::Project { input } => {
            let input = place(alloc, catalog, query, Box::into_inner(input))?;
            Ok(Logical::Project {
                input: Box::new(alloc, input)?,
            })
        }
    }
}

/// The tree with StopRead in place of the Read of a relation, and of a DataStop above it.
fn push(alloc: Global, tree: Logical, at: u8, stop: u16) -> Result<Logical, NoMem>
    ensures { IfOk result (λ t. tree_of t ≡ pushed_tree at stop (tree_of tree)) }
{
    match tree {
        Logical::Unit => Ok(Logical::Unit),
        Logical::Read { input, rel } => {
            if rel == at {
                return Ok(Logical::StopRead {
                    input,
                    rel,
                    k: stop,
                });
            }
            let input = push(alloc, Box::into_inner(input), at, stop)?;
            Ok(Logical::Read {
                input: Box::new(alloc, input)?,
                rel,
            })
        }
        Logical::DataStop { input, rel, n } => {
            let input = push(alloc, Box::into_inner(input), at, stop)?;
            if rel == at {
                return Ok(input);
            }
            Ok(Logical::DataStop {
                input: Box::new(alloc, input)?,
                rel,
                n,
            })
        }
        Logical::StopRead { input, rel, k } => {
            let input = push(alloc, Box::into_inner(input), at, stop)?;
            Ok(Logical::StopRead {
                input: Box::new(alloc, input)?,
                rel,
                k,
            })
        }
        Logical::Order { input } => {
            let input = push(alloc, Box::into_inner(input), at, stop)?;
            Ok(Logical::Order {
                input: Box::new(alloc, input)?,
            })
        }
        Logical::Cut { input, k } => {
            let input = push(alloc, Box::into_inner(input), at, stop)?;
            Ok(Logical::Cut {
                input: Box::new(alloc, input)?,
                k,
            })
        }
        Logical::Project { input } => {
            let input = push(alloc, Box::into_inner(input), at, stop)?;
            Ok(Logical::Project {
                input: Box::new(alloc, input)?,
            })
        }
    }
}

/// The reads of the relations in order.
fn reads(alloc: Global, count: u8) -> Result<Logical, NoMem>
    requires { count ≤ 6 }
    ensures { IfOk result (λ t. tree_of t ≡ reads_tree count) }
{
    let mut tree = Logical::Unit;
    for rel in 0..count {
        tree = Logical::Read {
            input: Box::new(alloc, tree)?,
            rel: rel + 1,
        };
    }
    Ok(tree)
}

/// In order, and cut where there is a stop.
fn with_top(alloc: Global, tree: Logical, stop: Option<u16>) -> Result<Logical, NoMem>
    ensures { IfOk result (λ t. tree_of t ≡ top_of stop (tree_of tree)) }
{
    let ordered = Logical::Order {
        input: Box::new(alloc, tree)?,
    };
    match stop {
        None => Ok(ordered),
        Some(k) => Ok(Logical::Cut {
            input: Box::new(alloc, ordered)?,
            k,
        }),
    }
}

fn tree_with(alloc: Global, query: &Query) -> Result<Logical, NoMem>
    requires { length query.now.relations ≤ 6 }
    ensures { IfOk result (λ t. tree_of t ≡ built_tree query.now) }
{
    let reads = reads(alloc, query.relations.items().len() as u8)?;
    let tree = with_top(alloc, reads, stop_size(query.stop))?;
    Ok(Logical::Project {
        input: Box::new(alloc, tree)?,
    })
}
