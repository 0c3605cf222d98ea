//! The tree that runs a logical tree.

ghost use Rattle.std.specs.Prelude.{◌≡◌, ◌≤◌, ◌++◌, ◌∷◌, [], length, IfOk, unwrap_or};
ghost use Rattle.pq_base.specs.Columns.{set_of};
ghost use Rattle.pq_schema.specs.declared.table.Access.TheVariants.{Primary};
ghost use Rattle.pq_schema.specs.Sound.{IsTable, IsQuery, AreColumns};
ghost use Rattle.pq_schema.specs.Sequences.{group_access};
ghost use Rattle.pq_plan.specs.Meaning.{tree_of};
ghost use Rattle.pq_plan.specs.Nodes.{nodes, lookup, limit_range, keep, read_nodes, stop_access};
ghost use Rattle.pq_stop_push.specs.Pushes.{IsOver};
ghost use Rattle.pq_compile.specs.Lowered.{lowered_nodes};

use crate::wanting::need_at;
use pq_base::{ColSet, NoMem};
use pq_index_pick::serving;
use pq_plan::{Logical, Physical};
use pq_predicates::{fixed, is_lookup, limit_of, table_of};
use pq_schema::{Access, Catalog, Limit, Query, Table, group_access};
use std::alloc::Global;

/// A lookup of the relation, and its filter.
fn with_lookup(alloc: Global, input: Physical, rel: u8) -> Result<Physical, NoMem>
    ensures { IfOk result (λ made. nodes made ≡ nodes input ++ lookup rel ∷ keep rel ∷ []) }
{
    let read = Physical::Lookup {
        input: Box::new(alloc, input)?,
        rel,
    };
    Ok(Physical::Filter {
        input: Box::new(alloc, read)?,
        rel,
    })
}

/// A range of the relation, and its filter.
fn with_range(
    alloc: Global,
    input: Physical,
    rel: u8,
    limit: u8,
    n: u32,
    access: Access,
) -> Result<Physical, NoMem>
    ensures { IfOk result (λ made. nodes made ≡ nodes input ++ limit_range rel limit n access ∷ keep rel ∷ []) }
{
    let read = Physical::LimitRange {
        input: Box::new(alloc, input)?,
        rel,
        limit,
        n,
        access,
    };
    Ok(Physical::Filter {
        input: Box::new(alloc, read)?,
        rel,
    })
}

/// The sequence in which the rows of a limit's group stand together.
fn limit_access(table: &Table, limit: &Limit) -> Access
    requires table { IsTable table.now }
    requires limit { AreColumns limit.now.cols }
    ensures { result ≡ unwrap_or (group_access table.now (set_of limit.now.cols)) Primary }
{
    match group_access(table, ColSet::of(limit.cols.items())) {
        Some(access) => access,
        None => Access::Primary,
    }
}

/// The nodes that read a relation and filter it.
fn with_read(
    alloc: Global,
    catalog: &Catalog,
    query: &Query,
    input: Physical,
    rel: u8,
) -> Result<Physical, NoMem>
    requires query { IsQuery catalog.now.tables query.now }
    requires one { 1 ≤ rel }
    requires there { rel ≤ length query.now.relations }
    ensures { IfOk result (λ made. nodes made ≡ nodes input ++ read_nodes catalog.now.tables query.now rel) }
{
    let table = table_of(catalog, query, rel);
    let set = fixed(query, rel);
    if is_lookup(table, set) {
        return with_lookup(alloc, input, rel);
    }
    match limit_of(table, set) {
        None => Ok(input),
        Some(number) => {
            let limit = &table.limits.items()[number as usize - 1];
            with_range(
                alloc,
                input,
                rel,
                number,
                limit.n,
                limit_access(table, limit),
            )
        }
    }
}

/// The sequence that serves a stop at the relation, or the index that it wants.
fn stop_access(alloc: Global, catalog: &Catalog, query: &Query, p: u8) -> Access
    requires query { IsQuery catalog.now.tables query.now }
    requires one { 1 ≤ p }
    requires there { p ≤ length query.now.relations }
    ensures { result ≡ stop_access catalog.now.tables query.now p }
{
    let table = table_of(catalog, query, p);
    match serving(table, &need_at(alloc, query, p)) {
        Some(access) => access,
        None => Access::Secondary(table.indexes.items().len() as u8 + 1),
    }
}

/// The tree that runs a logical tree. A data stop needs no node, since it drops nothing.
pub fn lower(
    alloc: Global,
    catalog: &Catalog,
    query: &Query,
    tree: &Logical,
) -> Result<Physical, NoMem>
    requires query { IsQuery catalog.now.tables query.now }
    requires over { IsOver (length query.now.relations) (tree_of tree.now) }
    ensures { IfOk result (λ made. nodes made ≡ lowered_nodes catalog.now.tables query.now (tree_of tree.now)) }
{
    match tree {
        Logical::Unit => Ok(Physical::Unit),
        Logical::Read { input, rel } => {
            let input = lower(alloc, catalog, query, input)?;
            with_read(alloc, catalog, query, input, *rel)
        }
        Logical::DataStop { input, .. } => lower(alloc, catalog, query, input),
        Logical::StopRead { input, rel, k } => {
            let input = lower(alloc, catalog, query, input)?;
            Ok(Physical::StopScan {
                input: Box::new(alloc, input)?,
                rel: *rel,
                k: *k,
                access: stop_access(alloc, catalog, query, *rel),
            })
        }
        Logical::Order { input } => {
            let input = lower(alloc, catalog, query, input)?;
            Ok(Physical::Sort {
                input: Box::new(alloc, input)?,
            })
        }
        Logical::Cut { input, k } => {
            let input = lower(alloc, catalog, query, input)?;
            Ok(Physical::Cut {
                input: Box::new(alloc, input)?,
                k: *k,
            })
        }
        Logical::Project { input } => {
            let input = lower(alloc, catalog, query, input)?;
            Ok(Physical::Project {
                input: Box::new(alloc, input)?,
            })
        }
    }
}
