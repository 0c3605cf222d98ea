//! The position columns.

ghost use Rattle.std.specs.Prelude.{◌≡◌, ◌++◌, ◌≤◌, length, IfOk, OnOk, map, filter, not};
ghost use Rattle.pq_schema.specs.Sound.{IsQuery, AreRefs};
ghost use Rattle.pq_schema.specs.Relations.{is_ordered, key_item, key_items, position_columns};

use crate::relations::fixed;
use crate::tables::{is_lookup, table_of};
use pq_base::{Dir, List, NoMem};
use pq_schema::{Catalog, ColRef, OrderItem, Query};
use std::alloc::Global;

fn is_ordered(query: &Query, rel: u8, col: u8) -> bool
    ensures { result ≡ is_ordered query.now rel col }
{
    query
        .order
        .items()
        .iter()
        .any(|item| item.col.rel == rel && item.col.col == col)
}

fn push_columns(
    items: &mut List<OrderItem>,
    alloc: Global,
    key: &[u8],
    query: &Query,
    rel: u8,
) -> Result<(), NoMem>
    ensures { OnOk result (items.new ≡ items.old
        ++ map (key_item rel) (filter (λ col. not (is_ordered query.now rel col)) key.now)) }
{
    for col in key {
        if !is_ordered(query, rel, *col) {
            items.push(
                alloc,
                OrderItem {
                    col: ColRef { rel, col: *col },
                    dir: Dir::Asc,
                },
            )?;
        }
    }
    Ok(())
}

/// Adds the key columns of a relation that ORDER BY does not name.
fn push_key(
    items: &mut List<OrderItem>,
    alloc: Global,
    catalog: &Catalog,
    query: &Query,
    rel: u8,
) -> Result<(), NoMem>
    requires query { IsQuery catalog.now.tables query.now }
    requires one { 1 ≤ rel }
    requires there { rel ≤ length query.now.relations }
    ensures { OnOk result (items.new ≡ items.old ++ key_items catalog.now.tables query.now rel) }
{
    let table = table_of(catalog, query, rel);
    if is_lookup(table, fixed(query, rel)) {
        return Ok(());
    }
    push_columns(items, alloc, table.key.items(), query, rel)
}

/// The ORDER BY columns, and then the key columns that they leave out, relation by relation.
#[tactic(auto, using(crate::proofs::Ranges::flat_map_more))]
pub fn position_columns(
    alloc: Global,
    catalog: &Catalog,
    query: &Query,
) -> Result<List<OrderItem>, NoMem>
    requires { IsQuery catalog.now.tables query.now }
    ensures { IfOk result (λ items. items ≡ position_columns catalog.now.tables query.now) }
{
    let mut items = List::new(alloc);
    for item in query.order.items() {
        items.push(alloc, *item)?;
    }
    for rel in 1..query.relations.items().len() as u8 + 1 {
        push_key(&mut items, alloc, catalog, query, rel)?;
    }
    Ok(items)
}
