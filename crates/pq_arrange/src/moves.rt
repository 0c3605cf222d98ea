//! A query with its relations in another order.
ghost use Rattle.std.specs.Prelude.{◌≡◌, ◌+◌, ◌≤◌, All, IfOk, length, map};
ghost use Rattle.pq_schema.specs.Relations.{relation_at};
ghost use Rattle.pq_arrange.specs.Moves.{order_place, places, move, move_operand, later_left, move_pred, move_item, reordered_query};

use crate::numbers::numbers;
use pq_base::{ColType, List, NoMem, Op};
use pq_schema::{ColRef, Operand, OrderItem, Pred, Query, Relation};
use std::alloc::Global;

/// The new number of the relation with this old one.
fn place_of(order: &[u8], rel: u8) -> u8
    requires { length order.now ≤ 6 }
    ensures value { result ≡ order_place order.now rel }
    ensures few { result ≤ 1 + length order.now }
{
    match order.split_first() {
        None => 1,
        Some((other, others)) => {
            if *other == rel {
                1
            } else {
                1 + place_of(others, rel)
            }
        }
    }
}

/// The new number of each relation.
pub(crate) fn places(alloc: Global, order: &[u8]) -> Result<List<u8>, NoMem>
    requires { length order.now ≤ 6 }
    ensures { IfOk result (λ found. found ≡ places order.now) }
{
    let mut found = List::new(alloc);
    for rel in numbers(alloc, 1, order.len() as u8)?.items() {
        found.push(alloc, place_of(order, *rel))?;
    }
    Ok(found)
}

fn move_column(order: &[u8], column: ColRef) -> ColRef
    requires { length order.now ≤ 6 }
    ensures { result ≡ move order.now column }
{
    ColRef {
        rel: place_of(order, column.rel),
        col: column.col,
    }
}

/// Another operand equal to this one.
pub(crate) fn copy_operand(alloc: Global, operand: &Operand) -> Result<Operand, NoMem>
    ensures { IfOk result (λ copy. copy ≡ operand.now) }
{
    match operand {
        Operand::Const(value) => Ok(Operand::Const(value.copy(alloc)?)),
        Operand::Param(number) => Ok(Operand::Param(*number)),
        Operand::Col(column) => Ok(Operand::Col(*column)),
    }
}

fn move_operand(alloc: Global, order: &[u8], operand: &Operand) -> Result<Operand, NoMem>
    requires { length order.now ≤ 6 }
    ensures { IfOk result (λ moved. moved ≡ move_operand order.now operand.now) }
{
    match operand {
        Operand::Const(value) => Ok(Operand::Const(value.copy(alloc)?)),
        Operand::Param(number) => Ok(Operand::Param(*number)),
        Operand::Col(column) => Ok(Operand::Col(move_column(order, *column))),
    }
}

/// An equality of columns with the later relation on the left.
fn later_left(pred: Pred) -> Pred
    ensures { result ≡ later_left pred }
{
    let Pred { left, op, right } = pred;
    match right {
        Operand::Col(other) => {
            if op == Op::Eq && left.rel < other.rel {
                Pred {
                    left: other,
                    op,
                    right: Operand::Col(left),
                }
            } else {
                Pred {
                    left,
                    op,
                    right: Operand::Col(other),
                }
            }
        }
        right => Pred { left, op, right },
    }
}

fn move_pred(alloc: Global, order: &[u8], pred: &Pred) -> Result<Pred, NoMem>
    requires { length order.now ≤ 6 }
    ensures { IfOk result (λ moved. moved ≡ move_pred order.now pred.now) }
{
    let right = move_operand(alloc, order, &pred.right)?;
    Ok(later_left(Pred {
        left: move_column(order, pred.left),
        op: pred.op,
        right,
    }))
}

fn copy_relation(alloc: Global, relation: &Relation) -> Result<Relation, NoMem>
    ensures { IfOk result (λ copy. copy ≡ relation.now) }
{
    Ok(Relation {
        table: relation.table,
        alias: relation.alias.copy(alloc)?,
    })
}

fn move_relations(alloc: Global, order: &[u8], query: &Query) -> Result<List<Relation>, NoMem>
    requires { All (λ rel. (1 ≤ rel) × (rel ≤ length query.now.relations)) order.now }
    ensures { IfOk result (λ moved. moved ≡ map (relation_at query.now) order.now) }
{
    let mut moved = List::new(alloc);
    for rel in order {
        let relation = &query.relations.items()[*rel as usize - 1];
        moved.push(alloc, copy_relation(alloc, relation)?)?;
    }
    Ok(moved)
}

fn move_columns(alloc: Global, order: &[u8], columns: &[ColRef]) -> Result<List<ColRef>, NoMem>
    requires { length order.now ≤ 6 }
    ensures { IfOk result (λ moved. moved ≡ map (move order.now) columns.now) }
{
    let mut moved = List::new(alloc);
    for column in columns {
        moved.push(alloc, move_column(order, *column))?;
    }
    Ok(moved)
}

fn move_preds(alloc: Global, order: &[u8], preds: &[Pred]) -> Result<List<Pred>, NoMem>
    requires { length order.now ≤ 6 }
    ensures { IfOk result (λ moved. moved ≡ map (move_pred order.now) preds.now) }
{
    let mut moved = List::new(alloc);
    for pred in preds {
        moved.push(alloc, move_pred(alloc, order, pred)?)?;
    }
    Ok(moved)
}

fn move_items(alloc: Global, order: &[u8], items: &[OrderItem]) -> Result<List<OrderItem>, NoMem>
    requires { length order.now ≤ 6 }
    ensures { IfOk result (λ moved. moved ≡ map (move_item order.now) items.now) }
{
    let mut moved = List::new(alloc);
    for item in items {
        moved.push(
            alloc,
            OrderItem {
                col: move_column(order, item.col),
                dir: item.dir,
            },
        )?;
    }
    Ok(moved)
}

fn copy_types(alloc: Global, types: &[ColType]) -> Result<List<ColType>, NoMem>
    ensures { IfOk result (λ copy. copy ≡ types.now) }
{
    let mut copy = List::new(alloc);
    for ty in types {
        copy.push(alloc, *ty)?;
    }
    Ok(copy)
}

/// The query with its relations in this order of their old numbers.
pub(crate) fn reordered(alloc: Global, order: &[u8], query: &Query) -> Result<Query, NoMem>
    requires few { length order.now ≤ 6 }
    requires there { All (λ rel. (1 ≤ rel) × (rel ≤ length query.now.relations)) order.now }
    ensures { IfOk result (λ moved. moved ≡ reordered_query order.now query.now) }
{
    Ok(Query {
        name: query.name.copy(alloc)?,
        relations: move_relations(alloc, order, query)?,
        select: move_columns(alloc, order, query.select.items())?,
        preds: move_preds(alloc, order, query.preds.items())?,
        order: move_items(alloc, order, query.order.items())?,
        stop: query.stop,
        params: copy_types(alloc, query.params.items())?,
    })
}
