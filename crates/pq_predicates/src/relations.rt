//! What belongs to a relation.

ghost use Rattle.std.specs.Prelude.{◌≡◌, ◌<◌, filter, map};
ghost use Rattle.pq_schema.specs.Sound.{AreRefs};
ghost use Rattle.pq_schema.specs.Relations.{belongs_to, ties, tied_set, is_rest, order_rest, part_of, first_column, is_column_at, keeps_range, is_range, range_on};

use pq_base::{ColSet, Op};
use pq_schema::{KeyPart, Operand, OrderItem, Pred, Query};
use smallvec::SmallVec;
use std::alloc::Global;

/// The latest relation that the predicate mentions.
pub fn belongs_to(pred: &Pred) -> u8
    ensures { result ≡ belongs_to pred.now }
{
    match &pred.right {
        Operand::Col(other) => pred.left.rel.max(other.rel),
        Operand::Const(_) | Operand::Param(_) => pred.left.rel,
    }
}

/// Whether it is an equality that ties a column of the relation.
pub fn ties(pred: &Pred, rel: u8) -> bool
    ensures { result ≡ ties rel pred.now }
{
    let before = match &pred.right {
        Operand::Col(other) => other.rel < rel,
        Operand::Const(_) | Operand::Param(_) => true,
    };
    pred.op == Op::Eq && pred.left.rel == rel && before
}

/// The columns that equalities tie.
pub fn fixed(query: &Query, rel: u8) -> ColSet
    requires { AreRefs query.now }
    ensures { result ≡ tied_set query.now rel }
{
    let mut set = ColSet::empty();
    for pred in query.preds.items() {
        if ties(pred, rel) {
            set = set.with(pred.left.col);
        }
    }
    set
}

/// Whether the item is of the relation, and not on a fixed column.
fn is_rest(item: &OrderItem, rel: u8, set: ColSet) -> bool
    requires { item.now.col.col < 32 }
    ensures { result ≡ is_rest rel set item.now }
{
    item.col.rel == rel && !set.has(item.col.col)
}

/// The ORDER BY columns of the relation that are not fixed.
pub fn order_rest(alloc: Global, query: &Query, rel: u8) -> SmallVec<KeyPart, 4>
    requires { AreRefs query.now }
    ensures parts { result.items ≡ order_rest query.now rel }
{
    let set = fixed(query, rel);
    let mut parts = SmallVec::new(alloc);
    for item in query.order.items() {
        if is_rest(item, rel, set) {
            parts.push_reserved(KeyPart {
                col: item.col.col,
                dir: item.dir,
            });
        }
    }
    parts
}

/// The first of those columns.
fn first_rest(query: &Query, rel: u8, set: ColSet) -> Option<u8>
    requires { AreRefs query.now }
    ensures { result ≡ first_column (map part_of (filter (is_rest rel set) query.now.order)) }
{
    for item in query.order.items() {
        if is_rest(item, rel, set) {
            return Some(item.col.col);
        }
    }
    None
}

fn is_range(op: Op) -> bool
    ensures { result ≡ is_range op }
{
    match op {
        Op::Eq | Op::Ne | Op::IsNull => false,
        Op::Lt | Op::Le | Op::Gt | Op::Ge => true,
    }
}

fn is_column_at(col: u8, first: Option<u8>) -> bool
    ensures { result ≡ is_column_at col first }
{
    match first {
        None => false,
        Some(first) => first == col,
    }
}

fn keeps_range(pred: &Pred, rel: u8, set: ColSet, first: Option<u8>) -> bool
    requires { pred.now.left.col < 32 }
    ensures { result ≡ keeps_range rel set first pred.now }
{
    belongs_to(pred) != rel
        || set.has(pred.left.col)
        || is_range(pred.op) && is_column_at(pred.left.col, first)
}

/// Whether each predicate on a column that is not fixed is a range on the first order column.
pub fn range_on(query: &Query, rel: u8) -> bool
    requires { AreRefs query.now }
    ensures { result ≡ range_on query.now rel }
{
    let set = fixed(query, rel);
    let first = first_rest(query, rel, set);
    query
        .preds
        .items()
        .iter()
        .all(|pred| keeps_range(pred, rel, set, first))
}
