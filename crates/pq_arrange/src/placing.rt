//! The order in which the relations of a query are placed.
ghost use Rattle.std.specs.Prelude.{◌≡◌, ◌==◌, ◌-◌, ◌++◌, ◌≤◌, false, All, IfOk, OnOk, filter, find, flat_map, fold, length};
ghost use Rattle.std.specs.List.{list_any, range_with_len};
ghost use Rattle.std.specs.Option.{option_map_or};
ghost use Rattle.pq_base.specs.Columns.{with_col};
ghost use Rattle.pq_schema.specs.Resolved.{same_ref};
ghost use Rattle.pq_schema.specs.Sound.{IsQuery};
ghost use Rattle.pq_schema.specs.Tables.{least_of};
ghost use Rattle.pq_arrange.specs.Placing.{arranged_order, bound_next, first_of_rest, first_ordered, is_placed, is_placed_in, is_tied_ref, is_tied_at, least_bound, bound_list, next, placed_after, tied_columns, ties_class, ties_column, ties_with, without};

use crate::closing::is_given;
use crate::labels::{Classes, same_column};
use crate::numbers::numbers;
use pq_base::{ColSet, List, NoMem, Op};
use pq_predicates::{data_bound, table_of};
use pq_schema::{Catalog, ColRef, Operand, Pred, Query};
use std::alloc::Global;

fn is_placed(placed: &[u8], rel: u8) -> bool
    ensures { result ≡ is_placed placed.now rel }
{
    placed.iter().any(|other| *other == rel)
}

/// Whether an equality of these two sides ties the column.
fn ties_with(placed: &[u8], column: ColRef, left: ColRef, right: &Operand) -> bool
    ensures { result ≡ ties_with placed.now column left right.now }
{
    match right {
        Operand::Const(_) | Operand::Param(_) => same_column(left, column),
        Operand::Col(other) => {
            same_column(left, column) && is_placed(placed, other.rel)
                || same_column(*other, column) && is_placed(placed, left.rel)
        }
    }
}

fn ties_column(placed: &[u8], column: ColRef, pred: &Pred) -> bool
    ensures { result ≡ ties_column placed.now column pred.now }
{
    pred.op == Op::Eq && ties_with(placed, column, pred.left, &pred.right)
}

/// Whether the operand is a column of the class and of a placed relation.
fn is_placed_in(classes: &Classes<'_>, class: ColRef, placed: &[u8], operand: &Operand) -> bool
    ensures { result ≡ is_placed_in classes.now class placed.now operand.now }
{
    match operand {
        Operand::Const(_) | Operand::Param(_) => false,
        Operand::Col(other) => classes.is_in(class, *other) && is_placed(placed, other.rel),
    }
}

fn ties_class(classes: &Classes<'_>, placed: &[u8], class: ColRef, pred: &Pred) -> bool
    ensures { result ≡ ties_class classes.now placed.now class pred.now }
{
    let left = classes.is_in(class, pred.left)
        && (is_given(pred) || is_placed(placed, pred.left.rel));
    pred.op == Op::Eq && (left || is_placed_in(classes, class, placed, &pred.right))
}

fn tied_by_class(classes: &Classes<'_>, placed: &[u8], class: ColRef) -> bool
    ensures { result ≡ list_any (ties_class classes.now placed.now class) classes.now }
{
    classes
        .preds()
        .iter()
        .any(|pred| ties_class(classes, placed, class, pred))
}

fn tied_by_column(preds: &[Pred], placed: &[u8], column: ColRef) -> bool
    ensures { result ≡ list_any (ties_column placed.now column) preds.now }
{
    preds.iter().any(|pred| ties_column(placed, column, pred))
}

/// A query whose relations are placed one after the other.
#[derive(Clone, Copy)]
pub(crate) struct Placing<'a> {
    pub catalog: &'a Catalog,
    pub query: &'a Query,
    /// The classes of its columns.
    pub classes: &'a Classes<'a>,
    /// Whether a column counts as tied where its class does.
    pub closed: bool,
}

impl<'a> Placing<'a> {
    fn is_tied(self, placed: &[u8], column: ColRef) -> bool
        requires { self.classes.now ≡ self.query.now.preds }
        ensures { result ≡ is_tied_ref self.entry.closed self.entry.query.now.preds placed.now column }
    {
        if self.closed {
            tied_by_class(self.classes, placed, self.classes.class_of(column))
        } else {
            tied_by_column(self.query.preds.items(), placed, column)
        }
    }

    /// The set with those columns of a relation, from one on, that would be tied if it came next.
    #[tactic(auto, using(crate::proofs::Ranges::fold_after, crate::proofs::Ranges::fold_none))]
    fn with_tied(self, placed: &[u8], rel: u8, col: u8, columns: u8, set: ColSet) -> ColSet
        requires classes { self.classes.now ≡ self.query.now.preds }
        requires few { columns ≤ 32 }
        ensures { result ≡ fold with_col set
            (filter (is_tied_at self.entry.closed self.entry.query.now.preds placed.now rel)
            (range_with_len col (columns - col))) }
    {
        if columns <= col {
            return set;
        }
        let set = if self.is_tied(placed, ColRef { rel, col }) {
            set.with(col)
        } else {
            set
        };
        self.with_tied(placed, rel, col + 1, columns, set)
    }

    /// The columns of a relation that would be tied if it came next.
    fn tied_columns(self, placed: &[u8], rel: u8) -> ColSet
        requires query { IsQuery self.catalog.now.tables self.query.now }
        requires classes { self.classes.now ≡ self.query.now.preds }
        requires one { 1 ≤ rel }
        requires there { rel ≤ length self.query.now.relations }
        ensures { result ≡ tied_columns self.entry.catalog.now.tables self.entry.query.now self.entry.closed
            placed.now rel }
    {
        let columns = table_of(self.catalog, self.query, rel)
            .columns
            .items()
            .len() as u8;
        self.with_tied(placed, rel, 0, columns, ColSet::empty())
    }

    fn bound_next(self, placed: &[u8], rel: u8) -> Option<u32>
        requires query { IsQuery self.catalog.now.tables self.query.now }
        requires classes { self.classes.now ≡ self.query.now.preds }
        requires one { 1 ≤ rel }
        requires there { rel ≤ length self.query.now.relations }
        ensures { result ≡ bound_next self.entry.catalog.now.tables self.entry.query.now self.entry.closed
            placed.now rel }
    {
        let table = table_of(self.catalog, self.query, rel);
        data_bound(table, self.tied_columns(placed, rel))
    }

    /// The least data bound of the relations that are not placed.
    fn least_next(self, placed: &[u8], rest: &[u8]) -> Option<u32>
        requires query { IsQuery self.catalog.now.tables self.query.now }
        requires classes { self.classes.now ≡ self.query.now.preds }
        requires there { All (λ rel. (1 ≤ rel) × (rel ≤ length self.query.now.relations)) rest.now }
        ensures { result ≡ least_of (flat_map
            (λ rel. bound_list (bound_next self.entry.catalog.now.tables self.entry.query.now self.entry.closed
            placed.now rel)) rest.now) }
    {
        match rest.split_first() {
            None => None,
            Some((rel, rest)) => {
                let least = self.least_next(placed, rest);
                match self.bound_next(placed, *rel) {
                    None => least,
                    Some(bound) => match least {
                        None => Some(bound),
                        Some(other) => Some(bound.min(other)),
                    },
                }
            }
        }
    }

    fn first_bound(self, placed: &[u8], rest: &[u8], least: u32) -> Option<u8>
        requires query { IsQuery self.catalog.now.tables self.query.now }
        requires classes { self.classes.now ≡ self.query.now.preds }
        requires there { All (λ rel. (1 ≤ rel) × (rel ≤ length self.query.now.relations)) rest.now }
        ensures { result ≡ find (λ rel. option_map_or (λ m. m == least)
            (bound_next self.entry.catalog.now.tables self.entry.query.now self.entry.closed placed.now rel) false)
            rest.now }
    {
        match rest.split_first() {
            None => None,
            Some((rel, rest)) => match self.bound_next(placed, *rel) {
                Some(bound) if bound == least => Some(*rel),
                _ => self.first_bound(placed, rest, least),
            },
        }
    }

    /// The first of the relations with the least data bound.
    fn least_bound(self, placed: &[u8], rest: &[u8]) -> Option<u8>
        requires query { IsQuery self.catalog.now.tables self.query.now }
        requires classes { self.classes.now ≡ self.query.now.preds }
        requires there { All (λ rel. (1 ≤ rel) × (rel ≤ length self.query.now.relations)) rest.now }
        ensures { result ≡ least_bound self.entry.catalog.now.tables self.entry.query.now self.entry.closed
            placed.now rest.now }
    {
        match self.least_next(placed, rest) {
            None => None,
            Some(least) => self.first_bound(placed, rest, least),
        }
    }

    fn is_ordered(self, rel: u8) -> bool
        ensures { result ≡ list_any (λ item. item.col.rel == rel) self.entry.query.now.order }
    {
        self.query
            .order
            .items()
            .iter()
            .any(|item| item.col.rel == rel)
    }

    /// The first of the relations with a column in ORDER BY.
    fn first_ordered(self, rest: &[u8]) -> Option<u8>
        ensures { result ≡ first_ordered self.entry.catalog.now.tables self.entry.query.now self.entry.closed rest.now }
    {
        rest.iter().copied().find(|rel| self.is_ordered(*rel))
    }

    /// The relation that is placed next.
    fn next(self, placed: &[u8], rest: &[u8]) -> u8
        requires query { IsQuery self.catalog.now.tables self.query.now }
        requires classes { self.classes.now ≡ self.query.now.preds }
        requires there { All (λ rel. (1 ≤ rel) × (rel ≤ length self.query.now.relations)) rest.now }
        ensures { result ≡ next self.entry.catalog.now.tables self.entry.query.now self.entry.closed placed.now
            rest.now }
    {
        if let Some(rel) = self.least_bound(placed, rest) {
            return rel;
        }
        if let Some(rel) = self.first_ordered(rest) {
            return rel;
        }
        first_of_rest(rest)
    }

    /// Places as many more of the relations, one after the other.
    #[tactic(auto, using(crate::proofs::Ranges::placed_more, crate::proofs::Ranges::without_numbers))]
    fn placed_after(
        self,
        alloc: Global,
        count: u8,
        mut placed: List<u8>,
        rest: List<u8>,
    ) -> Result<List<u8>, NoMem>
        requires query { IsQuery self.catalog.now.tables self.query.now }
        requires classes { self.classes.now ≡ self.query.now.preds }
        requires there { All (λ rel. (1 ≤ rel) × (rel ≤ length self.query.now.relations)) rest }
        ensures { IfOk result (λ order. order
            ≡ placed_after self.entry.catalog.now.tables self.entry.query.now self.entry.closed count placed
            rest) }
    {
        if count == 0 {
            return Ok(placed);
        }
        let rel = self.next(placed.items(), rest.items());
        let left = without(alloc, rel, rest.items())?;
        placed.push(alloc, rel)?;
        self.placed_after(alloc, count - 1, placed, left)
    }

    /// The old numbers of the relations, in their new order.
    pub(crate) fn order(self, alloc: Global) -> Result<List<u8>, NoMem>
        requires query { IsQuery self.catalog.now.tables self.query.now }
        requires classes { self.classes.now ≡ self.query.now.preds }
        ensures { IfOk result (λ order. order
            ≡ arranged_order self.entry.catalog.now.tables self.entry.query.now self.entry.closed) }
    {
        let count = self.query.relations.items().len() as u8;
        let rest = numbers(alloc, 1, count)?;
        self.placed_after(alloc, count, List::new(alloc), rest)
    }
}

fn first_of_rest(rest: &[u8]) -> u8
    ensures { result ≡ first_of_rest rest.now }
{
    match rest.first() {
        None => 0,
        Some(rel) => *rel,
    }
}

/// Puts the relations but for the first with this number.
fn push_without(alloc: Global, rel: u8, rest: &[u8], found: &mut List<u8>) -> Result<(), NoMem>
    ensures { OnOk result (found.new ≡ found.old ++ without rel rest.now) }
{
    match rest.split_first() {
        None => Ok(()),
        Some((other, others)) => {
            if *other == rel {
                return found.extend(alloc, others);
            }
            found.push(alloc, *other)?;
            push_without(alloc, rel, others, found)
        }
    }
}

/// The relations but for the first with this number.
fn without(alloc: Global, rel: u8, rest: &[u8]) -> Result<List<u8>, NoMem>
    ensures { IfOk result (λ left. left ≡ without rel rest.now) }
{
    let mut left = List::new(alloc);
    push_without(alloc, rel, rest, &mut left)?;
    Ok(left)
}
