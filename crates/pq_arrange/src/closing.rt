//! A query with its equalities closed.
ghost use Rattle.std.specs.Prelude.{◌≡◌, ◌++◌, ◌∷◌, IfOk, OnOk, filter, find, map, not, option_map};
ghost use Rattle.std.specs.List.{list_any, range_with_len};
ghost use Rattle.pq_schema.specs.Resolved.{same_ref};
ghost use Rattle.pq_schema.specs.Sound.{IsQuery};
ghost use Rattle.pq_arrange.specs.Classes.{beside, class_of, class_preds, classes, classes_after, closed_query, column_refs_at, equality_of, gives, has, is_given, is_in, is_join, is_joined, is_later, is_new, is_ref, class_joins, members, others, others_after};

use crate::labels::{Classes, same_column};
use crate::moves::copy_operand;
use crate::numbers::numbers;
use pq_base::{List, NoMem, Op};
use pq_predicates::table_of;
use pq_schema::{Catalog, ColRef, Operand, Pred, Query};
use std::alloc::Global;

pub(crate) fn is_ref(operand: &Operand) -> bool
    ensures { result ≡ is_ref operand.now }
{
    match operand {
        Operand::Col(_) => true,
        Operand::Const(_) | Operand::Param(_) => false,
    }
}

/// Whether the predicate is an equality of two columns.
fn is_join(pred: &Pred) -> bool
    ensures { result ≡ is_join pred.now }
{
    pred.op == Op::Eq && is_ref(&pred.right)
}

/// Whether the predicate is an equality with a constant or a parameter.
pub(crate) fn is_given(pred: &Pred) -> bool
    ensures { result ≡ is_given pred.now }
{
    pred.op == Op::Eq && !is_ref(&pred.right)
}

fn has(columns: &[ColRef], column: ColRef) -> bool
    ensures { result ≡ has columns.now column }
{
    columns.iter().any(|other| same_column(column, *other))
}

impl<'a> Classes<'a> {
    /// Whether a column equality is of the class, so that it has two members or more.
    fn is_joined(&self, class: ColRef) -> bool
        ensures { result ≡ is_joined self.now class }
    {
        self.preds()
            .iter()
            .any(|pred| is_join(pred) && self.is_in(class, pred.left))
    }

    /// Whether the left column is of a class of two members or more that was not yet seen.
    fn is_new(&self, seen: &[ColRef], pred: &Pred) -> bool
        ensures { result ≡ is_new self.now seen.now pred.now }
    {
        let class = self.class_of(pred.left);
        self.is_joined(class) && !has(seen, class)
    }

    /// Whether the predicate gives the class a constant or a parameter.
    fn gives(&self, class: ColRef, pred: &Pred) -> bool
        ensures { result ≡ gives self.now class pred.now }
    {
        is_given(pred) && self.is_in(class, pred.left)
    }
}

/// Puts the classes that the predicates are the first to name behind the others.
fn push_classes(
    alloc: Global,
    classes: &Classes<'_>,
    mut seen: Vec<ColRef>,
    preds: &[Pred],
    found: &mut List<ColRef>,
) -> Result<(), NoMem>
    ensures { OnOk result (found.new ≡ found.old ++ classes_after classes.now seen.items preds.now) }
{
    match preds.split_first() {
        None => Ok(()),
        Some((pred, preds)) => {
            if pred.op == Op::Eq && classes.is_new(seen.as_slice(), pred) {
                let class = classes.class_of(pred.left);
                found.push(alloc, class)?;
                seen.insert(0, class)?;
            }
            push_classes(alloc, classes, seen, preds, found)
        }
    }
}

/// Each class of two members or more, in the order of its first equality.
fn joined_classes(alloc: Global, of: &Classes<'_>) -> Result<List<ColRef>, NoMem>
    ensures { IfOk result (λ found. found ≡ classes of.now) }
{
    let mut found = List::new(alloc);
    push_classes(alloc, of, Vec::new(alloc), of.preds(), &mut found)?;
    Ok(found)
}

fn push_members(
    alloc: Global,
    classes: &Classes<'_>,
    class: ColRef,
    rel: u8,
    columns: u8,
    found: &mut List<ColRef>,
) -> Result<(), NoMem>
    ensures { OnOk result (found.new ≡ found.old
        ++ filter (is_in classes.now class) (map
        (λ col. record { rel = rel; col = col }) (range_with_len 0 columns))) }
{
    for col in numbers(alloc, 0, columns)?.items() {
        let column = ColRef { rel, col: *col };
        if classes.is_in(class, column) {
            found.push(alloc, column)?;
        }
    }
    Ok(())
}

/// The members of a class by relation and then by column.
#[tactic(auto, using(crate::proofs::Members::kept_next))]
fn members(
    alloc: Global,
    catalog: &Catalog,
    query: &Query,
    classes: &Classes<'_>,
    class: ColRef,
) -> Result<List<ColRef>, NoMem>
    requires query { IsQuery catalog.now.tables query.now }
    requires classes { classes.now ≡ query.now.preds }
    ensures { IfOk result (λ found. found ≡ members catalog.now.tables query.now class) }
{
    let mut found = List::new(alloc);
    let count = query.relations.items().len() as u8;
    for rel in numbers(alloc, 1, count)?.items() {
        let columns = table_of(catalog, query, *rel).columns.items().len() as u8;
        push_members(alloc, classes, class, *rel, columns, &mut found)?;
    }
    Ok(found)
}

fn equals(left: ColRef, right: Operand) -> Pred
    ensures { result ≡ equality_of right left }
{
    Pred {
        left,
        op: Op::Eq,
        right,
    }
}

fn is_later(first: ColRef, column: ColRef) -> bool
    ensures { result ≡ is_later first column }
{
    first.rel < column.rel
}

/// The first of the columns that is of a later relation.
fn first_later(first: ColRef, columns: &[ColRef]) -> Option<ColRef>
    ensures { result ≡ find (is_later first) columns.now }
{
    columns
        .iter()
        .copied()
        .find(|column| is_later(first, *column))
}

/// Puts for each member of a later relation that it equals the first.
fn push_later(
    alloc: Global,
    first: ColRef,
    rest: &[ColRef],
    found: &mut List<Pred>,
) -> Result<(), NoMem>
    ensures { OnOk result (found.new ≡ found.old
        ++ map (equality_of (Operand.Col first)) (filter (is_later first) rest.now)) }
{
    for column in rest {
        if is_later(first, *column) {
            found.push(alloc, equals(*column, Operand::Col(first)))?;
        }
    }
    Ok(())
}

/// Puts for each further member of the first's relation that a later one equals it.
fn push_beside(
    alloc: Global,
    first: ColRef,
    later: ColRef,
    rest: &[ColRef],
    found: &mut List<Pred>,
) -> Result<(), NoMem>
    ensures { OnOk result (found.new ≡ found.old ++ map
        (λ ref. equality_of (Operand.Col ref) later) (filter (λ ref. not (is_later first ref)) rest.now)) }
{
    for column in rest {
        if !is_later(first, *column) {
            found.push(alloc, equals(later, Operand::Col(*column)))?;
        }
    }
    Ok(())
}

/// Puts the equalities of a class by its first member and the others.
#[tactic(auto, using(crate::proofs::Joining::joins_alone, crate::proofs::Joining::joins_found))]
fn push_equalities(
    alloc: Global,
    first: ColRef,
    rest: &[ColRef],
    found: &mut List<Pred>,
) -> Result<(), NoMem>
    ensures { OnOk result (found.new ≡ found.old ++ class_joins (first ∷ rest.now)) }
{
    push_later(alloc, first, rest, found)?;
    if let Some(later) = first_later(first, rest) {
        push_beside(alloc, first, later, rest, found)?;
    }
    Ok(())
}

/// Puts the equalities of a class that has no constant and no parameter.
fn push_joins(alloc: Global, members: &[ColRef], found: &mut List<Pred>) -> Result<(), NoMem>
    ensures { OnOk result (found.new ≡ found.old ++ class_joins members.now) }
{
    match members.split_first() {
        None => Ok(()),
        Some((first, rest)) => push_equalities(alloc, *first, rest, found),
    }
}

/// Puts that each member equals the operand.
fn push_given(
    alloc: Global,
    members: &[ColRef],
    operand: &Operand,
    found: &mut List<Pred>,
) -> Result<(), NoMem>
    ensures { OnOk result (found.new ≡ found.old ++ map (equality_of operand.now) members.now) }
{
    for column in members {
        found.push(alloc, equals(*column, copy_operand(alloc, operand)?))?;
    }
    Ok(())
}

/// The first predicate that gives the class a constant or a parameter.
fn first_given<'q>(classes: &Classes<'_>, class: ColRef, preds: &'q [Pred]) -> Option<&'q Pred>
    ensures { option_map (λ pred. pred.now) result ≡ find (gives classes.now class) preds.now }
{
    for pred in preds {
        if classes.gives(class, pred) {
            return Some(pred);
        }
    }
    None
}

/// Puts the equalities of a class.
fn push_class(
    alloc: Global,
    catalog: &Catalog,
    query: &Query,
    classes: &Classes<'_>,
    class: ColRef,
    found: &mut List<Pred>,
) -> Result<(), NoMem>
    requires query { IsQuery catalog.now.tables query.now }
    requires classes { classes.now ≡ query.now.preds }
    ensures { OnOk result (found.new ≡ found.old ++ class_preds catalog.now.tables query.now class) }
{
    let members = members(alloc, catalog, query, classes, class)?;
    match first_given(classes, class, query.preds.items()) {
        None => push_joins(alloc, members.items(), found)?,
        Some(pred) => push_given(alloc, members.items(), &pred.right, found)?,
    }
    Ok(())
}

fn copy_pred(alloc: Global, pred: &Pred) -> Result<Pred, NoMem>
    ensures { IfOk result (λ copy. copy ≡ pred.now) }
{
    Ok(Pred {
        left: pred.left,
        op: pred.op,
        right: copy_operand(alloc, &pred.right)?,
    })
}

/// Puts the predicates but for column equalities and the first operand of each class.
fn push_others(
    alloc: Global,
    classes: &Classes<'_>,
    mut seen: Vec<ColRef>,
    preds: &[Pred],
    found: &mut List<Pred>,
) -> Result<(), NoMem>
    ensures { OnOk result (found.new ≡ found.old ++ others_after classes.now seen.items preds.now) }
{
    match preds.split_first() {
        None => Ok(()),
        Some((pred, preds)) => {
            if is_join(pred) {
                return push_others(alloc, classes, seen, preds, found);
            }
            if is_given(pred) && classes.is_new(seen.as_slice(), pred) {
                seen.insert(0, classes.class_of(pred.left))?;
            } else {
                found.push(alloc, copy_pred(alloc, pred)?)?;
            }
            push_others(alloc, classes, seen, preds, found)
        }
    }
}

/// The predicates of the query with its classes closed.
fn closed_preds(alloc: Global, catalog: &Catalog, query: &Query) -> Result<List<Pred>, NoMem>
    requires { IsQuery catalog.now.tables query.now }
    ensures { IfOk result (λ preds. preds ≡ (closed_query catalog.now.tables query.now).preds) }
{
    let classes = Classes::of(alloc, query.preds.items())?;
    let mut found = List::new(alloc);
    for class in joined_classes(alloc, &classes)?.items() {
        push_class(alloc, catalog, query, &classes, *class, &mut found)?;
    }
    push_others(
        alloc,
        &classes,
        Vec::new(alloc),
        query.preds.items(),
        &mut found,
    )?;
    Ok(found)
}

/// The query with its classes closed.
pub(crate) fn closed(alloc: Global, catalog: &Catalog, query: Query) -> Result<Query, NoMem>
    requires { IsQuery catalog.now.tables query }
    ensures { IfOk result (λ found. found ≡ closed_query catalog.now.tables query) }
{
    let mut query = query;
    query.preds = closed_preds(alloc, catalog, &query)?;
    Ok(query)
}
