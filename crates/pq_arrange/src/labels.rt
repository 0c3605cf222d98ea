//! The classes of a query's columns under its column equalities.
ghost use Rattle.std.specs.Prelude.{◌≡◌, ◌++◌, ◌∷◌, [], IfOk, map, if◌then◌else◌};
ghost use Rattle.pq_schema.specs.Resolved.{same_ref};
ghost use Rattle.pq_arrange.specs.Classes.{class_of, is_in};
ghost use Rattle.pq_arrange.specs.Labels.{class_in, AreLabelsOf, relabelled_column, joined_labels};

use pq_base::{List, NoMem, Op};
use pq_schema::{ColRef, Operand, Pred};
use std::alloc::Global;
use std::marker::Model;

/// A column, and the column that stands for its class.
#[derive(Clone, Copy)]
pub struct Label {
    pub column: ColRef,
    pub class: ColRef,
}

/// The classes of columns under the predicates of a query.
#[derive(Drop)]
pub struct Classes<'a> {
    preds: &'a [Pred],
    labels: List<Label>,
}

impl<'a> Model for Classes<'a> {
    ghost use Rattle.std.specs.Prelude.{List};
    ghost use Rattle.pq_schema.specs.declared.query.Pred.{Pred};
    ghost use Rattle.pq_arrange.specs.Labels.{AreLabelsOf};

    ghost Value = { List Pred };

    ghost view = { λ c. c.preds.now };

    ghost invariant = { λ c. AreLabelsOf c.preds.now c.labels };
}

pub(crate) fn same_column(a: ColRef, b: ColRef) -> bool
    ensures { result ≡ same_ref a b }
{
    a.rel == b.rel && a.col == b.col
}

fn class_in(labels: &[Label], column: ColRef) -> ColRef
    ensures { result ≡ class_in labels.now column }
{
    match labels.split_first() {
        None => column,
        Some((label, labels)) => {
            if same_column(column, label.column) {
                label.class
            } else {
                class_in(labels, column)
            }
        }
    }
}

/// The labels with one class for the classes of both columns.
fn joined(
    alloc: Global,
    labels: &[Label],
    left: ColRef,
    other: ColRef,
) -> Result<List<Label>, NoMem>
    ensures { IfOk result (λ found. found ≡ joined_labels left other labels.now) }
{
    let class = class_in(labels, left);
    let gone = class_in(labels, other);
    let mut found = List::new(alloc);
    for label in labels {
        let is_gone = same_column(label.class, gone);
        found.push(
            alloc,
            Label {
                column: label.column,
                class: if is_gone { class } else { label.class },
            },
        )?;
    }
    found.push(
        alloc,
        Label {
            column: gone,
            class,
        },
    )?;
    Ok(found)
}

#[tactic(auto, using(crate::proofs::Labelling::labels_joined, crate::proofs::Labelling::labels_kept))]
fn labels_of(alloc: Global, preds: &[Pred]) -> Result<List<Label>, NoMem>
    ensures { IfOk result (λ labels. AreLabelsOf preds.now labels) }
{
    match preds.split_first() {
        None => Ok(List::new(alloc)),
        Some((pred, rest)) => {
            let labels = labels_of(alloc, rest)?;
            match &pred.right {
                Operand::Col(other) if pred.op == Op::Eq => {
                    joined(alloc, labels.items(), pred.left, *other)
                }
                Operand::Const(_) | Operand::Param(_) | Operand::Col(_) => Ok(labels),
            }
        }
    }
}

impl<'a> Classes<'a> {
    /// The classes under these predicates.
    pub fn of(alloc: Global, preds: &'a [Pred]) -> Result<Classes<'a>, NoMem>
        ensures { IfOk result (λ classes. classes ≡ preds.now) }
    {
        let labels = labels_of(alloc, preds)?;
        Ok(Classes { preds, labels })
    }

    /// The predicates.
    pub fn preds(&self) -> &'a [Pred]
        ensures { result.now ≡ self.now }
    {
        self.preds
    }

    /// The column that stands for the class of a column.
    pub fn class_of(&self, column: ColRef) -> ColRef
        ensures { result ≡ class_of self.now column }
    {
        class_in(self.labels.items(), column)
    }

    /// Whether a column is of a class.
    pub fn is_in(&self, class: ColRef, column: ColRef) -> bool
        ensures { result ≡ is_in self.now class column }
    {
        same_column(self.class_of(column), class)
    }
}
