//! What predicates say of an input by itself.
ghost use Rattle.std.specs.Prelude.{◌≡◌, [], ◌<◌, option_copied};
ghost use Rattle.std.specs.List.{list_all, AllByRecursion};
ghost use Rattle.pq_serving.specs.Scanning.{is_operand, is_tied, passes_one, passes};
ghost use Rattle.pq_scan.specs.Ends.{passes_own};
ghost use Rattle.pq_scan.specs.Prepared.{asked_over, IsPrepared};

use crate::prepared::Scan;
use pq_base::{Value, compares};
use pq_operands::{side, tied_value};
use pq_plan::Combo;
use pq_predicates::belongs_to;
use pq_schema::Pred;

/// Whether there is something to compare with, and it isn't NULL.
fn is_operand(operand: Option<&Value>) -> bool
    ensures { result ≡ is_operand (option_copied operand.entry) }
{
    match operand {
        Some(operand) => !operand.is_null(),
        None => false,
    }
}

/// Whether an equality ties the column of the predicate.
pub(crate) fn is_tied(scan: &Scan<'_>, pred: &Pred) -> bool
    requires sound { IsPrepared scan.now }
    requires column { pred.now.left.col < 32 }
    ensures { result ≡ is_tied (asked_over scan.now []) scan.now.rel pred.now }
{
    scan.fixed.has(pred.left.col)
}

/// What one predicate says of an input: of a tied column all, of another one that there is an operand.
fn passes_one(scan: &Scan<'_>, combo: &Combo, pred: &Pred) -> bool
    requires sound { IsPrepared scan.now }
    requires column { pred.now.left.col < 32 }
    ensures { result ≡ passes_one (asked_over scan.now []) scan.now.rel combo.now pred.now }
{
    let operand = side(scan.params, combo, &pred.right);
    if is_tied(scan, pred) {
        let tied = tied_value(scan.query, scan.params, scan.rel, combo, pred.left.col);
        compares(pred.op, tied, operand)
    } else {
        is_operand(operand)
    }
}

/// What one predicate says of an input, where it belongs to the relation.
fn passes_own(scan: &Scan<'_>, combo: &Combo, pred: &Pred) -> bool
    requires sound { IsPrepared scan.now }
    requires column { pred.now.left.col < 32 }
    ensures { result ≡ passes_own (asked_over scan.now []) scan.now.rel combo.now pred.now }
{
    belongs_to(pred) != scan.rel || passes_one(scan, combo, pred)
}

/// Whether the input passes each of some predicates.
fn passes_each(scan: &Scan<'_>, combo: &Combo, preds: &[Pred]) -> bool
    requires sound { IsPrepared scan.now }
    requires columns { AllByRecursion (λ pred. pred.left.col < 32) preds.now }
    ensures { result ≡ list_all (passes_own (asked_over scan.now []) scan.now.rel combo.now) preds.now }
{
    let Some((pred, rest)) = preds.split_first() else {
        return true;
    };
    passes_own(scan, combo, pred) && passes_each(scan, combo, rest)
}

/// Whether the input passes: what the relation's predicates say of it by itself holds.
pub(crate) fn passes(scan: &Scan<'_>, combo: &Combo) -> bool
    requires { IsPrepared scan.now }
    ensures { result ≡ passes (asked_over scan.now []) scan.now.rel combo.now }
{
    passes_each(scan, combo, scan.query.preds.items())
}
