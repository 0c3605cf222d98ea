//! Comparisons of values by an operator.
ghost use Rattle.std.specs.Prelude.{◌≡◌, option_copied};
ghost use Rattle.pq_base.specs.Comparing.{may_hold, meets, compares};

use crate::value::{Value, cmp_values};
use std::cmp::Ordering;

/// How a column is compared.
#[derive(Clone, Copy, PartialEq, Eq)]
pub enum Op {
    Eq,
    Ne,
    Lt,
    Le,
    Gt,
    Ge,
    /// The operand is the constant NULL.
    IsNull,
}

/// Whether the order of two values meets the operator.
pub fn meets(op: Op, order: Ordering) -> bool
    ensures { result ≡ meets op order }
{
    match op {
        Op::Eq => order.is_eq(),
        Op::Ne => order.is_ne(),
        Op::Lt => order.is_lt(),
        Op::Le => order.is_le(),
        Op::Gt => order.is_gt(),
        Op::Ge => order.is_ge(),
        Op::IsNull => order.is_eq(),
    }
}

/// Whether neither value is NULL, or it is asked whether one is.
fn may_hold(op: Op, left: &Value, right: &Value) -> bool
    ensures { result ≡ may_hold op left.now right.now }
{
    matches!(op, Op::IsNull) || !(left.is_null() || right.is_null())
}

/// Whether both values are there, neither is NULL but behind IS NULL, and their order meets the operator.
pub fn compares(op: Op, left: Option<&Value>, right: Option<&Value>) -> bool
    ensures { result ≡ compares op (option_copied left.entry) (option_copied right.entry) }
{
    match (left, right) {
        (Some(left), Some(right)) => {
            may_hold(op, left, right) && meets(op, cmp_values(left, right))
        }
        _ => false,
    }
}
