//! Operands.
ghost use Rattle.std.specs.Prelude.{◌≡◌, option_copied};
ghost use Rattle.pq_base.specs.Comparing.{may_hold, meets, compares};
ghost use Rattle.pq_plan.specs.Answer.{side, cell};

use pq_base::{Row, Value};
use pq_plan::Combo;
use pq_schema::{ColRef, Operand};

/// The value at a column of a combination, where it is there.
pub fn cell<'a>(combo: &'a Combo, col: ColRef) -> Option<&'a Value>
    ensures { option_copied result ≡ cell combo.now col }
{
    match combo.rows().get((col.rel as usize).saturating_sub(1)) {
        Some(row) => row.items().get(col.col as usize),
        None => None,
    }
}

/// The value that an operand stands for: a constant, a parameter, or a column of an earlier relation.
pub fn side<'a>(params: &'a Row, combo: &'a Combo, operand: &'a Operand) -> Option<&'a Value>
    ensures { option_copied result ≡ side params.now combo.now operand.now }
{
    match operand {
        Operand::Const(value) => Some(value),
        Operand::Param(number) => params.items().get((*number as usize).saturating_sub(1)),
        Operand::Col(col) => cell(combo, *col),
    }
}
