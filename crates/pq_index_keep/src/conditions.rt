//! The conditions of a write, by the names of their columns, and whether their constants are of the columns' kinds.
ghost use Rattle.std.specs.Prelude.{◌≡◌, ◌≤◌, position, length, map, IfOk};
ghost use Rattle.pq_base.specs.Answers.{Passes};
ghost use Rattle.pq_base.specs.Values.{IsValue};
ghost use Rattle.pq_def_read.specs.Known.{AreConditions};
ghost use Rattle.pq_index_keep.specs.Checking.{cond_names, is_constant, is_cond_misfit, cond_misfit, cond_of_def};

use crate::column_values::named_type;
use crate::write::Cond;
use pq_base::{ColType, List, NoMem, Op, PText, Refusal, Stopped, Value, fits, known_value};
use pq_def_read::CondDef;
use pq_schema::{Table, param_type, place_of};
use std::alloc::Global;

/// The columns that are named.
pub(crate) fn cond_names(alloc: Global, conds: &[CondDef]) -> Result<List<PText>, NoMem>
    ensures { IfOk result (λ names. names ≡ cond_names conds.now) }
{
    let mut names = List::new(alloc);
    for cond in conds {
        names.push(alloc, cond.col.copy(alloc)?)?;
    }
    Ok(names)
}

/// Whether the value is NULL behind IS NULL, and else of the type.
fn is_constant(op: Op, ty: ColType, value: &Value) -> bool
    ensures { result ≡ is_constant op ty value.now }
{
    match op {
        Op::IsNull => value.is_null(),
        Op::Eq | Op::Ne | Op::Lt | Op::Le | Op::Gt | Op::Ge => fits(value, ty),
    }
}

fn is_cond_misfit(table: &Table, cond: &CondDef) -> bool
    requires { length table.now.columns ≤ 32 }
    ensures { result ≡ is_cond_misfit table.now cond.now }
{
    let ty = param_type(named_type(table, &cond.col));
    !is_constant(cond.op, ty, &cond.value)
}

fn first_misfit(table: &Table, conds: &[CondDef]) -> Option<usize>
    requires { length table.now.columns ≤ 32 }
    ensures { result ≡ position (is_cond_misfit table.now) conds.now }
{
    conds.iter().position(|cond| is_cond_misfit(table, cond))
}

/// Refuses the first condition whose constant is of another kind than its column, or a text too long to be compared.
pub(crate) fn check_conditions(table: &Table, conds: &[CondDef]) -> Result<(), Stopped>
    requires columns { length table.now.columns ≤ 32 }
    requires few { length conds.now ≤ 16 }
    ensures { Passes result (cond_misfit table.now conds.now) }
{
    match first_misfit(table, conds) {
        Some(place) => Err(Stopped::Refused(Refusal::OperandKind {
            pred: place as u8 + 1,
        })),
        None => Ok(()),
    }
}

/// The conditions, with the numbers of their columns.
pub(crate) fn conds_of(alloc: Global, table: &Table, conds: &[CondDef]) -> Result<List<Cond>, NoMem>
    requires { length table.now.columns ≤ 32 }
    ensures { IfOk result (λ made. made ≡ map (cond_of_def table.now) conds.now) }
{
    let mut made = List::new(alloc);
    for cond in conds {
        let col = place_of(table.columns.items(), &cond.col) as u8;
        let op = cond.op;
        let value = cond.value.copy(alloc)?;
        made.push(alloc, Cond { col, op, value })?;
    }
    Ok(made)
}

fn known_cond(cond: &CondDef)
    ensures { IsValue cond.now.value }
{
    known_value(&cond.value);
}

/// Tells a proof that constants are in their kinds' ranges.
pub(crate) fn known_conds(conds: &[CondDef])
    ensures { AreConditions conds.now }
{
    for cond in conds {
        known_cond(cond);
    }
}
