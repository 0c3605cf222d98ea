//! What a write asks of the row that is there: that its conditions hold of it, and that it has its sums.
ghost use Rattle.std.specs.Prelude.{◌≡◌, ◌≤◌, ◌<◌, All, length, not, is_none, position, slice_index_or, unwrap_or, IfOk};
ghost use Rattle.pq_base.specs.Cells.{no_value, value_of};
ghost use Rattle.pq_base.specs.Sums.{sum_of};
ghost use Rattle.pq_index_keep.specs.Effects.{unmet, condition_refusal, no_sum, sum_refusal, held_refusal};
ghost use Rattle.pq_index_keep.specs.Tested.{holds_of, set_value};

use crate::write::{Cond, SetCol};
use pq_base::{NoMem, Refusal, Row, Value, added, compares, no_value};
use pq_def_read::Setting;
use pq_schema::Table;
use std::alloc::Global;

fn holds_of(row: &Row, cond: &Cond) -> bool
    ensures { result ≡ holds_of row.now cond.now }
{
    let held = row.items().get(cond.col as usize);
    compares(cond.op, held, Some(&cond.value))
}

/// The place of the first condition that doesn't hold of the row.
fn first_unmet(conds: &[Cond], row: &Row) -> Option<usize>
    ensures { result ≡ position (λ cond. not (holds_of row.now cond)) conds.now }
{
    conds.iter().position(|cond| !holds_of(row, cond))
}

fn unmet(alloc: Global, table: &Table, place: usize) -> Result<Refusal, NoMem>
    requires { place < 16 }
    ensures { IfOk result (λ refusal. refusal ≡ unmet table.now place) }
{
    Ok(Refusal::Condition {
        table: table.name.copy(alloc)?,
        number: place as u8 + 1,
    })
}

/// The refusal by the first condition that doesn't hold of the row that is there.
pub fn condition_refusal(
    alloc: Global,
    table: &Table,
    conds: &[Cond],
    row: &Row,
) -> Result<Option<Refusal>, NoMem>
    requires { length conds.now ≤ 16 }
    ensures { IfOk result (λ refusal. refusal ≡ condition_refusal table.now conds.now row.now) }
{
    match first_unmet(conds, row) {
        None => Ok(None),
        Some(place) => Ok(Some(unmet(alloc, table, place)?)),
    }
}

/// What the row has at the column, and the number; None where this is no number of 64 bits.
fn sum_at(row: &Row, col: u8, number: i64) -> Option<Value>
    ensures { result ≡ sum_of (value_of row.now col) number }
{
    match row.items().get(col as usize) {
        None => None,
        Some(held) => added(held, number),
    }
}

/// Whether the column gets nothing: by an ADD without a sum.
fn lacks_sum(row: &Row, set: &SetCol) -> bool
    ensures { result ≡ is_none (set_value row.now set.now) }
{
    match &set.to {
        Setting::Is(_) => false,
        Setting::Add(number) => sum_at(row, set.col, *number).is_none(),
    }
}

/// What the column gets, of the row that is there; FALSE where an ADD has no sum.
pub(crate) fn set_value(alloc: Global, row: &Row, set: &SetCol) -> Result<Value, NoMem>
    ensures { IfOk result (λ value. value ≡ unwrap_or (set_value row.now set.now) no_value) }
{
    match &set.to {
        Setting::Is(value) => value.copy(alloc),
        Setting::Add(number) => Ok(sum_at(row, set.col, *number).unwrap_or(no_value())),
    }
}

fn no_sum(alloc: Global, table: &Table, set: &SetCol) -> Result<Refusal, NoMem>
    requires { set.now.col < length table.now.columns }
    ensures { IfOk result (λ refusal. refusal ≡ no_sum table.now set.now) }
{
    let column = &table.columns.items()[set.col as usize];
    Ok(Refusal::Sum {
        table: table.name.copy(alloc)?,
        column: column.name.copy(alloc)?,
    })
}

/// The refusal by the first ADD without a sum, of the row that is there.
pub fn sum_refusal(
    alloc: Global,
    table: &Table,
    sets: &[SetCol],
    row: &Row,
) -> Result<Option<Refusal>, NoMem>
    requires { All (λ set. set.col < length table.now.columns) sets.now }
    ensures { IfOk result (λ refusal. refusal ≡ sum_refusal table.now sets.now row.now) }
{
    match sets.split_first() {
        None => Ok(None),
        Some((set, rest)) => {
            if !lacks_sum(row, set) {
                return sum_refusal(alloc, table, rest, row);
            }
            Ok(Some(no_sum(alloc, table, set)?))
        }
    }
}

/// The refusal by a condition, or else by an ADD.
pub fn held_refusal(
    alloc: Global,
    table: &Table,
    sets: &[SetCol],
    conds: &[Cond],
    row: &Row,
) -> Result<Option<Refusal>, NoMem>
    requires few { length conds.now ≤ 16 }
    requires inside { All (λ set. set.col < length table.now.columns) sets.now }
    ensures { IfOk result (λ refusal. refusal ≡ held_refusal table.now sets.now conds.now row.now) }
{
    if let Some(refusal) = condition_refusal(alloc, table, conds, row)? {
        return Ok(Some(refusal));
    }
    sum_refusal(alloc, table, sets, row)
}
