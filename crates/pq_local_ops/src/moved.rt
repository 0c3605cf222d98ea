//! What is selected of combinations that are dropped next: values of one row are moved out in that row.
ghost use Rattle.std.specs.Prelude.{◌≡◌, ◌++◌, length, map, take, IfOk, IsTrue};
ghost use Rattle.pq_plan.specs.Answer.{row_of, selected_values, values_at};
ghost use Rattle.pq_local_ops.specs.Rising.{are_of, are_rising, value_in};

use crate::position::values_at;
use pq_base::{List, NoMem, Row, Value};
use pq_plan::Combo;
use pq_schema::{ColRef, Query};
use std::alloc::Global;
use std::mem::replace;

/// Whether all are columns of the relation.
fn are_of(rel: u8, cols: &[ColRef]) -> bool
    ensures { result ≡ are_of rel cols.now }
{
    cols.iter().all(|col| col.rel == rel)
}

/// Whether each column stands behind the one before it, the first not before this place, and none beyond the end.
fn are_rising(from: usize, end: usize, cols: &[ColRef]) -> bool
    ensures { result ≡ are_rising from end cols.now }
{
    match cols {
        [] => true,
        [first, rest @ ..] => {
            let at = first.col as usize;
            from <= at && at < end && are_rising(at + 1, end, rest)
        }
    }
}

/// How many values a combination has of a relation.
fn width(rel: u8, combo: &Combo) -> usize
    ensures { result ≡ length (row_of rel combo.now) }
{
    match combo.rows().get((rel as usize).saturating_sub(1)) {
        Some(row) => row.items().len(),
        None => 0,
    }
}

/// The row of a relation, without the others.
fn take_row(alloc: Global, rel: u8, combo: Combo) -> Row
    ensures { result ≡ row_of rel combo }
{
    let mut combo = combo;
    let mut rows = replace(&mut combo.rows, List::new(alloc)).into_vec();
    let at = (rel as usize).saturating_sub(1);
    if at < rows.len() {
        rows.swap_remove(at)
    } else {
        Row::new(alloc)
    }
}

/// The relation of the first column, 0 where there is none.
fn first_relation(cols: &[ColRef]) -> u8 {
    match cols {
        [] => 0,
        [first, ..] => first.rel,
    }
}

/// Moves the values at the columns behind those before this place, and drops all others.
fn gather(values: &mut Vec<Value>, at: usize, cols: &[ColRef])
    requires { IsTrue (are_rising at (length values.old.items) cols.now) }
    ensures { values.new.items ≡ take at values.old.items ++ map (value_in values.old.items) cols.now }
{
    match cols {
        [] => values.truncate(at),
        [first, rest @ ..] => {
            values.swap(at, first.col as usize);
            gather(values, at + 1, rest);
        }
    }
}

/// The values of a row at the columns, without the others.
fn gathered(row: Row, cols: &[ColRef]) -> Row
    requires { IsTrue (are_rising 0 (length row) cols.now) }
    ensures { result ≡ map (value_in row) cols.now }
{
    let mut values = row.into_vec();
    gather(&mut values, 0, cols);
    Row::from_vec(values)
}

/// The values of a combination at some columns. Those of rising columns of one relation are moved.
fn take_values(alloc: Global, combo: Combo, cols: &[ColRef]) -> Result<Row, NoMem>
    ensures { IfOk result (λ values. values ≡ values_at combo cols.now) }
{
    let rel = first_relation(cols);
    if are_of(rel, cols) && are_rising(0, width(rel, &combo), cols) {
        return Ok(gathered(take_row(alloc, rel, combo), cols));
    }
    values_at(alloc, &combo, cols)
}

/// The selected columns of each combination, as `project` has them. The combinations are used up.
pub fn take_selected(alloc: Global, query: &Query, combos: List<Combo>) -> Result<List<Row>, NoMem>
    ensures { IfOk result (λ rows. rows ≡ map (selected_values query.now) combos) }
{
    let mut rows = List::with_room(alloc, combos.items().len())?;
    for combo in combos.into_vec() {
        let values = take_values(alloc, combo, query.select.items())?;
        rows.push(alloc, values)?;
    }
    Ok(rows)
}
