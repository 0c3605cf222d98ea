//! The values that equalities tie columns to.
ghost use Rattle.std.specs.Prelude.{◌≡◌, ◌&&◌, ◌==◌, IfOk, option_copied, unwrap_or};
ghost use Rattle.std.specs.List.{find};
ghost use Rattle.pq_schema.specs.Relations.{ties};
ghost use Rattle.pq_schema.specs.Rows.{no_value};
ghost use Rattle.pq_operands.specs.Ties.{value_tied, cells_tied};

use crate::operands::side;
use pq_base::{NoMem, Row, Value, copied_value};
use pq_plan::Combo;
use pq_predicates::ties;
use pq_schema::{Pred, Query};
use std::alloc::Global;

/// The first equality in the text that ties the column.
fn tying(query: &Query, rel: u8, col: u8) -> Option<&Pred>
    ensures { option_copied result ≡ find (λ pred. ties rel pred && (pred.left.col == col)) query.now.preds }
{
    query
        .preds
        .items()
        .iter()
        .find(|pred| ties(pred, rel) && pred.left.col == col)
}

/// What the first equality in the text that ties the column says that it is, for one combination of the
/// relations before.
pub fn tied_value<'a>(
    query: &'a Query,
    params: &'a Row,
    rel: u8,
    combo: &'a Combo,
    col: u8,
) -> Option<&'a Value>
    ensures { option_copied result ≡ value_tied query.now params.now rel combo.now col }
{
    match tying(query, rel, col) {
        Some(pred) => side(params, combo, &pred.right),
        None => None,
    }
}

/// The tied value of a column, or the value of a column that isn't there.
fn tied_cell(
    alloc: Global,
    query: &Query,
    params: &Row,
    rel: u8,
    combo: &Combo,
    col: u8,
) -> Result<Value, NoMem>
    ensures { IfOk result (λ value. value ≡ unwrap_or (value_tied query.now params.now rel combo.now col) no_value) }
{
    copied_value(alloc, tied_value(query, params, rel, combo, col))
}

/// The tied values of some columns.
pub fn tied_cells(
    alloc: Global,
    query: &Query,
    params: &Row,
    rel: u8,
    combo: &Combo,
    cols: &[u8],
) -> Result<Row, NoMem>
    ensures { IfOk result (λ cells. cells ≡ cells_tied query.now params.now rel combo.now cols.now) }
{
    let mut cells = Row::with_room(alloc, cols.len())?;
    for col in cols {
        cells.push(alloc, tied_cell(alloc, query, params, rel, combo, *col)?)?;
    }
    Ok(cells)
}
