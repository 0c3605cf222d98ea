//! What is the same at the positions of an input's rows.
ghost use Rattle.std.specs.Prelude.{◌≡◌, [], ◌<◌, map, option_copied, unwrap_or, IfOk};
ghost use Rattle.pq_schema.specs.Relations.{tied_set, is_rest};
ghost use Rattle.pq_schema.specs.Rows.{no_value};
ghost use Rattle.pq_plan.specs.Answer.{cell};
ghost use Rattle.pq_serving.specs.Scanning.{constant_value, constant};
ghost use Rattle.pq_scan.specs.Prepared.{asked_over, IsPrepared};

use crate::prepared::Scan;
use pq_base::{List, NoMem, Value, copied_value};
use pq_operands::{cell, tied_value};
use pq_plan::Combo;
use pq_schema::OrderItem;
use std::alloc::Global;

/// The value of a position column that is the same for each row of an input that passes; none where the column
/// isn't there.
pub(crate) fn known_value<'a>(
    scan: &'a Scan<'_>,
    combo: &'a Combo,
    item: &OrderItem,
) -> Option<&'a Value>
    ensures { unwrap_or (option_copied result) no_value
        ≡ constant_value (asked_over scan.now []) scan.now.rel combo.now item.now }
{
    if item.col.rel == scan.rel {
        tied_value(scan.query, scan.params, scan.rel, combo, item.col.col)
    } else {
        cell(combo, item.col)
    }
}

/// Whether the rows of an input differ at a position column.
pub(crate) fn is_free(scan: &Scan<'_>, item: &OrderItem) -> bool
    requires sound { IsPrepared scan.now }
    requires column { item.now.col.col < 32 }
    ensures { result ≡ is_rest scan.now.rel (tied_set scan.now.query.now scan.now.rel) item.now }
{
    item.col.rel == scan.rel && !scan.fixed.has(item.col.col)
}

/// The constant of a position column, or none where the rows of an input differ at it.
fn constant(
    alloc: Global,
    scan: &Scan<'_>,
    combo: &Combo,
    item: &OrderItem,
) -> Result<Option<Value>, NoMem>
    requires sound { IsPrepared scan.now }
    requires column { item.now.col.col < 32 }
    ensures { IfOk result (λ value. value ≡ constant (asked_over scan.now []) scan.now.rel combo.now item.now) }
{
    if is_free(scan, item) {
        return Ok(None);
    }
    Ok(Some(copied_value(alloc, known_value(scan, combo, item))?))
}

/// The constants of an input's positions.
pub(crate) fn constants(
    alloc: Global,
    scan: &Scan<'_>,
    combo: &Combo,
) -> Result<List<Option<Value>>, NoMem>
    requires { IsPrepared scan.now }
    ensures { IfOk result (λ made. made ≡ map (constant
        (asked_over scan.now []) scan.now.rel combo.now) scan.now.items) }
{
    let items = scan.items.items();
    let mut constants = List::with_room(alloc, items.len())?;
    for item in items {
        constants.push(alloc, constant(alloc, scan, combo, item)?)?;
    }
    Ok(constants)
}
