//! Whether combinations stand in the order of their positions already.
ghost use Rattle.std.specs.Prelude.{◌≡◌, length, slice_index_or};
ghost use Rattle.pq_base.specs.Order.{directed_order, position_cmp, value_cmp};
ghost use Rattle.pq_schema.specs.Rows.{no_value};
ghost use Rattle.pq_plan.specs.Answer.{row_of, values_at};
ghost use Rattle.pq_local_ops.specs.Ordered.{are_ordered};

use pq_base::{Dir, Value, cmp_values, no_value};
use pq_operands::cell;
use pq_plan::Combo;
use pq_schema::ColRef;
use std::cmp::Ordering;

/// The value at a column, and this one for a column that isn't there.
fn value_or<'a>(combo: &'a Combo, col: ColRef, missing: &'a Value) -> &'a Value
    ensures { result.now ≡ slice_index_or (row_of col.rel combo.now) col.col missing.now }
{
    match cell(combo, col) {
        Some(value) => value,
        None => missing,
    }
}

/// The order of two combinations by one column.
fn compare_cells(dir: Dir, col: ColRef, first: &Combo, second: &Combo) -> Ordering
    ensures { result ≡ directed_order dir (value_cmp (slice_index_or (row_of col.rel first.now) col.col no_value)
        (slice_index_or (row_of col.rel second.now) col.col no_value)) }
{
    let missing = no_value();
    let order = cmp_values(
        value_or(first, col, &missing),
        value_or(second, col, &missing),
    );
    match dir {
        Dir::Asc => order,
        Dir::Desc => order.reverse(),
    }
}

/// The order of two combinations by some columns, the first of them first.
fn compare_at(cols: &[ColRef], dirs: &[Dir], first: &Combo, second: &Combo) -> Ordering
    requires { length cols.now ≡ length dirs.now }
    ensures { result ≡ position_cmp dirs.now (values_at first.now cols.now) (values_at second.now cols.now) }
{
    let (Some((col, cols)), Some((dir, dirs))) = (cols.split_first(), dirs.split_first()) else {
        return Ordering::Equal;
    };
    match compare_cells(*dir, *col, first, second) {
        Ordering::Equal => compare_at(cols, dirs, first, second),
        order => order,
    }
}

/// Whether each stands at the position of the one before it, or behind it.
pub(crate) fn are_ordered(cols: &[ColRef], dirs: &[Dir], combos: &[Combo]) -> bool
    requires { length cols.now ≡ length dirs.now }
    ensures { result ≡ are_ordered cols.now dirs.now combos.now }
{
    match combos {
        [first, rest @ ..] => match rest {
            [second, ..] => {
                compare_at(cols, dirs, first, second).is_le() && are_ordered(cols, dirs, rest)
            }
            [] => true,
        },
        [] => true,
    }
}
