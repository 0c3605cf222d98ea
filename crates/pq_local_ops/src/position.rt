//! The values of a combination at columns: its position, and what is selected of it.
ghost use Rattle.std.specs.Prelude.{◌≡◌, ◌++◌, length, map, option_copied, slice_index_or, unwrap_or, IfOk, OnOk};
ghost use Rattle.pq_base.specs.Values.{AllFit};
ghost use Rattle.pq_key_code.specs.KeyCode.{code_of, component};
ghost use Rattle.pq_schema.specs.Rows.{no_value};
ghost use Rattle.pq_schema.specs.Resolved.{IsResolved};
ghost use Rattle.pq_schema.specs.Sound.{IsQuery};
ghost use Rattle.pq_plan.specs.Answer.{row_of, selected_values, values_at};
ghost use Rattle.pq_nodes.specs.Combos.{FitsTables, position_types};
ghost use Rattle.pq_local_ops.specs.Lists.{IsPositionOf};
ghost use Rattle.pq_local_ops.specs.Places.{ArePlaces};

use pq_base::{Bytes, Dir, List, NoMem, Row, Value, copied_value, no_value};
use pq_key_code::put_component;
use pq_operands::cell;
use pq_plan::Combo;
use pq_predicates::position_columns;
use pq_schema::{Catalog, ColRef, OrderItem, Query};
use std::alloc::Global;

/// The position columns of a query, and their directions.
#[derive(Drop)]
pub struct Places {
    pub cols: List<ColRef>,
    pub dirs: List<Dir>,
}

/// The position columns of a query, and their directions.
pub fn places_of(alloc: Global, catalog: &Catalog, query: &Query) -> Result<Places, NoMem>
    requires { IsResolved catalog.now.tables query.now }
    ensures places { IfOk result (ArePlaces catalog.now.tables query.now) }
    ensures sound { IfOk result (λ _. IsQuery catalog.now.tables query.now) }
{
    catalog.known();
    let items = position_columns(alloc, catalog, query)?;
    let mut cols = List::with_room(alloc, items.items().len())?;
    let mut dirs = List::with_room(alloc, items.items().len())?;
    for item in items.items() {
        cols.push(alloc, item.col)?;
        dirs.push(alloc, item.dir)?;
    }
    Ok(Places { cols, dirs })
}

/// A copy of the value at a column; a column that isn't there reads as false.
fn value_at(alloc: Global, combo: &Combo, col: ColRef) -> Result<Value, NoMem>
    ensures { IfOk result (λ value. value ≡ slice_index_or (row_of col.rel combo.now) col.col no_value) }
{
    copied_value(alloc, cell(combo, col))
}

/// The values of a combination at some columns.
pub(crate) fn values_at(alloc: Global, combo: &Combo, cols: &[ColRef]) -> Result<Row, NoMem>
    ensures { IfOk result (λ values. values ≡ values_at combo.now cols.now) }
{
    let mut values = Row::with_room(alloc, cols.len())?;
    for col in cols {
        values.push(alloc, value_at(alloc, combo, *col)?)?;
    }
    Ok(values)
}

/// Puts the component of a value behind what is there; a value that isn't there reads as false.
fn put_value(alloc: Global, out: &mut Bytes, dir: Dir, value: Option<&Value>) -> Result<(), NoMem>
    ensures { OnOk result (out.new ≡ out.old ++ component dir (unwrap_or (option_copied value.entry) no_value)) }
{
    match value {
        Some(value) => put_component(alloc, out, dir, value),
        None => put_component(alloc, out, dir, &no_value()),
    }
}

/// Puts the component of the value at a column behind what is there.
fn put_cell(
    alloc: Global,
    out: &mut Bytes,
    dir: Dir,
    combo: &Combo,
    col: ColRef,
) -> Result<(), NoMem>
    ensures { OnOk result (out.new ≡ out.old
        ++ component dir (slice_index_or (row_of col.rel combo.now) col.col no_value)) }
{
    put_value(alloc, out, dir, cell(combo, col))
}

// Most codes have no more bytes than this.
const CODE_ROOM: usize = 40;

/// The key code of a combination's values at some columns, each in its direction.
pub fn code_at(alloc: Global, combo: &Combo, cols: &[ColRef], dirs: &[Dir]) -> Result<Bytes, NoMem>
    requires { length cols.now ≡ length dirs.now }
    ensures { IfOk result (λ code. code ≡ code_of dirs.now (values_at combo.now cols.now)) }
{
    let mut code = Bytes::with_room(alloc, CODE_ROOM)?;
    for i in 0..cols.len() {
        put_cell(alloc, &mut code, dirs[i], combo, cols[i])?;
    }
    Ok(code)
}

/// The values of a combination at the columns of items of an order.
fn values_of(alloc: Global, combo: &Combo, items: &[OrderItem]) -> Result<Row, NoMem>
    ensures { IfOk result (λ values. values ≡ values_at combo.now (map (λ item. item.col) items.now)) }
{
    let mut values = Row::with_room(alloc, items.len())?;
    for item in items {
        values.push(alloc, value_at(alloc, combo, item.col)?)?;
    }
    Ok(values)
}

/// The position of a combination: its values at the position columns. It fits their types where the
/// combination has a fitting row for each relation.
pub fn position_of(
    alloc: Global,
    catalog: &Catalog,
    query: &Query,
    combo: &Combo,
) -> Result<Row, NoMem>
    requires { IsResolved catalog.now.tables query.now }
    ensures position { IfOk result (IsPositionOf catalog.now.tables query.now combo.now) }
    ensures fits { IfOk result (λ values. FitsTables catalog.now.tables query.now (length query.now.relations) combo.now
        → AllFit (position_types catalog.now.tables query.now) values) }
{
    catalog.known();
    let items = position_columns(alloc, catalog, query)?;
    values_of(alloc, combo, items.items())
}

/// The selected columns of each combination.
pub fn project(alloc: Global, query: &Query, combos: &List<Combo>) -> Result<List<Row>, NoMem>
    ensures { IfOk result (λ rows. rows ≡ map (selected_values query.now) combos.now) }
{
    let mut rows = List::with_room(alloc, combos.items().len())?;
    for combo in combos.items() {
        rows.push(alloc, values_at(alloc, combo, query.select.items())?)?;
    }
    Ok(rows)
}
