//! Values of rows at columns.
ghost use Rattle.std.specs.Prelude.{◌≡◌, [], map, IfOk};
ghost use Rattle.pq_base.specs.Values.{is_null, has_null};
ghost use Rattle.pq_schema.specs.Sound.{AreColumns, AreParts};
ghost use Rattle.pq_schema.specs.Sequences.{then_key, index_sequence};
ghost use Rattle.pq_content.specs.Tables.{value_of, cells, values_of, same_value, same_values};
ghost use Rattle.pq_schema.specs.Keys.{given_value};

use pq_base::{ColSet, List, NoMem, Row, Value, cmp_values, no_value, value_of};
use pq_schema::{Index, KeyPart, Table, columns_in};
use std::alloc::Global;

/// The values at some columns.
pub fn values_at(alloc: Global, row: &[Value], cols: &[u8]) -> Result<Row, NoMem>
    ensures { IfOk result (λ values. values ≡ cells cols.now row.now) }
{
    let mut values = List::with_room(alloc, cols.len())?;
    for col in cols {
        values.push(alloc, value_of(alloc, row, *col)?)?;
    }
    Ok(values)
}

/// The value that a column is given, where these columns are given these values.
pub fn given(alloc: Global, cols: &[u8], values: &[Value], col: u8) -> Result<Value, NoMem>
    ensures { IfOk result (λ value. value ≡ given_value cols.now values.now col) }
{
    match (cols.split_first(), values.split_first()) {
        (Some((other, cols)), Some((value, values))) => {
            if *other == col {
                value.copy(alloc)
            } else {
                given(alloc, cols, values, col)
            }
        }
        _ => Ok(no_value()),
    }
}

/// The values that some columns are given.
pub fn all_given(alloc: Global, cols: &[u8], values: &[Value], wanted: &[u8]) -> Result<Row, NoMem>
    ensures { IfOk result (λ row. row ≡ map (given_value cols.now values.now) wanted.now) }
{
    let mut row = List::with_room(alloc, wanted.len())?;
    for col in wanted {
        row.push(alloc, given(alloc, cols, values, *col)?)?;
    }
    Ok(row)
}

fn is_null_at(row: &[Value], col: u8) -> bool
    ensures { result ≡ is_null (value_of row.now col) }
{
    match row.get(col as usize) {
        Some(value) => value.is_null(),
        None => false,
    }
}

/// Whether the row has NULL at one of the columns.
pub fn null_at(cols: &[u8], row: &[Value]) -> bool
    ensures { result ≡ has_null (cells cols.now row.now) }
{
    match cols.split_first() {
        None => false,
        Some((col, cols)) => is_null_at(row, *col) || null_at(cols, row),
    }
}

/// Whether two rows have equal values at a column.
fn same_at(a: &[Value], b: &[Value], col: u8) -> bool
    ensures { result ≡ same_value (value_of a.now col) (value_of b.now col) }
{
    let none = no_value();
    let place = col as usize;
    let first = a.get(place).unwrap_or(&none);
    let second = b.get(place).unwrap_or(&none);
    cmp_values(first, second).is_eq()
}

/// Whether two rows have equal values at the columns.
pub fn same_cells(cols: &[u8], a: &[Value], b: &[Value]) -> bool
    ensures { result ≡ same_values (cells cols.now a.now) (cells cols.now b.now) }
{
    match cols.split_first() {
        None => true,
        Some((col, cols)) => same_at(a, b, *col) && same_cells(cols, a, b),
    }
}

/// Whether two rows have equal values at the columns of the parts.
fn same_parts(parts: &[KeyPart], a: &[Value], b: &[Value]) -> bool
    ensures { result ≡ same_values (values_of parts.now a.now) (values_of parts.now b.now) }
{
    match parts.split_first() {
        None => true,
        Some((part, parts)) => same_at(a, b, part.col) && same_parts(parts, a, b),
    }
}

/// Whether two rows have equal values at the columns that are not in the set.
fn same_left(cols: &[u8], set: ColSet, a: &[Value], b: &[Value]) -> bool
    requires { AreColumns cols.now }
    ensures { result ≡ same_values (values_of (then_key [] set cols.now) a.now)
        (values_of (then_key [] set cols.now) b.now) }
{
    match cols.split_first() {
        None => true,
        Some((col, cols)) => {
            if !set.has(*col) && !same_at(a, b, *col) {
                return false;
            }
            same_left(cols, set, a, b)
        }
    }
}

/// Whether two rows have equal values at the columns of the index's sequence.
pub fn same_entry(table: &Table, index: &Index, a: &Row, b: &Row) -> bool
    requires key { AreColumns table.now.key }
    requires parts { AreParts index.now.cols }
    ensures { result ≡ same_values (values_of (index_sequence table.now index.now) a.now)
        (values_of (index_sequence table.now index.now) b.now) }
{
    let cols = index.cols.items();
    same_parts(cols, a.items(), b.items())
        && same_left(table.key.items(), columns_in(cols), a.items(), b.items())
}
