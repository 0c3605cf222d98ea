//! The write of an INSERT, or the first refusal that is found by reading.
ghost use Rattle.std.specs.Prelude.{◌≡◌, ◌≤◌, All, length, map, is_some, unwrap_or, IfOk, IsTrue};
ghost use Rattle.std.specs.List.{list_all};
ghost use Rattle.pq_base.specs.Answers.{Answers, Passes};
ghost use Rattle.pq_base.specs.Values.{AllFit};
ghost use Rattle.pq_schema.specs.ColumnNames.{names_of};
ghost use Rattle.pq_schema.specs.Definitions.{or_ok};
ghost use Rattle.pq_schema.specs.Rows.{no_value};
ghost use Rattle.pq_schema.specs.Sound.{AreDefaults, IsSized};
ghost use Rattle.pq_schema.specs.Tables.{table_at};
ghost use Rattle.pq_content.specs.Tables.{IsTableNumber, types_of, stored_code};
ghost use Rattle.pq_row_code.specs.RowCode.{IsShort};
ghost use Rattle.pq_index_keep.specs.Checking.{all_columns, default_at, has_value, inserted_value, insert_names, insert_places, insert_names_refusal, is_insert_wrong, insert_row, long_refusal, misfit_refusal, insert_values_refusal, insert_checked};
ghost use Rattle.pq_index_keep.specs.Sound.{AreWritable, IsWrite};

use crate::column_values::{check_fit, is_among, refuse_columns};
use crate::write::Write;
use pq_base::{List, NoMem, PText, Refusal, Row, Stopped, Value, fits, known_values, no_value};
use pq_row_code::stored_code_len;
use pq_row_keys::given;
use pq_schema::{Catalog, Column, Table, check_names, places_of, type_at};
use std::alloc::Global;

/// The numbers of columns.
const NUMBERS: [u8; 32] = [
    0, 1, 2, 3, 4, 5, 6, 7, 8, 9, 10, 11, 12, 13, 14, 15, 16, 17, 18, 19, 20, 21, 22, 23, 24, 25,
    26, 27, 28, 29, 30, 31,
];

fn all_columns(table: &Table) -> &'static [u8]
    requires { length table.now.columns ≤ 32 }
    ensures { result.now ≡ all_columns table.now }
{
    &NUMBERS[..table.columns.items().len()]
}

fn check_insert_names(
    alloc: Global,
    table: &Table,
    cols: &Option<List<PText>>,
) -> Result<(), Stopped>
    ensures { Passes result (insert_names_refusal table.now cols.now) }
{
    match cols {
        None => Ok(()),
        Some(names) => check_names(alloc, table.columns.items(), names.items()),
    }
}

/// Whether the column was added, so that it has a default.
fn has_default(table: &Table, col: u8) -> bool
    ensures { result ≡ is_some (default_at table.now col) }
{
    matches!(table.fillers.items().get(col as usize), Some(Some(_)))
}

/// The default of an added column.
fn default_value(alloc: Global, table: &Table, col: u8) -> Result<Value, NoMem>
    ensures { IfOk result (λ value. value ≡ unwrap_or (default_at table.now col) no_value) }
{
    match table.fillers.items().get(col as usize) {
        Some(Some(filler)) => filler.copy(alloc),
        _ => Ok(no_value()),
    }
}

/// Whether each column has a value, where these are given.
fn all_have_values(table: &Table, places: &[u8], columns: &[u8]) -> bool
    ensures { result ≡ list_all (has_value table.now places.now) columns.now }
{
    columns
        .iter()
        .all(|col| has_default(table, *col) || is_among(places, *col))
}

/// Whether the places are those of all columns, in their order.
fn is_whole(table: &Table, places: &[u8]) -> bool
    requires { length table.now.columns ≤ 32 }
    ensures { IsTrue result → places.now ≡ all_columns table.now }
{
    places == all_columns(table)
}

fn is_insert_wrong(table: &Table, places: &[u8], values: &[Value]) -> bool
    requires { length table.now.columns ≤ 32 }
    ensures { result ≡ is_insert_wrong table.now places.now values.now }
{
    if is_whole(table, places) {
        return values.len() != places.len();
    }
    !all_have_values(table, places, all_columns(table)) || values.len() != places.len()
}

/// The value that the column is given, or else its default.
fn inserted_value(
    alloc: Global,
    table: &Table,
    places: &[u8],
    values: &[Value],
    col: u8,
) -> Result<Value, NoMem>
    ensures { IfOk result (λ value. value ≡ inserted_value table.now places.now values.now col) }
{
    if is_among(places, col) {
        given(alloc, places, values, col)
    } else {
        default_value(alloc, table, col)
    }
}

/// The values that some columns get.
fn inserted_values(
    alloc: Global,
    table: &Table,
    places: &[u8],
    values: &[Value],
    columns: &[u8],
) -> Result<Row, NoMem>
    ensures { IfOk result (λ row. row ≡ map (inserted_value table.now places.now values.now) columns.now) }
{
    let mut row = List::with_room(alloc, columns.len())?;
    for col in columns {
        row.push(alloc, inserted_value(alloc, table, places, values, *col)?)?;
    }
    Ok(row)
}

fn copy_values(alloc: Global, values: &[Value]) -> Result<Row, NoMem>
    ensures { IfOk result (λ row. row ≡ values.now) }
{
    let mut row = List::with_room(alloc, values.len())?;
    for value in values {
        row.push(alloc, value.copy(alloc)?)?;
    }
    Ok(row)
}

fn insert_row(alloc: Global, table: &Table, places: &[u8], values: &[Value]) -> Result<Row, NoMem>
    requires { length table.now.columns ≤ 32 }
    ensures { IfOk result (λ row. row ≡ insert_row table.now places.now values.now) }
{
    if is_whole(table, places) && values.len() == places.len() {
        return copy_values(alloc, values);
    }
    inserted_values(alloc, table, places, values, all_columns(table))
}

/// Refuses the first value that doesn't fit its column, of values for the table's columns.
fn check_columns_fit(
    alloc: Global,
    table: &Table,
    columns: &[Column],
    places: &[u8],
    values: &[Value],
) -> Result<(), Stopped>
    ensures { Passes result (misfit_refusal table.now (names_of columns.now) places.now values.now) }
{
    match (
        columns.split_first(),
        places.split_first(),
        values.split_first(),
    ) {
        (Some((column, columns)), Some((place, places)), Some((value, values))) => {
            if fits(value, type_at(table.columns.items(), *place)) {
                check_columns_fit(alloc, table, columns, places, values)
            } else {
                let column = column.name.copy(alloc)?;
                let table = table.name.copy(alloc)?;
                Err(Stopped::Refused(Refusal::ValueKind { table, column }))
            }
        }
        _ => Ok(()),
    }
}

/// Refuses the first value of an INSERT that doesn't fit its column.
fn check_insert_fit(
    alloc: Global,
    table: &Table,
    cols: &Option<List<PText>>,
    places: &[u8],
    values: &[Value],
) -> Result<(), Stopped>
    ensures { Passes result (misfit_refusal table.now (insert_names table.now cols.now) places.now values.now) }
{
    match cols {
        None => check_columns_fit(alloc, table, table.columns.items(), places, values),
        Some(names) => check_fit(alloc, table, names.items(), places, values),
    }
}

/// Refuses a row whose code is too long.
fn check_length(alloc: Global, table: &Table, row: &Row) -> Result<(), Stopped>
    requires columns { length row.now ≤ 32 }
    requires texts { All IsShort row.now }
    ensures { Passes result (long_refusal table.now row.now) }
{
    let length = stored_code_len(row, &table.fillers);
    if 4096 < length {
        let table = table.name.copy(alloc)?;
        return Err(Stopped::Refused(Refusal::RowLong { table, length }));
    }
    Ok(())
}

/// The row that an INSERT of these values into these columns gives, which have these places.
fn check_insert_values(
    alloc: Global,
    table: &Table,
    cols: &Option<List<PText>>,
    places: &[u8],
    values: &[Value],
) -> Result<Row, Stopped>
    requires few { length table.now.columns ≤ 32 }
    requires sized { All (λ column. IsSized column.ty) table.now.columns }
    requires defaults { AreDefaults table.now.columns table.now.fillers }
    requires named { length (insert_names table.now cols.now) ≡ length places.now }
    ensures answer { Answers result
        (or_ok (insert_values_refusal table.now (insert_names table.now cols.now) places.now values.now)
        (insert_row table.now places.now values.now)) }
    ensures fits { IfOk result (AllFit (types_of table.now)) }
    ensures short { IfOk result (λ row. length (stored_code table.now row) ≤ 4096) }
{
    known_values(values);
    let wrong = is_insert_wrong(table, places, values);
    refuse_columns(alloc, table, wrong)?;
    check_insert_fit(alloc, table, cols, places, values)?;
    let row = insert_row(alloc, table, places, values)?;
    check_length(alloc, table, &row)?;
    Ok(row)
}

/// The row that an INSERT of these values into these columns gives.
fn check_insert_row(
    alloc: Global,
    table: &Table,
    cols: &Option<List<PText>>,
    values: &[Value],
) -> Result<Row, Stopped>
    requires few { length table.now.columns ≤ 32 }
    requires sized { All (λ column. IsSized column.ty) table.now.columns }
    requires defaults { AreDefaults table.now.columns table.now.fillers }
    ensures answer { Answers result (or_ok (insert_values_refusal table.now (insert_names table.now cols.now)
        (insert_places table.now cols.now) values.now)
        (insert_row table.now (insert_places table.now cols.now) values.now)) }
    ensures fits { IfOk result (AllFit (types_of table.now)) }
    ensures short { IfOk result (λ row. length (stored_code table.now row) ≤ 4096) }
{
    match cols {
        None => check_insert_values(alloc, table, cols, all_columns(table), values),
        Some(names) => {
            let places = places_of(alloc, table.columns.items(), names.items())?;
            check_insert_values(alloc, table, cols, places.items(), values)
        }
    }
}

pub(crate) fn check_insert(
    alloc: Global,
    catalog: &Catalog,
    number: u8,
    cols: &Option<List<PText>>,
    values: &[Value],
) -> Result<Write, Stopped>
    requires sound { AreWritable catalog.now.tables }
    requires number { IsTableNumber catalog.now.tables number }
    ensures answer { Answers result (insert_checked (table_at catalog.now.tables number) number cols.now values.now) }
    ensures write { IfOk result (IsWrite catalog.now.tables) }
{
    let table = catalog.table(number);
    check_insert_names(alloc, table, cols)?;
    match check_insert_row(alloc, table, cols, values) {
        Err(stopped) => Err(stopped),
        Ok(row) => Ok(Write::Insert { table: number, row }),
    }
}
