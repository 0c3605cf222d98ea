//! Names by number. A number that nothing has gets the empty name.
ghost use Rattle.std.specs.Prelude.{◌≡◌, ◌-◌};
ghost use Rattle.pq_schema.specs.Tables.{table_at};
ghost use Rattle.pq_schema.specs.Relations.{relation_at};
ghost use Rattle.pq_print.specs.Canonical.{column_at, column_name};

use pq_base::{ColType, Value};
use pq_schema::{Column, Query, Table};

/// A number from 1 as a place from 0.
fn place(number: u8) -> usize
    ensures { result ≡ number - 1 }
{
    (number as usize).saturating_sub(1)
}

/// The name of the table of this number, from 1.
pub fn table_name(tables: &[Table], number: u8) -> &str
    ensures { result.now ≡ (table_at tables.now number).name }
{
    match tables.get(place(number)) {
        Some(table) => table.name.as_str(),
        None => "",
    }
}

/// The columns of the table of this number, from 1.
pub fn table_columns(tables: &[Table], number: u8) -> &[Column]
    ensures { result.now ≡ (table_at tables.now number).columns }
{
    match tables.get(place(number)) {
        Some(table) => table.columns.items(),
        None => &[],
    }
}

/// The defaults of the columns of the table of this number, from 1.
pub fn table_fillers(tables: &[Table], number: u8) -> &[Option<Value>]
    ensures { result.now ≡ (table_at tables.now number).fillers }
{
    match tables.get(place(number)) {
        Some(table) => table.fillers.items(),
        None => &[],
    }
}

/// The name of the column of this place, from 0.
pub fn column_name(columns: &[Column], col: u8) -> &str
    ensures { result.now ≡ column_name columns.now col }
{
    match columns.get(col as usize) {
        Some(column) => column.name.as_str(),
        None => "",
    }
}

/// The type of the column of this place, from 0.
pub fn column_type(columns: &[Column], col: u8) -> ColType
    ensures { result ≡ (column_at columns.now col).ty }
{
    match columns.get(col as usize) {
        Some(column) => column.ty,
        None => ColType::Int,
    }
}

/// The alias of the relation of this number, from 1.
pub fn relation_alias(query: &Query, rel: u8) -> &str
    ensures { result.now ≡ (relation_at query.now rel).alias }
{
    match query.relations.items().get(place(rel)) {
        Some(relation) => relation.alias.as_str(),
        None => "",
    }
}

/// The number of the table of the relation of this number, from 1.
pub fn relation_table(query: &Query, rel: u8) -> u8
    ensures { result ≡ (relation_at query.now rel).table }
{
    match query.relations.items().get(place(rel)) {
        Some(relation) => relation.table,
        None => 0,
    }
}
