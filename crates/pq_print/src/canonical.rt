//! The canonical text of a definition of a catalog.
ghost use Rattle.std.specs.Prelude.{◌≡◌, ◌≤◌, ◌++◌, length, take, OnOk, IfOk, string_bytes};
ghost use Rattle.pq_print.specs.Canonical.{text_of, definition_text};

use crate::added::put_added;
use crate::counter::put_counter;
use crate::query::put_query;
use crate::table::put_table;
use pq_base::{NoMem, PText};
use pq_schema::{Catalog, Column, Definition, Table};
use std::alloc::{AllocError, Global};

/// The first columns of a table, so many, or all where it has fewer.
fn first_columns(table: &Table, count: u8) -> &[Column]
    ensures { result.now ≡ take count table.now.columns }
{
    let columns = table.columns.items();
    if (count as usize) < columns.len() {
        &columns[..count as usize]
    } else {
        columns
    }
}

fn put_definition(
    tables: &[Table],
    definition: &Definition,
    out: &mut String,
) -> Result<(), AllocError>
    ensures { OnOk result (string_bytes out.new ≡ string_bytes out.old ++ text_of tables.now definition.now) }
{
    match definition {
        Definition::OfTable { table, columns, .. } => {
            match tables.get((*table as usize).saturating_sub(1)) {
                Some(table) => put_table(tables, table, first_columns(table, *columns), out),
                None => Ok(()),
            }
        }
        Definition::OfQuery { query, .. } => put_query(tables, query, out),
        Definition::OfColumn { table, col } => put_added(tables, *table, *col, out),
        Definition::OfCounter { counter } => put_counter(tables, counter, out),
    }
}

/// The canonical text of the definition of this number, from 1.
#[tactic(auto, unfolding(crate::specs::Canonical::definition_text))]
pub fn print_definition(alloc: Global, catalog: &Catalog, number: u16) -> Result<PText, NoMem>
    requires from_one { 1 ≤ number }
    requires there { number ≤ length catalog.now.definitions }
    ensures { IfOk result (λ text. text ≡ definition_text catalog.now number) }
{
    let definition = catalog.definition_at(number);
    let mut text = String::new(alloc);
    put_definition(catalog.tables(), definition, &mut text)?;
    Ok(PText::from_string(text))
}
