//! Statements as they are read, and definitions of tables with their texts.
use crate::cells::Cells;
use crate::put::{named, put_number, put_plain, put_refused, put_stopped, put_word};
use pq_base::{Bytes, List, NoMem, Refusal, Stopped};
use pq_def_read::{Statement, read_statement};
use pq_definitions::add_table;
use pq_names::is_spelt_table;
use pq_print::{print_definition, print_table};
use pq_schema::{Catalog, ColumnDef, TableDef};
use pq_text::tokens;
use std::alloc::Global;

fn read(alloc: Global, text: &[u8]) -> Result<Statement, Stopped> {
    let text = named(alloc, text)?;
    if text.bytes().len() > 1_048_576 {
        return Err(Stopped::Refused(Refusal::StatementLong));
    }
    let seen = tokens(alloc, &text)?;
    read_statement(alloc, &text, &seen)
}

// The table that the text defines, or none where it is read as another statement.
fn created(alloc: Global, text: &[u8]) -> Result<Option<TableDef>, Stopped> {
    match read(alloc, text)? {
        Statement::Create(def) => Ok(Some(def)),
        _ => Ok(None),
    }
}

/// Whether the text is read as a statement.
pub fn statement(alloc: Global, cells: &Cells, out: &mut Bytes) -> Result<(), NoMem> {
    match created(alloc, cells.text(0)) {
        Ok(_) => put_word(alloc, "read", out),
        Err(stopped) => put_stopped(alloc, stopped, out),
    }
}

fn put_column(alloc: Global, column: &ColumnDef, out: &mut Bytes) -> Result<(), NoMem> {
    put_plain(alloc, column.name.bytes(), out)?;
    put_plain(alloc, column.kind.bytes(), out)?;
    put_number(alloc, column.size as i64, out)
}

fn put_columns(alloc: Global, def: &TableDef, out: &mut Bytes) -> Result<(), NoMem> {
    put_plain(alloc, def.name.bytes(), out)?;
    for column in def.columns.items() {
        put_column(alloc, column, out)?;
    }
    Ok(())
}

/// The name of the table that the text defines, and its columns with their kinds and sizes.
pub fn columns(alloc: Global, cells: &Cells, out: &mut Bytes) -> Result<(), NoMem> {
    match created(alloc, cells.text(0)) {
        Ok(Some(def)) => put_columns(alloc, &def, out),
        Ok(None) => put_word(alloc, "no_table", out),
        Err(stopped) => put_refused(alloc, stopped, "no_table", out),
    }
}

fn add(alloc: Global, catalog: &mut Catalog, def: TableDef, out: &mut Bytes) -> Result<(), NoMem> {
    if !is_spelt_table(&def) {
        return put_word(alloc, "not_spelt", out);
    }
    match add_table(alloc, catalog, def) {
        Ok(number) => {
            put_word(alloc, "table", out)?;
            put_number(alloc, number as i64, out)
        }
        Err(stopped) => put_stopped(alloc, stopped, out),
    }
}

/// Adds the table that the text defines, and answers its number.
pub fn table(
    alloc: Global,
    catalog: &mut Catalog,
    cells: &Cells,
    out: &mut Bytes,
) -> Result<(), NoMem> {
    match created(alloc, cells.text(0)) {
        Ok(Some(def)) => add(alloc, catalog, def, out),
        Ok(None) => put_word(alloc, "no_table", out),
        Err(stopped) => put_stopped(alloc, stopped, out),
    }
}

/// Adds a table of this name without a column, which no statement spells.
pub fn bare_table(
    alloc: Global,
    catalog: &mut Catalog,
    cells: &Cells,
    out: &mut Bytes,
) -> Result<(), NoMem> {
    let def = TableDef {
        name: named(alloc, cells.text(0))?,
        columns: List::new(alloc),
        key: List::new(alloc),
        limits: List::new(alloc),
        foreign: List::new(alloc),
    };
    add(alloc, catalog, def, out)
}

/// The text of the table of this place, from 0.
pub fn printed(
    alloc: Global,
    catalog: &Catalog,
    cells: &Cells,
    out: &mut Bytes,
) -> Result<(), NoMem> {
    match catalog.tables().get(cells.number(0) as usize) {
        Some(table) => {
            let text = print_table(alloc, catalog.tables(), table)?;
            put_plain(alloc, text.items(), out)
        }
        None => put_word(alloc, "none", out),
    }
}

/// How many definitions there are, and the text of the last.
pub fn last_definition(alloc: Global, catalog: &Catalog, out: &mut Bytes) -> Result<(), NoMem> {
    let last = catalog.defs();
    put_number(alloc, last as i64, out)?;
    if last == 0 {
        return Ok(());
    }
    let text = print_definition(alloc, catalog, last)?;
    put_plain(alloc, text.bytes(), out)
}

/// The foreign keys that name the table of this number: for each its table and its number there.
pub fn referring(
    alloc: Global,
    catalog: &Catalog,
    cells: &Cells,
    out: &mut Bytes,
) -> Result<(), NoMem> {
    let found = catalog.referring(alloc, (cells.number(0) % 256) as u8)?;
    for one in found.items() {
        put_number(alloc, one.table as i64, out)?;
        put_number(alloc, one.foreign as i64, out)?;
    }
    Ok(())
}
