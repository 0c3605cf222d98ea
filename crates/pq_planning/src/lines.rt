//! The lines of a report that tell of definitions and indexes.
ghost use Rattle.std.specs.Prelude.{◌≡◌, ◌≤◌, ◌+◌, ◌-◌, ◌++◌, length, map, take, IfOk, OnOk};
ghost use Rattle.pq_schema.specs.Schema.{def_of, definition_at};
ghost use Rattle.pq_schema.specs.Tables.{table_at};
ghost use Rattle.pq_planning.specs.Lines.{AreOf, AreInside, AreShown, IsMadeOf, IsLined, IsShowable, index_col, index_line, index_lines, table_lines, lines_at, made_lines, definition_lines, show_lines, wanted_lines};

use pq_base::{List, NoMem};
use pq_print::{IndexCol, Line, print_definition};
use pq_schema::{Catalog, Column, Def, Index, KeyPart, NewIndex, Table};
use std::alloc::Global;

fn index_cols(alloc: Global, columns: &[Column], parts: &[KeyPart]) -> Result<List<IndexCol>, NoMem>
    requires { AreOf columns.now parts.now }
    ensures { IfOk result (λ cols. cols ≡ map (index_col columns.now) parts.now) }
{
    let mut cols = List::new(alloc);
    for part in parts {
        let name = columns[part.col as usize].name.copy(alloc)?;
        cols.push(
            alloc,
            IndexCol {
                name,
                dir: part.dir,
            },
        )?;
    }
    Ok(cols)
}

/// The line of an index, by its number from 1.
fn index_line(alloc: Global, table: &Table, number: u8, index: &Index) -> Result<Line, NoMem>
    requires { AreOf table.now.columns index.now.cols }
    ensures { IfOk result (λ line. line ≡ index_line table.now number index.now) }
{
    Ok(Line::Index {
        table: table.name.copy(alloc)?,
        number,
        cols: index_cols(alloc, table.columns.items(), index.cols.items())?,
    })
}

/// Puts the lines of indexes, which are numbered from a number on.
fn put_index_lines(
    alloc: Global,
    table: &Table,
    number: u8,
    indexes: &[Index],
    lines: &mut List<Line>,
) -> Result<(), NoMem>
    requires few { number + length indexes.now ≤ 200 }
    requires inside { AreInside table.now.columns indexes.now }
    ensures { OnOk result (lines.new ≡ lines.old ++ index_lines table.now number indexes.now) }
{
    match indexes.split_first() {
        None => Ok(()),
        Some((index, rest)) => {
            lines.push(alloc, index_line(alloc, table, number, index)?)?;
            put_index_lines(alloc, table, number + 1, rest, lines)
        }
    }
}

/// The lines of the indexes that a CREATE TABLE makes.
pub fn table_lines(alloc: Global, table: &Table) -> Result<List<Line>, NoMem>
    requires few { length table.now.indexes ≤ 16 }
    requires inside { AreInside table.now.columns table.now.indexes }
    ensures { IfOk result (λ lines. lines ≡ table_lines table.now) }
{
    let mut lines = List::new(alloc);
    put_index_lines(alloc, table, 1, table.indexes.items(), &mut lines)?;
    Ok(lines)
}

/// Puts the line of an index that a query wants.
pub fn put_wanted_line(
    alloc: Global,
    catalog: &Catalog,
    wanted: &Option<NewIndex>,
    lines: &mut List<Line>,
) -> Result<(), NoMem>
    requires { IsLined catalog.now.tables wanted.now }
    ensures { OnOk result (lines.new ≡ lines.old ++ wanted_lines catalog.now.tables wanted.now) }
{
    match wanted {
        None => Ok(()),
        Some(new) => {
            let line = index_line(alloc, catalog.table(new.table), new.number, &new.index)?;
            lines.push(alloc, line)
        }
    }
}

/// A number from 1 as a place from 0.
fn place(number: u8) -> usize
    ensures { result ≡ number - 1 }
{
    (number as usize).saturating_sub(1)
}

/// Puts the lines of so many indexes of a table, from this number on.
fn put_lines_at(
    alloc: Global,
    table: &Table,
    first: u8,
    count: u8,
    lines: &mut List<Line>,
) -> Result<(), NoMem>
    requires first { first ≤ 16 }
    requires few { length table.now.indexes ≤ 16 }
    requires inside { AreInside table.now.columns table.now.indexes }
    ensures { OnOk result (lines.new ≡ lines.old ++ lines_at table.now first count) }
{
    let indexes = table.indexes.items();
    let rest = &indexes[place(first).min(indexes.len())..];
    let count = (count as usize).min(rest.len());
    put_index_lines(alloc, table, first, &rest[..count], lines)
}

/// Puts the lines of the indexes that a definition made.
fn put_made_lines(
    alloc: Global,
    catalog: &Catalog,
    def: Def,
    lines: &mut List<Line>,
) -> Result<(), NoMem>
    requires there { IsMadeOf catalog.now.tables def }
    requires sound { AreShown catalog.now.tables }
    ensures { OnOk result (lines.new ≡ lines.old ++ made_lines catalog.now.tables def) }
{
    match def {
        Def::Table { table, made } => put_lines_at(alloc, catalog.table(table), 1, made, lines),
        Def::Query { made: None } => Ok(()),
        Def::Query { made: Some(made) } => {
            put_lines_at(alloc, catalog.table(made.table), made.index, 1, lines)
        }
        Def::Added { .. } => Ok(()),
        Def::Counter => Ok(()),
    }
}

/// Puts a definition's text, and the lines of the indexes that it made.
#[tactic(auto, unfolding(crate::specs::Lines::definition_lines))]
fn put_definition_lines(
    alloc: Global,
    catalog: &Catalog,
    number: u16,
    lines: &mut List<Line>,
) -> Result<(), NoMem>
    requires from_one { 1 ≤ number }
    requires there { number ≤ length catalog.now.definitions }
    requires made { IsMadeOf catalog.now.tables (def_of (definition_at catalog.now number)) }
    requires sound { AreShown catalog.now.tables }
    ensures { OnOk result (lines.new ≡ lines.old ++ definition_lines catalog.now number) }
{
    let text = print_definition(alloc, catalog, number)?;
    lines.push(alloc, Line::Def { number, text })?;
    put_made_lines(alloc, catalog, catalog.definition(number), lines)
}

/// The lines of all definitions in order.
pub fn show_lines(alloc: Global, catalog: &Catalog) -> Result<List<Line>, NoMem>
    requires { IsShowable catalog.now }
    ensures { IfOk result (λ lines. lines ≡ show_lines catalog.now) }
{
    let mut lines = List::new(alloc);
    for place in 0..catalog.defs() {
        put_definition_lines(alloc, catalog, place + 1, &mut lines)?;
    }
    Ok(lines)
}
