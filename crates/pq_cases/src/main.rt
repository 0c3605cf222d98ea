//! `pq_cases`: each line of standard input is a case. It is written again, and below it `=` and what it comes to. Lines
//! that begin with `#` and empty ones are written as they are.
//!
//! A case is a word that says what to do, and what it is done with (`cells`). Tables are kept from line to line, up to a
//! line `no_tables`.
#![tactic(auto)]

mod cells;
mod cursors;
mod fills;
mod keys;
mod put;
mod queries;
mod reports;
mod rows;
mod tables;
mod texts;

ghost use Rattle.std.specs.Prelude.{All};
ghost use Rattle.pq_row_code.specs.RowCode.{IsShort};

use crate::cells::{Cells, cells_of};
use crate::put::put_word;
use pq_base::{Bytes, NoMem};
use pq_schema::Catalog;
use std::alloc::Global;
use std::io::{self, Write};

// What a case of codes comes to.
fn put_codes(alloc: Global, cells: &Cells, out: &mut Bytes) -> Result<(), NoMem>
    requires { All IsShort cells.now.row }
{
    match cells.command {
        "key" => keys::key(alloc, cells, out),
        "key_of" => keys::key_of(alloc, cells, out),
        "row_key" => keys::row(alloc, cells, out),
        "entry_key" => keys::entry(alloc, cells, out),
        "other_keys" => keys::others(alloc, cells, out),
        "row" => rows::row(alloc, cells, out),
        "row_of" => rows::row_of(alloc, cells, out),
        "stored" => rows::stored(alloc, cells, out),
        "stored_of" => rows::stored_of(alloc, cells, out),
        "changes_of" => rows::changes_of(alloc, cells, out),
        "cursor" => cursors::cursor(alloc, cells, out),
        "cursor_of" => cursors::cursor_of(alloc, cells, out),
        _ => put_word(alloc, "no such command", out),
    }
}

// What a case of texts, of reports or of the generated script comes to, or any behind them.
fn put_texts(alloc: Global, cells: &Cells, out: &mut Bytes) -> Result<(), NoMem>
    requires { All IsShort cells.now.row }
{
    match cells.command {
        "tokens" => texts::put_tokens(alloc, cells, out),
        "pieces" => texts::put_pieces(alloc, cells, out),
        "kinds" => texts::put_kinds(alloc, cells, out),
        "feed" => texts::put_feed(alloc, cells, out),
        "print_row" => reports::row(alloc, cells, out),
        "refusal" => reports::refusal(alloc, cells, out),
        "in_batch" => reports::in_batch(alloc, cells, out),
        "value_kind" => reports::value_kind(alloc, cells, out),
        "lines" => reports::lines(alloc, cells, out),
        "page" => reports::page(alloc, cells, out),
        "opening" => reports::opening(alloc, out),
        "damage" => reports::damage(alloc, cells, out),
        "form" => fills::form(alloc, cells, out),
        "count" => fills::count(alloc, cells, out),
        "place" => fills::place(alloc, cells, out),
        "summary" => fills::summary(alloc, cells, out),
        "statement" => tables::statement(alloc, cells, out),
        "columns" => tables::columns(alloc, cells, out),
        "select" => queries::select(alloc, cells, out),
        _ => put_codes(alloc, cells, out),
    }
}

// What a case over the tables comes to, or any behind them.
fn put_over(alloc: Global, catalog: &Catalog, cells: &Cells, out: &mut Bytes) -> Result<(), NoMem>
    requires { All IsShort cells.now.row }
{
    match cells.command {
        "printed" => tables::printed(alloc, catalog, cells, out),
        "last_definition" => tables::last_definition(alloc, catalog, out),
        "referring" => tables::referring(alloc, catalog, cells, out),
        "query" | "rearranged" | "compiled" | "candidates" | "limit" => {
            queries::query(alloc, catalog, cells, out)
        }
        "arranged" => queries::arranged(alloc, catalog, cells, out),
        _ => put_texts(alloc, cells, out),
    }
}

// What any case comes to.
fn put_case(
    alloc: Global,
    catalog: &mut Catalog,
    cells: &Cells,
    out: &mut Bytes,
) -> Result<(), NoMem>
    requires { All IsShort cells.now.row }
{
    match cells.command {
        "no_tables" => {
            *catalog = Catalog::new(alloc);
            Ok(())
        }
        "table" => tables::table(alloc, catalog, cells, out),
        "bare_table" => tables::bare_table(alloc, catalog, cells, out),
        _ => put_over(alloc, catalog, cells, out),
    }
}

// What the case that is a line comes to, if it is one.
fn put_below(
    alloc: Global,
    catalog: &mut Catalog,
    line: &str,
    out: &mut Bytes,
) -> Result<(), NoMem> {
    if line.starts_with("#") || line.is_empty() {
        return Ok(());
    }
    out.extend(alloc, b"\n=")?;
    let cells = cells_of(alloc, line)?;
    put_case(alloc, catalog, &cells, out)
}

// The line, and what it comes to.
fn put_answer(
    alloc: Global,
    catalog: &mut Catalog,
    line: &str,
    out: &mut Bytes,
) -> Result<(), NoMem> {
    out.extend(alloc, line.as_bytes())?;
    put_below(alloc, catalog, line, out)?;
    out.push(alloc, b'\n')
}

fn answer(alloc: Global, catalog: &mut Catalog, line: &str) -> io::Result<Bytes> {
    let mut out = Bytes::new(alloc);
    match put_answer(alloc, catalog, line, &mut out) {
        Ok(()) => Ok(out),
        Err(NoMem) => Err(io::Error::from(io::ErrorKind::OutOfMemory)),
    }
}

fn write_answer(rt: &HostRuntime, catalog: &mut Catalog, line: &str) -> io::Result<()> {
    let text = answer(rt.alloc(), catalog, line)?;
    io::writer(rt).write_all(text.items())
}

fn write_answers(rt: &HostRuntime, catalog: &mut Catalog) -> io::Result<()> {
    for line in rt.lines(rt.alloc()) {
        let line = line?;
        write_answer(rt, catalog, line.as_str())?;
    }
    Ok(())
}

fn main(rt: HostRuntime) -> io::Result<()> {
    let mut catalog = Catalog::new(rt.alloc());
    write_answers(&rt, &mut catalog)
}
