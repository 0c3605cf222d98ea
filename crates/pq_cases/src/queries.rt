//! Queries as they are read, rearranged and compiled over the tables.
ghost use Rattle.std.specs.Prelude.{IfOk};
ghost use Rattle.pq_schema.specs.Resolved.{IsResolved};
ghost use Rattle.pq_schema.specs.Sound.{IsQuery};

use crate::cells::Cells;
use crate::put::{named, put_bound, put_dir, put_number, put_plain, put_stopped, put_word};
use pq_arrange::{Rearranged, rearrange};
use pq_base::{Bytes, Choice, NoMem, Refusal, Stopped};
use pq_compile::{Compiled, compile};
use pq_predicates::{fixed, limit_of, table_of};
use pq_print::print_query;
use pq_query_read::{SelectDef, read_query, read_select};
use pq_schema::{Catalog, KeyPart, NewIndex, Query, Table};
use pq_stop_push::{Candidate, candidates};
use pq_text::tokens;
use std::alloc::Global;

fn read_from(alloc: Global, text: &[u8], from: u32) -> Result<SelectDef, Stopped> {
    let text = named(alloc, text)?;
    if text.bytes().len() > 1_048_576 {
        return Err(Stopped::Refused(Refusal::StatementLong));
    }
    let seen = tokens(alloc, &text)?;
    if from as usize > seen.items().len() {
        return Err(Stopped::Refused(Refusal::Unfinished));
    }
    read_select(alloc, &text, &seen, from)
}

/// Whether the text has a query from its token of this place on.
pub fn select(alloc: Global, cells: &Cells, out: &mut Bytes) -> Result<(), NoMem> {
    match read_from(alloc, cells.text(0), cells.number(0)) {
        Ok(_) => put_word(alloc, "read", out),
        Err(stopped) => put_stopped(alloc, stopped, out),
    }
}

// The query named q that the text spells.
fn read(alloc: Global, catalog: &Catalog, text: &[u8]) -> Result<Query, Stopped>
    ensures resolved { IfOk result (IsResolved catalog.now.tables) }
    ensures query { IfOk result (IsQuery catalog.now.tables) }
{
    catalog.known();
    let text = named(alloc, text)?;
    if text.bytes().len() > 1_048_576 {
        return Err(Stopped::Refused(Refusal::StatementLong));
    }
    let name = named(alloc, b"q")?;
    let seen = tokens(alloc, &text)?;
    let query = read_query(alloc, catalog, name, &text, &seen, 0)?;
    Ok(query)
}

fn put_query(
    alloc: Global,
    catalog: &Catalog,
    query: &Query,
    out: &mut Bytes,
) -> Result<(), NoMem> {
    let text = print_query(alloc, catalog.tables(), query)?;
    put_plain(alloc, text.items(), out)
}

fn put_places(alloc: Global, places: &[u8], out: &mut Bytes) -> Result<(), NoMem> {
    for place in places {
        put_number(alloc, *place as i64, out)?;
    }
    Ok(())
}

fn put_found(
    alloc: Global,
    catalog: &Catalog,
    found: &Rearranged,
    out: &mut Bytes,
) -> Result<(), NoMem> {
    put_places(alloc, found.places.items(), out)?;
    put_query(alloc, catalog, &found.query, out)
}

// The new numbers of the query's relations, rearranged, and its text; with its equalities closed or as they are.
fn put_rearranged(
    alloc: Global,
    catalog: &Catalog,
    query: &Query,
    close: bool,
    out: &mut Bytes,
) -> Result<(), NoMem>
    requires { IsResolved catalog.now.tables query.now }
{
    let found = rearrange(alloc, catalog, query, close)?;
    put_found(alloc, catalog, &found, out)
}

fn put_arranged(
    alloc: Global,
    catalog: &Catalog,
    query: Query,
    out: &mut Bytes,
) -> Result<(), NoMem>
    requires { IsResolved catalog.now.tables query }
{
    let found = pq_arrange::arranged(alloc, catalog, query)?;
    put_query(alloc, catalog, &found, out)
}

/// The text of the query that is planned in place of the query.
pub fn arranged(
    alloc: Global,
    catalog: &Catalog,
    cells: &Cells,
    out: &mut Bytes,
) -> Result<(), NoMem> {
    match read(alloc, catalog, cells.text(0)) {
        Ok(query) => put_arranged(alloc, catalog, query, out),
        Err(stopped) => put_stopped(alloc, stopped, out),
    }
}

fn put_choice(alloc: Global, choice: Choice, out: &mut Bytes) -> Result<(), NoMem> {
    match choice {
        Choice::Whole => put_word(alloc, "whole", out),
        Choice::Stop(relation) => {
            put_word(alloc, "stop", out)?;
            put_number(alloc, relation as i64, out)
        }
    }
}

fn put_part(alloc: Global, table: &Table, part: &KeyPart, out: &mut Bytes) -> Result<(), NoMem> {
    if let Some(column) = table.columns.items().get(part.col as usize) {
        put_plain(alloc, column.name.bytes(), out)?;
    }
    put_dir(alloc, part.dir, out)
}

fn put_parts(
    alloc: Global,
    table: &Table,
    parts: &[KeyPart],
    out: &mut Bytes,
) -> Result<(), NoMem> {
    for part in parts {
        put_part(alloc, table, part, out)?;
    }
    Ok(())
}

// An index: its table, its number, and its columns with their directions.
fn put_index(
    alloc: Global,
    catalog: &Catalog,
    new: &NewIndex,
    out: &mut Bytes,
) -> Result<(), NoMem> {
    let Some(table) = catalog.tables().get((new.table as usize).wrapping_sub(1)) else {
        return Ok(());
    };
    put_word(alloc, "index", out)?;
    put_plain(alloc, table.name.bytes(), out)?;
    put_number(alloc, new.number as i64, out)?;
    put_parts(alloc, table, new.index.cols.items(), out)
}

fn put_compiled(
    alloc: Global,
    catalog: &Catalog,
    made: &Compiled,
    out: &mut Bytes,
) -> Result<(), NoMem> {
    put_choice(alloc, made.choice, out)?;
    put_bound(alloc, made.plan.bound(), out)?;
    match &made.wanted {
        Some(new) => put_index(alloc, catalog, new, out),
        None => Ok(()),
    }
}

// What the query is compiled to: its choice, its bound, and the index that it wants; or its refusal.
fn put_outcome(
    alloc: Global,
    catalog: &Catalog,
    query: &Query,
    out: &mut Bytes,
) -> Result<(), NoMem>
    requires { IsQuery catalog.now.tables query.now }
{
    match compile(alloc, catalog, query) {
        Ok(made) => put_compiled(alloc, catalog, &made, out),
        Err(stopped) => put_stopped(alloc, stopped, out),
    }
}

fn put_each(alloc: Global, candidates: &[Candidate], out: &mut Bytes) -> Result<(), NoMem> {
    for one in candidates {
        put_choice(alloc, one.choice, out)?;
        put_bound(alloc, one.bound, out)?;
    }
    Ok(())
}

// The candidates of the query, each with its bound.
fn put_candidates(
    alloc: Global,
    catalog: &Catalog,
    query: &Query,
    out: &mut Bytes,
) -> Result<(), NoMem>
    requires { IsQuery catalog.now.tables query.now }
{
    let list = candidates(alloc, catalog, query)?;
    put_each(alloc, list.items(), out)
}

// The limit that bounds the query's first relation, by its number.
fn put_limit(alloc: Global, catalog: &Catalog, query: &Query, out: &mut Bytes) -> Result<(), NoMem>
    requires { IsQuery catalog.now.tables query.now }
{
    if query.relations.items().is_empty() {
        return Ok(());
    }
    let table = table_of(catalog, query, 1);
    match limit_of(table, fixed(query, 1)) {
        Some(number) => put_number(alloc, number as i64, out),
        None => put_word(alloc, "none", out),
    }
}

// What a command tells of a query.
fn put_told(
    alloc: Global,
    catalog: &Catalog,
    cells: &Cells,
    query: &Query,
    out: &mut Bytes,
) -> Result<(), NoMem>
    requires resolved { IsResolved catalog.now.tables query.now }
    requires query { IsQuery catalog.now.tables query.now }
{
    match cells.command {
        "rearranged" => put_rearranged(alloc, catalog, query, cells.what == "closed", out),
        "compiled" => put_outcome(alloc, catalog, query, out),
        "candidates" => put_candidates(alloc, catalog, query, out),
        "limit" => put_limit(alloc, catalog, query, out),
        _ => put_query(alloc, catalog, query, out),
    }
}

/// What the command tells of the query that the text spells, its canonical text unless it asks for something else; or
/// the query's refusal.
pub fn query(
    alloc: Global,
    catalog: &Catalog,
    cells: &Cells,
    out: &mut Bytes,
) -> Result<(), NoMem> {
    match read(alloc, catalog, cells.text(0)) {
        Ok(query) => put_told(alloc, catalog, cells, &query, out),
        Err(stopped) => put_stopped(alloc, stopped, out),
    }
}
