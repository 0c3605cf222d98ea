//! What a CREATE TABLE defines, or why it is refused.
ghost use Rattle.std.specs.Prelude.{◌≡◌, ◌≤◌, length, map, IfOk, IfErr, OnErr};
ghost use Rattle.pq_base.specs.Answers.{Answers, Refuses};
ghost use Rattle.pq_schema.specs.Definitions.{no_fillers, limit_of_def, foreign_of_def, table_with, new_table, AddsTable, new_query, AddsQuery};
ghost use Rattle.pq_schema.specs.Names.{IsName, IsTableDef};
ghost use Rattle.pq_schema.specs.Resolved.{IsResolved};
ghost use Rattle.pq_schema.specs.Sequences.{ascending_part, groups, with_group, with_groups};
ghost use Rattle.pq_schema.specs.Sound.{IsTable, IsBare, AreColumns};
ghost use Rattle.pq_schema.specs.Wanted.{IsWanted};

use crate::table_checks::{cardinality, check_definition, check_table};
use pq_base::{ColSet, Dir, List, NoMem, Stopped, Value};
use pq_schema::{
    Catalog, Column, Foreign, ForeignDef, Index, KeyPart, Limit, LimitDef, NewIndex, Query, Table,
    TableDef, group_access, places_of,
};
use std::alloc::Global;

/// No column was added.
fn no_fillers(alloc: Global, columns: &[Column]) -> Result<List<Option<Value>>, NoMem>
    ensures { IfOk result (λ fillers. fillers ≡ no_fillers columns.now) }
{
    let mut fillers = List::with_room(alloc, columns.len())?;
    for _ in columns {
        fillers.push(alloc, None)?;
    }
    Ok(fillers)
}

fn limits_of(alloc: Global, columns: &[Column], defs: &[LimitDef]) -> Result<List<Limit>, NoMem>
    requires { length columns.now ≤ 32 }
    ensures { IfOk result (λ limits. limits ≡ map (limit_of_def columns.now) defs.now) }
{
    let mut limits = List::new(alloc);
    for def in defs {
        let n = cardinality(def.n).unwrap_or(0);
        let cols = places_of(alloc, columns, def.cols.items())?;
        limits.push(alloc, Limit { n, cols })?;
    }
    Ok(limits)
}

fn foreign_of(
    alloc: Global,
    catalog: &Catalog,
    columns: &[Column],
    defs: &[ForeignDef],
) -> Result<List<Foreign>, NoMem>
    requires { length columns.now ≤ 32 }
    ensures { IfOk result (λ foreign. foreign ≡ map (foreign_of_def catalog.now columns.now) defs.now) }
{
    let mut foreign = List::new(alloc);
    for def in defs {
        let table = catalog.find_table(&def.table).unwrap_or(0);
        let cols = places_of(alloc, columns, def.cols.items())?;
        foreign.push(alloc, Foreign { cols, table })?;
    }
    Ok(foreign)
}

/// The table of these columns without its indexes.
fn table_with(
    alloc: Global,
    catalog: &Catalog,
    columns: List<Column>,
    def: &TableDef,
) -> Result<Table, NoMem>
    requires { length columns ≤ 32 }
    ensures { IfOk result (λ table. table ≡ table_with catalog.now columns def.now) }
{
    let key = places_of(alloc, columns.items(), def.key.items())?;
    let limits = limits_of(alloc, columns.items(), def.limits.items())?;
    let foreign = foreign_of(alloc, catalog, columns.items(), def.foreign.items())?;
    let fillers = no_fillers(alloc, columns.items())?;
    Ok(Table {
        name: def.name.copy(alloc)?,
        columns,
        fillers,
        key,
        limits,
        foreign,
        indexes: List::new(alloc),
    })
}

/// The columns, ascending.
fn ascending(alloc: Global, cols: &[u8]) -> Result<List<KeyPart>, NoMem>
    ensures { IfOk result (λ parts. parts ≡ map ascending_part cols.now) }
{
    let mut parts = List::new(alloc);
    for col in cols {
        parts.push(
            alloc,
            KeyPart {
                col: *col,
                dir: Dir::Asc,
            },
        )?;
    }
    Ok(parts)
}

/// One more index on the columns, where no sequence of the table begins with their set.
fn with_group(alloc: Global, table: Table, cols: &[u8]) -> Result<Table, NoMem>
    requires table { IsTable table }
    requires cols { AreColumns cols.now }
    ensures { IfOk result (λ made. made ≡ with_group table cols.now) }
{
    let mut table = table;
    if group_access(&table, ColSet::of(cols)).is_none() {
        let cols = ascending(alloc, cols)?;
        table.indexes.push(alloc, Index { cols })?;
    }
    Ok(table)
}

/// The columns of each limit and then of each foreign key.
fn groups_of(alloc: Global, table: &Table) -> Result<List<List<u8>>, NoMem>
    ensures { IfOk result (λ made. made ≡ groups table.now) }
{
    let mut groups = List::new(alloc);
    for limit in table.limits.items() {
        groups.push(alloc, List::of_bytes(alloc, limit.cols.items())?)?;
    }
    for foreign in table.foreign.items() {
        groups.push(alloc, List::of_bytes(alloc, foreign.cols.items())?)?;
    }
    Ok(groups)
}

/// The table with an index for each limit and then each foreign key, where no sequence begins with its set.
fn with_groups(alloc: Global, table: Table) -> Result<Table, NoMem>
    requires { IsBare table }
    ensures { IfOk result (λ made. made ≡ with_groups table) }
{
    let groups = groups_of(alloc, &table)?;
    let mut made = table;
    for cols in groups.items() {
        made = with_group(alloc, made, cols.items())?;
    }
    Ok(made)
}

/// The table that the definition makes over this catalog, or the first refusal: too many
/// definitions, the name taken, too many tables, the number of columns, of limits and of foreign keys,
/// the length of a text, a repeated column; then of the key, of each limit and of each foreign key an
/// unknown column and a repeated one, of the key and of a limit the number of columns, of a limit its n,
/// and of a foreign key an unknown table and another shape than the key of the table.
#[tactic(auto, unfolding(pq_schema::specs::Definitions::new_table))]
pub fn new_table(alloc: Global, catalog: &Catalog, def: &TableDef) -> Result<Table, Stopped>
    ensures { Answers result (new_table catalog.now def.now) }
{
    let columns = check_table(alloc, catalog, def)?;
    let table = table_with(alloc, catalog, columns, def)?;
    Ok(with_groups(alloc, table)?)
}

/// Adds the table that the definition makes, and answers its number, from 1. The refusals are
/// those of `new_table`. After an error the catalog is as before.
pub fn add_table(alloc: Global, catalog: &mut Catalog, def: TableDef) -> Result<u8, Stopped>
    requires { IsTableDef def }
    ensures added { IfOk result (AddsTable catalog.old def catalog.new) }
    ensures refused { IfErr result (λ stopped. Refuses stopped (new_table catalog.old def)) }
    ensures kept { OnErr result (catalog.new ≡ catalog.old) }
{
    catalog.known();
    let table = new_table(alloc, catalog, &def)?;
    catalog.push_table(alloc, table)?;
    Ok(catalog.tables().len() as u8)
}

/// Adds a query with the index that it wants, and answers the number of its definition, from 1. It is
/// refused where there are too many definitions, and where the name is taken. After an error the
/// catalog is as before.
pub fn add_query(
    alloc: Global,
    catalog: &mut Catalog,
    query: Query,
    wanted: Option<NewIndex>,
) -> Result<u16, Stopped>
    requires name { IsName query.name }
    requires resolved { IsResolved catalog.old.tables query }
    requires chosen { IsWanted catalog.old.tables query wanted }
    ensures added { IfOk result (AddsQuery catalog.old query wanted catalog.new) }
    ensures refused { IfErr result (λ stopped. Refuses stopped (new_query catalog.old query wanted)) }
    ensures kept { OnErr result (catalog.new ≡ catalog.old) }
{
    check_definition(alloc, catalog, &query.name)?;
    catalog.push_query(alloc, query, wanted)?;
    Ok(catalog.defs())
}
