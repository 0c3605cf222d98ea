//! The rows that a write's row names, and those that name it: which of them are tested.
ghost use Rattle.std.specs.Prelude.{◌≡◌, ◌≤◌, ◌+◌, ◌++◌, ◌∷◌, List as Items, Option, ℕ, map, length, All, IfOk, OnOk, IsSome};
ghost use Rattle.pq_base.specs.Columns.{set_of};
ghost use Rattle.pq_content.specs.Tables.{cells};
ghost use Rattle.pq_row_keys.specs.Groups.{group_key};
ghost use Rattle.pq_key_code.specs.KeyCode.{row_key};
ghost use Rattle.pq_schema.specs.Sequences.{group_access};
ghost use Rattle.pq_schema.specs.declared.table.Foreign.{Foreign as Key};
ghost use Rattle.pq_schema.specs.Sound.{AreColumns};
ghost use Rattle.pq_index_keep.specs.Sound.{AreWritable};
ghost use Rattle.pq_clients.specs.Fitting.{MayWrite, IsMadeTable, HasColumns, IsCheck, IsLate};
ghost use Rattle.pq_clients.specs.Flights.{Parent, Child, key_written, gives, is_tested, parent_checks, child_checks_of, child_checks, checks_of, flight_checks, check_refusal};
ghost use Rattle.pq_clients.specs.Seen.{flight, seen_check};
ghost use Rattle.pq_clients.specs.InFlight.{tables_of, seen_flight, MayFly};

use crate::flight::InFlight;
use crate::rows::{new_row, table_number, table_of};
use crate::stage::Check;
use pq_base::{Bytes, List, NoMem, Refusal, Row};
use pq_index_keep::{Scope, Write, no_parent, referenced};
use pq_row_keys::{group_key, key_at, null_at, values_at};
use pq_schema::{Catalog, Foreign, Table};
use std::alloc::Global;

/// Tells a proof that the columns that a write sets are those of a set of columns.
pub(crate) fn known_write(catalog: &Catalog, write: &Write)
    requires { MayWrite catalog.now.tables write.now }
    ensures { HasColumns write.now }
{}

/// Whether the write gives one of these columns a value.
fn gives(write: &Write, cols: &[u8]) -> bool
    requires cols { AreColumns cols.now }
    requires write { HasColumns write.now }
    ensures { result ≡ gives write.now cols.now }
{
    match write {
        Write::Insert { .. } => true,
        Write::Update { sets, .. } => Scope::of(sets.items()).touches(cols),
        Write::Delete { .. } => false,
    }
}

/// Whether the write tests what the row that it makes has at these columns: it gives one of them a value, and
/// none is NULL.
pub(crate) fn is_tested(write: &Write, row: &Row, cols: &[u8]) -> bool
    requires cols { AreColumns cols.now }
    requires write { HasColumns write.now }
    ensures { result ≡ is_tested write.now row.now cols.now }
{
    gives(write, cols) && !null_at(cols, row.items())
}

fn parent_check(alloc: Global, place: usize, foreign: &Foreign, row: &Row) -> Result<Check, NoMem>
    ensures { IfOk result (λ check. seen_check check ≡ Parent place foreign.now.table
        (row_key foreign.now.table (cells foreign.now.cols row.now))) }
{
    let table = foreign.table;
    let at = key_at(alloc, table, foreign.cols.items(), row.items())?;
    Ok(Check::Parent { place, table, at })
}

/// Puts the row that a foreign key names behind the checks, where the key is tested.
fn put_parent(
    alloc: Global,
    write: &Write,
    row: &Row,
    place: usize,
    foreign: &Foreign,
    checks: &mut List<Check>,
) -> Result<(), NoMem>
    requires columns { AreColumns foreign.now.cols }
    requires write { HasColumns write.now }
    ensures { OnOk result ((rest : Items Key) → map seen_check checks.new
        ++ parent_checks write.now row.now (place + 1) rest
        ≡ map seen_check checks.old ++ parent_checks write.now row.now place (foreign.now ∷ rest)) }
{
    if is_tested(write, row, foreign.cols.items()) {
        checks.push(alloc, parent_check(alloc, place, foreign, row)?)
    } else {
        Ok(())
    }
}

/// Puts the rows that the row names behind the checks.
fn put_parents(
    alloc: Global,
    write: &Write,
    row: &Row,
    foreign: &[Foreign],
    checks: &mut List<Check>,
) -> Result<(), NoMem>
    requires columns { All (λ f. AreColumns f.cols) foreign.now }
    requires write { HasColumns write.now }
    ensures { OnOk result (map seen_check checks.new
        ≡ map seen_check checks.old ++ parent_checks write.now row.now 0 foreign.now) }
{
    for (place, own) in foreign.iter().enumerate() {
        put_parent(alloc, write, row, place, own, checks)?;
    }
    Ok(())
}

fn child_check(
    alloc: Global,
    number: u8,
    table: &Table,
    place: usize,
    foreign: &Foreign,
    key: &Row,
) -> Result<Check, NoMem>
    requires table { IsMadeTable table.now }
    requires columns { AreColumns foreign.now.cols }
    requires access { IsSome (group_access table.now (set_of foreign.now.cols)) }
    ensures { IfOk result (λ check. seen_check check
        ≡ Child number place (group_key number table.now foreign.now.cols key.now)) }
{
    let front = group_key(alloc, number, table, foreign.cols.items(), key.items())?;
    Ok(Check::Child {
        table: number,
        place,
        front,
    })
}

/// A row that others may name: its table's number, and its key.
#[derive(Clone, Copy)]
struct Named<'a> {
    table: u8,
    key: &'a Row,
}

/// Puts the rows that name a row by a foreign key behind the checks, where it refers to the row's table.
fn put_child(
    alloc: Global,
    named: &Named<'_>,
    number: u8,
    table: &Table,
    place: usize,
    foreign: &Foreign,
    checks: &mut List<Check>,
) -> Result<(), NoMem>
    requires table { IsMadeTable table.now }
    requires columns { AreColumns foreign.now.cols }
    requires access { IsSome (group_access table.now (set_of foreign.now.cols)) }
    ensures { OnOk result ((rest : Items Key) → map seen_check checks.new
        ++ child_checks_of named.now.table named.now.key.now number table.now (place + 1) rest
        ≡ map seen_check checks.old
        ++ child_checks_of named.now.table named.now.key.now number table.now place (foreign.now ∷ rest)) }
{
    if foreign.table == named.table {
        checks.push(
            alloc,
            child_check(alloc, number, table, place, foreign, named.key)?,
        )
    } else {
        Ok(())
    }
}

/// Puts the rows of one table that name a row behind the checks.
fn put_children_of(
    alloc: Global,
    named: &Named<'_>,
    number: u8,
    table: &Table,
    foreign: &[Foreign],
    checks: &mut List<Check>,
) -> Result<(), NoMem>
    requires table { IsMadeTable table.now }
    requires columns { All (λ f. AreColumns f.cols) foreign.now }
    requires access { All (λ f. IsSome (group_access table.now (set_of f.cols))) foreign.now }
    ensures { OnOk result (map seen_check checks.new
        ≡ map seen_check checks.old ++ child_checks_of named.now.table named.now.key.now number table.now 0 foreign.now) }
{
    for (place, own) in foreign.iter().enumerate() {
        put_child(alloc, named, number, table, place, own, checks)?;
    }
    Ok(())
}

/// Puts the rows that name a row behind the checks.
fn put_children(
    alloc: Global,
    named: &Named<'_>,
    tables: &[Table],
    checks: &mut List<Check>,
) -> Result<(), NoMem>
    requires sound { AreWritable tables.now }
    requires few { length tables.now ≤ 64 }
    ensures { OnOk result (map seen_check checks.new
        ≡ map seen_check checks.old ++ child_checks named.now.table named.now.key.now 1 tables.now) }
{
    for (i, table) in tables.iter().enumerate() {
        let foreign = table.foreign.items();
        put_children_of(alloc, named, i as u8 + 1, table, foreign, checks)?;
    }
    Ok(())
}

/// The key of the row that is written.
fn key_written(alloc: Global, catalog: &Catalog, write: &Write) -> Result<Row, NoMem>
    requires { MayWrite catalog.now.tables write.now }
    ensures { IfOk result (λ key. key ≡ key_written catalog.now.tables write.now) }
{
    match write {
        Write::Insert { row, .. } => values_at(
            alloc,
            row.items(),
            table_of(catalog, write).key.items(),
        ),
        Write::Update { key, .. } | Write::Delete { key, .. } => key.copy(alloc),
    }
}

fn checks_of(
    alloc: Global,
    catalog: &Catalog,
    write: &Write,
    new: &Option<Row>,
) -> Result<List<Check>, NoMem>
    requires { MayWrite catalog.now.tables write.now }
    ensures { IfOk result (λ checks. map seen_check checks
        ≡ checks_of catalog.now.tables write.now new.now) }
{
    let mut checks = List::new(alloc);
    match new {
        Some(row) => {
            known_write(catalog, write);
            let table = table_of(catalog, write);
            put_parents(alloc, write, row, table.foreign.items(), &mut checks)?;
        }
        None => {
            let key = key_written(alloc, catalog, write)?;
            let named = Named {
                table: table_number(write),
                key: &key,
            };
            put_children(alloc, &named, catalog.tables(), &mut checks)?;
        }
    }
    Ok(checks)
}

/// What the write tests of parents or children.
#[tactic(auto, unfolding(crate::specs::Flights::flight_checks))]
pub(crate) fn flight_checks(alloc: Global, flight: &InFlight<'_>) -> Result<List<Check>, NoMem>
    requires { MayFly flight.now }
    ensures { IfOk result (λ checks. map seen_check checks
        ≡ flight_checks (tables_of flight.now) (seen_flight flight.now)) }
{
    let new = new_row(alloc, flight)?;
    checks_of(alloc, flight.catalog, flight.write, &new)
}

/// Why a write is refused that doesn't pass.
pub(crate) fn check_refusal(
    alloc: Global,
    catalog: &Catalog,
    write: &Write,
    check: &Check,
) -> Result<Refusal, NoMem>
    requires write { MayWrite catalog.now.tables write.now }
    requires check { IsCheck catalog.now.tables (seen_check check.now) }
    ensures refusal { IfOk result (λ refusal. (read : Option (Items ℕ)) → refusal
        ≡ check_refusal catalog.now.tables (flight write.now read) (seen_check check.now)) }
    ensures late { IfOk result IsLate }
{
    match check {
        Check::Parent { place, .. } => no_parent(alloc, table_of(catalog, write), *place),
        Check::Child { table, place, .. } => referenced(alloc, catalog.table(*table), *place),
    }
}

pub(crate) fn copy_check(alloc: Global, check: &Check) -> Result<Check, NoMem>
    ensures { IfOk result (λ copy. copy ≡ check.now) }
{
    match check {
        Check::Parent { place, table, at } => Ok(Check::Parent {
            place: *place,
            table: *table,
            at: Bytes::of_bytes(alloc, at.items())?,
        }),
        Check::Child {
            table,
            place,
            front,
        } => Ok(Check::Child {
            table: *table,
            place: *place,
            front: Bytes::of_bytes(alloc, front.items())?,
        }),
    }
}

pub(crate) fn copy_checks(alloc: Global, checks: &[Check]) -> Result<List<Check>, NoMem>
    ensures { IfOk result (λ copy. copy ≡ checks.now) }
{
    let mut copy = List::new(alloc);
    for check in checks {
        copy.push(alloc, copy_check(alloc, check)?)?;
    }
    Ok(copy)
}
