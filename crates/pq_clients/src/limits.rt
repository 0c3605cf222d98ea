//! The limits that a write tests.
ghost use Rattle.std.specs.Prelude.{◌≡◌, ◌≤◌, ◌<◌, ◌+◌, ◌++◌, ◌∷◌, ◌&&◌, not, List as Items, length, All, IfOk, OnOk, IsSome};
ghost use Rattle.pq_base.specs.Columns.{set_of};
ghost use Rattle.pq_schema.specs.Sequences.{group_access};
ghost use Rattle.pq_schema.specs.declared.table.Limit.{Limit as Group};
ghost use Rattle.pq_schema.specs.Sound.{AreColumns};
ghost use Rattle.pq_content.specs.Tables.{cells};
ghost use Rattle.pq_index_keep.specs.Effects.{stays, limit_at, no_room};
ghost use Rattle.pq_row_keys.specs.Groups.{group_key};
ghost use Rattle.pq_clients.specs.Fitting.{MayWrite, IsMadeTable, HasColumns, IsTest, IsLate};
ghost use Rattle.pq_clients.specs.Flights.{table_of, is_tested, limit_tests, tests_of, flight_tests, tested_front};
ghost use Rattle.pq_clients.specs.InFlight.{tables_of, seen_flight, MayFly};

use crate::checks::{is_tested, known_write};
use crate::flight::InFlight;
use crate::rows::{new_row, old_row, table_number, table_of};
use pq_base::{Bytes, List, NoMem, Refusal, Row};
use pq_index_keep::{Write, no_room, stays};
use pq_row_keys::{group_key, values_at};
use pq_schema::{Catalog, Limit, Table};
use std::alloc::Global;

/// Whether a limit is tested: one of its columns is written, and the values at its columns change and none is NULL.
fn is_limit_tested(write: &Write, old: &Option<Row>, row: &Row, cols: &[u8]) -> bool
    requires cols { AreColumns cols.now }
    requires write { HasColumns write.now }
    ensures { result ≡ (is_tested write.now row.now cols.now && not (stays old.now row.now cols.now)) }
{
    is_tested(write, row, cols) && !stays(old, row, cols)
}

/// Puts the place of a limit behind the places, where it is tested.
fn put_test(
    alloc: Global,
    write: &Write,
    old: &Option<Row>,
    row: &Row,
    place: usize,
    limit: &Limit,
    places: &mut List<usize>,
) -> Result<(), NoMem>
    requires columns { AreColumns limit.now.cols }
    requires write { HasColumns write.now }
    ensures { OnOk result ((rest : Items Group) → places.new
        ++ limit_tests write.now old.now row.now (place + 1) rest
        ≡ places.old ++ limit_tests write.now old.now row.now place (limit.now ∷ rest)) }
{
    if is_limit_tested(write, old, row, limit.cols.items()) {
        places.push(alloc, place)
    } else {
        Ok(())
    }
}

/// Puts the places of the limits that are tested behind the places.
fn put_tests(
    alloc: Global,
    write: &Write,
    old: &Option<Row>,
    row: &Row,
    limits: &[Limit],
    places: &mut List<usize>,
) -> Result<(), NoMem>
    requires columns { All (λ limit. AreColumns limit.cols) limits.now }
    requires write { HasColumns write.now }
    ensures { OnOk result (places.new ≡ places.old ++ limit_tests write.now old.now row.now 0 limits.now) }
{
    for (place, limit) in limits.iter().enumerate() {
        put_test(alloc, write, old, row, place, limit, places)?;
    }
    Ok(())
}

fn tests_of(alloc: Global, flight: &InFlight<'_>, new: &Option<Row>) -> Result<List<usize>, NoMem>
    requires { MayWrite (tables_of flight.now) flight.now.write.now }
    ensures { IfOk result (λ places. places ≡ tests_of (tables_of flight.now) (seen_flight flight.now) new.now) }
{
    let mut places = List::new(alloc);
    match new {
        None => Ok(places),
        Some(row) => {
            known_write(flight.catalog, flight.write);
            let old = old_row(alloc, flight)?;
            let table = table_of(flight.catalog, flight.write);
            put_tests(
                alloc,
                flight.write,
                &old,
                row,
                table.limits.items(),
                &mut places,
            )?;
            Ok(places)
        }
    }
}

/// The places of the limits that the write tests.
#[tactic(auto, unfolding(crate::specs::Flights::flight_tests))]
pub(crate) fn flight_tests(alloc: Global, flight: &InFlight<'_>) -> Result<List<usize>, NoMem>
    requires { MayFly flight.now }
    ensures { IfOk result (λ places. places ≡ flight_tests (tables_of flight.now) (seen_flight flight.now)) }
{
    let new = new_row(alloc, flight)?;
    tests_of(alloc, flight, &new)
}

/// The beginning of the keys of the rows of a table that agree with a row at a limit's columns.
fn front_at(
    alloc: Global,
    number: u8,
    table: &Table,
    place: usize,
    row: &Row,
) -> Result<Bytes, NoMem>
    requires table { IsMadeTable table.now }
    requires place { place < length table.now.limits }
    ensures { IfOk result (λ front. front ≡ group_key number table.now (limit_at table.now place).cols
        (cells (limit_at table.now place).cols row.now)) }
{
    let limit = limit_of(table, place);
    let values = values_at(alloc, row.items(), limit.cols.items())?;
    group_key(alloc, number, table, limit.cols.items(), values.items())
}

/// The limit of this place.
fn limit_of(table: &Table, place: usize) -> &Limit
    requires table { IsMadeTable table.now }
    requires place { place < length table.now.limits }
    ensures limit { result.now ≡ limit_at table.now place }
    ensures columns { AreColumns result.now.cols }
    ensures access { IsSome (group_access table.now (set_of result.now.cols)) }
    ensures small { result.now.n ≤ 10000 }
{
    &table.limits.items()[place]
}

/// The beginning of the keys of the group that the new row comes into.
#[tactic(auto, unfolding(crate::specs::Flights::tested_front, crate::specs::Flights::group_front))]
pub(crate) fn tested_front(
    alloc: Global,
    flight: &InFlight<'_>,
    place: usize,
) -> Result<Bytes, NoMem>
    requires write { MayFly flight.now }
    requires place { IsTest (tables_of flight.now) (seen_flight flight.now) place }
    ensures { IfOk result (λ front. front ≡ tested_front (tables_of flight.now) (seen_flight flight.now) place) }
{
    match new_row(alloc, flight)? {
        None => Ok(Bytes::new(alloc)),
        Some(row) => front_at(
            alloc,
            table_number(flight.write),
            table_of(flight.catalog, flight.write),
            place,
            &row,
        ),
    }
}

/// The n of the limit of this place.
pub(crate) fn tested_n(catalog: &Catalog, write: &Write, place: usize) -> u32
    requires write { MayWrite catalog.now.tables write.now }
    requires place { place < length (table_of catalog.now.tables write.now).limits }
    ensures n { result ≡ (limit_at (table_of catalog.now.tables write.now) place).n }
    ensures small { result ≤ 10000 }
{
    limit_of(table_of(catalog, write), place).n
}

/// Why a write is refused whose group has no room.
pub(crate) fn test_refusal(
    alloc: Global,
    catalog: &Catalog,
    write: &Write,
    place: usize,
) -> Result<Refusal, NoMem>
    requires write { MayWrite catalog.now.tables write.now }
    requires place { place < length (table_of catalog.now.tables write.now).limits }
    ensures refusal { IfOk result (λ refusal. refusal ≡ no_room (table_of catalog.now.tables write.now) place) }
    ensures late { IfOk result IsLate }
{
    no_room(alloc, table_of(catalog, write), place)
}
