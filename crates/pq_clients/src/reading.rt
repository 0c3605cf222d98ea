//! The read of a write: what its answer leads to.
ghost use Rattle.std.specs.Prelude.{◌≡◌, ℕ, List as Items, Option, Some, None, true, IfOk, IfSome};
ghost use Rattle.std.specs.FinMap.{get};
ghost use Rattle.pq_base.specs.Values.{AllFit};
ghost use Rattle.pq_content.specs.Tables.{types_of};
ghost use Rattle.pq_index_keep.specs.Tested.{with_sets};
ghost use Rattle.pq_index_keep.specs.declared.write.Write.{Write as Written};
ghost use Rattle.pq_clients.specs.declared.outcome.Outcome.{Outcome};
ghost use Rattle.pq_clients.specs.Fitting.{MayWrite, IsUpdateOf};
ghost use Rattle.pq_clients.specs.Flights.{Flight, table_of, pair_key, row_refusal};
ghost use Rattle.pq_clients.specs.Goes.{Goes};
ghost use Rattle.pq_clients.specs.Held.{cell_of, is_held_value, decoded_row};
ghost use Rattle.pq_clients.specs.Seen.{flight, seen_course};
ghost use Rattle.pq_clients.specs.Clients.{Looking, Reading, Taking};
ghost use Rattle.pq_clients.specs.Steps.{Ends, On, or_refused, taking_short, after_row, after_code, after_cell, after_read, damaged, refused};
ghost use Rattle.pq_clients.specs.InFlight.{tables_of, seen_flight, spot_of, StepsFrom};

use crate::calls::get_pair;
use crate::course::in_memory;
use crate::entries::copy_found;
use crate::flight::InFlight;
use crate::halt::Halt;
use crate::held::{is_held_by_other, is_held_value};
use crate::rows::{code_len, decoded_row, pair_key, row_refusal, table_of, updated};
use crate::stage::{Course, Ending};
use pq_base::{Bytes, List, NoMem, Refusal, Row};
use pq_index_keep::{SetCol, Write};
use pq_schema::{Catalog, Table};
use pq_store::{Damage, Meter, Store};
use std::alloc::Global;
use std::sync::ledger::Ledger;

fn damaged(key: Bytes, value: Option<Bytes>) -> Course
    ensures { (w : Written) (read : Option (Items ℕ)) → seen_course (flight w read) result ≡ damaged key value }
{
    Course::Ends {
        ending: Ending::Damaged {
            damage: Damage { key, value },
        },
    }
}

fn refused(refusal: Refusal) -> Course
    ensures { (w : Written) (read : Option (Items ℕ)) → seen_course (flight w read) result ≡ refused refusal }
{
    Course::Ends {
        ending: Ending::Refused { refusal },
    }
}

fn no_row(alloc: Global, table: &Table) -> Result<Course, NoMem>
    ensures { IfOk result (λ course. (w : Written) (read : Option (Items ℕ)) → seen_course (flight w read) course
        ≡ refused (Refusal.NoRow table.now.name)) }
{
    Ok(refused(Refusal::NoRow {
        table: table.name.copy(alloc)?,
    }))
}

fn duplicate(alloc: Global, table: &Table) -> Result<Course, NoMem>
    ensures { IfOk result (λ course. (w : Written) (read : Option (Items ℕ)) → seen_course (flight w read) course
        ≡ refused (Refusal.DuplicateKey table.now.name)) }
{
    Ok(refused(Refusal::DuplicateKey {
        table: table.name.copy(alloc)?,
    }))
}

/// The take of an UPDATE by which the row isn't too long.
fn taking_short(
    alloc: Global,
    catalog: &Catalog,
    write: &Write,
    sets: &List<SetCol>,
    read: Option<Bytes>,
    old: &Row,
) -> Result<Course, NoMem>
    requires write { MayWrite catalog.now.tables write.now }
    requires update { IsUpdateOf write.now sets.now }
    requires granted { row_refusal catalog.now.tables write.now old.now ≡ None }
    requires fits { AllFit (types_of (table_of catalog.now.tables write.now)) old.now }
    ensures { IfOk result (λ course. (before : Option (Items ℕ)) → seen_course (flight write.now before) course
        ≡ taking_short catalog.now.tables (flight write.now read) (Some (with_sets sets.now old.now))) }
{
    let table = table_of(catalog, write);
    let new = updated(alloc, catalog, write, sets, old)?;
    let length = code_len(catalog, write, &new);
    if 4096 < length {
        let table = table.name.copy(alloc)?;
        return Ok(refused(Refusal::RowLong { table, length }));
    }
    Ok(Course::Takes { read })
}

/// Behind the read of an UPDATE that found a row.
fn after_update(
    alloc: Global,
    catalog: &Catalog,
    write: &Write,
    sets: &List<SetCol>,
    read: Option<Bytes>,
    old: &Row,
) -> Result<Course, NoMem>
    requires write { MayWrite catalog.now.tables write.now }
    requires update { IsUpdateOf write.now sets.now }
    requires fits { AllFit (types_of (table_of catalog.now.tables write.now)) old.now }
    ensures { IfOk result (λ course. (before : Option (Items ℕ)) → seen_course (flight write.now before) course
        ≡ or_refused (row_refusal catalog.now.tables write.now old.now)
        (taking_short catalog.now.tables (flight write.now read) (Some (with_sets sets.now old.now)))) }
{
    match row_refusal(alloc, catalog, write, old)? {
        Some(refusal) => Ok(refused(refusal)),
        None => taking_short(alloc, catalog, write, sets, read, old),
    }
}

/// Behind the read of a DELETE that found a row.
fn after_delete(
    alloc: Global,
    catalog: &Catalog,
    write: &Write,
    read: Option<Bytes>,
    old: &Row,
) -> Result<Course, NoMem>
    requires write { MayWrite catalog.now.tables write.now }
    requires fits { AllFit (types_of (table_of catalog.now.tables write.now)) old.now }
    ensures { IfOk result (λ course. (before : Option (Items ℕ)) → seen_course (flight write.now before) course
        ≡ or_refused (row_refusal catalog.now.tables write.now old.now) (On (Taking (flight write.now read)))) }
{
    if let Some(refusal) = row_refusal(alloc, catalog, write, old)? {
        return Ok(refused(refusal));
    }
    Ok(Course::Takes { read })
}

/// Behind a read that found this row or none.
fn after_row(
    alloc: Global,
    catalog: &Catalog,
    write: &Write,
    read: Option<Bytes>,
    old: Option<Row>,
) -> Result<Course, NoMem>
    requires write { MayWrite catalog.now.tables write.now }
    requires fits { IfSome old (AllFit (types_of (table_of catalog.now.tables write.now))) }
    ensures { IfOk result (λ course. (before : Option (Items ℕ)) → seen_course (flight write.now before) course
        ≡ after_row catalog.now.tables write.now read old) }
{
    match old {
        None => match write {
            Write::Insert { .. } => Ok(Course::Takes { read }),
            Write::Update { .. } | Write::Delete { .. } => no_row(alloc, table_of(catalog, write)),
        },
        Some(old) => match write {
            Write::Insert { .. } => duplicate(alloc, table_of(catalog, write)),
            Write::Update { sets, .. } => after_update(alloc, catalog, write, sets, read, &old),
            Write::Delete { .. } => after_delete(alloc, catalog, write, read, &old),
        },
    }
}

/// Behind a read that found a value without the mark.
fn after_code(
    alloc: Global,
    catalog: &Catalog,
    write: &Write,
    key: Bytes,
    code: Bytes,
) -> Result<Course, NoMem>
    requires write { MayWrite catalog.now.tables write.now }
    requires key { key ≡ pair_key catalog.now.tables write.now }
    ensures { IfOk result (λ course. (before : Option (Items ℕ)) → seen_course (flight write.now before) course
        ≡ after_code catalog.now.tables write.now code
        (decoded_row (table_of catalog.now.tables write.now) code)) }
{
    match decoded_row(alloc, table_of(catalog, write), code.items())? {
        None => Ok(damaged(key, Some(code))),
        Some(row) => after_row(alloc, catalog, write, Some(code), Some(row)),
    }
}

/// Behind a read that found a value with the mark.
#[tactic(auto, unfolding(crate::specs::Held::cell_of))]
fn after_held(
    alloc: Global,
    catalog: &Catalog,
    client: u32,
    write: &Write,
    key: Bytes,
    value: Bytes,
) -> Result<Course, NoMem>
    requires write { MayWrite catalog.now.tables write.now }
    requires key { key ≡ pair_key catalog.now.tables write.now }
    requires held { is_held_value value ≡ true }
    ensures { IfOk result (λ course. (before : Option (Items ℕ)) → seen_course (flight write.now before) course
        ≡ after_cell catalog.now.tables client write.now value (cell_of value)) }
{
    let table = table_of(catalog, write);
    if is_held_by_other(alloc, table, client, value.items())? {
        Ok(Course::Ends {
            ending: Ending::Busy { found: value },
        })
    } else {
        Ok(damaged(key, Some(value)))
    }
}

/// Behind a read that found this.
#[tactic(auto, unfolding(crate::specs::Held::cell_of))]
fn after_read(
    alloc: Global,
    catalog: &Catalog,
    client: u32,
    write: &Write,
    key: Bytes,
    found: Option<Bytes>,
) -> Result<Course, NoMem>
    requires write { MayWrite catalog.now.tables write.now }
    requires key { key ≡ pair_key catalog.now.tables write.now }
    ensures { IfOk result (λ course. (before : Option (Items ℕ)) → seen_course (flight write.now before) course
        ≡ after_read catalog.now.tables client write.now found) }
{
    match found {
        None => after_row(alloc, catalog, write, None, None),
        Some(value) => {
            if is_held_value(value.items()) {
                after_held(alloc, catalog, client, write, key, value)
            } else {
                after_code(alloc, catalog, write, key, value)
            }
        }
    }
}

/// The read, at the key of the row's pair.
fn read_at<S: Store<L>, L: Ledger>(
    alloc: Global,
    catalog: &Catalog,
    client: u32,
    write: &Write,
    key: Bytes,
    store: &mut S,
    meter: &mut Meter<L>,
) -> Result<Course, Halt>
    requires write { MayWrite catalog.now.tables write.now }
    requires key { key ≡ pair_key catalog.now.tables write.now }
    ensures { (number : ℕ) (before : Option (Items ℕ)) → StepsFrom catalog.now.tables client number write.now Reading
        (flight write.now before)
        (spot_of S.Store store.old meter.old) (spot_of S.Store store.new meter.new) result }
{
    match get_pair(alloc, key.items(), store, meter) {
        Err(halt) => Err(halt),
        Ok(found) => in_memory(after_read(alloc, catalog, client, write, key, found)),
    }
}

/// The read.
pub(crate) fn read<S: Store<L>, L: Ledger>(
    alloc: Global,
    catalog: &Catalog,
    client: u32,
    write: &Write,
    store: &mut S,
    meter: &mut Meter<L>,
) -> Result<Course, Halt>
    requires write { MayWrite catalog.now.tables write.now }
    ensures { (number : ℕ) (before : Option (Items ℕ)) → StepsFrom catalog.now.tables client number write.now Reading
        (flight write.now before)
        (spot_of S.Store store.old meter.old) (spot_of S.Store store.new meter.new) result }
{
    match pair_key(alloc, catalog, write) {
        Err(_) => Err(Halt::NoMem),
        Ok(key) => read_at(alloc, catalog, client, write, key, store, meter),
    }
}

fn look_at<S: Store<L>, L: Ledger>(
    alloc: Global,
    key: &Bytes,
    read: Option<Bytes>,
    store: &mut S,
    meter: &mut Meter<L>,
) -> Result<Course, Halt>
    ensures goes { (f : Flight) → Goes (seen_course f) (λ c. (c, Ends (Outcome.Conflict read (get c key.now))))
        (spot_of S.Store store.old meter.old) (spot_of S.Store store.new meter.new) result }
    ensures way { (f : Flight) → IfOk result (λ course. (found : Option (Items ℕ))
        × (seen_course f course ≡ Ends (Outcome.Conflict read found))) }
{
    match get_pair(alloc, key.items(), store, meter) {
        Err(halt) => {
            drop(read);
            Err(halt)
        }
        Ok(found) => Ok(Course::Ends {
            ending: Ending::Conflict { read, found },
        }),
    }
}

fn look_by(alloc: Global, flight: &InFlight<'_>) -> Result<(Bytes, Option<Bytes>), NoMem>
    requires { MayWrite (tables_of flight.now) flight.now.write.now }
    ensures { IfOk result (λ made. (made.0 ≡ pair_key (tables_of flight.now) flight.now.write.now) × (made.1 ≡ flight.now.read.now)) }
{
    let key = pair_key(alloc, flight.catalog, flight.write)?;
    let copy = copy_found(alloc, flight.read)?;
    Ok((key, copy))
}

/// The get after a take that answered false.
pub(crate) fn look<S: Store<L>, L: Ledger>(
    alloc: Global,
    flight: &InFlight<'_>,
    store: &mut S,
    meter: &mut Meter<L>,
) -> Result<Course, Halt>
    requires { MayWrite (tables_of flight.now) flight.now.write.now }
    ensures { (client number : ℕ) (f : Flight) → StepsFrom (tables_of flight.now) client number flight.now.write.now
        (Looking (seen_flight flight.now)) f
        (spot_of S.Store store.old meter.old) (spot_of S.Store store.new meter.new) result }
{
    match look_by(alloc, flight) {
        Err(_) => Err(Halt::NoMem),
        Ok((key, copy)) => look_at(alloc, &key, copy, store, meter),
    }
}
