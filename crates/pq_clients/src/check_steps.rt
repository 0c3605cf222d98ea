//! The tests of parents and children of a write that holds its key, each with its one call.
ghost use Rattle.std.specs.Prelude.{◌≡◌, ◌==◌, ℕ, map, IfOk, is_some, if◌then◌else◌};
ghost use Rattle.std.specs.FinMap.{get};
ghost use Rattle.pq_clients.specs.Clients.{Checking, Releasing, Flying};
ghost use Rattle.pq_clients.specs.Fitting.{MayWrite, IsCheck};
ghost use Rattle.pq_clients.specs.Flights.{check_refusal};
ghost use Rattle.pq_clients.specs.Goes.{Goes};
ghost use Rattle.pq_clients.specs.Held.{present_row};
ghost use Rattle.pq_clients.specs.Seen.{seen_check, seen_course};
ghost use Rattle.pq_clients.specs.Steps.{On, counted, passes, checking};
ghost use Rattle.pq_clients.specs.InFlight.{tables_of, seen_flight, MayFly, spot_of, StepsFrom};

use crate::calls::{count_pairs, get_pair};
use crate::checks::check_refusal;
use crate::course::{flying, in_memory};
use crate::flight::InFlight;
use crate::halt::Halt;
use crate::held::is_present;
use crate::next::checking;
use crate::stage::{Check, Course, Stage};
use pq_base::{Bytes, NoMem};
use pq_schema::{Catalog, Table};
use pq_store::{Meter, Store};
use std::alloc::Global;
use std::sync::ledger::Ledger;

/// Whether the rows are as the test wants them.
fn passes<S: Store<L>, L: Ledger>(
    alloc: Global,
    catalog: &Catalog,
    check: &Check,
    store: &mut S,
    meter: &mut Meter<L>,
) -> Result<bool, Halt>
    requires { IsCheck catalog.now.tables (seen_check check.now) }
    ensures { Goes (λ passed. passed) (λ c. (c, passes catalog.now.tables (seen_check check.now) c))
        (spot_of S.Store store.old meter.old) (spot_of S.Store store.new meter.new) result }
{
    match check {
        Check::Parent { table, at, .. } => has_row(alloc, catalog.table(*table), at, store, meter),
        Check::Child { front, .. } => has_none(alloc, front, store, meter),
    }
}

fn has_row<S: Store<L>, L: Ledger>(
    alloc: Global,
    table: &Table,
    key: &Bytes,
    store: &mut S,
    meter: &mut Meter<L>,
) -> Result<bool, Halt>
    ensures { Goes (λ passed. passed) (λ c. (c, is_some (present_row table.now (get c key.now))))
        (spot_of S.Store store.old meter.old) (spot_of S.Store store.new meter.new) result }
{
    match get_pair(alloc, key.items(), store, meter) {
        Err(halt) => Err(halt),
        Ok(found) => in_memory(is_present(alloc, table, &found)),
    }
}

fn has_none<S: Store<L>, L: Ledger>(
    alloc: Global,
    front: &Bytes,
    store: &mut S,
    meter: &mut Meter<L>,
) -> Result<bool, Halt>
    ensures { Goes (λ passed. passed) (λ c. (c, counted c front.now 1 == 0))
        (spot_of S.Store store.old meter.old) (spot_of S.Store store.new meter.new) result }
{
    match count_pairs(alloc, front.items(), 1, store, meter) {
        Err(halt) => Err(halt),
        Ok(n) => Ok(n == 0),
    }
}

/// The write passed a test of parents or children.
fn passed_led(alloc: Global, flight: &InFlight<'_>, left: &[Check]) -> Result<Course, NoMem>
    requires { MayFly flight.now }
    ensures { IfOk result (λ course. seen_course (seen_flight flight.now) course
        ≡ On (Flying (seen_flight flight.now)
        (checking (tables_of flight.now) (seen_flight flight.now) (map seen_check left.now)))) }
{
    let stage = checking(alloc, flight, left)?;
    Ok(flying(stage))
}

/// It didn't pass it.
fn refused_led(alloc: Global, flight: &InFlight<'_>, check: &Check) -> Result<Course, NoMem>
    requires write { MayWrite (tables_of flight.now) flight.now.write.now }
    requires check { IsCheck (tables_of flight.now) (seen_check check.now) }
    ensures { IfOk result (λ course. seen_course (seen_flight flight.now) course
        ≡ On (Flying (seen_flight flight.now) (Releasing
        (check_refusal (tables_of flight.now) (seen_flight flight.now) (seen_check check.now))))) }
{
    let refusal = check_refusal(alloc, flight.catalog, flight.write, check)?;
    Ok(flying(Stage::Releasing { refusal }))
}

fn check_led(
    alloc: Global,
    flight: &InFlight<'_>,
    check: &Check,
    left: &[Check],
    passed: bool,
) -> Result<Course, NoMem>
    requires write { MayFly flight.now }
    requires check { IsCheck (tables_of flight.now) (seen_check check.now) }
    ensures { IfOk result (λ course. seen_course (seen_flight flight.now) course
        ≡ (if passed then On (Flying (seen_flight flight.now)
        (checking (tables_of flight.now) (seen_flight flight.now) (map seen_check left.now)))
        else On (Flying (seen_flight flight.now) (Releasing
        (check_refusal (tables_of flight.now) (seen_flight flight.now) (seen_check check.now)))))) }
{
    if passed {
        return passed_led(alloc, flight, left);
    }
    refused_led(alloc, flight, check)
}

/// A test of parents or children.
pub(crate) fn check_step<S: Store<L>, L: Ledger>(
    alloc: Global,
    flight: &InFlight<'_>,
    check: &Check,
    left: &[Check],
    store: &mut S,
    meter: &mut Meter<L>,
) -> Result<Course, Halt>
    requires write { MayFly flight.now }
    requires check { IsCheck (tables_of flight.now) (seen_check check.now) }
    ensures { (client number : ℕ) → StepsFrom (tables_of flight.now) client number flight.now.write.now
        (Flying (seen_flight flight.now) (Checking (seen_check check.now) (map seen_check left.now))) (seen_flight flight.now)
        (spot_of S.Store store.old meter.old) (spot_of S.Store store.new meter.new) result }
{
    match passes(alloc, flight.catalog, check, store, meter) {
        Err(halt) => Err(halt),
        Ok(passed) => in_memory(check_led(alloc, flight, check, left, passed)),
    }
}
