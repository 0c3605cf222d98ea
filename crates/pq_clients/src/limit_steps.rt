//! The tests of limits of a write that holds its key, each with its one call.
ghost use Rattle.std.specs.Prelude.{◌≡◌, ◌≤◌, ◌+◌, ◌∷◌, ℕ, IfOk, nat_le, if◌then◌else◌};
ghost use Rattle.pq_clients.specs.Clients.{Testing, Flying};
ghost use Rattle.pq_clients.specs.Fitting.{IsTest};
ghost use Rattle.pq_clients.specs.Flights.{Flight, fresh_entries, test_refusal};
ghost use Rattle.pq_clients.specs.Goes.{Goes};
ghost use Rattle.pq_clients.specs.Seen.{seen_course};
ghost use Rattle.pq_clients.specs.Steps.{On, counted, has_room, testing, undoing};
ghost use Rattle.pq_clients.specs.InFlight.{tables_of, seen_flight, MayFly, spot_of, StepsFrom};

use crate::calls::count_pairs;
use crate::course::{flying, in_memory};
use crate::flight::InFlight;
use crate::halt::Halt;
use crate::limits::{test_refusal, tested_front, tested_n};
use crate::next::{refused, testing, with_place};
use crate::stage::Course;
use pq_base::NoMem;
use pq_store::{Meter, Store};
use std::alloc::Global;
use std::sync::ledger::Ledger;

/// The group has room.
fn roomy_led(alloc: Global, place: usize, left: &[usize], passed: &[usize]) -> Result<Course, NoMem>
    ensures { IfOk result (λ course. (f : Flight) → seen_course f course
        ≡ On (Flying f (testing left.now (place ∷ passed.now)))) }
{
    let all = with_place(alloc, place, passed)?;
    let stage = testing(alloc, left, all)?;
    Ok(flying(stage))
}

/// It has none.
fn full_led(alloc: Global, flight: &InFlight<'_>, place: usize) -> Result<Course, NoMem>
    requires write { MayFly flight.now }
    requires place { IsTest (tables_of flight.now) (seen_flight flight.now) place }
    ensures { IfOk result (λ course. seen_course (seen_flight flight.now) course
        ≡ On (Flying (seen_flight flight.now)
        (undoing (fresh_entries (tables_of flight.now) (seen_flight flight.now))
        (test_refusal (tables_of flight.now) (seen_flight flight.now) place)))) }
{
    let refusal = test_refusal(alloc, flight.catalog, flight.write, place)?;
    let stage = refused(alloc, flight, refusal)?;
    Ok(flying(stage))
}

fn test_led(
    alloc: Global,
    flight: &InFlight<'_>,
    place: usize,
    left: &[usize],
    passed: &[usize],
    room: bool,
) -> Result<Course, NoMem>
    requires write { MayFly flight.now }
    requires place { IsTest (tables_of flight.now) (seen_flight flight.now) place }
    ensures { IfOk result (λ course. seen_course (seen_flight flight.now) course
        ≡ (if room then On (Flying (seen_flight flight.now) (testing left.now (place ∷ passed.now)))
        else On (Flying (seen_flight flight.now)
        (undoing (fresh_entries (tables_of flight.now) (seen_flight flight.now))
        (test_refusal (tables_of flight.now) (seen_flight flight.now) place))))) }
{
    if room {
        return roomy_led(alloc, place, left, passed);
    }
    full_led(alloc, flight, place)
}

/// Whether the group has room.
fn has_room<S: Store<L>, L: Ledger>(
    alloc: Global,
    flight: &InFlight<'_>,
    place: usize,
    store: &mut S,
    meter: &mut Meter<L>,
) -> Result<bool, Halt>
    requires write { MayFly flight.now }
    requires place { IsTest (tables_of flight.now) (seen_flight flight.now) place }
    ensures { Goes (λ room. room) (λ c. (c, has_room (tables_of flight.now) (seen_flight flight.now) place c))
        (spot_of S.Store store.old meter.old) (spot_of S.Store store.new meter.new) result }
{
    match tested_front(alloc, flight, place) {
        Err(_) => Err(Halt::NoMem),
        Ok(front) => has_few(
            alloc,
            front.items(),
            tested_n(flight.catalog, flight.write, place),
            store,
            meter,
        ),
    }
}

fn has_few<S: Store<L>, L: Ledger>(
    alloc: Global,
    front: &[u8],
    most: u32,
    store: &mut S,
    meter: &mut Meter<L>,
) -> Result<bool, Halt>
    requires { most ≤ 10000 }
    ensures { Goes (λ room. room) (λ c. (c, nat_le (counted c front.now (most + 1)) most))
        (spot_of S.Store store.old meter.old) (spot_of S.Store store.new meter.new) result }
{
    match count_pairs(alloc, front, most + 1, store, meter) {
        Err(halt) => Err(halt),
        Ok(n) => Ok(n <= most),
    }
}

/// A test of a limit.
pub(crate) fn test_step<S: Store<L>, L: Ledger>(
    alloc: Global,
    flight: &InFlight<'_>,
    place: usize,
    left: &[usize],
    passed: &[usize],
    store: &mut S,
    meter: &mut Meter<L>,
) -> Result<Course, Halt>
    requires write { MayFly flight.now }
    requires place { IsTest (tables_of flight.now) (seen_flight flight.now) place }
    ensures { (client number : ℕ) → StepsFrom (tables_of flight.now) client number flight.now.write.now
        (Flying (seen_flight flight.now) (Testing place left.now passed.now)) (seen_flight flight.now)
        (spot_of S.Store store.old meter.old) (spot_of S.Store store.new meter.new) result }
{
    match has_room(alloc, flight, place, store, meter) {
        Err(halt) => Err(halt),
        Ok(room) => in_memory(test_led(alloc, flight, place, left, passed, room)),
    }
}
