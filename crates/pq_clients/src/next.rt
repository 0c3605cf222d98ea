//! From one kind of step to the next one that there is.
ghost use Rattle.std.specs.Prelude.{◌≡◌, ◌∷◌, [], map, IfOk};
ghost use Rattle.pq_clients.specs.Seen.{seen_check, seen_stage};
ghost use Rattle.pq_clients.specs.Steps.{testing, adding, checking, clearing, undoing};
ghost use Rattle.pq_clients.specs.Flights.{fresh_entries, stale_entries, flight_checks, flight_tests};
ghost use Rattle.pq_clients.specs.InFlight.{tables_of, seen_flight, MayFly};

use crate::checks::{copy_check, copy_checks, flight_checks};
use crate::entries::{copy_key, copy_keys, fresh_entries, stale_entries};
use crate::flight::InFlight;
use crate::limits::flight_tests;
use crate::stage::{Check, Stage};
use pq_base::{Bytes, List, NoMem, Refusal};
use std::alloc::Global;

fn copy_places(alloc: Global, places: &[usize]) -> Result<List<usize>, NoMem>
    ensures { IfOk result (λ copy. copy ≡ places.now) }
{
    let mut copy = List::new(alloc);
    for place in places {
        copy.push(alloc, *place)?;
    }
    Ok(copy)
}

/// The place in front of the others.
pub(crate) fn with_place(
    alloc: Global,
    place: usize,
    places: &[usize],
) -> Result<List<usize>, NoMem>
    ensures { IfOk result (λ all. all ≡ place ∷ places.now) }
{
    let mut all = List::new(alloc);
    all.push(alloc, place)?;
    for other in places {
        all.push(alloc, *other)?;
    }
    Ok(all)
}

/// The test of the first of these limits, or the put.
pub(crate) fn testing(alloc: Global, left: &[usize], passed: List<usize>) -> Result<Stage, NoMem>
    ensures { IfOk result (λ stage. seen_stage stage ≡ testing left.now passed) }
{
    match left.split_first() {
        None => Ok(Stage::Putting),
        Some((place, rest)) => {
            let left = copy_places(alloc, rest)?;
            Ok(Stage::Testing {
                place: *place,
                left,
                passed,
            })
        }
    }
}

/// The first step behind the adds.
fn added_all(alloc: Global, flight: &InFlight<'_>) -> Result<Stage, NoMem>
    requires { MayFly flight.now }
    ensures { IfOk result (λ stage. seen_stage stage
        ≡ testing (flight_tests (tables_of flight.now) (seen_flight flight.now)) []) }
{
    let places = flight_tests(alloc, flight)?;
    testing(alloc, places.items(), List::new(alloc))
}

/// The add of the first of these entries, or what comes behind.
pub(crate) fn adding(
    alloc: Global,
    flight: &InFlight<'_>,
    left: &[Bytes],
    added: List<Bytes>,
) -> Result<Stage, NoMem>
    requires { MayFly flight.now }
    ensures { IfOk result (λ stage. seen_stage stage
        ≡ adding (tables_of flight.now) (seen_flight flight.now) left.now added) }
{
    match left.split_first() {
        None => added_all(alloc, flight),
        Some((entry, rest)) => {
            let entry = copy_key(alloc, entry)?;
            let left = copy_keys(alloc, rest)?;
            Ok(Stage::Adding { entry, left, added })
        }
    }
}

/// The first step behind the tests of parents and children.
fn checked_all(alloc: Global, flight: &InFlight<'_>) -> Result<Stage, NoMem>
    requires { MayFly flight.now }
    ensures { IfOk result (λ stage. seen_stage stage ≡ adding (tables_of flight.now) (seen_flight flight.now)
        (fresh_entries (tables_of flight.now) (seen_flight flight.now)) []) }
{
    let entries = fresh_entries(alloc, flight)?;
    adding(alloc, flight, entries.items(), List::new(alloc))
}

/// The first of these tests of parents or children, or what comes behind.
pub(crate) fn checking(alloc: Global, flight: &InFlight<'_>, left: &[Check]) -> Result<Stage, NoMem>
    requires { MayFly flight.now }
    ensures { IfOk result (λ stage. seen_stage stage
        ≡ checking (tables_of flight.now) (seen_flight flight.now) (map seen_check left.now)) }
{
    match left.split_first() {
        None => checked_all(alloc, flight),
        Some((check, rest)) => {
            let check = copy_check(alloc, check)?;
            let left = copy_checks(alloc, rest)?;
            Ok(Stage::Checking { check, left })
        }
    }
}

/// The first step behind the take.
pub(crate) fn taken(alloc: Global, flight: &InFlight<'_>) -> Result<Stage, NoMem>
    requires { MayFly flight.now }
    ensures { IfOk result (λ stage. seen_stage stage ≡ checking (tables_of flight.now) (seen_flight flight.now)
        (flight_checks (tables_of flight.now) (seen_flight flight.now))) }
{
    let checks = flight_checks(alloc, flight)?;
    checking(alloc, flight, checks.items())
}

/// The removal of the first of these entries, or the free.
pub(crate) fn clearing(alloc: Global, left: &[Bytes]) -> Result<Stage, NoMem>
    ensures { IfOk result (λ stage. seen_stage stage ≡ clearing left.now) }
{
    match left.split_first() {
        None => Ok(Stage::Freeing),
        Some((entry, rest)) => {
            let entry = copy_key(alloc, entry)?;
            let left = copy_keys(alloc, rest)?;
            Ok(Stage::Clearing { entry, left })
        }
    }
}

/// The first step behind the put.
pub(crate) fn put(alloc: Global, flight: &InFlight<'_>) -> Result<Stage, NoMem>
    requires { MayFly flight.now }
    ensures { IfOk result (λ stage. seen_stage stage
        ≡ clearing (stale_entries (tables_of flight.now) (seen_flight flight.now))) }
{
    let entries = stale_entries(alloc, flight)?;
    clearing(alloc, entries.items())
}

/// After a refusal the removal of the first of these entries, or the free with the old row.
pub(crate) fn undoing(alloc: Global, left: &[Bytes], refusal: Refusal) -> Result<Stage, NoMem>
    ensures { IfOk result (λ stage. seen_stage stage ≡ undoing left.now refusal) }
{
    match left.split_first() {
        None => Ok(Stage::Releasing { refusal }),
        Some((entry, rest)) => {
            let entry = copy_key(alloc, entry)?;
            let left = copy_keys(alloc, rest)?;
            Ok(Stage::Undoing {
                entry,
                left,
                refusal,
            })
        }
    }
}

/// After the refusal of a test the first step that undoes.
pub(crate) fn refused(
    alloc: Global,
    flight: &InFlight<'_>,
    refusal: Refusal,
) -> Result<Stage, NoMem>
    requires { MayFly flight.now }
    ensures { IfOk result (λ stage. seen_stage stage
        ≡ undoing (fresh_entries (tables_of flight.now) (seen_flight flight.now)) refusal) }
{
    let entries = fresh_entries(alloc, flight)?;
    undoing(alloc, entries.items(), refusal)
}
