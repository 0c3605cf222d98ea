//! The steps that add and remove an entry, each with its one call.
ghost use Rattle.std.specs.Prelude.{[], ◌≡◌, ◌∷◌, ℕ, List as Items, IfOk};
ghost use Rattle.pq_schema.specs.declared.table.Table.{Table as Definition};
ghost use Rattle.pq_store.specs.Content.{written_content};
ghost use Rattle.pq_clients.specs.Clients.{Adding, Clearing, Undoing, Flying};
ghost use Rattle.pq_clients.specs.Fitting.{IsLate};
ghost use Rattle.pq_clients.specs.Flights.{Flight};
ghost use Rattle.pq_clients.specs.Goes.{Goes};
ghost use Rattle.pq_clients.specs.Seen.{seen_course};
ghost use Rattle.pq_clients.specs.Calling.{way};
ghost use Rattle.pq_clients.specs.Steps.{On, adding, clearing, undoing};
ghost use Rattle.pq_clients.specs.InFlight.{tables_of, seen_flight, MayFly, spot_of, StepsFrom};

use crate::calls::write_any;
use crate::course::flying;
use crate::entries::with_front;
use crate::flight::InFlight;
use crate::halt::Halt;
use crate::next::{adding, clearing, undoing};
use crate::stage::Course;
use pq_base::{Bytes, NoMem, Refusal};
use pq_store::{Meter, Store};
use std::alloc::Global;
use std::sync::ledger::Ledger;

/// A write over whatever is there.
fn write_entry<S: Store<L>, L: Ledger>(
    alloc: Global,
    entry: &Bytes,
    new: &Option<Bytes>,
    pass: Course,
    store: &mut S,
    meter: &mut Meter<L>,
) -> Result<Course, Halt>
    ensures goes { (f : Flight) → Goes (seen_course f) (λ c. (written_content entry.now new.now c, seen_course f pass))
        (spot_of S.Store store.old meter.old) (spot_of S.Store store.new meter.new) result }
    ensures way { IfOk result (λ course. (f : Flight) → seen_course f course ≡ seen_course f pass) }
{
    match write_any(alloc, entry.items(), new, store, meter) {
        Err(halt) => {
            drop(pass);
            Err(halt)
        }
        Ok(_) => Ok(pass),
    }
}

/// A write of an entry, which has no value.
fn write_empty<S: Store<L>, L: Ledger>(
    alloc: Global,
    entry: &Bytes,
    pass: Course,
    store: &mut S,
    meter: &mut Meter<L>,
) -> Result<Course, Halt>
    ensures goes { (f : Flight) → Goes (seen_course f)
        (λ c. (written_content entry.now (Some []) c, seen_course f pass))
        (spot_of S.Store store.old meter.old) (spot_of S.Store store.new meter.new) result }
    ensures way { IfOk result (λ course. (f : Flight) → seen_course f course ≡ seen_course f pass) }
{
    let new = Some(Bytes::new(alloc));
    write_entry(alloc, entry, &new, pass, store, meter)
}

fn add_led(
    alloc: Global,
    flight: &InFlight<'_>,
    entry: &Bytes,
    left: &[Bytes],
    added: &[Bytes],
) -> Result<Course, NoMem>
    requires { MayFly flight.now }
    ensures { IfOk result (λ course. seen_course (seen_flight flight.now) course
        ≡ On (Flying (seen_flight flight.now) (adding (tables_of flight.now) (seen_flight flight.now) left.now
        (entry.now ∷ added.now)))) }
{
    let added = with_front(alloc, entry, added)?;
    let stage = adding(alloc, flight, left, added)?;
    Ok(flying(stage))
}

/// The add of an entry.
pub(crate) fn add_step<S: Store<L>, L: Ledger>(
    alloc: Global,
    flight: &InFlight<'_>,
    entry: &Bytes,
    left: &[Bytes],
    added: &[Bytes],
    store: &mut S,
    meter: &mut Meter<L>,
) -> Result<Course, Halt>
    requires { MayFly flight.now }
    ensures { (client number : ℕ) → StepsFrom (tables_of flight.now) client number flight.now.write.now
        (Flying (seen_flight flight.now) (Adding entry.now left.now added.now)) (seen_flight flight.now)
        (spot_of S.Store store.old meter.old) (spot_of S.Store store.new meter.new) result }
{
    match add_led(alloc, flight, entry, left, added) {
        Err(_) => Err(Halt::NoMem),
        Ok(pass) => write_empty(alloc, entry, pass, store, meter),
    }
}

fn clear_led(alloc: Global, left: &[Bytes]) -> Result<Course, NoMem>
    ensures { IfOk result (λ course. (f : Flight) → seen_course f course ≡ On (Flying f (clearing left.now))) }
{
    let stage = clearing(alloc, left)?;
    Ok(flying(stage))
}

/// The removal of an entry of the old row.
pub(crate) fn clear_step<S: Store<L>, L: Ledger>(
    alloc: Global,
    entry: &Bytes,
    left: &[Bytes],
    store: &mut S,
    meter: &mut Meter<L>,
) -> Result<Course, Halt>
    ensures { (tables : Items Definition) (client number : ℕ) (f : Flight)
        → StepsFrom tables client number f.write (Flying f (Clearing entry.now left.now)) f
        (spot_of S.Store store.old meter.old) (spot_of S.Store store.new meter.new) result }
{
    match clear_led(alloc, left) {
        Err(_) => Err(Halt::NoMem),
        Ok(pass) => write_entry(alloc, entry, &None, pass, store, meter),
    }
}

/// The copy of a refusal that a test behind the take gave.
pub(crate) fn copy_refusal(alloc: Global, refusal: &Refusal) -> Result<Refusal, NoMem>
    requires { IsLate refusal.now }
    ensures { IfOk result (λ copy. copy ≡ refusal.now) }
{
    match refusal {
        Refusal::NoParent { table, number } => Ok(Refusal::NoParent {
            table: table.copy(alloc)?,
            number: *number,
        }),
        Refusal::Referenced { table, number } => Ok(Refusal::Referenced {
            table: table.copy(alloc)?,
            number: *number,
        }),
        Refusal::Cardinality { table, number, n } => Ok(Refusal::Cardinality {
            table: table.copy(alloc)?,
            number: *number,
            n: *n,
        }),
        _ => unreachable!(),
    }
}

fn undo_led(alloc: Global, left: &[Bytes], refusal: &Refusal) -> Result<Course, NoMem>
    requires { IsLate refusal.now }
    ensures { IfOk result (λ course. (f : Flight) → seen_course f course
        ≡ On (Flying f (undoing left.now refusal.now))) }
{
    let copy = copy_refusal(alloc, refusal)?;
    let stage = undoing(alloc, left, copy)?;
    Ok(flying(stage))
}

/// After a refusal the removal of an added entry.
pub(crate) fn undo_step<S: Store<L>, L: Ledger>(
    alloc: Global,
    entry: &Bytes,
    left: &[Bytes],
    refusal: &Refusal,
    store: &mut S,
    meter: &mut Meter<L>,
) -> Result<Course, Halt>
    requires { IsLate refusal.now }
    ensures { (tables : Items Definition) (client number : ℕ) (f : Flight)
        → StepsFrom tables client number f.write (Flying f (Undoing entry.now left.now refusal.now)) f
        (spot_of S.Store store.old meter.old) (spot_of S.Store store.new meter.new) result }
{
    match undo_led(alloc, left, refusal) {
        Err(_) => Err(Halt::NoMem),
        Ok(pass) => write_entry(alloc, entry, &None, pass, store, meter),
    }
}
