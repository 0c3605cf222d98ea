//! The take of a key, with its one call.
ghost use Rattle.std.specs.Prelude.{Bool, ◌≡◌, IfOk, if◌then◌else◌};
ghost use Rattle.std.specs.FinMap.{get};
ghost use Rattle.pq_store.specs.Content.{written_content};
ghost use Rattle.pq_clients.specs.Clients.{Taking, Flying, Looking};
ghost use Rattle.pq_clients.specs.Fitting.{MayWrite};
ghost use Rattle.pq_clients.specs.Flights.{Flight, pair_key, flight_checks};
ghost use Rattle.pq_clients.specs.Goes.{Goes};
ghost use Rattle.pq_clients.specs.Held.{held_value};
ghost use Rattle.pq_clients.specs.Seen.{seen_course};
ghost use Rattle.pq_clients.specs.Calling.{way};
ghost use Rattle.pq_clients.specs.Steps.{On, is_just, checking};
ghost use Rattle.pq_clients.specs.InFlight.{tables_of, seen_flight, MayFly, spot_of, StepsFrom};

use crate::calls::write_over;
use crate::course::flying;
use crate::flight::{Holder, InFlight};
use crate::halt::Halt;
use crate::next::taken;
use crate::own_steps::own_value;
use crate::rows::pair_key;
use crate::stage::{Course, Phase};
use pq_base::{Bytes, NoMem};
use pq_store::{Meter, Store};
use std::alloc::Global;
use std::sync::ledger::Ledger;

fn take_led(alloc: Global, flight: &InFlight<'_>) -> Result<Course, NoMem>
    requires { MayFly flight.now }
    ensures { IfOk result (λ course. seen_course (seen_flight flight.now) course
        ≡ On (Flying (seen_flight flight.now) (checking (tables_of flight.now) (seen_flight flight.now)
        (flight_checks (tables_of flight.now) (seen_flight flight.now))))) }
{
    let stage = taken(alloc, flight)?;
    Ok(flying(stage))
}

fn take_parts(
    alloc: Global,
    flight: &InFlight<'_>,
    holder: Holder,
) -> Result<(Bytes, Option<Bytes>), NoMem>
    requires { MayWrite (tables_of flight.now) flight.now.write.now }
    ensures { IfOk result (λ parts. (parts.0 ≡ pair_key (tables_of flight.now) flight.now.write.now)
        × (parts.1 ≡ Some (held_value holder.client holder.number flight.now.read.now))) }
{
    let new = own_value(alloc, holder, flight.read)?;
    let key = pair_key(alloc, flight.catalog, flight.write)?;
    Ok((key, new))
}

/// It goes on where the take was made, and else the pair is looked at.
fn taken_or_not(done: bool, pass: Course) -> Course
    ensures { (f : Flight) → seen_course f result ≡ (if done then seen_course f pass else On (Looking f)) }
{
    if done {
        return pass;
    }
    drop(pass);
    Course::On {
        next: Phase::Looking,
    }
}

fn take_at<S: Store<L>, L: Ledger>(
    alloc: Global,
    key: &Bytes,
    read: &Option<Bytes>,
    new: &Option<Bytes>,
    pass: Course,
    store: &mut S,
    meter: &mut Meter<L>,
) -> Result<Course, Halt>
    ensures goes { (f : Flight) → Goes (seen_course f) (λ c. if is_just read.now (get c key.now)
        then (written_content key.now new.now c, seen_course f pass) else (c, On (Looking f)))
        (spot_of S.Store store.old meter.old) (spot_of S.Store store.new meter.new) result }
    ensures way { (f : Flight) → IfOk result (λ course. (b : Bool) × (seen_course f course
        ≡ (if b then seen_course f pass else On (Looking f)))) }
{
    match write_over(alloc, key.items(), read, new, store, meter) {
        Err(halt) => {
            drop(pass);
            Err(halt)
        }
        Ok(done) => Ok(taken_or_not(done, pass)),
    }
}

/// The take, behind which the write goes on so where it is made.
fn take_with<S: Store<L>, L: Ledger>(
    alloc: Global,
    flight: &InFlight<'_>,
    holder: Holder,
    pass: Course,
    store: &mut S,
    meter: &mut Meter<L>,
) -> Result<Course, Halt>
    requires write { MayWrite (tables_of flight.now) flight.now.write.now }
    requires pass { seen_course (seen_flight flight.now) pass
        ≡ On (Flying (seen_flight flight.now) (checking (tables_of flight.now) (seen_flight flight.now)
        (flight_checks (tables_of flight.now) (seen_flight flight.now)))) }
    ensures { StepsFrom (tables_of flight.now) holder.client holder.number flight.now.write.now
        (Taking (seen_flight flight.now)) (seen_flight flight.now)
        (spot_of S.Store store.old meter.old) (spot_of S.Store store.new meter.new) result }
{
    match take_parts(alloc, flight, holder) {
        Err(_) => {
            drop(pass);
            Err(Halt::NoMem)
        }
        Ok((key, new)) => take_at(alloc, &key, flight.read, &new, pass, store, meter),
    }
}

/// The take.
pub(crate) fn take<S: Store<L>, L: Ledger>(
    alloc: Global,
    flight: &InFlight<'_>,
    holder: Holder,
    store: &mut S,
    meter: &mut Meter<L>,
) -> Result<Course, Halt>
    requires { MayFly flight.now }
    ensures { StepsFrom (tables_of flight.now) holder.client holder.number flight.now.write.now
        (Taking (seen_flight flight.now)) (seen_flight flight.now)
        (spot_of S.Store store.old meter.old) (spot_of S.Store store.new meter.new) result }
{
    match take_led(alloc, flight) {
        Err(_) => Err(Halt::NoMem),
        Ok(pass) => take_with(alloc, flight, holder, pass, store, meter),
    }
}
