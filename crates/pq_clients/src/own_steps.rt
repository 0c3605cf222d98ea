//! The put, the free and the free after a refusal: writes of the own pair, each with its one call.
ghost use Rattle.std.specs.Prelude.{Bool, ◌≡◌, IfOk, if◌then◌else◌};
ghost use Rattle.std.specs.FinMap.{get};
ghost use Rattle.pq_store.specs.Content.{written_content};
ghost use Rattle.pq_clients.specs.Clients.{Putting, Freeing, Releasing, Flying};
ghost use Rattle.pq_clients.specs.Fitting.{MayWrite, IsLate};
ghost use Rattle.pq_clients.specs.Flights.{Flight, pair_key, new_code, stale_entries};
ghost use Rattle.pq_clients.specs.Goes.{Goes};
ghost use Rattle.pq_clients.specs.Held.{held_value};
ghost use Rattle.pq_clients.specs.Seen.{seen_course};
ghost use Rattle.pq_clients.specs.Calling.{way};
ghost use Rattle.pq_clients.specs.Steps.{Puts, is_just, damaged, clearing};
ghost use Rattle.pq_clients.specs.InFlight.{tables_of, seen_flight, MayFly, spot_of, StepsFrom};

use crate::calls::write_over;
use crate::entry_steps::copy_refusal;
use crate::flight::{Holder, InFlight};
use crate::halt::Halt;
use crate::held::held_value;
use crate::next::put;
use crate::rows::{new_code, pair_key};
use crate::stage::{Course, Ending, Phase};
use pq_base::{Bytes, NoMem, Refusal};
use pq_store::{Damage, Meter, Store};
use std::alloc::Global;
use std::sync::ledger::Ledger;

fn lost(key: Bytes) -> Course
    ensures { (f : Flight) → seen_course f result ≡ damaged key None }
{
    Course::Ends {
        ending: Ending::Damaged {
            damage: Damage { key, value: None },
        },
    }
}

/// It goes on where the write was made, and else the own value is gone.
fn kept_or_lost(done: bool, key: Bytes, pass: Course) -> Course
    ensures { (f : Flight) → seen_course f result ≡ (if done then seen_course f pass else damaged key None) }
{
    if done {
        return pass;
    }
    drop(pass);
    lost(key)
}

fn write_guarded<S: Store<L>, L: Ledger>(
    alloc: Global,
    key: Bytes,
    expected: &Option<Bytes>,
    new: &Option<Bytes>,
    pass: Course,
    store: &mut S,
    meter: &mut Meter<L>,
) -> Result<Course, Halt>
    ensures goes { (f : Flight) → Goes (seen_course f) (λ c. if is_just expected.now (get c key)
        then (written_content key new.now c, seen_course f pass) else (c, damaged key None))
        (spot_of S.Store store.old meter.old) (spot_of S.Store store.new meter.new) result }
    ensures way { (f : Flight) → IfOk result (λ course. (b : Bool) × (seen_course f course
        ≡ (if b then seen_course f pass else damaged key None))) }
{
    match write_over(alloc, key.items(), expected, new, store, meter) {
        Err(halt) => {
            drop(pass);
            Err(halt)
        }
        Ok(done) => Ok(kept_or_lost(done, key, pass)),
    }
}

pub(crate) fn own_value(
    alloc: Global,
    holder: Holder,
    present: &Option<Bytes>,
) -> Result<Option<Bytes>, NoMem>
    ensures { IfOk result (λ own. own ≡ Some (held_value holder.client holder.number present.now)) }
{
    Ok(Some(held_value(alloc, holder.client, holder.number, present)?))
}

/// The held value with the row that is put.
fn put_value(alloc: Global, flight: &InFlight<'_>, holder: Holder) -> Result<Option<Bytes>, NoMem>
    requires { MayFly flight.now }
    ensures { IfOk result (λ new. new ≡ Some (held_value holder.client holder.number
        (new_code (tables_of flight.now) (seen_flight flight.now)))) }
{
    let code = new_code(alloc, flight)?;
    own_value(alloc, holder, &code)
}

/// The key of the own pair, the own held value, and the value that is put over it.
fn put_parts(
    alloc: Global,
    flight: &InFlight<'_>,
    holder: Holder,
) -> Result<(Bytes, Option<Bytes>, Option<Bytes>), NoMem>
    requires { MayFly flight.now }
    ensures { IfOk result (λ parts. (parts.0 ≡ pair_key (tables_of flight.now) flight.now.write.now)
        × (parts.1 ≡ Some (held_value holder.client holder.number flight.now.read.now))
        × (parts.2 ≡ Some (held_value holder.client holder.number
        (new_code (tables_of flight.now) (seen_flight flight.now))))) }
{
    let new = put_value(alloc, flight, holder)?;
    let key = pair_key(alloc, flight.catalog, flight.write)?;
    let own = own_value(alloc, holder, flight.read)?;
    Ok((key, own, new))
}

fn put_led(alloc: Global, flight: &InFlight<'_>) -> Result<Course, NoMem>
    requires { MayFly flight.now }
    ensures { IfOk result (λ course. seen_course (seen_flight flight.now) course
        ≡ Puts (Flying (seen_flight flight.now) (clearing
        (stale_entries (tables_of flight.now) (seen_flight flight.now))))) }
{
    let stage = put(alloc, flight)?;
    Ok(Course::Puts {
        next: Phase::Flying { stage },
    })
}

/// The put, behind which the write goes on so.
fn put_with<S: Store<L>, L: Ledger>(
    alloc: Global,
    flight: &InFlight<'_>,
    holder: Holder,
    pass: Course,
    store: &mut S,
    meter: &mut Meter<L>,
) -> Result<Course, Halt>
    requires write { MayFly flight.now }
    requires pass { seen_course (seen_flight flight.now) pass
        ≡ Puts (Flying (seen_flight flight.now) (clearing
        (stale_entries (tables_of flight.now) (seen_flight flight.now)))) }
    ensures { StepsFrom (tables_of flight.now) holder.client holder.number flight.now.write.now
        (Flying (seen_flight flight.now) Putting) (seen_flight flight.now)
        (spot_of S.Store store.old meter.old) (spot_of S.Store store.new meter.new) result }
{
    match put_parts(alloc, flight, holder) {
        Err(_) => {
            drop(pass);
            Err(Halt::NoMem)
        }
        Ok((key, own, new)) => write_guarded(alloc, key, &own, &new, pass, store, meter),
    }
}

/// The put.
pub(crate) fn put_step<S: Store<L>, L: Ledger>(
    alloc: Global,
    flight: &InFlight<'_>,
    holder: Holder,
    store: &mut S,
    meter: &mut Meter<L>,
) -> Result<Course, Halt>
    requires { MayFly flight.now }
    ensures { StepsFrom (tables_of flight.now) holder.client holder.number flight.now.write.now
        (Flying (seen_flight flight.now) Putting) (seen_flight flight.now)
        (spot_of S.Store store.old meter.old) (spot_of S.Store store.new meter.new) result }
{
    match put_led(alloc, flight) {
        Err(_) => Err(Halt::NoMem),
        Ok(pass) => put_with(alloc, flight, holder, pass, store, meter),
    }
}

/// The key of the own pair, the own held value with the row that was put, and that row's code.
fn free_parts(
    alloc: Global,
    flight: &InFlight<'_>,
    holder: Holder,
) -> Result<(Bytes, Option<Bytes>, Option<Bytes>), NoMem>
    requires { MayFly flight.now }
    ensures { IfOk result (λ parts. (parts.0 ≡ pair_key (tables_of flight.now) flight.now.write.now)
        × (parts.1 ≡ Some (held_value holder.client holder.number
        (new_code (tables_of flight.now) (seen_flight flight.now))))
        × (parts.2 ≡ new_code (tables_of flight.now) (seen_flight flight.now))) }
{
    let code = new_code(alloc, flight)?;
    let key = pair_key(alloc, flight.catalog, flight.write)?;
    let own = own_value(alloc, holder, &code)?;
    Ok((key, own, code))
}

/// The free.
pub(crate) fn free_step<S: Store<L>, L: Ledger>(
    alloc: Global,
    flight: &InFlight<'_>,
    holder: Holder,
    store: &mut S,
    meter: &mut Meter<L>,
) -> Result<Course, Halt>
    requires { MayFly flight.now }
    ensures { StepsFrom (tables_of flight.now) holder.client holder.number flight.now.write.now
        (Flying (seen_flight flight.now) Freeing) (seen_flight flight.now)
        (spot_of S.Store store.old meter.old) (spot_of S.Store store.new meter.new) result }
{
    match free_parts(alloc, flight, holder) {
        Err(_) => Err(Halt::NoMem),
        Ok((key, own, code)) => {
            let pass = Course::Ends {
                ending: Ending::Done,
            };
            write_guarded(alloc, key, &own, &code, pass, store, meter)
        }
    }
}

/// The key of the own pair, the own held value with the old row, and the refusal.
fn release_parts(
    alloc: Global,
    flight: &InFlight<'_>,
    holder: Holder,
    refusal: &Refusal,
) -> Result<(Bytes, Option<Bytes>, Refusal), NoMem>
    requires write { MayWrite (tables_of flight.now) flight.now.write.now }
    requires late { IsLate refusal.now }
    ensures { IfOk result (λ parts. (parts.0 ≡ pair_key (tables_of flight.now) flight.now.write.now)
        × (parts.1 ≡ Some (held_value holder.client holder.number flight.now.read.now)) × (parts.2 ≡ refusal.now)) }
{
    let key = pair_key(alloc, flight.catalog, flight.write)?;
    let copy = copy_refusal(alloc, refusal)?;
    let own = own_value(alloc, holder, flight.read)?;
    Ok((key, own, copy))
}

/// The free with the old row, after a refusal.
pub(crate) fn release_step<S: Store<L>, L: Ledger>(
    alloc: Global,
    flight: &InFlight<'_>,
    holder: Holder,
    refusal: &Refusal,
    store: &mut S,
    meter: &mut Meter<L>,
) -> Result<Course, Halt>
    requires write { MayWrite (tables_of flight.now) flight.now.write.now }
    requires late { IsLate refusal.now }
    ensures { StepsFrom (tables_of flight.now) holder.client holder.number flight.now.write.now
        (Flying (seen_flight flight.now) (Releasing refusal.now)) (seen_flight flight.now)
        (spot_of S.Store store.old meter.old) (spot_of S.Store store.new meter.new) result }
{
    match release_parts(alloc, flight, holder, refusal) {
        Err(_) => Err(Halt::NoMem),
        Ok((key, own, refusal)) => {
            let pass = Course::Ends {
                ending: Ending::Refused { refusal },
            };
            write_guarded(alloc, key, &own, flight.read, pass, store, meter)
        }
    }
}
