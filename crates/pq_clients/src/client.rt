//! A client, and its steps.
ghost use Rattle.std.specs.Prelude.{◌≡◌, ◌≤◌, ◌<◌, ◌^◌, true, false, length, IfOk};
ghost use Rattle.pq_index_keep.specs.Sound.{AreWritable};
ghost use Rattle.pq_schema.specs.Sound.{AreMade};
ghost use Rattle.pq_clients.specs.Clients.{Taking, is_over, new_view};
ghost use Rattle.pq_clients.specs.Fitting.{MayWrite, FitsNext};
ghost use Rattle.pq_clients.specs.Goes.{Goes, spot};
ghost use Rattle.pq_clients.specs.Seen.{flight, seen_next, seen_ending, seen_course};
ghost use Rattle.pq_clients.specs.Steps.{gone_on, is_fault, tells};
ghost use Rattle.pq_clients.specs.Stepping.{IsWay, TakesWay, view_of, at_hand, hand_of, IsClient, outcome_of, Concludes, Ended, EndsBy, GoesOn, Follows, LeavesStep, MakesCall};
ghost use Rattle.pq_clients.specs.InFlight.{tables_of, seen_flight, spot_of, StepsFrom};

use crate::entries::{copy_found, copy_key};
use crate::flight::{Holder, InFlight};
use crate::halt::Halt;
use crate::outcome::{Outcome, Step, Told, Wrote};
use crate::reading::{look, read};
use crate::stage::{Course, Ending, Phase};
use crate::steps::fly;
use crate::taking::take;
use pq_base::{Bytes, List, NoMem};
use pq_index_keep::Write;
use pq_schema::Catalog;
use pq_store::{Damage, Meter, Store};
use std::alloc::Global;
use std::mem::replace;
use std::sync::ledger::Ledger;

/// A client: its number, its writes, the write at hand from 1, what its read answered, its next step, and by
/// what it is over, where it ended by a fault.
#[derive(Drop)]
pub struct Client {
    number: u32,
    writes: List<Write>,
    at: usize,
    read: Option<Bytes>,
    next: Phase,
    over: Option<Outcome>,
}

/// The one call of a step.
fn go<S: Store<L>, L: Ledger>(
    alloc: Global,
    flight: &InFlight<'_>,
    holder: Holder,
    next: &Phase,
    store: &mut S,
    meter: &mut Meter<L>,
) -> Result<Course, Halt>
    requires write { MayWrite (tables_of flight.now) flight.now.write.now }
    requires fits { FitsNext (tables_of flight.now) (seen_next (seen_flight flight.now) next.now) }
    ensures { StepsFrom (tables_of flight.now) holder.client holder.number flight.now.write.now
        (seen_next (seen_flight flight.now) next.now) (seen_flight flight.now)
        (spot_of S.Store store.old meter.old) (spot_of S.Store store.new meter.new) result }
{
    match next {
        Phase::Reading => read(
            alloc,
            flight.catalog,
            holder.client,
            flight.write,
            store,
            meter,
        ),
        Phase::Taking => take(alloc, flight, holder, store, meter),
        Phase::Looking => look(alloc, flight, store, meter),
        Phase::Flying { stage } => fly(alloc, flight, holder, stage, store, meter),
    }
}

fn copy_damage(alloc: Global, damage: &Damage) -> Result<Damage, NoMem>
    ensures { IfOk result (λ copy. copy ≡ damage.now) }
{
    Ok(Damage {
        key: copy_key(alloc, &damage.key)?,
        value: copy_found(alloc, &damage.value)?,
    })
}

impl Client {
    /// A client that has taken no step. Its writes are numbered from 1.
    pub fn new(number: u32, writes: List<Write>) -> Client
        requires from_one { 1 ≤ number }
        requires few { length writes < 2 ^ 32 }
        ensures { view_of result ≡ new_view number writes }
    {
        Client {
            number,
            writes,
            at: 1,
            read: None,
            next: Phase::Reading,
            over: None,
        }
    }

    fn is_over(&self) -> bool
        ensures { result ≡ is_over (view_of self.now) }
    {
        self.over.is_some() || self.writes.items().len() < self.at
    }

    /// How many writes it has.
    pub(crate) fn count_writes(&self) -> usize
        ensures { result ≡ length self.now.writes }
    {
        self.writes.items().len()
    }

    /// The write at hand.
    fn write(&self) -> &Write
        requires from_one { 1 ≤ self.now.at }
        requires there { self.now.at ≤ length self.now.writes }
        ensures { result.now ≡ at_hand self.now.writes self.now.at }
    {
        &self.writes.items()[self.at - 1]
    }

    fn set_next(&mut self, next: Phase)
        ensures { self.new ≡ record self.old { next = next } }
    {
        drop(replace(&mut self.next, next));
    }

    fn set_read(&mut self, read: Option<Bytes>)
        ensures { self.new ≡ record self.old { read = read } }
    {
        drop(replace(&mut self.read, read));
    }

    fn set_over(&mut self, outcome: Outcome)
        ensures { self.new ≡ record self.old { over = Some outcome } }
    {
        drop(replace(&mut self.over, Some(outcome)));
    }

    fn tells(&self, outcome: Outcome) -> Step
        requires small { self.now.at < 2 ^ 32 }
        ensures { result ≡ tells (view_of self.now) outcome }
    {
        Step::Tells(Told {
            client: self.number,
            number: self.at as u32,
            outcome,
        })
    }

    /// It ends with a fault.
    fn stop(&mut self, kept: Outcome, told: Outcome) -> Step
        requires small { self.old.at < 2 ^ 32 }
        requires fault { is_fault told ≡ true }
        requires same { kept ≡ told }
        ensures { Ended (view_of self.old) told (view_of self.new) result }
    {
        let step = self.tells(told);
        self.set_over(kept);
        step
    }

    /// The write at hand ends without a fault.
    fn pass(&mut self, told: Outcome) -> Step
        requires small { self.old.at < 2 ^ 32 }
        requires fault { is_fault told ≡ false }
        ensures { Ended (view_of self.old) told (view_of self.new) result }
    {
        let step = self.tells(told);
        self.at += 1;
        self.set_next(Phase::Reading);
        step
    }

    fn stop_by(&mut self, halt: Halt) -> Step
        requires small { self.old.at < 2 ^ 32 }
        ensures { Ended (view_of self.old) (outcome_of halt) (view_of self.new) result }
    {
        match halt {
            Halt::Failed => self.stop(Outcome::Failed, Outcome::Failed),
            Halt::NoMem => self.stop(Outcome::NoMem, Outcome::NoMem),
        }
    }

    fn lose(&mut self, alloc: Global, damage: Damage) -> Step
        requires small { self.old.at < 2 ^ 32 }
        ensures { EndsBy (view_of self.old) (Outcome.Damaged damage) (view_of self.new) result }
    {
        match copy_damage(alloc, &damage) {
            Err(_) => self.stop_by(Halt::NoMem),
            Ok(copy) => self.stop(Outcome::Damaged(copy), Outcome::Damaged(damage)),
        }
    }

    fn end(&mut self, alloc: Global, ending: Ending) -> Step
        requires small { self.old.at < 2 ^ 32 }
        ensures { EndsBy (view_of self.old) (seen_ending ending) (view_of self.new) result }
    {
        match ending {
            Ending::Done => self.pass(Outcome::Done),
            Ending::Refused { refusal } => self.pass(Outcome::Refused(refusal)),
            Ending::Busy { found } => self.pass(Outcome::Busy { found }),
            Ending::Conflict { read, found } => self.pass(Outcome::Conflict { read, found }),
            Ending::Damaged { damage } => self.lose(alloc, damage),
        }
    }

    fn go_on(&mut self, next: Phase) -> Step
        ensures { GoesOn (view_of self.old) (seen_next (hand_of self.old) next) Step.Moved (view_of self.new) result }
    {
        self.set_next(next);
        Step::Moved
    }

    fn take_next(&mut self, read: Option<Bytes>) -> Step
        ensures { GoesOn (view_of self.old) (Taking (flight (hand_of self.old).write read)) Step.Moved
            (view_of self.new) result }
    {
        self.set_read(read);
        self.set_next(Phase::Taking);
        Step::Moved
    }

    fn put_next(&mut self, next: Phase) -> Step
        requires small { self.old.at < 2 ^ 32 }
        ensures { GoesOn (view_of self.old) (seen_next (hand_of self.old) next)
            (Step.Put (record { client = self.old.number; number = self.old.at })) (view_of self.new) result }
    {
        let wrote = Wrote {
            client: self.number,
            number: self.at as u32,
        };
        self.set_next(next);
        Step::Put(wrote)
    }

    /// What an answer led to becomes the next step, or ends the write.
    fn follow(&mut self, alloc: Global, course: Course) -> Step
        requires small { self.old.at < 2 ^ 32 }
        ensures { Follows (view_of self.old) (seen_course (hand_of self.old) course) (view_of self.new) result }
    {
        match course {
            Course::On { next } => self.go_on(next),
            Course::Takes { read } => self.take_next(read),
            Course::Puts { next } => self.put_next(next),
            Course::Ends { ending } => self.end(alloc, ending),
        }
    }

    /// What the step's call led to becomes the next step, or ends the write.
    fn conclude(&mut self, alloc: Global, went: Result<Course, Halt>) -> Step
        requires { self.old.at < 2 ^ 32 }
        ensures { Concludes (view_of self.old) (hand_of self.old) went (view_of self.new) result }
    {
        match went {
            Err(halt) => self.stop_by(halt),
            Ok(course) => self.follow(alloc, course),
        }
    }

    fn go<S: Store<L>, L: Ledger>(
        &self,
        alloc: Global,
        catalog: &Catalog,
        store: &mut S,
        meter: &mut Meter<L>,
    ) -> Result<Course, Halt>
        requires sound { AreWritable catalog.now.tables }
        requires made { AreMade catalog.now.tables }
        requires client { IsClient catalog.now.tables (view_of self.now) }
        requires going { is_over (view_of self.now) ≡ false }
        ensures goes { Goes (seen_course (hand_of self.now))
            (gone_on catalog.now.tables (view_of self.now) (view_of self.now).next)
            (spot_of S.Store store.old meter.old)
            (spot_of S.Store store.new meter.new) result }
        ensures way { IfOk result (λ course. IsWay catalog.now.tables self.now.number
            (at_hand self.now.writes self.now.at) (view_of self.now).next (seen_course (hand_of self.now) course)) }
    {
        let number = self.at as u32;
        let write = self.write();
        let flight = InFlight {
            catalog,
            write,
            read: &self.read,
        };
        let holder = Holder {
            client: self.number,
            number,
        };
        go(alloc, &flight, holder, &self.next, store, meter)
    }

    /// One step: one call of the store, or none where the client is over or there is no memory.
    pub fn step<S: Store<L>, L: Ledger>(
        &mut self,
        alloc: Global,
        catalog: &Catalog,
        store: &mut S,
        meter: &mut Meter<L>,
    ) -> Step
        requires { IsClient catalog.now.tables (view_of self.old) }
        ensures told { LeavesStep catalog.now.tables (view_of self.old) (S.content store.old) (S.content store.new)
            (view_of self.new) result }
        // Over every store it goes on in the way of some answer, and stays a client of the tables.
        ensures way { is_over (view_of self.old) ≡ false
            → TakesWay catalog.now.tables (view_of self.old) (view_of self.new) result }
        ensures kept { IsClient catalog.now.tables (view_of self.new) }
        ensures calls { MakesCall (view_of self.old) (view_of self.new)
            (spot (S.content store.old) (S.faults store.old) meter.old)
            (spot (S.content store.new) (S.faults store.new) meter.new) result }
    {
        if self.is_over() {
            return Step::Over;
        }
        catalog.known();
        let went = self.go(alloc, catalog, store, meter);
        self.conclude(alloc, went)
    }
}
