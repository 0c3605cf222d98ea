//! The top call for clients.
ghost use Rattle.std.specs.Prelude.{◌≡◌, ◌↔◌, ◌≤◌, ◌<◌, ◌+◌, ◌^◌, ℕ, List, Option, IfOk, IfErr, length};
ghost use Rattle.std.specs.Io.KnownBytes.{prepend_known};
ghost use Rattle.pq_store.specs.Content.{HasRisen};
ghost use Rattle.pq_catalog.specs.Model.{Model};
ghost use Rattle.pq_catalog.specs.Stands.{Opens};
ghost use Rattle.pq_shell.specs.Answered.{IsAnsweredStop};
ghost use Rattle.pq_shell.specs.Making.{moment};
ghost use Rattle.pq_shell.specs.Openings.{StoppedOpening};
ghost use Rattle.pq_console.specs.Reading.{CountsBytes, script_limit};
ghost use Rattle.pq_shell.specs.Run.{IsPlain, run_world};
ghost use Rattle.pq_console.specs.Stops.{Causes};
ghost use Rattle.pq_client_shell.specs.Runs.{OpensStore, MadeRead, HaltsRead, FinishedClients, BrokenClients, Ends, IsReadWithin};
ghost use Rattle.pq_client_shell.specs.Words.{AreWords};
ghost use Rattle.pq_client_shell.specs.Writes.{AreSeats, IsParted};

use crate::front::run_front;
use crate::gathered::{either, run_gathered};
use crate::script::{Parted, read_script};
use crate::words::clients_of;
use crate::writes::front_count;
use pq_base::PText;
use pq_catalog::PlannedCatalog;
use pq_console::Ending;
use pq_opening::start;
use pq_shell::{Ended, Sink, Source, Status, Stop, close};
use pq_store::{Meter, Store};
use std::alloc::Global;
use std::sync::ledger::Ledger;

/// Starts a session on the store.
fn open<S: Store<L>, L: Ledger>(
    alloc: Global,
    store: &mut S,
    meter: &mut Meter<L>,
) -> Result<PlannedCatalog, Stop>
    ensures ok { IfOk result (λ session. OpensStore (S.content store.old) (S.content store.new) session
        meter.old meter.new) }
    // With whatever text, nothing is written.
    ensures err { IfErr result (λ stop. (held : Option (List ℕ)) → StoppedOpening stop
        (moment (S.content store.old) held meter.old) (moment (S.content store.new) held meter.new)) }
    ensures causes { Causes (S.faults store.old) (S.faults store.new) 0 0 result }
    ensures answered { IfErr result (IsAnsweredStop S.answers) }
{
    match start(alloc, store, meter) {
        Ok(started) => Ok(started.planned),
        Err(broke) => Err(Stop::of(broke)),
    }
}

/// Makes the pieces of a script that was read: those before the first write by the session, the others by clients.
fn run_read<S: Store<L>, O: Sink, L: Ledger>(
    alloc: Global,
    k: u32,
    session: PlannedCatalog,
    parted: &Parted<'_>,
    store: &mut S,
    meter: &mut Meter<L>,
    sink: &mut O,
) -> Result<Ended, Stop>
    requires seats { AreSeats k }
    requires parted { IsParted parted.now }
    ensures ok { IfOk result (λ ended. MadeRead k session parted.now.script.now ended
        (moment (S.content store.old) (O.held sink.old) meter.old)
        (moment (S.content store.new) (O.held sink.new) meter.new)) }
    ensures err { IfErr result (λ stop. HaltsRead S.answers k session parted.now.script.now stop
        (moment (S.content store.old) (O.held sink.old) meter.old)
        (moment (S.content store.new) (O.held sink.new) meter.new)) }
    ensures causes { Causes (S.faults store.old) (S.faults store.new) (O.faults sink.old) (O.faults sink.new) result }
{
    let pieces = &parted.script.pieces.items()[..parted.front];
    let front = run_front(alloc, session, pieces, store, meter, sink)?;
    let catalog = front.session.catalog();
    let behind = run_gathered(alloc, catalog, k, parted, store, meter, sink)?;
    let refused = either(front.refused, behind);
    Ok(Ended {
        ending: parted.script.ending,
        refused,
    })
}

/// Opens the store, reads the script and makes it.
fn run_script<S: Store<L>, I: Source, O: Sink, L: Ledger>(
    alloc: Global,
    k: u32,
    source: &mut I,
    store: &mut S,
    meter: &mut Meter<L>,
    sink: &mut O,
) -> Result<Ended, Stop>
    requires seats { AreSeats k }
    ensures ok { IfOk result (λ ended. FinishedClients k ended.ending ended.refused
        (run_world (I.left source.old) (S.content store.old) (O.held sink.old) meter.old)
        (run_world (I.left source.new) (S.content store.new) (O.held sink.new) meter.new)) }
    ensures err { IfErr result (λ stop. BrokenClients S.answers k stop
        (run_world (I.left source.old) (S.content store.old) (O.held sink.old) meter.old)
        (run_world (I.left source.new) (S.content store.new) (O.held sink.new) meter.new)) }
    ensures causes { Causes (S.faults store.old) (S.faults store.new) (O.faults sink.old) (O.faults sink.new) result }
    ensures taken { (taken : List ℕ) × (I.left source.old ≡ prepend_known taken (I.left source.new))
        × (length taken ≤ script_limit + 1) }
    ensures counted { IfOk result (λ ended. CountsBytes ended.ending (I.count source.old) (I.count source.new)) }
    ensures reads { I.count source.new ≤ I.count source.old + (script_limit + 1) }
    ensures read_fault { IfOk result (λ ended. ended.ending ≡ Ending.Faulted
        → HasRisen (I.faults source.old) (I.faults source.new)) }
{
    let session = open(alloc, store, meter)?;
    let Ok(script) = read_script(alloc, source) else {
        return Err(Stop::NoMem);
    };
    let Ok(front) = front_count(alloc, script.pieces.items()) else {
        return Err(Stop::NoMem);
    };
    let parted = Parted {
        script: &script,
        front,
    };
    run_read(alloc, k, session, &parted, store, meter, sink)
}

/// Runs a script of the source whose writes clients make beside one another, and writes what they were told.
///
/// The words are `clients` and a number from 1 to 16. The store is opened without a line. The pieces before the first
/// INSERT, UPDATE or DELETE are made and reported as by a run. From there on each piece that is an accepted write of a
/// table without counters is dealt to the clients in turn, and each other piece is skipped. Then the clients step in
/// turn, one call of the store each, until all are over, and what each was told of each of its writes is written. Where
/// a client ended in a fault, the first such fault ends the run.
pub fn run_piql_clients<S: Store<L>, I: Source, O: Sink, L: Ledger>(
    alloc: Global,
    words: &[PText],
    source: &mut I,
    store: &mut S,
    sink: &mut O,
    meter: &mut Meter<L>,
) -> Status
    ensures ends { (k : ℕ) → AreWords k words.now → Ends S.answers k result
        (run_world (I.left source.old) (S.content store.old) (O.held sink.old) meter.old)
        (run_world (I.left source.new) (S.content store.new) (O.held sink.new) meter.new) }
    ensures usage { result ≡ Status.Usage ↔ ((k : ℕ) → ¬ AreWords k words.now) }
    ensures untouched { result ≡ Status.Usage
        → (source.new ≡ source.old) × (store.new ≡ store.old) × (sink.new ≡ sink.old)
        × (meter.new ≡ meter.old) }
    ensures read_fault { result ≡ Status.ReadFault → HasRisen (I.faults source.old) (I.faults source.new) }
    ensures write_fault { result ≡ Status.WriteFault → HasRisen (O.faults sink.old) (O.faults sink.new) }
    ensures store_fault { result ≡ Status.StoreFault → HasRisen (S.faults store.old) (S.faults store.new) }
    ensures taken { (taken : List ℕ) × (I.left source.old ≡ prepend_known taken (I.left source.new))
        × (length taken ≤ script_limit + 1) }
    // Whether the source tells or not, at most as many bytes are taken as a script may have, and one; and so many
    // where the script is too long.
    ensures reads { I.count source.new ≤ I.count source.old + (script_limit + 1) }
    ensures too_long { result ≡ Status.TooLong → I.count source.new ≡ I.count source.old + (script_limit + 1) }
    // A script that was read to its end, or to a fault, is within the limit.
    ensures short { IsReadWithin result → I.count source.new ≤ I.count source.old + script_limit }
    // Over a store that opens, without a fault, and where the source had no more bytes than a script may have, the
    // run is made to its end, whether the source tells or not.
    ensures complete { (k : ℕ) → AreWords k words.now → (m : Model) → Opens (S.content store.old) m
        → I.count source.new ≤ I.count source.old + script_limit
        → ¬ HasRisen (I.faults source.old) (I.faults source.new)
        → ¬ HasRisen (O.faults sink.old) (O.faults sink.new)
        → ¬ HasRisen (S.faults store.old) (S.faults store.new)
        → IsPlain result }
{
    match clients_of(words) {
        None => Status::Usage,
        Some(k) => run(alloc, k, source, store, sink, meter),
    }
}

/// Runs the script, and says how it ended.
fn run<S: Store<L>, I: Source, O: Sink, L: Ledger>(
    alloc: Global,
    k: u32,
    source: &mut I,
    store: &mut S,
    sink: &mut O,
    meter: &mut Meter<L>,
) -> Status
    requires seats { AreSeats k }
    ensures ends { Ends S.answers k result
        (run_world (I.left source.old) (S.content store.old) (O.held sink.old) meter.old)
        (run_world (I.left source.new) (S.content store.new) (O.held sink.new) meter.new) }
    ensures read_fault { result ≡ Status.ReadFault → HasRisen (I.faults source.old) (I.faults source.new) }
    ensures write_fault { result ≡ Status.WriteFault → HasRisen (O.faults sink.old) (O.faults sink.new) }
    ensures store_fault { result ≡ Status.StoreFault → HasRisen (S.faults store.old) (S.faults store.new) }
    ensures taken { (taken : List ℕ) × (I.left source.old ≡ prepend_known taken (I.left source.new))
        × (length taken ≤ script_limit + 1) }
    ensures reads { I.count source.new ≤ I.count source.old + (script_limit + 1) }
    ensures too_long { result ≡ Status.TooLong → I.count source.new ≡ I.count source.old + (script_limit + 1) }
    ensures short { IsReadWithin result → I.count source.new ≤ I.count source.old + script_limit }
{
    let outcome = run_script(alloc, k, source, store, meter, sink);
    close(alloc, outcome, sink)
}
