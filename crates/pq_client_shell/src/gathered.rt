//! The pieces from the first write on: the writes among them are dealt to the clients.
ghost use Rattle.std.specs.Prelude.{◌≡◌, ◌≤◌, ◌<◌, ◌^◌, ◌+◌, ◌++◌, ◌||◌, false, is_some, not, IfOk, IfErr, OnOk, OnErr, length, string_bytes, drop};
ghost use Rattle.std.specs.List.{AllByRecursion, list_any};
ghost use Rattle.pq_index_keep.specs.Sound.{IsWrite};
ghost use Rattle.pq_shell.specs.Making.{moment};
ghost use Rattle.pq_shell.specs.Serving.{rest_text};
ghost use Rattle.pq_console.specs.Stops.{Causes};
ghost use Rattle.pq_client_shell.specs.Lines.{between_text, skipped_text, unless_found};
ghost use Rattle.pq_client_shell.specs.Runs.{RanClients, TellsCause, TellsAll, TellsPart, MadeGathered, HaltsGathered};
ghost use Rattle.pq_client_shell.specs.Writes.{AreSeats, IsParted, IsUncounted, gathered_of, is_skipped, one_write, writes_of};

use crate::dealing::{deal, seat};
use crate::lines::{put_rest, put_skipped};
use crate::script::Parted;
use crate::telling::tell;
use crate::turns::{by_turns, rounds_of};
use crate::writes::write_of;
use pq_base::{Bytes, List, NoMem};
use pq_clients::{Ran, run_clients};
use pq_index_keep::Write;
use pq_schema::Catalog;
use pq_shell::{Sink, Stop, write_text};
use pq_store::{Meter, Store};
use pq_text::Piece;
use std::alloc::Global;
use std::sync::ledger::Ledger;

/// The writes among some pieces, the lines of the pieces that are skipped, and whether there are any.
#[derive(Drop)]
struct Sorted {
    writes: List<Write>,
    lines: String,
    skipped: bool,
}

impl Sorted {
    /// Adds the write of a piece with this number, or the line that it is skipped.
    fn add(&mut self, alloc: Global, number: u32, found: Option<Write>) -> Result<(), NoMem>
        ensures writes { OnOk result (self.new.writes ≡ self.old.writes ++ one_write found) }
        ensures lines { OnOk result (string_bytes self.new.lines
            ≡ string_bytes self.old.lines ++ unless_found number found) }
        ensures skipped { OnOk result (self.new.skipped ≡ (self.old.skipped || not (is_some found))) }
    {
        match found {
            Some(write) => self.writes.push(alloc, write)?,
            None => {
                put_skipped(number, &mut self.lines)?;
                self.skipped = true;
            }
        }
        Ok(())
    }
}

/// Sorts out pieces that are numbered from here on.
fn sort_out(alloc: Global, catalog: &Catalog, first: u32, pieces: &[Piece]) -> Result<Sorted, NoMem>
    requires { first + length pieces.now < 2 ^ 32 }
    ensures writes { IfOk result (λ sorted. sorted.writes ≡ writes_of catalog.now pieces.now) }
    ensures made { IfOk result (λ sorted. AllByRecursion (IsWrite catalog.now.tables) sorted.writes) }
    ensures uncounted { IfOk result (λ sorted. AllByRecursion (IsUncounted catalog.now) sorted.writes) }
    ensures few { IfOk result (λ sorted. length sorted.writes ≤ length pieces.now) }
    ensures lines { IfOk result (λ sorted. string_bytes sorted.lines ≡ skipped_text catalog.now first pieces.now) }
    ensures skipped { IfOk result (λ sorted. sorted.skipped ≡ list_any (is_skipped catalog.now) pieces.now) }
{
    let mut sorted = Sorted {
        writes: List::new(alloc),
        lines: String::new(alloc),
        skipped: false,
    };
    let mut number = first;
    for piece in pieces {
        let found = write_of(alloc, catalog, piece)?;
        sorted.add(alloc, number, found)?;
        number += 1;
    }
    Ok(sorted)
}

/// What is written between the reports and what the clients are told.
fn between(alloc: Global, lines: String, unfinished: bool, number: u32) -> Result<Bytes, NoMem>
    ensures { IfOk result (λ text. text ≡ string_bytes lines ++ rest_text unfinished number) }
{
    let mut text = List::new(alloc);
    text.extend_text(alloc, lines)?;
    put_rest(alloc, unfinished, number, &mut text)?;
    Ok(text)
}

/// Deals the writes to k clients, which step in turn until all are over.
fn run_dealt<S: Store<L>, L: Ledger>(
    alloc: Global,
    catalog: &Catalog,
    k: u32,
    writes: List<Write>,
    store: &mut S,
    meter: &mut Meter<L>,
) -> Result<Ran, NoMem>
    requires seats { AreSeats k }
    requires made { AllByRecursion (IsWrite catalog.now.tables) writes }
    requires uncounted { AllByRecursion (IsUncounted catalog.now) writes }
    requires few { length writes ≤ 2 ^ 24 }
    ensures ran { IfOk result (λ ran. RanClients k catalog.now writes (S.content store.old) (S.content store.new)
        meter.old meter.new ran.told) }
    ensures causes { IfOk result (λ ran. TellsCause (S.faults store.old) (S.faults store.new) ran.told) }
    ensures later { S.faults store.old ≤ S.faults store.new }
    ensures content { OnErr result (S.content store.new ≡ S.content store.old) }
    ensures counts { OnErr result (meter.new ≡ meter.old) }
{
    catalog.known();
    let hands = deal(alloc, k, writes)?;
    let rounds = rounds_of(catalog, hands.as_slice());
    let order = by_turns(alloc, k, rounds)?;
    let clients = seat(alloc, hands)?;
    let ran = run_clients(alloc, catalog, clients, order.items(), store, meter)?;
    Ok(ran)
}

/// Whether one of two holds.
pub fn either(one: bool, other: bool) -> bool
    ensures { result ≡ (one || other) }
{
    one || other
}

/// The writes among the pieces behind the front, and the text of what is written before the clients step.
#[derive(Drop)]
struct Deal {
    writes: List<Write>,
    text: Bytes,
    skipped: bool,
}

/// The pieces from this place on.
fn behind(pieces: &[Piece], count: usize) -> &[Piece]
    requires { count ≤ length pieces.now }
    ensures { result.now ≡ drop count pieces.now }
{
    &pieces[count..]
}

/// Sorts out the pieces behind the front.
fn prepare(alloc: Global, catalog: &Catalog, parted: &Parted<'_>) -> Result<Deal, NoMem>
    requires { IsParted parted.now }
    ensures writes { IfOk result (λ deal. deal.writes ≡ writes_of catalog.now (gathered_of parted.now.script.now.pieces)) }
    ensures made { IfOk result (λ deal. AllByRecursion (IsWrite catalog.now.tables) deal.writes) }
    ensures uncounted { IfOk result (λ deal. AllByRecursion (IsUncounted catalog.now) deal.writes) }
    ensures few { IfOk result (λ deal. length deal.writes ≤ 2 ^ 24) }
    ensures text { IfOk result (λ deal. deal.text
        ≡ between_text catalog.now parted.now.script.now.pieces parted.now.script.now.unfinished) }
    ensures skipped { IfOk result (λ deal. deal.skipped
        ≡ list_any (is_skipped catalog.now) (gathered_of parted.now.script.now.pieces)) }
{
    let pieces = parted.script.pieces.items();
    let number = pieces.len() as u32 + 1;
    let rest = behind(pieces, parted.front);
    let sorted = sort_out(alloc, catalog, parted.front as u32 + 1, rest)?;
    let text = between(alloc, sorted.lines, parted.script.unfinished, number)?;
    Ok(Deal {
        writes: sorted.writes,
        text,
        skipped: sorted.skipped,
    })
}

/// Deals the writes to k clients, which step in turn until all are over, and writes what they were told; whether a
/// write isn't done.
fn step_clients<S: Store<L>, O: Sink, L: Ledger>(
    alloc: Global,
    catalog: &Catalog,
    k: u32,
    writes: List<Write>,
    store: &mut S,
    meter: &mut Meter<L>,
    sink: &mut O,
) -> Result<bool, Stop>
    requires seats { AreSeats k }
    requires made { AllByRecursion (IsWrite catalog.now.tables) writes }
    requires uncounted { AllByRecursion (IsUncounted catalog.now) writes }
    requires few { length writes ≤ 2 ^ 24 }
    ensures ok { IfOk result (λ undone. TellsAll k catalog.now writes undone
        (moment (S.content store.old) (O.held sink.old) meter.old)
        (moment (S.content store.new) (O.held sink.new) meter.new)) }
    ensures err { IfErr result (λ stop. TellsPart k catalog.now writes stop
        (moment (S.content store.old) (O.held sink.old) meter.old)
        (moment (S.content store.new) (O.held sink.new) meter.new)) }
    ensures causes { Causes (S.faults store.old) (S.faults store.new) (O.faults sink.old) (O.faults sink.new) result }
{
    let Ok(ran) = run_dealt(alloc, catalog, k, writes, store, meter) else {
        return Err(Stop::NoMem);
    };
    let undone = tell(alloc, ran.told, sink)?;
    Ok(undone)
}

/// Deals the writes behind the front to k clients, and writes what they were told; whether a piece was skipped, there
/// is an unfinished rest, or a write isn't done.
pub fn run_gathered<S: Store<L>, O: Sink, L: Ledger>(
    alloc: Global,
    catalog: &Catalog,
    k: u32,
    parted: &Parted<'_>,
    store: &mut S,
    meter: &mut Meter<L>,
    sink: &mut O,
) -> Result<bool, Stop>
    requires seats { AreSeats k }
    requires parted { IsParted parted.now }
    ensures ok { IfOk result (λ refused. MadeGathered k catalog.now parted.now.script.now refused
        (moment (S.content store.old) (O.held sink.old) meter.old)
        (moment (S.content store.new) (O.held sink.new) meter.new)) }
    ensures err { IfErr result (λ stop. HaltsGathered k catalog.now parted.now.script.now stop
        (moment (S.content store.old) (O.held sink.old) meter.old)
        (moment (S.content store.new) (O.held sink.new) meter.new)) }
    ensures causes { Causes (S.faults store.old) (S.faults store.new) (O.faults sink.old) (O.faults sink.new) result }
{
    let Ok(deal) = prepare(alloc, catalog, parted) else {
        return Err(Stop::NoMem);
    };
    write_text(&deal.text, sink)?;
    let undone = step_clients(alloc, catalog, k, deal.writes, store, meter, sink)?;
    let behind = either(parted.script.unfinished, undone);
    Ok(either(deal.skipped, behind))
}
