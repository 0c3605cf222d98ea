//! Clients that take their steps in an order.
ghost use Rattle.std.specs.Prelude.{◌≡◌, ◌≤◌, ◌<◌, ◌^◌, ◌+◌, ◌++◌, ◌∷◌, [], List, Some, All, IfOk, OnErr, length, vec_capacity};
ghost use Rattle.std.specs.List.{sum_by};
ghost use Rattle.pq_content.specs.Pairs.{Pair, content_pairs};
ghost use Rattle.pq_content.specs.Tables.{Rows};
ghost use Rattle.pq_clients.specs.Goes.{spot};
ghost use Rattle.pq_clients.specs.Promised.{RunsAsPromised};
ghost use Rattle.pq_clients.specs.Promises.{Begins};
ghost use Rattle.pq_clients.specs.Runs.{told_by, put_by};
ghost use Rattle.pq_clients.specs.Running.{HasRoom, moment_of, views_of, moment, Turn, Turns, LeavesRun, MakesCalls};
ghost use Rattle.pq_clients.specs.Stepping.{view_of, IsClient};
ghost use Rattle.pq_clients.specs.InFlight.{spot_of};

use crate::client::Client;
use crate::outcome::{Step, Told, Wrote};
use pq_base::{List, NoMem};
use pq_schema::Catalog;
use pq_store::{Meter, Store};
use std::alloc::Global;
use std::sync::ledger::Ledger;

/// What a run left: the clients, what was told, and the rows that were put, in their order.
#[derive(Drop)]
pub struct Ran {
    pub clients: List<Client>,
    pub told: List<Told>,
    pub puts: List<Wrote>,
}

/// A run on its way.
#[derive(Drop)]
struct Running {
    clients: Vec<Client>,
    told: Vec<Told>,
    puts: Vec<Wrote>,
}

/// Puts an item behind the others, where there is room for it.
fn put_last<T: Drop>(items: &mut Vec<T>, item: T)
    requires { length items.old.items < vec_capacity items.old }
    ensures put { items.new.items ≡ items.old.items ++ item ∷ [] }
    ensures room { vec_capacity items.old ≤ vec_capacity items.new }
{
    match items.push(item) {
        Ok(()) => {}
        Err(_) => unreachable!(),
    }
}

/// How many writes the clients have.
fn count_writes(clients: &[Client]) -> usize
    requires { sum_by (λ client. length client.writes) clients.now < 2 ^ 32 }
    ensures { result ≡ sum_by (λ client. length client.writes) clients.now }
{
    let mut count = 0;
    for client in clients {
        count += client.count_writes();
    }
    count
}

/// Notes what a step told or put.
fn note(told: &mut Vec<Told>, puts: &mut Vec<Wrote>, said: Step)
    requires told_room { length told.old.items + length (told_by said) ≤ vec_capacity told.old }
    requires puts_room { length puts.old.items + length (put_by said) ≤ vec_capacity puts.old }
    ensures told { told.new.items ≡ told.old.items ++ told_by said }
    ensures puts { puts.new.items ≡ puts.old.items ++ put_by said }
    ensures told_room { vec_capacity told.old ≤ vec_capacity told.new }
    ensures puts_room { vec_capacity puts.old ≤ vec_capacity puts.new }
{
    match said {
        Step::Moved | Step::Over => {}
        Step::Put(wrote) => put_last(puts, wrote),
        Step::Tells(tells) => put_last(told, tells),
    }
}

impl Running {
    /// A run that has taken no turn, with room for what it will be told and put.
    fn begin(alloc: Global, clients: List<Client>) -> Result<Running, NoMem>
        requires { sum_by (λ v. length v.writes) (views_of clients) < 2 ^ 32 }
        ensures clients { IfOk result (λ running. running.clients.items ≡ clients) }
        ensures told { IfOk result (λ running. running.told.items ≡ []) }
        ensures puts { IfOk result (λ running. running.puts.items ≡ []) }
        ensures room { IfOk result HasRoom }
    {
        let writes = count_writes(clients.items());
        let told = Vec::with_capacity(alloc, writes)?;
        let puts = Vec::with_capacity(alloc, writes)?;
        Ok(Running {
            clients: clients.into_vec(),
            told,
            puts,
        })
    }

    /// What it left.
    fn end(self) -> Ran
        ensures clients { result.clients ≡ self.clients.items }
        ensures told { result.told ≡ self.told.items }
        ensures puts { result.puts ≡ self.puts.items }
    {
        Ran {
            clients: List::from_vec(self.clients),
            told: List::from_vec(self.told),
            puts: List::from_vec(self.puts),
        }
    }

    /// The client at this place takes a step.
    fn turn<S: Store<L>, L: Ledger>(
        &mut self,
        alloc: Global,
        catalog: &Catalog,
        place: usize,
        store: &mut S,
        meter: &mut Meter<L>,
    )
        requires clients { All (λ client. IsClient catalog.now.tables (view_of client)) self.old.clients.items }
        requires place { place < length self.old.clients.items }
        requires room { HasRoom self.old }
        ensures turn { Turn catalog.now.tables place
            (moment_of (spot_of S.Store store.old meter.old) self.old)
            (moment_of (spot_of S.Store store.new meter.new) self.new) }
        ensures clients { All (λ client. IsClient catalog.now.tables (view_of client)) self.new.clients.items }
        ensures same { length self.new.clients.items ≡ length self.old.clients.items }
        ensures room { HasRoom self.new }
    {
        let said = self.clients[place].step(alloc, catalog, store, meter);
        note(&mut self.told, &mut self.puts, said);
    }

    /// The clients at these places take a step each, one after the other.
    fn turns<S: Store<L>, L: Ledger>(
        &mut self,
        alloc: Global,
        catalog: &Catalog,
        order: &[u32],
        store: &mut S,
        meter: &mut Meter<L>,
    )
        requires clients { All (λ client. IsClient catalog.now.tables (view_of client)) self.old.clients.items }
        requires places { All (λ place. place < length self.old.clients.items) order.now }
        requires room { HasRoom self.old }
        ensures { Turns catalog.now.tables order.now
            (moment_of (spot_of S.Store store.old meter.old) self.old)
            (moment_of (spot_of S.Store store.new meter.new) self.new) }
    {
        for place in order {
            self.turn(alloc, catalog, *place as usize, store, meter);
        }
    }
}

/// The clients take their steps in this order, a step for each place in the list, from 0. One that is over makes no
/// call.
pub fn run_clients<S: Store<L>, L: Ledger>(
    alloc: Global,
    catalog: &Catalog,
    clients: List<Client>,
    order: &[u32],
    store: &mut S,
    meter: &mut Meter<L>,
) -> Result<Ran, NoMem>
    requires clients { All (λ client. IsClient catalog.now.tables (view_of client)) clients }
    requires few { sum_by (λ v. length v.writes) (views_of clients) < 2 ^ 32 }
    requires places { All (λ place. place < length clients) order.now }
    // Each turn is one step of the client at its place.
    ensures turns { IfOk result (λ ran. Turns catalog.now.tables order.now
        (moment (spot (S.content store.old) (S.faults store.old) meter.old) (views_of clients) [] [])
        (moment (spot (S.content store.new) (S.faults store.new) meter.new) (views_of ran.clients) ran.told ran.puts)) }
    // Over a told content they are the steps of a run, with what it tells and leaves.
    ensures run { IfOk result (λ ran. LeavesRun catalog.now.tables order.now
        (moment (spot (S.content store.old) (S.faults store.old) meter.old) (views_of clients) [] [])
        (moment (spot (S.content store.new) (S.faults store.new) meter.new) (views_of ran.clients) ran.told ran.puts)) }
    // Over tables that hold these rows all that is promised of such a run holds throughout.
    ensures promises { IfOk result (λ ran. (rows : Rows) (others : List Pair)
        → Begins catalog.now.tables rows others (views_of clients)
        → S.content store.old ≡ Some (content_pairs catalog.now.tables rows others)
        → RunsAsPromised catalog.now.tables rows others (views_of clients) order.now
        (S.content store.new) (views_of ran.clients) ran.told ran.puts) }
    ensures calls { IfOk result (λ ran. MakesCalls (length order.now)
        (moment (spot (S.content store.old) (S.faults store.old) meter.old) (views_of clients) [] [])
        (moment (spot (S.content store.new) (S.faults store.new) meter.new) (views_of ran.clients) ran.told ran.puts)) }
    ensures untouched { OnErr result (spot (S.content store.new) (S.faults store.new) meter.new
        ≡ spot (S.content store.old) (S.faults store.old) meter.old) }
{
    let mut running = Running::begin(alloc, clients)?;
    running.turns(alloc, catalog, order, store, meter);
    Ok(running.end())
}
