//! The order of the clients' steps.
ghost use Rattle.std.specs.Prelude.{◌≡◌, ◌≤◌, ◌<◌, ◌^◌, ◌*◌, ◌++◌, All, IfOk, OnOk, length};
ghost use Rattle.std.specs.List.{AllByRecursion, sum_by};
ghost use Rattle.pq_index_keep.specs.Sound.{IsWrite};
ghost use Rattle.pq_clients.specs.Promised.{places_below, by_turns};
ghost use Rattle.pq_clients.specs.Promises.{calls_of_write};

use pq_base::{List, NoMem};
use pq_index_keep::{Write, write_bound};
use pq_schema::Catalog;
use std::alloc::Global;

/// A number of calls that a client's write doesn't pass.
fn most_calls(catalog: &Catalog, write: &Write) -> u64
    requires { IsWrite catalog.now.tables write.now }
    ensures most { calls_of_write catalog.now.tables write.now ≤ result }
    ensures few { result < 2 ^ 33 }
{
    catalog.known();
    let _tables = catalog.tables();
    let bound = write_bound(catalog, write);
    2 * (bound.ops as u64)
}

/// A number of calls that a client with these writes doesn't pass.
fn most_in_hand(catalog: &Catalog, writes: &[Write]) -> u64
    requires write { All (IsWrite catalog.now.tables) writes.now }
    requires few { length writes.now ≤ 2 ^ 24 }
    ensures { sum_by (calls_of_write catalog.now.tables) writes.now ≤ result }
{
    let mut calls = 0;
    for write in writes {
        calls += most_calls(catalog, write);
    }
    calls
}

/// A number of calls that no client with one of these hands passes.
pub fn rounds_of(catalog: &Catalog, hands: &[List<Write>]) -> u64
    requires write { All (λ hand. All (IsWrite catalog.now.tables) hand) hands.now }
    requires few { All (λ hand. length hand ≤ 2 ^ 24) hands.now }
    ensures { AllByRecursion (λ hand. sum_by (calls_of_write catalog.now.tables) hand ≤ result) hands.now }
{
    let mut rounds = 0;
    for hand in hands {
        rounds = most_in_hand(catalog, hand.items()).max(rounds);
    }
    rounds
}

/// Puts the places below k once in order.
fn put_round(alloc: Global, k: u32, order: &mut List<u32>) -> Result<(), NoMem>
    ensures { OnOk result (order.new ≡ order.old ++ places_below k) }
{
    for place in 0..k {
        order.push(alloc, place)?;
    }
    Ok(())
}

/// The places below k in order, over and over for so many rounds.
pub fn by_turns(alloc: Global, k: u32, rounds: u64) -> Result<List<u32>, NoMem>
    ensures { IfOk result (λ order. order ≡ by_turns k rounds) }
{
    let mut order = List::new(alloc);
    for round in 0..rounds {
        put_round(alloc, k, &mut order)?;
    }
    Ok(order)
}
