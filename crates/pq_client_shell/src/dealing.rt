//! Writes that are dealt to clients in turn.
ghost use Rattle.std.specs.Prelude.{◌≡◌, ◌≤◌, ◌<◌, ◌^◌, [], IfOk, length};
ghost use Rattle.std.specs.List.{AllByRecursion};
ghost use Rattle.pq_clients.specs.Running.{views_of};
ghost use Rattle.pq_client_shell.specs.Dealing.{following, hands, seated};

use pq_base::{List, NoMem};
use pq_clients::Client;
use pq_index_keep::Write;
use std::alloc::Global;

/// So many hands without a write.
fn empty_hands(alloc: Global, k: u32) -> Result<Vec<List<Write>>, NoMem>
    ensures { IfOk result (λ made. made.items ≡ hands k []) }
{
    let mut hands = Vec::new(alloc);
    for place in 0..k {
        hands.push(List::new(alloc))?;
    }
    Ok(hands)
}

/// The writes of each of k clients, to whom these are dealt in turn.
pub fn deal(alloc: Global, k: u32, writes: List<Write>) -> Result<Vec<List<Write>>, NoMem>
    requires some { 1 ≤ k }
    requires few { length writes < 2 ^ 32 }
    ensures { IfOk result (λ made. made.items ≡ hands k writes) }
{
    let mut hands = empty_hands(alloc, k)?;
    let mut next = 0;
    for write in writes.into_vec() {
        hands[next].push(alloc, write)?;
        next = following(k as usize, next);
    }
    Ok(hands)
}

/// The place behind this one, and the first behind the last.
fn following(k: usize, place: usize) -> usize
    requires { place < k }
    ensures { result ≡ following k place }
{
    if place + 1 == k { 0 } else { place + 1 }
}

/// Clients with these writes, numbered from 1.
pub fn seat(alloc: Global, hands: Vec<List<Write>>) -> Result<List<Client>, NoMem>
    requires few { AllByRecursion (λ hand. length hand < 2 ^ 32) hands.items }
    requires seats { length hands.items ≤ 16 }
    ensures { IfOk result (λ clients. views_of clients ≡ seated 1 hands.items) }
{
    let mut clients = List::new(alloc);
    let mut number = 1;
    for hand in hands {
        clients.push(alloc, Client::new(number, hand))?;
        number += 1;
    }
    Ok(clients)
}
