//! Pairs in the order of their keys, in one list.
ghost use Rattle.std.specs.Prelude.{◌≡◌, ◌≤◌, IsTrue, filter, length, take, drop, OnOk, OnErr, map, ◌++◌};
ghost use Rattle.std.specs.FinMap.{put};
ghost use Rattle.pq_store.specs.Content.{entry, is_rising, is_within, key_cmp};
ghost use Rattle.pq_mem_store.specs.Runs.{IsPlace, begins_with, others};

use crate::held::HeldPair;
use crate::run::{Begins, MOST, Run, cut_at, middle};
use pq_base::{List, NoMem};
use pq_store::{Pair, pair_of};
use std::alloc::Global;
use std::cmp::Ordering;
use std::marker::Model;

/// A block of pairs.
#[derive(Drop)]
pub(crate) struct Block {
    held: Vec<HeldPair>,
}

impl Model for Block {
    ghost use Rattle.std.specs.Prelude.{IsTrue, List};
    ghost use Rattle.pq_store.specs.Content.{is_rising};
    ghost use Rattle.pq_mem_store.specs.Runs.{Pairs, pairs_code};

    ghost Value = { Pairs };

    ghost coded = { pairs_code };

    ghost view = { λ a. a.held.items };

    ghost invariant = { λ a. IsTrue (is_rising a.held.items) };
}

impl Begins for HeldPair {
    ghost use Rattle.std.specs.Prelude.{[], ◌∷◌};

    ghost pairs = { λ pair. pair ∷ [] };

    fn key(&self) -> &[u8] {
        HeldPair::key(self)
    }
}

// Where a key belongs in a list of pairs.
#[derive(Drop)]
struct KeyPlace {
    // The place of the first pair with no lesser key.
    at: usize,
    // Whether that pair has the key.
    is_held: bool,
}

// Finds the place of a key by halves.
fn place(held: &[HeldPair], key: &[u8]) -> KeyPlace
    requires { IsTrue (is_rising held.now) }
    ensures at { IsPlace held.now key.now result.at }
    ensures is_held { result.is_held ≡ begins_with key.now (drop result.at held.now) }
{
    let mut low = 0;
    let mut high = held.len();
    while low < high {
        let at = middle(low, high);
        match held[at].key().cmp(key) {
            Ordering::Less => low = at + 1,
            Ordering::Equal => return KeyPlace { at, is_held: true },
            Ordering::Greater => high = at,
        }
    }
    KeyPlace {
        at: low,
        is_held: false,
    }
}

// The pairs of a range.
fn between<'a>(held: &'a [HeldPair], low: &[u8], high: &[u8]) -> &'a [HeldPair]
    requires { IsTrue (is_rising held.now) }
    ensures { result.now ≡ filter (is_within low.now high.now) held.now }
{
    let rest = &held[place(held, low).at..];
    &rest[..place(rest, high).at]
}

// Puts copies of pairs behind those that are there, until there are `most` in all.
fn copy_first(
    alloc: Global,
    held: &[HeldPair],
    most: usize,
    copies: &mut List<Pair>,
) -> Result<(), NoMem>
    requires { length copies.old ≤ most }
    ensures few { length copies.new ≤ most }
    ensures ok { OnOk result (map entry copies.new ≡ take most (map entry copies.old ++ held.now)) }
{
    for pair in held {
        if copies.items().len() == most {
            return Ok(());
        }
        copies.push(alloc, pair_of(alloc, pair.key(), pair.value())?)?;
    }
    Ok(())
}

// Puts a pair, over the one with its key where there is one.
fn put_in(held: &mut Vec<HeldPair>, pair: HeldPair) -> Result<(), NoMem>
    requires { IsTrue (is_rising held.old.items) }
    ensures ok { OnOk result (held.new.items ≡ put key_cmp pair.0 pair.1 held.old.items) }
    ensures err { OnErr result (held.new.items ≡ held.old.items) }
{
    let place = place(held.as_slice(), pair.key());
    if place.is_held {
        held[place.at] = pair;
        return Ok(());
    }
    held.insert(place.at, pair)?;
    Ok(())
}

// Takes the pair of a key out.
fn take_from(held: &mut Vec<HeldPair>, key: &[u8])
    requires { IsTrue (is_rising held.old.items) }
    ensures { held.new.items ≡ others key.now held.old.items }
{
    let place = place(held.as_slice(), key);
    if place.is_held {
        held.remove(place.at);
    }
}

impl Begins for Block {
    ghost pairs = { λ pairs. pairs };

    fn key(&self) -> &[u8] {
        self.held[0].key()
    }
}

impl Run for Block {
    fn new(alloc: Global) -> Block {
        Block {
            held: Vec::new(alloc),
        }
    }

    fn is_empty(&self) -> bool {
        self.held.as_slice().is_empty()
    }

    fn find(&self, key: &[u8]) -> Option<&[u8]> {
        let held = self.held.as_slice();
        let place = place(held, key);
        if place.is_held {
            return Some(held[place.at].value());
        }
        None
    }

    fn copy_all(&self, alloc: Global, copies: &mut List<Pair>) -> Result<(), NoMem> {
        for pair in &self.held {
            copies.push(alloc, pair_of(alloc, pair.key(), pair.value())?)?;
        }
        Ok(())
    }

    fn copy_range(
        &self,
        alloc: Global,
        low: &[u8],
        high: &[u8],
        most: usize,
        copies: &mut List<Pair>,
    ) -> Result<(), NoMem> {
        copy_first(
            alloc,
            between(self.held.as_slice(), low, high),
            most,
            copies,
        )
    }

    fn number(&self, low: &[u8], high: &[u8], cap: u32) -> u32 {
        let n = between(self.held.as_slice(), low, high).len();
        if n < cap as usize {
            return n as u32;
        }
        cap
    }

    fn cut(&mut self, alloc: Global, key: &[u8]) -> Result<Option<Block>, NoMem> {
        if self.held.len() < MOST {
            return Ok(None);
        }
        let held = cut_at(&mut self.held, key)?;
        Ok(Some(Block { held }))
    }

    fn put(&mut self, _alloc: Global, pair: HeldPair) -> Result<(), NoMem> {
        put_in(&mut self.held, pair)
    }

    fn take_out(&mut self, key: &[u8]) {
        take_from(&mut self.held, key);
    }
}
