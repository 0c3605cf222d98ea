//! A store in memory: two parts by the first bytes of keys, seen as one content.
ghost use Rattle.std.specs.Prelude.{◌≡◌, false, IsTrue, IfOk, IfErr, IsOk, OnOk, OnErr, map, take, length, min};
ghost use Rattle.std.specs.Option.{option_copied};
ghost use Rattle.std.specs.FinMap.{empty, entries, get as value_at, insert, remove};
ghost use Rattle.std.specs.Ordering.{eq_by_cmp};
ghost use Rattle.pq_store.specs.Content.{is_rising, entry, pairs_within, key_cmp, admits, written_content};
ghost use Rattle.pq_mem_store.specs.NotPairs.{GivesBack};
ghost use Rattle.pq_mem_store.specs.Split.{first_late, is_from};

use crate::late_pairs::LatePairs;
use crate::pair_tree::PairTree;
use pq_base::{Bytes, List, NoMem};
use pq_store::{Allowance, Ends, Guard, Meter, Pair, Store, StoreErr, Test, rise};
use std::alloc::Global;
use std::marker::Model;
use std::sync::ledger::Ledger;

/// A store in memory, which tells its content and never fails. A look-up and a write take
/// logarithmically many comparisons in the number of pairs, a range and a count besides as many steps
/// as they answer entries. The number of a counter is found by a hash of its key, without a search; a
/// range and a count that have numbers in them put all of these into order first.
///
/// The pairs are in two parts, by the first bytes of their keys. Rows and entries of indexes stand in
/// the early one, which has each in one piece of memory. The intent and the numbers of counters are
/// written over more often than others. They stand in the late one, where no search for them passes a
/// row.
#[derive(Drop)]
pub struct MemStore {
    early: PairTree,
    late: LatePairs,
}

impl Model for MemStore {
    ghost use Rattle.std.specs.Prelude.{IsTrue};
    ghost use Rattle.std.specs.FinMap.{entries};
    ghost use Rattle.pq_store.specs.Content.{Content, content_code};
    ghost use Rattle.pq_mem_store.specs.Split.{first_late, both_contents, are_before, are_from};

    ghost Value = { Content };

    ghost coded = { content_code };

    ghost view = { λ a. both_contents a.early a.late };

    ghost invariant = { λ a. IsTrue (are_before first_late (entries a.early))
        × IsTrue (are_from first_late (entries a.late)) };
}

// Whether a key belongs into the late part: from the first byte 4 on, which no row and no entry of an index has.
fn is_late(key: &[u8]) -> bool
    ensures { result ≡ is_from first_late key.now }
{
    match key {
        [first, ..] => *first >= 4,
        [] => false,
    }
}

/// Why pairs make no store.
#[derive(Drop)]
pub enum NotPairs {
    /// Their keys don't strictly rise: the pairs that were given.
    Unordered(List<Pair>),
    /// There was no memory, and the pairs are dropped.
    NoMem,
}

impl MemStore {
    /// The store without pairs.
    pub fn new(alloc: Global) -> MemStore
        ensures { result ≡ empty }
    {
        MemStore {
            early: PairTree::new(alloc),
            late: LatePairs::new(alloc),
        }
    }

    /// Copies of the pairs in order.
    #[tactic(auto, using(pq_store::proofs::Views::seen_entries))]
    pub fn pairs(&self, alloc: Global) -> Result<List<Pair>, NoMem>
        ensures { IfOk result (λ pairs. map entry pairs ≡ entries self.now) }
    {
        let mut pairs = List::new(alloc);
        self.early.copy_all(alloc, &mut pairs)?;
        self.late.copy_all(alloc, &mut pairs)?;
        Ok(pairs)
    }

    /// The store of these pairs. They are given back exactly where their keys don't strictly rise.
    #[tactic(auto, using(pq_store::proofs::Views::seen_entries))]
    pub fn from_pairs(alloc: Global, pairs: List<Pair>) -> Result<MemStore, NotPairs>
        ensures content { IfOk result (λ store. entries store ≡ map entry pairs) }
        ensures rising { IsOk result → IsTrue (is_rising (map entry pairs)) }
        ensures unordered { IfErr result (λ e. GivesBack e pairs) }
    {
        if !rise(pairs.items()) {
            return Err(NotPairs::Unordered(pairs));
        }
        match MemStore::of_rising(alloc, pairs.items()) {
            Ok(store) => Ok(store),
            Err(_) => Err(NotPairs::NoMem),
        }
    }

    // The store of pairs whose keys strictly rise.
    fn of_rising(alloc: Global, pairs: &[Pair]) -> Result<MemStore, NoMem>
        requires { IsTrue (is_rising (map entry pairs.now)) }
        ensures { IfOk result (λ store. entries store ≡ map entry pairs.now) }
    {
        let mut store = MemStore::new(alloc);
        for pair in pairs {
            store.set(alloc, pair.key.items(), pair.value.items())?;
        }
        Ok(store)
    }

    fn find(&self, key: &[u8]) -> Option<&[u8]>
        ensures { option_copied result ≡ value_at self.now key.now }
    {
        if is_late(key) {
            self.late.find(key)
        } else {
            self.early.find(key)
        }
    }

    fn value(&self, alloc: Global, key: &[u8]) -> Result<Option<Bytes>, NoMem>
        ensures { IfOk result (λ found. found ≡ value_at self.now key.now) }
    {
        copied(alloc, self.find(key))
    }

    fn part(&self, alloc: Global, low: &[u8], high: &[u8], limit: u32) -> Result<List<Pair>, NoMem>
        ensures { IfOk result (λ found. map entry found ≡ take limit (pairs_within self.now low.now high.now)) }
    {
        let mut copies = List::new(alloc);
        if is_late(low) {
            self.late.copy_first(alloc, low, high, limit, &mut copies)?;
            return Ok(copies);
        }
        self.early.copy_first(alloc, low, high, limit, &mut copies)?;
        if !is_late(high) {
            return Ok(copies);
        }
        let left = limit - copies.items().len() as u32;
        self.late.copy_first(alloc, low, high, left, &mut copies)?;
        Ok(copies)
    }

    fn number(&self, alloc: Global, low: &[u8], high: &[u8], cap: u32) -> Result<u32, NoMem>
        ensures { IfOk result (λ n. n ≡ min cap (length (pairs_within self.now low.now high.now))) }
    {
        if is_late(low) {
            return self.late.number(alloc, low, high, cap);
        }
        let early = self.early.number(low, high, cap);
        if !is_late(high) {
            return Ok(early);
        }
        Ok(early + self.late.number(alloc, low, high, cap - early)?)
    }

    fn admits(&self, key: &[u8], guard: Guard) -> bool
        ensures { result ≡ admits guard.entry (value_at self.now key.now) }
    {
        match guard {
            Guard::Any => true,
            Guard::Absent => self.find(key).is_none(),
            Guard::Is(value) => match self.find(key) {
                Some(held) => are_same(held, value),
                None => false,
            },
        }
    }

    fn set(&mut self, alloc: Global, key: &[u8], value: &[u8]) -> Result<(), NoMem>
        ensures ok { OnOk result (self.new ≡ insert self.old key.now value.now) }
        ensures err { OnErr result (self.new ≡ self.old) }
    {
        if is_late(key) {
            self.late.put(alloc, key, value)
        } else {
            self.early.put(alloc, key, value)
        }
    }

    fn remove(&mut self, key: &[u8])
        ensures { self.new ≡ remove self.old key.now }
    {
        if is_late(key) {
            self.late.take_out(key);
        } else {
            self.early.take_out(key);
        }
    }

    // Makes a write that is admitted.
    fn change(&mut self, alloc: Global, key: &[u8], new: Option<&[u8]>) -> Result<(), NoMem>
        ensures ok { OnOk result (self.new ≡ written_content key.now (option_copied new.entry) self.old) }
        ensures err { OnErr result (self.new ≡ self.old) }
    {
        match new {
            None => {
                self.remove(key);
                Ok(())
            }
            Some(value) => self.set(alloc, key, value),
        }
    }
}

// A copy of a value that was found.
fn copied(alloc: Global, found: Option<&[u8]>) -> Result<Option<Bytes>, NoMem>
    ensures { IfOk result (λ copy. copy ≡ option_copied found.entry) }
{
    match found {
        Some(value) => Ok(Some(Bytes::of_bytes(alloc, value)?)),
        None => Ok(None),
    }
}

fn are_same(a: &[u8], b: &[u8]) -> bool
    ensures { result ≡ eq_by_cmp key_cmp a.now b.now }
{
    a.cmp(b).is_eq()
}

impl<L: Ledger> Store<L> for MemStore {
    ghost use Rattle.std.specs.Prelude.{Some};

    ghost content = { λ m. Some m };

    ghost faults = { λ _. 0 };

    fn get(
        &mut self,
        alloc: Global,
        key: &[u8],
        meter: &mut Meter<L>,
    ) -> Result<Option<Bytes>, StoreErr> {
        match self.value(alloc, key) {
            Ok(None) => {
                meter.charge(0);
                Ok(None)
            }
            Ok(Some(value)) => {
                meter.charge(1);
                Ok(Some(value))
            }
            Err(_) => {
                meter.charge(0);
                Err(StoreErr::NoMem)
            }
        }
    }

    fn range(
        &mut self,
        alloc: Global,
        low: &[u8],
        high: &[u8],
        limit: u32,
        meter: &mut Meter<L>,
    ) -> Result<List<Pair>, StoreErr> {
        match self.part(alloc, low, high, limit) {
            Ok(pairs) => {
                meter.charge(pairs.items().len() as u32);
                Ok(pairs)
            }
            Err(_) => {
                meter.charge(0);
                Err(StoreErr::NoMem)
            }
        }
    }

    fn count(
        &mut self,
        alloc: Global,
        low: &[u8],
        high: &[u8],
        cap: u32,
        meter: &mut Meter<L>,
    ) -> Result<u32, StoreErr> {
        match self.number(alloc, low, high, cap) {
            Ok(n) => {
                meter.charge(n);
                Ok(n)
            }
            Err(_) => {
                meter.charge(0);
                Err(StoreErr::NoMem)
            }
        }
    }

    fn write(
        &mut self,
        alloc: Global,
        key: &[u8],
        guard: Guard,
        new: Option<&[u8]>,
        meter: &mut Meter<L>,
    ) -> Result<bool, StoreErr> {
        meter.charge(0);
        if !self.admits(key, guard) {
            return Ok(false);
        }
        match self.change(alloc, key, new) {
            Ok(()) => Ok(true),
            Err(_) => Err(StoreErr::NoMem),
        }
    }

    fn gets(
        &mut self,
        alloc: Global,
        keys: &[Option<Bytes>],
        allowance: &mut Allowance,
        meter: &mut Meter<L>,
    ) -> Result<List<Option<Bytes>>, StoreErr> {
        self.gets_singly(alloc, keys, allowance, meter)
    }

    fn ranges(
        &mut self,
        alloc: Global,
        asks: &[Option<Ends>],
        limit: u32,
        allowance: &mut Allowance,
        meter: &mut Meter<L>,
    ) -> Result<List<List<Pair>>, StoreErr> {
        self.ranges_singly(alloc, asks, limit, allowance, meter)
    }

    fn first_held(
        &mut self,
        alloc: Global,
        tests: &[Test],
        allowance: &mut Allowance,
        meter: &mut Meter<L>,
    ) -> Result<Option<usize>, StoreErr> {
        self.first_held_singly(alloc, tests, allowance, meter)
    }
}
