//! The store over parts.
ghost use Rattle.std.specs.Prelude.{◌≡◌, ◌≤◌, ◌<◌, ◌+◌, ◌*◌, ◌^◌, ◌++◌, ◌⊎◌, ◌↔◌, IfSome, IfOk, IfErr, IsOk, OnOk, IsErrOf, OnErr, IsTrue, map, take, drop, length, min, sum_by, None, true, false, ⊤};
ghost use Rattle.std.specs.List.{AllByRecursion, AllZip};
ghost use Rattle.std.specs.Option.{option_map, option_copied};
ghost use Rattle.std.specs.FinMap.{get as value_at};
ghost use Rattle.pq_store.specs.Counts.{charged_counts, raised_counts};
ghost use Rattle.pq_store.specs.Rounds.{Affords, Pays, IsValueOf, IsValueAnswered, ArePairsOf, IsPartAsked, one_if_some};
ghost use Rattle.pq_store.specs.Content.{AreAnswers, entry, pairs_within, after_write, admits, got_entries, ranged_entries, counted_entries, IsPartOf, HasCause};
ghost use Rattle.pq_parts.specs.Tally.{counted_call, HasAsked};
ghost use Rattle.pq_parts.specs.Spans.{IsPlacement, part_has_key, first_from, firsts, spans, content_of, number_met, faults_of};
ghost use Rattle.pq_parts.specs.Gathered.{IsGathered, IsPieceAt, IsCountAt};
ghost use Rattle.pq_parts.specs.Asking.{IsGetsAt, IsRangesAt, AreFoundBut, ArePairsTold, is_spread, is_end_within, range_calls, spread_calls, rounds_of, AsksNodes};

use crate::asking::{entries_of, number_of};
use crate::part::Part;
use crate::payment::{is_small, pay_round};
use crate::placing::are_placed;
use crate::tally::Tally;
use pq_base::{Bytes, List, NoMem};
use pq_store::{Allowance, Ends, Guard, Meter, Pair, Store, StoreErr, Test};
use std::alloc::Global;
use std::marker::Model;
use std::sync::ledger::Ledger;

/// A store over parts in the order of their keys. The calls of its nodes are counted on a meter of its own.
#[derive(Drop)]
pub struct PartStore<S, N: Ledger> {
    pub(crate) parts: Vec<Part<S>>,
    pub(crate) tally: Tally<N>,
}

impl<S, N: Ledger> Model for PartStore<S, N> {
    ghost use Rattle.pq_parts.specs.Spans.{PlacedNode, IsPlacement};

    ghost Value = { PlacedNode S };

    ghost view = { λ p. record { parts = p.parts.items; tally = p.tally } };

    ghost invariant = { λ p. IsPlacement p.parts.items };
}

impl<S, N: Ledger> PartStore<S, N> {
    /// The store of these parts. They are given back exactly where there are none or more than 64,
    /// the first doesn't begin at the empty key, or they don't strictly rise.
    pub fn new(parts: List<Part<S>>, nodes: Meter<N>) -> Result<PartStore<S, N>, List<Part<S>>>
    where
        N: Drop,
        ensures placed { IsOk result ↔ IsPlacement parts }
        ensures store { IfOk result (λ store. store
            ≡ record { parts = parts; tally = record { nodes = nodes; ops = 0; entries = 0 } }) }
        ensures back { IfErr result (λ back. back ≡ parts) }
    {
        if !are_placed(parts.items()) {
            return Err(parts);
        }
        Ok(PartStore {
            parts: parts.into_vec(),
            tally: Tally::new(nodes),
        })
    }

    /// How many calls of nodes the calls so far have made, up to the last number of 64 bits.
    pub fn node_ops(&self) -> u64
        ensures { result ≡ self.now.tally.ops }
    {
        self.tally.ops()
    }

    /// How many entries the nodes have answered so far, up to the last number of 64 bits.
    pub fn node_entries(&self) -> u64
        ensures { result ≡ self.now.tally.entries }
    {
        self.tally.entries()
    }

    // The place of the part that has the key.
    pub(crate) fn place(&self, key: &[u8]) -> usize
        ensures within { result < length self.now.parts }
        ensures has { IsTrue (part_has_key self.now.parts result key.now) }
        ensures placed { IsPlacement self.now.parts }
    {
        self.parts
            .as_slice()
            .partition_point(|part| part.from.items().cmp(key).is_le())
            - 1
    }
}

impl<S: Store<N>, N: Ledger> PartStore<S, N> {
    // The pairs of the range: the parts in order.
    fn collect(
        &mut self,
        alloc: Global,
        low: &[u8],
        high: &[u8],
        limit: u32,
    ) -> Result<List<Pair>, StoreErr>
        ensures answer { IfOk result (λ found. IfSome (content_of S.content self.old.parts) (λ pairs.
            map entry found ≡ take limit (pairs_within pairs low.now high.now))) }
        ensures part { IfOk result (λ found. IsPartOf low.now high.now limit (map entry found)) }
        ensures asks { AsksNodes S.Store self.old.parts self.new.parts (length self.old.parts) result }
        ensures nodes { HasAsked self.old.tally self.new.tally
            (number_met low.now high.now (spans S.content self.old.parts)) limit (ranged_entries result) result }
    {
        let mut found = List::new(alloc);
        for at in 0..self.parts.len() {
            self.take_part(alloc, at, low, high, limit, &mut found)?;
        }
        Ok(found)
    }

    // Puts what the part at this place has of the range behind what was found before it.
    fn take_part(
        &mut self,
        alloc: Global,
        at: usize,
        low: &[u8],
        high: &[u8],
        limit: u32,
        found: &mut List<Pair>,
    ) -> Result<(), StoreErr>
        requires within { at < length self.old.parts }
        requires few { length found.old ≤ limit }
        ensures gathers { (before : _)
            → OnOk result (IsGathered (spans S.content self.old.parts) before self.old.tally at low.now high.now
            limit (map entry found.old)
            → IsGathered (spans S.content self.old.parts) before self.new.tally (at + 1) low.now high.now limit
            (map entry found.new)) }
        ensures nodes { (before : _)
            → OnErr result (IsGathered (spans S.content self.old.parts) before self.old.tally at low.now
            high.now limit (map entry found.old)
            → HasAsked before self.new.tally (number_met low.now high.now (spans S.content self.old.parts))
            limit 0 result) }
        ensures asks { AsksNodes S.Store self.old.parts self.new.parts 1 result }
    {
        let left = limit - found.items().len() as u32;
        match self.range_at(alloc, at, low, high, left) {
            Ok(piece) => match append(alloc, found, piece) {
                Ok(()) => Ok(()),
                Err(_) => Err(StoreErr::NoMem),
            },
            Err(error) => Err(error),
        }
    }

    // The first `limit` pairs of the range that the part at this place has.
    fn range_at(
        &mut self,
        alloc: Global,
        at: usize,
        low: &[u8],
        high: &[u8],
        limit: u32,
    ) -> Result<List<Pair>, StoreErr>
        requires { at < length self.old.parts }
        ensures piece { IsPieceAt (spans S.content self.old.parts) at low.now high.now limit self.old.tally
            self.new.tally result }
        ensures asks { AsksNodes S.Store self.old.parts self.new.parts 1 result }
    {
        match self.end_of(alloc, at) {
            Ok(until) => self.ask_range(alloc, at, low, high, &until, limit),
            Err(_) => Err(StoreErr::NoMem),
        }
    }

    // The first `limit` pairs of the range that the part at this place, which ends there, has.
    fn ask_range(
        &mut self,
        alloc: Global,
        at: usize,
        low: &[u8],
        high: &[u8],
        until: &Option<Bytes>,
        limit: u32,
    ) -> Result<List<Pair>, StoreErr>
        requires within { at < length self.old.parts }
        requires end { until.now ≡ first_from (drop (at + 1) self.old.parts) }
        ensures piece { IsPieceAt (spans S.content self.old.parts) at low.now high.now limit self.old.tally
            self.new.tally result }
        ensures asks { AsksNodes S.Store self.old.parts self.new.parts 1 result }
    {
        self.parts[at].range(alloc, low, high, until, limit, &mut self.tally)
    }

    // A copy of the key before which the part at this place ends: its node is lent to the call.
    fn end_of(&self, alloc: Global, at: usize) -> Result<Option<Bytes>, NoMem>
        requires { at < length self.now.parts }
        ensures end { IfOk result (λ end. end ≡ first_from (drop (at + 1) self.now.parts)) }
        ensures placed { IsPlacement self.now.parts }
    {
        match self.parts.get(at + 1) {
            Some(next) => Ok(Some(Bytes::of_bytes(alloc, next.from.items())?)),
            None => Ok(None),
        }
    }

    // The number of pairs of the range: the parts in order.
    fn total(&mut self, alloc: Global, low: &[u8], high: &[u8], cap: u32) -> Result<u32, StoreErr>
        ensures answer { IfOk result (λ n. IfSome (content_of S.content self.old.parts) (λ pairs.
            n ≡ min cap (length (pairs_within pairs low.now high.now)))) }
        ensures few { IfOk result (λ n. n ≤ cap) }
        ensures asks { AsksNodes S.Store self.old.parts self.new.parts (length self.old.parts) result }
        ensures nodes { HasAsked self.old.tally self.new.tally
            (number_met low.now high.now (spans S.content self.old.parts)) cap (counted_entries result) result }
    {
        let mut n = 0;
        for at in 0..self.parts.len() {
            n += self.count_at(alloc, at, low, high, cap - n)?;
        }
        Ok(n)
    }

    // How many pairs of the range the part at this place has, up to `cap`.
    fn count_at(
        &mut self,
        alloc: Global,
        at: usize,
        low: &[u8],
        high: &[u8],
        cap: u32,
    ) -> Result<u32, StoreErr>
        requires { at < length self.old.parts }
        ensures number { IsCountAt (spans S.content self.old.parts) at low.now high.now cap self.old.tally
            self.new.tally result }
        ensures asks { AsksNodes S.Store self.old.parts self.new.parts 1 result }
    {
        match self.end_of(alloc, at) {
            Ok(until) => self.ask_count(alloc, at, low, high, &until, cap),
            Err(_) => Err(StoreErr::NoMem),
        }
    }

    // How many pairs of the range the part at this place, which ends there, has, up to `cap`.
    fn ask_count(
        &mut self,
        alloc: Global,
        at: usize,
        low: &[u8],
        high: &[u8],
        until: &Option<Bytes>,
        cap: u32,
    ) -> Result<u32, StoreErr>
        requires within { at < length self.old.parts }
        requires end { until.now ≡ first_from (drop (at + 1) self.old.parts) }
        ensures number { IsCountAt (spans S.content self.old.parts) at low.now high.now cap self.old.tally
            self.new.tally result }
        ensures asks { AsksNodes S.Store self.old.parts self.new.parts 1 result }
    {
        self.parts[at].count(alloc, low, high, until, cap, &mut self.tally)
    }

    // The values of the keys: each part that has some is asked once.
    fn fetch(
        &mut self,
        alloc: Global,
        keys: &[Option<Bytes>],
    ) -> Result<List<Option<Bytes>>, StoreErr>
        requires { length keys.now < 2 ^ 32 }
        ensures answer { IfOk result (AllZip (IsValueOf (content_of S.content self.old.parts)) keys.now) }
        ensures answered { IfOk result (AllZip (IsValueAnswered (λ _ _. ⊤)) keys.now) }
        ensures asks { AsksNodes S.Store self.old.parts self.new.parts (length self.old.parts) result }
    {
        let mut found = no_values(alloc, keys)?.into_vec();
        for at in 0..self.parts.len() {
            self.gets_at(alloc, at, keys, &mut found)?;
        }
        Ok(List::from_vec(found))
    }

    // Puts the values of the keys that the part at this place has at their places.
    fn gets_at(
        &mut self,
        alloc: Global,
        at: usize,
        keys: &[Option<Bytes>],
        found: &mut Vec<Option<Bytes>>,
    ) -> Result<(), StoreErr>
        requires within { at < length self.old.parts }
        requires few { length keys.now < 2 ^ 32 }
        requires long { length found.old.items ≡ length keys.now }
        ensures put { OnOk result (IsGetsAt (spans S.content self.old.parts) at keys.now found.old.items
            found.new.items) }
        ensures asks { AsksNodes S.Store self.old.parts self.new.parts 1 result }
    {
        match self.end_of(alloc, at) {
            Ok(until) => self.ask_gets(alloc, at, keys, &until, found),
            Err(_) => Err(StoreErr::NoMem),
        }
    }

    // Puts the values of the keys that the part at this place, which ends there, has at their places.
    fn ask_gets(
        &mut self,
        alloc: Global,
        at: usize,
        keys: &[Option<Bytes>],
        until: &Option<Bytes>,
        found: &mut Vec<Option<Bytes>>,
    ) -> Result<(), StoreErr>
        requires within { at < length self.old.parts }
        requires end { until.now ≡ first_from (drop (at + 1) self.old.parts) }
        requires few { length keys.now < 2 ^ 32 }
        requires long { length found.old.items ≡ length keys.now }
        ensures put { OnOk result (IsGetsAt (spans S.content self.old.parts) at keys.now found.old.items
            found.new.items) }
        ensures asks { AsksNodes S.Store self.old.parts self.new.parts 1 result }
    {
        self.parts[at].gets(alloc, keys, until, found, &mut self.tally)
    }

    // The pairs of the ranges: each part that has all keys of some is asked once for those.
    fn fetch_parts(
        &mut self,
        alloc: Global,
        asks: &[Option<Ends>],
        limit: u32,
    ) -> Result<List<List<Pair>>, StoreErr>
        requires limit { 1 ≤ limit }
        requires few { length asks.now * limit < 2 ^ 32 }
        ensures answer { IfOk result (AllZip (ArePairsOf (content_of S.content self.old.parts) limit) asks.now) }
        ensures parts { IfOk result (AllZip (IsPartAsked limit) asks.now) }
        ensures asks { AsksNodes S.Store self.old.parts self.new.parts
            (length self.old.parts + sum_by (spread_calls (spans S.content self.old.parts)) asks.now) result }
    {
        let spread = self.spread_parts(alloc, asks, limit)?;
        let mut found = spread.into_vec();
        for at in 0..self.parts.len() {
            self.ranges_at(alloc, at, asks, limit, &mut found)?;
        }
        Ok(List::from_vec(found))
    }

    // The pairs of the ranges that lie in no part alone, and none of the others.
    fn spread_parts(
        &mut self,
        alloc: Global,
        asks: &[Option<Ends>],
        limit: u32,
    ) -> Result<List<List<Pair>>, StoreErr>
        ensures found { IfOk result (AllZip (AreFoundBut (content_of S.content self.old.parts)
            (spans S.content self.old.parts) limit) asks.now) }
        ensures asks { AsksNodes S.Store self.old.parts self.new.parts
            (sum_by (spread_calls (spans S.content self.old.parts)) asks.now) result }
    {
        let mut found = List::new(alloc);
        for asked in asks {
            let pairs = self.spread_pairs(alloc, asked, limit)?;
            found.push(alloc, pairs)?;
        }
        Ok(found)
    }

    // The pairs of the range, where it lies in no part alone.
    fn spread_pairs(
        &mut self,
        alloc: Global,
        asked: &Option<Ends>,
        limit: u32,
    ) -> Result<List<Pair>, StoreErr>
        ensures found { IfOk result (AreFoundBut (content_of S.content self.old.parts)
            (spans S.content self.old.parts) limit asked.now) }
        ensures asks { AsksNodes S.Store self.old.parts self.new.parts
            (spread_calls (spans S.content self.old.parts) asked.now) result }
    {
        match asked {
            Some(ends) => self.spread_range(alloc, ends, limit),
            None => Ok(List::new(alloc)),
        }
    }

    // The pairs of the range, where no part has all its keys; else none.
    fn spread_range(
        &mut self,
        alloc: Global,
        ends: &Ends,
        limit: u32,
    ) -> Result<List<Pair>, StoreErr>
        ensures found { IfOk result (λ found. is_spread (spans S.content self.old.parts) ends.now ≡ true
            → ArePairsTold (content_of S.content self.old.parts) limit ends.now found) }
        ensures asks { AsksNodes S.Store self.old.parts self.new.parts
            (range_calls (spans S.content self.old.parts) ends.now) result }
    {
        if self.lies_in_one(ends) {
            return Ok(List::new(alloc));
        }
        self.collect(alloc, ends.low.items(), ends.high.items(), limit)
    }

    // Whether a part has all keys of the range.
    fn lies_in_one(&self, ends: &Ends) -> bool
        ensures lies { (content : _) → IsTrue result → is_spread (spans content self.now.parts) ends.now ≡ false }
        ensures spread { (content : _) → result ≡ false → is_spread (spans content self.now.parts) ends.now ≡ true }
    {
        let at = self.place(ends.low.items());
        self.ends_before(at, ends.high.items())
    }

    // Whether a range with this end goes no further than the part at this place.
    pub(crate) fn ends_before(&self, at: usize, high: &[u8]) -> bool
        requires { at < length self.now.parts }
        ensures { result ≡ is_end_within high.now (first_from (drop (at + 1) self.now.parts)) }
    {
        match self.parts.get(at + 1) {
            Some(next) => high.cmp(next.from.items()).is_le(),
            None => true,
        }
    }

    // Puts the pairs of the ranges that lie in the keys of the part at this place at their places.
    fn ranges_at(
        &mut self,
        alloc: Global,
        at: usize,
        asks: &[Option<Ends>],
        limit: u32,
        found: &mut Vec<List<Pair>>,
    ) -> Result<(), StoreErr>
        requires within { at < length self.old.parts }
        requires limit { 1 ≤ limit }
        requires few { length asks.now * limit < 2 ^ 32 }
        requires long { length found.old.items ≡ length asks.now }
        ensures put { OnOk result (IsRangesAt (spans S.content self.old.parts) at limit asks.now found.old.items
            found.new.items) }
        ensures asks { AsksNodes S.Store self.old.parts self.new.parts 1 result }
    {
        match self.end_of(alloc, at) {
            Ok(until) => self.ask_ranges(alloc, at, asks, limit, &until, found),
            Err(_) => Err(StoreErr::NoMem),
        }
    }

    // Puts the pairs of the ranges that lie in the keys of the part at this place, which ends there, at
    // their places.
    fn ask_ranges(
        &mut self,
        alloc: Global,
        at: usize,
        asks: &[Option<Ends>],
        limit: u32,
        until: &Option<Bytes>,
        found: &mut Vec<List<Pair>>,
    ) -> Result<(), StoreErr>
        requires within { at < length self.old.parts }
        requires end { until.now ≡ first_from (drop (at + 1) self.old.parts) }
        requires limit { 1 ≤ limit }
        requires few { length asks.now * limit < 2 ^ 32 }
        requires long { length found.old.items ≡ length asks.now }
        ensures put { OnOk result (IsRangesAt (spans S.content self.old.parts) at limit asks.now found.old.items
            found.new.items) }
        ensures asks { AsksNodes S.Store self.old.parts self.new.parts 1 result }
    {
        self.parts[at].put_pairs(alloc, asks, limit, until, found, &mut self.tally)
    }
}

// Puts the pairs behind those that were found. After an error some of them are there.
fn append(alloc: Global, found: &mut List<Pair>, piece: List<Pair>) -> Result<(), NoMem>
    ensures { OnOk result (found.new ≡ found.old ++ piece) }
{
    for pair in piece.into_vec() {
        found.push(alloc, pair)?;
    }
    Ok(())
}

// No value for each of the keys.
fn no_values(alloc: Global, keys: &[Option<Bytes>]) -> Result<List<Option<Bytes>>, NoMem>
    ensures { IfOk result (λ found. found ≡ map (λ _. None) keys.now) }
{
    let mut found = List::new(alloc);
    for _asked in keys {
        found.push(alloc, None)?;
    }
    Ok(found)
}

impl<S: Store<N>, N: Ledger, L: Ledger> Store<L> for PartStore<S, N> {
    ghost use Rattle.pq_parts.specs.Spans.{content_of, faults_of};

    ghost content = { λ s. content_of S.content s.parts };

    ghost faults = { λ s. faults_of S.faults s.parts };

    /// One call of the node that has the key.
    fn get(
        &mut self,
        alloc: Global,
        key: &[u8],
        meter: &mut Meter<L>,
    ) -> Result<Option<Bytes>, StoreErr>
        ensures answer { IfOk result (λ found. IfSome (content_of S.content self.old.parts)
            (λ pairs. found ≡ value_at pairs key.now)) }
        ensures same { content_of S.content self.new.parts ≡ content_of S.content self.old.parts }
        ensures cause { HasCause (faults_of S.faults self.old.parts) (faults_of S.faults self.new.parts) result }
        ensures meter { meter.new ≡ charged_counts meter.old (got_entries result) }
        ensures places { firsts self.new.parts ≡ firsts self.old.parts }
        ensures nodes { self.new.tally ≡ counted_call self.old.tally 1 (got_entries result) }
    {
        let at = self.place(key);
        let found = self.tally.get(alloc, &mut self.parts[at].store, key);
        match &found {
            Ok(Some(_)) => meter.charge(1),
            _ => meter.charge(0),
        }
        found
    }

    /// Asks the parts that the range meets, in order, each for what is left of the limit.
    fn range(
        &mut self,
        alloc: Global,
        low: &[u8],
        high: &[u8],
        limit: u32,
        meter: &mut Meter<L>,
    ) -> Result<List<Pair>, StoreErr>
        requires { 1 ≤ limit }
        ensures answer { IfOk result (λ found. IfSome (content_of S.content self.old.parts) (λ pairs.
            map entry found ≡ take limit (pairs_within pairs low.now high.now))) }
        ensures part { IfOk result (λ found. IsPartOf low.now high.now limit (map entry found)) }
        ensures same { content_of S.content self.new.parts ≡ content_of S.content self.old.parts }
        ensures cause { HasCause (faults_of S.faults self.old.parts) (faults_of S.faults self.new.parts) result }
        ensures meter { meter.new ≡ charged_counts meter.old (ranged_entries result) }
        ensures places { firsts self.new.parts ≡ firsts self.old.parts }
        ensures nodes { HasAsked self.old.tally self.new.tally
            (number_met low.now high.now (spans S.content self.old.parts)) limit (ranged_entries result) result }
    {
        match self.collect(alloc, low, high, limit) {
            Ok(found) => {
                meter.charge(found.items().len() as u32);
                Ok(found)
            }
            Err(error) => {
                meter.charge(0);
                Err(error)
            }
        }
    }

    /// Asks the parts that the range meets, in order, each for what is left of the cap.
    fn count(
        &mut self,
        alloc: Global,
        low: &[u8],
        high: &[u8],
        cap: u32,
        meter: &mut Meter<L>,
    ) -> Result<u32, StoreErr>
        ensures answer { IfOk result (λ n. IfSome (content_of S.content self.old.parts) (λ pairs.
            n ≡ min cap (length (pairs_within pairs low.now high.now)))) }
        ensures few { IfOk result (λ n. n ≤ cap) }
        ensures same { content_of S.content self.new.parts ≡ content_of S.content self.old.parts }
        ensures cause { HasCause (faults_of S.faults self.old.parts) (faults_of S.faults self.new.parts) result }
        ensures meter { meter.new ≡ charged_counts meter.old (counted_entries result) }
        ensures places { firsts self.new.parts ≡ firsts self.old.parts }
        ensures nodes { HasAsked self.old.tally self.new.tally
            (number_met low.now high.now (spans S.content self.old.parts)) cap (counted_entries result) result }
    {
        match self.total(alloc, low, high, cap) {
            Ok(n) => {
                meter.charge(n);
                Ok(n)
            }
            Err(error) => {
                meter.charge(0);
                Err(error)
            }
        }
    }

    /// One call of the node that has the key.
    fn write(
        &mut self,
        alloc: Global,
        key: &[u8],
        guard: Guard,
        new: Option<&[u8]>,
        meter: &mut Meter<L>,
    ) -> Result<bool, StoreErr>
        ensures answer { IfOk result (λ done. IfSome (content_of S.content self.old.parts) (λ pairs.
            done ≡ admits guard.entry (value_at pairs key.now))) }
        ensures content { OnOk result (content_of S.content self.new.parts
            ≡ option_map (after_write guard.entry key.now (option_copied new.entry))
            (content_of S.content self.old.parts)) }
        ensures no_memory { IsErrOf result StoreErr.NoMem
            → content_of S.content self.new.parts ≡ content_of S.content self.old.parts }
        ensures failed { IsErrOf result StoreErr.Failed
            → (content_of S.content self.new.parts ≡ content_of S.content self.old.parts)
            ⊎ (content_of S.content self.new.parts
            ≡ option_map (after_write guard.entry key.now (option_copied new.entry))
            (content_of S.content self.old.parts)) }
        ensures cause { HasCause (faults_of S.faults self.old.parts) (faults_of S.faults self.new.parts) result }
        ensures meter { meter.new ≡ charged_counts meter.old 0 }
        ensures places { firsts self.new.parts ≡ firsts self.old.parts }
        ensures nodes { self.new.tally ≡ counted_call self.old.tally 1 0 }
    {
        meter.charge(0);
        let at = self.place(key);
        self.tally
            .write(alloc, &mut self.parts[at].store, key, guard, new)
    }

    /// One call of `gets` for each node that has some of the keys: a round over n nodes is at most n
    /// rounds of theirs. After a fault each key counts as an operation. Of keys whose number has more
    /// than 32 bits, which no bound allows, each is asked alone.
    fn gets(
        &mut self,
        alloc: Global,
        keys: &[Option<Bytes>],
        allowance: &mut Allowance,
        meter: &mut Meter<L>,
    ) -> Result<List<Option<Bytes>>, StoreErr>
        requires share { Affords allowance.old (length keys.now) (length keys.now) }
        ensures answer { IfOk result (AllZip (IsValueOf (content_of S.content self.old.parts)) keys.now) }
        ensures answered { IfOk result (AllZip (IsValueAnswered (λ _ _. ⊤)) keys.now) }
        ensures same { content_of S.content self.new.parts ≡ content_of S.content self.old.parts }
        ensures cause { HasCause (faults_of S.faults self.old.parts) (faults_of S.faults self.new.parts) result }
        ensures paid { Pays allowance.old allowance.new meter.old meter.new (length keys.now) (length keys.now) }
        ensures counted { IfOk result (λ found. meter.new ≡ raised_counts meter.old (sum_by one_if_some keys.now)
            (sum_by one_if_some found)) }
        ensures rounds { length keys.now < 2 ^ 32 → rounds_of S.rounds self.new.parts
            ≤ rounds_of S.rounds self.old.parts + length self.old.parts }
    {
        if keys.len() > u32::MAX as usize {
            return self.gets_singly(alloc, keys, allowance, meter);
        }
        match self.fetch(alloc, keys) {
            Ok(found) => {
                pay_round(keys, number_of(found.items()) as u32, allowance, meter);
                Ok(found)
            }
            Err(error) => {
                pay_round(keys, 0, allowance, meter);
                Err(error)
            }
        }
    }

    /// One call of `ranges` for each node that has all keys of some of them: a round over n nodes is at
    /// most n rounds of theirs, and n more for each range that lies in no part alone. After a fault each
    /// range counts as an operation. Of ranges that may have more pairs than a number of 32 bits tells,
    /// which no bound allows, each is asked alone.
    fn ranges(
        &mut self,
        alloc: Global,
        asks: &[Option<Ends>],
        limit: u32,
        allowance: &mut Allowance,
        meter: &mut Meter<L>,
    ) -> Result<List<List<Pair>>, StoreErr>
        requires limit { 1 ≤ limit }
        requires share { Affords allowance.old (length asks.now) (length asks.now * limit) }
        ensures long { IfOk result (λ found. length found ≡ length asks.now) }
        ensures answer { IfOk result (AllZip (ArePairsOf (content_of S.content self.old.parts) limit) asks.now) }
        ensures parts { IfOk result (AllZip (IsPartAsked limit) asks.now) }
        ensures answered { IfOk result (AllByRecursion (AreAnswers (λ _ _. ⊤))) }
        ensures same { content_of S.content self.new.parts ≡ content_of S.content self.old.parts }
        ensures cause { HasCause (faults_of S.faults self.old.parts) (faults_of S.faults self.new.parts) result }
        ensures paid { Pays allowance.old allowance.new meter.old meter.new (length asks.now)
            (length asks.now * limit) }
        ensures counted { IfOk result (λ found. meter.new ≡ raised_counts meter.old (sum_by one_if_some asks.now)
            (sum_by length found)) }
        ensures rounds { length asks.now * limit < 2 ^ 32 → rounds_of S.rounds self.new.parts
            ≤ rounds_of S.rounds self.old.parts + length self.old.parts
            + sum_by (spread_calls (spans S.content self.old.parts)) asks.now }
    {
        if asks.len() as u128 * limit as u128 > u32::MAX as u128 {
            return self.ranges_singly(alloc, asks, limit, allowance, meter);
        }
        match self.fetch_parts(alloc, asks, limit) {
            Ok(found) => {
                pay_round(asks, entries_of(found.items()), allowance, meter);
                Ok(found)
            }
            Err(error) => {
                pay_round(asks, 0, allowance, meter);
                Err(error)
            }
        }
    }

    /// Tests in a row that one part answers alone are one call of its node, and a range that several parts
    /// have is a count of each that it meets. Where more is left than a number of 32 bits tells, which no
    /// bound allows, each test is made alone.
    fn first_held(
        &mut self,
        alloc: Global,
        tests: &[Test],
        allowance: &mut Allowance,
        meter: &mut Meter<L>,
    ) -> Result<Option<usize>, StoreErr> {
        if !is_small(allowance) {
            return self.first_held_singly(alloc, tests, allowance, meter);
        }
        let mut made = 0;
        while made < tests.len() {
            let Some(row) = self.first_row(&tests[made..]) else {
                if self.holds(alloc, &tests[made], allowance, meter)? {
                    return Ok(Some(made));
                }
                made += 1;
                continue;
            };
            let end = made + row.len;
            let held = self.row_held(alloc, row.at, &tests[made..end], allowance, meter)?;
            if let Some(place) = held {
                return Ok(Some(made + place));
            }
            made = end;
        }
        Ok(None)
    }
}
