//! The calls of nodes, counted: the meter, and beside it numbers that a program can read.
ghost use Rattle.std.specs.Prelude.{◌≡◌, ◌⊎◌, IfSome, IfOk, OnOk, IsErrOf, ◌≤◌, ◌<◌, ◌+◌, ◌-◌, ◌*◌, ◌^◌, map, take, length, min, position, sum_by};
ghost use Rattle.std.specs.List.{AllZip};
ghost use Rattle.std.specs.Option.{option_map, option_copied};
ghost use Rattle.std.specs.FinMap.{get as value_at};
ghost use Rattle.pq_store.specs.Content.{entry, pairs_within, after_write, admits, got_entries, ranged_entries, counted_entries, IsPartOf, HasCause};
ghost use Rattle.pq_store.specs.Counts.{used_of};
ghost use Rattle.pq_store.specs.Rounds.{Affords, Pays, IsValueOf, ArePairsOf, IsPartAsked, AreTestsCounted, is_held, one_if_some, test_entries};
ghost use Rattle.pq_parts.specs.Tally.{raised_number, counted_call};
ghost use Rattle.pq_parts.specs.Asking.{AsksOnce};

use pq_base::{Bound, Bytes, List};
use pq_store::{Allowance, Ends, Guard, Meter, Pair, Store, StoreErr, Test};
use std::alloc::Global;
use std::marker::Model;
use std::sync::ledger::Ledger;

/// How many calls of nodes were made, and how many entries they answered. The numbers beside the
/// meter stand still at the last number of 64 bits.
#[derive(Drop)]
pub struct Tally<N: Ledger> {
    meter: Meter<N>,
    ops: u64,
    entries: u64,
}

impl<N: Ledger> Model for Tally<N> {
    ghost use Rattle.pq_parts.specs.Tally.{TalliedCalls};

    ghost Value = { TalliedCalls };

    ghost view = { λ t. record { nodes = t.meter; ops = t.ops; entries = t.entries } };
}

// The number raised by so much, up to its end.
fn raised(number: u64, more: u64) -> u64
    ensures { result ≡ raised_number number more }
{
    number.saturating_add(more)
}

impl<N: Ledger> Tally<N> {
    /// The tally of calls on this meter, before the first.
    pub fn new(meter: Meter<N>) -> Tally<N>
        ensures { result ≡ record { nodes = meter; ops = 0; entries = 0 } }
    {
        Tally {
            meter,
            ops: 0,
            entries: 0,
        }
    }

    /// How many calls of nodes were made.
    pub fn ops(&self) -> u64
        ensures { result ≡ self.now.ops }
    {
        self.ops
    }

    /// How many entries they answered.
    pub fn entries(&self) -> u64
        ensures { result ≡ self.now.entries }
    {
        self.entries
    }

    // Raises the numbers beside the meter by one call that answered so many entries.
    fn note(&mut self, entries: u32)
        ensures meter { self.new.nodes ≡ self.old.nodes }
        ensures ops { self.new.ops ≡ raised_number self.old.ops 1 }
        ensures entries { self.new.entries ≡ raised_number self.old.entries entries }
    {
        self.ops = raised(self.ops, 1);
        self.entries = raised(self.entries, entries as u64);
    }

    /// The node's `get`, one call.
    pub fn get<S: Store<N>>(
        &mut self,
        alloc: Global,
        node: &mut S,
        key: &[u8],
    ) -> Result<Option<Bytes>, StoreErr>
        ensures answer { IfOk result (λ found. IfSome (S.content node.old) (λ pairs. found ≡ value_at pairs key.now)) }
        ensures asks { AsksOnce S.Store node.old node.new result }
        ensures counts { self.new ≡ counted_call self.old 1 (got_entries result) }
    {
        let found = node.get(alloc, key, &mut self.meter);
        match &found {
            Ok(Some(_)) => self.note(1),
            _ => self.note(0),
        }
        found
    }

    /// The node's `range`, one call.
    pub fn range<S: Store<N>>(
        &mut self,
        alloc: Global,
        node: &mut S,
        low: &[u8],
        high: &[u8],
        limit: u32,
    ) -> Result<List<Pair>, StoreErr>
        requires { 1 ≤ limit }
        ensures answer { IfOk result (λ found. IfSome (S.content node.old) (λ pairs.
            map entry found ≡ take limit (pairs_within pairs low.now high.now))) }
        ensures part { IfOk result (λ found. IsPartOf low.now high.now limit (map entry found)) }
        ensures asks { AsksOnce S.Store node.old node.new result }
        ensures counts { self.new ≡ counted_call self.old 1 (ranged_entries result) }
    {
        let found = node.range(alloc, low, high, limit, &mut self.meter);
        match &found {
            Ok(pairs) => self.note(pairs.items().len() as u32),
            Err(_) => self.note(0),
        }
        found
    }

    /// The node's `count`, one call.
    pub fn count<S: Store<N>>(
        &mut self,
        alloc: Global,
        node: &mut S,
        low: &[u8],
        high: &[u8],
        cap: u32,
    ) -> Result<u32, StoreErr>
        ensures answer { IfOk result (λ n. IfSome (S.content node.old) (λ pairs.
            n ≡ min cap (length (pairs_within pairs low.now high.now)))) }
        ensures few { IfOk result (λ n. n ≤ cap) }
        ensures asks { AsksOnce S.Store node.old node.new result }
        ensures counts { self.new ≡ counted_call self.old 1 (counted_entries result) }
    {
        let found = node.count(alloc, low, high, cap, &mut self.meter);
        match &found {
            Ok(n) => self.note(*n),
            Err(_) => self.note(0),
        }
        found
    }

    /// The node's `write`, one call.
    pub fn write<S: Store<N>>(
        &mut self,
        alloc: Global,
        node: &mut S,
        key: &[u8],
        guard: Guard,
        new: Option<&[u8]>,
    ) -> Result<bool, StoreErr>
        ensures answer { IfOk result (λ done. IfSome (S.content node.old) (λ pairs.
            done ≡ admits guard.entry (value_at pairs key.now))) }
        ensures content { OnOk result (S.content node.new
            ≡ option_map (after_write guard.entry key.now (option_copied new.entry)) (S.content node.old)) }
        ensures no_memory { IsErrOf result StoreErr.NoMem → S.content node.new ≡ S.content node.old }
        ensures failed { IsErrOf result StoreErr.Failed → (S.content node.new ≡ S.content node.old)
            ⊎ (S.content node.new
            ≡ option_map (after_write guard.entry key.now (option_copied new.entry)) (S.content node.old)) }
        ensures cause { HasCause (S.faults node.old) (S.faults node.new) result }
        ensures counts { self.new ≡ counted_call self.old 1 0 }
    {
        let done = node.write(alloc, key, guard, new, &mut self.meter);
        self.note(0);
        done
    }

    // Raises the numbers beside the meter by what was spent.
    fn note_spent(&mut self, allowance: Allowance)
        ensures meter { self.new.nodes ≡ self.old.nodes }
        ensures ops { self.new.ops ≡ raised_number self.old.ops (used_of allowance).ops }
        ensures entries { self.new.entries ≡ raised_number self.old.entries (used_of allowance).entries }
    {
        let used = allowance.used();
        self.ops = raised(self.ops, used.ops);
        self.entries = raised(self.entries, used.entries);
    }

    /// The node's `gets`: one call of it, which counts as one for each key.
    pub fn gets<S: Store<N>>(
        &mut self,
        alloc: Global,
        node: &mut S,
        keys: &[Option<Bytes>],
    ) -> Result<List<Option<Bytes>>, StoreErr>
        requires { length keys.now < 2 ^ 32 }
        ensures long { IfOk result (λ found. length found ≡ length keys.now) }
        ensures answer { IfOk result (AllZip (IsValueOf (S.content node.old)) keys.now) }
        ensures asks { AsksOnce S.Store node.old node.new result }
        ensures counts { IfOk result (λ found. self.new
            ≡ counted_call self.old (sum_by one_if_some keys.now) (sum_by one_if_some found)) }
    {
        let most = keys.len() as u128;
        let mut allowance = Allowance::grant(Bound {
            ops: most,
            entries: most,
        });
        let found = node.gets(alloc, keys, &mut allowance, &mut self.meter);
        self.note_spent(allowance);
        found
    }

    /// The node's `ranges`: one call of it, which counts as one for each range.
    pub fn ranges<S: Store<N>>(
        &mut self,
        alloc: Global,
        node: &mut S,
        asks: &[Option<Ends>],
        limit: u32,
    ) -> Result<List<List<Pair>>, StoreErr>
        requires limit { 1 ≤ limit }
        requires few { length asks.now * limit < 2 ^ 32 }
        ensures long { IfOk result (λ found. length found ≡ length asks.now) }
        ensures answer { IfOk result (AllZip (ArePairsOf (S.content node.old) limit) asks.now) }
        ensures parts { IfOk result (AllZip (IsPartAsked limit) asks.now) }
        ensures asks { AsksOnce S.Store node.old node.new result }
        ensures counts { IfOk result (λ found. self.new
            ≡ counted_call self.old (sum_by one_if_some asks.now) (sum_by length found)) }
    {
        let most = asks.len() as u128;
        let mut allowance = Allowance::grant(Bound {
            ops: most,
            entries: most * limit as u128,
        });
        let found = node.ranges(alloc, asks, limit, &mut allowance, &mut self.meter);
        self.note_spent(allowance);
        found
    }

    // Raises the numbers beside the meter by so many calls, and what they answered.
    fn note_all(&mut self, ops: u64, entries: u64)
        ensures meter { self.new.nodes ≡ self.old.nodes }
        ensures ops { self.new.ops ≡ raised_number self.old.ops ops }
        ensures entries { self.new.entries ≡ raised_number self.old.entries entries }
    {
        self.ops = raised(self.ops, ops);
        self.entries = raised(self.entries, entries);
    }

    /// The node's `first_held`: one call of it, which counts as one for each test up to the one that holds.
    pub fn first_held<S: Store<N>>(
        &mut self,
        alloc: Global,
        node: &mut S,
        tests: &[Test],
        share: &mut Allowance,
    ) -> Result<Option<usize>, StoreErr>
        requires share { Affords share.old (length tests.now) (sum_by test_entries tests.now) }
        ensures answer { IfOk result (λ at. IfSome (S.content node.old) (λ pairs. at ≡ position (is_held pairs) tests.now)) }
        ensures within { IfOk result (λ at. IfSome at (λ i. i < length tests.now)) }
        ensures asks { AsksOnce S.Store node.old node.new result }
        ensures paid { Pays share.old share.new self.old.nodes self.new.nodes (length tests.now)
            (sum_by test_entries tests.now) }
        ensures counted { IfOk result (AreTestsCounted (S.content node.old) self.old.nodes self.new.nodes tests.now) }
        ensures ops { self.new.ops ≡ raised_number self.old.ops (share.old.left.ops - share.new.left.ops) }
        ensures entries { self.new.entries
            ≡ raised_number self.old.entries (share.old.left.entries - share.new.left.entries) }
    {
        let (ops, entries) = (share.ops_left(), share.entries_left());
        let held = node.first_held(alloc, tests, share, &mut self.meter);
        self.note_all(ops - share.ops_left(), entries - share.entries_left());
        held
    }
}
