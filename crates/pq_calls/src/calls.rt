//! Single calls on a store, each paid from an allowance.
ghost use Rattle.std.specs.Prelude.{◌≡◌, ◌≤◌, ◌<◌, ◌+◌, ◌*◌, position, length, map, take, min, is_some, Some, IfOk, IfErr, IfSome};
ghost use Rattle.std.specs.List.{AllByRecursion, AllZip, sum_by};
ghost use Rattle.std.specs.FinMap.{get as value_at};
ghost use Rattle.pq_store.specs.Content.{entry, pairs_within, AreAnswers, IsPartOf};
ghost use Rattle.pq_store.specs.Rounds.{IsValueOf, IsValueAnswered, ArePairsOf, IsPartAsked, test_entries, is_held};
ghost use Rattle.pq_calls.specs.Calls.{Asks};
ghost use Rattle.pq_calls.specs.World.{Affords, no_damage};

use pq_base::{Bytes, List};
use pq_store::{Allowance, Broke, Ends, Meter, Pair, Store, Test};
use std::alloc::Global;
use std::sync::ledger::Ledger;

/// A store, the allowance by which it is called, and the meter that counts the calls.
#[derive(Drop)]
pub struct Calls<'a, S, L: Ledger> {
    pub store: &'a mut S,
    pub allowance: &'a mut Allowance,
    pub meter: &'a mut Meter<L>,
}

impl<'a, S: Store<L>, L: Ledger> Calls<'a, S, L> {
    /// The value of the key: one operation, and an entry where there is one.
    pub fn get(&mut self, alloc: Global, key: &[u8]) -> Result<Option<Bytes>, Broke>
        requires share { Affords self.old.allowance.now 1 1 }
        ensures asks { Asks S.Store no_damage self.old self.new 1 1 1 result }
        ensures answer { IfOk result (λ found. IfSome (S.content self.old.store.now)
            (λ c. found ≡ value_at c key.now)) }
        ensures answers { IfOk result (λ found. S.answers key.now found) }
    {
        let answer = self.store.get(alloc, key, self.meter);
        self.allowance.spend_get(&answer);
        Ok(answer?)
    }

    /// The first `limit` pairs with `low <= key < high`, or all where there are fewer: one operation,
    /// and an entry for each.
    pub fn range(
        &mut self,
        alloc: Global,
        low: &[u8],
        high: &[u8],
        limit: u32,
    ) -> Result<List<Pair>, Broke>
        requires limit { 1 ≤ limit }
        requires share { Affords self.old.allowance.now 1 limit }
        ensures asks { Asks S.Store no_damage self.old self.new 1 limit 1 result }
        ensures answer { IfOk result (λ found. IfSome (S.content self.old.store.now) (λ c.
            map entry found ≡ take limit (pairs_within c low.now high.now))) }
        ensures part { IfOk result (λ found. IsPartOf low.now high.now limit (map entry found)) }
        ensures answers { IfOk result (λ found. AllByRecursion
            (λ pair. S.answers pair.0 (Some pair.1)) (map entry found)) }
    {
        let answer = self.store.range(alloc, low, high, limit, self.meter);
        self.allowance.spend_range(&answer);
        Ok(answer?)
    }

    /// The lesser of `cap` and the number of pairs with `low <= key < high`: one operation, and as many
    /// entries.
    pub fn count(&mut self, alloc: Global, low: &[u8], high: &[u8], cap: u32) -> Result<u32, Broke>
        requires share { Affords self.old.allowance.now 1 cap }
        ensures asks { Asks S.Store no_damage self.old self.new 1 cap 1 result }
        ensures answer { IfOk result (λ n. IfSome (S.content self.old.store.now) (λ c.
            n ≡ min cap (length (pairs_within c low.now high.now)))) }
        ensures few { IfOk result (λ n. n ≤ cap) }
    {
        let answer = self.store.count(alloc, low, high, cap, self.meter);
        self.allowance.spend_count(&answer);
        Ok(answer?)
    }

    /// The values of keys, and None where none stands: one operation and at most one entry for each.
    pub fn gets(
        &mut self,
        alloc: Global,
        keys: &[Option<Bytes>],
    ) -> Result<List<Option<Bytes>>, Broke>
        requires share { Affords self.old.allowance.now (length keys.now) (length keys.now) }
        ensures asks { Asks S.Store no_damage self.old self.new (length keys.now) (length keys.now) 1 result }
        ensures long { IfOk result (λ found. length found ≡ length keys.now) }
        ensures answer { IfOk result (AllZip (IsValueOf (S.content self.old.store.now)) keys.now) }
        ensures answers { IfOk result (AllZip (IsValueAnswered S.answers) keys.now) }
    {
        Ok(self.store.gets(alloc, keys, self.allowance, self.meter)?)
    }

    /// The first `limit` pairs of each range, and none where no ends stand: one operation for each, and an entry for
    /// each pair.
    pub fn ranges(
        &mut self,
        alloc: Global,
        asks: &[Option<Ends>],
        limit: u32,
    ) -> Result<List<List<Pair>>, Broke>
        requires limit { 1 ≤ limit }
        requires share { Affords self.old.allowance.now (length asks.now) (length asks.now * limit) }
        ensures asks { Asks S.Store no_damage self.old self.new (length asks.now) (length asks.now * limit) 1 result }
        ensures long { IfOk result (λ found. length found ≡ length asks.now) }
        ensures answer { IfOk result (AllZip (ArePairsOf (S.content self.old.store.now) limit) asks.now) }
        ensures parts { IfOk result (AllZip (IsPartAsked limit) asks.now) }
        ensures answers { IfOk result (AllByRecursion (AreAnswers S.answers)) }
    {
        Ok(
            self.store
                .ranges(alloc, asks, limit, self.allowance, self.meter)?,
        )
    }

    /// The place of the first test that holds. Nothing is spent for those behind it.
    pub fn first_held(&mut self, alloc: Global, tests: &[Test]) -> Result<Option<usize>, Broke>
        requires share { Affords self.old.allowance.now (length tests.now) (sum_by test_entries tests.now) }
        ensures asks { Asks S.Store no_damage self.old self.new
            (length tests.now) (sum_by test_entries tests.now) 1 result }
        ensures answer { IfOk result (λ at. IfSome (S.content self.old.store.now)
            (λ c. at ≡ position (is_held c) tests.now)) }
        ensures within { IfOk result (λ at. IfSome at (λ i. i < length tests.now)) }
    {
        Ok(
            self.store
                .first_held(alloc, tests, self.allowance, self.meter)?,
        )
    }

    /// Whether the store has a value at this key.
    pub fn has_value(&mut self, alloc: Global, at: &[u8]) -> Result<bool, Broke>
        requires share { Affords self.old.allowance.now 1 1 }
        ensures asks { Asks S.Store no_damage self.old self.new 1 1 1 result }
        ensures answer { IfOk result (λ there. IfSome (S.content self.old.store.now) (λ c.
            there ≡ is_some (value_at c at.now))) }
    {
        Ok(self.get(alloc, at)?.is_some())
    }
}
