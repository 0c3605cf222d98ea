//! A store of pairs with rising keys, as its callers know it.
ghost use Rattle.std.specs.Prelude.{◌≡◌, IfOk};
ghost use Rattle.pq_store.specs.Content.{entry};

use crate::allowance::Allowance;
use crate::meter::Meter;
use pq_base::{Bytes, List, NoMem};
use std::alloc::Global;
use std::sync::ledger::Ledger;
use thiserror::Error;

/// A key and its value.
#[derive(Drop)]
pub struct Pair {
    pub key: Bytes,
    pub value: Bytes,
}

/// A pair of copies.
pub fn pair_of(alloc: Global, key: &[u8], value: &[u8]) -> Result<Pair, NoMem>
    ensures { IfOk result (λ pair. entry pair ≡ (key.now, value.now)) }
{
    let key = Bytes::of_bytes(alloc, key)?;
    let value = Bytes::of_bytes(alloc, value)?;
    Ok(Pair { key, value })
}

/// The ends of a range of keys: `low <= key < high`.
#[derive(Drop)]
pub struct Ends {
    pub low: Bytes,
    pub high: Bytes,
}

/// What is asked of the content before a change of it: a key's value, or how many pairs a range has.
#[derive(Drop)]
pub enum Test {
    /// Whether the key has a value.
    Has(Bytes),
    /// Whether it has none.
    Lacks(Bytes),
    /// Whether at least so many pairs are in the range.
    Full(Ends, u32),
}

/// What the key must have before a write, so that the write is made.
#[derive(Clone, Copy)]
pub enum Guard<'a> {
    /// Whatever it has.
    Any,
    /// No value.
    Absent,
    /// Just this value.
    Is(&'a [u8]),
}

/// Why a call of a store has no answer.
#[derive(Debug, Clone, Copy, PartialEq, Eq, Error)]
pub enum StoreErr {
    /// The count of faults rose, or stands at its type's end. After a write the content is the old
    /// one, or the changed one where the guard held.
    #[error("the store failed")]
    Failed,
    /// The content is the old one.
    #[error("out of memory")]
    NoMem,
}

impl From<NoMem> for StoreErr {
    ghost use Rattle.pq_store.specs.declared.store.StoreErr.TheVariants as store_err;

    ghost from_gives = { λ _ made. made ≡ store_err.NoMem };

    fn from(_error: NoMem) -> StoreErr {
        StoreErr::NoMem
    }
}

/// A store of pairs with strictly rising keys, whose calls are counted by a meter over `L`.
///
/// Keys are compared by their bytes. Each call raises the meter's operations by one, whatever it
/// answers, and its entries by those that it answers. `gets`, `ranges` and `first_held` ask several
/// things at once, and raise the meter as a call for each would: a store that is far away answers them
/// in one round. A store tells its content or doesn't, and no call changes that. Its count of faults
/// never falls.
pub trait Store<L: Ledger> {
    ghost use Rattle.std.specs.Prelude.{◌≡◌, ◌≤◌, ◌<◌, ◌+◌, ◌*◌, ◌⊎◌, ℕ, List, Option, None, false, IfSome, IfOk, OnOk, IsErrOf, map, take, length, min, position, ⊤};
    ghost use Rattle.std.specs.List.{AllByRecursion, AllZip, sum_by};
    ghost use Rattle.std.specs.Option.{option_map, option_copied};
    ghost use Rattle.std.specs.FinMap.{get as value_at};
    ghost use Rattle.pq_store.specs.Counts.{charged_counts, raised_counts};
    ghost use Rattle.pq_store.specs.Content.{Content, AreAnswers, entry, pairs_within, after_write, admits, got_entries, ranged_entries, counted_entries, IsPartOf, HasCause};
    ghost use Rattle.pq_store.specs.Rounds.{Affords, Pays, IsValueOf, IsValueAnswered, ArePairsOf, IsPartAsked, test_entries, is_held, one_if_some, IsTestCounted, AreTestsCounted};

    // What it holds, from keys to values, where it tells.
    ghost content: { Self → Option Content };

    // How often it has failed, up to the last number of 64 bits.
    ghost faults: { Self → ℕ };

    // How often it was asked, where it counts that: each of its calls raises it by one at most.
    ghost rounds: { Self → ℕ } = { λ _. 0 };

    // What its calls may answer for a key: its value, or None where it has none and where a guarded write of it
    // isn't made. Whoever works over any store has of it only what its calls answered.
    ghost answers: { List ℕ → Option (List ℕ) → Type 0 } = { λ _ _. ⊤ };

    /// The value of the key: one entry where there is one, else none.
    fn get(
        &mut self,
        alloc: Global,
        key: &[u8],
        meter: &mut Meter<L>,
    ) -> Result<Option<Bytes>, StoreErr>
        ensures answer { IfOk result (λ found. IfSome (content self.old) (λ pairs. found ≡ value_at pairs key.now)) }
        ensures answered { IfOk result (λ found. answers key.now found) }
        ensures same { content self.new ≡ content self.old }
        ensures cause { HasCause (faults self.old) (faults self.new) result }
        ensures round { rounds self.new ≤ rounds self.old + 1 }
        ensures meter { meter.new ≡ charged_counts meter.old (got_entries result) };

    /// The first `limit` pairs with `low <= key < high`, or all where there are fewer; as many
    /// entries. What every store answers are at most `limit` pairs of the range in order.
    fn range(
        &mut self,
        alloc: Global,
        low: &[u8],
        high: &[u8],
        limit: u32,
        meter: &mut Meter<L>,
    ) -> Result<List<Pair>, StoreErr>
        requires { 1 ≤ limit }
        ensures answer { IfOk result (λ found. IfSome (content self.old) (λ pairs.
            map entry found ≡ take limit (pairs_within pairs low.now high.now))) }
        ensures part { IfOk result (λ found. IsPartOf low.now high.now limit (map entry found)) }
        ensures answered { IfOk result (λ found. AreAnswers answers found) }
        ensures same { content self.new ≡ content self.old }
        ensures cause { HasCause (faults self.old) (faults self.new) result }
        ensures round { rounds self.new ≤ rounds self.old + 1 }
        ensures meter { meter.new ≡ charged_counts meter.old (ranged_entries result) };

    /// The lesser of `cap` and the number of pairs with `low <= key < high`; as many entries.
    fn count(
        &mut self,
        alloc: Global,
        low: &[u8],
        high: &[u8],
        cap: u32,
        meter: &mut Meter<L>,
    ) -> Result<u32, StoreErr>
        ensures answer { IfOk result (λ n. IfSome (content self.old) (λ pairs.
            n ≡ min cap (length (pairs_within pairs low.now high.now)))) }
        ensures few { IfOk result (λ n. n ≤ cap) }
        ensures same { content self.new ≡ content self.old }
        ensures cause { HasCause (faults self.old) (faults self.new) result }
        ensures round { rounds self.new ≤ rounds self.old + 1 }
        ensures meter { meter.new ≡ charged_counts meter.old (counted_entries result) };

    /// Where the guard holds, gives the key this value, or none, and answers true; else changes
    /// nothing and answers false. No entries.
    fn write(
        &mut self,
        alloc: Global,
        key: &[u8],
        guard: Guard,
        new: Option<&[u8]>,
        meter: &mut Meter<L>,
    ) -> Result<bool, StoreErr>
        ensures answer { IfOk result (λ done. IfSome (content self.old) (λ pairs.
            done ≡ admits guard.entry (value_at pairs key.now))) }
        ensures answered { IfOk result (λ done. done ≡ false → answers key.now None) }
        ensures content { OnOk result (content self.new
            ≡ option_map (after_write guard.entry key.now (option_copied new.entry)) (content self.old)) }
        ensures no_memory { IsErrOf result StoreErr.NoMem → content self.new ≡ content self.old }
        ensures failed { IsErrOf result StoreErr.Failed → (content self.new ≡ content self.old)
            ⊎ (content self.new ≡ option_map (after_write guard.entry key.now (option_copied new.entry))
            (content self.old)) }
        ensures cause { HasCause (faults self.old) (faults self.new) result }
        ensures round { rounds self.new ≤ rounds self.old + 1 }
        ensures meter { meter.new ≡ charged_counts meter.old 0 };

    /// The value of a key by a get; where none stands, nothing is asked.
    fn get_asked(
        &mut self,
        alloc: Global,
        asked: &Option<Bytes>,
        allowance: &mut Allowance,
        meter: &mut Meter<L>,
    ) -> Result<Option<Bytes>, StoreErr>
        requires share { Affords allowance.old 1 1 }
        ensures answer { IfOk result (IsValueOf (content self.old) asked.now) }
        ensures answered { IfOk result (IsValueAnswered answers asked.now) }
        ensures same { content self.new ≡ content self.old }
        ensures cause { HasCause (faults self.old) (faults self.new) result }
        ensures paid { Pays allowance.old allowance.new meter.old meter.new 1 1 }
        ensures counted { IfOk result (λ found. meter.new ≡ raised_counts meter.old (one_if_some asked.now)
            (one_if_some found)) }
    {
        let Some(key) = asked else {
            return Ok(None);
        };
        let answer = self.get(alloc, key.items(), meter);
        allowance.spend_get(&answer);
        answer
    }

    /// The first pairs of a range; where no ends stand, nothing is asked.
    fn range_asked(
        &mut self,
        alloc: Global,
        asked: &Option<Ends>,
        limit: u32,
        allowance: &mut Allowance,
        meter: &mut Meter<L>,
    ) -> Result<List<Pair>, StoreErr>
        requires limit { 1 ≤ limit }
        requires share { Affords allowance.old 1 limit }
        ensures answer { IfOk result (ArePairsOf (content self.old) limit asked.now) }
        ensures part { IfOk result (IsPartAsked limit asked.now) }
        ensures answered { IfOk result (AreAnswers answers) }
        ensures same { content self.new ≡ content self.old }
        ensures cause { HasCause (faults self.old) (faults self.new) result }
        ensures paid { Pays allowance.old allowance.new meter.old meter.new 1 limit }
        ensures counted { IfOk result (λ found. meter.new ≡ raised_counts meter.old (one_if_some asked.now)
            (length found)) }
    {
        let Some(ends) = asked else {
            return Ok(List::new(alloc));
        };
        let answer = self.range(alloc, ends.low.items(), ends.high.items(), limit, meter);
        allowance.spend_range(&answer);
        answer
    }

    /// The values of keys, as a get of each would answer them one after the other: one operation and at most one entry
    /// for each. Where no key stands, nothing is asked, and the answer is None. The allowance is spent as the meter
    /// rises.
    fn gets(
        &mut self,
        alloc: Global,
        keys: &[Option<Bytes>],
        allowance: &mut Allowance,
        meter: &mut Meter<L>,
    ) -> Result<List<Option<Bytes>>, StoreErr>
        requires share { Affords allowance.old (length keys.now) (length keys.now) }
        ensures long { IfOk result (λ found. length found ≡ length keys.now) }
        ensures answer { IfOk result (AllZip (IsValueOf (content self.old)) keys.now) }
        ensures answered { IfOk result (AllZip (IsValueAnswered answers) keys.now) }
        ensures same { content self.new ≡ content self.old }
        ensures cause { HasCause (faults self.old) (faults self.new) result }
        ensures round { rounds self.new ≤ rounds self.old + 1 }
        ensures paid { Pays allowance.old allowance.new meter.old meter.new (length keys.now) (length keys.now) }
        ensures counted { IfOk result (λ found. meter.new ≡ raised_counts meter.old (sum_by one_if_some keys.now)
            (sum_by one_if_some found)) };

    /// The same by single calls.
    fn gets_singly(
        &mut self,
        alloc: Global,
        keys: &[Option<Bytes>],
        allowance: &mut Allowance,
        meter: &mut Meter<L>,
    ) -> Result<List<Option<Bytes>>, StoreErr>
        requires share { Affords allowance.old (length keys.now) (length keys.now) }
        ensures long { IfOk result (λ found. length found ≡ length keys.now) }
        ensures answer { IfOk result (AllZip (IsValueOf (content self.old)) keys.now) }
        ensures answered { IfOk result (AllZip (IsValueAnswered answers) keys.now) }
        ensures same { content self.new ≡ content self.old }
        ensures cause { HasCause (faults self.old) (faults self.new) result }
        ensures paid { Pays allowance.old allowance.new meter.old meter.new (length keys.now) (length keys.now) }
        ensures counted { IfOk result (λ found. meter.new ≡ raised_counts meter.old (sum_by one_if_some keys.now)
            (sum_by one_if_some found)) }
    {
        let mut found = List::new(alloc);
        for asked in keys {
            let value = self.get_asked(alloc, asked, allowance, meter)?;
            found.push(alloc, value)?;
        }
        Ok(found)
    }

    /// The first pairs of ranges, as a range of each with this limit would answer them one after the other. Where no
    /// ends stand, nothing is asked, and the answer has no pairs.
    fn ranges(
        &mut self,
        alloc: Global,
        asks: &[Option<Ends>],
        limit: u32,
        allowance: &mut Allowance,
        meter: &mut Meter<L>,
    ) -> Result<List<List<Pair>>, StoreErr>
        requires limit { 1 ≤ limit }
        requires share { Affords allowance.old (length asks.now) (length asks.now * limit) }
        ensures long { IfOk result (λ found. length found ≡ length asks.now) }
        ensures answer { IfOk result (AllZip (ArePairsOf (content self.old) limit) asks.now) }
        ensures parts { IfOk result (AllZip (IsPartAsked limit) asks.now) }
        ensures answered { IfOk result (AllByRecursion (AreAnswers answers)) }
        ensures same { content self.new ≡ content self.old }
        ensures cause { HasCause (faults self.old) (faults self.new) result }
        ensures round { rounds self.new ≤ rounds self.old + 1 }
        ensures paid { Pays allowance.old allowance.new meter.old meter.new (length asks.now) (length asks.now * limit) }
        ensures counted { IfOk result (λ found. meter.new ≡ raised_counts meter.old (sum_by one_if_some asks.now)
            (sum_by length found)) };

    /// The same by single calls.
    fn ranges_singly(
        &mut self,
        alloc: Global,
        asks: &[Option<Ends>],
        limit: u32,
        allowance: &mut Allowance,
        meter: &mut Meter<L>,
    ) -> Result<List<List<Pair>>, StoreErr>
        requires limit { 1 ≤ limit }
        requires share { Affords allowance.old (length asks.now) (length asks.now * limit) }
        ensures long { IfOk result (λ found. length found ≡ length asks.now) }
        ensures answer { IfOk result (AllZip (ArePairsOf (content self.old) limit) asks.now) }
        ensures parts { IfOk result (AllZip (IsPartAsked limit) asks.now) }
        ensures answered { IfOk result (AllByRecursion (AreAnswers answers)) }
        ensures same { content self.new ≡ content self.old }
        ensures cause { HasCause (faults self.old) (faults self.new) result }
        ensures paid { Pays allowance.old allowance.new meter.old meter.new (length asks.now) (length asks.now * limit) }
        ensures counted { IfOk result (λ found. meter.new ≡ raised_counts meter.old (sum_by one_if_some asks.now)
            (sum_by length found)) }
    {
        let mut found = List::new(alloc);
        for asked in asks {
            let pairs = self.range_asked(alloc, asked, limit, allowance, meter)?;
            found.push(alloc, pairs)?;
        }
        Ok(found)
    }

    /// Whether a test holds: one get or one count.
    fn holds(
        &mut self,
        alloc: Global,
        test: &Test,
        allowance: &mut Allowance,
        meter: &mut Meter<L>,
    ) -> Result<bool, StoreErr>
        requires share { Affords allowance.old 1 (test_entries test.now) }
        ensures answer { IfOk result (λ held. IfSome (content self.old) (λ pairs. held ≡ is_held pairs test.now)) }
        ensures same { content self.new ≡ content self.old }
        ensures cause { HasCause (faults self.old) (faults self.new) result }
        ensures paid { Pays allowance.old allowance.new meter.old meter.new 1 (test_entries test.now) }
        ensures counted { IfOk result (IsTestCounted (content self.old) meter.old meter.new test.now) }
    {
        match test {
            Test::Has(key) => {
                let answer = self.get(alloc, key.items(), meter);
                allowance.spend_get(&answer);
                Ok(answer?.is_some())
            }
            Test::Lacks(key) => {
                let answer = self.get(alloc, key.items(), meter);
                allowance.spend_get(&answer);
                Ok(answer?.is_none())
            }
            Test::Full(ends, n) => {
                let answer = self.count(alloc, ends.low.items(), ends.high.items(), *n, meter);
                allowance.spend_count(&answer);
                Ok(answer? == *n)
            }
        }
    }

    /// The place of the first test that holds, as a get or a count for each would find it one after the other, up to
    /// that one: what is behind it is not asked, and nothing is spent for it.
    fn first_held(
        &mut self,
        alloc: Global,
        tests: &[Test],
        allowance: &mut Allowance,
        meter: &mut Meter<L>,
    ) -> Result<Option<usize>, StoreErr>
        requires share { Affords allowance.old (length tests.now) (sum_by test_entries tests.now) }
        ensures answer { IfOk result (λ at. IfSome (content self.old) (λ pairs. at ≡ position (is_held pairs) tests.now)) }
        ensures within { IfOk result (λ at. IfSome at (λ i. i < length tests.now)) }
        ensures same { content self.new ≡ content self.old }
        ensures cause { HasCause (faults self.old) (faults self.new) result }
        ensures round { rounds self.new ≤ rounds self.old + 1 }
        ensures paid { Pays allowance.old allowance.new meter.old meter.new (length tests.now) (sum_by test_entries tests.now) }
        ensures counted { IfOk result (AreTestsCounted (content self.old) meter.old meter.new tests.now) };

    /// The same by single calls.
    fn first_held_singly(
        &mut self,
        alloc: Global,
        tests: &[Test],
        allowance: &mut Allowance,
        meter: &mut Meter<L>,
    ) -> Result<Option<usize>, StoreErr>
        requires share { Affords allowance.old (length tests.now) (sum_by test_entries tests.now) }
        ensures answer { IfOk result (λ at. IfSome (content self.old) (λ pairs. at ≡ position (is_held pairs) tests.now)) }
        ensures within { IfOk result (λ at. IfSome at (λ i. i < length tests.now)) }
        ensures same { content self.new ≡ content self.old }
        ensures cause { HasCause (faults self.old) (faults self.new) result }
        ensures paid { Pays allowance.old allowance.new meter.old meter.new (length tests.now) (sum_by test_entries tests.now) }
        ensures counted { IfOk result (AreTestsCounted (content self.old) meter.old meter.new tests.now) }
    {
        for (i, test) in tests.iter().enumerate() {
            if self.holds(alloc, test, allowance, meter)? {
                return Ok(Some(i));
            }
        }
        Ok(None)
    }
}
