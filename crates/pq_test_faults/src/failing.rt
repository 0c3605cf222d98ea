//! A store in memory that fails at the calls of a list.
ghost use Rattle.std.specs.Prelude.{◌≡◌, ◌≤◌, ◌<◌, ◌+◌, ◌^◌, ◌⊎◌, ◌↔◌, true, false, Some, IsSome, IfOk, OnOk, IsErrOf, map, take, length, min};
ghost use Rattle.std.specs.Option.{option_copied};
ghost use Rattle.std.specs.FinMap.{get as value_at};
ghost use Rattle.pq_store.specs.Counts.{charged_counts};
ghost use Rattle.pq_store.specs.Content.{entry, pairs_within, admits, after_write, IsPartOf, got_entries, ranged_entries, counted_entries};
ghost use Rattle.pq_test_faults.specs.Faults.{fate, failing_after, listed_fail, IsListed};

use pq_base::{Bytes, List};
use pq_mem_store::MemStore;
use pq_store::{Allowance, Ends, Guard, Meter, Pair, Store, StoreErr, Test};
use std::alloc::Global;
use std::marker::Model;
use std::sync::ledger::Ledger;

/// A call that is to fail, by its number from 1, and whether it is done all the same.
#[derive(Clone, Copy)]
pub struct Fail {
    pub call: u64,
    pub done: bool,
}

/// A store in memory whose listed calls fail. The four calls are numbered as one row, from 1; where
/// a number stands twice in the list, the first entry counts.
#[derive(Drop)]
pub struct FailingStore {
    inner: MemStore,
    fails: List<Fail>,
    calls: u64,
    faults: u64,
}

impl Model for FailingStore {
    ghost use Rattle.std.specs.Prelude.{◌≤◌};
    ghost use Rattle.pq_test_faults.specs.Faults.{Failing, failing_code};

    ghost Value = { Failing };

    ghost coded = { failing_code };

    ghost view = { λ a. record { held = a.inner; calls = a.calls; faults = a.faults; fails = a.fails } };

    ghost invariant = { λ a. a.faults ≤ a.calls };
}

impl FailingStore {
    /// The store with the content of `inner`, before its first call.
    pub fn new(_alloc: Global, inner: MemStore, fails: List<Fail>) -> FailingStore
        ensures held { result.held ≡ inner }
        ensures calls { result.calls ≡ 0 }
        ensures faults { result.faults ≡ 0 }
        ensures fails { result.fails ≡ fails }
    {
        FailingStore {
            inner,
            fails,
            calls: 0,
            faults: 0,
        }
    }

    /// The store without faults.
    pub fn into_inner(self) -> MemStore
        ensures { result ≡ self.held }
    {
        self.inner
    }

    // Counts a call: whether it is done where it is to fail, None where it isn't.
    fn count_call(&mut self) -> Option<bool>
        ensures fate { result ≡ fate self.old }
        ensures called { self.new ≡ failing_after self.old self.old.held }
    {
        let fate = find_call(self.fails.items(), self.calls as u128 + 1);
        self.calls = self.calls.saturating_add(1);
        if fate.is_some() {
            self.faults += 1;
        }
        fate
    }
}

// What the list says of the call with this number.
fn find_call(fails: &[Fail], number: u128) -> Option<bool>
    ensures value { result ≡ listed_fail number fails.now }
    ensures small { IsSome result → number < 2 ^ 64 }
{
    for fail in fails {
        if fail.call as u128 == number {
            return Some(fail.done);
        }
    }
    None
}

impl<L: Ledger> Store<L> for FailingStore {
    ghost use Rattle.std.specs.Prelude.{Some};

    ghost content = { λ m. Some m.held };

    ghost faults = { λ m. m.faults };

    fn get(
        &mut self,
        alloc: Global,
        key: &[u8],
        meter: &mut Meter<L>,
    ) -> Result<Option<Bytes>, StoreErr>
        ensures answer { IfOk result (λ found. found ≡ value_at self.old.held key.now) }
        ensures called { self.new ≡ failing_after self.old self.old.held }
        ensures listed { IsErrOf result StoreErr.Failed ↔ IsListed self.old }
        ensures meter { meter.new ≡ charged_counts meter.old (got_entries result) }
    {
        match self.count_call() {
            Some(_) => {
                meter.charge(0);
                Err(StoreErr::Failed)
            }
            None => self.inner.get(alloc, key, meter),
        }
    }

    fn range(
        &mut self,
        alloc: Global,
        low: &[u8],
        high: &[u8],
        limit: u32,
        meter: &mut Meter<L>,
    ) -> Result<List<Pair>, StoreErr>
        requires { 1 ≤ limit }
        ensures answer { IfOk result (λ found. map entry found
            ≡ take limit (pairs_within self.old.held low.now high.now)) }
        ensures part { IfOk result (λ found. IsPartOf low.now high.now limit (map entry found)) }
        ensures called { self.new ≡ failing_after self.old self.old.held }
        ensures listed { IsErrOf result StoreErr.Failed ↔ IsListed self.old }
        ensures meter { meter.new ≡ charged_counts meter.old (ranged_entries result) }
    {
        match self.count_call() {
            Some(_) => {
                meter.charge(0);
                Err(StoreErr::Failed)
            }
            None => self.inner.range(alloc, low, high, limit, meter),
        }
    }

    fn count(
        &mut self,
        alloc: Global,
        low: &[u8],
        high: &[u8],
        cap: u32,
        meter: &mut Meter<L>,
    ) -> Result<u32, StoreErr>
        ensures answer { IfOk result (λ n. n ≡ min cap (length (pairs_within self.old.held low.now high.now))) }
        ensures called { self.new ≡ failing_after self.old self.old.held }
        ensures listed { IsErrOf result StoreErr.Failed ↔ IsListed self.old }
        ensures meter { meter.new ≡ charged_counts meter.old (counted_entries result) }
    {
        match self.count_call() {
            Some(_) => {
                meter.charge(0);
                Err(StoreErr::Failed)
            }
            None => self.inner.count(alloc, low, high, cap, meter),
        }
    }

    /// A listed call that is done answers NoMem, and isn't done, where it has no memory.
    fn write(
        &mut self,
        alloc: Global,
        key: &[u8],
        guard: Guard,
        new: Option<&[u8]>,
        meter: &mut Meter<L>,
    ) -> Result<bool, StoreErr>
        ensures answer { IfOk result (λ done. done ≡ admits guard.entry (value_at self.old.held key.now)) }
        ensures content { OnOk result (self.new.held
            ≡ after_write guard.entry key.now (option_copied new.entry) self.old.held) }
        ensures no_memory { IsErrOf result StoreErr.NoMem → self.new.held ≡ self.old.held }
        ensures called { self.new ≡ failing_after self.old self.new.held }
        ensures listed { IsErrOf result StoreErr.Failed → IsListed self.old }
        ensures undone { fate self.old ≡ Some false → IsErrOf result StoreErr.Failed × self.new.held ≡ self.old.held }
        ensures done { fate self.old ≡ Some true → IsErrOf result StoreErr.NoMem
            ⊎ (IsErrOf result StoreErr.Failed
            × self.new.held ≡ after_write guard.entry key.now (option_copied new.entry) self.old.held) }
        ensures meter { meter.new ≡ charged_counts meter.old 0 }
    {
        match self.count_call() {
            Some(false) => {
                meter.charge(0);
                Err(StoreErr::Failed)
            }
            Some(true) => match self.inner.write(alloc, key, guard, new, meter) {
                Err(StoreErr::NoMem) => Err(StoreErr::NoMem),
                _ => Err(StoreErr::Failed),
            },
            None => self.inner.write(alloc, key, guard, new, meter),
        }
    }

    fn gets(
        &mut self,
        alloc: Global,
        keys: &[Option<Bytes>],
        allowance: &mut Allowance,
        meter: &mut Meter<L>,
    ) -> Result<List<Option<Bytes>>, StoreErr> {
        self.gets_singly(alloc, keys, allowance, meter)
    }

    fn ranges(
        &mut self,
        alloc: Global,
        asks: &[Option<Ends>],
        limit: u32,
        allowance: &mut Allowance,
        meter: &mut Meter<L>,
    ) -> Result<List<List<Pair>>, StoreErr> {
        self.ranges_singly(alloc, asks, limit, allowance, meter)
    }

    fn first_held(
        &mut self,
        alloc: Global,
        tests: &[Test],
        allowance: &mut Allowance,
        meter: &mut Meter<L>,
    ) -> Result<Option<usize>, StoreErr> {
        self.first_held_singly(alloc, tests, allowance, meter)
    }
}
