//! A store that has another content from a call on.
ghost use Rattle.std.specs.Prelude.{◌≡◌, ◌≤◌, IfOk, OnOk, OnErr, IsErrOf, map, take, length, min};
ghost use Rattle.std.specs.Option.{option_copied};
ghost use Rattle.std.specs.FinMap.{get as value_at};
ghost use Rattle.pq_store.specs.Content.{entry, pairs_within, admits, after_write, IsPartOf, got_entries, ranged_entries, counted_entries};
ghost use Rattle.pq_store.specs.Counts.{charged_counts};
ghost use Rattle.pq_test_faults.specs.Switching.{is_first, asked, switched_after};

use pq_base::{Bytes, List};
use pq_mem_store::MemStore;
use pq_store::{Allowance, Ends, Guard, Meter, Pair, Store, StoreErr, Test};
use std::alloc::Global;
use std::marker::Model;
use std::sync::ledger::Ledger;

/// Two stores in memory as one: so many calls go to the first, and all later ones to the second. It
/// tells no content, and its count of faults is always 0. A program over it that answers from what it
/// kept is seen.
#[derive(Drop)]
pub struct SwitchStore {
    first: MemStore,
    second: MemStore,
    calls: u64,
}

impl Model for SwitchStore {
    ghost use Rattle.pq_test_faults.specs.Switching.{Switching, switching_code};

    ghost Value = { Switching };

    ghost coded = { switching_code };

    ghost view = { λ a. record { first = a.first; second = a.second; calls = a.calls } };
}

impl SwitchStore {
    /// The store whose first `calls` calls go to `first` and all later ones to `second`.
    pub fn new(first: MemStore, second: MemStore, calls: u64) -> SwitchStore
        ensures { result ≡ record { first = first; second = second; calls = calls } }
    {
        SwitchStore {
            first,
            second,
            calls,
        }
    }

    // Counts a call: whether it goes to the first store.
    fn count_call(&mut self) -> bool
        ensures first { result ≡ is_first self.old }
        ensures called { self.new ≡ switched_after self.old (asked self.old) }
    {
        if self.calls == 0 {
            return false;
        }
        self.calls -= 1;
        true
    }
}

impl<L: Ledger> Store<L> for SwitchStore {
    ghost use Rattle.std.specs.Prelude.{None};

    ghost content = { λ _. None };

    ghost faults = { λ _. 0 };

    fn get(
        &mut self,
        alloc: Global,
        key: &[u8],
        meter: &mut Meter<L>,
    ) -> Result<Option<Bytes>, StoreErr>
        ensures answer { IfOk result (λ found. found ≡ value_at (asked self.old) key.now) }
        ensures called { self.new ≡ switched_after self.old (asked self.old) }
        ensures no_fault { IsErrOf result StoreErr.Failed → ⊥ }
        ensures meter { meter.new ≡ charged_counts meter.old (got_entries result) }
    {
        if self.count_call() {
            self.first.get(alloc, key, meter)
        } else {
            self.second.get(alloc, key, meter)
        }
    }

    fn range(
        &mut self,
        alloc: Global,
        low: &[u8],
        high: &[u8],
        limit: u32,
        meter: &mut Meter<L>,
    ) -> Result<List<Pair>, StoreErr>
        requires { 1 ≤ limit }
        ensures answer { IfOk result (λ found. map entry found
            ≡ take limit (pairs_within (asked self.old) low.now high.now)) }
        ensures part { IfOk result (λ found. IsPartOf low.now high.now limit (map entry found)) }
        ensures called { self.new ≡ switched_after self.old (asked self.old) }
        ensures no_fault { IsErrOf result StoreErr.Failed → ⊥ }
        ensures meter { meter.new ≡ charged_counts meter.old (ranged_entries result) }
    {
        if self.count_call() {
            self.first.range(alloc, low, high, limit, meter)
        } else {
            self.second.range(alloc, low, high, limit, meter)
        }
    }

    fn count(
        &mut self,
        alloc: Global,
        low: &[u8],
        high: &[u8],
        cap: u32,
        meter: &mut Meter<L>,
    ) -> Result<u32, StoreErr>
        ensures answer { IfOk result (λ n. n ≡ min cap (length (pairs_within (asked self.old) low.now high.now))) }
        ensures called { self.new ≡ switched_after self.old (asked self.old) }
        ensures no_fault { IsErrOf result StoreErr.Failed → ⊥ }
        ensures meter { meter.new ≡ charged_counts meter.old (counted_entries result) }
    {
        if self.count_call() {
            self.first.count(alloc, low, high, cap, meter)
        } else {
            self.second.count(alloc, low, high, cap, meter)
        }
    }

    fn write(
        &mut self,
        alloc: Global,
        key: &[u8],
        guard: Guard,
        new: Option<&[u8]>,
        meter: &mut Meter<L>,
    ) -> Result<bool, StoreErr>
        ensures answer { IfOk result (λ done. done ≡ admits guard.entry (value_at (asked self.old) key.now)) }
        ensures written { OnOk result (self.new ≡ switched_after self.old
            (after_write guard.entry key.now (option_copied new.entry) (asked self.old))) }
        ensures kept { OnErr result (self.new ≡ switched_after self.old (asked self.old)) }
        ensures no_fault { IsErrOf result StoreErr.Failed → ⊥ }
        ensures meter { meter.new ≡ charged_counts meter.old 0 }
    {
        if self.count_call() {
            self.first.write(alloc, key, guard, new, meter)
        } else {
            self.second.write(alloc, key, guard, new, meter)
        }
    }

    fn gets(
        &mut self,
        alloc: Global,
        keys: &[Option<Bytes>],
        allowance: &mut Allowance,
        meter: &mut Meter<L>,
    ) -> Result<List<Option<Bytes>>, StoreErr> {
        self.gets_singly(alloc, keys, allowance, meter)
    }

    fn ranges(
        &mut self,
        alloc: Global,
        asks: &[Option<Ends>],
        limit: u32,
        allowance: &mut Allowance,
        meter: &mut Meter<L>,
    ) -> Result<List<List<Pair>>, StoreErr> {
        self.ranges_singly(alloc, asks, limit, allowance, meter)
    }

    fn first_held(
        &mut self,
        alloc: Global,
        tests: &[Test],
        allowance: &mut Allowance,
        meter: &mut Meter<L>,
    ) -> Result<Option<usize>, StoreErr> {
        self.first_held_singly(alloc, tests, allowance, meter)
    }
}
