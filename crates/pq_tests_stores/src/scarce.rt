//! A store of which one call finds no memory.
ghost use Rattle.std.specs.Prelude.{◌≡◌};

use pq_base::{Bytes, List};
use pq_mem_store::MemStore;
use pq_store::{Allowance, Ends, Guard, Meter, Pair, Store, StoreErr, Test};
use pq_test_faults::FailingStore;
use std::alloc::Global;
use std::sync::ledger::Ledger;

/// A store over one that fails at listed calls. One call, by its number from 1, finds no memory and doesn't come there.
/// It tells no content.
#[derive(Drop)]
pub(crate) struct ScarceStore {
    inner: FailingStore,
    scarce: u64,
    calls: u64,
}

impl ScarceStore {
    /// The store over this one.
    pub(crate) fn new(inner: FailingStore, scarce: u64) -> ScarceStore {
        ScarceStore {
            inner,
            scarce,
            calls: 0,
        }
    }

    /// The store in memory.
    pub(crate) fn into_inner(self) -> MemStore {
        self.inner.into_inner()
    }

    // Counts a call: whether it finds no memory.
    fn count_call(&mut self) -> bool
        ensures { self.new.inner ≡ self.old.inner }
    {
        self.calls = self.calls.saturating_add(1);
        self.calls == self.scarce
    }
}

impl<L: Ledger> Store<L> for ScarceStore {
    ghost use Rattle.std.specs.Prelude.{None};

    ghost content = { λ _. None };

    ghost faults = { λ s. s.inner.faults };

    fn get(
        &mut self,
        alloc: Global,
        key: &[u8],
        meter: &mut Meter<L>,
    ) -> Result<Option<Bytes>, StoreErr> {
        if self.count_call() {
            meter.charge(0);
            return Err(StoreErr::NoMem);
        }
        self.inner.get(alloc, key, meter)
    }

    fn range(
        &mut self,
        alloc: Global,
        low: &[u8],
        high: &[u8],
        limit: u32,
        meter: &mut Meter<L>,
    ) -> Result<List<Pair>, StoreErr> {
        if self.count_call() {
            meter.charge(0);
            return Err(StoreErr::NoMem);
        }
        self.inner.range(alloc, low, high, limit, meter)
    }

    fn count(
        &mut self,
        alloc: Global,
        low: &[u8],
        high: &[u8],
        cap: u32,
        meter: &mut Meter<L>,
    ) -> Result<u32, StoreErr> {
        if self.count_call() {
            meter.charge(0);
            return Err(StoreErr::NoMem);
        }
        self.inner.count(alloc, low, high, cap, meter)
    }

    fn write(
        &mut self,
        alloc: Global,
        key: &[u8],
        guard: Guard,
        new: Option<&[u8]>,
        meter: &mut Meter<L>,
    ) -> Result<bool, StoreErr> {
        if self.count_call() {
            meter.charge(0);
            return Err(StoreErr::NoMem);
        }
        self.inner.write(alloc, key, guard, new, meter)
    }

    fn gets(
        &mut self,
        alloc: Global,
        keys: &[Option<Bytes>],
        allowance: &mut Allowance,
        meter: &mut Meter<L>,
    ) -> Result<List<Option<Bytes>>, StoreErr> {
        self.gets_singly(alloc, keys, allowance, meter)
    }

    fn ranges(
        &mut self,
        alloc: Global,
        asks: &[Option<Ends>],
        limit: u32,
        allowance: &mut Allowance,
        meter: &mut Meter<L>,
    ) -> Result<List<List<Pair>>, StoreErr> {
        self.ranges_singly(alloc, asks, limit, allowance, meter)
    }

    fn first_held(
        &mut self,
        alloc: Global,
        tests: &[Test],
        allowance: &mut Allowance,
        meter: &mut Meter<L>,
    ) -> Result<Option<usize>, StoreErr> {
        self.first_held_singly(alloc, tests, allowance, meter)
    }
}
