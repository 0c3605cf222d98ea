//! A store for tests that counts other pairs than it has.
#![tactic(auto)]

use pq_base::{Bytes, List};
use pq_mem_store::MemStore;
use pq_store::{Allowance, Ends, Guard, Meter, Pair, Store, StoreErr, Test};
use std::alloc::Global;
use std::sync::ledger::Ledger;

/// A store over one in memory. It tells no content, and counts so many pairs in any range, whatever it has.
#[derive(Drop)]
pub struct MiscountStore {
    inner: MemStore,
    counted: u32,
}

impl MiscountStore {
    /// The store over this one that counts so many pairs.
    pub fn new(inner: MemStore, counted: u32) -> MiscountStore {
        MiscountStore { inner, counted }
    }

    /// The store that has the pairs.
    pub fn inner(&self) -> &MemStore {
        &self.inner
    }
}

impl<L: Ledger> Store<L> for MiscountStore {
    ghost use Rattle.std.specs.Prelude.{None};

    ghost content = { λ _. None };

    ghost faults = { λ _. 0 };

    fn get(
        &mut self,
        alloc: Global,
        key: &[u8],
        meter: &mut Meter<L>,
    ) -> Result<Option<Bytes>, StoreErr> {
        self.inner.get(alloc, key, meter)
    }

    fn range(
        &mut self,
        alloc: Global,
        low: &[u8],
        high: &[u8],
        limit: u32,
        meter: &mut Meter<L>,
    ) -> Result<List<Pair>, StoreErr> {
        self.inner.range(alloc, low, high, limit, meter)
    }

    fn count(
        &mut self,
        _alloc: Global,
        _low: &[u8],
        _high: &[u8],
        cap: u32,
        meter: &mut Meter<L>,
    ) -> Result<u32, StoreErr> {
        let count = self.counted.min(cap);
        meter.charge(count);
        Ok(count)
    }

    fn write(
        &mut self,
        alloc: Global,
        key: &[u8],
        guard: Guard,
        new: Option<&[u8]>,
        meter: &mut Meter<L>,
    ) -> Result<bool, StoreErr> {
        self.inner.write(alloc, key, guard, new, meter)
    }

    fn gets(
        &mut self,
        alloc: Global,
        keys: &[Option<Bytes>],
        allowance: &mut Allowance,
        meter: &mut Meter<L>,
    ) -> Result<List<Option<Bytes>>, StoreErr> {
        self.gets_singly(alloc, keys, allowance, meter)
    }

    fn ranges(
        &mut self,
        alloc: Global,
        asks: &[Option<Ends>],
        limit: u32,
        allowance: &mut Allowance,
        meter: &mut Meter<L>,
    ) -> Result<List<List<Pair>>, StoreErr> {
        self.ranges_singly(alloc, asks, limit, allowance, meter)
    }

    fn first_held(
        &mut self,
        alloc: Global,
        tests: &[Test],
        allowance: &mut Allowance,
        meter: &mut Meter<L>,
    ) -> Result<Option<usize>, StoreErr> {
        self.first_held_singly(alloc, tests, allowance, meter)
    }
}
