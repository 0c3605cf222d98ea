//! A store in memory that counts how often it was asked.
ghost use Rattle.std.specs.Prelude.{◌≡◌, ◌≤◌, ◌+◌};

use pq_base::{Bytes, List};
use pq_mem_store::MemStore;
use pq_store::{Allowance, Ends, Guard, Meter, Pair, Store, StoreErr, Test};
use std::alloc::Global;
use std::sync::ledger::Ledger;

/// A store in memory, and how often it was asked: each call is one round, however much it asks at once.
#[derive(Drop)]
pub struct CountingStore {
    inner: MemStore,
    rounds: u64,
}

impl CountingStore {
    /// The store with the content of `inner`, before its first call.
    pub fn new(inner: MemStore) -> CountingStore
        ensures inner { result.inner ≡ inner }
        ensures rounds { result.rounds ≡ 0 }
    {
        CountingStore { inner, rounds: 0 }
    }

    /// How often it was asked so far, up to the last number of 64 bits.
    pub fn rounds(&self) -> u64
        ensures { result ≡ self.now.rounds }
    {
        self.rounds
    }

    // One round more.
    fn count_round(&mut self)
        ensures inner { self.new.inner ≡ self.old.inner }
        ensures once { self.new.rounds ≤ self.old.rounds + 1 }
    {
        self.rounds = self.rounds.saturating_add(1);
    }
}

impl<L: Ledger> Store<L> for CountingStore {
    ghost use Rattle.std.specs.Prelude.{Some};

    ghost content = { λ s. Some s.inner };

    ghost faults = { λ _. 0 };

    ghost rounds = { λ s. s.rounds };

    fn get(
        &mut self,
        alloc: Global,
        key: &[u8],
        meter: &mut Meter<L>,
    ) -> Result<Option<Bytes>, StoreErr> {
        self.count_round();
        self.inner.get(alloc, key, meter)
    }

    fn range(
        &mut self,
        alloc: Global,
        low: &[u8],
        high: &[u8],
        limit: u32,
        meter: &mut Meter<L>,
    ) -> Result<List<Pair>, StoreErr> {
        self.count_round();
        self.inner.range(alloc, low, high, limit, meter)
    }

    fn count(
        &mut self,
        alloc: Global,
        low: &[u8],
        high: &[u8],
        cap: u32,
        meter: &mut Meter<L>,
    ) -> Result<u32, StoreErr> {
        self.count_round();
        self.inner.count(alloc, low, high, cap, meter)
    }

    fn write(
        &mut self,
        alloc: Global,
        key: &[u8],
        guard: Guard,
        new: Option<&[u8]>,
        meter: &mut Meter<L>,
    ) -> Result<bool, StoreErr> {
        self.count_round();
        self.inner.write(alloc, key, guard, new, meter)
    }

    fn gets(
        &mut self,
        alloc: Global,
        keys: &[Option<Bytes>],
        allowance: &mut Allowance,
        meter: &mut Meter<L>,
    ) -> Result<List<Option<Bytes>>, StoreErr> {
        self.count_round();
        self.inner.gets(alloc, keys, allowance, meter)
    }

    fn ranges(
        &mut self,
        alloc: Global,
        asks: &[Option<Ends>],
        limit: u32,
        allowance: &mut Allowance,
        meter: &mut Meter<L>,
    ) -> Result<List<List<Pair>>, StoreErr> {
        self.count_round();
        self.inner.ranges(alloc, asks, limit, allowance, meter)
    }

    fn first_held(
        &mut self,
        alloc: Global,
        tests: &[Test],
        allowance: &mut Allowance,
        meter: &mut Meter<L>,
    ) -> Result<Option<usize>, StoreErr> {
        self.count_round();
        self.inner.first_held(alloc, tests, allowance, meter)
    }
}
