//! A store that stands still.
ghost use Rattle.std.specs.Prelude.{◌≡◌, ◌≤◌, IfOk, IsErrOf, map, take, length, min};
ghost use Rattle.std.specs.FinMap.{get as value_at};
ghost use Rattle.pq_store.specs.Content.{entry, pairs_within, IsPartOf, got_entries, ranged_entries, counted_entries};
ghost use Rattle.pq_store.specs.Counts.{charged_counts};
ghost use Rattle.pq_frozen.specs.Frozen.{refused_once};

use pq_base::{Bytes, List, NoMem};
use pq_mem_store::MemStore;
use pq_store::{Allowance, Ends, Guard, Meter, Pair, Store, StoreErr, Test};
use std::alloc::Global;
use std::marker::Model;
use std::sync::ledger::Ledger;

/// A store in memory that stands still: it tells its content, and no call changes it. It never fails.
///
/// Each write is refused, as one is for which there is no memory. Of the answers that a store may give to
/// a write that it doesn't make, only this one says that the content is the old one.
#[derive(Drop)]
pub struct Frozen {
    held: MemStore,
    refused: u64,
}

impl Model for Frozen {
    ghost use Rattle.pq_frozen.specs.Frozen.{Stilled, stilled_code};

    ghost Value = { Stilled };

    ghost coded = { stilled_code };

    ghost view = { λ a. record { held = a.held; refused = a.refused } };
}

impl Frozen {
    /// The store of this content, from now on.
    pub fn new(held: MemStore) -> Frozen
        ensures { result ≡ record { held = held; refused = 0 } }
    {
        Frozen { held, refused: 0 }
    }

    /// The store of what another one holds now, whatever is written to that one afterwards.
    pub fn pin(alloc: Global, store: &MemStore) -> Result<Frozen, NoMem>
        ensures { IfOk result (λ pinned. pinned ≡ record { held = store.now; refused = 0 }) }
    {
        let pairs = store.pairs(alloc)?;
        match MemStore::from_pairs(alloc, pairs) {
            Ok(held) => Ok(Frozen::new(held)),
            Err(_) => Err(NoMem),
        }
    }

    /// How many writes it has refused, up to the last number of 64 bits.
    pub fn refused(&self) -> u64
        ensures { result ≡ self.now.refused }
    {
        self.refused
    }
}

impl<L: Ledger> Store<L> for Frozen {
    ghost use Rattle.std.specs.Prelude.{Some};

    ghost content = { λ m. Some m.held };

    ghost faults = { λ _. 0 };

    fn get(
        &mut self,
        alloc: Global,
        key: &[u8],
        meter: &mut Meter<L>,
    ) -> Result<Option<Bytes>, StoreErr>
        ensures answer { IfOk result (λ found. found ≡ value_at self.old.held key.now) }
        ensures still { self.new ≡ self.old }
        ensures no_fault { IsErrOf result StoreErr.Failed → ⊥ }
        ensures meter { meter.new ≡ charged_counts meter.old (got_entries result) }
    {
        self.held.get(alloc, key, meter)
    }

    fn range(
        &mut self,
        alloc: Global,
        low: &[u8],
        high: &[u8],
        limit: u32,
        meter: &mut Meter<L>,
    ) -> Result<List<Pair>, StoreErr>
        requires { 1 ≤ limit }
        ensures answer { IfOk result (λ found. map entry found
            ≡ take limit (pairs_within self.old.held low.now high.now)) }
        ensures part { IfOk result (λ found. IsPartOf low.now high.now limit (map entry found)) }
        ensures still { self.new ≡ self.old }
        ensures no_fault { IsErrOf result StoreErr.Failed → ⊥ }
        ensures meter { meter.new ≡ charged_counts meter.old (ranged_entries result) }
    {
        self.held.range(alloc, low, high, limit, meter)
    }

    fn count(
        &mut self,
        alloc: Global,
        low: &[u8],
        high: &[u8],
        cap: u32,
        meter: &mut Meter<L>,
    ) -> Result<u32, StoreErr>
        ensures answer { IfOk result (λ n. n ≡ min cap (length (pairs_within self.old.held low.now high.now))) }
        ensures still { self.new ≡ self.old }
        ensures no_fault { IsErrOf result StoreErr.Failed → ⊥ }
        ensures meter { meter.new ≡ charged_counts meter.old (counted_entries result) }
    {
        self.held.count(alloc, low, high, cap, meter)
    }

    /// Nothing is looked at: a write that would change nothing is refused too.
    fn write(
        &mut self,
        _alloc: Global,
        _key: &[u8],
        _guard: Guard,
        _new: Option<&[u8]>,
        meter: &mut Meter<L>,
    ) -> Result<bool, StoreErr>
        ensures refused { IsErrOf result StoreErr.NoMem }
        ensures still { self.new ≡ refused_once self.old }
        ensures meter { meter.new ≡ charged_counts meter.old 0 }
    {
        meter.charge(0);
        self.refused = self.refused.saturating_add(1);
        Err(StoreErr::NoMem)
    }

    fn gets(
        &mut self,
        alloc: Global,
        keys: &[Option<Bytes>],
        allowance: &mut Allowance,
        meter: &mut Meter<L>,
    ) -> Result<List<Option<Bytes>>, StoreErr> {
        self.gets_singly(alloc, keys, allowance, meter)
    }

    fn ranges(
        &mut self,
        alloc: Global,
        asks: &[Option<Ends>],
        limit: u32,
        allowance: &mut Allowance,
        meter: &mut Meter<L>,
    ) -> Result<List<List<Pair>>, StoreErr> {
        self.ranges_singly(alloc, asks, limit, allowance, meter)
    }

    fn first_held(
        &mut self,
        alloc: Global,
        tests: &[Test],
        allowance: &mut Allowance,
        meter: &mut Meter<L>,
    ) -> Result<Option<usize>, StoreErr> {
        self.first_held_singly(alloc, tests, allowance, meter)
    }
}
