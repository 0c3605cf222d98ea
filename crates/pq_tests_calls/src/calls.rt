//! Calls of a store with their answers, stores of listed pairs, and stores that fail at one call.
use pq_base::{Bytes, List, NoMem};
use pq_mem_store::MemStore;
use pq_store::{Guard, Meter, Pair, Store, StoreErr};
use pq_test_faults::{Fail, FailingStore};
use std::alloc::Global;
use std::sync::ledger::Ledger;

/// Keys with their values.
pub(crate) type Texts = &'static [(&'static [u8], &'static [u8])];

/// A call and its answer.
#[derive(Clone, Copy)]
pub(crate) enum Call {
    Get(&'static [u8], Option<&'static [u8]>),
    Range(&'static [u8], &'static [u8], u32, Texts),
    Count(&'static [u8], &'static [u8], u32, u32),
    Write(&'static [u8], Guard<'static>, Option<&'static [u8]>, bool),
}

/// Whether the pairs are just these.
pub(crate) fn are_pairs(found: &List<Pair>, want: &[(&[u8], &[u8])]) -> bool {
    if found.items().len() != want.len() {
        return false;
    }
    for (pair, (key, value)) in found.items().iter().zip(want) {
        if pair.key.items() != *key || pair.value.items() != *value {
            return false;
        }
    }
    true
}

/// The pairs of these.
pub(crate) fn pairs_of(alloc: Global, texts: &[(&[u8], &[u8])]) -> Result<List<Pair>, NoMem> {
    let mut pairs = List::new(alloc);
    for (key, value) in texts {
        let key = Bytes::of_bytes(alloc, key)?;
        let value = Bytes::of_bytes(alloc, value)?;
        pairs.push(alloc, Pair { key, value })?;
    }
    Ok(pairs)
}

/// The store that has these pairs, which rise.
pub(crate) fn store_of(alloc: Global, pairs: List<Pair>) -> Result<MemStore, NoMem> {
    match MemStore::from_pairs(alloc, pairs) {
        Ok(store) => Ok(store),
        Err(_) => Err(NoMem),
    }
}

/// The store, which fails at one call.
pub(crate) fn failing(
    alloc: Global,
    inner: MemStore,
    call: u64,
    done: bool,
) -> Result<FailingStore, NoMem> {
    let mut fails = List::new(alloc);
    fails.push(alloc, Fail { call, done })?;
    Ok(FailingStore::new(alloc, inner, fails))
}

/// Whether the call is answered so.
pub(crate) fn is_answered<S: Store<L>, L: Ledger>(
    alloc: Global,
    store: &mut S,
    call: &Call,
    meter: &mut Meter<L>,
) -> Result<bool, StoreErr> {
    match call {
        Call::Get(key, want) => match (store.get(alloc, key, meter)?, want) {
            (Some(found), Some(want)) => Ok(found.items() == *want),
            (found, want) => Ok(found.is_none() && want.is_none()),
        },
        Call::Range(low, high, limit, want) => {
            let found = store.range(alloc, low, high, (*limit).max(1), meter)?;
            Ok(are_pairs(&found, want))
        }
        Call::Count(low, high, cap, want) => {
            Ok(store.count(alloc, low, high, *cap, meter)? == *want)
        }
        Call::Write(key, guard, new, want) => {
            Ok(store.write(alloc, key, *guard, *new, meter)? == *want)
        }
    }
}
