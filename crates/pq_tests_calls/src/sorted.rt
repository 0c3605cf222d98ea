//! The store in memory beside a sorted vector, the plain program for the same calls: what both answer to calls that
//! look random, and the pairs that both hold then.
ghost use Rattle.std.specs.Prelude.{◌≡◌, ◌<◌, ◌≤◌, IfOk, IfErr, vec_len};

use pq_base::{Bytes, List, NoMem};
use pq_mem_store::MemStore;
use pq_store::{Guard, Meter, Opening, Pair, Store, StoreErr};
use std::alloc::Global;
use std::marker::Brand;
use std::sync::ledger::{Blank, Ledger};
use std::test;

// Pairs in the order of their keys. A write moves all that stand behind it.
#[derive(Drop)]
struct SortedPairs {
    held: Vec<(Bytes, Bytes)>,
}

impl SortedPairs {
    fn new(alloc: Global) -> SortedPairs {
        SortedPairs {
            held: Vec::new(alloc),
        }
    }

    // How many keys are smaller.
    fn place(&self, key: &[u8]) -> usize
        ensures { result ≤ vec_len self.now.held }
    {
        self.held
            .as_slice()
            .partition_point(|pair| pair.0.items().cmp(key).is_lt())
    }

    // Where the key is, or where it would go.
    fn find(&self, key: &[u8]) -> Result<usize, usize>
        ensures found { IfOk result (λ at. at < vec_len self.now.held) }
        ensures gap { IfErr result (λ at. at ≤ vec_len self.now.held) }
    {
        let at = self.place(key);
        if at < self.held.len() && self.held[at].0.items() == key {
            Ok(at)
        } else {
            Err(at)
        }
    }

    fn get(&self, key: &[u8]) -> Option<&[u8]> {
        match self.find(key) {
            Ok(at) => Some(self.held[at].1.items()),
            Err(_) => None,
        }
    }

    // The pairs with `low <= key < high`.
    fn range(&self, low: &[u8], high: &[u8]) -> &[(Bytes, Bytes)] {
        let from = self.place(low);
        let to = self.place(high).max(from);
        &self.held[from..to]
    }

    fn admits(&self, key: &[u8], guard: Guard) -> bool {
        match guard {
            Guard::Any => true,
            Guard::Absent => self.get(key).is_none(),
            Guard::Is(value) => self.get(key).is_some_and(|held| *held == *value),
        }
    }

    fn write(
        &mut self,
        alloc: Global,
        key: &[u8],
        guard: Guard,
        new: Option<&[u8]>,
    ) -> Result<bool, NoMem> {
        if !self.admits(key, guard) {
            return Ok(false);
        }
        match (new, self.find(key)) {
            (Some(value), Ok(at)) => self.held[at].1 = Bytes::of_bytes(alloc, value)?,
            (Some(value), Err(at)) => {
                let key = Bytes::of_bytes(alloc, key)?;
                let value = Bytes::of_bytes(alloc, value)?;
                self.held.insert(at, (key, value))?;
            }
            (None, Ok(at)) => {
                let _ = self.held.remove(at);
            }
            (None, Err(_)) => {}
        }
        Ok(true)
    }
}

fn are_pairs(found: &[Pair], want: &[(Bytes, Bytes)]) -> bool {
    found.len() == want.len()
        && found.iter().zip(want).all(|(pair, want)| pair.key.items() == want.0.items()
            && pair.value.items() == want.1.items())
}

// Numbers that look random, by a congruence of 64 bits.
#[derive(Drop)]
struct Numbers {
    state: u64,
}

impl Numbers {
    // From 0 up to, and without, the bound.
    fn below(&mut self, bound: u64) -> u64
        requires { 0 < bound }
        ensures { result < bound }
    {
        self.state = self
            .state
            .wrapping_mul(6_364_136_223_846_793_005)
            .wrapping_add(1_442_695_040_888_963_407);
        (self.state >> 33) % bound
    }

    // Up to so many bytes, of four.
    fn bytes(&mut self, alloc: Global, most: u64) -> Result<Bytes, NoMem>
        requires { most < 9 }
    {
        let letters = [0, 1, 2, 255];
        let len = self.below(most + 1);
        let mut bytes = List::new(alloc);
        for _ in 0..len {
            let letter = letters[self.below(4) as usize];
            bytes.push(alloc, letter)?;
        }
        Ok(bytes)
    }
}

fn are_gets_alike<L: Ledger>(
    alloc: Global,
    numbers: &mut Numbers,
    store: &mut MemStore,
    sorted: &SortedPairs,
    meter: &mut Meter<L>,
) -> Result<bool, StoreErr> {
    let key = bytes_of(alloc, numbers)?;
    let found = store.get(alloc, key.items(), meter)?;
    match (found, sorted.get(key.items())) {
        (Some(found), Some(want)) => Ok(found.items() == want),
        (found, want) => Ok(found.is_none() && want.is_none()),
    }
}

fn are_ranges_alike<L: Ledger>(
    alloc: Global,
    numbers: &mut Numbers,
    store: &mut MemStore,
    sorted: &SortedPairs,
    meter: &mut Meter<L>,
) -> Result<bool, StoreErr> {
    let low = bytes_of(alloc, numbers)?;
    let high = bytes_of(alloc, numbers)?;
    let limit = 1 + numbers.below(40) as u32;
    let found = store.range(alloc, low.items(), high.items(), limit, meter)?;
    let want = sorted.range(low.items(), high.items());
    let n = want.len().min(limit as usize);
    Ok(are_pairs(found.items(), &want[..n]))
}

fn are_counts_alike<L: Ledger>(
    alloc: Global,
    numbers: &mut Numbers,
    store: &mut MemStore,
    sorted: &SortedPairs,
    meter: &mut Meter<L>,
) -> Result<bool, StoreErr> {
    let low = bytes_of(alloc, numbers)?;
    let high = bytes_of(alloc, numbers)?;
    let cap = numbers.below(40) as u32;
    let found = store.count(alloc, low.items(), high.items(), cap, meter)?;
    let want = sorted.range(low.items(), high.items()).len();
    Ok(found as usize == want.min(cap as usize))
}

// Every other write is guarded, and every third removes.
fn are_writes_alike<L: Ledger>(
    alloc: Global,
    numbers: &mut Numbers,
    store: &mut MemStore,
    sorted: &mut SortedPairs,
    meter: &mut Meter<L>,
) -> Result<bool, StoreErr> {
    let key = bytes_of(alloc, numbers)?;
    let value = numbers.bytes(alloc, 1).map_err(no_mem)?;
    let held = numbers.bytes(alloc, 1).map_err(no_mem)?;
    let guard = match numbers.below(4) {
        0 => Guard::Absent,
        1 => Guard::Is(held.items()),
        _ => Guard::Any,
    };
    let new = match numbers.below(3) {
        0 => None,
        _ => Some(value.items()),
    };
    let found = store.write(alloc, key.items(), guard, new, meter)?;
    let want = sorted
        .write(alloc, key.items(), guard, new)
        .map_err(no_mem)?;
    Ok(found == want)
}

fn no_mem(_error: NoMem) -> StoreErr {
    StoreErr::NoMem
}

// One of 341 keys.
fn bytes_of(alloc: Global, numbers: &mut Numbers) -> Result<Bytes, StoreErr> {
    numbers.bytes(alloc, 4).map_err(no_mem)
}

fn are_calls_alike<L: Ledger>(
    alloc: Global,
    numbers: &mut Numbers,
    store: &mut MemStore,
    sorted: &mut SortedPairs,
    meter: &mut Meter<L>,
) -> Result<bool, StoreErr> {
    match numbers.below(5) {
        0 => are_gets_alike(alloc, numbers, store, sorted, meter),
        1 => are_ranges_alike(alloc, numbers, store, sorted, meter),
        2 => are_counts_alike(alloc, numbers, store, sorted, meter),
        _ => are_writes_alike(alloc, numbers, store, sorted, meter),
    }
}

// Which of the calls is the first that is answered otherwise, None where all are alike and both hold the same pairs.
// The caller's proof picks the ledger of the blank.
fn first_unlike<L: Ledger>(alloc: Global, blank: Blank, calls: u32) -> Result<Option<u32>, StoreErr>
    requires name { blank.name ≡ L.name }
    requires parts { blank.parts ≡ L.parts }
    requires two { blank.parts ≡ 2 }
{
    let mut meter = Meter::<L>::start(Opening::of(blank));
    let mut numbers = Numbers { state: 1 };
    let mut store = MemStore::new(alloc);
    let mut sorted = SortedPairs::new(alloc);
    for call in 0..calls {
        if !are_calls_alike(alloc, &mut numbers, &mut store, &mut sorted, &mut meter)? {
            return Ok(Some(call));
        }
    }
    let pairs = store.pairs(alloc).map_err(no_mem)?;
    Ok((!are_pairs(pairs.items(), &sorted.held)).then_some(calls))
}

#[test]
fn a_sorted_vector_answers_alike(rt: HostRuntime) -> Result<(), test::Fail> {
    assert_eq!(rt;
        first_unlike::<Brand>(rt.alloc(), Blank::new(2), 4000)?,
        None
    );
    Ok(())
}
