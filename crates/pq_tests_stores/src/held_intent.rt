//! A store in a database, which holds the intent of a statement and doesn't write it, answers as the store in memory.
ghost use Rattle.std.specs.Prelude.{◌≡◌};

use pq_base::Bytes;
use pq_mem_store::MemStore;
use pq_sql_store::SqlStore;
use pq_store::{Broke, Guard, Meter, Opening, Pair, Store};
use sqlite::Connection;
use std::alloc::Global;
use std::marker::Brand;
use std::sync::ledger::{Blank, Ledger};
use std::test;

pub(crate) const INTENT: &[u8] = &[4];

// Writes in a row: of the pairs on both sides of the intent, and of the intent under each guard.
const WRITES: [(&[u8], Guard<'static>, Option<&'static [u8]>); 16] = [
    (&[2, 1], Guard::Any, Some(b"row")),
    (INTENT, Guard::Any, None),
    (INTENT, Guard::Is(b"one"), Some(b"two")),
    (INTENT, Guard::Absent, None),
    (INTENT, Guard::Absent, Some(b"one")),
    (INTENT, Guard::Absent, Some(b"two")),
    (INTENT, Guard::Absent, None),
    (&[3, 1], Guard::Any, Some(b"")),
    (&[5, 1], Guard::Absent, Some(b"group")),
    (&[5, 1], Guard::Absent, Some(b"other")),
    (INTENT, Guard::Is(b"two"), None),
    (INTENT, Guard::Is(b"one"), Some(b"two")),
    (INTENT, Guard::Any, Some(b"three")),
    (INTENT, Guard::Is(b"three"), None),
    (INTENT, Guard::Is(b"three"), None),
    (&[2, 1], Guard::Is(b"row"), None),
];

// Ranges, each with a limit: all, those around the intent's key, and those that end or begin at it.
const RANGES: [(&[u8], &[u8], u32); 9] = [
    (&[0], &[9], 1),
    (&[0], &[9], 2),
    (&[0], &[9], 3),
    (&[0], &[9], 9),
    (&[4], &[4, 0], 9),
    (&[0], &[4], 9),
    (&[4, 0], &[9], 9),
    (&[4], &[9], 1),
    (&[9], &[0], 9),
];

pub(crate) fn tell_pairs(alloc: Global, pairs: &[Pair], told: &mut Bytes) -> Result<(), Broke> {
    for pair in pairs {
        told.extend(alloc, pair.key.items())?;
        told.extend(alloc, b"=")?;
        told.extend(alloc, pair.value.items())?;
    }
    told.extend(alloc, b";")?;
    Ok(())
}

// Puts behind the text what a range and a count answer.
fn tell_range<S: Store<L>, L: Ledger>(
    alloc: Global,
    (low, high, limit): (&[u8], &[u8], u32),
    store: &mut S,
    meter: &mut Meter<L>,
    told: &mut Bytes,
) -> Result<(), Broke> {
    if limit >= 1 {
        let found = store.range(alloc, low, high, limit, meter)?;
        tell_pairs(alloc, found.items(), told)?;
    }
    let count = store.count(alloc, low, high, limit, meter)?;
    told.extend(alloc, &count.to_be_bytes())?;
    Ok(())
}

// The same of all reads.
fn tell_reads<S: Store<L>, L: Ledger>(
    alloc: Global,
    store: &mut S,
    meter: &mut Meter<L>,
    told: &mut Bytes,
) -> Result<(), Broke> {
    for range in RANGES {
        tell_range(alloc, range, store, meter, told)?;
    }
    match store.get(alloc, INTENT, meter)? {
        Some(value) => told.extend(alloc, value.items())?,
        None => told.extend(alloc, b"none")?,
    }
    Ok(())
}

// What the store answers to the writes in a row, and to all reads behind each of them.
fn told<S: Store<L>, L: Ledger>(
    alloc: Global,
    store: &mut S,
    meter: &mut Meter<L>,
) -> Result<Bytes, Broke> {
    let mut told = Bytes::new(alloc);
    for (key, guard, new) in WRITES {
        let done = store.write(alloc, key, guard, new, meter)?;
        told.extend(alloc, if done { b"+" } else { b"-" })?;
        tell_reads(alloc, store, meter, &mut told)?;
    }
    Ok(told)
}

// The caller's proof picks the ledger.
fn both_tell<L: Ledger>(
    alloc: Global,
    blank: Blank,
    store: &mut SqlStore<sqlite::MemStore>,
) -> Result<[Bytes; 2], Broke>
    requires name { blank.name ≡ L.name }
    requires parts { blank.parts ≡ L.parts }
    requires two { blank.parts ≡ 2 }
{
    let mut meter = Meter::<L>::start(Opening::of(blank));
    let found = told(alloc, store, &mut meter)?;
    let mut memory = MemStore::new(alloc);
    let wanted = told(alloc, &mut memory, &mut meter)?;
    Ok([found, wanted])
}

fn both_told(alloc: Global, store: &mut SqlStore<sqlite::MemStore>) -> Result<[Bytes; 2], Broke> {
    both_tell::<Brand>(alloc, Blank::new(2), store)
}

#[test]
fn the_intent_is_answered_as_if_it_were_written(rt: HostRuntime) -> Result<(), test::Fail> {
    let mut store = SqlStore::over(Connection::open_in_memory(rt.alloc())?)?;
    let [found, wanted] = both_told(rt.alloc(), &mut store)?;
    assert_eq!(rt; found.items(), wanted.items());
    Ok(())
}
