//! What stands in a file behind a store that was closed, or was dropped as a kill leaves it.
//!
//! The test has a file of its own in the folder that it is run in, and leaves none.
ghost use Rattle.std.specs.Prelude.{◌≡◌};

use crate::files::{End, leave, remove};
use pq_sql_store::FileSqlStore;
use pq_store::{Guard, Meter, Opening, Pair, Store, StoreErr};
use std::alloc::Global;
use std::marker::Brand;
use std::sync::ledger::{Blank, Ledger};
use std::test;

const DEFINITION: &[u8] = &[1, 0, 1];

pub(crate) const ROW: &[u8] = &[2, 1, 7];

pub(crate) const ENTRY: &[u8] = &[3, 1, 1, 7];

pub(crate) const INTENT: &[u8] = &[4];

const GROUP: &[u8] = &[5, 0, 2];

// A call over a store, each write of which is made: the intent has to be absent.
#[derive(Clone, Copy)]
pub(crate) enum Call {
    Put(&'static [u8]),
    Remove(&'static [u8]),
    Get,
    Range,
    Count,
}

// Calls over a new file, how the store ends, and the keys that stand in the file then.
struct Case {
    calls: &'static [Call],
    end: End,
    keys: &'static [&'static [u8]],
}

const CASES: [Case; 16] = [
    // A statement is there from the removal of its intent on.
    Case {
        calls: &[
            Call::Put(INTENT),
            Call::Put(ROW),
            Call::Put(ENTRY),
            Call::Put(GROUP),
            Call::Remove(INTENT),
        ],
        end: End::Dropped,
        keys: &[ROW, ENTRY, GROUP],
    },
    Case {
        calls: &[Call::Put(INTENT), Call::Put(ROW), Call::Put(ENTRY)],
        end: End::Dropped,
        keys: &[],
    },
    Case {
        calls: &[Call::Put(INTENT), Call::Put(ROW), Call::Put(ENTRY)],
        end: End::Closed,
        keys: &[],
    },
    Case {
        calls: &[
            Call::Put(INTENT),
            Call::Put(ROW),
            Call::Put(DEFINITION),
            Call::Get,
            Call::Range,
            Call::Count,
        ],
        end: End::Dropped,
        keys: &[],
    },
    Case {
        calls: &[Call::Put(INTENT), Call::Remove(INTENT), Call::Put(ROW)],
        end: End::Dropped,
        keys: &[ROW],
    },
    // A write outside a statement is there at once.
    Case {
        calls: &[Call::Put(ROW)],
        end: End::Dropped,
        keys: &[ROW],
    },
    Case {
        calls: &[Call::Put(GROUP), Call::Put(ROW), Call::Remove(GROUP)],
        end: End::Dropped,
        keys: &[ROW],
    },
    // Entries wait for the next call that is no write of an entry, and for the end.
    Case {
        calls: &[Call::Put(DEFINITION), Call::Put(ENTRY)],
        end: End::Dropped,
        keys: &[DEFINITION],
    },
    Case {
        calls: &[Call::Put(DEFINITION), Call::Put(ENTRY)],
        end: End::Closed,
        keys: &[DEFINITION, ENTRY],
    },
    Case {
        calls: &[Call::Put(DEFINITION), Call::Put(ENTRY), Call::Range],
        end: End::Dropped,
        keys: &[DEFINITION, ENTRY],
    },
    Case {
        calls: &[Call::Put(DEFINITION), Call::Put(ENTRY), Call::Get],
        end: End::Dropped,
        keys: &[DEFINITION, ENTRY],
    },
    Case {
        calls: &[Call::Put(DEFINITION), Call::Put(ENTRY), Call::Count],
        end: End::Dropped,
        keys: &[DEFINITION, ENTRY],
    },
    Case {
        calls: &[Call::Put(ENTRY), Call::Put(DEFINITION)],
        end: End::Dropped,
        keys: &[DEFINITION, ENTRY],
    },
    Case {
        calls: &[Call::Put(ENTRY), Call::Put(ROW)],
        end: End::Dropped,
        keys: &[ROW, ENTRY],
    },
    Case {
        calls: &[Call::Put(ENTRY), Call::Put(INTENT), Call::Put(ROW)],
        end: End::Dropped,
        keys: &[ENTRY],
    },
    Case {
        calls: &[Call::Put(ENTRY), Call::Range, Call::Remove(ENTRY)],
        end: End::Dropped,
        keys: &[ENTRY],
    },
];

const PATH: &str = "transactions.tmp";

const LOG: &str = "transactions.tmp-wal";

fn guard_of(key: &[u8]) -> Guard<'static> {
    match key {
        [4] => Guard::Absent,
        _ => Guard::Any,
    }
}

pub(crate) fn make<S: Store<L>, L: Ledger>(
    alloc: Global,
    call: Call,
    store: &mut S,
    meter: &mut Meter<L>,
) -> Result<(), StoreErr> {
    match call {
        Call::Put(key) => {
            let _ = store.write(alloc, key, guard_of(key), Some(b"value"), meter)?;
        }
        Call::Remove(key) => {
            let _ = store.write(alloc, key, Guard::Any, None, meter)?;
        }
        Call::Get => {
            let _ = store.get(alloc, ROW, meter)?;
        }
        Call::Range => {
            let _ = store.range(alloc, &[1], &[9], 1, meter)?;
        }
        Call::Count => {
            let _ = store.count(alloc, &[1], &[9], 1, meter)?;
        }
    }
    Ok(())
}

fn have_keys(pairs: &[Pair], keys: &[&[u8]]) -> bool {
    if pairs.len() != keys.len() {
        return false;
    }
    for (pair, key) in pairs.iter().zip(keys.iter()) {
        if pair.key.items() != *key {
            return false;
        }
    }
    true
}

// Whether just these keys stand in the file.
fn is_left<L: Ledger>(
    rt: &HostRuntime,
    keys: &[&[u8]],
    meter: &mut Meter<L>,
) -> Result<bool, StoreErr> {
    let mut store = FileSqlStore::open(rt, PATH)?;
    let found = store.range(rt.alloc(), &[0], &[9], 99, meter)?;
    Ok(have_keys(found.items(), keys))
}

fn ends_so<L: Ledger>(
    rt: &HostRuntime,
    case: &Case,
    meter: &mut Meter<L>,
) -> Result<bool, StoreErr> {
    remove(rt, PATH, LOG);
    let mut store = FileSqlStore::open(rt, PATH)?;
    for call in case.calls {
        make(rt.alloc(), *call, &mut store, meter)?;
    }
    leave(store, case.end)?;
    is_left(rt, case.keys, meter)
}

// The first of the cases that ends otherwise. The caller's proof picks the ledger.
fn first_case_unlike<L: Ledger>(rt: &HostRuntime, blank: Blank) -> Result<Option<usize>, StoreErr>
    requires name { blank.name ≡ L.name }
    requires parts { blank.parts ≡ L.parts }
    requires two { blank.parts ≡ 2 }
{
    let mut meter = Meter::<L>::start(Opening::of(blank));
    for (i, case) in CASES.iter().enumerate() {
        if !ends_so(rt, case, &mut meter)? {
            return Ok(Some(i));
        }
    }
    Ok(None)
}

fn case_unlike(rt: &HostRuntime) -> Result<Option<usize>, StoreErr> {
    first_case_unlike::<Brand>(rt, Blank::new(2))
}

#[test]
fn a_statement_and_a_lot_are_whole(rt: HostRuntime) -> Result<(), test::Fail> {
    let unlike = case_unlike(&rt);
    remove(&rt, PATH, LOG);
    assert_eq!(rt; unlike?, None);
    Ok(())
}
