//! Calls in a row with the answers that the rules of the store give, on stores that fail and that don't.
ghost use Rattle.std.specs.Prelude.{◌≡◌};

use crate::calls::{Call, Texts, are_pairs, failing, is_answered, pairs_of};
use pq_base::{Bound, List, NoMem};
use pq_mem_store::{MemStore, NotPairs};
use pq_store::{Allowance, Broke, Guard, Meter, Opening, Pair, Store, StoreErr};
use std::alloc::Global;
use std::marker::Brand;
use std::sync::ledger::{Blank, Ledger};
use std::test;

// Calls over a store that is empty at first.
const CALLS: [Call; 20] = [
    Call::Get(b"b", None),
    Call::Write(b"b", Guard::Is(b""), Some(b"0"), false),
    Call::Write(b"b", Guard::Absent, Some(b"1"), true),
    Call::Write(b"b", Guard::Absent, Some(b"2"), false),
    Call::Get(b"b", Some(b"1")),
    Call::Write(b"a", Guard::Any, Some(b""), true),
    Call::Write(b"c", Guard::Any, Some(b"3"), true),
    Call::Write(b"bb", Guard::Absent, Some(b"4"), true),
    Call::Range(
        b"",
        b"z",
        9,
        &[(b"a", b""), (b"b", b"1"), (b"bb", b"4"), (b"c", b"3")],
    ),
    Call::Range(b"b", b"c", 9, &[(b"b", b"1"), (b"bb", b"4")]),
    Call::Range(b"b", b"c", 1, &[(b"b", b"1")]),
    Call::Range(b"c", b"b", 9, &[]),
    Call::Count(b"", b"z", 9, 4),
    Call::Count(b"", b"z", 3, 3),
    Call::Count(b"b", b"b\0", 9, 1),
    Call::Write(b"b", Guard::Is(b"2"), None, false),
    Call::Write(b"b", Guard::Is(b"1"), None, true),
    Call::Write(b"b", Guard::Any, None, true),
    Call::Get(b"b", None),
    Call::Range(b"a", b"z", 2, &[(b"a", b""), (b"bb", b"4")]),
];

// The first of the calls that is answered otherwise. The caller's proof picks the ledger of the blank.
fn first_unlike<L: Ledger>(alloc: Global, blank: Blank) -> Result<Option<usize>, StoreErr>
    requires name { blank.name ≡ L.name }
    requires parts { blank.parts ≡ L.parts }
    requires two { blank.parts ≡ 2 }
{
    let mut meter = Meter::<L>::start(Opening::of(blank));
    let mut store = MemStore::new(alloc);
    for (i, call) in CALLS.iter().enumerate() {
        if !is_answered(alloc, &mut store, call, &mut meter)? {
            return Ok(Some(i));
        }
    }
    Ok(None)
}

#[test]
fn answers(rt: HostRuntime) -> Result<(), test::Fail> {
    assert_eq!(rt; first_unlike::<Brand>(rt.alloc(), Blank::new(2))?, None);
    Ok(())
}

// The pairs of the store that is made of these, or those that are given back, and which of the two.
fn made_of(alloc: Global, texts: &[(&[u8], &[u8])]) -> Result<(bool, List<Pair>), NoMem> {
    match MemStore::from_pairs(alloc, pairs_of(alloc, texts)?) {
        Ok(store) => {
            let pairs = store.pairs(alloc)?;
            Ok((true, pairs))
        }
        Err(error) => match error {
            NotPairs::Unordered(back) => Ok((false, back)),
            NotPairs::NoMem => Err(NoMem),
        },
    }
}

// Pairs, and whether they rise.
const ORDERS: [(Texts, bool); 4] = [
    (&[], true),
    (&[(b"a", b"1"), (b"a\0", b"2"), (b"b", b"")], true),
    (&[(b"a\0", b"2"), (b"a", b"1")], false),
    (&[(b"a", b"1"), (b"a", b"1")], false),
];

#[test]
fn orders(rt: HostRuntime) -> Result<(), test::Fail> {
    for (texts, rising) in &ORDERS {
        let (made, pairs) = made_of(rt.alloc(), texts)?;
        assert_eq!(rt; made, *rising);
        assert!(rt; are_pairs(&pairs, texts));
    }
    Ok(())
}

// The call that fails, 0 for none, whether it is done, and what is there behind the writes.
const FAILS: [(u64, bool, Texts); 8] = [
    (0, false, &[(b"b", b"2")]),
    (1, false, &[(b"b", b"2")]),
    (1, true, &[(b"b", b"2")]),
    (2, false, &[(b"a", b"1"), (b"b", b"2")]),
    (2, true, &[(b"b", b"2")]),
    (3, false, &[]),
    (3, true, &[(b"b", b"2")]),
    (4, true, &[(b"b", b"2")]),
];

// Whether the write fails.
fn fails_writing<S: Store<L>, L: Ledger>(
    alloc: Global,
    store: &mut S,
    key: &[u8],
    new: Option<&[u8]>,
    meter: &mut Meter<L>,
) -> bool {
    matches!(
        store.write(alloc, key, Guard::Any, new, meter),
        Err(StoreErr::Failed)
    )
}

// Writes 1 at a, removes a, and writes 2 at b, past each failed call: whether call k failed alone.
fn fails_at<S: Store<L>, L: Ledger>(
    alloc: Global,
    store: &mut S,
    k: u64,
    meter: &mut Meter<L>,
) -> bool {
    fails_writing(alloc, store, b"a", Some(b"1"), meter) == (k == 1)
        && fails_writing(alloc, store, b"a", None, meter) == (k == 2)
        && fails_writing(alloc, store, b"b", Some(b"2"), meter) == (k == 3)
}

// The first of the failing calls behind which something else is there.
fn first_unlike_failing<L: Ledger>(alloc: Global, blank: Blank) -> Result<Option<usize>, NoMem>
    requires name { blank.name ≡ L.name }
    requires parts { blank.parts ≡ L.parts }
    requires two { blank.parts ≡ 2 }
{
    let mut meter = Meter::<L>::start(Opening::of(blank));
    for (i, (call, done, want)) in FAILS.iter().enumerate() {
        let mut store = failing(alloc, MemStore::new(alloc), *call, *done)?;
        let failed = fails_at(alloc, &mut store, *call, &mut meter);
        if !failed || !are_pairs(&store.into_inner().pairs(alloc)?, want) {
            return Ok(Some(i));
        }
    }
    Ok(None)
}

#[test]
fn fails(rt: HostRuntime) -> Result<(), test::Fail> {
    assert_eq!(rt;
        first_unlike_failing::<Brand>(rt.alloc(), Blank::new(2))?,
        None
    );
    Ok(())
}

#[test]
fn spends(rt: HostRuntime) {
    let mut allowance = Allowance::grant(Bound {
        ops: 3,
        entries: 10,
    });
    allowance.spend(4);
    allowance.spend(0);
    assert_eq!(rt; allowance.ops_left(), 1);
    assert_eq!(rt; allowance.entries_left(), 6);
    let used = allowance.used();
    assert_eq!(rt; used.ops, 2);
    assert_eq!(rt; used.entries, 4);
}

#[test]
fn names_errors(rt: HostRuntime) -> Result<(), test::Fail> {
    let alloc = rt.alloc();
    assert_eq!(rt;
        StoreErr::Failed.to_string(alloc)?.as_str(),
        "the store failed"
    );
    assert_eq!(rt; StoreErr::NoMem.to_string(alloc)?.as_str(), "out of memory");
    assert!(rt; matches!(Broke::from(StoreErr::Failed), Broke::Failed));
    assert!(rt; matches!(Broke::from(StoreErr::NoMem), Broke::NoMem));
    assert!(rt; matches!(Broke::from(NoMem), Broke::NoMem));
    Ok(())
}
