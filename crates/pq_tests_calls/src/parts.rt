//! Calls in a row over three parts, each with its answer and what its nodes were asked so far.
ghost use Rattle.std.specs.Prelude.{◌≡◌};

use crate::calls::{Call, is_answered};
use pq_base::{Bytes, List, NoMem};
use pq_mem_store::MemStore;
use pq_parts::{Part, PartStore};
use pq_store::{Guard, Meter, Opening, StoreErr};
use pq_test_faults::{Fail, FailingStore};
use std::alloc::Global;
use std::marker::Brand;
use std::sync::ledger::{Blank, Ledger};
use std::test;

// Where the parts begin.
const FROMS: [&[u8]; 3] = [b"", b"\x02\x02", b"\x03"];

// Calls over parts that are empty at first, with the calls and the entries of the nodes after each.
const CALLS: [(Call, u64, u64); 17] = [
    (
        Call::Write(b"\x02\x01", Guard::Absent, Some(b"a"), true),
        1,
        0,
    ),
    (
        Call::Write(b"\x02\x02\x05", Guard::Absent, Some(b"b"), true),
        2,
        0,
    ),
    (Call::Write(b"\x02\x02", Guard::Any, Some(b"c"), true), 3, 0),
    (Call::Write(b"\x03", Guard::Absent, Some(b"d"), true), 4, 0),
    (Call::Get(b"\x02\x02", Some(b"c")), 5, 1),
    (Call::Get(b"\x02\x03", None), 6, 1),
    (Call::Count(b"\x02", b"\x03", 100, 3), 8, 4),
    (Call::Count(b"", b"\xff", 2, 2), 10, 6),
    (Call::Count(b"", b"\xff", 0, 0), 10, 6),
    (
        Call::Range(
            b"",
            b"\xff",
            9,
            &[
                (b"\x02\x01", b"a"),
                (b"\x02\x02", b"c"),
                (b"\x02\x02\x05", b"b"),
                (b"\x03", b"d"),
            ],
        ),
        13,
        10,
    ),
    (
        Call::Range(b"\x02\x02", b"\x03", 1, &[(b"\x02\x02", b"c")]),
        14,
        11,
    ),
    (Call::Range(b"\x03", b"\x02", 9, &[]), 14, 11),
    (Call::Count(b"\x02\x02", b"\x02\x02", 9, 0), 14, 11),
    (
        Call::Write(b"\x02\x02", Guard::Is(b"x"), None, false),
        15,
        11,
    ),
    (
        Call::Write(b"\x02\x02", Guard::Is(b"c"), None, true),
        16,
        11,
    ),
    (
        Call::Range(
            b"\x02\x01\x00",
            b"\x03\x01",
            9,
            &[(b"\x02\x02\x05", b"b"), (b"\x03", b"d")],
        ),
        19,
        13,
    ),
    (Call::Get(b"\x03", Some(b"d")), 20, 14),
];

// Empty parts in memory that begin at these keys.
fn empty_parts(alloc: Global, froms: &[&[u8]]) -> Result<List<Part<MemStore>>, NoMem> {
    let mut parts = List::new(alloc);
    for from in froms {
        let part = Part {
            from: Bytes::of_bytes(alloc, from)?,
            store: MemStore::new(alloc),
        };
        parts.push(alloc, part)?;
    }
    Ok(parts)
}

fn is_told<N: Ledger, L: Ledger>(
    alloc: Global,
    store: &mut PartStore<MemStore, N>,
    stated: &(Call, u64, u64),
    meter: &mut Meter<L>,
) -> Result<bool, StoreErr> {
    let answered = is_answered(alloc, store, &stated.0, meter)?;
    Ok(answered && store.node_ops() == stated.1 && store.node_entries() == stated.2)
}

// The first of the calls that is answered or counted otherwise. The caller's proof picks the ledgers.
fn first_unlike<N: Ledger + Drop, L: Ledger>(
    alloc: Global,
    nodes: Blank,
    blank: Blank,
) -> Result<Option<usize>, StoreErr>
    requires nodes_name { nodes.name ≡ N.name }
    requires nodes_parts { nodes.parts ≡ N.parts }
    requires nodes_two { nodes.parts ≡ 2 }
    requires name { blank.name ≡ L.name }
    requires parts { blank.parts ≡ L.parts }
    requires two { blank.parts ≡ 2 }
{
    let Ok(parts) = empty_parts(alloc, &FROMS) else {
        return Err(StoreErr::NoMem);
    };
    let Ok(mut store) = PartStore::new(parts, Meter::<N>::start(Opening::of(nodes))) else {
        return Ok(Some(CALLS.len()));
    };
    let mut meter = Meter::<L>::start(Opening::of(blank));
    for (i, stated) in CALLS.iter().enumerate() {
        if !is_told(alloc, &mut store, stated, &mut meter)? {
            return Ok(Some(i));
        }
    }
    Ok(None)
}

#[test]
fn answers_and_counts(rt: HostRuntime) -> Result<(), test::Fail> {
    let unlike = first_unlike::<Brand, Brand>(rt.alloc(), Blank::new(2), Blank::new(2))?;
    assert_eq!(rt; unlike, None);
    Ok(())
}

// Calls over three parts of which the middle one fails at each call but its first and those behind its fifth; whether
// each fails.
const FAILING: [(Call, bool); 9] = [
    (
        Call::Write(b"\x02\x02", Guard::Any, Some(b"c"), true),
        false,
    ),
    (Call::Get(b"\x02\x02", None), true),
    (Call::Get(b"\x03", None), false),
    (Call::Range(b"", b"\x02\x02", 9, &[]), false),
    (Call::Count(b"\x02", b"\x04", 9, 0), true),
    (Call::Range(b"\x02", b"\x04", 9, &[]), true),
    (Call::Write(b"\x02\x02", Guard::Is(b"c"), None, true), true),
    (Call::Count(b"\x02", b"\x04", 9, 1), false),
    (Call::Get(b"\x02\x02", Some(b"c")), false),
];

// A store in memory that fails from its second to its fifth call, and does none of them.
fn failing_for_a_while(alloc: Global) -> Result<FailingStore, NoMem> {
    let mut fails = List::new(alloc);
    for call in 2..6 {
        fails.push(alloc, Fail { call, done: false })?;
    }
    Ok(FailingStore::new(alloc, MemStore::new(alloc), fails))
}

fn sound(alloc: Global) -> FailingStore {
    FailingStore::new(alloc, MemStore::new(alloc), List::new(alloc))
}

fn failing_parts(alloc: Global, froms: &[&[u8]]) -> Result<List<Part<FailingStore>>, NoMem> {
    let mut parts = List::new(alloc);
    for (i, from) in froms.iter().enumerate() {
        let part = Part {
            from: Bytes::of_bytes(alloc, from)?,
            store: if i == 1 {
                failing_for_a_while(alloc)?
            } else {
                sound(alloc)
            },
        };
        parts.push(alloc, part)?;
    }
    Ok(parts)
}

fn fails_as_stated<N: Ledger, L: Ledger>(
    alloc: Global,
    store: &mut PartStore<FailingStore, N>,
    stated: &(Call, bool),
    meter: &mut Meter<L>,
) -> bool {
    match is_answered(alloc, store, &stated.0, meter) {
        Ok(answered) => answered && !stated.1,
        Err(error) => error == StoreErr::Failed && stated.1,
    }
}

// The first of the calls that fails otherwise. The caller's proof picks the ledgers.
fn first_unlike_failing<N: Ledger + Drop, L: Ledger>(
    alloc: Global,
    nodes: Blank,
    blank: Blank,
) -> Result<Option<usize>, NoMem>
    requires nodes_name { nodes.name ≡ N.name }
    requires nodes_parts { nodes.parts ≡ N.parts }
    requires nodes_two { nodes.parts ≡ 2 }
    requires name { blank.name ≡ L.name }
    requires parts { blank.parts ≡ L.parts }
    requires two { blank.parts ≡ 2 }
{
    let parts = failing_parts(alloc, &FROMS)?;
    let Ok(mut store) = PartStore::new(parts, Meter::<N>::start(Opening::of(nodes))) else {
        return Ok(Some(FAILING.len()));
    };
    let mut meter = Meter::<L>::start(Opening::of(blank));
    for (i, stated) in FAILING.iter().enumerate() {
        if !fails_as_stated(alloc, &mut store, stated, &mut meter) {
            return Ok(Some(i));
        }
    }
    Ok(None)
}

#[test]
fn a_node_that_fails_is_told(rt: HostRuntime) -> Result<(), test::Fail> {
    let unlike = first_unlike_failing::<Brand, Brand>(rt.alloc(), Blank::new(2), Blank::new(2))?;
    assert_eq!(rt; unlike, None);
    Ok(())
}

// Whether the parts that begin at these keys make a store, and how many are given back. The caller's
// proof picks the ledger.
fn made_of<N: Ledger + Drop>(
    alloc: Global,
    nodes: Blank,
    froms: &[&[u8]],
) -> Result<Option<usize>, NoMem>
    requires name { nodes.name ≡ N.name }
    requires parts { nodes.parts ≡ N.parts }
    requires two { nodes.parts ≡ 2 }
{
    let parts = empty_parts(alloc, froms)?;
    match PartStore::new(parts, Meter::<N>::start(Opening::of(nodes))) {
        Ok(_) => Ok(None),
        Err(back) => Ok(Some(back.items().len())),
    }
}

const TOO_MANY: [&[u8]; 65] = [
    b"", b"a", b"b", b"c", b"d", b"e", b"f", b"g", b"h", b"i", b"j", b"k", b"l", b"m", b"n", b"o",
    b"p", b"q", b"r", b"s", b"t", b"u", b"v", b"w", b"x", b"y", b"z", b"za", b"zb", b"zc", b"zd",
    b"ze", b"zf", b"zg", b"zh", b"zi", b"zj", b"zk", b"zl", b"zm", b"zn", b"zo", b"zp", b"zq",
    b"zr", b"zs", b"zt", b"zu", b"zv", b"zw", b"zx", b"zy", b"zz", b"zza", b"zzb", b"zzc", b"zzd",
    b"zze", b"zzf", b"zzg", b"zzh", b"zzi", b"zzj", b"zzk", b"zzl",
];

// Where parts begin, and how many of them are given back.
const PLACED: [(&[&[u8]], Option<usize>); 7] = [
    (&[], Some(0)),
    (&[b""], None),
    (&[b"a"], Some(1)),
    (&[b"", b"b", b"c"], None),
    (&[b"", b"b", b"b"], Some(3)),
    (&[b"", b"c", b"b"], Some(3)),
    (&TOO_MANY, Some(65)),
];

#[test]
fn parts_that_are_out_of_place_are_given_back(rt: HostRuntime) -> Result<(), test::Fail> {
    for (froms, back) in &PLACED {
        assert_eq!(rt; made_of::<Brand>(rt.alloc(), Blank::new(2), froms)?, *back);
    }
    assert_eq!(rt;
        made_of::<Brand>(rt.alloc(), Blank::new(2), &TOO_MANY[..64])?,
        None
    );
    Ok(())
}
