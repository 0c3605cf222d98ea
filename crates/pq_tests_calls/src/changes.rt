//! Commits that are stopped at each of their calls, and intents that were left.
ghost use Rattle.std.specs.Prelude.{◌≡◌, map, IfOk, IfSome};
ghost use Rattle.std.specs.List.{list_all};
ghost use Rattle.pq_row_code.specs.Changes.{AreChanges};
ghost use Rattle.pq_content.specs.Standing.{change_of, may_intend, AreIntended};

use crate::calls::{Texts, are_pairs, pairs_of, store_of};
use pq_base::{Bound, List, NoMem};
use pq_intent::{Settled, commit, settle};
use pq_mem_store::MemStore;
use pq_row_code::{Change, decode_changes};
use pq_store::{Allowance, Broke, Meter, Opening, Pair, Store};
use pq_test_faults::{Fail, FailingStore};
use std::alloc::Global;
use std::marker::Brand;
use std::sync::ledger::{Blank, Ledger};
use std::test;

// The row b; the row a and an entry; the three changes from the one to the others.
const OLD: Texts = &[(b"\x02\x01b", b"2")];

const NEW: Texts = &[(b"\x02\x01a", b"1"), (b"\x03\x01x", b"")];

const CODE: &[u8] =
    b"\x00\x03\x00\x00\x00\x03\x02\x01a\x01\x00\x00\x00\x011\x00\x00\x00\x03\x03\x01x\x01\x00\x00\x00\x00\x00\x00\x00\x03\x02\x01b\x00";

fn may_intend(key: &[u8]) -> bool
    ensures { result ≡ may_intend key.now }
{
    match key {
        [space, ..] => *space == 0x02 || *space == 0x03 || *space == 0x05,
        [] => false,
    }
}

fn are_intended(changes: &[Change]) -> bool
    ensures { result ≡ list_all (λ change. may_intend change.key) changes.now }
{
    changes.iter().all(|change| may_intend(change.key.items()))
}

// The changes of rows and entries with this code.
fn changes_of(alloc: Global, code: &[u8]) -> Result<Option<List<Change>>, NoMem>
    ensures coded { IfOk result (λ found. IfSome found AreChanges) }
    ensures rows { IfOk result (λ found. IfSome found (λ changes. AreIntended (map change_of changes))) }
{
    let Some(changes) = decode_changes(alloc, code)? else {
        return Ok(None);
    };
    if are_intended(changes.items()) {
        Ok(Some(changes))
    } else {
        Ok(None)
    }
}

// Commits the changes with this code, with just the operations that it may use.
fn commit_code<S: Store<L>, L: Ledger>(
    alloc: Global,
    code: &[u8],
    store: &mut S,
    meter: &mut Meter<L>,
) -> Result<(), Broke> {
    let Some(changes) = changes_of(alloc, code)? else {
        return Err(Broke::NoMem);
    };
    let ops = match changes.items().len() {
        0 => return Err(Broke::NoMem),
        1 => 1,
        number => number as u128 + 2,
    };
    let mut allowance = Allowance::grant(Bound { ops, entries: 0 });
    commit(alloc, changes, store, &mut allowance, meter)
}

// What calls of a commit, and of the settlings after it, fail and how often it is settled; and what is there then.
type Stop = (&'static [(u64, bool)], u32, Texts);

// Each call of the commit, and then calls of the settling after it, whose first is a read. Stopped before its second
// call, a commit leaves the code of its changes.
const STOPS: [Stop; 16] = [
    (&[], 0, NEW),
    (&[(2, false)], 0, &[(b"\x02\x01b", b"2"), (b"\x04", CODE)]),
    (&[(1, false)], 1, OLD),
    (&[(1, true)], 1, NEW),
    (&[(2, false)], 1, NEW),
    (&[(2, true)], 1, NEW),
    (&[(3, false)], 1, NEW),
    (&[(3, true)], 1, NEW),
    (&[(4, false)], 1, NEW),
    (&[(4, true)], 1, NEW),
    (&[(5, false)], 1, NEW),
    (&[(5, true)], 1, NEW),
    (&[(1, false), (2, false)], 2, OLD),
    (&[(3, false), (4, false)], 2, NEW),
    (&[(3, true), (5, true)], 2, NEW),
    (&[(2, false), (7, false)], 2, NEW),
];

// What a commit and the settlings after it leave.
fn stopped<L: Ledger>(
    alloc: Global,
    stop: &Stop,
    meter: &mut Meter<L>,
) -> Result<List<Pair>, NoMem> {
    let mut fails = List::new(alloc);
    for (call, done) in stop.0 {
        let (call, done) = (*call, *done);
        fails.push(alloc, Fail { call, done })?;
    }
    let mut store = FailingStore::new(alloc, store_of(alloc, pairs_of(alloc, OLD)?)?, fails);
    let _ = commit_code(alloc, CODE, &mut store, meter);
    for _ in 0..stop.1 {
        let _ = settle(alloc, &mut store, meter);
    }
    store.into_inner().pairs(alloc)
}

// The first of the stops that leaves something else.
fn first_unlike<L: Ledger>(alloc: Global, blank: Blank) -> Result<Option<usize>, NoMem>
    requires name { blank.name ≡ L.name }
    requires parts { blank.parts ≡ L.parts }
    requires two { blank.parts ≡ 2 }
{
    let mut meter = Meter::<L>::start(Opening::of(blank));
    for (i, stop) in STOPS.iter().enumerate() {
        if !are_pairs(&stopped(alloc, stop, &mut meter)?, stop.2) {
            return Ok(Some(i));
        }
    }
    Ok(None)
}

#[test]
fn a_stopped_commit_is_whole_or_not_there(rt: HostRuntime) -> Result<(), test::Fail> {
    assert_eq!(rt; first_unlike::<Brand>(rt.alloc(), Blank::new(2))?, None);
    Ok(())
}

// A content, and what settling it gives: the number of changes and what was used, where the intent is sound, and what
// is there then.
type Left = (Texts, Option<(u32, u64, u64)>, Texts);

const REMOVAL: &[u8] = b"\x00\x01\x00\x00\x00\x03\x02\x01b\x00";

// An intent that removes the pair of a definition is none.
const OTHER_KEY: &[u8] = b"\x00\x01\x00\x00\x00\x03\x01\x00\x01\x00";

const LEFT: [Left; 7] = [
    (OLD, Some((0, 1, 0)), OLD),
    (&[(b"\x04", b"\x00\x00")], Some((0, 2, 1)), &[]),
    (
        &[(b"\x02\x01b", b"2"), (b"\x04", REMOVAL)],
        Some((1, 3, 1)),
        &[],
    ),
    (
        &[(b"\x02\x01b", b"2"), (b"\x04", CODE)],
        Some((3, 5, 1)),
        NEW,
    ),
    (&[(b"\x04", b"\x00")], None, &[(b"\x04", b"\x00")]),
    (&[(b"\x04", OTHER_KEY)], None, &[(b"\x04", OTHER_KEY)]),
    (&[(b"\x04", b"")], None, &[(b"\x04", b"")]),
];

fn is_settled<L: Ledger>(alloc: Global, left: &Left, meter: &mut Meter<L>) -> Result<bool, NoMem> {
    let mut store = store_of(alloc, pairs_of(alloc, left.0)?)?;
    let found = match settle(alloc, &mut store, meter) {
        Ok(Settled { changes, used }) => Some((changes, used.ops, used.entries)),
        Err(Broke::Damaged(_)) => None,
        Err(_) => return Err(NoMem),
    };
    Ok(found == left.1 && are_pairs(&store.pairs(alloc)?, left.2))
}

// The first of the contents that settles to something else.
fn first_unsettled<L: Ledger>(alloc: Global, blank: Blank) -> Result<Option<usize>, NoMem>
    requires name { blank.name ≡ L.name }
    requires parts { blank.parts ≡ L.parts }
    requires two { blank.parts ≡ 2 }
{
    let mut meter = Meter::<L>::start(Opening::of(blank));
    for (i, left) in LEFT.iter().enumerate() {
        if !is_settled(alloc, left, &mut meter)? {
            return Ok(Some(i));
        }
    }
    Ok(None)
}

#[test]
fn intents_are_settled(rt: HostRuntime) -> Result<(), test::Fail> {
    assert_eq!(rt; first_unsettled::<Brand>(rt.alloc(), Blank::new(2))?, None);
    Ok(())
}
