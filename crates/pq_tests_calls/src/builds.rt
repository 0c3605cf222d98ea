//! Builds that are stopped at each of their calls and then completed, and damage that a build finds.
ghost use Rattle.std.specs.Prelude.{◌≡◌};

use crate::build_rows::{
    PLAIN, build, built_store, complete, damaged_store, marked_store, plain_store, same,
};
use crate::calls::failing;
use pq_base::{List, NoMem};
use pq_builds::Built;
use pq_mem_store::MemStore;
use pq_store::{Broke, Damage, Meter, Opening, Pair};
use std::alloc::Global;
use std::marker::Brand;
use std::sync::ledger::{Blank, Ledger};
use std::test;

// A number of rows, how many calls a build over them makes, and those at which it is stopped. The first ones are the
// count, the mark and a range; then come an entry for each of up to 256 rows and the next range, and at the end the
// ready definition.
type Calls = (u32, u64, &'static [u64]);

const BUILDS: [Calls; 5] = [
    (0, 4, &[1, 2, 3, 4]),
    (5, 9, &[1, 2, 3, 4, 5, 6, 7, 8, 9]),
    (255, 259, &[258, 259]),
    (256, 261, &[259, 260, 261]),
    (257, 262, &[259, 260, 261, 262]),
];

// Whether a build makes the index with just so many calls.
fn is_whole<L: Ledger>(
    alloc: Global,
    rows: u32,
    calls: u64,
    want: &MemStore,
    meter: &mut Meter<L>,
) -> Result<bool, Broke> {
    let plain = plain_store(alloc, rows)?;
    let mut store = failing(alloc, plain, calls.saturating_add(1), false)?;
    let built = build(alloc, &PLAIN, &mut store, meter)?;
    Ok(built == Built::Rows(rows) && same(alloc, &store.into_inner(), want)?)
}

// Whether a build that is left is completed with a call less.
fn is_completed<L: Ledger>(
    alloc: Global,
    rows: u32,
    calls: u64,
    want: &MemStore,
    meter: &mut Meter<L>,
) -> Result<bool, Broke> {
    let marked = marked_store(alloc, rows)?;
    let mut store = failing(alloc, marked, calls, false)?;
    let count = complete(alloc, &mut store, meter)?;
    Ok(count == rows && same(alloc, &store.into_inner(), want)?)
}

// What a build that is stopped at this call leaves; None where it isn't stopped.
fn stopped<L: Ledger>(
    alloc: Global,
    rows: u32,
    call: u64,
    done: bool,
    meter: &mut Meter<L>,
) -> Result<Option<MemStore>, NoMem> {
    let plain = plain_store(alloc, rows)?;
    let mut store = failing(alloc, plain, call, done)?;
    match build(alloc, &PLAIN, &mut store, meter) {
        Ok(_) => Ok(None),
        Err(_) => Ok(Some(store.into_inner())),
    }
}

// Builds the index over a store with just the rows, and completes it over one that also has its definition.
fn make_whole<L: Ledger>(
    alloc: Global,
    rows: u32,
    store: &mut MemStore,
    meter: &mut Meter<L>,
) -> Result<(), Broke> {
    let plain = plain_store(alloc, rows)?;
    if same(alloc, store, &plain)? {
        build(alloc, &PLAIN, store, meter)?;
    } else {
        complete(alloc, store, meter)?;
    }
    Ok(())
}

// Whether what a build that is stopped at this call leaves can be made whole.
fn is_stopped<L: Ledger>(
    alloc: Global,
    rows: u32,
    call: u64,
    done: bool,
    want: &MemStore,
    meter: &mut Meter<L>,
) -> Result<bool, Broke> {
    let Some(mut store) = stopped(alloc, rows, call, done, meter)? else {
        return Ok(false);
    };
    make_whole(alloc, rows, &mut store, meter)?;
    Ok(same(alloc, &store, want)?)
}

// The first call at which a stopped build isn't made whole; 0 where the build itself isn't as it is to be.
fn first_unlike<L: Ledger>(
    alloc: Global,
    build: &Calls,
    meter: &mut Meter<L>,
) -> Result<Option<u64>, Broke> {
    let (rows, calls, stops) = *build;
    let want = built_store(alloc, rows)?;
    let whole = is_whole(alloc, rows, calls, &want, meter)?;
    if !(whole && is_completed(alloc, rows, calls, &want, meter)?) {
        return Ok(Some(0));
    }
    for call in stops {
        let undone = is_stopped(alloc, rows, *call, false, &want, meter)?;
        if !(undone && is_stopped(alloc, rows, *call, true, &want, meter)?) {
            return Ok(Some(*call));
        }
    }
    Ok(None)
}

// The first of the builds that is otherwise, by its rows, and the call.
fn first_build<L: Ledger>(alloc: Global, blank: Blank) -> Result<Option<(u32, u64)>, Broke>
    requires name { blank.name ≡ L.name }
    requires parts { blank.parts ≡ L.parts }
    requires two { blank.parts ≡ 2 }
{
    let mut meter = Meter::<L>::start(Opening::of(blank));
    for build in &BUILDS {
        if let Some(call) = first_unlike(alloc, build, &mut meter)? {
            return Ok(Some((build.0, call)));
        }
    }
    Ok(None)
}

#[test]
fn a_stopped_build_is_made_whole(rt: HostRuntime) -> Result<(), test::Fail> {
    let unlike = first_build::<Brand>(rt.alloc(), Blank::new(2));
    assert!(rt; matches!(unlike, Ok(None)));
    Ok(())
}

// Whether damage is just the last of the pairs.
fn names_last(damage: &Damage, pairs: &List<Pair>) -> bool {
    match (pairs.items().last(), &damage.value) {
        (Some(pair), Some(value)) => {
            damage.key.items() == pair.key.items() && value.items() == pair.value.items()
        }
        _ => false,
    }
}

// Whether a build names the pair that is no row, behind so many rows.
fn is_damaged<L: Ledger>(alloc: Global, rows: u32, meter: &mut Meter<L>) -> Result<bool, Broke> {
    let mut store = damaged_store(alloc, rows)?;
    let pairs = store.pairs(alloc)?;
    match build(alloc, &PLAIN, &mut store, meter) {
        Err(Broke::Damaged(damage)) => Ok(names_last(&damage, &pairs)),
        _ => Ok(false),
    }
}

// The first number of rows behind which the pair isn't named.
fn first_unnamed<L: Ledger>(alloc: Global, blank: Blank) -> Result<Option<u32>, Broke>
    requires name { blank.name ≡ L.name }
    requires parts { blank.parts ≡ L.parts }
    requires two { blank.parts ≡ 2 }
{
    let mut meter = Meter::<L>::start(Opening::of(blank));
    for rows in [0, 255, 256] {
        if !is_damaged(alloc, rows, &mut meter)? {
            return Ok(Some(rows));
        }
    }
    Ok(None)
}

#[test]
fn a_pair_that_is_no_row_is_named(rt: HostRuntime) -> Result<(), test::Fail> {
    let unnamed = first_unnamed::<Brand>(rt.alloc(), Blank::new(2));
    assert!(rt; matches!(unnamed, Ok(None)));
    Ok(())
}
