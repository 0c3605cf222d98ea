//! Builds over a store that counts other rows than it has: over too many, and over a wrong number.
ghost use Rattle.std.specs.Prelude.{◌≡◌};

use crate::build_rows::{PLAIN, build, complete, marked_store, plain_store, same};
use pq_base::NoMem;
use pq_builds::Built;
use pq_store::{Broke, Damage, Meter, Opening};
use pq_test_miscount::MiscountStore;
use std::alloc::Global;
use std::marker::Brand;
use std::sync::ledger::{Blank, Ledger};
use std::test;

// Rows, and another number of them that is counted.
const COUNTS: [(u32, u32); 5] = [(3, 2), (3, 4), (0, 1), (255, 256), (256, 255)];

// The key of the definition.
const KEY: &[u8] = b"\x01\x00\x02";

// Whether damage is the definition's key alone.
fn names_definition(damage: &Damage) -> bool {
    damage.key.items() == KEY && damage.value.is_none()
}

// Whether a build names the definition.
fn is_built_told<L: Ledger>(
    alloc: Global,
    rows: u32,
    counted: u32,
    meter: &mut Meter<L>,
) -> Result<bool, NoMem> {
    let inner = plain_store(alloc, rows)?;
    let mut store = MiscountStore::new(inner, counted);
    match build(alloc, &PLAIN, &mut store, meter) {
        Err(Broke::Damaged(damage)) => Ok(names_definition(&damage)),
        _ => Ok(false),
    }
}

// Whether the completion of one that was left names it.
fn is_left_told<L: Ledger>(
    alloc: Global,
    rows: u32,
    counted: u32,
    meter: &mut Meter<L>,
) -> Result<bool, NoMem> {
    let inner = marked_store(alloc, rows)?;
    let mut store = MiscountStore::new(inner, counted);
    match complete(alloc, &mut store, meter) {
        Err(Broke::Damaged(damage)) => Ok(names_definition(&damage)),
        _ => Ok(false),
    }
}

// Whether a table of too many rows gets no index.
fn is_too_large<L: Ledger>(
    alloc: Global,
    counted: u32,
    meter: &mut Meter<L>,
) -> Result<bool, Broke> {
    let inner = plain_store(alloc, 3)?;
    let mut store = MiscountStore::new(inner, counted);
    let built = build(alloc, &PLAIN, &mut store, meter)?;
    let plain = plain_store(alloc, 3)?;
    Ok(built == Built::TooMany && same(alloc, store.inner(), &plain)?)
}

// The first count that isn't told as damage.
fn first_untold<L: Ledger>(alloc: Global, blank: Blank) -> Result<Option<u32>, Broke>
    requires name { blank.name ≡ L.name }
    requires parts { blank.parts ≡ L.parts }
    requires two { blank.parts ≡ 2 }
{
    let mut meter = Meter::<L>::start(Opening::of(blank));
    let refused = is_too_large(alloc, 1_000_001, &mut meter)?;
    if !(refused && is_left_told(alloc, 3, 1_000_001, &mut meter)?) {
        return Ok(Some(1_000_001));
    }
    for count in &COUNTS {
        let (rows, counted) = *count;
        let told = is_built_told(alloc, rows, counted, &mut meter)?;
        if !(told && is_left_told(alloc, rows, counted, &mut meter)?) {
            return Ok(Some(counted));
        }
    }
    Ok(None)
}

#[test]
fn a_wrong_number_of_rows_is_told(rt: HostRuntime) -> Result<(), test::Fail> {
    let untold = first_untold::<Brand>(rt.alloc(), Blank::new(2));
    assert!(rt; matches!(untold, Ok(None)));
    Ok(())
}
