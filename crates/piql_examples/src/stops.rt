//! Runs that are stopped at a call of the store, done or not: opened again, all that they make is there or nothing.
use crate::cells::{cell, number_or};
use crate::ends::ends_so;
use crate::parts::part_of;
use crate::texts::Texts;
use pq_base::{Bytes, List, NoMem};
use pq_mem_store::MemStore;
use pq_shell::Status;
use pq_store::Meter;
use pq_test_faults::{Fail, FailingStore};
use pq_test_tools::run_script;
use std::alloc::Global;
use std::sync::ledger::Ledger;

// The call that fails.
fn fail_of(cells: &[&str]) -> Fail {
    Fail {
        call: number_or(cells, "call=", 0),
        done: cell(cells, "done=") == Some("yes"),
    }
}

/// The store that the ground leaves. Nothing is run where there is none.
pub fn ground_of<L: Ledger>(
    alloc: Global,
    ground: &[u8],
    meter: &mut Meter<L>,
) -> Result<Option<MemStore>, NoMem> {
    let mut store = MemStore::new(alloc);
    if ground.is_empty() {
        return Ok(Some(store));
    }
    let (ended, _) = run_script(alloc, ground, &mut store, meter)?;
    Ok(if ended == Status::Good {
        Some(store)
    } else {
        None
    })
}

// What a cell's file has, or its part.
fn asked(alloc: Global, cells: &[&str], file: &[u8], end: &[u8]) -> Result<Bytes, NoMem> {
    match cell(cells, "part=") {
        None => Bytes::of_bytes(alloc, file),
        Some(_) => {
            let mut part = part_of(alloc, file, number_or(cells, "part=", 0))?;
            part.extend(alloc, end)?;
            Ok(part)
        }
    }
}

// Whether a store is opened, and then answers as it has to.
fn answers<L: Ledger>(
    alloc: Global,
    cells: &[&str],
    texts: &Texts,
    store: &mut MemStore,
    meter: &mut Meter<L>,
) -> Result<bool, NoMem> {
    let (opened, _) = run_script(alloc, b"", store, meter)?;
    let script = asked(alloc, cells, texts.asks.as_slice(), b"")?;
    let (_, text) = run_script(alloc, script.items(), store, meter)?;
    let want = asked(alloc, cells, texts.answer.as_slice(), b"\n")?;
    Ok(opened == Status::Good && text.as_slice() == want.items())
}

// The store that the run leaves over this one, where it ends as the cells say. Without a cell `out=` what it writes is
// not looked at.
fn left<L: Ledger>(
    alloc: Global,
    cells: &[&str],
    texts: &Texts,
    ground: MemStore,
    meter: &mut Meter<L>,
) -> Result<Option<MemStore>, NoMem> {
    let mut fails = List::new(alloc);
    fails.push(alloc, fail_of(cells))?;
    let mut failing = FailingStore::new(alloc, ground, fails);
    let (status, text) = run_script(alloc, texts.script.as_slice(), &mut failing, meter)?;
    let out = match cell(cells, "out=") {
        Some(_) => texts.out.as_slice(),
        None => text.as_slice(),
    };
    let well = ends_so(cells, out, status, text.as_slice());
    Ok(if well {
        Some(failing.into_inner())
    } else {
        None
    })
}

/// Whether the run is stopped at its call as the cells say, and the store, opened again, answers as it has to, where it
/// is asked.
pub fn is_as_written<L: Ledger>(
    alloc: Global,
    cells: &[&str],
    texts: &Texts,
    meter: &mut Meter<L>,
) -> Result<bool, NoMem> {
    let ground = match ground_of(alloc, texts.ground.as_slice(), meter)? {
        Some(ground) => ground,
        None => return Ok(false),
    };
    match left(alloc, cells, texts, ground, meter)? {
        None => Ok(false),
        Some(_) if cell(cells, "asks=").is_none() => Ok(true),
        Some(mut store) => answers(alloc, cells, texts, &mut store, meter),
    }
}

// A store behind the ground in which the run's call fails, and then one of the opening.
fn failing_twice<L: Ledger>(
    alloc: Global,
    ground: &[u8],
    first: Fail,
    later: Fail,
    meter: &mut Meter<L>,
) -> Result<FailingStore, NoMem> {
    let mut store = MemStore::new(alloc);
    run_script(alloc, ground, &mut store, meter)?;
    let mut fails = List::new(alloc);
    fails.push(alloc, first)?;
    let call = first.call.saturating_add(later.call);
    let done = later.done;
    fails.push(alloc, Fail { call, done })?;
    Ok(FailingStore::new(alloc, store, fails))
}

// Whether the opening is stopped as it has to where this call of it fails too, and the store, opened once more, answers
// as the first stop left it.
fn stops_again<L: Ledger>(
    alloc: Global,
    cells: &[&str],
    texts: &Texts,
    later: Fail,
    meter: &mut Meter<L>,
) -> Result<bool, NoMem> {
    let first = fail_of(cells);
    let mut failing = failing_twice(alloc, texts.ground.as_slice(), first, later, meter)?;
    let (stopped, _) = run_script(alloc, texts.script.as_slice(), &mut failing, meter)?;
    let (again, _) = run_script(alloc, b"", &mut failing, meter)?;
    let mut store = failing.into_inner();
    let want = if later.call <= number_or(cells, "opening=", 0) {
        Status::StoreFault
    } else {
        Status::Good
    };
    let well = stopped == Status::StoreFault && again == want;
    Ok(well && answers(alloc, cells, texts, &mut store, meter)?)
}

/// Whether this is so for each of the opening's calls that are tried.
pub fn is_twice_as_written<L: Ledger>(
    alloc: Global,
    cells: &[&str],
    texts: &Texts,
    meter: &mut Meter<L>,
) -> Result<bool, NoMem> {
    for call in 0..number_or(cells, "tries=", 0) {
        let call = call.saturating_add(1);
        for done in [false, true] {
            if !stops_again(alloc, cells, texts, Fail { call, done }, meter)? {
                return Ok(false);
            }
        }
    }
    Ok(true)
}
