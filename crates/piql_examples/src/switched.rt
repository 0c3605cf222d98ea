//! Runs over a store that has other rows from a call on: one that answers from rows that it kept is seen.
use crate::cells::number_or;
use crate::ends::ends_so;
use crate::texts::Texts;
use pq_base::NoMem;
use pq_mem_store::MemStore;
use pq_store::Meter;
use pq_test_faults::SwitchStore;
use pq_test_tools::run_script;
use std::alloc::Global;
use std::sync::ledger::Ledger;

fn store_with<L: Ledger>(
    alloc: Global,
    ground: &[u8],
    rows: &[u8],
    meter: &mut Meter<L>,
) -> Result<MemStore, NoMem> {
    let mut store = MemStore::new(alloc);
    run_script(alloc, ground, &mut store, meter)?;
    run_script(alloc, rows, &mut store, meter)?;
    Ok(store)
}

/// Whether a run ends as the cells say, over the first store up to a call, and then over the second.
pub fn is_as_written<L: Ledger>(
    alloc: Global,
    cells: &[&str],
    texts: &Texts,
    meter: &mut Meter<L>,
) -> Result<bool, NoMem> {
    let ground = texts.ground.as_slice();
    let first = store_with(alloc, ground, texts.first.as_slice(), meter)?;
    let second = store_with(alloc, ground, texts.second.as_slice(), meter)?;
    let calls = number_or(cells, "calls=", 0);
    let mut store = SwitchStore::new(first, second, calls);
    let (status, text) = run_script(alloc, texts.script.as_slice(), &mut store, meter)?;
    Ok(ends_so(cells, texts.out.as_slice(), status, text.as_slice()))
}
