//! Runs over contents that no run leaves: what names the damage comes last, and what nothing promises is no rubbish.
use crate::cells::bytes_of;
use crate::ends::ends_so;
use crate::texts::Texts;
use pq_base::NoMem;
use pq_mem_store::MemStore;
use pq_store::{Guard, Meter, Store};
use pq_test_tools::run_script;
use std::alloc::Global;
use std::sync::ledger::Ledger;

// Puts a value at a key, or removes the key.
fn write<L: Ledger>(
    alloc: Global,
    key: &[u8],
    value: Option<&[u8]>,
    store: &mut MemStore,
    meter: &mut Meter<L>,
) -> Result<(), NoMem> {
    match store.write(alloc, key, Guard::Any, value, meter) {
        Ok(_) => Ok(()),
        Err(_) => Err(NoMem),
    }
}

// Puts a pair, `KEY:VALUE`; `KEY` alone removes it.
fn put<L: Ledger>(
    alloc: Global,
    pair: &str,
    store: &mut MemStore,
    meter: &mut Meter<L>,
) -> Result<(), NoMem> {
    match pair.split_once(':') {
        Some((key, value)) => {
            let key = bytes_of(alloc, key)?;
            let value = bytes_of(alloc, value)?;
            write(alloc, key.items(), Some(value.items()), store, meter)
        }
        None => {
            let key = bytes_of(alloc, pair)?;
            write(alloc, key.items(), None, store, meter)
        }
    }
}

/// Whether a run ends as the cells say, over what the ground leaves and the pairs that are put into it.
pub fn is_as_written<L: Ledger>(
    alloc: Global,
    cells: &[&str],
    texts: &Texts,
    meter: &mut Meter<L>,
) -> Result<bool, NoMem> {
    let mut store = MemStore::new(alloc);
    run_script(alloc, texts.ground.as_slice(), &mut store, meter)?;
    for cell in cells {
        if let Some(pair) = cell.strip_prefix("put=") {
            put(alloc, pair, &mut store, meter)?;
        }
    }
    let (status, text) = run_script(alloc, texts.script.as_slice(), &mut store, meter)?;
    Ok(ends_so(cells, texts.out.as_slice(), status, text.as_slice()))
}
