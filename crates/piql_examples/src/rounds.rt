//! Rounds: how often a run asks the store, beside the opening.
use crate::cells::number_or;
use crate::parts::part_of;
use crate::stops::ground_of;
use crate::texts::Texts;
use pq_base::NoMem;
use pq_shell::Status;
use pq_store::Meter;
use pq_test_faults::CountingStore;
use pq_test_tools::run_script;
use std::alloc::Global;
use std::sync::ledger::Ledger;

// How often a run of the script asks the store; None where it doesn't end well.
fn rounds_of<L: Ledger>(
    alloc: Global,
    script: &[u8],
    store: &mut CountingStore,
    meter: &mut Meter<L>,
) -> Result<Option<u64>, NoMem> {
    let before = store.rounds();
    let (ended, _) = run_script(alloc, script, store, meter)?;
    let rounds = store.rounds().saturating_sub(before);
    Ok(if ended == Status::Good {
        Some(rounds)
    } else {
        None
    })
}

/// Whether the part of the script, over what the ground leaves, asks the store as often as the cells say.
pub fn is_as_written<L: Ledger>(
    alloc: Global,
    cells: &[&str],
    texts: &Texts,
    meter: &mut Meter<L>,
) -> Result<bool, NoMem> {
    let mut store = match ground_of(alloc, texts.ground.as_slice(), meter)? {
        Some(ground) => CountingStore::new(ground),
        None => return Ok(false),
    };
    let part = part_of(alloc, texts.asks.as_slice(), number_or(cells, "part=", 0))?;
    let opening = rounds_of(alloc, b"", &mut store, meter)?;
    let whole = rounds_of(alloc, part.items(), &mut store, meter)?;
    match (opening, whole) {
        (Some(opening), Some(whole)) => {
            Ok(whole == opening.saturating_add(number_or(cells, "rounds=", 0)))
        }
        _ => Ok(false),
    }
}
