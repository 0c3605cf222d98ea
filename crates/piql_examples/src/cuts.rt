//! A script that is cut behind each of its bytes: the reports of its whole statements are those of the whole script.
use crate::parts::parts_of;
use crate::reports::{status_of, up_to};
use crate::texts::Texts;
use pq_base::NoMem;
use pq_mem_store::MemStore;
use pq_store::Meter;
use pq_test_tools::run_script;
use std::alloc::Global;
use std::sync::ledger::Ledger;

// What is written where so many statements are whole, and the one behind them isn't finished.
fn unfinished(alloc: Global, out: &[u8], statements: u32) -> Result<Vec<u8>, NoMem> {
    let number = statements.saturating_add(1);
    let report = format!(in alloc; "{number} refused E102 bound 0 0\n")?;
    let mut text = Vec::from_slice(alloc, up_to(alloc, out, statements)?)?;
    text.extend_from_slice(report.as_bytes())?;
    Ok(text)
}

// Whether a script writes this text over a new store, and ends as one that writes it.
fn writes<L: Ledger>(
    alloc: Global,
    script: &[u8],
    want: &[u8],
    meter: &mut Meter<L>,
) -> Result<bool, NoMem> {
    let mut store = MemStore::new(alloc);
    let (ended, text) = run_script(alloc, script, &mut store, meter)?;
    Ok(ended == status_of(want) && text.as_slice() == want)
}

// Goes on with a part behind so many others, byte by byte. Whether each script that ends there writes what it has to.
fn goes_on<L: Ledger>(
    alloc: Global,
    script: &mut Vec<u8>,
    part: &[u8],
    unfinished: &[u8],
    whole: &[u8],
    meter: &mut Meter<L>,
) -> Result<bool, NoMem> {
    let last = part.len().saturating_sub(1);
    for (at, byte) in part.iter().enumerate() {
        script.push(*byte)?;
        let want = if at < last { unfinished } else { whole };
        if !writes(alloc, script.as_slice(), want, meter)? {
            return Ok(false);
        }
    }
    Ok(true)
}

/// Whether the script, cut behind each byte of its parts, writes what it has to. Each part is a statement.
pub fn is_as_written<L: Ledger>(
    alloc: Global,
    texts: &Texts,
    meter: &mut Meter<L>,
) -> Result<bool, NoMem> {
    let out = texts.out.as_slice();
    let mut script = Vec::new(alloc);
    let mut number = 0u32;
    for part in parts_of(alloc, texts.parts.as_slice())?.items() {
        let cut = unfinished(alloc, out, number)?;
        number = number.saturating_add(1);
        let whole = up_to(alloc, out, number)?;
        if !goes_on(
            alloc,
            &mut script,
            part.items(),
            cut.as_slice(),
            whole,
            meter,
        )? {
            return Ok(false);
        }
    }
    Ok(true)
}
