//! How runs of any words over a new store end, whose reads and writes may fail.
use crate::cells::{bytes_of, cell, number_or, small_number_or};
use crate::texts::Texts;
use pq_base::{Bytes, List, NoMem, PText};
use pq_mem_store::MemStore;
use pq_shell::{MemSink, MemSource, Status};
use pq_store::Meter;
use pq_test_tools::{MiscountStore, run_script, run_words};
use std::alloc::Global;
use std::sync::ledger::Ledger;

// The bytes that a sink has room for, where no cell says so.
const ROOM: u32 = 4096;

/// Whether a run ends as the cells say, which wrote this text: all of what they name, or so many bytes of it.
pub fn ends_so(cells: &[&str], out: &[u8], status: Status, text: &[u8]) -> bool {
    let bytes = number_or(cells, "bytes=", out.len() as u64);
    let want = &out[..out.len().min(bytes as usize)];
    status.code() as u64 == number_or(cells, "status=", 0) && text == want
}

fn push_word(alloc: Global, words: &mut List<PText>, word: &str) -> Result<(), NoMem> {
    let bytes = bytes_of(alloc, word)?;
    match PText::from_bytes(alloc, bytes.items())? {
        Some(word) => words.push(alloc, word),
        None => Ok(()),
    }
}

// The words of the run: `run`, or those of the cell.
fn words_of(alloc: Global, cells: &[&str]) -> Result<List<PText>, NoMem> {
    let mut words = List::new(alloc);
    match cell(cells, "words=") {
        None => push_word(alloc, &mut words, "run")?,
        Some("") => {}
        Some(given) => {
            for word in given.split(',') {
                push_word(alloc, &mut words, word)?;
            }
        }
    }
    Ok(words)
}

// The calls that fail: the one of the cell, or none.
fn fails_of(alloc: Global, cells: &[&str], name: &str) -> Result<List<u64>, NoMem> {
    let mut fails = List::new(alloc);
    let call = number_or(cells, name, 0);
    if call > 0 {
        fails.push(alloc, call)?;
    }
    Ok(fails)
}

// The script that is read, or so many spaces.
fn source_of(alloc: Global, cells: &[&str], script: &[u8]) -> Result<MemSource, NoMem> {
    let spaces = number_or(cells, "spaces=", 0);
    let bytes = if spaces > 0 {
        Bytes::from_vec(Vec::from_elem(alloc, b' ', spaces as usize)?)
    } else {
        Bytes::of_bytes(alloc, script)?
    };
    Ok(MemSource::new(bytes, fails_of(alloc, cells, "read=")?))
}

fn sink_of(alloc: Global, cells: &[&str]) -> Result<MemSink, NoMem> {
    let room = small_number_or(cells, "room=", ROOM);
    MemSink::new(alloc, room, fails_of(alloc, cells, "write=")?)
}

// How the run of the cells ends, and what it writes but for the used numbers.
fn run_new<L: Ledger>(
    alloc: Global,
    cells: &[&str],
    script: &[u8],
    meter: &mut Meter<L>,
) -> Result<(Status, Vec<u8>), NoMem> {
    let words = words_of(alloc, cells)?;
    let mut source = source_of(alloc, cells, script)?;
    let mut sink = sink_of(alloc, cells)?;
    let mut store = MemStore::new(alloc);
    run_words(
        alloc,
        words.items(),
        &mut source,
        &mut store,
        &mut sink,
        meter,
    )
}

/// Whether the run ends as the cells say.
pub fn is_as_written<L: Ledger>(
    alloc: Global,
    cells: &[&str],
    texts: &Texts,
    meter: &mut Meter<L>,
) -> Result<bool, NoMem> {
    let (status, text) = run_new(alloc, cells, texts.script.as_slice(), meter)?;
    Ok(ends_so(cells, texts.out.as_slice(), status, text.as_slice()))
}

/// Whether the run ends well, and what it writes begins as it has to.
pub fn begins_as_written<L: Ledger>(
    alloc: Global,
    cells: &[&str],
    texts: &Texts,
    meter: &mut Meter<L>,
) -> Result<bool, NoMem> {
    let (status, text) = run_new(alloc, cells, texts.script.as_slice(), meter)?;
    Ok(status == Status::Good && text.starts_with(texts.out.as_slice()))
}

/// Whether the run ends as the cells say, over a store that counts so many rows.
pub fn is_crowded<L: Ledger>(
    alloc: Global,
    cells: &[&str],
    texts: &Texts,
    meter: &mut Meter<L>,
) -> Result<bool, NoMem> {
    let rows = small_number_or(cells, "rows=", 0);
    let mut store = MiscountStore::new(MemStore::new(alloc), rows);
    let (status, text) = run_script(alloc, texts.script.as_slice(), &mut store, meter)?;
    Ok(ends_so(cells, texts.out.as_slice(), status, text.as_slice()))
}

/// Whether the statuses have their numbers.
pub fn are_numbered() -> bool {
    let statuses = [
        Status::Good,
        Status::SomeRefused,
        Status::Usage,
        Status::ReadFault,
        Status::WriteFault,
        Status::StoreFault,
        Status::Damaged,
        Status::NoMem,
        Status::TooLong,
    ];
    statuses
        .iter()
        .zip(0u8..9)
        .all(|(status, code)| status.code() == code)
}
