//! Examples: the script NAME.piql of the folder that the program is run in is run over a new store in memory. It has to
//! write the file NAME.out, byte for byte, and to end with status 1 where that file tells a refusal, and else with 0.
ghost use Rattle.std.specs.Prelude.{◌≡◌};

use crate::io_result;
use crate::reports::status_of;
use pq_base::{Bytes, List, NoMem};
use pq_mem_store::MemStore;
use pq_shell::{MemSink, MemSource, Status};
use pq_store::{Meter, Opening};
use pq_test_tools::run_piql_words;
use std::alloc::Global;
use std::marker::Brand;
use std::sync::ledger::{Blank, Ledger};
use std::{fs, io};

// The bytes that an example may write.
const ROOM: u32 = 65_536;

// How the run of the script ends. The caller's proof picks the ledger of the blank.
fn run_over<L: Ledger>(
    alloc: Global,
    blank: Blank,
    source: &mut MemSource,
    sink: &mut MemSink,
) -> Result<Status, NoMem>
    requires name { blank.name ≡ L.name }
    requires parts { blank.parts ≡ L.parts }
    requires two { blank.parts ≡ 2 }
{
    let mut meter = Meter::<L>::start(Opening::of(blank));
    let mut store = MemStore::new(alloc);
    run_piql_words(alloc, &["run"], source, &mut store, sink, &mut meter)
}

// Whether the run of a script writes the text, and ends as one that writes it.
fn writes(alloc: Global, script: Vec<u8>, text: &[u8]) -> Result<bool, NoMem> {
    let mut source = MemSource::new(Bytes::from_vec(script), List::new(alloc));
    let mut sink = MemSink::new(alloc, ROOM, List::new(alloc))?;
    let status = run_over::<Brand>(alloc, Blank::new(2), &mut source, &mut sink)?;
    Ok(sink.held() == text && status == status_of(text))
}

/// Whether the example of this name does what it has to.
pub fn is_as_written(rt: &HostRuntime, name: &str) -> io::Result<bool> {
    let script = fs::read(rt, format!(in rt.alloc(); "{name}.piql")?)?;
    let text = fs::read(rt, format!(in rt.alloc(); "{name}.out")?)?;
    io_result(writes(rt.alloc(), script, text.as_slice()))
}
