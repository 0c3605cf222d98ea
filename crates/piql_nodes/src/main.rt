//! `piql_nodes`: as `piql_host`, over as many nodes as the host has: each has the keys of one range, and the host tells
//! where they begin (docs/HOST.md).
#![tactic(auto)]

ghost use Rattle.std.specs.Prelude.{◌≡◌, ◌⊎◌, ◌↔◌, ◌≤◌, IfErr, length};
ghost use Rattle.pq_store.specs.Content.{HasRisen};
ghost use Rattle.pq_fill.specs.Words.{IsForm};
ghost use Rattle.pq_fill.specs.declared.words.Form.{Form};
ghost use Rattle.pq_parts.specs.Spans.{faults_of};

use pq_base::{Bytes, List, NoMem, PText};
use pq_fill::{Form as Asked, form_of};
use pq_host::{HostReader, HostStore, HostWriter, Line, Link};
use pq_parts::{Part, PartStore};
use pq_shell::{Sink, Source, Status, StdSink, StdSource, WordsErr, read_words, run_piql};
use pq_store::{Meter, Opening, StoreErr};
use std::alloc::Global;
use std::io::{Stdin, Stdout};
use std::marker::Brand;
use std::process::ExitCode;
use std::sync::ledger::{Blank, Ledger};

fn link<'a>(rt: &HostRuntime, line: &'a Line) -> Link<'a, Stdin, Stdout> {
    Link::new(line, rt.stdin(), rt.stdout())
}

// Whether the host answers several questions at once. One that can't say is asked for one after the other, and where
// the script is only checked it is asked for nothing.
fn knows_rounds(rt: &HostRuntime, line: &Line, asked: Asked) -> bool {
    match asked {
        Asked::Check => false,
        Asked::Run | Asked::Fill(_) => {
            matches!(link(rt, line).knows_rounds(rt.alloc()), Ok(true))
        }
    }
}

// A part for each first key, in their order, whose nodes are numbered from 0.
fn parts_of<'a>(
    rt: &HostRuntime,
    line: &'a Line,
    keys: List<Bytes>,
    rounds: bool,
) -> Result<List<Part<HostStore<'a, Stdin, Stdout>>>, NoMem>
    requires { length keys ≤ 64 }
{
    let mut parts = List::new(rt.alloc());
    for (node, from) in keys.into_vec().into_iter().enumerate() {
        let store = HostStore::new(link(rt, line), node as u8, rounds);
        parts.push(rt.alloc(), Part { from, store })?;
    }
    Ok(parts)
}

// The store over the host's nodes, for what the words ask for; the status of a run where there is none.
fn nodes_of<'a, N: Ledger + Drop>(
    rt: &HostRuntime,
    line: &'a Line,
    asked: Asked,
    nodes: Meter<N>,
) -> Result<PartStore<HostStore<'a, Stdin, Stdout>, N>, Status>
    ensures { IfErr result (λ status. (status ≡ Status.NoMem) ⊎ (status ≡ Status.StoreFault)) }
{
    let keys = match link(rt, line).first_keys(rt.alloc()) {
        Ok(keys) => keys,
        Err(StoreErr::NoMem) => return Err(Status::NoMem),
        Err(StoreErr::Failed) => return Err(Status::StoreFault),
    };
    let rounds = knows_rounds(rt, line, asked);
    let parts = match parts_of(rt, line, keys, rounds) {
        Ok(parts) => parts,
        Err(NoMem) => return Err(Status::NoMem),
    };
    match PartStore::new(parts, nodes) {
        Ok(store) => Ok(store),
        Err(_) => Err(Status::StoreFault),
    }
}

// A node that fails raises the count of faults of its own store.
fn run_on<'a, I: Source, O: Sink, N: Ledger, L: Ledger>(
    alloc: Global,
    words: &[PText],
    source: &mut I,
    store: &mut PartStore<HostStore<'a, Stdin, Stdout>, N>,
    sink: &mut O,
    meter: &mut Meter<L>,
) -> Status
    ensures usage { result ≡ Status.Usage ↔ ((form : Form) → ¬ IsForm form words.now) }
    ensures untouched { result ≡ Status.Usage
        → (source.new ≡ source.old) × (store.new ≡ store.old) × (sink.new ≡ sink.old) }
    ensures read_fault { result ≡ Status.ReadFault → HasRisen (I.faults source.old) (I.faults source.new) }
    ensures write_fault { result ≡ Status.WriteFault → HasRisen (O.faults sink.old) (O.faults sink.new) }
    ensures store_fault { result ≡ Status.StoreFault
        → HasRisen (faults_of (λ s. s.faults) store.old.parts) (faults_of (λ s. s.faults) store.new.parts) }
{
    run_piql(alloc, words, source, store, sink, meter)
}

// Makes the source and the sink of a line, and runs over them and its nodes.
fn run_on_line<'a, N: Ledger, L: Ledger>(
    rt: &HostRuntime,
    line: &'a Line,
    words: &[PText],
    store: PartStore<HostStore<'a, Stdin, Stdout>, N>,
    meter: Meter<L>,
) -> Status
    ensures usage { result ≡ Status.Usage ↔ ((form : Form) → ¬ IsForm form words.now) }
{
    let mut store = store;
    let mut meter = meter;
    let mut source = StdSource::new(HostReader::new(link(rt, line)));
    let mut sink = StdSink::new(HostWriter::new(link(rt, line)));
    run_on(
        rt.alloc(),
        words,
        &mut source,
        &mut store,
        &mut sink,
        &mut meter,
    )
}

// The caller's proof picks the ledgers of the blanks.
fn run_over<N: Ledger + Drop, L: Ledger>(
    rt: &HostRuntime,
    nodes: Blank,
    blank: Blank,
    words: &[PText],
    asked: Asked,
) -> Status
    requires nodes_name { nodes.name ≡ N.name }
    requires nodes_parts { nodes.parts ≡ N.parts }
    requires nodes_two { nodes.parts ≡ 2 }
    requires name { blank.name ≡ L.name }
    requires parts { blank.parts ≡ L.parts }
    requires two { blank.parts ≡ 2 }
    ensures usage { result ≡ Status.Usage → (form : Form) → ¬ IsForm form words.now }
{
    let line = Line::new();
    let meter = Meter::<L>::start(Opening::of(blank));
    match nodes_of(rt, &line, asked, Meter::<N>::start(Opening::of(nodes))) {
        Ok(store) => run_on_line(rt, &line, words, store, meter),
        Err(status) => status,
    }
}

// Words of no form ask the host for nothing.
fn run_words(rt: &HostRuntime, words: &[PText]) -> Status
    ensures usage { result ≡ Status.Usage ↔ ((form : Form) → ¬ IsForm form words.now) }
{
    match form_of(words) {
        Some(asked) => run_over::<Brand, Brand>(rt, Blank::new(2), Blank::new(2), words, asked),
        None => Status::Usage,
    }
}

fn run(rt: &HostRuntime) -> Status {
    match read_words(rt) {
        Ok(words) => run_words(rt, words.items()),
        Err(WordsErr::NotUtf8) => Status::Usage,
        Err(WordsErr::NoMem) => Status::NoMem,
    }
}

fn main(rt: HostRuntime) -> ExitCode {
    ExitCode::from(run(&rt).code())
}
