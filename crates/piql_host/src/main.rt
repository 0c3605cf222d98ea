//! `piql_host`: the words are handed to the top call with a source, a sink and a store that a host has at the other end
//! of standard input and output (docs/HOST.md). The exit status is how the run ended.
#![tactic(auto)]

ghost use Rattle.std.specs.Prelude.{◌≡◌, ◌↔◌};
ghost use Rattle.pq_store.specs.Content.{HasRisen};
ghost use Rattle.pq_fill.specs.Words.{IsForm};
ghost use Rattle.pq_fill.specs.declared.words.Form.{Form};

use pq_base::PText;
use pq_fill::{Form as Asked, form_of};
use pq_host::{HostReader, HostStore, HostWriter, Line, Link};
use pq_shell::{Sink, Source, Status, StdSink, StdSource, WordsErr, read_words, run_piql};
use pq_store::{Meter, Opening};
use std::alloc::Global;
use std::io::{Stdin, Stdout};
use std::marker::Brand;
use std::process::ExitCode;
use std::sync::ledger::{Blank, Ledger};

fn link<'a>(rt: &HostRuntime, line: &'a Line) -> Link<'a, Stdin, Stdout> {
    Link::new(line, rt.stdin(), rt.stdout())
}

// Whether the host answers several questions at once. One that can't say is asked for one after the other, and where
// the script is only checked it is asked for nothing.
fn knows_rounds(rt: &HostRuntime, line: &Line, asked: Asked) -> bool {
    match asked {
        Asked::Check => false,
        Asked::Run | Asked::Fill(_) => {
            matches!(link(rt, line).knows_rounds(rt.alloc()), Ok(true))
        }
    }
}

// The caller's proof picks the ledger of the blank.
fn run_over<'a, I: Source, O: Sink, L: Ledger>(
    alloc: Global,
    blank: Blank,
    words: &[PText],
    source: &mut I,
    store: &mut HostStore<'a, Stdin, Stdout>,
    sink: &mut O,
) -> Status
    requires name { blank.name ≡ L.name }
    requires parts { blank.parts ≡ L.parts }
    requires two { blank.parts ≡ 2 }
    ensures usage { result ≡ Status.Usage ↔ ((form : Form) → ¬ IsForm form words.now) }
    ensures untouched { result ≡ Status.Usage
        → (source.new ≡ source.old) × (store.new ≡ store.old) × (sink.new ≡ sink.old) }
    ensures read_fault { result ≡ Status.ReadFault → HasRisen (I.faults source.old) (I.faults source.new) }
    ensures write_fault { result ≡ Status.WriteFault → HasRisen (O.faults sink.old) (O.faults sink.new) }
    ensures store_fault { result ≡ Status.StoreFault → HasRisen store.old.faults store.new.faults }
{
    let mut meter = Meter::<L>::start(Opening::of(blank));
    run_piql(alloc, words, source, store, sink, &mut meter)
}

// Makes the store, the source and the sink of one line, and runs over them what the words ask for.
fn run_on_line(rt: &HostRuntime, words: &[PText], asked: Asked) -> Status
    ensures usage { result ≡ Status.Usage ↔ ((form : Form) → ¬ IsForm form words.now) }
{
    let line = Line::new();
    let rounds = knows_rounds(rt, &line, asked);
    let mut store = HostStore::new(link(rt, &line), 0, rounds);
    let mut source = StdSource::new(HostReader::new(link(rt, &line)));
    let mut sink = StdSink::new(HostWriter::new(link(rt, &line)));
    run_over::<StdSource<HostReader<Stdin, Stdout>>, StdSink<HostWriter<Stdin, Stdout>>, Brand>(
        rt.alloc(),
        Blank::new(2),
        words,
        &mut source,
        &mut store,
        &mut sink,
    )
}

// Words of no form ask the host for nothing.
fn run_words(rt: &HostRuntime, words: &[PText]) -> Status
    ensures usage { result ≡ Status.Usage ↔ ((form : Form) → ¬ IsForm form words.now) }
{
    match form_of(words) {
        Some(asked) => run_on_line(rt, words, asked),
        None => Status::Usage,
    }
}

fn run(rt: &HostRuntime) -> Status {
    match read_words(rt) {
        Ok(words) => run_words(rt, words.items()),
        Err(WordsErr::NotUtf8) => Status::Usage,
        Err(WordsErr::NoMem) => Status::NoMem,
    }
}

fn main(rt: HostRuntime) -> ExitCode {
    ExitCode::from(run(&rt).code())
}
