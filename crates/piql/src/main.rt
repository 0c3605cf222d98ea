//! `piql`: the words, standard input, standard output and a new store in memory, handed to the top
//! call. The exit status is how the run ended.
#![tactic(auto)]

ghost use Rattle.std.specs.Prelude.{◌≡◌, ◌↔◌};
ghost use Rattle.pq_store.specs.Content.{HasRisen};
ghost use Rattle.pq_fill.specs.Words.{IsForm};
ghost use Rattle.pq_fill.specs.declared.words.Form.{Form};

use pq_base::PText;
use pq_mem_store::MemStore;
use pq_shell::{Sink, Source, Status, StdSink, StdSource, WordsErr, read_words, run_piql};
use pq_store::{Meter, Opening};
use std::alloc::Global;
use std::io::{Stdin, Stdout};
use std::marker::Brand;
use std::process::ExitCode;
use std::sync::ledger::{Blank, Ledger};

// The caller's proof picks the ledger of the blank. A store in memory never fails.
fn run_over<I: Source, O: Sink, L: Ledger>(
    alloc: Global,
    blank: Blank,
    words: &[PText],
    source: &mut I,
    store: &mut MemStore,
    sink: &mut O,
) -> Status
    requires name { blank.name ≡ L.name }
    requires parts { blank.parts ≡ L.parts }
    requires two { blank.parts ≡ 2 }
    ensures usage { result ≡ Status.Usage ↔ ((form : Form) → ¬ IsForm form words.now) }
    ensures untouched { result ≡ Status.Usage
        → (source.new ≡ source.old) × (store.new ≡ store.old) × (sink.new ≡ sink.old) }
    ensures read_fault { result ≡ Status.ReadFault → HasRisen (I.faults source.old) (I.faults source.new) }
    ensures write_fault { result ≡ Status.WriteFault → HasRisen (O.faults sink.old) (O.faults sink.new) }
    ensures store_fault { ¬ (result ≡ Status.StoreFault) }
{
    let mut meter = Meter::<L>::start(Opening::of(blank));
    run_piql(alloc, words, source, store, sink, &mut meter)
}

fn run(rt: &HostRuntime) -> Status {
    match read_words(rt) {
        Ok(words) => {
            let alloc = rt.alloc();
            let mut source = StdSource::new(rt.stdin());
            let mut store = MemStore::new(alloc);
            let mut sink = StdSink::new(rt.stdout());
            run_over::<StdSource<Stdin>, StdSink<Stdout>, Brand>(
                alloc,
                Blank::new(2),
                words.items(),
                &mut source,
                &mut store,
                &mut sink,
            )
        }
        Err(WordsErr::NotUtf8) => Status::Usage,
        Err(WordsErr::NoMem) => Status::NoMem,
    }
}

fn main(rt: HostRuntime) -> ExitCode {
    ExitCode::from(run(&rt).code())
}
