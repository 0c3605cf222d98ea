//! `piql_clients K`: `clients` and the words, standard input, standard output and a new store in memory, handed to the
//! top call for clients. The exit status is how the run ended.
#![tactic(auto)]

ghost use Rattle.std.specs.Prelude.{◌≡◌, ◌↔◌, ℕ, List as Items, ◌∷◌, IfOk, codes};
ghost use Rattle.pq_store.specs.Content.{HasRisen};
ghost use Rattle.pq_client_shell.specs.Words.{AreWords};

use pq_base::{List, PText};
use pq_client_shell::run_piql_clients;
use pq_mem_store::MemStore;
use pq_shell::{Sink, Source, Status, StdSink, StdSource, WordsErr, read_words};
use pq_store::{Meter, Opening};
use std::alloc::Global;
use std::io::{Stdin, Stdout};
use std::marker::Brand;
use std::process::ExitCode;
use std::sync::ledger::{Blank, Ledger};

// The caller's proof picks the ledger of the blank. A store in memory never fails.
fn run_over<I: Source, O: Sink, L: Ledger>(
    alloc: Global,
    blank: Blank,
    words: &[PText],
    source: &mut I,
    store: &mut MemStore,
    sink: &mut O,
) -> Status
    requires name { blank.name ≡ L.name }
    requires parts { blank.parts ≡ L.parts }
    requires two { blank.parts ≡ 2 }
    ensures usage { result ≡ Status.Usage ↔ ((k : ℕ) → ¬ AreWords k words.now) }
    ensures untouched { result ≡ Status.Usage
        → (source.new ≡ source.old) × (store.new ≡ store.old) × (sink.new ≡ sink.old) }
    ensures read_fault { result ≡ Status.ReadFault → HasRisen (I.faults source.old) (I.faults source.new) }
    ensures write_fault { result ≡ Status.WriteFault → HasRisen (O.faults sink.old) (O.faults sink.new) }
    ensures store_fault { ¬ (result ≡ Status.StoreFault) }
{
    let mut meter = Meter::<L>::start(Opening::of(blank));
    run_piql_clients(alloc, words, source, store, sink, &mut meter)
}

// `clients`, and then the words after the program's name.
fn all_words(rt: &HostRuntime) -> Result<List<PText>, WordsErr>
    ensures { IfOk result (λ words. (rest : Items (Items ℕ)) × (words ≡ codes "clients" ∷ rest)) }
{
    let mut words = List::new(rt.alloc());
    let Some(first) = PText::from_bytes(rt.alloc(), b"clients")? else {
        return Err(WordsErr::NotUtf8);
    };
    words.push(rt.alloc(), first)?;
    for word in read_words(rt)?.into_vec() {
        words.push(rt.alloc(), word)?;
    }
    Ok(words)
}

fn run(rt: &HostRuntime) -> Status {
    match all_words(rt) {
        Ok(words) => {
            let alloc = rt.alloc();
            let mut source = StdSource::new(rt.stdin());
            let mut store = MemStore::new(alloc);
            let mut sink = StdSink::new(rt.stdout());
            run_over::<StdSource<Stdin>, StdSink<Stdout>, Brand>(
                alloc,
                Blank::new(2),
                words.items(),
                &mut source,
                &mut store,
                &mut sink,
            )
        }
        Err(WordsErr::NotUtf8) => Status::Usage,
        Err(WordsErr::NoMem) => Status::NoMem,
    }
}

fn main(rt: HostRuntime) -> ExitCode {
    ExitCode::from(run(&rt).code())
}
