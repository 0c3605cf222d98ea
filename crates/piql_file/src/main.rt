//! `piql_file`: the first word is the path of an SQLite file; the further words, standard input, standard output and
//! the store in that file are handed to the top call. The exit status is how the run ended.
#![tactic(auto)]

ghost use Rattle.std.specs.Prelude.{◌≡◌, ◌↔◌, [], ◌∷◌, ℕ, List};
ghost use Rattle.pq_store.specs.Content.{HasRisen};
ghost use Rattle.pq_fill.specs.Words.{IsForm};
ghost use Rattle.pq_fill.specs.declared.words.Form.{Form};

use pq_base::PText;
use pq_fill::form_of;
use pq_shell::{Sink, Source, Status, StdSink, StdSource, WordsErr, read_words, run_piql};
use pq_sql_store::FileSqlStore;
use pq_store::{Meter, Opening, StoreErr};
use std::alloc::Global;
use std::io::{Stdin, Stdout};
use std::marker::Brand;
use std::process::ExitCode;
use std::sync::ledger::{Blank, Ledger};

// The caller's proof picks the ledger of the blank.
fn run_over<I: Source, O: Sink, L: Ledger>(
    alloc: Global,
    blank: Blank,
    words: &[PText],
    source: &mut I,
    store: &mut FileSqlStore,
    sink: &mut O,
) -> Status
    requires name { blank.name ≡ L.name }
    requires parts { blank.parts ≡ L.parts }
    requires two { blank.parts ≡ 2 }
    ensures usage { result ≡ Status.Usage ↔ ((form : Form) → ¬ IsForm form words.now) }
    ensures untouched { result ≡ Status.Usage
        → (source.new ≡ source.old) × (store.new ≡ store.old) × (sink.new ≡ sink.old) }
    ensures read_fault { result ≡ Status.ReadFault → HasRisen (I.faults source.old) (I.faults source.new) }
    ensures write_fault { result ≡ Status.WriteFault → HasRisen (O.faults sink.old) (O.faults sink.new) }
    ensures store_fault { result ≡ Status.StoreFault → HasRisen store.old store.new }
{
    let mut meter = Meter::<L>::start(Opening::of(blank));
    run_piql(alloc, words, source, store, sink, &mut meter)
}

// How a run ends whose file could not be opened.
fn unopened(error: StoreErr) -> Status
    ensures memory { error ≡ StoreErr.NoMem → result ≡ Status.NoMem }
    ensures fault { error ≡ StoreErr.Failed → result ≡ Status.StoreFault }
{
    match error {
        StoreErr::NoMem => Status::NoMem,
        StoreErr::Failed => Status::StoreFault,
    }
}

// The words are tested before the file is opened, so that words of no form make none.
fn run_file(rt: &HostRuntime, path: &str, words: &[PText]) -> Status
    ensures usage { result ≡ Status.Usage ↔ ((form : Form) → ¬ IsForm form words.now) }
{
    if form_of(words).is_none() {
        return Status::Usage;
    }
    let mut store = match FileSqlStore::open(rt, path) {
        Ok(store) => store,
        Err(error) => return unopened(error),
    };
    let mut source = StdSource::new(rt.stdin());
    let mut sink = StdSink::new(rt.stdout());
    let status = run_over::<StdSource<Stdin>, StdSink<Stdout>, Brand>(
        rt.alloc(),
        Blank::new(2),
        words,
        &mut source,
        &mut store,
        &mut sink,
    );
    // All that was written is in the log by now, and the next opening reads it there, where this fails.
    let _ = store.close();
    status
}

fn run_words(rt: &HostRuntime, words: &[PText]) -> Status
    ensures no_path { words.now ≡ [] → result ≡ Status.Usage }
    ensures usage { (path : List ℕ) → (rest : List (List ℕ)) → words.now ≡ path ∷ rest
        → (result ≡ Status.Usage ↔ ((form : Form) → ¬ IsForm form rest)) }
{
    match words.split_first() {
        Some((path, words)) => run_file(rt, path.as_str(), words),
        None => Status::Usage,
    }
}

fn run(rt: &HostRuntime) -> Status {
    match read_words(rt) {
        Ok(words) => run_words(rt, words.items()),
        Err(WordsErr::NotUtf8) => Status::Usage,
        Err(WordsErr::NoMem) => Status::NoMem,
    }
}

fn main(rt: HostRuntime) -> ExitCode {
    ExitCode::from(run(&rt).code())
}
