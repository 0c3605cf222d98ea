//! Runs of clients whose store fails, finds no memory or is damaged, and whose source or sink fails.
ghost use Rattle.std.specs.Prelude.{◌≡◌};

use crate::client_damage::SPOILED_RUNS;
use crate::client_pairs::Texts;
use crate::client_runs::{ALL_WRONG, End, OTHER_WORDS, RUNS, Runs, Trouble};
use crate::client_stops::STOPS;
use crate::scarce::ScarceStore;
use pq_base::{Bytes, List, NoMem, PText};
use pq_client_shell::run_piql_clients;
use pq_mem_store::MemStore;
use pq_shell::{MemSink, MemSource, Status};
use pq_store::{Meter, Opening, Pair, Store};
use pq_test_faults::{Fail, FailingStore};
use std::alloc::Global;
use std::marker::Brand;
use std::sync::ledger::{Blank, Ledger};
use std::test;

// The bytes that a sink has room for, where no trouble says so.
const ROOM: u32 = 4096;

// As many blanks follow a script, so that its second read takes some of them alone.
const BLANKS: usize = 4096;

// The words between the blanks of a text.
fn words_in(alloc: Global, text: &str) -> Result<List<PText>, NoMem> {
    let mut words = List::new(alloc);
    for word in text.split_whitespace() {
        if let Some(word) = PText::from_bytes(alloc, word.as_bytes())? {
            words.push(alloc, word)?;
        }
    }
    Ok(words)
}

fn source_of(alloc: Global, script: &[u8], troubles: &[Trouble]) -> Result<MemSource, NoMem> {
    let mut bytes = Vec::from_slice(alloc, script)?;
    bytes.extend_from_slice(&[b' '; BLANKS])?;
    let mut fails = List::new(alloc);
    for trouble in troubles {
        if let Trouble::Unread(call) = trouble {
            fails.push(alloc, *call)?;
        }
    }
    Ok(MemSource::new(Bytes::from_vec(bytes), fails))
}

fn sink_of(alloc: Global, troubles: &[Trouble]) -> Result<MemSink, NoMem> {
    let mut room = ROOM;
    for trouble in troubles {
        if let Trouble::Room(bytes) = trouble {
            room = *bytes;
        }
    }
    MemSink::new(alloc, room, List::new(alloc))
}

fn failing(alloc: Global, before: MemStore, troubles: &[Trouble]) -> Result<FailingStore, NoMem> {
    let mut fails = List::new(alloc);
    for trouble in troubles {
        match *trouble {
            Trouble::Fails(call) => fails.push(alloc, Fail { call, done: false })?,
            Trouble::FailsDone(call) => fails.push(alloc, Fail { call, done: true })?,
            _ => {}
        }
    }
    Ok(FailingStore::new(alloc, before, fails))
}

// The call of the store that finds no memory.
fn scarce_call(troubles: &[Trouble]) -> Option<u64> {
    for trouble in troubles {
        if let Trouble::Scarce(call) = trouble {
            return Some(*call);
        }
    }
    None
}

// The store that has these pairs.
fn store_with(alloc: Global, texts: Texts) -> Result<MemStore, NoMem> {
    let mut pairs = List::new(alloc);
    for (key, value) in texts {
        let key = Bytes::of_bytes(alloc, key)?;
        let value = Bytes::of_bytes(alloc, value)?;
        pairs.push(alloc, Pair { key, value })?;
    }
    MemStore::from_pairs(alloc, pairs).map_err(|_| NoMem)
}

// Whether the store has just these pairs.
fn has_just(alloc: Global, store: &MemStore, texts: Texts) -> Result<bool, NoMem> {
    let pairs = store.pairs(alloc)?;
    let mut same = pairs.items().len() == texts.len();
    for (pair, (key, value)) in pairs.items().iter().zip(texts) {
        same = same && pair.key.items() == *key && pair.value.items() == *value;
    }
    Ok(same)
}

// Whether a run of clients ends so, and has written this text.
fn ends_over<S: Store<L>, L: Ledger>(
    alloc: Global,
    words: &str,
    script: &[u8],
    end: &End,
    store: &mut S,
    meter: &mut Meter<L>,
) -> Result<bool, NoMem> {
    let (troubles, status, text, _) = *end;
    let words = words_in(alloc, words)?;
    let mut source = source_of(alloc, script, troubles)?;
    let mut sink = sink_of(alloc, troubles)?;
    let ended = run_piql_clients(alloc, words.items(), &mut source, store, &mut sink, meter);
    Ok(ended == status && sink.held() == text)
}

// Whether it ends so, and leaves what it has to.
fn ends_so<L: Ledger>(
    alloc: Global,
    words: &str,
    before: Texts,
    script: &[u8],
    end: &End,
    meter: &mut Meter<L>,
) -> Result<bool, NoMem> {
    let mut store = failing(alloc, store_with(alloc, before)?, end.0)?;
    let (well, left) = match scarce_call(end.0) {
        None => {
            let well = ends_over(alloc, words, script, end, &mut store, meter)?;
            (well, store.into_inner())
        }
        Some(call) => {
            let mut store = ScarceStore::new(store, call);
            let well = ends_over(alloc, words, script, end, &mut store, meter)?;
            (well, store.into_inner())
        }
    };
    Ok(well && has_just(alloc, &left, end.3)?)
}

// The first end of a script's runs that is another one.
fn end_unlike<L: Ledger>(
    alloc: Global,
    runs: &Runs,
    meter: &mut Meter<L>,
) -> Result<Option<usize>, NoMem> {
    for (i, end) in runs.ends.iter().enumerate() {
        if !ends_so(alloc, runs.words, runs.before, runs.script, end, meter)? {
            return Ok(Some(i));
        }
    }
    Ok(None)
}

// The first of the scripts with such an end, and which of its ends. The caller's proof picks the ledger.
fn first_unlike<L: Ledger>(
    alloc: Global,
    blank: Blank,
    all: &[Runs],
) -> Result<Option<(usize, usize)>, NoMem>
    requires name { blank.name ≡ L.name }
    requires parts { blank.parts ≡ L.parts }
    requires two { blank.parts ≡ 2 }
{
    let mut meter = Meter::<L>::start(Opening::of(blank));
    for (i, runs) in all.iter().enumerate() {
        if let Some(end) = end_unlike(alloc, runs, &mut meter)? {
            return Ok(Some((i, end)));
        }
    }
    Ok(None)
}

fn unlike(alloc: Global, all: &[Runs]) -> Result<Option<(usize, usize)>, NoMem> {
    first_unlike::<Brand>(alloc, Blank::new(2), all)
}

#[test]
fn clients_are_told_and_runs_end_as_they_have_to(rt: HostRuntime) -> Result<(), test::Fail> {
    assert_eq!(rt; unlike(rt.alloc(), &RUNS)?, None);
    Ok(())
}

#[test]
fn a_client_that_fails_leaves_its_key_held(rt: HostRuntime) -> Result<(), test::Fail> {
    assert_eq!(rt; unlike(rt.alloc(), &STOPS)?, None);
    Ok(())
}

#[test]
fn damage_is_named_behind_what_is_told(rt: HostRuntime) -> Result<(), test::Fail> {
    assert_eq!(rt; unlike(rt.alloc(), &SPOILED_RUNS)?, None);
    Ok(())
}

// The first of other words with which a run isn't refused at once. The caller's proof picks the ledger.
fn first_run<L: Ledger>(alloc: Global, blank: Blank) -> Result<Option<&'static str>, NoMem>
    requires name { blank.name ≡ L.name }
    requires parts { blank.parts ≡ L.parts }
    requires two { blank.parts ≡ 2 }
{
    let end: End = (ALL_WRONG, Status::Usage, b"", &[]);
    let mut meter = Meter::<L>::start(Opening::of(blank));
    for words in OTHER_WORDS {
        if !ends_so(alloc, words, &[], b"SHOW;", &end, &mut meter)? {
            return Ok(Some(words));
        }
    }
    Ok(None)
}

#[test]
fn other_words_touch_nothing(rt: HostRuntime) -> Result<(), test::Fail> {
    assert_eq!(rt; first_run::<Brand>(rt.alloc(), Blank::new(2))?, None);
    Ok(())
}
