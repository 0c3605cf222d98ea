//! A store in a database makes the writes of a statement together, and answers as the store in memory.
ghost use Rattle.std.specs.Prelude.{◌≡◌};

use crate::held_intent::{INTENT, tell_pairs};
use pq_base::Bytes;
use pq_mem_store::MemStore;
use pq_sql_store::SqlStore;
use pq_store::{Broke, Guard, Meter, Opening, Store};
use sqlite::Connection;
use std::alloc::Global;
use std::marker::Brand;
use std::sync::ledger::{Blank, Ledger};
use std::test;

// A step of a statement: pairs whose keys end in the numbers from one up to another get a value or are removed, or all
// pairs are read.
#[derive(Clone, Copy)]
enum Step {
    Puts(u8, u8, &'static [u8]),
    Removes(u8, u8),
    Reads,
}

// Statements over a new store. Pairs are added by 32.
const STATEMENTS: [&[Step]; 9] = [
    // Lots and a rest, all of new keys.
    &[Step::Puts(0, 100, b"new")],
    // A key that is there, in the first lot and in a later one.
    &[Step::Puts(90, 200, b"put")],
    &[Step::Puts(200, 240, b"new"), Step::Puts(0, 90, b"put")],
    // A removal, in the first lot and in a later one.
    &[Step::Removes(0, 10), Step::Puts(0, 60, b"back")],
    &[Step::Removes(0, 250), Step::Puts(0, 70, b"anew")],
    &[Step::Puts(100, 140, b"new"), Step::Removes(130, 150)],
    // A key twice, in one lot and in two.
    &[
        Step::Puts(150, 160, b"first"),
        Step::Puts(150, 180, b"last"),
    ],
    &[
        Step::Puts(200, 240, b"first"),
        Step::Puts(200, 240, b"last"),
    ],
    // Reads between the writes.
    &[
        Step::Puts(240, 250, b"seen"),
        Step::Reads,
        Step::Removes(240, 245),
        Step::Reads,
        Step::Puts(180, 199, b"seen"),
    ],
];

// Each of these writes has to be answered as made.
fn write_each<S: Store<L>, L: Ledger>(
    alloc: Global,
    (low, high): (u8, u8),
    new: Option<&[u8]>,
    store: &mut S,
    meter: &mut Meter<L>,
    told: &mut Bytes,
) -> Result<(), Broke> {
    for n in low..high {
        let done = store.write(alloc, &[2, n], Guard::Any, new, meter)?;
        told.extend(alloc, if done { b"+" } else { b"-" })?;
    }
    Ok(())
}

fn tell_all<S: Store<L>, L: Ledger>(
    alloc: Global,
    store: &mut S,
    meter: &mut Meter<L>,
    told: &mut Bytes,
) -> Result<(), Broke> {
    let found = store.range(alloc, &[0], &[9], 1000, meter)?;
    tell_pairs(alloc, found.items(), told)
}

fn take_step<S: Store<L>, L: Ledger>(
    alloc: Global,
    step: Step,
    store: &mut S,
    meter: &mut Meter<L>,
    told: &mut Bytes,
) -> Result<(), Broke> {
    match step {
        Step::Puts(low, high, value) => write_each(
            alloc,
            (low, high),
            Some(value),
            store,
            meter,
            told,
        ),
        Step::Removes(low, high) => write_each(alloc, (low, high), None, store, meter, told),
        Step::Reads => tell_all(alloc, store, meter, told),
    }
}

// What the store answers to a statement, and has behind it.
fn tell_statement<S: Store<L>, L: Ledger>(
    alloc: Global,
    steps: &[Step],
    store: &mut S,
    meter: &mut Meter<L>,
    told: &mut Bytes,
) -> Result<(), Broke> {
    let _ = store.write(alloc, INTENT, Guard::Absent, Some(b"held"), meter)?;
    for step in steps {
        take_step(alloc, *step, store, meter, told)?;
    }
    let _ = store.write(alloc, INTENT, Guard::Any, None, meter)?;
    tell_all(alloc, store, meter, told)
}

fn told<S: Store<L>, L: Ledger>(
    alloc: Global,
    store: &mut S,
    meter: &mut Meter<L>,
) -> Result<Bytes, Broke> {
    let mut told = Bytes::new(alloc);
    for steps in STATEMENTS {
        tell_statement(alloc, steps, store, meter, &mut told)?;
    }
    Ok(told)
}

// The caller's proof picks the ledger.
fn both_tell<L: Ledger>(
    alloc: Global,
    blank: Blank,
    store: &mut SqlStore<sqlite::MemStore>,
) -> Result<[Bytes; 2], Broke>
    requires name { blank.name ≡ L.name }
    requires parts { blank.parts ≡ L.parts }
    requires two { blank.parts ≡ 2 }
{
    let mut meter = Meter::<L>::start(Opening::of(blank));
    let found = told(alloc, store, &mut meter)?;
    let mut memory = MemStore::new(alloc);
    let wanted = told(alloc, &mut memory, &mut meter)?;
    Ok([found, wanted])
}

fn both_told(alloc: Global, store: &mut SqlStore<sqlite::MemStore>) -> Result<[Bytes; 2], Broke> {
    both_tell::<Brand>(alloc, Blank::new(2), store)
}

#[test]
fn writes_of_a_statement_are_made_together(rt: HostRuntime) -> Result<(), test::Fail> {
    let mut store = SqlStore::over(Connection::open_in_memory(rt.alloc())?)?;
    let [found, wanted] = both_told(rt.alloc(), &mut store)?;
    assert_eq!(rt; found.items(), wanted.items());
    Ok(())
}
