//! What a store over a file does behind a fault: a transaction that is open is undone, and no call is answered then.
//!
//! The test has a file of its own in the folder that it is run in, and leaves none.
ghost use Rattle.std.specs.Prelude.{◌≡◌};

use crate::files::remove;
use crate::transactions::{Call, ENTRY, INTENT, ROW, make};
use pq_sql_store::FileSqlStore;
use pq_store::{Guard, Meter, Opening, Store, StoreErr};
use sqlite::{Connection, Error};
use std::alloc::Global;
use std::marker::Brand;
use std::sync::ledger::{Blank, Ledger};
use std::test;

const PATH: &str = "undone.tmp";

const LOG: &str = "undone.tmp-wal";

// Pairs whose values are no blobs, which no get answers.
const DAMAGED_ENTRY: &[u8] = &[3, 1, 1, 8];

const DAMAGED_GROUP: &[u8] = &[5, 0, 3];

const TEXTS: [&str; 3] = [
    "CREATE TABLE kv(k BLOB PRIMARY KEY, v BLOB NOT NULL)",
    "INSERT INTO kv VALUES (x'03010108', 'text')",
    "INSERT INTO kv VALUES (x'050003', 'text')",
];

fn make_damaged(rt: &HostRuntime) -> Result<(), Error> {
    remove(rt, PATH, LOG);
    let mut connection = Connection::open(rt, PATH)?;
    for text in TEXTS {
        connection.execute(text, &[])?;
    }
    connection.close()
}

fn is_fault<T: Drop>(answer: Result<T, StoreErr>) -> bool {
    matches!(answer, Err(StoreErr::Failed))
}

// Whether each call is a fault.
fn all_are_faults<L: Ledger>(
    alloc: Global,
    calls: &[Call],
    store: &mut FileSqlStore,
    meter: &mut Meter<L>,
) -> bool {
    for call in calls {
        if !is_fault(make(alloc, *call, store, meter)) {
            return false;
        }
    }
    true
}

const LATER: [Call; 7] = [
    Call::Put(INTENT),
    Call::Put(ROW),
    Call::Put(ENTRY),
    Call::Remove(INTENT),
    Call::Get,
    Call::Range,
    Call::Count,
];

// Whether the file has a value at the key.
fn has<L: Ledger>(rt: &HostRuntime, key: &[u8], meter: &mut Meter<L>) -> Result<bool, StoreErr> {
    let mut store = FileSqlStore::open(rt, PATH)?;
    Ok(store.get(rt.alloc(), key, meter)?.is_some())
}

// A statement that reads a damaged pair. Whether that is a fault, each later call is one, and nothing of it stays.
fn undoes_a_statement<L: Ledger>(rt: &HostRuntime, meter: &mut Meter<L>) -> Result<bool, StoreErr> {
    let alloc = rt.alloc();
    let mut store = FileSqlStore::open(rt, PATH)?;
    make(alloc, Call::Put(INTENT), &mut store, meter)?;
    make(alloc, Call::Put(ROW), &mut store, meter)?;
    let fails = is_fault(store.get(alloc, DAMAGED_GROUP, meter));
    let ended = all_are_faults(alloc, &LATER, &mut store, meter) && store.close().is_err();
    Ok(fails && ended && !has(rt, ROW, meter)?)
}

// The same of a lot with an entry whose guard reads a damaged pair.
fn undoes_a_lot<L: Ledger>(rt: &HostRuntime, meter: &mut Meter<L>) -> Result<bool, StoreErr> {
    let alloc = rt.alloc();
    let mut store = FileSqlStore::open(rt, PATH)?;
    make(alloc, Call::Put(ENTRY), &mut store, meter)?;
    let fails = is_fault(store.write(alloc, DAMAGED_ENTRY, Guard::Absent, None, meter));
    let ended = all_are_faults(alloc, &LATER, &mut store, meter) && store.close().is_err();
    Ok(fails && ended && !has(rt, ENTRY, meter)?)
}

// Where no transaction is open a fault undoes nothing, and the next call is answered.
fn goes_on<L: Ledger>(rt: &HostRuntime, meter: &mut Meter<L>) -> Result<bool, StoreErr> {
    let alloc = rt.alloc();
    let mut store = FileSqlStore::open(rt, PATH)?;
    make(alloc, Call::Put(ROW), &mut store, meter)?;
    let fails = is_fault(store.get(alloc, DAMAGED_GROUP, meter));
    Ok(fails && store.get(alloc, ROW, meter)?.is_some())
}

// The caller's proof picks the ledger.
fn faults_are_kept<L: Ledger>(rt: &HostRuntime, blank: Blank) -> Result<[bool; 3], StoreErr>
    requires name { blank.name ≡ L.name }
    requires parts { blank.parts ≡ L.parts }
    requires two { blank.parts ≡ 2 }
{
    let mut meter = Meter::<L>::start(Opening::of(blank));
    Ok([
        undoes_a_statement(rt, &mut meter)?,
        undoes_a_lot(rt, &mut meter)?,
        goes_on(rt, &mut meter)?,
    ])
}

fn faults_kept(rt: &HostRuntime) -> Result<[bool; 3], StoreErr> {
    faults_are_kept::<Brand>(rt, Blank::new(2))
}

#[test]
fn a_fault_undoes_what_waits(rt: HostRuntime) -> Result<(), test::Fail> {
    make_damaged(&rt)?;
    let kept = faults_kept(&rt);
    remove(&rt, PATH, LOG);
    assert_eq!(rt; kept?, [true, true, true]);
    Ok(())
}
