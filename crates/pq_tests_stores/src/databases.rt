//! Whole runs over a database in memory, and databases whose table is another's.
ghost use Rattle.std.specs.Prelude.{◌≡◌};

use pq_base::NoMem;
use pq_shell::Status;
use pq_sql_store::SqlStore;
use pq_store::{Guard, Meter, Opening, Store, StoreErr};
use pq_test_tools::{RUNS, run_script, writes};
use sqlite::{Connection, Error, MemStore};
use std::alloc::{AllocError, Global};
use std::marker::Brand;
use std::sync::ledger::{Blank, Ledger};
use std::test;

// The first of the runs that writes another text. The caller's proof picks the ledger.
fn first_unlike<L: Ledger>(
    alloc: Global,
    blank: Blank,
    store: &mut SqlStore<MemStore>,
) -> Result<Option<usize>, NoMem>
    requires name { blank.name ≡ L.name }
    requires parts { blank.parts ≡ L.parts }
    requires two { blank.parts ≡ 2 }
{
    let mut meter = Meter::<L>::start(Opening::of(blank));
    for (i, (script, text)) in RUNS.iter().enumerate() {
        if !writes(alloc, script, text, store, &mut meter)? {
            return Ok(Some(i));
        }
    }
    Ok(None)
}

fn in_memory(alloc: Global) -> Result<Connection<MemStore>, AllocError> {
    Connection::open_in_memory(alloc)
}

fn unlike_in_memory(alloc: Global, store: &mut SqlStore<MemStore>) -> Result<Option<usize>, NoMem> {
    first_unlike::<Brand>(alloc, Blank::new(2), store)
}

#[test]
fn scripts_run_over_a_database(rt: HostRuntime) -> Result<(), test::Fail> {
    let mut store = SqlStore::over(in_memory(rt.alloc())?)?;
    assert_eq!(rt; unlike_in_memory(rt.alloc(), &mut store)?, None);
    Ok(())
}

// Guarded writes in a row, from an empty store: key, guard, new value, and whether each is done.
const WRITES: [(&[u8], Guard<'static>, Option<&'static [u8]>, bool); 11] = [
    (b"a", Guard::Absent, None, true),
    (b"a", Guard::Is(b"1"), Some(b"2"), false),
    (b"a", Guard::Any, None, true),
    (b"a", Guard::Absent, Some(b"1"), true),
    (b"a", Guard::Absent, Some(b"2"), false),
    (b"a", Guard::Absent, None, false),
    (b"a", Guard::Is(b"2"), None, false),
    (b"a", Guard::Is(b"1"), Some(b"3"), true),
    (b"a", Guard::Any, Some(b""), true),
    (b"a", Guard::Is(b""), None, true),
    (b"a", Guard::Is(b""), None, false),
];

// The first of the writes that ends otherwise. The caller's proof picks the ledger.
fn first_write_unlike<L: Ledger>(
    alloc: Global,
    blank: Blank,
    store: &mut SqlStore<MemStore>,
) -> Result<Option<usize>, StoreErr>
    requires name { blank.name ≡ L.name }
    requires parts { blank.parts ≡ L.parts }
    requires two { blank.parts ≡ 2 }
{
    let mut meter = Meter::<L>::start(Opening::of(blank));
    for (i, (key, guard, new, want)) in WRITES.iter().enumerate() {
        if store.write(alloc, key, *guard, *new, &mut meter)? != *want {
            return Ok(Some(i));
        }
    }
    Ok(None)
}

fn write_unlike_in_memory(
    alloc: Global,
    store: &mut SqlStore<MemStore>,
) -> Result<Option<usize>, StoreErr> {
    first_write_unlike::<Brand>(alloc, Blank::new(2), store)
}

#[test]
fn guards_are_kept(rt: HostRuntime) -> Result<(), test::Fail> {
    let mut store = SqlStore::over(in_memory(rt.alloc())?)?;
    assert_eq!(rt; write_unlike_in_memory(rt.alloc(), &mut store)?, None);
    Ok(())
}

const OWN: &str = "CREATE TABLE kv(k BLOB PRIMARY KEY, v BLOB NOT NULL)";

// A database in which these were made before.
fn with_made(alloc: Global, texts: &[&str]) -> Result<Connection<MemStore>, Error> {
    let mut connection = in_memory(alloc)?;
    for text in texts {
        connection.execute(text, &[])?;
    }
    Ok(connection)
}

#[test]
fn a_table_of_another_make_is_refused(rt: HostRuntime) -> Result<(), test::Fail> {
    let foreign = [
        "CREATE TABLE kv(k TEXT PRIMARY KEY, v TEXT)",
        "CREATE TABLE kv(k BLOB, v BLOB NOT NULL)",
    ];
    for text in foreign {
        match SqlStore::over(with_made(rt.alloc(), &[text])?) {
            Ok(_) => assert!(rt; false),
            Err(error) => assert_eq!(rt; error, StoreErr::Failed),
        }
    }
    assert!(rt; SqlStore::over(with_made(rt.alloc(), &[OWN])?).is_ok());
    Ok(())
}

// How a run without a statement ends. The caller's proof picks the ledger.
fn opening_over<L: Ledger>(
    alloc: Global,
    blank: Blank,
    store: &mut SqlStore<MemStore>,
) -> Result<Status, NoMem>
    requires name { blank.name ≡ L.name }
    requires parts { blank.parts ≡ L.parts }
    requires two { blank.parts ≡ 2 }
{
    let mut meter = Meter::<L>::start(Opening::of(blank));
    let (status, _) = run_script(alloc, b"", store, &mut meter)?;
    Ok(status)
}

fn opening(alloc: Global, store: &mut SqlStore<MemStore>) -> Result<Status, NoMem> {
    opening_over::<Brand>(alloc, Blank::new(2), store)
}

// The pair stands where a definition does.
#[test]
fn a_value_that_is_no_blob_is_a_fault(rt: HostRuntime) -> Result<(), test::Fail> {
    let texts = [OWN, "INSERT INTO kv VALUES (x'010001', 'text')"];
    let mut store = SqlStore::over(with_made(rt.alloc(), &texts)?)?;
    assert_eq!(rt; opening(rt.alloc(), &mut store)?, Status::StoreFault);
    Ok(())
}
