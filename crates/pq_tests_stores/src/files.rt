//! Runs over a database in a file, and what stands where no database of the store does.
//!
//! Each test has files of its own in the folder that it is run in, and leaves none.
ghost use Rattle.std.specs.Prelude.{◌≡◌};

use pq_base::NoMem;
use pq_sql_store::FileSqlStore;
use pq_store::{Meter, Opening, StoreErr};
use pq_test_tools::{RUNS, writes};
use std::io::{self, Write};
use std::marker::Brand;
use std::sync::ledger::{Blank, Ledger};
use std::{fs, test};

// How a run leaves its file.
#[derive(Clone, Copy)]
pub(crate) enum End {
    Closed,
    Dropped,
}

impl End {
    fn path(self) -> &'static str {
        match self {
            End::Closed => "closed.tmp",
            End::Dropped => "dropped.tmp",
        }
    }

    fn log(self) -> &'static str {
        match self {
            End::Closed => "closed.tmp-wal",
            End::Dropped => "dropped.tmp-wal",
        }
    }
}

pub(crate) fn leave(store: FileSqlStore, end: End) -> Result<(), StoreErr> {
    match end {
        End::Closed => store.close(),
        End::Dropped => Ok(()),
    }
}

// Whether a run of the script over the file, which is opened for it, writes the text.
fn writes_over<L: Ledger>(
    rt: &HostRuntime,
    (script, text): (&[u8], &[u8]),
    end: End,
    meter: &mut Meter<L>,
) -> Result<bool, StoreErr> {
    let mut store = FileSqlStore::open(rt, end.path())?;
    let same = match writes(rt.alloc(), script, text, &mut store, meter) {
        Ok(same) => same,
        Err(NoMem) => return Err(StoreErr::NoMem),
    };
    leave(store, end)?;
    Ok(same)
}

// The first of the runs that writes another text, each over the file as the one before left it.
// The caller's proof picks the ledger.
fn first_unlike<L: Ledger>(
    rt: &HostRuntime,
    blank: Blank,
    end: End,
) -> Result<Option<usize>, StoreErr>
    requires name { blank.name ≡ L.name }
    requires parts { blank.parts ≡ L.parts }
    requires two { blank.parts ≡ 2 }
{
    let mut meter = Meter::<L>::start(Opening::of(blank));
    for (i, run) in RUNS.iter().enumerate() {
        if !writes_over(rt, *run, end, &mut meter)? {
            return Ok(Some(i));
        }
    }
    Ok(None)
}

fn unlike_in_file(rt: &HostRuntime, end: End) -> Result<Option<usize>, StoreErr> {
    first_unlike::<Brand>(rt, Blank::new(2), end)
}

// Removes the file and the log beside it, where they are.
pub(crate) fn remove(rt: &HostRuntime, path: &str, log: &str) {
    let _ = fs::remove_file(rt, path);
    let _ = fs::remove_file(rt, log);
}

#[test]
fn each_run_finds_what_the_one_before_left(rt: HostRuntime) -> Result<(), test::Fail> {
    for end in [End::Closed, End::Dropped] {
        remove(&rt, end.path(), end.log());
        assert_eq!(rt; unlike_in_file(&rt, end)?, None, "{}", end.path());
        remove(&rt, end.path(), end.log());
    }
    Ok(())
}

// Files in pieces.
const TEXT: &[&[u8]] = &[b"This is no database.\n"];

// CREATE TABLE kv(k INTEGER PRIMARY KEY, v), and INSERT INTO kv VALUES(1, 'one'), as sqlite3 keeps
// them: two pages of 512 bytes.
const FOREIGN: &[&[u8]] = &[
    b"SQLite format 3\0\x02\0\x01\x01\0@  \0\0\0\x02\0\0\0\x02",
    &[0; 11],
    b"\x01\0\0\0\x04",
    &[0; 11],
    b"\x01",
    &[0; 35],
    b"\x02\0.c\x01\r\0\0\0\x01\x01\xc5\0\x01\xc5",
    &[0; 343],
    b"9\x01\x06\x17\x11\x11\x01_tablekvkv\x02CREATE TABLE kv(k INTEGER PRIMARY KEY, v)",
    b"\r\0\0\0\x01\x01\xf8\0\x01\xf8",
    &[0; 494],
    b"\x06\x01\x03\0\x13one",
];

fn write_file(rt: &HostRuntime, path: &str, pieces: &[&[u8]]) -> io::Result<()> {
    let mut file = fs::create(rt, path)?;
    for piece in pieces {
        file.write_all(piece)?;
    }
    Ok(())
}

fn is_refused(rt: &HostRuntime, path: &str) -> bool {
    matches!(FileSqlStore::open(rt, path), Err(StoreErr::Failed))
}

// Whether the file is refused, and stays as it is.
fn stays(rt: &HostRuntime, path: &str) -> io::Result<bool> {
    let before = fs::read(rt, path)?;
    let refused = is_refused(rt, path);
    let after = fs::read(rt, path)?;
    Ok(refused && before.as_slice() == after.as_slice())
}

#[test]
fn a_file_of_another_make_stays(rt: HostRuntime) -> Result<(), test::Fail> {
    let files = [
        ("text.tmp", "text.tmp-wal", TEXT),
        ("foreign.tmp", "foreign.tmp-wal", FOREIGN),
    ];
    for (path, log, pieces) in files {
        write_file(&rt, path, pieces)?;
        assert!(rt; stays(&rt, path)?, "{path}");
        remove(&rt, path, log);
    }
    Ok(())
}

#[test]
fn a_folder_stays(rt: HostRuntime) -> Result<(), test::Fail> {
    let path = "folder.tmp";
    let _ = fs::remove_dir(&rt, path);
    fs::create_dir(&rt, path)?;
    assert!(rt; is_refused(&rt, path));
    fs::remove_dir(&rt, path)?;
    assert!(rt; is_refused(&rt, "folder.tmp/tables.db"));
    Ok(())
}
