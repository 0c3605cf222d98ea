//! Whole runs over a store that stands still: what reads is answered, and what would write is refused.
ghost use Rattle.std.specs.Prelude.{◌≡◌};

use pq_base::NoMem;
use pq_frozen::Frozen;
use pq_mem_store::MemStore;
use pq_shell::Status;
use pq_store::{Meter, Opening};
use pq_test_tools::{RUNS, run_script, writes};
use std::alloc::Global;
use std::marker::Brand;
use std::sync::ledger::{Blank, Ledger};
use std::test;

// Scripts in a row over what the second of the runs leaves: their text but for the used numbers, how they end, and how
// many writes were refused so far.
const READ: [(&[u8], &[u8], Status, u64); 6] = [
    (b"", b"open defs 2 bound 2 257\n", Status::Good, 0),
    (
        b"RUN one (1);
RUN one (2);
SHOW;
EXPLAIN SELECT m.v FROM m WHERE m.id = [1];
",
        b"open defs 2 bound 2 257
row 7
1 ok rows 1 bound 1 1
2 ok rows 0 bound 1 1
def 1 CREATE TABLE m (id INT, v INT, PRIMARY KEY (id));
def 2 PREPARE one AS SELECT m.v FROM m AS m WHERE m.id = [1];
3 ok bound 0 0
query explain whole bound 1 1
4 ok bound 0 0
",
        Status::Good,
        0,
    ),
    (
        b"INSERT INTO m VALUES (1, 8);
DELETE FROM m WHERE id = 2;
RUN one (1);
",
        b"open defs 2 bound 2 257
1 refused E503 m bound 2 1
2 refused E504 m bound 2 1
row 7
3 ok rows 1 bound 1 1
",
        Status::SomeRefused,
        0,
    ),
    (
        b"INSERT INTO m VALUES (2, 8);
RUN one (2);
",
        b"open defs 2 bound 2 257\n",
        Status::NoMem,
        1,
    ),
    (
        b"CREATE TABLE c (id INT, PRIMARY KEY (id));\n",
        b"open defs 2 bound 2 257\n",
        Status::NoMem,
        2,
    ),
    (
        b"RUN one (2);\n",
        b"open defs 2 bound 2 257
1 ok rows 0 bound 1 1
",
        Status::Good,
        2,
    ),
];

// The first of the scripts that isn't answered so. The caller's proof picks the ledger.
fn first_unlike<L: Ledger>(alloc: Global, blank: Blank) -> Result<Option<usize>, NoMem>
    requires name { blank.name ≡ L.name }
    requires parts { blank.parts ≡ L.parts }
    requires two { blank.parts ≡ 2 }
{
    let mut meter = Meter::<L>::start(Opening::of(blank));
    let mut writer = MemStore::new(alloc);
    for (script, text) in &RUNS[..2] {
        if !writes(alloc, script, text, &mut writer, &mut meter)? {
            return Ok(Some(READ.len()));
        }
    }
    let mut store = Frozen::pin(alloc, &writer)?;
    for (i, (script, text, status, refused)) in READ.iter().enumerate() {
        let (ended, written) = run_script(alloc, script, &mut store, &mut meter)?;
        if ended != *status || written.as_slice() != *text || store.refused() != *refused {
            return Ok(Some(i));
        }
    }
    Ok(None)
}

#[test]
fn what_reads_is_answered(rt: HostRuntime) -> Result<(), test::Fail> {
    assert_eq!(rt; first_unlike::<Brand>(rt.alloc(), Blank::new(2))?, None);
    Ok(())
}
