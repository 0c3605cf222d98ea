//! Runs over any store: how they end, and what they write but for the used numbers.
use pq_base::{Bytes, List, NoMem, PText};
use pq_shell::{MemSink, MemSource, Status, run_piql};
use pq_store::{Meter, Store};
use std::alloc::{AllocError, Global};
use std::sync::ledger::Ledger;

/// Scripts in a row over one store: each with its text.
pub const RUNS: [(&[u8], &[u8]); 7] = [
    (b"", b"open defs 0 bound 2 257\n"),
    (
        b"CREATE TABLE m (id INT, v INT, PRIMARY KEY (id));
INSERT INTO m VALUES (1, 7);
PREPARE one AS SELECT m.v FROM m WHERE m.id = [1];
RUN one (1);
",
        b"open defs 0 bound 2 257
1 ok bound 1 0
2 ok bound 2 1
query one whole bound 1 1
3 ok bound 1 0
row 7
4 ok rows 1 bound 1 1
",
    ),
    (
        b"SHOW;
CREATE TABLE c (id INT, p INT, PRIMARY KEY (id), FOREIGN KEY (p) REFERENCES m);
INSERT INTO c VALUES (1, 1);
INSERT INTO c VALUES (2, 99);
DELETE FROM m WHERE id = 1;
",
        b"open defs 2 bound 2 257
def 1 CREATE TABLE m (id INT, v INT, PRIMARY KEY (id));
def 2 PREPARE one AS SELECT m.v FROM m AS m WHERE m.id = [1];
1 ok bound 0 0
index c 1 (p)
2 ok bound 1 0
3 ok bound 6 2
4 refused E505 c 1 bound 6 2
5 refused E506 c 1 bound 3 2
",
    ),
    (
        b"ALTER TABLE m ADD COLUMN w INT DEFAULT 5;
INSERT INTO m VALUES (2, 8, 6);
INSERT INTO m (id, v) VALUES (3, 9);
PREPARE all AS SELECT * FROM m LIMIT 9;
RUN all;
UPDATE m SET w = 5 WHERE id = 2;
UPDATE c SET p = 3 WHERE id = 1;
",
        b"open defs 3 bound 2 257
1 ok bound 1 0
2 ok bound 2 1
3 ok bound 2 1
query all stop 1 bound 1 9
4 ok bound 1 0
row 1, 7, 5
row 2, 8, 6
row 3, 9, 5
5 ok rows 3 bound 1 9
6 ok bound 2 1
7 ok bound 7 2
",
    ),
    (
        b"SHOW;
RUN all;
",
        b"open defs 5 bound 2 257
def 1 CREATE TABLE m (id INT, v INT, PRIMARY KEY (id));
def 2 PREPARE one AS SELECT m.v FROM m AS m WHERE m.id = [1];
def 3 CREATE TABLE c (id INT, p INT, PRIMARY KEY (id), FOREIGN KEY (p) REFERENCES m);
index c 1 (p)
def 4 ALTER TABLE m ADD COLUMN w INT DEFAULT 5;
def 5 PREPARE all AS SELECT m.id, m.v, m.w FROM m AS m LIMIT 9;
1 ok bound 0 0
row 1, 7, 5
row 2, 8, 5
row 3, 9, 5
2 ok rows 3 bound 1 9
",
    ),
    (
        b"CREATE TABLE f (a INT, b TEXT(4) NULL, PRIMARY KEY (a));
CREATE COUNTER k OF f (b);
CREATE COUNTER l OF m (v);
INSERT INTO f VALUES (1, 'x');
INSERT INTO f VALUES (2, 'x');
INSERT INTO f VALUES (3, NULL);
READ k ('x');
UPDATE f SET b = 'y' WHERE a = 1;
DELETE FROM f WHERE a = 2;
",
        b"open defs 5 bound 2 257
1 ok bound 1 0
2 ok bound 2 1
3 refused E209 m bound 2 1
4 ok bound 6 2
5 ok bound 6 2
6 ok bound 6 2
row 2
7 ok rows 1 bound 1 1
8 ok bound 9 4
9 ok bound 7 3
",
    ),
    (
        b"READ k ('x');
READ k ('y');
INSERT INTO f VALUES (2, 'y');
READ k ('y');
",
        b"open defs 7 bound 2 257
row 0
1 ok rows 1 bound 1 1
row 1
2 ok rows 1 bound 1 1
3 ok bound 6 2
row 2
4 ok rows 1 bound 1 1
",
    ),
];

fn words_of(alloc: Global, texts: &[&str]) -> Result<List<PText>, NoMem> {
    let mut words = List::new(alloc);
    for text in texts {
        if let Some(word) = PText::from_bytes(alloc, text.as_bytes())? {
            words.push(alloc, word)?;
        }
    }
    Ok(words)
}

// The text without what stands behind ` used ` in each line.
fn without_used(alloc: Global, text: &[u8]) -> Result<Vec<u8>, AllocError> {
    let mut kept = Vec::new(alloc);
    let mut leaving_out = false;
    for (i, byte) in text.iter().enumerate() {
        if *byte == b'\n' {
            leaving_out = false;
        } else if text[i..].starts_with(b" used ") {
            leaving_out = true;
        }
        if !leaving_out {
            kept.push(*byte)?;
        }
    }
    Ok(kept)
}

/// How a run of these words over a store ends.
pub fn run_piql_words<S: Store<L>, L: Ledger>(
    alloc: Global,
    words: &[&str],
    source: &mut MemSource,
    store: &mut S,
    sink: &mut MemSink,
    meter: &mut Meter<L>,
) -> Result<Status, NoMem> {
    let words = words_of(alloc, words)?;
    Ok(run_piql(alloc, words.items(), source, store, sink, meter))
}

/// The same of words as they were read, and what the run writes but for the used numbers.
pub fn run_words<S: Store<L>, L: Ledger>(
    alloc: Global,
    words: &[PText],
    source: &mut MemSource,
    store: &mut S,
    sink: &mut MemSink,
    meter: &mut Meter<L>,
) -> Result<(Status, Vec<u8>), NoMem> {
    let status = run_piql(alloc, words, source, store, sink, meter);
    let text = without_used(alloc, sink.held())?;
    Ok((status, text))
}

/// The same of the run of a script, over a sink with ample room.
pub fn run_script<S: Store<L>, L: Ledger>(
    alloc: Global,
    script: &[u8],
    store: &mut S,
    meter: &mut Meter<L>,
) -> Result<(Status, Vec<u8>), NoMem> {
    let mut source = MemSource::new(Bytes::of_bytes(alloc, script)?, List::new(alloc));
    let mut sink = MemSink::new(alloc, 65_536, List::new(alloc))?;
    let words = words_of(alloc, &["run"])?;
    run_words(alloc, words.items(), &mut source, store, &mut sink, meter)
}

/// Whether the run of the script writes the text, but for the used numbers.
pub fn writes<S: Store<L>, L: Ledger>(
    alloc: Global,
    script: &[u8],
    text: &[u8],
    store: &mut S,
    meter: &mut Meter<L>,
) -> Result<bool, NoMem> {
    let (_, written) = run_script(alloc, script, store, meter)?;
    Ok(written.as_slice() == text)
}
