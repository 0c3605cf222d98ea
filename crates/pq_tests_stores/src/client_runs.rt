//! Runs of clients: words and a script, what goes wrong, and what the run then writes and leaves.
//!
//! The opening takes two calls of the store and a CREATE TABLE one. Then the clients take one each in turn.
use crate::client_pairs::{
    DEFINED_G, DEFINED_K, DEFINED_M, DEFINED_T, HELD_1, HELD_1_7, HELD_2, ROW_1_7, ROW_1_9,
    ROW_2_2, ROW_2_7, Texts,
};
use pq_shell::Status;

/// What goes wrong in a run.
#[derive(Clone, Copy)]
pub(crate) enum Trouble {
    /// The call of the store with this number, from 1, fails, and isn't done.
    Fails(u64),
    /// It fails, and is done all the same.
    FailsDone(u64),
    /// It finds no memory.
    Scarce(u64),
    /// The read of the source with this number, from 1, fails. The first one takes all statements.
    Unread(u64),
    /// The sink has room for so many bytes.
    Room(u32),
}

/// What goes wrong, how the run then ends, and what it has written and left.
pub(crate) type End = (&'static [Trouble], Status, &'static [u8], Texts);

/// The runs of one script.
pub(crate) struct Runs {
    /// The words, with blanks between them.
    pub words: &'static str,
    /// What the store has before.
    pub before: Texts,
    pub script: &'static [u8],
    pub ends: &'static [End],
}

/// Words that are none of a run of clients.
pub(crate) const OTHER_WORDS: [&str; 9] = [
    "",
    "2",
    "clients",
    "clients 0",
    "clients 02",
    "clients +2",
    "clients 17",
    "clients 2 2",
    "client 2",
];

/// What is wrong with everything that such a run may not touch.
pub(crate) const ALL_WRONG: &[Trouble] = &[Trouble::Fails(1), Trouble::Unread(1), Trouble::Room(0)];

// Two clients write at one key. Their calls are 4 to 10: the reads, the takes, the first one's put, a get of the other
// one, and the free.
const ONE_KEY: Runs = Runs {
    words: "clients 2",
    before: &[],
    script: b"CREATE TABLE m (id INT, v INT, PRIMARY KEY (id));
INSERT INTO m VALUES (1, 7);
INSERT INTO m VALUES (1, 8);
",
    ends: &[
        (
            &[Trouble::Fails(11)],
            Status::SomeRefused,
            b"1 ok bound 1 0 used 1 0\ntold 2 1 conflict\ntold 1 1 done\n",
            &[DEFINED_M, ROW_1_7],
        ),
        (
            &[Trouble::Fails(10)],
            Status::StoreFault,
            b"1 ok bound 1 0 used 1 0\ntold 2 1 conflict\n",
            &[DEFINED_M, HELD_1_7],
        ),
        (
            &[Trouble::FailsDone(10)],
            Status::StoreFault,
            b"1 ok bound 1 0 used 1 0\ntold 2 1 conflict\n",
            &[DEFINED_M, ROW_1_7],
        ),
        (
            &[Trouble::Scarce(10)],
            Status::NoMem,
            b"1 ok bound 1 0 used 1 0\ntold 2 1 conflict\n",
            &[DEFINED_M, HELD_1_7],
        ),
        (
            &[Trouble::Fails(9)],
            Status::StoreFault,
            b"1 ok bound 1 0 used 1 0\ntold 1 1 done\n",
            &[DEFINED_M, ROW_1_7],
        ),
        (
            &[Trouble::FailsDone(6)],
            Status::StoreFault,
            b"1 ok bound 1 0 used 1 0\ntold 2 1 conflict\n",
            &[DEFINED_M, HELD_1],
        ),
        (
            &[Trouble::Fails(6), Trouble::Scarce(7)],
            Status::StoreFault,
            b"1 ok bound 1 0 used 1 0\n",
            &[DEFINED_M],
        ),
        (
            &[Trouble::FailsDone(3)],
            Status::StoreFault,
            b"",
            &[DEFINED_M],
        ),
        (&[Trouble::Fails(3)], Status::StoreFault, b"", &[]),
        (&[Trouble::Scarce(3)], Status::NoMem, b"", &[]),
        (&[Trouble::Fails(1)], Status::StoreFault, b"", &[]),
        (&[Trouble::Scarce(1)], Status::NoMem, b"", &[]),
        (&[Trouble::Unread(1)], Status::ReadFault, b"", &[]),
    ],
};

// The same with a piece that is skipped, and a rest that isn't finished.
const SKIPPED: Runs = Runs {
    words: "clients 2",
    before: &[],
    script: b"CREATE TABLE m (id INT, v INT, PRIMARY KEY (id));
INSERT INTO m VALUES (1, 7);
SHOW;
INSERT INTO m VALUES (1, 8);
INSERT",
    ends: &[
        (
            &[],
            Status::SomeRefused,
            b"1 ok bound 1 0 used 1 0\n3 skipped\n5 refused E102 bound 0 0 used 0 0
told 2 1 conflict\ntold 1 1 done\n",
            &[DEFINED_M, ROW_1_7],
        ),
        (
            &[Trouble::Fails(10)],
            Status::StoreFault,
            b"1 ok bound 1 0 used 1 0\n3 skipped\n5 refused E102 bound 0 0 used 0 0\ntold 2 1 conflict\n",
            &[DEFINED_M, HELD_1_7],
        ),
        (
            &[Trouble::Unread(2)],
            Status::ReadFault,
            b"1 ok bound 1 0 used 1 0\n3 skipped\ntold 2 1 conflict\ntold 1 1 done\n",
            &[DEFINED_M, ROW_1_7],
        ),
        (
            &[Trouble::Unread(2), Trouble::Fails(10)],
            Status::StoreFault,
            b"1 ok bound 1 0 used 1 0\n3 skipped\ntold 2 1 conflict\n",
            &[DEFINED_M, HELD_1_7],
        ),
        (
            &[Trouble::Unread(2), Trouble::Scarce(10)],
            Status::NoMem,
            b"1 ok bound 1 0 used 1 0\n3 skipped\ntold 2 1 conflict\n",
            &[DEFINED_M, HELD_1_7],
        ),
        (
            &[Trouble::Unread(2), Trouble::Room(57)],
            Status::WriteFault,
            b"1 ok bound 1 0 used 1 0\n3 skipped\ntold 2 1 conflict\ntold ",
            &[DEFINED_M, ROW_1_7],
        ),
        (
            &[Trouble::Unread(2), Trouble::Fails(10), Trouble::Room(40)],
            Status::WriteFault,
            b"1 ok bound 1 0 used 1 0\n3 skipped\ntold 2",
            &[DEFINED_M, HELD_1_7],
        ),
        (
            &[Trouble::Scarce(10), Trouble::Room(72)],
            Status::WriteFault,
            b"1 ok bound 1 0 used 1 0\n3 skipped\n5 refused E102 bound 0 0 used 0 0\ntold",
            &[DEFINED_M, HELD_1_7],
        ),
        (
            &[Trouble::Room(30)],
            Status::WriteFault,
            b"1 ok bound 1 0 used 1 0\n3 skip",
            &[DEFINED_M],
        ),
        (
            &[Trouble::Room(10)],
            Status::WriteFault,
            b"1 ok bound",
            &[DEFINED_M],
        ),
    ],
};

// The writes of one client are refused or busy beside those of another.
const IN_TURN: Runs = Runs {
    words: "clients 2",
    before: &[],
    script: b"CREATE TABLE m (id INT, v INT, PRIMARY KEY (id));
DELETE FROM m WHERE id = 5;
INSERT INTO m VALUES (1, 7);
DELETE FROM m WHERE id = 6;
INSERT INTO m VALUES (2, 2);
INSERT INTO m VALUES (1, 8);
",
    ends: &[(
        &[],
        Status::SomeRefused,
        b"1 ok bound 1 0 used 1 0
told 1 1 refused E504 m
told 1 2 refused E504 m
told 1 3 busy
told 2 1 done
told 2 2 done
",
        &[DEFINED_M, ROW_1_7, ROW_2_2],
    )],
};

// Of two writes on one condition one is made: the other's take comes too late, and the next one reads the new row. A
// sum of more than 64 bits is refused at the read too, and a SELECT behind the first write is skipped.
const ON_CONDITIONS: Runs = Runs {
    words: "clients 2",
    before: &[DEFINED_M, ROW_1_7],
    script: b"UPDATE m SET v = 8 WHERE id = 1 IF v = 7;
UPDATE m SET v = 9 WHERE id = 1 IF v = 7;
SELECT m.v FROM m WHERE m.id = 1;
UPDATE m SET v ADD 1 WHERE id = 1 IF v = 8;
UPDATE m SET v = 6 WHERE id = 1 IF v = 7;
DELETE FROM m WHERE id = 2 IF v = 1;
UPDATE m SET v ADD 9223372036854775807 WHERE id = 1;
",
    ends: &[(
        &[],
        Status::SomeRefused,
        b"3 skipped
told 2 1 conflict
told 1 1 done
told 2 2 refused E511 m 1
told 2 3 refused E514 m v
told 1 2 done
told 1 3 refused E504 m
",
        &[DEFINED_M, ROW_1_9],
    )],
};

const GROUPED: &[u8] = b"CREATE TABLE g (a INT, b INT, PRIMARY KEY (a, b), CARDINALITY LIMIT 1 (a));
INSERT INTO g VALUES (1, 1);
INSERT INTO g VALUES (1, 2);
";

// Two pairs of one group count for each other where the limit is one.
const FULL: Runs = Runs {
    words: "clients 2",
    before: &[],
    script: GROUPED,
    ends: &[(
        &[],
        Status::SomeRefused,
        b"1 ok bound 1 0 used 1 0\ntold 1 1 refused E507 g 1 1\ntold 2 1 refused E507 g 1 1\n",
        &[DEFINED_G],
    )],
};

// One after the other the first has room.
const FULL_ALONE: Runs = Runs {
    words: "clients 1",
    before: &[],
    script: GROUPED,
    ends: &[(
        &[],
        Status::SomeRefused,
        b"1 ok bound 1 0 used 1 0\ntold 1 1 done\ntold 1 2 refused E507 g 1 1\n",
        &[
            DEFINED_G,
            (
                b"\x02\x01\x10\x80\0\0\0\0\0\0\x01\x10\x80\0\0\0\0\0\0\x01",
                b"\x02\0\0\0\0\0\0\0\x01\0\0\0\0\0\0\0\x01",
            ),
        ],
    )],
};

// A piece before the first write is refused, and the second client's put is call 9.
const REFUSED: Runs = Runs {
    words: "clients 16",
    before: &[],
    script: b"nonsense;
CREATE TABLE m (id INT, v INT, PRIMARY KEY (id));
INSERT INTO m VALUES (1, 7);
INSERT INTO m VALUES (2, 7);
",
    ends: &[
        (
            &[],
            Status::SomeRefused,
            b"1 refused E104 0 bound 0 0 used 0 0
2 ok bound 1 0 used 1 0
told 1 1 done
told 2 1 done
",
            &[DEFINED_M, ROW_1_7, ROW_2_7],
        ),
        (
            &[Trouble::Fails(9)],
            Status::StoreFault,
            b"1 refused E104 0 bound 0 0 used 0 0\n2 ok bound 1 0 used 1 0\ntold 1 1 done\n",
            &[DEFINED_M, ROW_1_7, HELD_2],
        ),
    ],
};

// A write on a table with a counter is skipped, and so are a counter and a READ behind it. The client's calls are 7 to
// 10: the read, the take, the put and the free.
const COUNTED: Runs = Runs {
    words: "clients 2",
    before: &[],
    script: b"CREATE TABLE m (id INT, v INT, PRIMARY KEY (id));
CREATE TABLE t (id INT, v INT, PRIMARY KEY (id));
CREATE COUNTER k OF t (v);
INSERT INTO t VALUES (1, 7);
INSERT INTO m VALUES (1, 7);
DELETE FROM t WHERE id = 1;
CREATE COUNTER l OF m (v);
READ k (7);
",
    ends: &[
        (
            &[Trouble::Fails(11)],
            Status::SomeRefused,
            b"1 ok bound 1 0 used 1 0\n2 ok bound 1 0 used 1 0\n3 ok bound 2 1 used 2 0
4 skipped\n6 skipped\n7 skipped\n8 skipped\ntold 1 1 done\n",
            &[DEFINED_M, DEFINED_T, DEFINED_K, ROW_1_7],
        ),
        (
            &[Trouble::Fails(10)],
            Status::StoreFault,
            b"1 ok bound 1 0 used 1 0\n2 ok bound 1 0 used 1 0\n3 ok bound 2 1 used 2 0
4 skipped\n6 skipped\n7 skipped\n8 skipped\n",
            &[DEFINED_M, DEFINED_T, DEFINED_K, HELD_1_7],
        ),
    ],
};

/// Runs over a new store.
pub(crate) const RUNS: [Runs; 8] = [
    ONE_KEY,
    SKIPPED,
    IN_TURN,
    ON_CONDITIONS,
    FULL,
    FULL_ALONE,
    REFUSED,
    COUNTED,
];
