//! Clients over stores with pairs that no run leaves.
use crate::client_pairs::{
    DEFINED_M, DEFINED_ONE, HELD_1, ROW_1_7, ROW_2_7, SPOILED, SPOILED_INTENT,
};
use crate::client_runs::{Runs, Trouble};
use pq_shell::Status;

// The second client reads the spoiled value at call 4. The first one's calls are 3 and 5 to 11.
const SPOILED_ROW: Runs = Runs {
    words: "clients 2",
    before: &[DEFINED_M, SPOILED],
    script: b"INSERT INTO m VALUES (1, 7);
INSERT INTO m VALUES (5, 7);
SHOW;
INSERT INTO m VALUES (2, 7);
",
    ends: &[
        (
            &[],
            Status::Damaged,
            b"3 skipped\ntold 1 1 done\ntold 1 2 done\ndamaged 0201108000000000000005\n",
            &[DEFINED_M, ROW_1_7, ROW_2_7, SPOILED],
        ),
        (
            &[Trouble::Unread(2)],
            Status::Damaged,
            b"3 skipped\ntold 1 1 done\ntold 1 2 done\ndamaged 0201108000000000000005\n",
            &[DEFINED_M, ROW_1_7, ROW_2_7, SPOILED],
        ),
        (
            &[Trouble::Fails(6)],
            Status::Damaged,
            b"3 skipped\ndamaged 0201108000000000000005\n",
            &[DEFINED_M, HELD_1, SPOILED],
        ),
        (
            &[Trouble::Scarce(6)],
            Status::Damaged,
            b"3 skipped\ndamaged 0201108000000000000005\n",
            &[DEFINED_M, HELD_1, SPOILED],
        ),
        (
            &[Trouble::Fails(3)],
            Status::StoreFault,
            b"3 skipped\n",
            &[DEFINED_M, SPOILED],
        ),
        (
            &[Trouble::Scarce(3)],
            Status::NoMem,
            b"3 skipped\n",
            &[DEFINED_M, SPOILED],
        ),
        (
            &[Trouble::Room(20)],
            Status::WriteFault,
            b"3 skipped\ntold 1 1 d",
            &[DEFINED_M, ROW_1_7, ROW_2_7, SPOILED],
        ),
        (
            &[Trouble::Room(45)],
            Status::WriteFault,
            b"3 skipped\ntold 1 1 done\ntold 1 2 done\ndamaged",
            &[DEFINED_M, ROW_1_7, ROW_2_7, SPOILED],
        ),
    ],
};

// A query before the first write finds it.
const SPOILED_BEFORE: Runs = Runs {
    words: "clients 2",
    before: &[DEFINED_M, SPOILED],
    script: b"PREPARE one AS SELECT m.v FROM m WHERE m.id = [1];
RUN one (5);
INSERT INTO m VALUES (1, 7);
",
    ends: &[(
        &[],
        Status::Damaged,
        b"query one whole bound 1 1
1 ok bound 1 0 used 1 0
damaged 0201108000000000000005
",
        &[DEFINED_M, DEFINED_ONE, SPOILED],
    )],
};

// The opening finds damage, and the script isn't read.
const SPOILED_OPENING: Runs = Runs {
    words: "clients 2",
    before: &[DEFINED_M, SPOILED_INTENT],
    script: b"INSERT INTO m VALUES (1, 7);",
    ends: &[
        (
            &[Trouble::Unread(1)],
            Status::Damaged,
            b"damaged 04\n",
            &[DEFINED_M, SPOILED_INTENT],
        ),
        (
            &[Trouble::Room(5)],
            Status::WriteFault,
            b"damag",
            &[DEFINED_M, SPOILED_INTENT],
        ),
    ],
};

/// Runs over such stores.
pub(crate) const SPOILED_RUNS: [Runs; 3] = [SPOILED_ROW, SPOILED_BEFORE, SPOILED_OPENING];
