//! A client that fails at each of its calls, beside two others.
use crate::client_pairs::{
    DEFINED_H, ENTRY_1, ENTRY_2, ENTRY_3, HELD_3, HELD_3_1, ROW_1_1, ROW_2_1, ROW_3_1,
};
use crate::client_runs::{Runs, Trouble};
use pq_shell::Status;

const TWO_DONE: &[u8] = b"index h 1 (t)\n1 ok bound 1 0 used 1 0\ntold 1 1 done\ntold 2 1 done\n";

/// The third of three clients fails at each of its calls: its read is call 6, and then its take, its add, its test, its
/// put and its free are each the third one further on. What it held stays so.
pub(crate) const STOPS: [Runs; 1] = [Runs {
    words: "clients 3",
    before: &[],
    script: b"CREATE TABLE h (id INT, t INT, PRIMARY KEY (id), CARDINALITY LIMIT 5 (t));
INSERT INTO h VALUES (1, 1);
INSERT INTO h VALUES (2, 1);
INSERT INTO h VALUES (3, 1);
",
    ends: &[
        (
            &[Trouble::Fails(6)],
            Status::StoreFault,
            TWO_DONE,
            &[DEFINED_H, ROW_1_1, ROW_2_1, ENTRY_1, ENTRY_2],
        ),
        (
            &[Trouble::Fails(9)],
            Status::StoreFault,
            TWO_DONE,
            &[DEFINED_H, ROW_1_1, ROW_2_1, ENTRY_1, ENTRY_2],
        ),
        (
            &[Trouble::FailsDone(9)],
            Status::StoreFault,
            TWO_DONE,
            &[DEFINED_H, ROW_1_1, ROW_2_1, HELD_3, ENTRY_1, ENTRY_2],
        ),
        (
            &[Trouble::Fails(12)],
            Status::StoreFault,
            TWO_DONE,
            &[DEFINED_H, ROW_1_1, ROW_2_1, HELD_3, ENTRY_1, ENTRY_2],
        ),
        (
            &[Trouble::Scarce(12)],
            Status::NoMem,
            TWO_DONE,
            &[DEFINED_H, ROW_1_1, ROW_2_1, HELD_3, ENTRY_1, ENTRY_2],
        ),
        (
            &[Trouble::FailsDone(12)],
            Status::StoreFault,
            TWO_DONE,
            &[
                DEFINED_H, ROW_1_1, ROW_2_1, HELD_3, ENTRY_1, ENTRY_2, ENTRY_3,
            ],
        ),
        (
            &[Trouble::Fails(15)],
            Status::StoreFault,
            TWO_DONE,
            &[
                DEFINED_H, ROW_1_1, ROW_2_1, HELD_3, ENTRY_1, ENTRY_2, ENTRY_3,
            ],
        ),
        (
            &[Trouble::Fails(18)],
            Status::StoreFault,
            TWO_DONE,
            &[
                DEFINED_H, ROW_1_1, ROW_2_1, HELD_3, ENTRY_1, ENTRY_2, ENTRY_3,
            ],
        ),
        (
            &[Trouble::FailsDone(18)],
            Status::StoreFault,
            TWO_DONE,
            &[
                DEFINED_H, ROW_1_1, ROW_2_1, HELD_3_1, ENTRY_1, ENTRY_2, ENTRY_3,
            ],
        ),
        (
            &[Trouble::Fails(21)],
            Status::StoreFault,
            TWO_DONE,
            &[
                DEFINED_H, ROW_1_1, ROW_2_1, HELD_3_1, ENTRY_1, ENTRY_2, ENTRY_3,
            ],
        ),
        (
            &[Trouble::FailsDone(21)],
            Status::StoreFault,
            TWO_DONE,
            &[
                DEFINED_H, ROW_1_1, ROW_2_1, ROW_3_1, ENTRY_1, ENTRY_2, ENTRY_3,
            ],
        ),
        (
            &[Trouble::Fails(22)],
            Status::Good,
            b"index h 1 (t)
1 ok bound 1 0 used 1 0
told 1 1 done
told 2 1 done
told 3 1 done
",
            &[
                DEFINED_H, ROW_1_1, ROW_2_1, ROW_3_1, ENTRY_1, ENTRY_2, ENTRY_3,
            ],
        ),
    ],
}];
