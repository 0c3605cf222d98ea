//! What a client does next with the write at hand.
use pq_base::{Bytes, List, Refusal};
use pq_store::Damage;

/// A test of the rows that a row names, or of the rows that name it.
#[derive(Drop)]
pub enum Check {
    /// The row that the foreign key of this place names, by its table and the key of its pair.
    Parent {
        place: usize,
        table: u8,
        at: Bytes,
    },
    /// The rows of a table that name the row by its foreign key of this place, by the beginning of their keys.
    Child {
        table: u8,
        place: usize,
        front: Bytes,
    },
}

/// The next step of a write that holds its key.
#[derive(Drop)]
pub enum Stage {
    Checking {
        check: Check,
        left: List<Check>,
    },
    Adding {
        entry: Bytes,
        left: List<Bytes>,
        added: List<Bytes>,
    },
    /// Limits, by their places.
    Testing {
        place: usize,
        left: List<usize>,
        passed: List<usize>,
    },
    Putting,
    Clearing {
        entry: Bytes,
        left: List<Bytes>,
    },
    Freeing,
    /// After a refusal: an added entry is removed.
    Undoing {
        entry: Bytes,
        left: List<Bytes>,
        refusal: Refusal,
    },
    /// After a refusal: the pair is freed with the old row.
    Releasing {
        refusal: Refusal,
    },
}

/// The next step of a client.
#[derive(Drop)]
pub enum Phase {
    Reading,
    Taking,
    /// The get after a take that answered false.
    Looking,
    Flying { stage: Stage },
}

/// How a write ends behind a call that answered.
#[derive(Drop)]
pub enum Ending {
    Done,
    Refused {
        refusal: Refusal,
    },
    Busy {
        found: Bytes,
    },
    Conflict {
        read: Option<Bytes>,
        found: Option<Bytes>,
    },
    Damaged {
        damage: Damage,
    },
}

/// How a write goes on behind a call.
#[derive(Drop)]
pub enum Course {
    On { next: Phase },
    /// The take comes next; the code of the row that was read, or none.
    Takes { read: Option<Bytes> },
    /// Its row was put.
    Puts { next: Phase },
    Ends { ending: Ending },
}
