//! Pairs of stores of clients: definitions, rows, rows that are held, and entries.
//!
//! The tables have number 1, as the index has. A row's value is its row code; a held one has the mark, the client's and
//! its write's number, and the code of the row that is present, or nothing.

/// A key and its value.
pub(crate) type KeyValue = (&'static [u8], &'static [u8]);

/// Several, in order.
pub(crate) type Texts = &'static [KeyValue];

pub(crate) const DEFINED_M: KeyValue = (
    b"\x01\0\x01",
    b"\x01\0CREATE TABLE m (id INT, v INT, PRIMARY KEY (id));",
);

pub(crate) const DEFINED_G: KeyValue = (
    b"\x01\0\x01",
    b"\x01\0CREATE TABLE g (a INT, b INT, PRIMARY KEY (a, b), CARDINALITY LIMIT 1 (a));",
);

pub(crate) const DEFINED_H: KeyValue = (
    b"\x01\0\x01",
    b"\x01\0CREATE TABLE h (id INT, t INT, PRIMARY KEY (id), CARDINALITY LIMIT 5 (t));",
);

pub(crate) const DEFINED_T: KeyValue = (
    b"\x01\0\x02",
    b"\x01\0CREATE TABLE t (id INT, v INT, PRIMARY KEY (id));",
);

pub(crate) const DEFINED_K: KeyValue = (b"\x01\0\x03", b"\x02\0CREATE COUNTER k OF t (v);");

pub(crate) const DEFINED_ONE: KeyValue = (
    b"\x01\0\x02",
    b"\x01\0PREPARE one AS SELECT m.v FROM m AS m WHERE m.id = [1];",
);

// Keys of the rows of the first table, by the first column; and values of rows with a second one.
const KEY_1: &[u8] = b"\x02\x01\x10\x80\0\0\0\0\0\0\x01";

const KEY_2: &[u8] = b"\x02\x01\x10\x80\0\0\0\0\0\0\x02";

const KEY_3: &[u8] = b"\x02\x01\x10\x80\0\0\0\0\0\0\x03";

const KEY_5: &[u8] = b"\x02\x01\x10\x80\0\0\0\0\0\0\x05";

pub(crate) const ROW_1_7: KeyValue = (KEY_1, b"\x02\0\0\0\0\0\0\0\x01\0\0\0\0\0\0\0\x07");

pub(crate) const ROW_1_9: KeyValue = (KEY_1, b"\x02\0\0\0\0\0\0\0\x01\0\0\0\0\0\0\0\x09");

pub(crate) const ROW_2_2: KeyValue = (KEY_2, b"\x02\0\0\0\0\0\0\0\x02\0\0\0\0\0\0\0\x02");

pub(crate) const ROW_2_7: KeyValue = (KEY_2, b"\x02\0\0\0\0\0\0\0\x02\0\0\0\0\0\0\0\x07");

pub(crate) const ROW_1_1: KeyValue = (KEY_1, b"\x02\0\0\0\0\0\0\0\x01\0\0\0\0\0\0\0\x01");

pub(crate) const ROW_2_1: KeyValue = (KEY_2, b"\x02\0\0\0\0\0\0\0\x02\0\0\0\0\0\0\0\x01");

pub(crate) const ROW_3_1: KeyValue = (KEY_3, b"\x02\0\0\0\0\0\0\0\x03\0\0\0\0\0\0\0\x01");

// Pairs that a client holds, by its number, for its first write: with a row, or with none.
pub(crate) const HELD_1_7: KeyValue = (
    KEY_1,
    b"\x80\0\0\0\x01\0\0\0\x01\x02\0\0\0\0\0\0\0\x01\0\0\0\0\0\0\0\x07",
);

pub(crate) const HELD_1: KeyValue = (KEY_1, b"\x80\0\0\0\x01\0\0\0\x01");

pub(crate) const HELD_2: KeyValue = (KEY_2, b"\x80\0\0\0\x02\0\0\0\x01");

pub(crate) const HELD_3: KeyValue = (KEY_3, b"\x80\0\0\0\x03\0\0\0\x01");

pub(crate) const HELD_3_1: KeyValue = (
    KEY_3,
    b"\x80\0\0\0\x03\0\0\0\x01\x02\0\0\0\0\0\0\0\x03\0\0\0\0\0\0\0\x01",
);

// Their entries in the index on the second column.
pub(crate) const ENTRY_1: KeyValue = (
    b"\x03\x01\x01\x10\x80\0\0\0\0\0\0\x01\x10\x80\0\0\0\0\0\0\x01",
    b"",
);

pub(crate) const ENTRY_2: KeyValue = (
    b"\x03\x01\x01\x10\x80\0\0\0\0\0\0\x01\x10\x80\0\0\0\0\0\0\x02",
    b"",
);

pub(crate) const ENTRY_3: KeyValue = (
    b"\x03\x01\x01\x10\x80\0\0\0\0\0\0\x01\x10\x80\0\0\0\0\0\0\x03",
    b"",
);

// A value that is neither a row's nor a client's.
pub(crate) const SPOILED: KeyValue = (KEY_5, b"x");

pub(crate) const SPOILED_INTENT: KeyValue = (b"\x04", b"x");
