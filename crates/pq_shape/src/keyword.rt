//! The keywords by their places in the keyword table.

pub const AFTER: u8 = 0;

pub const AND: u8 = 1;

pub const AS: u8 = 2;

pub const ASC: u8 = 3;

pub const BOOL: u8 = 4;

pub const BY: u8 = 5;

pub const CARDINALITY: u8 = 6;

pub const CREATE: u8 = 7;

pub const DELETE: u8 = 8;

pub const DESC: u8 = 9;

pub const EXPLAIN: u8 = 10;

pub const FALSE: u8 = 11;

pub const FOREIGN: u8 = 12;

pub const FROM: u8 = 13;

pub const INSERT: u8 = 14;

pub const INT: u8 = 15;

pub const INTO: u8 = 16;

pub const JOIN: u8 = 17;

pub const KEY: u8 = 18;

pub const LIMIT: u8 = 19;

pub const ORDER: u8 = 20;

pub const PAGINATE: u8 = 21;

pub const PREPARE: u8 = 22;

pub const PRIMARY: u8 = 23;

pub const REFERENCES: u8 = 24;

pub const RUN: u8 = 25;

pub const SELECT: u8 = 26;

pub const SET: u8 = 27;

pub const SHOW: u8 = 28;

pub const TABLE: u8 = 29;

pub const TEXT: u8 = 30;

pub const TRUE: u8 = 31;

pub const UPDATE: u8 = 32;

pub const VALUES: u8 = 33;

pub const WHERE: u8 = 34;
