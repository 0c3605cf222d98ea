//! Numbers of store operations and entries.

/// What a statement may use at most.
#[derive(Clone, Copy, PartialEq, Eq)]
pub struct Bound {
    pub ops: u128,
    pub entries: u128,
}

/// What a statement used.
#[derive(Clone, Copy, PartialEq, Eq)]
pub struct Used {
    pub ops: u64,
    pub entries: u64,
}

/// Which candidate a query runs as: whole, or with its stop at a relation, counted from 1.
#[derive(Clone, Copy, PartialEq, Eq)]
pub enum Choice {
    Whole,
    Stop(u8),
}
