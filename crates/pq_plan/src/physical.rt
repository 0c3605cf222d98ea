//! Trees that are run.

use pq_schema::Access;

/// A tree of operators. Relations and limits are numbered from 1.
#[derive(Drop)]
pub enum Physical {
    /// The empty combination.
    Unit,
    /// The row whose key is tied, where there is one, for each input.
    Lookup {
        input: Box<Physical>,
        rel: u8,
    },
    /// The at most `n` rows that are tied at the limit's columns, for each input.
    LimitRange {
        input: Box<Physical>,
        rel: u8,
        limit: u8,
        n: u32,
        access: Access,
    },
    /// The first `k` in the order of positions, of all inputs together.
    StopScan {
        input: Box<Physical>,
        rel: u8,
        k: u16,
        access: Access,
    },
    /// What keeps the predicates that belong to the relation.
    Filter {
        input: Box<Physical>,
        rel: u8,
    },
    /// In the order of positions.
    Sort {
        input: Box<Physical>,
    },
    /// The first `k` strictly after the cursor.
    Cut {
        input: Box<Physical>,
        k: u16,
    },
    /// The selected columns.
    Project {
        input: Box<Physical>,
    },
}
