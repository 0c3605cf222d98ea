//! Trees that say what a query means.

/// A tree over the relations of a query, which are numbered from 1.
#[derive(Drop)]
pub enum Logical {
    /// The empty combination.
    Unit,
    /// Each input, followed by each row of the relation that the predicates that belong to it keep.
    Read {
        input: Box<Logical>,
        rel: u8,
    },
    /// Of the combinations that share all rows before the relation, the `n` least by its key.
    DataStop {
        input: Box<Logical>,
        rel: u8,
        n: u32,
    },
    /// `Read`, and then the first `k` strictly after the cursor, in the order of positions.
    StopRead {
        input: Box<Logical>,
        rel: u8,
        k: u16,
    },
    /// In the order of positions.
    Order {
        input: Box<Logical>,
    },
    /// The first `k` strictly after the cursor.
    Cut {
        input: Box<Logical>,
        k: u16,
    },
    /// The selected columns.
    Project {
        input: Box<Logical>,
    },
}
