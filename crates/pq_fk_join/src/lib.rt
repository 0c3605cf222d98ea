//! The join by a key: each combination followed by the row whose key equalities tie.
//!
//! Each input costs one operation, and an entry where there is a row. An input without a partner falls
//! out, and the others keep their order.
#![tactic(auto)]

mod join;

pub use join::{fk_join, join_inputs};
