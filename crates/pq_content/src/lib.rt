//! What the content of a store stands for: rows of tables, and the pairs that a store holds for them.
//!
//! The definitions stand in `specs/`. Each call here does nothing, and its contract is a law of theirs.
#![tactic(auto)]

mod laws;

pub use laws::{
    beside_laws, build_laws, catalog_laws, delete_laws, insert_laws, intent_laws, range_laws,
    read_laws, standing_laws, table_laws, update_laws,
};
