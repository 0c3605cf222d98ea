//! Canonical texts, read back: cutting and reading a text that was printed gives what was printed.
//!
//! The definitions stand in `specs/`. Each call here does nothing, and its contract is a law of theirs.
#![tactic(auto)]

mod laws;

pub use laws::{
    columns_law, counters_law, names_law, orderly_law, printed_law, queries_law, tables_law,
    texts_law, whole_statements_law,
};
