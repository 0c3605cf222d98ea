//! Whether the words of a definition are such as a statement can spell: for who makes definitions without a text.
#![tactic(auto)]

mod names;

pub use names::{NAME_BYTES, is_name, is_spelt_table};
