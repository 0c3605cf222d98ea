//! What several crates of tests use: runs of scripts over any store, and a store that counts other pairs than it has.
#![tactic(auto)]

mod runs;

pub use pq_test_miscount::MiscountStore;
pub use runs::{RUNS, run_piql_words, run_script, run_words, writes};
