//! A store in memory.
#![tactic(auto)]

mod block;
mod hashed_pairs;
mod held;
mod late_pairs;
mod mem;
mod pair_map;
mod pair_tree;
mod run;
mod runs;

pub use mem::{MemStore, NotPairs};
