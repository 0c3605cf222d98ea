//! A store over several nodes, each of which has the keys of one range.
//!
//! It is a store as any other. Where each node tells what it holds, and holds keys of its own range
//! alone, its content is that of its nodes together. How many calls of nodes a call makes is bounded
//! by the number of parts that its keys meet. What is asked at once is shared out: a node that has
//! some of the keys, or all keys of some of the ranges, is asked once for them.
#![tactic(auto)]

mod asking;
mod clip;
mod part;
mod part_store;
mod payment;
mod placing;
mod rows;
mod tally;

pub use part::Part;
pub use part_store::PartStore;
