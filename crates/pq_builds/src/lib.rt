//! Builds of indexes over a store: each row of a table gets its entry in one more index.
//!
//! A build is made of calls that may stop at any of them. Whatever was done, the content is one in
//! which the index is being filled, and the same build may be made again over it.
#![tactic(auto)]

mod bounds;
mod build;
mod count;
mod entries;
mod fill;
pub mod laws;
mod mark;
mod target;

pub use bounds::{build_ops, left_ops};
pub use build::{Built, build_index, complete_index};
pub use fill::{first_key, past_key};
pub use mark::{BUILDING, READY};
pub use target::{NewQuery, Target};
