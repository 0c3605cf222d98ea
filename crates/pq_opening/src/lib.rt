//! The opening of a store: what its catalog tells, and a build that was left.
#![tactic(auto)]

mod begun;
mod last;
mod opening;

pub use begun::{Begun, start};
