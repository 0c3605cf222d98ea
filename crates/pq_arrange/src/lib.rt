//! A query in a better order of its relations, and with its equalities closed: with the same meaning.
#![tactic(auto)]

mod arrange;
mod closing;
mod labels;
pub mod laws;
mod moves;
mod numbers;
mod placing;

pub use arrange::{Rearranged, arranged, rearrange};
