//! A store that stands still, and what sessions over it answer.
#![tactic(auto)]

mod frozen;
mod pinning;
mod reading;

pub use frozen::Frozen;
pub use pinning::pinned_behind;
pub use reading::{answer, open_frozen, read_all};
