//! The first combinations by position: over any inputs one range of a serving sequence for each input, and
//! of lists that rise by position their merge.
#![tactic(auto)]

mod merge;
mod sorted;

pub use merge::Merge;
pub use sorted::sorted_join;
