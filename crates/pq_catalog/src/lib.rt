//! The definitions of a store with their plans, and what a content stands for.
#![tactic(auto)]

mod format;
mod growing;
mod planned;

pub use format::{Mark, QUERY_FORMAT, has_format, last_format, marked_text};
pub use growing::{Defined, Numbered};
pub use planned::PlannedCatalog;
