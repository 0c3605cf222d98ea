//! Which sequence of a table serves a stop, and the index that it wants where none does.
//!
//! `serving` is None exactly where no sequence serves. It takes no memory.
#![tactic(auto)]

mod make;
mod pick;

pub use make::new_index;
pub use pick::{Need, primary_serves, serving};
