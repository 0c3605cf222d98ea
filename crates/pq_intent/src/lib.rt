//! Changes that are made whole over a store, whichever call is the last one.
//!
//! Several changes are first written as one value, the intent. From that write on the content
//! settles to the changed one. `settle` makes the changes of an intent that was left.
#![tactic(auto)]

mod commits;
mod intent;
mod settles;
mod write;

pub use commits::commit;
pub use settles::{Settled, settle};
