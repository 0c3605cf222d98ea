//! What the inputs of a stop scan ask of a serving sequence, what is read for them, and what is made of that.
//!
//! A scan is prepared once for all inputs of its node. For one input the predicates on tied columns are
//! tested first; then one range is asked for, from the highest lower bound up to the lowest upper one, with
//! the cursor's start among the lower ones. The ranges of all inputs are asked for at once. What is found is
//! merged by position, through a heap with the head of each list that rises, and cut, and then the rows of
//! entries are asked for at once.
#![tactic(auto)]

mod asks;
mod candidates;
mod fetch;
mod forms;
mod gather;
mod keys;
mod merge;
mod passing;
mod places;
mod prepared;
mod reads;
mod request;
mod scanning;
mod starts;

pub use merge::{Heads, Placed};
pub use request::Request;
pub use scanning::scan_inputs;
