//! Running a plan over a store: the answer of a query, within the plan's numbers.
//!
//! A plan's tree is run from its innermost node on, each node by its operator, on an allowance of just the
//! plan's numbers. `specs/Execution.antt` says what is promised.
#![tactic(auto)]

mod executing;
mod node;
mod tree;

pub use executing::{Answer, execute};
