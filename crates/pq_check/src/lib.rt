//! Statements as far as no store decides them: each is a step over tables without rows.
#![tactic(auto)]

mod checking;

pub use checking::check;
