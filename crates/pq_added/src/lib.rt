//! What a table's added column changes: each row of the table has one more value, and no pair of a store changes.
//!
//! The definitions stand in `specs/`. The call here does nothing, and its contract is what they promise.
#![tactic(auto)]

mod laws;

pub use laws::column_laws;
