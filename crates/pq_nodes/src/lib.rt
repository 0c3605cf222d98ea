//! What the nodes of a plan say of their query, what they cost and give, and what is asked of the calls
//! that read for them.
//!
//! The definitions stand in `specs/`. Each call here does nothing, and its contract is a law of theirs.
#![tactic(auto)]

mod laws;

pub use laws::{combo_laws, cost_laws, damage_laws, node_laws, order_laws, tied_laws};
