//! Changes that are not made yet, and calls on a store that see them as made.
//!
//! Several writes that are made as one are planned one after the other. Each is planned over the store as it is, and
//! sees the changes of those before it by a list. Until the list is committed the store is as it was.
#![tactic(auto)]

mod calls;
mod gets;
mod pending;
mod placed;
mod tests;

pub use calls::PendingCalls;
pub use pending::Pending;
