//! Stores for tests, over one in memory: one fails at listed calls, one goes over to a second store,
//! and one counts how often it is asked.
#![tactic(auto)]

mod counting;
mod failing;
mod switch;

pub use counting::CountingStore;
pub use failing::{Fail, FailingStore};
pub use switch::SwitchStore;
