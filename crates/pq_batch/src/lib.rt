//! Several writes that are made as one: what they may use, and what they change.
#![tactic(auto)]

mod bound;
mod plan;

pub use bound::batch_bound;
pub use plan::{PlannedBatch, plan_batch};
