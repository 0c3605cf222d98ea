//! Trees of a query: what they mean, what they cost, and which of them are plans.
//!
//! `specs/Answer.antt` has the answer of a query over tables. A `Physical` tree is what is run, and a
//! `BoundedPlan` carries its cost, always. `specs/Plans.antt` says which trees are plans for a query.
#![tactic(auto)]

mod combo;
mod cost;
mod logical;
mod physical;
mod plan;

pub use combo::Combo;
pub use cost::{Total, bound_of, limit_cost, read_each, read_stop};
pub use logical::Logical;
pub use physical::Physical;
pub use plan::BoundedPlan;
