//! The nodes of a plan as lines: what each costs and gives, and its text.
//!
//! `plan_lines` gives a line for each node of a plan, from the innermost on. The sum of their costs is the plan's bound.
//! `plan_rounds` says how often the plan asks the store.
#![tactic(auto)]

mod node_line;
mod rounds;
mod text;

pub use node_line::{NodeLine, PlanNode, plan_lines};
pub use rounds::plan_rounds;
pub use text::{put_lines, put_rounds};
