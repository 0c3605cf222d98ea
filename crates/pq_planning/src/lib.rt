//! A query of a text with its plan, and the lines of a report that tell of definitions and plans.
#![tactic(auto)]

mod lines;
mod planning;

pub use lines::{show_lines, table_lines};
pub use planning::{
    PlannedQuery, explained_name, plan_arranged, plan_query, plan_select, planned_lines,
};
