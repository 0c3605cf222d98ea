//! Writes: what an INSERT, UPDATE or DELETE makes of the rows and their entries, within which bound,
//! or why it is refused.
#![tactic(auto)]

mod bound;
mod changes;
mod check;
mod children;
mod column_values;
mod conditions;
mod groups;
mod held;
mod inserts;
mod keyed;
mod limits;
mod parents;
mod plan;
mod references;
mod refusals;
mod settings;
mod update;
mod write;
mod writes;

pub use bound::{commit_ops, most_changes, tests_behind, write_bound};
pub use check::check_write;
pub use held::{condition_refusal, held_refusal, sum_refusal};
pub use limits::stays;
pub use plan::{Planned, PlannedWrite, table_of};
pub use references::referenced;
pub use refusals::{no_parent, no_room};
pub use update::with_sets;
pub use write::{Cond, Scope, SetCol, Write};
pub use writes::{plan_with_rows, plan_write};
