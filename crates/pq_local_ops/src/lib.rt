//! What is made of the combinations of a query without the store: those at which predicates hold, their
//! order, those behind a cursor, the first few, and the selected columns.
//!
//! Each call gives exactly the list that its definition in `pq_plan` names, over whatever tables, rows and
//! parameters stand beside what the call sees (`specs/Lists.antt`).
#![tactic(auto)]

mod keep;
mod moved;
mod order;
mod position;
mod sort;

pub use keep::{first_k, keep_after, keep_matching};
pub use moved::take_selected;
pub use position::{Places, code_at, places_of, position_of, project};
pub use sort::sort_combos;
