//! What each definition adds to a catalog, or why it is refused.
#![tactic(auto)]

mod counter_checks;
mod new_column;
mod new_counter;
mod new_table;
mod table_checks;

pub use counter_checks::check_counter;
pub use new_column::add_column;
pub use new_counter::add_counter;
pub use new_table::{add_query, add_table};
pub use table_checks::{DEFINITIONS, TABLES};
