//! Definitions: CREATE TABLE, ALTER TABLE, CREATE COUNTER, and PREPARE of a query that wants no index, over a store.
#![tactic(auto)]

mod alter;
mod counter;
mod define;

pub use alter::add_column;
pub use counter::create_counter;
pub use define::{create, write_query};
