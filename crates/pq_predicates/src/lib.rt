//! What a query's predicates fix, and what bounds its relations.
//!
//! Each call equals its definition in `pq_schema`, and none but `position_columns` needs memory. Relations
//! and limits are numbered from 1, columns from 0.
#![tactic(auto)]

mod position;
mod relations;
mod tables;
mod total;

pub use position::position_columns;
pub use relations::{belongs_to, fixed, order_rest, range_on, ties};
pub use tables::{data_bound, is_lookup, is_primary, limit_of, table_number, table_of};
pub use total::is_total;
