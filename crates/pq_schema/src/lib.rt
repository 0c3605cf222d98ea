//! Tables, queries, and the rules by which a query is bounded.
#![tactic(auto)]

mod catalog;
mod column_names;
mod counter;
mod definition;
pub mod laws;
mod made;
mod query;
mod sequences;
mod table;

pub use catalog::Catalog;
pub use column_names::{check_known, check_names, check_repeated, names_of, place_of, places_of};
pub use counter::Counter;
pub use definition::{AlterDef, ColumnDef, CounterDef, ForeignDef, LimitDef, TableDef};
pub use made::{Def, Definition, Made};
pub use query::{ColRef, Operand, OrderItem, Pred, Query, Relation, Stop, param_type};
pub use sequences::{
    begins, columns_in, dirs_of, group_access, index_begins, index_sequence, part_at,
    primary_begins, sequence,
};
pub use table::{
    Access, Column, Foreign, Index, KeyPart, Limit, NewIndex, Referring, Table, find_column,
    same_kind, type_at,
};
