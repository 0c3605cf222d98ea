//! Reading a query: what its tokens spell, with names in place of numbers, or the place of the first token that
//! fits none; and what that stands for over a catalog, or its first refusal.
#![tactic(auto)]

mod columns;
mod conditions;
mod ordering;
mod params;
mod parts;
mod query;
mod reading;
mod relations;
mod select;

pub use params::ParamUse;
pub use query::read_query;
pub use reading::read_select;
pub use select::{ItemDef, OperandDef, PredDef, RefDef, RelationDef, SelectDef, Selected, StopDef};
