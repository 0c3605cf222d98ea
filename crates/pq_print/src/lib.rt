//! The texts of reports, and the canonical texts of definitions.
//!
//! Each call appends or gives exactly the text that its definition in specs/ says. After `NoMem`
//! what a text was to be appended to is as before.
#![tactic(auto)]

mod added;
mod canonical;
mod costs;
mod counter;
mod names;
mod number;
mod part;
mod print;
mod query;
mod refusal;
mod report;
mod table;
mod value;

pub use canonical::print_definition;
pub use print::{print_damage, print_opening, print_report, report_bytes};
pub use query::print_query;
pub use refusal::put_refusal;
pub use report::{End, IndexCol, Line, Opened, Report};
pub use table::print_table;
pub use value::print_row;
