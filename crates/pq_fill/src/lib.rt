//! The words of a run, and the generated script with the summary of its reports.
//!
//! `form_of` tells which run some words ask for, and `count_in` which number a word spells. `fill_statement` gives a statement of the script for
//! so many users by its number alone, and `fill_kind` what is counted of it. `Summary` keeps the
//! numbers of the reports that it is told of, and no report; `print_summary` appends their text.
#![tactic(auto)]

mod item;
pub mod laws;
mod numbers;
mod script;
mod summary;
mod text;
mod words;

pub use item::Kind;
pub use script::{fill_count, fill_kind, fill_statement};
pub use summary::{Summary, print_summary};
pub use words::{Form, count_in, form_of};
