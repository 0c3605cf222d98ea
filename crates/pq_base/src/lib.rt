//! Values, lists, refusals and word tables: what every other crate stands on.
//!
//! A list is seen by contracts as the list of its items, a text as its bytes, a set of columns as
//! a number whose bits are the columns. Whatever may need memory answers `NoMem` where there is none.
#![tactic(auto)]

mod cell;
mod col_set;
pub mod count_word;
pub mod laws;
mod list;
mod number;
mod op;
mod refusal;
pub mod refusal_place;
mod sum;
mod text;
mod value;
mod word_table;

pub use cell::{copied_value, no_value, value_of};
pub use col_set::ColSet;
pub use list::{Bytes, List, NoMem};
pub use number::{Bound, Choice, Used};
pub use op::{Op, compares, meets};
pub use refusal::{Refusal, Stopped};
pub use sum::added;
pub use text::PText;
pub use value::{
    ColType, DataKind, Dir, Row, Value, all_fit, cmp_positions, cmp_values, fits, has_null,
    known_types, known_value, known_values,
};
pub use word_table::{WordTable, count_words, keyword_table, refusal_numbers, soft_words};
