//! Reading every statement but a query: what its tokens spell, or the place of the first token that fits none.
//!
//! `read_statement` answers a statement exactly where the tokens spell it, and otherwise refuses with the offset
//! of the first token such that no statement begins with the tokens up to and with it. Of PREPARE, EXPLAIN and SELECT
//! it reads the head alone. `read_text` reads the same from a text, without a list of its tokens.
#![tactic(auto)]

mod definition;
mod known;
mod reading;
mod statement;
mod write;
mod writes;

pub use reading::{read_statement, read_text};
pub use statement::Statement;
pub use write::{Assign, CondDef, SetDef, Setting, WriteDef};
