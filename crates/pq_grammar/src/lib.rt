//! Grammars as sets of token lists, and reading by them from left to right.
//!
//! `specs/` has the words in which a grammar is written down and the readers that belong to them, `proofs/` that
//! a reader joined from such readers reads exactly what its grammar spells, and stops at the first token with
//! which nothing goes on. Nothing here knows a language: the tokens may be of any type.
#![tactic(auto)]

mod fault;

pub use fault::ReadError;
