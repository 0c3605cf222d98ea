//! What the definitions promise by themselves, of texts, queries, contents and pages.
#![tactic(auto)]

pub mod laws;
