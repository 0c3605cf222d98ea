//! A store of pairs in one table of an SQLite database, in memory or in a file that sqlite3 reads.
//!
//! It is a store as any other that tells no content: what the database holds is no fact of a proof.
//! Proved is what every store promises of the form of its answers, of its costs and of its faults.
#![tactic(auto)]

mod database;
mod file;
mod kept;
mod sql_store;
mod statements;

pub use file::FileSqlStore;
pub use sql_store::SqlStore;
