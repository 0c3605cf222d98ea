//! INSERT, UPDATE and DELETE over a store, alone or in a BATCH, and READ of a counter.
#![tactic(auto)]

mod batch;
mod read;
mod write;

pub use batch::make_batch;
pub use read::read_count;
pub use write::make_write;
