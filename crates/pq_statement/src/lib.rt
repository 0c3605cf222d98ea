//! What a statement asks for, as far as the definitions decide it: no call of a store plays a part.
#![tactic(auto)]

mod requests;

pub use requests::{ReadRequest, Request, RunRequest, asked};
