//! A store, a reader and a writer whose other end is a host: a program that answers framed requests over two streams.
//!
//! The store is a store as any other that tells no content: what the host keeps is no fact of a proof. Proved is what
//! every store promises of the form of its answers, of its costs and of its faults, whatever bytes come; and of each
//! call that is answered, which bytes were sent, and that its answer is what the bytes that were read say. After an
//! answer that is none nothing is sent or read any more, and each call fails. The frames are those of docs/HOST.md.
#![tactic(auto)]

mod answer;
mod host_store;
mod line;
mod link;
mod payment;
mod request;
mod rounds;
mod streams;

pub use host_store::HostStore;
pub use line::Line;
pub use link::Link;
pub use streams::{HostReader, HostWriter};
