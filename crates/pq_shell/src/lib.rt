//! The top call: it runs or checks a script from a source, or runs the generated one, over a store, and writes its
//! reports to a sink.
#![tactic(auto)]

mod filling;
mod run;
mod serving;
mod status;

pub use pq_console::{
    Failed, LIMIT, MemSink, MemSource, Sink, Source, StdSink, StdSource, Stop, WordsErr,
    read_words, write_report, write_text,
};
pub use pq_fill::fill_statement;
pub use run::{close, run_piql};
pub use serving::{Ended, Tally, rest_report, serve};
pub use status::Status;
