//! What a run reads and writes: sources and sinks, the words of a command line, and the lines as they are made.
#![tactic(auto)]

mod command_line;
mod memory;
mod outside;
mod reading;
mod standard;
mod stop;
mod writing;

pub use command_line::{WordsErr, read_words};
pub use memory::{MemSink, MemSource};
pub use outside::{Failed, Sink, Source, write_all};
pub use reading::{Ending, LIMIT, read_past_limit};
pub use standard::{StdSink, StdSource};
pub use stop::Stop;
pub use writing::{write_damage, write_opening, write_report, write_summary, write_text};
