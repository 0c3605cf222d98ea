//! The pieces of a script, and the tokens of a text.
//!
//! A `Splitter` cuts a script that comes in parts of any lengths behind each `;` outside texts and
//! comments. `tokens` gives the words, numbers, texts, marks and other characters of a text with
//! their places.
#![tactic(auto)]

mod byte;
pub mod laws;
mod piece;
mod scan;
mod script;
mod splitter;
mod state;
mod token;

pub use piece::Piece;
pub use scan::{next_token, tokens};
pub use script::{CutScript, cut_script};
pub use splitter::Splitter;
pub use token::{Kind, Token};
