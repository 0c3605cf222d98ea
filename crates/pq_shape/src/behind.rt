//! Where the tokens behind the next one are found.
use pq_text::Token;

/// The tokens behind the next one.
#[derive(Clone, Copy)]
pub enum Behind<'a> {
    /// Those of the text from this place on, each found where it is asked for.
    Text(usize),
    /// These.
    Tokens(&'a [Token]),
}
