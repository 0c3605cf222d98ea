//! Tokens: what kind each is of, and where it stands.

/// What a token is.
#[derive(Clone, Copy, PartialEq, Eq)]
pub enum Kind {
    /// A letter or `_`, then letters, digits and `_`.
    Word,
    /// Digits, with a `-` directly before them or not.
    Number,
    /// What stands between single quotes, with the quotes; a quote inside is written twice.
    Text,
    /// One of `( ) , ; . [ ] : * = < > <= >= <>`.
    Mark,
    /// Another character, or a text that isn't closed, up to the end.
    Other,
}

/// A token: the bytes from `from` up to and without `to`, counted from the start of the text.
#[derive(Clone, Copy, PartialEq, Eq)]
pub struct Token {
    pub kind: Kind,
    pub from: u32,
    pub to: u32,
}
