//! The states of a scan that looks for the end of a piece.
ghost use Rattle.std.specs.Prelude.{◌≡◌};
ghost use Rattle.pq_text.specs.Cutting.{next, next_plain, cuts, shows, is_dash};

use crate::byte::white;

/// What the bytes so far leave open. A dash is plain until a second one makes it a comment.
#[derive(Clone, Copy, PartialEq, Eq)]
pub enum State {
    Plain,
    Dash,
    Text,
    Comment,
}

fn plain(byte: u8) -> State
    ensures { result ≡ next_plain byte }
{
    match byte {
        b'\'' => State::Text,
        b'-' => State::Dash,
        _ => State::Plain,
    }
}

impl State {
    /// The state behind one more byte.
    pub fn next(self, byte: u8) -> State
        ensures { result ≡ next self byte }
    {
        match self {
            State::Plain => plain(byte),
            State::Dash => {
                if byte == b'-' {
                    State::Comment
                } else {
                    plain(byte)
                }
            }
            State::Text => {
                if byte == b'\'' {
                    State::Plain
                } else {
                    State::Text
                }
            }
            State::Comment => {
                if byte == b'\n' {
                    State::Plain
                } else {
                    State::Comment
                }
            }
        }
    }

    /// Whether a piece ends with this byte.
    pub fn cuts(self, byte: u8) -> bool
        ensures { result ≡ cuts self byte }
    {
        match self {
            State::Plain | State::Dash => byte == b';',
            State::Text | State::Comment => false,
        }
    }

    /// Whether this byte shows one outside comments that is neither white nor the end of a piece.
    pub fn shows(self, byte: u8) -> bool
        ensures { result ≡ shows self byte }
    {
        match self {
            State::Plain => !(white(byte) || byte == b'-' || byte == b';'),
            State::Dash => byte != b'-',
            State::Text => true,
            State::Comment => false,
        }
    }

    /// Whether a dash stands last that may begin a comment.
    pub fn is_dash(self) -> bool
        ensures { result ≡ is_dash self }
    {
        match self {
            State::Dash => true,
            _ => false,
        }
    }
}
