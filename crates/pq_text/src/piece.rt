//! Pieces of a script.

use pq_base::PText;

/// What a piece of a script is that isn't blank.
#[derive(Drop)]
pub enum Piece {
    /// A text with its `;`.
    Statement(PText),
    /// At most 65,536 bytes that aren't UTF-8.
    NotUtf8,
    /// More than 65,536 bytes.
    TooLong,
}
