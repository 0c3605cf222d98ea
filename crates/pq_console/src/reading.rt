//! How far a source is read.
ghost use Rattle.std.specs.Prelude.{◌≡◌, ◌≤◌, ◌+◌, ℕ, List, Option, length};
ghost use Rattle.std.specs.Io.KnownBytes.{prepend_known};
ghost use Rattle.pq_store.specs.Content.{HasRisen};
ghost use Rattle.pq_console.specs.Reading.{TookBytes, bytes_past, script_limit};

use crate::outside::{Failed, Source};

/// The bytes that a script may have.
pub const LIMIT: usize = 16_777_216;

/// How the reading of a script ended.
#[derive(Clone, Copy, PartialEq, Eq)]
pub enum Ending {
    /// At the end of the source, within the limit.
    Whole,
    /// A read failed.
    Faulted,
    /// More bytes came than a script may have.
    TooLong,
}

/// How the reading ends where as many bytes were read as a script may have: by one read more.
pub fn read_past_limit<I: Source>(source: &mut I) -> Ending
    ensures took { (bytes : List ℕ) → length bytes ≡ script_limit → (left : Option (List ℕ))
        → left ≡ prepend_known bytes (I.left source.old) → TookBytes result left (I.left source.new) bytes }
    ensures taken { (taken : List ℕ) × (I.left source.old ≡ prepend_known taken (I.left source.new))
        × (length taken ≤ 1) }
    ensures counted { I.count source.new ≡ I.count source.old + bytes_past result }
    ensures later { I.faults source.old ≤ I.faults source.new }
    ensures cause { result ≡ Ending.Faulted → HasRisen (I.faults source.old) (I.faults source.new) }
{
    let mut room = [0u8; 1];
    match source.read(&mut room) {
        Err(Failed) => Ending::Faulted,
        Ok(n) => {
            if n == 0 {
                Ending::Whole
            } else {
                Ending::TooLong
            }
        }
    }
}
