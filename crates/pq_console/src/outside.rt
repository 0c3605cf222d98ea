//! What a script is read from and what its reports are written to.
ghost use Rattle.std.specs.Prelude.{◌≡◌, ℕ, ◌+◌, ◌<◌, ◌≤◌, List, Option, length, take, IfOk, OnOk, OnErr};
ghost use Rattle.std.specs.Io.KnownBytes.{append_known, prepend_known, IsAtEnd};
ghost use Rattle.pq_console.specs.Outside.{HasFaultCause, IsCut};

use thiserror::Error;

/// A call of a source or a sink failed.
#[derive(Debug, Clone, Copy, PartialEq, Eq, Error)]
#[error("the source or the sink failed")]
pub struct Failed;

/// Where the bytes of a script come from.
pub trait Source {
    /// The bytes that are left, where it tells.
    ghost left: { Self → Option (List ℕ) };

    /// How many bytes were taken of it so far, whether it tells them or not.
    ghost count: { Self → ℕ };

    /// How often it has failed.
    ghost faults: { Self → ℕ };

    /// Puts the next bytes at the front of the room and says how many they are: none only at the
    /// end. A call that failed took none.
    fn read(&mut self, room: &mut [u8]) -> Result<usize, Failed>
        requires { 0 < length room.old }
        ensures within { IfOk result (λ n. n ≤ length room.old) }
        ensures taken { IfOk result (λ n. left self.old ≡ prepend_known (take n room.new) (left self.new)) }
        ensures end { IfOk result (λ n. n ≡ 0 → IsAtEnd (left self.new)) }
        ensures kept { OnErr result (left self.new ≡ left self.old) }
        ensures counted { IfOk result (λ n. count self.new ≡ count self.old + n) }
        ensures uncounted { OnErr result (count self.new ≡ count self.old) }
        ensures cause { HasFaultCause (faults self.old) (faults self.new) result };
}

/// Where the reports go.
pub trait Sink {
    /// The bytes that it holds, where it tells.
    ghost held: { Self → Option (List ℕ) };

    /// How often it has failed.
    ghost faults: { Self → ℕ };

    /// Takes the first bytes of the piece and says how many they are, at least one. A call that
    /// failed took none.
    fn write(&mut self, piece: &[u8]) -> Result<usize, Failed>
        requires { 0 < length piece.now }
        ensures some { IfOk result (λ n. 0 < n) }
        ensures within { IfOk result (λ n. n ≤ length piece.now) }
        ensures held { IfOk result (λ n. held self.new ≡ append_known (held self.old) (take n piece.now)) }
        ensures kept { OnErr result (held self.new ≡ held self.old) }
        ensures cause { HasFaultCause (faults self.old) (faults self.new) result };
}

/// Writes the whole text, or a first part of it where the sink fails.
pub fn write_all<O: Sink>(sink: &mut O, text: &[u8]) -> Result<(), Failed>
    ensures ok { OnOk result (O.held sink.new ≡ append_known (O.held sink.old) text.now) }
    ensures err { OnErr result ((part : List ℕ) × IsCut part text.now
        × (O.held sink.new ≡ append_known (O.held sink.old) part)) }
    ensures cause { HasFaultCause (O.faults sink.old) (O.faults sink.new) result }
{
    let mut at = 0;
    while at < text.len() {
        at += sink.write(&text[at..])?;
    }
    Ok(())
}
