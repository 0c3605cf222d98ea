//! A reader and a writer of the system as source and sink. They tell nothing, and count their faults; the source
//! counts its bytes too.
ghost use Rattle.std.specs.Prelude.{◌≡◌, ◌≤◌, ◌+◌, ◌<◌, length, IfOk, OnErr};
ghost use Rattle.std.specs.Io.KnownBytes.{ReadConsumes, WriteAppends};
ghost use Rattle.pq_console.specs.Outside.{HasFaultCause};

use crate::outside::{Failed, Sink, Source};
use std::io::{Read, Write};

/// A source over a reader. Its count of faults stands still at its last value. A read that could pass the last value
/// of its count of bytes is a fault, and the reader isn't asked.
#[derive(Drop)]
pub struct StdSource<R: Read> {
    reader: R,
    count: u64,
    faults: u64,
}

impl<R: Read> StdSource<R> {
    /// The source of the bytes that the reader gives. None was taken yet, and it has no fault yet.
    pub fn new(reader: R) -> StdSource<R>
        ensures count { result.count ≡ 0 }
        ensures faults { result.faults ≡ 0 }
    {
        StdSource {
            reader,
            count: 0,
            faults: 0,
        }
    }
}

impl<R: Read> Source for StdSource<R> {
    ghost use Rattle.std.specs.Prelude.{None};

    ghost left = { λ _. None };

    ghost count = { λ s. s.count };

    ghost faults = { λ s. s.faults };

    fn read(&mut self, room: &mut [u8]) -> Result<usize, Failed>
        requires { 0 < length room.old }
        ensures within { IfOk result (λ n. n ≤ length room.old) }
        // What the reader gives, if that is known, is just what is passed on and counted.
        ensures passed { ReadConsumes (R.remaining self.old.reader) (R.remaining self.new.reader) result room.new }
        ensures counted { IfOk result (λ n. self.new.count ≡ self.old.count + n) }
        ensures uncounted { OnErr result (self.new.count ≡ self.old.count) }
        ensures cause { HasFaultCause self.old.faults self.new.faults result }
    {
        if room.len() as u64 <= u64::MAX - self.count {
            if let Ok(n) = self.reader.read(room) {
                self.count += n as u64;
                return Ok(n);
            }
        }
        self.faults = self.faults.saturating_add(1);
        Err(Failed)
    }
}

/// A sink over a writer. Its count of faults stands still at its last value.
#[derive(Drop)]
pub struct StdSink<W: Write> {
    writer: W,
    faults: u64,
}

impl<W: Write> StdSink<W> {
    /// The sink that hands its bytes to the writer. It has no fault yet.
    pub fn new(writer: W) -> StdSink<W>
        ensures { result.faults ≡ 0 }
    {
        StdSink { writer, faults: 0 }
    }
}

impl<W: Write> Sink for StdSink<W> {
    ghost use Rattle.std.specs.Prelude.{None};

    ghost held = { λ _. None };

    ghost faults = { λ s. s.faults };

    // A writer that takes nothing is a fault.
    fn write(&mut self, piece: &[u8]) -> Result<usize, Failed>
        requires { 0 < length piece.now }
        ensures some { IfOk result (λ n. 0 < n) }
        ensures within { IfOk result (λ n. n ≤ length piece.now) }
        // What the writer holds, if that is known, grows by just the bytes that are told as taken.
        ensures passed { WriteAppends (W.contents self.old.writer) (W.contents self.new.writer) result piece.now }
        ensures cause { HasFaultCause self.old.faults self.new.faults result }
    {
        match self.writer.write(piece) {
            Ok(n) if n > 0 => Ok(n),
            _ => {
                self.faults = self.faults.saturating_add(1);
                Err(Failed)
            }
        }
    }
}
