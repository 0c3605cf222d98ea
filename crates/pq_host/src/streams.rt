//! The script and the reports, at the host.
ghost use Rattle.std.specs.Prelude.{◌≡◌};

use crate::link::Link;
use crate::request::{Op, PIECE};
use std::io::{self, ErrorKind, Read, Write};
use std::marker::Model;

/// The reader of the script. Each read is one request, for at most 65,536 bytes.
#[derive(Drop)]
pub struct HostReader<'a, R: Read, W: Write> {
    link: Link<'a, R, W>,
}

impl<'a, R: Read, W: Write> Model for HostReader<'a, R, W> {
    ghost use Rattle.pq_host.specs.Ends.{LinkEnds};

    ghost Value = { LinkEnds };

    ghost view = { λ r. r.link };
}

impl<'a, R: Read, W: Write> HostReader<'a, R, W> {
    /// The reader of what the host has for a script.
    pub fn new(link: Link<'a, R, W>) -> HostReader<'a, R, W>
        ensures { result ≡ link.entry }
    {
        HostReader { link }
    }
}

impl<'a, R: Read, W: Write> Read for HostReader<'a, R, W> {
    ghost use Rattle.std.specs.Prelude.{◌≡◌, ◌<◌, ℕ, List, None, IfOk, OnErr, length, take, min};
    ghost use Rattle.std.specs.Io.{ReadsAtMost};
    ghost use Rattle.pq_host.specs.Ends.{HasExchanged, HasFailed, StaysBroken};
    ghost use Rattle.pq_host.specs.Frames.{read_request, answer};

    /// Asks for as many bytes as there is room for. Where there is none, nothing is asked.
    fn read(&mut self, buf: &mut [u8]) -> io::Result<usize>
        ensures bound { ReadsAtMost result buf.new }
        ensures exchanged { 0 < length buf.new → IfOk result (λ n. HasExchanged self.old self.new
            (read_request (min (length buf.new) 65536)) (answer (take n buf.new))) }
        ensures failed { OnErr result (HasFailed self.old self.new (read_request (min (length buf.new) 65536))) }
        ensures broken { 0 < length buf.new → StaysBroken self.old self.new result }
        ensures unasked { length buf.new ≡ 0 → self.new ≡ self.old }
    {
        let room = buf.len().min(PIECE);
        if room == 0 {
            return Ok(0);
        }
        let asked = (room as u32).to_be_bytes();
        let Ok(len) = self.link.ask(Op::Read, 0, &asked, room) else {
            return Err(io::Error::from(ErrorKind::Other));
        };
        match self.link.fill(&mut buf[..len]) {
            Ok(()) => {
                self.link.answered();
                Ok(len)
            }
            Err(_) => Err(io::Error::from(ErrorKind::Other)),
        }
    }
}

/// The writer of the reports. Each write is one request, with at most 65,536 bytes.
#[derive(Drop)]
pub struct HostWriter<'a, R: Read, W: Write> {
    link: Link<'a, R, W>,
}

impl<'a, R: Read, W: Write> Model for HostWriter<'a, R, W> {
    ghost use Rattle.pq_host.specs.Ends.{LinkEnds};

    ghost Value = { LinkEnds };

    ghost view = { λ w. w.link };
}

impl<'a, R: Read, W: Write> HostWriter<'a, R, W> {
    /// The writer of what the host is to have.
    pub fn new(link: Link<'a, R, W>) -> HostWriter<'a, R, W>
        ensures { result ≡ link.entry }
    {
        HostWriter { link }
    }
}

impl<'a, R: Read, W: Write> Write for HostWriter<'a, R, W> {
    ghost use Rattle.std.specs.Prelude.{◌≡◌, ◌<◌, ℕ, List, [], None, IfOk, OnErr, length, take, min};
    ghost use Rattle.std.specs.Io.{WritesAtMost};
    ghost use Rattle.pq_host.specs.Ends.{HasExchanged, HasFailed, StaysBroken};
    ghost use Rattle.pq_host.specs.Frames.{report_request, answer};

    /// Hands the first bytes over, all where they are at most 65,536. Where there are none, nothing is asked.
    fn write(&mut self, buf: &[u8]) -> io::Result<usize>
        ensures bound { WritesAtMost result buf.now }
        ensures all { IfOk result (λ n. n ≡ min (length buf.now) 65536) }
        ensures exchanged { 0 < length buf.now → IfOk result (λ n. HasExchanged self.old self.new
            (report_request (take n buf.now)) (answer [])) }
        ensures failed { OnErr result
            (HasFailed self.old self.new (report_request (take (min (length buf.now) 65536) buf.now))) }
        ensures broken { 0 < length buf.now → StaysBroken self.old self.new result }
        ensures unasked { length buf.now ≡ 0 → self.new ≡ self.old }
    {
        let len = buf.len().min(PIECE);
        if len == 0 {
            return Ok(0);
        }
        match self.link.ask(Op::Report, 0, &buf[..len], 0) {
            Ok(_) => {
                self.link.answered();
                Ok(len)
            }
            Err(_) => Err(io::Error::from(ErrorKind::Other)),
        }
    }

    /// There is nothing to do: each write ends once the host has answered.
    fn flush(&mut self) -> io::Result<()>
        ensures unasked { self.new ≡ self.old }
    {
        Ok(())
    }
}
