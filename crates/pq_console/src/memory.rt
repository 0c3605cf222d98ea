//! A source and a sink in memory, whose listed calls fail.
ghost use Rattle.std.specs.Prelude.{◌≡◌, ◌≤◌, ◌<◌, ◌+◌, ◌-◌, ◌↔◌, ◌++◌, [], List, min, take, drop, length, OnErr, IfOk, IsTrue, IsErr};
ghost use Rattle.pq_store.specs.Content.{HasRisen};
ghost use Rattle.pq_console.specs.Outside.{HasFaultCause};
ghost use Rattle.pq_console.specs.Memory.{is_listed, calls_after, is_refusing};

use crate::outside::{Failed, Sink, Source};
use pq_base::{Bytes, List, NoMem};
use std::alloc::Global;
use std::marker::Model;

// The calls of a source or a sink.
#[derive(Drop)]
struct Calls {
    fails: List<u64>,
    made: u64,
    faults: u64,
}

impl Model for Calls {
    ghost use Rattle.pq_console.specs.Memory.{Calls};

    ghost Value = { Calls };

    ghost view = { λ c. record { fails = c.fails; made = c.made; faults = c.faults } };
}

impl Calls {
    fn new(fails: List<u64>) -> Calls
        ensures fails { result.fails ≡ fails }
        ensures made { result.made ≡ 0 }
        ensures faults { result.faults ≡ 0 }
    {
        Calls {
            fails,
            made: 0,
            faults: 0,
        }
    }

    // Whether the next call is listed.
    fn is_listed(&self) -> bool
        ensures { result ≡ is_listed self.now }
    {
        let number = u128::from(self.made) + 1;
        self.fails
            .items()
            .iter()
            .any(|fail| u128::from(*fail) == number)
    }

    // Counts a call.
    fn count(&mut self, failed: bool)
        ensures called { self.new ≡ calls_after failed self.old }
        ensures later { self.old.faults ≤ self.new.faults }
        ensures risen { IsTrue failed → HasRisen self.old.faults self.new.faults }
    {
        self.made = self.made.saturating_add(1);
        if failed {
            self.faults = self.faults.saturating_add(1);
        }
    }
}

/// A source in memory. It fails exactly at the listed calls, and its count is the number of these.
#[derive(Drop)]
pub struct MemSource {
    bytes: Bytes,
    at: usize,
    calls: Calls,
}

impl Model for MemSource {
    ghost use Rattle.std.specs.Prelude.{drop, length, ◌≤◌};
    ghost use Rattle.pq_console.specs.Memory.{GivenBytes};

    ghost Value = { GivenBytes };

    ghost view = { λ s. record { left = drop s.at s.bytes; count = s.at; calls = s.calls } };

    ghost invariant = { λ s. s.at ≤ length s.bytes };
}

impl MemSource {
    /// The source of these bytes. Its calls are numbered from 1, and the listed ones fail.
    pub fn new(bytes: Bytes, fails: List<u64>) -> MemSource
        ensures left { result.left ≡ bytes }
        ensures count { result.count ≡ 0 }
        ensures fails { result.calls.fails ≡ fails }
        ensures made { result.calls.made ≡ 0 }
        ensures faults { result.calls.faults ≡ 0 }
    {
        MemSource {
            bytes,
            at: 0,
            calls: Calls::new(fails),
        }
    }

    // Puts the next bytes at the front of the room.
    fn give(&mut self, room: &mut [u8]) -> usize
        ensures size { result ≡ min (length room.old) (length self.old.left) }
        ensures taken { self.old.left ≡ take result room.new ++ self.new.left }
        ensures counted { self.new.count ≡ self.old.count + result }
        ensures calls { self.new.calls ≡ self.old.calls }
    {
        let bytes = self.bytes.items();
        let n = room.len().min(bytes.len() - self.at);
        room[..n].copy_from_slice(&bytes[self.at..self.at + n]);
        self.at += n;
        n
    }
}

impl Source for MemSource {
    ghost use Rattle.std.specs.Prelude.{Some};

    ghost left = { λ s. Some s.left };

    ghost count = { λ s. s.count };

    ghost faults = { λ s. s.calls.faults };

    fn read(&mut self, room: &mut [u8]) -> Result<usize, Failed>
        requires { 0 < length room.old }
        ensures size { IfOk result (λ n. n ≡ min (length room.old) (length self.old.left)) }
        ensures taken { IfOk result (λ n. self.old.left ≡ take n room.new ++ self.new.left) }
        ensures end { IfOk result (λ n. n ≡ 0 → self.new.left ≡ []) }
        ensures kept { OnErr result (self.new.left ≡ self.old.left) }
        ensures counted { IfOk result (λ n. self.new.count ≡ self.old.count + n) }
        ensures uncounted { OnErr result (self.new.count ≡ self.old.count) }
        ensures cause { HasFaultCause self.old.calls.faults self.new.calls.faults result }
        ensures failed { IsErr result ↔ IsTrue (is_listed self.old.calls) }
        ensures calls { self.new.calls ≡ calls_after (is_listed self.old.calls) self.old.calls }
    {
        let listed = self.calls.is_listed();
        self.calls.count(listed);
        if listed {
            return Err(Failed);
        }
        Ok(self.give(room))
    }
}

/// A sink in memory. It fails exactly at the listed calls and where it is full, and its count is
/// the number of these calls.
#[derive(Drop)]
pub struct MemSink {
    bytes: Vec<u8>,
    used: usize,
    calls: Calls,
}

impl Model for MemSink {
    ghost use Rattle.std.specs.Prelude.{take, length, ◌≤◌};
    ghost use Rattle.pq_console.specs.Memory.{TakenBytes};

    ghost Value = { TakenBytes };

    ghost view = { λ s. record { held = take s.used s.bytes.items; room = length s.bytes.items; calls = s.calls } };

    ghost invariant = { λ s. s.used ≤ length s.bytes.items };
}

impl MemSink {
    /// An empty sink that holds so many bytes at most. It takes its memory here and none later. Its
    /// calls are numbered from 1, and the listed ones fail.
    pub fn new(alloc: Global, room: u32, fails: List<u64>) -> Result<MemSink, NoMem>
        ensures held { IfOk result (λ sink. sink.held ≡ []) }
        ensures room { IfOk result (λ sink. sink.room ≡ room) }
        ensures fails { IfOk result (λ sink. sink.calls.fails ≡ fails) }
        ensures made { IfOk result (λ sink. sink.calls.made ≡ 0) }
        ensures faults { IfOk result (λ sink. sink.calls.faults ≡ 0) }
    {
        Ok(MemSink {
            bytes: vec![in alloc; 0; room as usize]?,
            used: 0,
            calls: Calls::new(fails),
        })
    }

    /// What it holds.
    pub fn held(&self) -> &[u8]
        ensures { result.now ≡ self.now.held }
    {
        &self.bytes[..self.used]
    }

    // Takes the first bytes of the piece, as many as there is room for.
    fn take(&mut self, piece: &[u8]) -> usize
        ensures size { result ≡ min (length piece.now) (self.old.room - length self.old.held) }
        ensures held { self.new.held ≡ self.old.held ++ take result piece.now }
        ensures room { self.new.room ≡ self.old.room }
        ensures calls { self.new.calls ≡ self.old.calls }
    {
        let n = piece.len().min(self.bytes.len() - self.used);
        self.bytes[self.used..self.used + n].copy_from_slice(&piece[..n]);
        self.used += n;
        n
    }
}

impl Sink for MemSink {
    ghost use Rattle.std.specs.Prelude.{Some};

    ghost held = { λ s. Some s.held };

    ghost faults = { λ s. s.calls.faults };

    fn write(&mut self, piece: &[u8]) -> Result<usize, Failed>
        requires { 0 < length piece.now }
        ensures size { IfOk result (λ n. n ≡ min (length piece.now) (self.old.room - length self.old.held)) }
        ensures some { IfOk result (λ n. 0 < n) }
        ensures held { IfOk result (λ n. self.new.held ≡ self.old.held ++ take n piece.now) }
        ensures kept { OnErr result (self.new.held ≡ self.old.held) }
        ensures cause { HasFaultCause self.old.calls.faults self.new.calls.faults result }
        ensures room { self.new.room ≡ self.old.room }
        ensures failed { IsErr result ↔ IsTrue (is_refusing self.old) }
        ensures calls { self.new.calls ≡ calls_after (is_refusing self.old) self.old.calls }
    {
        let full = self.used == self.bytes.len();
        let refused = self.calls.is_listed() || full;
        self.calls.count(refused);
        if refused {
            return Err(Failed);
        }
        Ok(self.take(piece))
    }
}
