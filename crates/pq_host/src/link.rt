//! One exchange with the host: a request, and the answer to it.
ghost use Rattle.std.specs.Prelude.{◌≡◌, ℕ, ◌≤◌, ◌==◌, ◌+◌, ◌++◌, List, true, false, IfOk, OnOk, OnErr, IsErrOf, length, min};
ghost use Rattle.std.specs.Io.KnownBytes.{Appends, Consumes};
ghost use Rattle.pq_host.specs.Ends.{HasBegun, HasExchanged, HasFailed, Exchanges, Fails};
ghost use Rattle.pq_host.specs.Frames.{number, request, places_request, rounds_request, answer, answer_head, keys_body};

use crate::answer::{Head, read_head, read_keys};
use crate::line::{Line, Turn};
use crate::request::{MOST, Op, head, range_body};
use pq_base::{Bytes, List, NoMem};
use pq_store::StoreErr;
use std::alloc::Global;
use std::io::{self, Read, Write};
use std::marker::Model;

/// The bytes that an answer's body may have.
const BODY_MOST: usize = 67_108_864;

/// The bytes of a body for which memory is taken at once.
const STEP: usize = 4_096;

/// The byte of both ends of the empty range whose pairs a host is asked for.
const NO_KEY: u8 = 0xff;

/// How many pairs a host says are in the empty range, where it answers several questions at once.
const KNOWN: u32 = 2;

/// The two streams of a line. After the first answer that is none they are of no more use to any end.
///
/// A request is sent by the end that has the line's turn, and the turn is given back behind a whole answer alone. So
/// where an answer is none nobody gets the turn again.
#[derive(Drop)]
pub struct Link<'a, R: Read, W: Write> {
    line: &'a Line,
    /// The line's turn, while the last request of this end has no answer.
    turn: Option<Turn>,
    reader: R,
    writer: W,
}

impl<'a, R: Read, W: Write> Model for Link<'a, R, W> {
    ghost use Rattle.std.specs.Prelude.{is_some};
    ghost use Rattle.pq_host.specs.Ends.{LinkEnds};

    ghost Value = { LinkEnds };

    ghost view = { λ l. record {
      left = R.remaining l.reader;
      sent = W.contents l.writer;
      unanswered = is_some l.turn;
    } };
}

impl<'a, R: Read, W: Write> Link<'a, R, W> {
    /// Answers come from the reader, and requests go to the writer.
    pub fn new(line: &'a Line, reader: R, writer: W) -> Link<'a, R, W>
        ensures { result ≡ record { left = R.remaining reader; sent = W.contents writer; unanswered = false } }
    {
        Link {
            line,
            turn: None,
            reader,
            writer,
        }
    }

    // Takes the turn, which is not to be had while a request has no answer, of this end or of another one.
    fn begin(&mut self) -> Result<(), StoreErr>
        ensures began { OnOk result ((self.old.unanswered ≡ false)
            × (self.new ≡ record self.old { unanswered = true })) }
        ensures not { OnErr result (self.new ≡ self.old) }
        ensures failed { ¬ IsErrOf result StoreErr.NoMem }
    {
        if self.turn.is_some() {
            return Err(StoreErr::Failed);
        }
        match self.line.take() {
            Some(turn) => {
                self.turn = Some(turn);
                Ok(())
            }
            None => Err(StoreErr::Failed),
        }
    }

    /// The answer is whole, and says what was asked: the turn is given back.
    pub(crate) fn answered(&mut self)
        ensures { self.new ≡ record self.old { unanswered = false } }
    {
        if let Some(turn) = self.turn.take() {
            self.line.give_back(turn);
        }
    }

    // Only who has the turn sends.
    fn send(&mut self, op: Op, node: u8, body: &[u8]) -> io::Result<()>
        requires fits { length body.now ≤ 16777213 }
        requires turn { self.old.unanswered ≡ true }
        ensures sent { OnOk result (Appends self.old.sent self.new.sent (request op node body.now)) }
        ensures left { self.new.left ≡ self.old.left }
        ensures unanswered { self.new.unanswered ≡ true }
    {
        self.writer.write_all(&head(op, node, body.len() as u32))?;
        self.writer.write_all(body)?;
        self.writer.flush()
    }

    /// Sends a request, and says how many bytes the body of its answer has. One that is too long isn't sent.
    pub(crate) fn ask(
        &mut self,
        op: Op,
        node: u8,
        body: &[u8],
        most: usize,
    ) -> Result<usize, StoreErr>
        ensures few { IfOk result (λ n. n ≤ most) }
        ensures asked { IfOk result (λ n. HasBegun self.old self.new (request op node body.now) (answer_head n)) }
        ensures failed { OnErr result (HasFailed self.old self.new (request op node body.now)) }
        ensures no_memory { ¬ IsErrOf result StoreErr.NoMem }
    {
        if body.len() > MOST {
            return Err(StoreErr::Failed);
        }
        self.begin()?;
        if self.send(op, node, body).is_err() {
            return Err(StoreErr::Failed);
        }
        match read_head(self.exact::<6>()?) {
            Some(Head::Done(len)) if len as usize <= most => Ok(len as usize),
            Some(Head::Failed) => {
                self.answered();
                Err(StoreErr::Failed)
            }
            _ => Err(StoreErr::Failed),
        }
    }

    /// The next bytes of an answer.
    pub(crate) fn fill(&mut self, room: &mut [u8]) -> Result<(), StoreErr>
        ensures heard { OnOk result (Consumes self.old.left self.new.left room.new) }
        ensures sent { self.new.sent ≡ self.old.sent }
        ensures unanswered { self.new.unanswered ≡ self.old.unanswered }
        ensures failed { ¬ IsErrOf result StoreErr.NoMem }
    {
        match self.reader.read_exact(room) {
            Ok(()) => Ok(()),
            Err(_) => Err(StoreErr::Failed),
        }
    }

    // The next N bytes of an answer.
    fn exact<const N: usize>(&mut self) -> Result<[u8; N], StoreErr>
        ensures heard { IfOk result (λ bytes. Consumes self.old.left self.new.left bytes) }
        ensures sent { self.new.sent ≡ self.old.sent }
        ensures unanswered { self.new.unanswered ≡ self.old.unanswered }
        ensures failed { ¬ IsErrOf result StoreErr.NoMem }
    {
        let mut room = [0u8; N];
        self.fill(&mut room)?;
        Ok(room)
    }

    /// The body of the answer to a request, which has just N bytes. It takes no memory.
    pub(crate) fn ask_exact<const N: usize>(
        &mut self,
        op: Op,
        node: u8,
        body: &[u8],
    ) -> Result<[u8; N], StoreErr>
        ensures asked { IfOk result (λ found. HasBegun self.old self.new (request op node body.now) (answer found)) }
        ensures failed { OnErr result (HasFailed self.old self.new (request op node body.now)) }
        ensures no_memory { ¬ IsErrOf result StoreErr.NoMem }
    {
        if self.ask(op, node, body, N)? != N {
            return Err(StoreErr::Failed);
        }
        self.exact::<N>()
    }

    // Puts the next bytes of an answer, of which so many are left, behind those that came before them.
    fn extend(&mut self, alloc: Global, left: usize, body: &mut Bytes) -> Result<(), StoreErr>
        ensures heard { OnOk result ((step : List ℕ) × (body.new ≡ body.old ++ step)
            × (length step ≡ min left 4096) × Consumes self.old.left self.new.left step) }
        ensures sent { self.new.sent ≡ self.old.sent }
        ensures unanswered { self.new.unanswered ≡ self.old.unanswered }
    {
        let mut step = [0u8; STEP];
        let step = &mut step[..left.min(STEP)];
        self.fill(step)?;
        match body.extend(alloc, step) {
            Ok(()) => Ok(()),
            Err(NoMem) => Err(StoreErr::NoMem),
        }
    }

    // The next `len` bytes of an answer. Memory is taken as they come.
    fn body(&mut self, alloc: Global, len: usize) -> Result<Bytes, StoreErr>
        ensures len { IfOk result (λ body. length body ≡ len) }
        ensures heard { IfOk result (λ body. Consumes self.old.left self.new.left body) }
        ensures sent { self.new.sent ≡ self.old.sent }
        ensures unanswered { self.new.unanswered ≡ self.old.unanswered }
    {
        let mut body = Bytes::new(alloc);
        while body.items().len() < len {
            self.extend(alloc, len - body.items().len(), &mut body)?;
        }
        Ok(body)
    }

    /// The body of the answer to a request that changes nothing.
    pub(crate) fn ask_body(
        &mut self,
        alloc: Global,
        op: Op,
        node: u8,
        body: &[u8],
    ) -> Result<Bytes, StoreErr>
        ensures asked { IfOk result (λ found. HasBegun self.old self.new (request op node body.now) (answer found)) }
        ensures failed { OnErr result (HasFailed self.old self.new (request op node body.now)) }
    {
        let len = self.ask(op, node, body, BODY_MOST)?;
        self.body(alloc, len)
    }

    /// The first keys of the host's nodes, at most 64, as the host tells them.
    pub fn first_keys(&mut self, alloc: Global) -> Result<List<Bytes>, StoreErr>
        ensures asks { Exchanges self.old self.new places_request keys_body result }
        ensures few { IfOk result (λ keys. length keys ≤ 64) }
    {
        let body = self.ask_body(alloc, Op::Places, 0, &[])?;
        let keys = read_keys(alloc, body.items())?;
        self.answered();
        Ok(keys)
    }

    /// Whether the host answers several questions at once. It is asked once, before all calls of a store.
    pub fn knows_rounds(&mut self, alloc: Global) -> Result<bool, StoreErr>
        ensures exchanged { IfOk result (λ knows. (n : ℕ) × (knows ≡ (n == 2))
            × HasExchanged self.old self.new rounds_request (answer (number n))) }
        ensures fails { Fails self.old self.new rounds_request result }
    {
        let body = range_body(alloc, &[NO_KEY], &[NO_KEY], KNOWN)?;
        let number = self.ask_exact::<4>(Op::Count, 0, body.items())?;
        let n = u32::from_be_bytes(number);
        if n > KNOWN {
            return Err(StoreErr::Failed);
        }
        self.answered();
        Ok(n == KNOWN)
    }
}
