//! Cutting a script that comes in parts.
ghost use Rattle.std.specs.Prelude.{◌≡◌, ◌+◌, ◌<◌, ◌≤◌, ◌||◌, ◌++◌, length, take, drop, take_while, IfOk, OnOk, OnErr, List, ℕ, [], nat_lt, Some, None, true, false};
ghost use Rattle.std.specs.List.{list_any};
ghost use Rattle.pq_text.specs.Cutting.{state_behind, is_solid, first_cut, is_quiet, shows};
ghost use Rattle.pq_text.specs.Pieces.{piece_limit, statement, piece_list};
ghost use Rattle.pq_text.specs.Summaries.{start_summary, grown_summary, told_of, taken_of, piece_in, left_in, pieces_from, unfinished_from};
ghost use Rattle.pq_text.specs.declared.state.State.TheVariants as state;

use crate::piece::Piece;
use crate::state::State;
use pq_base::{NoMem, PText};
use std::alloc::Global;
use std::marker::Model;

/// Where a scan stopped: behind the first cut, or at the end of the bytes.
#[derive(Clone, Copy)]
struct Stop {
    len: usize,
    cut: bool,
    state: State,
    solid: bool,
}

fn plain_count(bytes: &[u8]) -> usize
    ensures count { result ≡ length (take_while (is_quiet state.Plain) bytes.now) }
    ensures within { result ≤ length bytes.now }
{
    bytes
        .iter()
        .take_while(|byte| !(**byte == b'\'' || **byte == b'-' || **byte == b';'))
        .count()
}

fn text_count(bytes: &[u8]) -> usize
    ensures count { result ≡ length (take_while (is_quiet state.Text) bytes.now) }
    ensures within { result ≤ length bytes.now }
{
    bytes.iter().take_while(|byte| **byte != b'\'').count()
}

fn comment_count(bytes: &[u8]) -> usize
    ensures count { result ≡ length (take_while (is_quiet state.Comment) bytes.now) }
    ensures within { result ≤ length bytes.now }
{
    bytes.iter().take_while(|byte| **byte != b'\n').count()
}

/// What stands from this place on.
fn behind(bytes: &[u8], len: usize) -> &[u8]
    requires { len ≤ length bytes.now }
    ensures { result.now ≡ drop len bytes.now }
{
    &bytes[len..]
}

/// How many bytes at the front leave this state as it is.
#[tactic(auto, using(crate::proofs::Quiet::no_dash_quiet))]
fn quiet_count(state: State, bytes: &[u8]) -> usize
    ensures count { result ≡ length (take_while (is_quiet state) bytes.now) }
    ensures within { result ≤ length bytes.now }
{
    match state {
        State::Plain => plain_count(bytes),
        State::Dash => 0,
        State::Text => text_count(bytes),
        State::Comment => comment_count(bytes),
    }
}

/// Whether one of these bytes, none of which changes the state, shows one.
fn are_solid(state: State, quiet: &[u8]) -> bool
    ensures { result ≡ list_any (shows state) quiet.now }
{
    quiet.iter().any(|byte| state.shows(*byte))
}

fn still_solid(solid: bool, state: State, quiet: &[u8]) -> bool
    ensures { result ≡ (solid || list_any (shows state) quiet.now) }
{
    solid || are_solid(state, quiet)
}

fn scan(start: State, bytes: &[u8]) -> Stop
    ensures within { result.len ≤ length bytes.now }
    ensures some { 0 < length bytes.now → 0 < result.len }
    ensures cut { result.cut ≡ true → first_cut start bytes.now ≡ Some result.len }
    ensures uncut { result.cut ≡ false → (first_cut start bytes.now ≡ None) × (result.len ≡ length bytes.now) }
    ensures state { result.state ≡ state_behind start (take result.len bytes.now) }
    ensures solid { result.solid ≡ is_solid start (take result.len bytes.now) }
{
    let mut state = start;
    let mut solid = false;
    let mut len = 0;
    'bytes: while len < bytes.len() {
        let rest = behind(bytes, len);
        let quiet = quiet_count(state, rest);
        if quiet > 0 {
            solid = still_solid(solid, state, front(rest, quiet));
            len += quiet;
            continue;
        }
        let byte = bytes[len];
        let cut = state.cuts(byte);
        solid = either(solid, state.shows(byte));
        state = state.next(byte);
        len += 1;
        if cut {
            return Stop {
                len,
                cut,
                state,
                solid,
            };
        }
    }
    Stop {
        len,
        cut: false,
        state,
        solid,
    }
}

fn either(a: bool, b: bool) -> bool
    ensures { result ≡ (a || b) }
{
    a || b
}

fn is_above_limit(kept: usize, more: usize) -> bool
    ensures { result ≡ nat_lt piece_limit (kept + more) }
{
    kept > 65_536 || more > 65_536 - kept
}

fn front(bytes: &[u8], len: usize) -> &[u8]
    requires { len ≤ length bytes.now }
    ensures { result.now ≡ take len bytes.now }
{
    &bytes[..len]
}

#[tactic(auto, using(crate::proofs::Statements::is_statement, crate::proofs::Statements::isnt_utf8))]
fn piece_of(alloc: Global, bytes: &[u8]) -> Result<Piece, NoMem>
    ensures { IfOk result (λ piece. piece ≡ statement bytes.now) }
{
    match PText::from_bytes(alloc, bytes)? {
        Some(text) => Ok(Piece::Statement(text)),
        None => Ok(Piece::NotUtf8),
    }
}

/// The piece of what is kept and a last part. After `NoMem` what is kept is as before.
fn completed(alloc: Global, kept: &mut Vec<u8>, part: &[u8]) -> Result<Piece, NoMem>
    ensures ok { IfOk result (λ piece. piece ≡ statement (kept.old.items ++ part.now)) }
    ensures err { OnErr result (kept.new.items ≡ kept.old.items) }
{
    if kept.is_empty() {
        return piece_of(alloc, part);
    }
    let before = kept.len();
    kept.extend_from_slice(part)?;
    let piece = piece_of(alloc, kept.as_slice());
    if piece.is_err() {
        kept.truncate(before);
    }
    piece
}

/// Cuts a script that comes in parts.
///
/// A piece ends with a `;` outside texts and comments. Of a piece of at most 65,536 bytes the
/// bytes are kept, of a longer one only where the scan stands and whether it has content.
#[derive(Drop)]
pub struct Splitter {
    state: State,
    kept: Vec<u8>,
    long: bool,
    solid: bool,
}

impl Model for Splitter {
    ghost use Rattle.std.specs.Prelude.{◌≤◌, length};
    ghost use Rattle.pq_text.specs.Pieces.{piece_limit};
    ghost use Rattle.pq_text.specs.Summaries.{Summary};

    ghost Value = { Summary };

    ghost view = { λ s. record { state = s.state; kept = s.kept.items; long = s.long; solid = s.solid } };

    ghost invariant = { λ s. length s.kept.items ≤ piece_limit };
}

impl Splitter {
    /// A splitter at the start of a script. It takes no memory.
    pub fn new(alloc: Global) -> Splitter
        ensures { result ≡ start_summary }
    {
        Splitter {
            state: State::Plain,
            kept: Vec::new(alloc),
            long: false,
            solid: false,
        }
    }

    #[tactic(auto, unfolding(crate::specs::Summaries::grown_summary))]
    fn grow(&mut self, part: &[u8], stop: Stop) -> Result<(), NoMem>
        requires state { stop.state ≡ state_behind self.old.state part.now }
        requires solid { stop.solid ≡ is_solid self.old.state part.now }
        ensures ok { OnOk result (self.new ≡ grown_summary self.old part.now) }
        ensures err { OnErr result (self.new ≡ self.old) }
    {
        let long = either(self.long, is_above_limit(self.kept.len(), part.len()));
        if long {
            self.kept.clear();
        } else {
            self.kept.extend_from_slice(part)?;
        }
        self.long = long;
        self.state = stop.state;
        self.solid = either(self.solid, stop.solid);
        Ok(())
    }

    #[tactic(auto, unfolding(crate::specs::Summaries::grown_summary))]
    fn close(&mut self, alloc: Global, part: &[u8], solid: bool) -> Result<Option<Piece>, NoMem>
        requires { solid ≡ is_solid self.old.state part.now }
        ensures told { IfOk result (λ piece. piece ≡ told_of (grown_summary self.old part.now)) }
        ensures new { OnOk result (self.new ≡ start_summary) }
        ensures err { OnErr result (self.new ≡ self.old) }
    {
        let piece = if either(self.long, is_above_limit(self.kept.len(), part.len())) {
            Some(Piece::TooLong)
        } else if either(self.solid, solid) {
            Some(completed(alloc, &mut self.kept, part)?)
        } else {
            None
        };
        self.state = State::Plain;
        self.kept.clear();
        self.long = false;
        self.solid = false;
        Ok(piece)
    }

    /// Takes bytes up to and with the first cut, else all, and says how many. Answers the piece
    /// where they end in a cut and the piece isn't blank. After `NoMem` the splitter is as before.
    pub fn feed(&mut self, alloc: Global, bytes: &[u8]) -> Result<(usize, Option<Piece>), NoMem>
        requires { 0 < length bytes.now }
        ensures some { IfOk result (λ fed. (0 < fed.0) × (fed.0 ≤ length bytes.now)) }
        ensures taken { IfOk result (λ fed. fed.0 ≡ taken_of self.old bytes.now) }
        ensures piece { IfOk result (λ fed. fed.1 ≡ piece_in self.old bytes.now) }
        ensures left { OnOk result (self.new ≡ left_in self.old bytes.now) }
        ensures pieces { IfOk result (λ fed. (more : List ℕ)
            → pieces_from self.old (take fed.0 bytes.now ++ more) ≡ piece_list fed.1 ++ pieces_from self.new more) }
        ensures rest { IfOk result (λ fed. (more : List ℕ)
            → unfinished_from self.old (take fed.0 bytes.now ++ more) ≡ unfinished_from self.new more) }
        ensures err { OnErr result (self.new ≡ self.old) }
    {
        let stop = scan(self.state, bytes);
        let part = front(bytes, stop.len);
        if stop.cut {
            let piece = self.close(alloc, part, stop.solid)?;
            return Ok((stop.len, piece));
        }
        self.grow(part, stop)?;
        Ok((stop.len, None))
    }

    /// Whether the rest has a byte outside comments that isn't white.
    #[tactic(auto, unfolding(crate::specs::Summaries::unfinished_from))]
    pub fn end(self) -> bool
        ensures { result ≡ unfinished_from self [] }
    {
        either(self.solid, self.state.is_dash())
    }

    /// How many bytes are kept.
    pub fn held(&self) -> u32
        ensures held { result ≡ length self.now.kept }
        ensures most { result ≤ 65537 }
    {
        self.kept.len() as u32
    }
}
