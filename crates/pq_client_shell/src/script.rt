//! The script that is read, as its pieces.
ghost use Rattle.std.specs.Prelude.{◌≡◌, ◌≤◌, ◌+◌, ◌^◌, ℕ, [], List as Items, IfOk, length};
ghost use Rattle.std.specs.Io.KnownBytes.{prepend_known};
ghost use Rattle.pq_store.specs.Content.{HasRisen};
ghost use Rattle.pq_text.specs.Pieces.{rest_of, is_unfinished};
ghost use Rattle.pq_console.specs.Reading.{CountsBytes, TookBytes, script_limit};
ghost use Rattle.pq_client_shell.specs.Lines.{leaves_rest};
ghost use Rattle.pq_client_shell.specs.Runs.{IsRead};

use pq_base::{List, NoMem};
use pq_console::{Ending, LIMIT, read_past_limit};
use pq_shell::{Failed, Source};
use pq_text::{Piece, cut_script};
use std::alloc::Global;

/// The bytes that are read at once.
const ROOM: usize = 4096;

/// A script: its pieces, how its reading ended, and whether it has a rest to be refused.
#[derive(Drop)]
pub struct Script {
    pub pieces: List<Piece>,
    pub ending: Ending,
    pub unfinished: bool,
}

/// A script, parted where its writes begin: so many of its pieces stand before the first of them.
#[derive(Clone, Copy)]
pub struct Parted<'a> {
    pub script: &'a Script,
    pub front: usize,
}

/// Reads a source to its end, a fault or the limit.
fn read_bytes<I: Source>(source: &mut I, bytes: &mut Vec<u8>) -> Result<Ending, NoMem>
    requires { bytes.old.items ≡ [] }
    ensures took { IfOk result (λ ending. TookBytes ending (I.left source.old) (I.left source.new) bytes.new.items) }
    ensures taken { (taken : Items ℕ) × (I.left source.old ≡ prepend_known taken (I.left source.new))
        × (length taken ≤ script_limit + 1) }
    ensures counted { IfOk result (λ ending. CountsBytes ending (I.count source.old) (I.count source.new)) }
    ensures reads { I.count source.new ≤ I.count source.old + (script_limit + 1) }
    ensures later { I.faults source.old ≤ I.faults source.new }
    ensures read_fault { IfOk result (λ ending. ending ≡ Ending.Faulted
        → HasRisen (I.faults source.old) (I.faults source.new)) }
{
    let mut room = [0u8; ROOM];
    let mut taken = 0;
    while taken < LIMIT {
        let want = (LIMIT - taken).min(ROOM);
        let n = match source.read(&mut room[..want]) {
            Err(Failed) => return Ok(Ending::Faulted),
            Ok(n) => n,
        };
        if n == 0 {
            return Ok(Ending::Whole);
        }
        bytes.extend_from_slice(&room[..n])?;
        taken += n;
    }
    Ok(read_past_limit(source))
}

/// Whether a rest was found of a script that was read to its end.
fn leaves_rest(ending: Ending, unfinished: bool) -> bool
    ensures { (bytes : Items ℕ) → unfinished ≡ is_unfinished (rest_of bytes) → result ≡ leaves_rest ending bytes }
{
    match ending {
        Ending::Whole => unfinished,
        Ending::Faulted | Ending::TooLong => false,
    }
}

/// Reads a source to its end, a fault or the limit, and cuts what was read into pieces.
pub fn read_script<I: Source>(alloc: Global, source: &mut I) -> Result<Script, NoMem>
    ensures few { IfOk result (λ script. length script.pieces ≤ 2 ^ 24) }
    ensures read { IfOk result (λ script. IsRead (I.left source.old) (I.left source.new) script) }
    ensures taken { (taken : Items ℕ) × (I.left source.old ≡ prepend_known taken (I.left source.new))
        × (length taken ≤ script_limit + 1) }
    ensures counted { IfOk result (λ script. CountsBytes script.ending (I.count source.old) (I.count source.new)) }
    ensures reads { I.count source.new ≤ I.count source.old + (script_limit + 1) }
    ensures later { I.faults source.old ≤ I.faults source.new }
    ensures read_fault { IfOk result (λ script. script.ending ≡ Ending.Faulted
        → HasRisen (I.faults source.old) (I.faults source.new)) }
{
    let mut bytes = Vec::new(alloc);
    let ending = read_bytes(source, &mut bytes)?;
    let cut = cut_script(alloc, &[bytes.as_slice()])?;
    let unfinished = leaves_rest(ending, cut.unfinished);
    Ok(Script {
        pieces: cut.pieces,
        ending,
        unfinished,
    })
}
