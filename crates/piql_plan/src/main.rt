//! `piql_plan`: the script of standard input is checked, and each query that it prepares or explains is told with the
//! nodes of its plan. The exit status is how that ended.
#![tactic(auto)]

ghost use Rattle.std.specs.Prelude.{◌≡◌, ◌⊎◌, ◌↔◌, ◌≤◌, ◌+◌, ℕ, List as Items, [], length, IfOk, IfErr, IsErrOf, if◌then◌else◌};
ghost use Rattle.std.specs.Io.KnownBytes.{Appends, IsAtEnd, prepend_known};
ghost use Rattle.pq_store.specs.Content.{HasRisen};
ghost use Rattle.pq_console.specs.Reading.{script_limit};
ghost use Rattle.pq_plan_report.specs.Told.{is_refused, told_script};

use pq_base::{Bytes, List, NoMem, PText};
use pq_plan_report::{Told, tell_script};
use pq_shell::{Failed, LIMIT, Source, Status, StdSource, WordsErr, read_words};
use std::alloc::Global;
use std::io::Write;
use std::process::ExitCode;

/// The bytes that are read at once.
const ROOM: usize = 4096;

/// Reads the source to its end, if that comes within the limit.
fn read_script<I: Source>(alloc: Global, source: &mut I) -> Result<Bytes, Status>
    ensures within { IfOk result (λ script. length script ≤ script_limit) }
    ensures reads { I.count source.new ≤ I.count source.old + (script_limit + 1) }
    ensures read { IfOk result (λ script. I.left source.old ≡ prepend_known script (I.left source.new)) }
    ensures end { IfOk result (λ _. IsAtEnd (I.left source.new)) }
    ensures fault { IsErrOf result Status.ReadFault → HasRisen (I.faults source.old) (I.faults source.new) }
    ensures too_long { IsErrOf result Status.TooLong
        → I.count source.new ≡ I.count source.old + (script_limit + 1) }
    ensures stops { IfErr result (λ status. (status ≡ Status.ReadFault) ⊎ (status ≡ Status.NoMem)
        ⊎ (status ≡ Status.TooLong)) }
{
    let mut script = List::new(alloc);
    let mut room = [0u8; ROOM];
    let mut taken = 0;
    'script: while taken <= LIMIT {
        let want = (LIMIT + 1 - taken).min(ROOM);
        let n = match source.read(&mut room[..want]) {
            Err(Failed) => return Err(Status::ReadFault),
            Ok(n) => n,
        };
        if n == 0 {
            return Ok(script);
        }
        if script.extend(alloc, &room[..n]).is_err() {
            return Err(Status::NoMem);
        }
        taken += n;
    }
    Err(Status::TooLong)
}

/// Writes what is told.
fn write_told<W: Write>(writer: &mut W, told: &Told) -> Status
    ensures written { ¬ (result ≡ Status.WriteFault)
        → Appends (W.contents writer.old) (W.contents writer.new) told.now.text }
    ensures status { (result ≡ Status.WriteFault)
        ⊎ (result ≡ (if told.now.refused then Status.SomeRefused else Status.Good)) }
{
    match writer.write_all(told.text.items()) {
        Err(_) => Status::WriteFault,
        Ok(()) => {
            if told.refused {
                Status::SomeRefused
            } else {
                Status::Good
            }
        }
    }
}

/// Reads the source and writes what is told of its script: all of it, where no call failed and there was memory.
fn tell<I: Source, W: Write>(alloc: Global, source: &mut I, writer: &mut W) -> Status
    ensures not_usage { ¬ (result ≡ Status.Usage) }
    ensures read_fault { result ≡ Status.ReadFault → HasRisen (I.faults source.old) (I.faults source.new) }
    ensures too_long { result ≡ Status.TooLong → I.count source.new ≡ I.count source.old + (script_limit + 1) }
    ensures told { (result ≡ Status.Good) ⊎ (result ≡ Status.SomeRefused) → (script : Items ℕ)
        × (I.left source.old ≡ prepend_known script (I.left source.new)) × IsAtEnd (I.left source.new)
        × Appends (W.contents writer.old) (W.contents writer.new) (told_script script)
        × (result ≡ (if is_refused script then Status.SomeRefused else Status.Good)) }
{
    let script = match read_script(alloc, source) {
        Err(status) => return status,
        Ok(script) => script,
    };
    match tell_script(alloc, script.items()) {
        Ok(told) => write_told(writer, &told),
        Err(NoMem) => Status::NoMem,
    }
}

fn run_words(rt: &HostRuntime, words: &[PText]) -> Status
    ensures usage { result ≡ Status.Usage ↔ ¬ (words.now ≡ []) }
{
    if !words.is_empty() {
        return Status::Usage;
    }
    let mut source = StdSource::new(rt.stdin());
    let mut writer = rt.stdout();
    tell(rt.alloc(), &mut source, &mut writer)
}

fn run(rt: &HostRuntime) -> Status {
    match read_words(rt) {
        Ok(words) => run_words(rt, words.items()),
        Err(WordsErr::NotUtf8) => Status::Usage,
        Err(WordsErr::NoMem) => Status::NoMem,
    }
}

fn main(rt: HostRuntime) -> ExitCode {
    ExitCode::from(run(&rt).code())
}
