//! The top call: words, a source, a store and a sink; and how the run ended.
ghost use Rattle.std.specs.Prelude.{◌≡◌, ◌⊎◌, ◌↔◌, ◌+◌, ◌^◌, ◌<◌, ◌≤◌, ℕ, List, Option, IfOk, IfErr, OnErr, IfSome, IsErrOf, length};
ghost use Rattle.std.specs.Io.KnownBytes.{prepend_known};
ghost use Rattle.pq_fill.specs.Words.{IsForm};
ghost use Rattle.pq_fill.specs.declared.words.Form.{Form as Declared};
ghost use Rattle.pq_fill.specs.declared.words.Form.TheVariants as Form;
ghost use Rattle.pq_schema.specs.Schema.{Schema};
ghost use Rattle.pq_store.specs.Content.{HasRisen};
ghost use Rattle.pq_shell.specs.Flaw.{StopsWhereFlawed, EndsWhereFlawed};
ghost use Rattle.pq_shell.specs.Forms.{HasOpening};
ghost use Rattle.pq_shell.specs.Making.{ReadsSource, moment};
ghost use Rattle.pq_shell.specs.Openings.{OpensWith, StoppedOpening};
ghost use Rattle.pq_console.specs.Reading.{script_limit};
ghost use Rattle.pq_shell.specs.Run.{BrokenRun, Closes, Ends, EndsDamaged, FinishedRun, IsMeant, IsPlain, OpensFor, status_of, run_world};
ghost use Rattle.pq_shell.specs.Serving.{ConsumedSource, StoppedAmong, TakesScript};
ghost use Rattle.pq_console.specs.Stops.{Causes};
ghost use Rattle.pq_shell.specs.Answered.{IsAnsweredStop};

use crate::filling::fill_store;
use crate::serving::{Ended, Progress, finish, run_part};
use crate::status::Status;
use pq_base::{PText, Used};
use pq_catalog::PlannedCatalog;
use pq_console::{
    Ending, Failed, LIMIT, Sink, Source, Stop, read_past_limit, write_damage, write_opening,
    write_summary,
};
use pq_fill::{Form, form_of};
use pq_opening::start;
use pq_print::Opened;
use pq_store::{Meter, Store};
use std::alloc::Global;
use std::sync::ledger::Ledger;

/// The bytes that are read at once.
const ROOM: usize = 4096;

/// What a run begins with: the session, and what its opening used.
#[derive(Drop)]
struct Begun {
    session: PlannedCatalog,
    used: Used,
}

/// Starts a session on the store, and writes the opening's line.
fn open<S: Store<L>, O: Sink, L: Ledger>(
    alloc: Global,
    store: &mut S,
    meter: &mut Meter<L>,
    sink: &mut O,
) -> Result<Begun, Stop>
    ensures ok { IfOk result (λ begun. (form : Declared) → HasOpening form
        → OpensWith form begun (moment (S.content store.old) (O.held sink.old) meter.old)
        (moment (S.content store.new) (O.held sink.new) meter.new)) }
    ensures err { IfErr result (λ stop. StoppedOpening stop
        (moment (S.content store.old) (O.held sink.old) meter.old)
        (moment (S.content store.new) (O.held sink.new) meter.new)) }
    ensures flawed { StopsWhereFlawed (S.content store.old) result (O.held sink.old) (O.held sink.new) }
    ensures causes { Causes (S.faults store.old) (S.faults store.new) (O.faults sink.old) (O.faults sink.new) result }
    ensures answered { IfErr result (IsAnsweredStop S.answers) }
{
    let started = match start(alloc, store, meter) {
        Ok(started) => started,
        Err(broke) => return Err(Stop::of(broke)),
    };
    let opened = Opened {
        defs: started.defs,
        bound: started.bound,
        used: started.used,
    };
    write_opening(alloc, &opened, sink)?;
    Ok(Begun {
        session: started.planned,
        used: started.used,
    })
}

/// Begins a run: the store is opened, but for a check.
fn begin<S: Store<L>, O: Sink, L: Ledger>(
    alloc: Global,
    form: Form,
    store: &mut S,
    meter: &mut Meter<L>,
    sink: &mut O,
) -> Result<Begun, Stop>
    ensures ok { IfOk result (λ begun. OpensWith form begun
        (moment (S.content store.old) (O.held sink.old) meter.old)
        (moment (S.content store.new) (O.held sink.new) meter.new)) }
    ensures err { IfErr result (λ stop. HasOpening form
        × StoppedOpening stop (moment (S.content store.old) (O.held sink.old) meter.old)
        (moment (S.content store.new) (O.held sink.new) meter.new)) }
    ensures unmoved { form ≡ Form.Check → (store.new ≡ store.old) × (meter.new ≡ meter.old) }
    ensures flawed { HasOpening form → StopsWhereFlawed (S.content store.old) result
        (O.held sink.old) (O.held sink.new) }
    ensures causes { Causes (S.faults store.old) (S.faults store.new) (O.faults sink.old) (O.faults sink.new) result }
    ensures answered { IfErr result (IsAnsweredStop S.answers) }
{
    match form {
        Form::Run | Form::Fill(_) => open(alloc, store, meter, sink),
        Form::Check => Ok(Begun {
            session: PlannedCatalog::blank(alloc),
            used: Used { ops: 0, entries: 0 },
        }),
    }
}

/// Reads the source to its end, a fault or the limit, and makes and reports each piece as it is cut.
fn run_source<S: Store<L>, I: Source, O: Sink, L: Ledger>(
    alloc: Global,
    session: PlannedCatalog,
    progress: &mut Progress,
    source: &mut I,
    store: &mut S,
    meter: &mut Meter<L>,
    sink: &mut O,
) -> Result<Ending, Stop>
    requires few { progress.old.tally.count + script_limit < 2 ^ 32 }
    requires read { ReadsSource progress.old.tally.form }
    ensures ok { IfOk result (λ ending. (last : Schema)
        × ConsumedSource progress.old.tally.form ending (I.left source.old) (I.left source.new) session last
        (moment (S.content store.old) (O.held sink.old) meter.old)
        (moment (S.content store.new) (O.held sink.new) meter.new) progress.old progress.new) }
    ensures err { IfErr result (λ stop. StoppedAmong S.answers progress.old.tally.form stop (I.left source.old) (I.left source.new) session
        (moment (S.content store.old) (O.held sink.old) meter.old)
        (moment (S.content store.new) (O.held sink.new) meter.new) progress.old) }
    ensures unmoved { progress.old.tally.form ≡ Form.Check → (store.new ≡ store.old) × (meter.new ≡ meter.old) }
    ensures causes { Causes (S.faults store.old) (S.faults store.new) (O.faults sink.old) (O.faults sink.new) result }
    ensures takes { TakesScript I.Source source.old source.new (λ ending. ending) result }
{
    let mut session = session;
    let mut room = [0u8; ROOM];
    let mut taken = 0;
    while taken < LIMIT {
        let want = (LIMIT - taken).min(ROOM);
        let n = match source.read(&mut room[..want]) {
            Err(Failed) => return Ok(Ending::Faulted),
            Ok(n) => n,
        };
        if n == 0 {
            return Ok(Ending::Whole);
        }
        session = run_part(alloc, session, &room[..n], progress, store, meter, sink)?;
        taken += n;
    }
    Ok(read_past_limit(source))
}

/// Begins a run, and runs the script of the source.
fn run_script<S: Store<L>, I: Source, O: Sink, L: Ledger>(
    alloc: Global,
    form: Form,
    source: &mut I,
    store: &mut S,
    meter: &mut Meter<L>,
    sink: &mut O,
) -> Result<Ended, Stop>
    requires { ReadsSource form }
    ensures ok { IfOk result (λ ended. FinishedRun form ended.ending ended.refused
        (run_world (I.left source.old) (S.content store.old) (O.held sink.old) meter.old)
        (run_world (I.left source.new) (S.content store.new) (O.held sink.new) meter.new)) }
    ensures err { IfErr result (λ stop. BrokenRun S.answers form stop
        (run_world (I.left source.old) (S.content store.old) (O.held sink.old) meter.old)
        (run_world (I.left source.new) (S.content store.new) (O.held sink.new) meter.new)) }
    ensures flawed { HasOpening form → StopsWhereFlawed (S.content store.old) result
        (O.held sink.old) (O.held sink.new) }
    ensures unmoved { form ≡ Form.Check → (store.new ≡ store.old) × (meter.new ≡ meter.old) }
    ensures causes { Causes (S.faults store.old) (S.faults store.new) (O.faults sink.old) (O.faults sink.new) result }
    ensures takes { TakesScript I.Source source.old source.new (λ ended. ended.ending) result }
{
    let begun = begin(alloc, form, store, meter, sink)?;
    let mut progress = Progress::new(alloc, form);
    let ending = run_source(
        alloc,
        begun.session,
        &mut progress,
        source,
        store,
        meter,
        sink,
    )?;
    finish(alloc, ending, progress, sink)
}

/// Begins a run, makes the statements of the generated script for n users, and writes the summary.
fn run_fill<S: Store<L>, O: Sink, L: Ledger>(
    alloc: Global,
    n: u32,
    store: &mut S,
    meter: &mut Meter<L>,
    sink: &mut O,
) -> Result<Ended, Stop>
    requires { (1 ≤ n) × (n ≤ 20000) }
    ensures ok { IfOk result (λ ended. (left : Option (List ℕ)) → FinishedRun (Form.Fill n) ended.ending ended.refused
        (run_world left (S.content store.old) (O.held sink.old) meter.old)
        (run_world left (S.content store.new) (O.held sink.new) meter.new)) }
    ensures whole { IfOk result (λ ended. ended.ending ≡ Ending.Whole) }
    ensures err { IfErr result (λ stop. (left : Option (List ℕ)) → BrokenRun S.answers (Form.Fill n) stop
        (run_world left (S.content store.old) (O.held sink.old) meter.old)
        (run_world left (S.content store.new) (O.held sink.new) meter.new)) }
    ensures flawed { StopsWhereFlawed (S.content store.old) result (O.held sink.old) (O.held sink.new) }
    ensures causes { Causes (S.faults store.old) (S.faults store.new) (O.faults sink.old) (O.faults sink.new) result }
{
    let begun = begin(alloc, Form::Fill(n), store, meter, sink)?;
    let filled = fill_store(alloc, n, begun.session, begun.used, store, meter)?;
    write_summary(alloc, n, &filled.summary, sink)?;
    Ok(Ended {
        ending: Ending::Whole,
        refused: filled.refused,
    })
}

/// Runs what the form tells: the script of the source, or the generated one.
fn run_form<S: Store<L>, I: Source, O: Sink, L: Ledger>(
    alloc: Global,
    form: Form,
    source: &mut I,
    store: &mut S,
    meter: &mut Meter<L>,
    sink: &mut O,
) -> Result<Ended, Stop>
    requires { IsMeant form }
    ensures ok { IfOk result (λ ended. FinishedRun form ended.ending ended.refused
        (run_world (I.left source.old) (S.content store.old) (O.held sink.old) meter.old)
        (run_world (I.left source.new) (S.content store.new) (O.held sink.new) meter.new)) }
    ensures err { IfErr result (λ stop. BrokenRun S.answers form stop
        (run_world (I.left source.old) (S.content store.old) (O.held sink.old) meter.old)
        (run_world (I.left source.new) (S.content store.new) (O.held sink.new) meter.new)) }
    ensures flawed { HasOpening form → StopsWhereFlawed (S.content store.old) result
        (O.held sink.old) (O.held sink.new) }
    ensures unmoved { form ≡ Form.Check → (store.new ≡ store.old) × (meter.new ≡ meter.old) }
    ensures unread { (n : ℕ) → form ≡ Form.Fill n → source.new ≡ source.old }
    ensures causes { Causes (S.faults store.old) (S.faults store.new) (O.faults sink.old) (O.faults sink.new) result }
    ensures takes { TakesScript I.Source source.old source.new (λ ended. ended.ending) result }
{
    match form {
        Form::Run | Form::Check => run_script(alloc, form, source, store, meter, sink),
        Form::Fill(n) => run_fill(alloc, n, store, meter, sink),
    }
}

fn status_of(ended: Ended) -> Status
    ensures { result ≡ status_of ended.ending ended.refused }
{
    match ended.ending {
        Ending::Faulted => Status::ReadFault,
        Ending::TooLong => Status::TooLong,
        Ending::Whole => {
            if ended.refused {
                Status::SomeRefused
            } else {
                Status::Good
            }
        }
    }
}

/// Writes the line that names the damage.
fn report_damage<O: Sink>(alloc: Global, key: &[u8], sink: &mut O) -> Status
    ensures ends { EndsDamaged result key.now (O.held sink.old) (O.held sink.new) }
    ensures later { O.faults sink.old ≤ O.faults sink.new }
    ensures cause { result ≡ Status.WriteFault → HasRisen (O.faults sink.old) (O.faults sink.new) }
{
    match write_damage(alloc, key, sink) {
        Ok(()) => Status::Damaged,
        Err(Stop::WriteFailed) => Status::WriteFault,
        Err(_) => Status::NoMem,
    }
}

/// The status of a script that was run so.
pub fn close<O: Sink>(alloc: Global, outcome: Result<Ended, Stop>, sink: &mut O) -> Status
    ensures closes { Closes outcome result (O.held sink.old) (O.held sink.new) }
    ensures later { O.faults sink.old ≤ O.faults sink.new }
    ensures cause { result ≡ Status.WriteFault
        → IsErrOf outcome Stop.WriteFailed ⊎ HasRisen (O.faults sink.old) (O.faults sink.new) }
{
    match outcome {
        Ok(ended) => status_of(ended),
        Err(Stop::StoreFailed) => Status::StoreFault,
        Err(Stop::WriteFailed) => Status::WriteFault,
        Err(Stop::NoMem) => Status::NoMem,
        Err(Stop::Damaged(damage)) => report_damage(alloc, damage.key.items(), sink),
    }
}

/// Runs what the form tells, and says how it ended.
fn run<S: Store<L>, I: Source, O: Sink, L: Ledger>(
    alloc: Global,
    form: Form,
    source: &mut I,
    store: &mut S,
    sink: &mut O,
    meter: &mut Meter<L>,
) -> Status
    requires { IsMeant form }
    ensures ends { Ends S.answers form result
        (run_world (I.left source.old) (S.content store.old) (O.held sink.old) meter.old)
        (run_world (I.left source.new) (S.content store.new) (O.held sink.new) meter.new) }
    ensures flawed { HasOpening form → EndsWhereFlawed (S.content store.old) result
        (O.held sink.old) (O.held sink.new) }
    ensures unmoved { form ≡ Form.Check → (store.new ≡ store.old) × (meter.new ≡ meter.old) }
    ensures unread { (n : ℕ) → form ≡ Form.Fill n → source.new ≡ source.old }
    ensures read_fault { result ≡ Status.ReadFault → HasRisen (I.faults source.old) (I.faults source.new) }
    ensures write_fault { result ≡ Status.WriteFault → HasRisen (O.faults sink.old) (O.faults sink.new) }
    ensures store_fault { result ≡ Status.StoreFault → HasRisen (S.faults store.old) (S.faults store.new) }
    ensures taken { (taken : List ℕ) × (I.left source.old ≡ prepend_known taken (I.left source.new))
        × (length taken ≤ script_limit + 1) }
    ensures reads { I.count source.new ≤ I.count source.old + (script_limit + 1) }
    ensures too_long { result ≡ Status.TooLong ↔ I.count source.new ≡ I.count source.old + (script_limit + 1) }
{
    let outcome = run_form(alloc, form, source, store, meter, sink);
    close(alloc, outcome, sink)
}

/// Runs a script over a store, and writes its reports to a sink.
///
/// The words are `run`: the script of the source; `check`: the same without the store, as over tables
/// without rows; or `fill` and a number from 1 to 20,000: the generated script for so many users, of whose
/// reports a summary is written. Other words are of no form. But for a check, the store is opened first
/// and the opening's line written. Each statement is made as soon as it is read, and its report is written
/// before the next one is made.
pub fn run_piql<S: Store<L>, I: Source, O: Sink, L: Ledger>(
    alloc: Global,
    words: &[PText],
    source: &mut I,
    store: &mut S,
    sink: &mut O,
    meter: &mut Meter<L>,
) -> Status
    ensures ends { (form : Declared) → IsForm form words.now → Ends S.answers form result
        (run_world (I.left source.old) (S.content store.old) (O.held sink.old) meter.old)
        (run_world (I.left source.new) (S.content store.new) (O.held sink.new) meter.new) }
    // Where the intent or the catalog of a told content is flawed, the line of the first flaw is all that
    // is written; or a call fails, or there is no memory.
    ensures flawed { (form : Declared) → IsForm form words.now → HasOpening form
        → EndsWhereFlawed (S.content store.old) result
        (O.held sink.old) (O.held sink.new) }
    ensures usage { result ≡ Status.Usage ↔ ((form : Declared) → ¬ IsForm form words.now) }
    ensures untouched { result ≡ Status.Usage
        → (source.new ≡ source.old) × (store.new ≡ store.old) × (sink.new ≡ sink.old)
        × (meter.new ≡ meter.old) }
    // A check makes no call of the store, and the generated script none of the source.
    ensures unmoved { IsForm Form.Check words.now → (store.new ≡ store.old) × (meter.new ≡ meter.old) }
    ensures unread { (n : ℕ) → IsForm (Form.Fill n) words.now → source.new ≡ source.old }
    ensures read_fault { result ≡ Status.ReadFault → HasRisen (I.faults source.old) (I.faults source.new) }
    ensures write_fault { result ≡ Status.WriteFault → HasRisen (O.faults sink.old) (O.faults sink.new) }
    ensures store_fault { result ≡ Status.StoreFault → HasRisen (S.faults store.old) (S.faults store.new) }
    ensures taken { (taken : List ℕ) × (I.left source.old ≡ prepend_known taken (I.left source.new))
        × (length taken ≤ script_limit + 1) }
    // Whether the source tells or not, at most as many bytes are taken as a script may have, and one; and so many
    // exactly where the script is too long.
    ensures reads { I.count source.new ≤ I.count source.old + (script_limit + 1) }
    ensures too_long { result ≡ Status.TooLong ↔ I.count source.new ≡ I.count source.old + (script_limit + 1) }
    // Over a store that opens, without a fault, and where the source had no more bytes than a script may have, the
    // run is made to its end, whether the source tells or not.
    ensures complete { (form : Declared) → IsForm form words.now
        → OpensFor form (S.content store.old)
        → (ReadsSource form → I.count source.new ≤ I.count source.old + script_limit)
        → (ReadsSource form → ¬ HasRisen (I.faults source.old) (I.faults source.new))
        → ¬ HasRisen (O.faults sink.old) (O.faults sink.new)
        → (HasOpening form → ¬ HasRisen (S.faults store.old) (S.faults store.new))
        → IsPlain result }
{
    match form_of(words) {
        None => Status::Usage,
        Some(form) => run(alloc, form, source, store, sink, meter),
    }
}
