//! The pieces of a script, made and reported as they are cut.
ghost use Rattle.std.specs.Prelude.{◌≡◌, ◌+◌, ◌^◌, ◌<◌, ◌||◌, [], ◌∷◌, false, length, OnOk, IfOk, IfErr};
ghost use Rattle.pq_text.specs.Summaries.{start_summary, pieces_from};
ghost use Rattle.pq_fill.specs.declared.words.Form.TheVariants as Form;
ghost use Rattle.pq_shell.specs.Fold.{ServedItems, StoppedItem};
ghost use Rattle.pq_shell.specs.Items.{Cut, cut_items};
ghost use Rattle.pq_shell.specs.Making.{BreaksAt, ReadsSource, MakesItem, moment};
ghost use Rattle.pq_shell.specs.Serving.{ProgressedRun, ReportsRest, StoppedAtRest, has_rest, rest_report};
ghost use Rattle.pq_console.specs.Stops.{Causes, stop_of_broke};
ghost use Rattle.pq_store.specs.Content.{HasBrokeCause};

use pq_base::{Bound, List, NoMem, Refusal, Used};
use pq_catalog::PlannedCatalog;
use pq_check::check;
use pq_console::{Ending, Sink, Stop, write_report};
use pq_fill::Form;
use pq_print::{End, Report};
use pq_step::statement;
use pq_store::{Broke, Meter, Store};
use pq_text::{Piece, Splitter};
use std::alloc::Global;
use std::sync::ledger::Ledger;

/// In which form statements are made, how many were, and whether one of them was refused.
#[derive(Clone, Copy)]
pub struct Tally {
    pub form: Form,
    pub count: u32,
    pub refused: bool,
}

impl Tally {
    // The tally of one statement more.
    fn with(self, refused: bool) -> Tally
        requires { self.count + 1 < 2 ^ 32 }
        ensures form { result.form ≡ self.form }
        ensures count { result.count ≡ self.count + 1 }
        ensures refused { result.refused ≡ (self.refused || refused) }
    {
        Tally {
            form: self.form,
            count: self.count + 1,
            refused: self.refused || refused,
        }
    }
}

/// How far a script was run.
#[derive(Drop)]
pub struct Progress {
    pub splitter: Splitter,
    pub tally: Tally,
}

/// How the reading of a script ended, and whether a report is a refusal.
#[derive(Clone, Copy)]
pub struct Ended {
    pub ending: Ending,
    pub refused: bool,
}

impl Progress {
    /// The start of a script in a form. It takes no memory.
    pub fn new(alloc: Global, form: Form) -> Progress
        ensures splitter { result.splitter ≡ start_summary }
        ensures form { result.tally.form ≡ form }
        ensures count { result.tally.count ≡ 0 }
        ensures refused { result.tally.refused ≡ false }
    {
        Progress {
            splitter: Splitter::new(alloc),
            tally: Tally {
                form,
                count: 0,
                refused: false,
            },
        }
    }
}

/// Makes a piece in the way of a form: over the store, or for a check without it.
pub fn make<S: Store<L>, L: Ledger>(
    alloc: Global,
    form: Form,
    session: PlannedCatalog,
    number: u32,
    piece: &Piece,
    store: &mut S,
    meter: &mut Meter<L>,
) -> Result<(PlannedCatalog, Report), Broke>
    ensures ok { IfOk result (λ p. MakesItem form (Cut piece.now) number session p.0 (S.content store.old)
        (S.content store.new) meter.old meter.new p.1) }
    ensures err { IfErr result (λ broke. BreaksAt S.answers form (stop_of_broke broke) (Cut piece.now) number session
        (S.content store.old) (S.content store.new) meter.old meter.new) }
    ensures unmoved { form ≡ Form.Check → (store.new ≡ store.old) × (meter.new ≡ meter.old) }
    ensures cause { HasBrokeCause (S.faults store.old) (S.faults store.new) result }
{
    match form {
        Form::Check => match check(alloc, session, number, piece) {
            Ok(made) => Ok(made),
            Err(NoMem) => Err(Broke::NoMem),
        },
        Form::Run | Form::Fill(_) => statement(alloc, session, number, piece, store, meter),
    }
}

/// Makes the next piece and writes its report.
pub fn serve<S: Store<L>, O: Sink, L: Ledger>(
    alloc: Global,
    session: PlannedCatalog,
    piece: &Piece,
    tally: &mut Tally,
    store: &mut S,
    meter: &mut Meter<L>,
    sink: &mut O,
) -> Result<PlannedCatalog, Stop>
    requires few { tally.old.count + 1 < 2 ^ 32 }
    requires read { ReadsSource tally.old.form }
    ensures ok { IfOk result (λ next. ServedItems tally.old.form session next
        (moment (S.content store.old) (O.held sink.old) meter.old)
        (moment (S.content store.new) (O.held sink.new) meter.new)
        (tally.old.count + 1) (Cut piece.now ∷ []) tally.old.refused tally.new.refused) }
    ensures form { tally.new.form ≡ tally.old.form }
    ensures count { OnOk result (tally.new.count ≡ tally.old.count + 1) }
    ensures err { IfErr result (λ stop. StoppedItem S.answers tally.old.form stop session
        (moment (S.content store.old) (O.held sink.old) meter.old)
        (moment (S.content store.new) (O.held sink.new) meter.new)
        (tally.old.count + 1) (Cut piece.now ∷ [])) }
    ensures unmoved { tally.old.form ≡ Form.Check → (store.new ≡ store.old) × (meter.new ≡ meter.old) }
    ensures causes { Causes (S.faults store.old) (S.faults store.new) (O.faults sink.old) (O.faults sink.new) result }
{
    let number = tally.count + 1;
    match make(alloc, tally.form, session, number, piece, store, meter) {
        Ok(made) => {
            write_report(alloc, &made.1, sink)?;
            *tally = tally.with(made.1.is_refusal());
            Ok(made.0)
        }
        Err(broke) => Err(Stop::of(broke)),
    }
}

/// Cuts a part of a script, and makes and reports the pieces that end in it.
pub fn run_part<S: Store<L>, O: Sink, L: Ledger>(
    alloc: Global,
    session: PlannedCatalog,
    bytes: &[u8],
    progress: &mut Progress,
    store: &mut S,
    meter: &mut Meter<L>,
    sink: &mut O,
) -> Result<PlannedCatalog, Stop>
    requires few { progress.old.tally.count + length bytes.now < 2 ^ 32 }
    requires read { ReadsSource progress.old.tally.form }
    ensures ok { IfOk result (λ next. ProgressedRun progress.old.tally.form session next
        (moment (S.content store.old) (O.held sink.old) meter.old)
        (moment (S.content store.new) (O.held sink.new) meter.new)
        bytes.now progress.old progress.new) }
    ensures err { IfErr result (λ stop. StoppedItem S.answers progress.old.tally.form stop session
        (moment (S.content store.old) (O.held sink.old) meter.old)
        (moment (S.content store.new) (O.held sink.new) meter.new)
        (progress.old.tally.count + 1) (cut_items (pieces_from progress.old.splitter bytes.now))) }
    ensures form { progress.new.tally.form ≡ progress.old.tally.form }
    ensures unmoved { progress.old.tally.form ≡ Form.Check → (store.new ≡ store.old) × (meter.new ≡ meter.old) }
    ensures causes { Causes (S.faults store.old) (S.faults store.new) (O.faults sink.old) (O.faults sink.new) result }
{
    let mut session = session;
    let mut at = 0;
    while at < bytes.len() {
        let (n, piece) = match progress.splitter.feed(alloc, &bytes[at..]) {
            Ok(fed) => fed,
            Err(NoMem) => return Err(Stop::NoMem),
        };
        at += n;
        if let Some(piece) = piece {
            session = serve(
                alloc,
                session,
                &piece,
                &mut progress.tally,
                store,
                meter,
                sink,
            )?;
        }
    }
    Ok(session)
}

/// The report of an unfinished rest.
pub fn rest_report(alloc: Global, number: u32) -> Report
    ensures { result ≡ rest_report number }
{
    Report {
        number,
        lines: List::new(alloc),
        end: End::Refused(Refusal::Unfinished),
        bound: Bound { ops: 0, entries: 0 },
        used: Used { ops: 0, entries: 0 },
    }
}

fn has_rest(ending: Ending, splitter: Splitter) -> bool
    ensures { result ≡ has_rest ending splitter }
{
    match ending {
        Ending::Whole => splitter.end(),
        Ending::Faulted | Ending::TooLong => false,
    }
}

/// Reports the rest of a script that was read to its end, where it is unfinished.
pub fn finish<O: Sink>(
    alloc: Global,
    ending: Ending,
    progress: Progress,
    sink: &mut O,
) -> Result<Ended, Stop>
    requires { progress.tally.count + 1 < 2 ^ 32 }
    ensures ok { IfOk result (λ ended. ReportsRest ending progress ended (O.held sink.old) (O.held sink.new)) }
    ensures err { IfErr result (λ stop. StoppedAtRest stop ending progress (O.held sink.old) (O.held sink.new)) }
    ensures causes { Causes 0 0 (O.faults sink.old) (O.faults sink.new) result }
{
    let Progress { splitter, tally } = progress;
    let unfinished = has_rest(ending, splitter);
    if unfinished {
        write_report(alloc, &rest_report(alloc, tally.count + 1), sink)?;
    }
    Ok(Ended {
        ending,
        refused: tally.refused || unfinished,
    })
}
