//! The generated script, made statement by statement; its reports are noted, and none is kept.
ghost use Rattle.std.specs.Prelude.{◌≡◌, ◌≤◌, ◌<◌, ◌+◌, ◌^◌, ◌||◌, IfOk, IfErr, Option, List, ℕ};
ghost use Rattle.pq_fill.specs.Summary.{with_report};
ghost use Rattle.pq_print.specs.Report.{is_refusal};
ghost use Rattle.pq_fill.specs.declared.words.Form.TheVariants as Form;
ghost use Rattle.pq_shell.specs.Filling.{Fills};
ghost use Rattle.pq_shell.specs.Fold.{StoppedItem};
ghost use Rattle.pq_shell.specs.Forms.{fill_items};
ghost use Rattle.pq_shell.specs.Making.{moment};
ghost use Rattle.pq_console.specs.Stops.{Causes};

use crate::serving::make;
use pq_base::{NoMem, Used};
use pq_catalog::PlannedCatalog;
use pq_console::Stop;
use pq_fill::{Form, Kind, Summary, fill_count, fill_kind, fill_statement};
use pq_print::Report;
use pq_store::{Meter, Store};
use pq_text::Piece;
use std::alloc::Global;
use std::sync::ledger::Ledger;

/// What was noted of a generated script, and whether a statement was refused.
#[derive(Drop)]
pub struct Filled {
    pub summary: Summary,
    pub refused: bool,
}

impl Filled {
    /// Notes the report of a statement of this kind.
    fn note(&mut self, kind: Kind, report: &Report)
        requires { self.old.summary.reports + 1 < 2 ^ 32 }
        ensures summary { self.new.summary ≡ with_report self.old.summary (kind, report.now) }
        ensures refused { self.new.refused ≡ (self.old.refused || is_refusal report.now) }
    {
        self.summary.note(kind, report);
        self.refused = self.refused || report.is_refusal();
    }
}

/// Makes the statements of the generated script for n users, after an opening that used this much.
pub fn fill_store<S: Store<L>, L: Ledger>(
    alloc: Global,
    n: u32,
    session: PlannedCatalog,
    used: Used,
    store: &mut S,
    meter: &mut Meter<L>,
) -> Result<Filled, Stop>
    requires { (1 ≤ n) × (n ≤ 20000) }
    ensures ok { IfOk result (λ filled. (held : Option (List ℕ))
        → Fills n session used (moment (S.content store.old) held meter.old)
        (moment (S.content store.new) held meter.new) filled) }
    ensures err { IfErr result (λ stop. (held : Option (List ℕ))
        → StoppedItem S.answers (Form.Fill n) stop session (moment (S.content store.old) held meter.old)
        (moment (S.content store.new) held meter.new) 1 (fill_items n)) }
    ensures causes { Causes (S.faults store.old) (S.faults store.new) 0 0 result }
{
    let count = fill_count(n);
    let mut session = session;
    let mut filled = Filled {
        summary: Summary::new(used),
        refused: false,
    };
    let mut made = 0;
    while made < count {
        let found = match fill_statement(alloc, n, made) {
            Ok(found) => found,
            Err(NoMem) => return Err(Stop::NoMem),
        };
        let Some(text) = found else { unreachable!() };
        let Some(kind) = fill_kind(n, made) else {
            unreachable!()
        };
        let piece = Piece::Statement(text);
        made += 1;
        let (next, report) = match make(alloc, Form::Fill(n), session, made, &piece, store, meter) {
            Ok(stepped) => stepped,
            Err(broke) => return Err(Stop::of(broke)),
        };
        session = next;
        filled.note(kind, &report);
    }
    Ok(filled)
}
