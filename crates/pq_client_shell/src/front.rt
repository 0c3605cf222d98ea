//! The pieces before the first write: they are made and reported as by a run.
ghost use Rattle.std.specs.Prelude.{◌<◌, ◌^◌, ◌+◌, false, length, IfOk, IfErr};
ghost use Rattle.pq_fill.specs.declared.words.Form.TheVariants as Form;
ghost use Rattle.pq_shell.specs.Fold.{ServedItems, StoppedItem};
ghost use Rattle.pq_shell.specs.Items.{cut_items};
ghost use Rattle.pq_shell.specs.Making.{moment};
ghost use Rattle.pq_console.specs.Stops.{Causes};

use pq_catalog::PlannedCatalog;
use pq_fill::Form;
use pq_shell::{Sink, Stop, Tally, serve};
use pq_store::{Meter, Store};
use pq_text::Piece;
use std::alloc::Global;
use std::sync::ledger::Ledger;

/// What the pieces before the first write leave: the session, and whether one of them was refused.
#[derive(Drop)]
pub struct Front {
    pub session: PlannedCatalog,
    pub refused: bool,
}

/// Makes these pieces over the store and reports each of them.
pub fn run_front<S: Store<L>, O: Sink, L: Ledger>(
    alloc: Global,
    session: PlannedCatalog,
    pieces: &[Piece],
    store: &mut S,
    meter: &mut Meter<L>,
    sink: &mut O,
) -> Result<Front, Stop>
    requires { length pieces.now + 1 < 2 ^ 32 }
    ensures ok { IfOk result (λ front. ServedItems Form.Run session front.session
        (moment (S.content store.old) (O.held sink.old) meter.old)
        (moment (S.content store.new) (O.held sink.new) meter.new)
        1 (cut_items pieces.now) false front.refused) }
    ensures err { IfErr result (λ stop. StoppedItem S.answers Form.Run stop session
        (moment (S.content store.old) (O.held sink.old) meter.old)
        (moment (S.content store.new) (O.held sink.new) meter.new)
        1 (cut_items pieces.now)) }
    ensures causes { Causes (S.faults store.old) (S.faults store.new) (O.faults sink.old) (O.faults sink.new) result }
{
    let mut session = session;
    let mut tally = Tally {
        form: Form::Run,
        count: 0,
        refused: false,
    };
    for piece in pieces {
        session = serve(alloc, session, piece, &mut tally, store, meter, sink)?;
    }
    Ok(Front {
        session,
        refused: tally.refused,
    })
}
