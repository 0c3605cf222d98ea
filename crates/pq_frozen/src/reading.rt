//! What a session answers over a store that stands still.
ghost use Rattle.std.specs.Prelude.{◌≡◌, ◌+◌, ◌<◌, ◌^◌, Some, IfOk, IfErr, length};
ghost use Rattle.pq_frozen.specs.Reading.{AllRead, AreAnswers};
ghost use Rattle.pq_statement.specs.Actions.{action_of};
ghost use Rattle.pq_reports.specs.Matches.{Matches};
ghost use Rattle.pq_catalog.specs.Model.{Model as Tables};
ghost use Rattle.pq_opening.specs.Opening.{IsOpening, IsQuiet, opening_of};
ghost use Rattle.pq_reports.specs.Promise.{OnlyReads};
ghost use Rattle.pq_catalog.specs.Stands.{HoldsModel, Stands};
ghost use Rattle.pq_reports.specs.Step.{step};

use crate::frozen::Frozen;
use pq_base::List;
use pq_catalog::PlannedCatalog;
use pq_opening::{Begun, start};
use pq_print::Report;
use pq_step::statement;
use pq_store::{Broke, Meter};
use pq_text::Piece;
use std::alloc::Global;
use std::sync::ledger::Ledger;

/// Opens a store that stands still. Over a quiet content an opening writes nothing; so what it holds is still
/// there, and the session stands for the model of it. Want of memory alone can keep it from that.
pub fn open_frozen<L: Ledger>(
    alloc: Global,
    store: &mut Frozen,
    meter: &mut Meter<L>,
) -> Result<Begun, Broke>
    ensures still { IsQuiet store.old.held → store.new.held ≡ store.old.held }
    ensures opened { IfOk result (λ s. (m : Tables) → HoldsModel (Some store.old.held) m
        → IsOpening (Some store.old.held) m (opening_of s) × Stands (Some store.new.held) s.planned m) }
    ensures no_memory { IfErr result (λ broke. (m : Tables) → HoldsModel (Some store.old.held) m
        → broke ≡ Broke.NoMem) }
{
    start(alloc, store, meter)
}

/// Answers a statement. One that writes nothing leaves what the store holds, has the report of the model's step
/// but for what it used, and the model stays what it was. Want of memory alone can keep it from that; it is what
/// a statement is told, too, that would write.
pub fn answer<L: Ledger>(
    session: PlannedCatalog,
    alloc: Global,
    number: u32,
    piece: &Piece,
    store: &mut Frozen,
    meter: &mut Meter<L>,
) -> Result<(PlannedCatalog, Report), Broke>
    ensures still { OnlyReads (action_of session piece.now) → store.new.held ≡ store.old.held }
    ensures answered { IfOk result (λ p. (m : Tables) → Stands (Some store.old.held) session m
        → OnlyReads (action_of session piece.now) → Matches (step m number piece.now).report p.1
        × Stands (Some store.new.held) p.0 m) }
    ensures no_memory { IfErr result (λ broke. (m : Tables) → Stands (Some store.old.held) session m
        → broke ≡ Broke.NoMem) }
{
    statement(alloc, session, number, piece, store, meter)
}

/// Opens a store that stands still and answers statements over it, which are numbered from 1. Where each of them
/// writes nothing, their reports are those of the steps of one model, that of what the store holds. So any number of
/// readers, each over what a writer held at some moment, answer as the model does after what was written by then.
pub fn read_all<L: Ledger>(
    alloc: Global,
    pieces: &[Piece],
    store: &mut Frozen,
    meter: &mut Meter<L>,
) -> Result<List<Report>, Broke>
    requires { length pieces.now + 1 < 2 ^ 32 }
    ensures still { (m : Tables) → HoldsModel (Some store.old.held) m → AllRead m.schema pieces.now
        → store.new.held ≡ store.old.held }
    ensures answered { IfOk result (λ reports. (m : Tables) → HoldsModel (Some store.old.held) m
        → AllRead m.schema pieces.now → AreAnswers m 1 pieces.now reports) }
    ensures no_memory { IfErr result (λ broke. (m : Tables) → HoldsModel (Some store.old.held) m
        → AllRead m.schema pieces.now → broke ≡ Broke.NoMem) }
{
    let started = open_frozen(alloc, store, meter)?;
    let mut session = started.planned;
    let mut reports = List::new(alloc);
    let mut number = 1;
    for piece in pieces {
        let (next, report) = answer(session, alloc, number, piece, store, meter)?;
        session = next;
        reports.push(alloc, report)?;
        number += 1;
    }
    Ok(reports)
}
