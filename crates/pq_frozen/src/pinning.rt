//! What a writer holds behind some of its statements.
ghost use Rattle.std.specs.Prelude.{◌+◌, ◌<◌, ◌^◌, Some, IfOk, length};
ghost use Rattle.pq_frozen.specs.Reading.{model_behind};
ghost use Rattle.pq_catalog.specs.Model.{Model as Tables};
ghost use Rattle.pq_catalog.specs.Stands.{HoldsModel, Opens};

use crate::frozen::Frozen;
use pq_mem_store::MemStore;
use pq_opening::start;
use pq_step::statement;
use pq_store::{Broke, Meter};
use pq_text::Piece;
use std::alloc::Global;
use std::sync::ledger::Ledger;

/// Opens a writer's store, makes these statements over it, which are numbered from 1, and pins what it then holds. That
/// is the content of the model behind these statements, whole: neither an intent nor an index that is being filled
/// stands in it.
pub fn pinned_behind<L: Ledger>(
    alloc: Global,
    pieces: &[Piece],
    store: &mut MemStore,
    meter: &mut Meter<L>,
) -> Result<Frozen, Broke>
    requires { length pieces.now + 1 < 2 ^ 32 }
    ensures { IfOk result (λ pinned. (m : Tables) → Opens (Some store.old) m
        → HoldsModel (Some pinned.held) (model_behind m 1 pieces.now)) }
{
    let started = start(alloc, store, meter)?;
    let mut session = started.planned;
    let mut number = 1;
    for piece in pieces {
        let (next, _) = statement(alloc, session, number, piece, store, meter)?;
        session = next;
        number += 1;
    }
    let pinned = Frozen::pin(alloc, store)?;
    Ok(pinned)
}
