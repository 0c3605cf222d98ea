//! The steps of a write that holds its key.
ghost use Rattle.pq_clients.specs.Fitting.{FitsStage};
ghost use Rattle.pq_clients.specs.Seen.{seen_stage};
ghost use Rattle.pq_clients.specs.InFlight.{tables_of, seen_flight, MayFly, spot_of, StepsFrom};
ghost use Rattle.pq_clients.specs.Clients.{Flying};

use crate::check_steps::check_step;
use crate::entry_steps::{add_step, clear_step, undo_step};
use crate::flight::{Holder, InFlight};
use crate::halt::Halt;
use crate::limit_steps::test_step;
use crate::own_steps::{free_step, put_step, release_step};
use crate::stage::{Course, Stage};
use pq_store::{Meter, Store};
use std::alloc::Global;
use std::sync::ledger::Ledger;

/// A step of a write that holds its key.
pub(crate) fn fly<S: Store<L>, L: Ledger>(
    alloc: Global,
    flight: &InFlight<'_>,
    holder: Holder,
    stage: &Stage,
    store: &mut S,
    meter: &mut Meter<L>,
) -> Result<Course, Halt>
    requires write { MayFly flight.now }
    requires fits { FitsStage (tables_of flight.now) (seen_flight flight.now) (seen_stage stage.now) }
    ensures { StepsFrom (tables_of flight.now) holder.client holder.number flight.now.write.now
        (Flying (seen_flight flight.now) (seen_stage stage.now)) (seen_flight flight.now)
        (spot_of S.Store store.old meter.old) (spot_of S.Store store.new meter.new) result }
{
    match stage {
        Stage::Checking { check, left } => {
            check_step(alloc, flight, check, left.items(), store, meter)
        }
        Stage::Adding { entry, left, added } => {
            let left = left.items();
            add_step(alloc, flight, entry, left, added.items(), store, meter)
        }
        Stage::Testing {
            place,
            left,
            passed,
        } => {
            let left = left.items();
            test_step(alloc, flight, *place, left, passed.items(), store, meter)
        }
        Stage::Putting => put_step(alloc, flight, holder, store, meter),
        Stage::Clearing { entry, left } => clear_step(alloc, entry, left.items(), store, meter),
        Stage::Freeing => free_step(alloc, flight, holder, store, meter),
        Stage::Undoing {
            entry,
            left,
            refusal,
        } => undo_step(alloc, entry, left.items(), refusal, store, meter),
        Stage::Releasing { refusal } => release_step(alloc, flight, holder, refusal, store, meter),
    }
}
