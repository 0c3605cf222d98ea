//! The changes of counters' pairs that belong to a write.
ghost use Rattle.std.specs.Prelude.{◌≡◌, IfOk};
ghost use Rattle.std.specs.Option.{option_copied};
ghost use Rattle.pq_schema.specs.Valid.{IsValid};
ghost use Rattle.pq_pending.specs.Calls.{seen};
ghost use Rattle.pq_calls.specs.World.{where_told};
ghost use Rattle.pq_index_keep.specs.Sound.{IsWrite};
ghost use Rattle.pq_tallies.specs.Defined.{counters_in};
ghost use Rattle.pq_tallies.specs.Writes.{written_table};
ghost use Rattle.pq_counters.specs.Bounds.{all_moves, counter_reads, counter_rounds};
ghost use Rattle.pq_counters.specs.Evidence.{ShowsCounted};
ghost use Rattle.pq_counters.specs.Planning.{CanRead, Asks, AsksWithin, AreRowsOf, MovesRows, CountsRows};

use crate::bound::all_moves;
use crate::steps::plan_moves;
use pq_base::{List, Row};
use pq_index_keep::{Planned, Write};
use pq_pending::PendingCalls;
use pq_schema::Catalog;
use pq_store::{Broke, Store};
use std::alloc::Global;
use std::sync::ledger::Ledger;

/// The number of the table of a write.
fn written_table(write: &Write) -> u8
    ensures { result ≡ written_table write.now }
{
    match write {
        Write::Insert { table, .. } | Write::Update { table, .. } | Write::Delete { table, .. } =>
            *table,
    }
}

/// The changes for the row of a write that goes and the one that comes.
fn plan_moved<S: Store<L>, L: Ledger>(
    alloc: Global,
    catalog: &Catalog,
    write: &Write,
    old: Option<&Row>,
    new: Option<&Row>,
    calls: &mut PendingCalls<S, L>,
) -> Result<Planned, Broke>
    requires valid { IsValid catalog.now }
    requires write { IsWrite catalog.now.tables write.now }
    requires rows { MovesRows catalog.now write.now (seen S.content calls.old) (option_copied old) (option_copied new) }
    requires share { CanRead calls.old (all_moves (counters_in catalog.now) write.now) }
    ensures asks { Asks S.Store (where_told (ShowsCounted catalog.now)) calls.old calls.new
        (all_moves (counters_in catalog.now) write.now) result }
    ensures rounds { AsksWithin S.Store calls.old calls.new (counter_rounds (counters_in catalog.now) write.now) }
    ensures plan { IfOk result (CountsRows catalog.now write.now (seen S.content calls.old)
        (option_copied old.entry)) }
{
    plan_moves(alloc, catalog, written_table(write), old, new, calls)
}

/// The changes of any write that may move a row of a counter. A row that isn't there is in no group, and one that isn't
/// as an UPDATE says stays.
pub(crate) fn plan_by<S: Store<L>, L: Ledger>(
    alloc: Global,
    catalog: &Catalog,
    write: &Write,
    old: &Option<Row>,
    new: &Option<Row>,
    calls: &mut PendingCalls<S, L>,
) -> Result<Planned, Broke>
    requires valid { IsValid catalog.now }
    requires write { IsWrite catalog.now.tables write.now }
    requires rows { AreRowsOf catalog.now.tables write.now (seen S.content calls.old) old.now new.now }
    requires share { CanRead calls.old (all_moves (counters_in catalog.now) write.now) }
    ensures asks { Asks S.Store (where_told (ShowsCounted catalog.now)) calls.old calls.new
        (all_moves (counters_in catalog.now) write.now) result }
    ensures rounds { AsksWithin S.Store calls.old calls.new (counter_rounds (counters_in catalog.now) write.now) }
    ensures plan { IfOk result (CountsRows catalog.now write.now (seen S.content calls.old) old.now) }
{
    match write {
        Write::Insert { row, .. } => plan_moved(alloc, catalog, write, None, Some(row), calls),
        Write::Update { .. } => {
            let Some(old) = old else {
                return Ok(Planned::Changes(List::new(alloc)));
            };
            let Some(new) = new else {
                return Ok(Planned::Changes(List::new(alloc)));
            };
            plan_moved(alloc, catalog, write, Some(old), Some(new), calls)
        }
        Write::Delete { .. } => {
            let Some(old) = old else {
                return Ok(Planned::Changes(List::new(alloc)));
            };
            plan_moved(alloc, catalog, write, Some(old), None, calls)
        }
    }
}

/// The changes that keep the counters' pairs with a write for which changes are planned, by its old and its new row, or
/// the refusal of the first counter of which a group would have too many rows. It changes nothing in the store, and
/// nothing is read where no row can move.
pub(crate) fn plan_any<S: Store<L>, L: Ledger>(
    alloc: Global,
    catalog: &Catalog,
    write: &Write,
    old: &Option<Row>,
    new: &Option<Row>,
    calls: &mut PendingCalls<S, L>,
) -> Result<Planned, Broke>
    requires valid { IsValid catalog.now }
    requires write { IsWrite catalog.now.tables write.now }
    requires rows { AreRowsOf catalog.now.tables write.now (seen S.content calls.old) old.now new.now }
    requires share { CanRead calls.old (counter_reads (counters_in catalog.now) write.now) }
    ensures asks { Asks S.Store (where_told (ShowsCounted catalog.now)) calls.old calls.new
        (counter_reads (counters_in catalog.now) write.now) result }
    ensures rounds { AsksWithin S.Store calls.old calls.new (counter_rounds (counters_in catalog.now) write.now) }
    // At most as many changes as the counters add, each of a counter's key to a number, whatever the store tells.
    ensures plan { IfOk result (CountsRows catalog.now write.now (seen S.content calls.old) old.now) }
{
    if all_moves(catalog, write) == 0 {
        return Ok(Planned::Changes(List::new(alloc)));
    }
    plan_by(alloc, catalog, write, old, new, calls)
}
