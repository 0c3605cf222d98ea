//! The number that a counter has for a group.
ghost use Rattle.std.specs.Prelude.{◌≡◌, ◌≤◌, ◌+◌, List, IfOk, IfErr, IfSome};
ghost use Rattle.std.specs.FinMap.{get as value_at};
ghost use Rattle.pq_schema.specs.Counters.{IsCounterNumber};
ghost use Rattle.pq_content.specs.Pairs.{Pair};
ghost use Rattle.pq_content.specs.Tables.{Rows, AllOfKinds};
ghost use Rattle.pq_store.specs.Breaks.{IsUndamaged, IsAnswered};
ghost use Rattle.pq_calls.specs.World.{world, Affords, Reads, Explains, where_told};
ghost use Rattle.pq_pending.specs.Pending.{seen_content, seen_answers};
ghost use Rattle.pq_tallies.specs.Counters.{counter_key as key_of_group, most_count, tally, HoldsCounted};
ghost use Rattle.pq_tallies.specs.Defined.{counter_numbered, group_types};
ghost use Rattle.pq_counters.specs.Evidence.{IsCounted, IsNoCount, IsNoCountAt};
ghost use Rattle.pq_counters.specs.Planning.{AsksFrom, store_world, behind_world};

use crate::groups::{GroupCount, group_count};
use pq_base::{Bytes, Row};
use pq_pending::{Pending, PendingCalls};
use pq_schema::Catalog;
use pq_store::{Allowance, Broke, Meter, Store};
use pq_tallies::counter_key;
use std::alloc::Global;
use std::sync::ledger::Ledger;

/// The number of rows of the group with this key, behind changes that are not made yet.
fn group_behind<S: Store<L>, L: Ledger>(
    alloc: Global,
    at: Bytes,
    pending: &Pending,
    store: &mut S,
    allowance: &mut Allowance,
    meter: &mut Meter<L>,
) -> Result<GroupCount, Broke>
    requires share { Affords allowance.old 1 1 }
    ensures asks { AsksFrom (IsNoCountAt at)
        (behind_world S.Store pending.now.changes store.old allowance.old meter.old)
        (behind_world S.Store pending.now.changes store.new allowance.new meter.new)
        1 (seen_answers S.answers pending.now.changes) result }
    ensures rounds { S.rounds store.new ≤ S.rounds store.old + 1 }
    ensures few { IfOk result (λ group. group.count ≤ most_count) }
    ensures counted { IfOk result (λ group. IfSome (seen_content pending.now.changes (S.content store.old))
        (λ c. IsCounted (value_at c at) group.count)) }
{
    let mut calls = PendingCalls {
        pending,
        store,
        allowance,
        meter,
    };
    group_count(alloc, at, &mut calls)
}

/// The number of rows of the group with this key: one get.
fn stored_group<S: Store<L>, L: Ledger>(
    alloc: Global,
    at: Bytes,
    store: &mut S,
    allowance: &mut Allowance,
    meter: &mut Meter<L>,
) -> Result<GroupCount, Broke>
    requires share { Affords allowance.old 1 1 }
    ensures asks { AsksFrom (IsNoCountAt at) (store_world S.Store store.old allowance.old meter.old)
        (store_world S.Store store.new allowance.new meter.new) 1 S.answers result }
    ensures rounds { S.rounds store.new ≤ S.rounds store.old + 1 }
    ensures few { IfOk result (λ group. group.count ≤ most_count) }
    ensures counted { IfOk result (λ group. IfSome (S.content store.old)
        (λ c. IsCounted (value_at c at) group.count)) }
{
    let pending = Pending::none(alloc);
    group_behind(alloc, at, &pending, store, allowance, meter)
}

/// How many rows of the counter's table have these values at its columns: one get.
pub fn read_counter<S: Store<L>, L: Ledger>(
    alloc: Global,
    catalog: &Catalog,
    number: u16,
    values: &Row,
    store: &mut S,
    allowance: &mut Allowance,
    meter: &mut Meter<L>,
) -> Result<u64, Broke>
    requires number { IsCounterNumber catalog.now number }
    requires kinds { AllOfKinds (group_types catalog.now.tables (counter_numbered catalog.now number)) values.now }
    requires share { Affords allowance.old 1 1 }
    ensures reads { Reads (world (S.content store.old) (S.faults store.old) allowance.old meter.old)
        (world (S.content store.new) (S.faults store.new) allowance.new meter.new) 1 1 }
    ensures few { IfOk result (λ n. n ≤ most_count) }
    // Over every told store it is the number at the group's key, whatever stands at all others.
    ensures stored { IfOk result (λ n. IfSome (S.content store.old)
        (λ content. IsCounted (value_at content (key_of_group number values.now)) n)) }
    ensures rounds { S.rounds store.new ≤ S.rounds store.old + 1 }
    ensures cause { IfErr result (Explains
        (where_told (IsNoCount catalog.now.tables (counter_numbered catalog.now number)))
        (world (S.content store.old) (S.faults store.old) allowance.old meter.old)
        (world (S.content store.new) (S.faults store.new) allowance.new meter.new)) }
    ensures answered { IfErr result (IsAnswered S.answers) }
    ensures undamaged { IfErr result (λ error. (rows : Rows) (others : List Pair)
        → HoldsCounted (S.content store.old) catalog.now rows others → IsUndamaged error) }
    ensures answer { IfOk result (λ n. (rows : Rows) (others : List Pair)
        → HoldsCounted (S.content store.old) catalog.now rows others
        → n ≡ tally rows (counter_numbered catalog.now number) values.now) }
{
    catalog.known();
    let at = counter_key(alloc, number, values)?;
    let group = stored_group(alloc, at, store, allowance, meter)?;
    Ok(group.count)
}
