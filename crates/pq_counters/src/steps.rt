//! What a row that goes and a row that comes change of the counters' pairs.
ghost use Rattle.std.specs.Prelude.{◌≡◌, ◌≤◌, ◌+◌, ℕ, All, length, map, IfOk, IfErr, IfSome};
ghost use Rattle.std.specs.List.{AllByRecursion, AllZip, sum_by};
ghost use Rattle.std.specs.Option.{option_copied};
ghost use Rattle.pq_schema.specs.Counters.{IsCounterNumber};
ghost use Rattle.pq_content.specs.Standing.{change_of};
ghost use Rattle.pq_content.specs.Tables.{IsTableNumber};
ghost use Rattle.pq_pending.specs.Calls.{seen, answers_of};
ghost use Rattle.pq_calls.specs.World.{no_damage};
ghost use Rattle.pq_store.specs.Rounds.{IsValueOf, IsValueAnswered};
ghost use Rattle.pq_tallies.specs.Defined.{counters_in, counter_numbered, with_number};
ghost use Rattle.pq_tallies.specs.Writes.{counter_full};
ghost use Rattle.pq_counters.specs.Bounds.{round_of};
ghost use Rattle.pq_counters.specs.Groups.{asked_key, IsMovedGroup, IsSpoilt, PlansFound, PlansGroups, SpoilsFound, SpoilsGroups, value_in};
ghost use Rattle.pq_counters.specs.Planning.{CanRead, Asks, AsksWithin, PlansRows};
ghost use Rattle.pq_counters.specs.Promises.{CanBeFull, IsCounterChange, IsCountedWithin, RefusesAsFull};
ghost use Rattle.pq_counters.specs.Steps.{moves_of, moves_at, MovesLittle, AreOfTable, SpoilsMoves};

use crate::groups::turned;
use crate::moved::{MovedGroup, asked_keys, moved_groups};
use pq_base::{Bytes, List, NoMem, Refusal, Row};
use pq_index_keep::Planned;
use pq_pending::PendingCalls;
use pq_row_code::Change;
use pq_schema::{Catalog, Counter};
use pq_store::{Broke, Store};
use std::alloc::Global;
use std::sync::ledger::Ledger;

/// The refusal of a write by a counter that is full.
fn full(alloc: Global, counter: &Counter) -> Result<Refusal, NoMem>
    ensures { IfOk result (λ why. (number : ℕ) → why ≡ counter_full (with_number number counter.now)) }
{
    Ok(Refusal::CounterFull {
        name: counter.name.copy(alloc)?,
    })
}

/// Puts the changes of the groups, of which these values were found, behind the others, up to the first group that is
/// full; the refusal of its counter. It is as deep as there are groups, and a table has at most 4 counters.
fn put_changes(
    alloc: Global,
    catalog: &Catalog,
    groups: &[MovedGroup],
    found: &[Option<Bytes>],
    changes: &mut List<Change>,
) -> Result<Option<Refusal>, Broke>
    requires each { AllByRecursion (IsMovedGroup catalog.now) groups.now }
    requires long { length found.now ≡ length groups.now }
    ensures spoils { IfErr result (IsSpoilt (SpoilsFound groups.now found.now)) }
    ensures few { IfOk result (λ full. length changes.new ≤ length changes.old + length groups.now) }
    ensures each { All IsCounterChange changes.old → IfOk result (λ full. All IsCounterChange changes.new) }
    ensures can { IfOk result (λ full. IfSome full (CanBeFull catalog.now)) }
    ensures plans { IfOk result (PlansFound catalog.now groups.now found.now (map change_of changes.old)
        (map change_of changes.new)) }
{
    let [group, groups @ ..] = groups else {
        return Ok(None);
    };
    let [value, found @ ..] = found else {
        return Ok(None);
    };
    let Some(change) = turned(alloc, group, value)? else {
        return Ok(Some(full(alloc, catalog.counter(group.number))?));
    };
    changes.push(alloc, change)?;
    put_changes(alloc, catalog, groups, found, changes)
}

/// The changes of the groups, of which these values were found, or the refusal of the first counter whose group is
/// full.
fn plan_found(
    alloc: Global,
    catalog: &Catalog,
    groups: &[MovedGroup],
    found: &[Option<Bytes>],
) -> Result<Planned, Broke>
    requires each { AllByRecursion (IsMovedGroup catalog.now) groups.now }
    requires long { length found.now ≡ length groups.now }
    ensures spoils { IfErr result (IsSpoilt (SpoilsFound groups.now found.now)) }
    ensures plan { IfOk result (IsCountedWithin (length groups.now)) }
    ensures can { IfOk result (RefusesAsFull catalog.now) }
    ensures plans { IfOk result (PlansGroups catalog.now groups.now found.now) }
{
    let mut changes = List::new(alloc);
    match put_changes(alloc, catalog, groups, found, &mut changes)? {
        Some(why) => Ok(Planned::Refused(why)),
        None => Ok(Planned::Changes(changes)),
    }
}

/// The values of the groups' pairs, in one round.
fn found_values<S: Store<L>, L: Ledger>(
    alloc: Global,
    groups: &[MovedGroup],
    calls: &mut PendingCalls<S, L>,
) -> Result<List<Option<Bytes>>, Broke>
    requires share { CanRead calls.old (length groups.now) }
    ensures asks { Asks S.Store no_damage calls.old calls.new (length groups.now) result }
    ensures rounds { AsksWithin S.Store calls.old calls.new 1 }
    ensures long { IfOk result (λ found. length found ≡ length groups.now) }
    ensures answer { IfOk result (AllZip (IsValueOf (seen S.content calls.old)) (map asked_key groups.now)) }
    ensures answers { IfOk result (AllZip (IsValueAnswered (answers_of S.answers calls.old))
        (map asked_key groups.now)) }
{
    let keys = asked_keys(alloc, groups)?;
    calls.gets(alloc, keys.items())
}

/// The changes of the groups: all values are asked for at once, and nothing where there is no group.
fn plan_groups<S: Store<L>, L: Ledger>(
    alloc: Global,
    catalog: &Catalog,
    groups: &[MovedGroup],
    calls: &mut PendingCalls<S, L>,
) -> Result<Planned, Broke>
    requires each { AllByRecursion (IsMovedGroup catalog.now) groups.now }
    requires share { CanRead calls.old (length groups.now) }
    ensures asks { Asks S.Store (SpoilsGroups groups.now) calls.old calls.new (length groups.now) result }
    ensures rounds { AsksWithin S.Store calls.old calls.new (round_of (length groups.now)) }
    ensures plan { IfOk result (IsCountedWithin (length groups.now)) }
    ensures can { IfOk result (RefusesAsFull catalog.now) }
    ensures plans { IfOk result (λ planned. IfSome (seen S.content calls.old)
        (λ content. PlansGroups catalog.now groups.now (map (value_in content) groups.now) planned)) }
{
    if groups.is_empty() {
        return Ok(Planned::Changes(List::new(alloc)));
    }
    let found = found_values(alloc, groups, calls)?;
    plan_found(alloc, catalog, groups, found.items())
}

/// The changes of the pairs of the counters with these numbers, or the refusal of the first of which a group would
/// grow that is full.
fn plan_each<S: Store<L>, L: Ledger>(
    alloc: Global,
    catalog: &Catalog,
    table: u8,
    old: Option<&Row>,
    new: Option<&Row>,
    numbers: &[u16],
    calls: &mut PendingCalls<S, L>,
) -> Result<Planned, Broke>
    requires numbers { All (IsCounterNumber catalog.now) numbers.now }
    requires small { All (MovesLittle catalog.now table (option_copied old) (option_copied new)) numbers.now }
    requires share { CanRead calls.old
        (sum_by (moves_at catalog.now table (option_copied old) (option_copied new)) numbers.now) }
    ensures asks { Asks S.Store
        (SpoilsMoves catalog.now table (option_copied old.entry) (option_copied new.entry)) calls.old calls.new
        (sum_by (moves_at catalog.now table (option_copied old.entry) (option_copied new.entry)) numbers.now) result }
    ensures rounds { AsksWithin S.Store calls.old calls.new (round_of
        (sum_by (moves_at catalog.now table (option_copied old.entry) (option_copied new.entry)) numbers.now)) }
    ensures plan { IfOk result (PlansRows catalog.now (map (counter_numbered catalog.now) numbers.now)
        (sum_by (moves_at catalog.now table (option_copied old.entry) (option_copied new.entry)) numbers.now) table
        (option_copied old.entry) (option_copied new.entry) (seen S.content calls.old)) }
{
    catalog.known();
    let groups = moved_groups(alloc, catalog, table, old, new, numbers)?;
    plan_groups(alloc, catalog, groups.items(), calls)
}

/// The changes of all counters' pairs, or the refusal of the first counter of which a group would grow that is full.
pub(crate) fn plan_moves<S: Store<L>, L: Ledger>(
    alloc: Global,
    catalog: &Catalog,
    table: u8,
    old: Option<&Row>,
    new: Option<&Row>,
    calls: &mut PendingCalls<S, L>,
) -> Result<Planned, Broke>
    requires number { IsTableNumber catalog.now.tables table }
    requires rows { AreOfTable catalog.now.tables table (option_copied old) (option_copied new) }
    requires share { CanRead calls.old
        (sum_by (moves_of table (option_copied old) (option_copied new)) (counters_in catalog.now)) }
    ensures asks { Asks S.Store
        (SpoilsMoves catalog.now table (option_copied old.entry) (option_copied new.entry)) calls.old calls.new
        (sum_by (moves_of table (option_copied old.entry) (option_copied new.entry)) (counters_in catalog.now))
        result }
    ensures rounds { AsksWithin S.Store calls.old calls.new (round_of
        (sum_by (moves_of table (option_copied old.entry) (option_copied new.entry)) (counters_in catalog.now))) }
    ensures plan { IfOk result (PlansRows catalog.now (counters_in catalog.now)
        (sum_by (moves_of table (option_copied old.entry) (option_copied new.entry)) (counters_in catalog.now)) table
        (option_copied old.entry) (option_copied new.entry) (seen S.content calls.old)) }
{
    catalog.known();
    let numbers = catalog.counters_of(alloc, table)?;
    plan_each(alloc, catalog, table, old, new, numbers.items(), calls)
}
