//! The number of rows of one group, as it is read and as it changes.
ghost use Rattle.std.specs.Prelude.{◌≡◌, ◌≤◌, false, true, length, None, IfOk, IfErr, IfSome, IfNone, MatchOption};
ghost use Rattle.std.specs.FinMap.{get as value_at};
ghost use Rattle.pq_pending.specs.Calls.{seen, answers_of};
ghost use Rattle.pq_content.specs.Pairs.{is_of_counters};
ghost use Rattle.pq_content.specs.Standing.{change_of};
ghost use Rattle.pq_tallies.specs.Counters.{most_count};
ghost use Rattle.pq_counters.specs.Evidence.{IsCounted, IsNoCountAt};
ghost use Rattle.pq_counters.specs.Groups.{TurnsTo, IsTurned, IsFull, SpoilsCount, SpoilsGroup, IsSpoilt};
ghost use Rattle.pq_counters.specs.Planning.{CanRead, Asks, AsksWithin};
ghost use Rattle.pq_counters.specs.Promises.{IsCountValue, IsCounterChange};

use crate::moved::MovedGroup;
use pq_base::{Bytes, NoMem};
use pq_pending::PendingCalls;
use pq_row_code::Change;
use pq_store::{Broke, Damage, Store};
use pq_tallies::{count_of, next_count, stored_count};
use std::alloc::Global;
use std::sync::ledger::Ledger;

/// The key of a group, and the number of its rows.
#[derive(Drop)]
pub(crate) struct GroupCount {
    pub at: Bytes,
    pub count: u64,
}

/// The number of rows of the group with this key: one get. A value that is the code of no number is damage.
pub(crate) fn group_count<S: Store<L>, L: Ledger>(
    alloc: Global,
    at: Bytes,
    calls: &mut PendingCalls<S, L>,
) -> Result<GroupCount, Broke>
    requires share { CanRead calls.old 1 }
    ensures asks { Asks S.Store (IsNoCountAt at) calls.old calls.new 1 result }
    ensures rounds { AsksWithin S.Store calls.old calls.new 1 }
    ensures at { IfOk result (λ group. group.at ≡ at) }
    ensures few { IfOk result (λ group. group.count ≤ most_count) }
    ensures none { IfOk result (λ group. group.count ≡ 0 → answers_of S.answers calls.old at None) }
    ensures counted { IfOk result (λ group. IfSome (seen S.content calls.old)
        (λ c. IsCounted (value_at c at) group.count)) }
{
    let Some(code) = calls.get(alloc, at.items())? else {
        return Ok(GroupCount { at, count: 0 });
    };
    match count_of(code.items()) {
        Some(count) => Ok(GroupCount { at, count }),
        None => Err(Broke::Damaged(Damage {
            key: at,
            value: Some(code),
        })),
    }
}

/// The number of the value that was found at this key, none where there is no value. A value that is the code of no
/// number is damage.
fn found_count(alloc: Global, at: &Bytes, found: &Option<Bytes>) -> Result<u64, Broke>
    ensures few { IfOk result (λ n. n ≤ most_count) }
    ensures counted { IfOk result (IsCounted found.now) }
    ensures spoils { IfErr result (IsSpoilt (λ damage. (damage.key ≡ at.now) × (damage.value ≡ found.now)
        × SpoilsCount found.now)) }
{
    let Some(code) = found else {
        return Ok(0);
    };
    match count_of(code.items()) {
        Some(count) => Ok(count),
        None => Err(Broke::Damaged(Damage {
            key: Bytes::of_bytes(alloc, at.items())?,
            value: Some(Bytes::of_bytes(alloc, code.items())?),
        })),
    }
}

/// The change that leaves a group of so many rows with one row fewer. That it has no rows is damage.
fn left(alloc: Global, at: &Bytes, count: u64) -> Result<Change, Broke>
    requires few { count ≤ most_count }
    ensures left { IfOk result (λ change. TurnsTo false at.now count (change_of change)) }
    ensures count { IfOk result (λ change. IsCountValue change.new) }
    ensures spoils { IfErr result (IsSpoilt (λ damage. (damage.key ≡ at.now) × (damage.value ≡ None)
        × (count ≡ 0))) }
{
    let key = Bytes::of_bytes(alloc, at.items())?;
    if count == 0 {
        return Err(Broke::Damaged(Damage { key, value: None }));
    }
    let new = stored_count(alloc, count - 1)?;
    Ok(Change { key, new })
}

/// The change that leaves a group of so many rows with one row more; None where it can't have more.
fn joined(alloc: Global, at: &Bytes, count: u64) -> Result<Option<Change>, NoMem>
    requires few { count ≤ most_count }
    ensures joined { IfOk result (λ found. IfSome found (λ change. TurnsTo true at.now count (change_of change))) }
    ensures count { IfOk result (λ found. IfSome found (λ change. IsCountValue change.new)) }
    ensures full { IfOk result (λ found. IfNone found (count ≡ most_count)) }
{
    let Some(count) = next_count(count) else {
        return Ok(None);
    };
    let new = stored_count(alloc, count)?;
    let key = Bytes::of_bytes(alloc, at.items())?;
    Ok(Some(Change { key, new }))
}

/// The change of the group's pair, of which this value was found; None where no row more may come into the group.
pub(crate) fn turned(
    alloc: Global,
    group: &MovedGroup,
    found: &Option<Bytes>,
) -> Result<Option<Change>, Broke>
    requires small { length group.now.at ≤ 9000 }
    requires of_counters { is_of_counters group.now.at ≡ true }
    ensures turned { IfOk result (λ change. MatchOption change (IsFull group.now found.now)
        (λ change. IsTurned group.now found.now (change_of change))) }
    ensures each { IfOk result (λ change. IfSome change IsCounterChange) }
    ensures spoils { IfErr result (IsSpoilt (SpoilsGroup group.now found.now)) }
{
    let count = found_count(alloc, &group.at, found)?;
    if group.comes {
        return Ok(joined(alloc, &group.at, count)?);
    }
    Ok(Some(left(alloc, &group.at, count)?))
}
