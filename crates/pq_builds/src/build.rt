//! Builds: from no definition to a ready one, and of one that was left.
ghost use Rattle.std.specs.Prelude.{◌≡◌, ◌≤◌, ◌+◌, ◌*◌, ◌⊎◌, false, Some, length, IfOk, IfErr, IfSome, OnOk, OnErr};
ghost use Rattle.pq_content.specs.Pairs.{is_of_rows};
ghost use Rattle.pq_store.specs.Breaks.{IfDamaged, IsPresent, IsUndamaged};
ghost use Rattle.pq_intent.specs.Spending.{TakesAtMost};
ghost use Rattle.pq_builds.specs.Bounds.{build_bound, left_bound};
ghost use Rattle.pq_builds.specs.Filling.{target_shape, row_pairs_in, IsNoRowAmong, fill_ops};
ghost use Rattle.pq_builds.specs.Stages.{marked_value, IsMarked, IsReady, IsBuilt, StopsFilling, StopsBuilding, ShowsBuild, ShowsLeft, RanBuild, Takes, TakesBuild, TakesOrLess, IsFew, IsWithinBuild, build_ops, left_ops};
ghost use Rattle.pq_builds.specs.Standing.{Origin, HoldsOrigin, HoldsFilling, IsMarkedOrReady, Makes, Leaves, rows_in};
ghost use Rattle.pq_builds.specs.Told.{WithRows, Turns, Shows, LeavesNaming};

use crate::count::count_rows;
use crate::entries::put;
use crate::fill::{fill_rows, miscounted};
use crate::mark::{BUILDING, READY};
use crate::target::{NewQuery, Target};
use pq_base::{Bytes, NoMem};
use pq_store::{Broke, Damage, Guard, Meter, Store};
use std::alloc::Global;
use std::sync::ledger::Ledger;

/// What a build made: an index over so many rows, or nothing, since the table has too many.
#[derive(Clone, Copy, PartialEq, Eq)]
pub enum Built {
    Rows(u32),
    TooMany,
}

/// The value of a definition: its format, a mark and its text.
fn value_of(alloc: Global, query: &NewQuery, mark: u8) -> Result<Bytes, NoMem>
    ensures { IfOk result (λ value. value ≡ marked_value query.now mark) }
{
    let mut value = Bytes::of_bytes(alloc, &[query.format, mark])?;
    value.extend(alloc, query.text.items())?;
    Ok(value)
}

/// Writes the definition, whose key has to be absent, with the mark that its index is being filled.
fn mark<S: Store<L>, L: Ledger>(
    alloc: Global,
    query: &NewQuery,
    store: &mut S,
    meter: &mut Meter<L>,
) -> Result<(), Broke>
    ensures marked { OnOk result (Turns S.Store store.old store.new (IsMarked query.now)) }
    ensures stopped { OnErr result (Turns S.Store store.old store.new
        (λ c now. (now ≡ Some c) ⊎ IsMarked query.now c now)) }
    ensures shown { IfErr result (Shows S.Store store.old (λ c. IfDamaged (IsPresent query.now.key c))) }
    ensures leaves { LeavesNaming S.Store query.now.key store.old store.new result }
    ensures takes { OnOk result (Takes 1 0 meter.old meter.new) }
    ensures few { meter.new.ops ≤ meter.old.ops + 1 }
    ensures entries { meter.new.entries ≡ meter.old.entries }
{
    let value = value_of(alloc, query, BUILDING)?;
    let key = Bytes::of_bytes(alloc, query.key.items())?;
    match store.write(
        alloc,
        key.items(),
        Guard::Absent,
        Some(value.items()),
        meter,
    ) {
        Ok(true) => Ok(()),
        Ok(false) => Err(Broke::Damaged(Damage { key, value: None })),
        Err(error) => Err(Broke::from(error)),
    }
}

/// Writes each row's entry, and then the definition as ready.
fn finish<S: Store<L>, L: Ledger>(
    alloc: Global,
    target: &Target,
    query: &NewQuery,
    count: u32,
    store: &mut S,
    meter: &mut Meter<L>,
) -> Result<(), Broke>
    requires few { count ≤ 1000000 }
    ensures ready { OnOk result (Turns S.Store store.old store.new
        (WithRows target.now.table count (IsReady target.now query.now))) }
    ensures stopped { OnErr result (Turns S.Store store.old store.new
        (WithRows target.now.table count (StopsFilling target.now query.now))) }
    ensures shown { IfErr result (Shows S.Store store.old (WithRows target.now.table count
        (λ c. IfDamaged (IsNoRowAmong (target_shape target.now) (row_pairs_in target.now.table c))))) }
    ensures leaves { LeavesNaming S.Store query.now.key store.old store.new result }
    ensures takes { TakesOrLess (fill_ops count + 1) count (count + 256) meter.old meter.new result }
    ensures told { OnErr result (IfSome (S.content store.old) (λ c.
        length (row_pairs_in target.now.table c) ≡ count → meter.new.entries ≤ meter.old.entries + count)) }
{
    let value = value_of(alloc, query, READY)?;
    fill_rows(alloc, target, query.key.items(), count, store, meter)?;
    put(alloc, query.key.items(), value.items(), store, meter)
}

/// Writes the definition with its mark, and all that comes then.
fn build_rows<S: Store<L>, L: Ledger>(
    alloc: Global,
    target: &Target,
    query: &NewQuery,
    count: u32,
    store: &mut S,
    meter: &mut Meter<L>,
) -> Result<(), Broke>
    requires few { count ≤ 1000000 }
    requires key { is_of_rows query.now.key ≡ false }
    ensures built { OnOk result (Turns S.Store store.old store.new
        (WithRows target.now.table count (IsBuilt target.now query.now))) }
    ensures stopped { OnErr result (Turns S.Store store.old store.new
        (WithRows target.now.table count (StopsBuilding target.now query.now))) }
    ensures shown { IfErr result (Shows S.Store store.old
        (WithRows target.now.table count (ShowsBuild target.now query.now))) }
    ensures leaves { LeavesNaming S.Store query.now.key store.old store.new result }
    ensures takes { TakesOrLess (fill_ops count + 2) count (count + 256) meter.old meter.new result }
    ensures told { OnErr result (IfSome (S.content store.old) (λ c.
        length (row_pairs_in target.now.table c) ≡ count → meter.new.entries ≤ meter.old.entries + count)) }
{
    mark(alloc, query, store, meter)?;
    finish(alloc, target, query, count, store, meter)
}

/// Counts the rows, and makes the definition and its index where they are few enough.
fn run_build<S: Store<L>, L: Ledger>(
    alloc: Global,
    target: &Target,
    query: &NewQuery,
    store: &mut S,
    meter: &mut Meter<L>,
) -> Result<Built, Broke>
    requires key { is_of_rows query.now.key ≡ false }
    ensures ran { IfOk result (λ built. Turns S.Store store.old store.new (RanBuild target.now query.now built)) }
    ensures ended { OnErr result (Turns S.Store store.old store.new (StopsBuilding target.now query.now)) }
    ensures shown { IfErr result (Shows S.Store store.old (ShowsBuild target.now query.now)) }
    ensures leaves { LeavesNaming S.Store query.now.key store.old store.new result }
    ensures unchanged { IfOk result (λ built. built ≡ Built.TooMany → S.content store.new ≡ S.content store.old) }
    ensures few { IfOk result IsFew }
    ensures takes { IfOk result (λ built. TakesBuild built meter.old meter.new) }
    ensures within { OnErr result (IsWithinBuild build_ops meter.old meter.new) }
    ensures within_own { OnErr result (IfSome (S.content store.old) (λ c.
        TakesAtMost (build_bound (length (row_pairs_in target.now.table c))) meter.old meter.new)) }
{
    match count_rows(alloc, target.table, store, meter)? {
        None => Ok(Built::TooMany),
        Some(count) => {
            build_rows(alloc, target, query, count, store, meter)?;
            Ok(Built::Rows(count))
        }
    }
}

/// Counts the rows, and completes the index.
fn run_completion<S: Store<L>, L: Ledger>(
    alloc: Global,
    target: &Target,
    query: &NewQuery,
    store: &mut S,
    meter: &mut Meter<L>,
) -> Result<u32, Broke>
    ensures ready { IfOk result (λ count. Turns S.Store store.old store.new
        (λ c now. (length (row_pairs_in target.now.table c) ≡ count) × IsReady target.now query.now c now)) }
    ensures few { IfOk result (λ count. count ≤ 1000000) }
    ensures ended { OnErr result (Turns S.Store store.old store.new (StopsFilling target.now query.now)) }
    ensures shown { IfErr result (Shows S.Store store.old (ShowsLeft target.now query.now)) }
    ensures leaves { LeavesNaming S.Store query.now.key store.old store.new result }
    ensures takes { IfOk result (λ count. Takes (left_ops count) (2 * count) meter.old meter.new) }
    ensures within { OnErr result (IsWithinBuild left_ops meter.old meter.new) }
    ensures within_own { OnErr result (IfSome (S.content store.old) (λ c.
        TakesAtMost (left_bound (length (row_pairs_in target.now.table c))) meter.old meter.new)) }
{
    let counted = count_rows(alloc, target.table, store, meter)?;
    match counted {
        None => Err(Broke::Damaged(miscounted(alloc, query.key.items())?)),
        Some(count) => {
            finish(alloc, target, query, count, store, meter)?;
            Ok(count)
        }
    }
}

/// Makes the definition of a query and fills its index, where the table has few enough rows.
/// Wherever it stops, the content is as it was, or the index is being filled, or all is done.
pub fn build_index<S: Store<L>, L: Ledger>(
    alloc: Global,
    target: &Target,
    query: &NewQuery,
    store: &mut S,
    meter: &mut Meter<L>,
) -> Result<Built, Broke>
    requires key { is_of_rows query.now.key ≡ false }
    // Over a content of rows that keep their tables.
    ensures made { IfOk result (λ built. (origin : Origin)
        → HoldsOrigin origin target.now query.now (S.content store.old)
        → Makes origin target.now query.now built (S.content store.new)) }
    ensures stopped { OnErr result ((origin : Origin) → HoldsOrigin origin target.now query.now (S.content store.old)
        → Leaves origin target.now query.now (S.content store.new)) }
    ensures sound { IfErr result (λ broke. (origin : Origin)
        → HoldsOrigin origin target.now query.now (S.content store.old) → IsUndamaged broke) }
    ensures bounded { OnErr result ((origin : Origin) → HoldsOrigin origin target.now query.now (S.content store.old)
        → TakesAtMost (build_bound (rows_in origin target.now)) meter.old meter.new) }
    // Over any content that is told.
    ensures ran { IfOk result (λ built. IfSome (S.content store.old) (λ c.
        RanBuild target.now query.now built c (S.content store.new))) }
    ensures ended { OnErr result (IfSome (S.content store.old) (λ c.
        StopsBuilding target.now query.now c (S.content store.new))) }
    ensures shown { IfErr result (λ broke. IfSome (S.content store.old) (λ c.
        ShowsBuild target.now query.now c broke)) }
    ensures within_own { OnErr result (IfSome (S.content store.old) (λ c.
        TakesAtMost (build_bound (length (row_pairs_in target.now.table c))) meter.old meter.new)) }
    // Over every store, told or not. Damage that has no value names the definition's key: it was there,
    // or the ranges gave another number of rows than the count.
    ensures leaves { LeavesNaming S.Store query.now.key store.old store.new result }
    ensures unchanged { IfOk result (λ built. built ≡ Built.TooMany → S.content store.new ≡ S.content store.old) }
    ensures few { IfOk result IsFew }
    ensures takes { IfOk result (λ built. TakesBuild built meter.old meter.new) }
    ensures within { OnErr result (IsWithinBuild build_ops meter.old meter.new) }
{
    run_build(alloc, target, query, store, meter)
}

/// Completes a build that was left, and answers how many rows the index is over. More rows than an
/// index is filled for are damage. Wherever it stops, the index is being filled still, or all is done.
pub fn complete_index<S: Store<L>, L: Ledger>(
    alloc: Global,
    target: &Target,
    query: &NewQuery,
    store: &mut S,
    meter: &mut Meter<L>,
) -> Result<u32, Broke>
    // Over a content in which the index is being filled.
    ensures made { IfOk result (λ count. (origin : Origin)
        → HoldsFilling origin target.now query.now (S.content store.old)
        → Makes origin target.now query.now (Built.Rows count) (S.content store.new)) }
    ensures stopped { OnErr result ((origin : Origin) → HoldsFilling origin target.now query.now (S.content store.old)
        → IsMarkedOrReady origin target.now query.now (S.content store.new)) }
    ensures sound { IfErr result (λ broke. (origin : Origin)
        → HoldsFilling origin target.now query.now (S.content store.old) → IsUndamaged broke) }
    ensures bounded { OnErr result ((origin : Origin) → HoldsFilling origin target.now query.now (S.content store.old)
        → TakesAtMost (left_bound (rows_in origin target.now)) meter.old meter.new) }
    // Over any content that is told.
    ensures ready { IfOk result (λ count. IfSome (S.content store.old) (λ c.
        (length (row_pairs_in target.now.table c) ≡ count) × IsReady target.now query.now c (S.content store.new))) }
    ensures ended { OnErr result (IfSome (S.content store.old) (λ c.
        StopsFilling target.now query.now c (S.content store.new))) }
    ensures shown { IfErr result (λ broke. IfSome (S.content store.old) (λ c.
        ShowsLeft target.now query.now c broke)) }
    ensures within_own { OnErr result (IfSome (S.content store.old) (λ c.
        TakesAtMost (left_bound (length (row_pairs_in target.now.table c))) meter.old meter.new)) }
    // Over every store, told or not. A store may give other rows than it counts, and with them one range more.
    ensures few { IfOk result (λ count. count ≤ 1000000) }
    ensures leaves { LeavesNaming S.Store query.now.key store.old store.new result }
    ensures takes { IfOk result (λ count. Takes (left_ops count) (2 * count) meter.old meter.new) }
    ensures within { OnErr result (IsWithinBuild left_ops meter.old meter.new) }
{
    run_completion(alloc, target, query, store, meter)
}
