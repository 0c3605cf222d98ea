//! The entries of all rows of a table, read by ranges.
ghost use Rattle.std.specs.Prelude.{◌≡◌, ◌≤◌, ◌+◌, ◌/◌, true, None, length, map, IfOk, IfErr, IfSome, OnOk, OnErr};
ghost use Rattle.pq_content.specs.Pairs.{is_in_space};
ghost use Rattle.pq_store.specs.Breaks.{IfDamaged};
ghost use Rattle.pq_store.specs.Content.{pairs_within, entry};
ghost use Rattle.pq_builds.specs.Filling.{first_key, past_key, row_pairs_in, IsPast, Enters, EntersSome, Follows, target_shape, ShowsRange, IsNoRowAmong, fill_ops};
ghost use Rattle.pq_builds.specs.Told.{WithRows, Turns, Shows, LeavesNaming};
ghost use Rattle.pq_builds.specs.Stages.{TakesOrLess};

use crate::entries::write_entries;
use crate::target::Target;
use pq_base::{Bytes, NoMem, Row};
use pq_key_code::{past, row_key};
use pq_store::{Broke, Damage, Meter, Pair, Store};
use std::alloc::Global;
use std::sync::ledger::Ledger;

/// How many rows one range reads.
const ROWS: u32 = 256;

/// The first key of a table's rows.
pub fn first_key(alloc: Global, table: u8) -> Result<Bytes, NoMem>
    ensures { IfOk result (λ key. key ≡ first_key table) }
{
    row_key(alloc, table, &Row::new(alloc))
}

/// The first key past a table's rows.
pub fn past_key(alloc: Global, table: u8) -> Result<Bytes, NoMem>
    ensures { IfOk result (λ key. key ≡ past_key table) }
{
    past(alloc, first_key(alloc, table)?)
}

/// The first key past those of the pairs; where there are none, the one that was handed in.
fn next_key(alloc: Global, low: Bytes, pairs: &[Pair]) -> Result<Bytes, NoMem>
    ensures { IfOk result (λ next. IsPast low (map entry pairs.now) next) }
{
    if pairs.is_empty() {
        return Ok(low);
    }
    let last = &pairs[pairs.len() - 1];
    let mut next = Bytes::of_bytes(alloc, last.key.items())?;
    next.push(alloc, 0)?;
    Ok(next)
}

/// The damage of a table that has not as many rows as were counted: the definition's key.
pub(crate) fn miscounted(alloc: Global, key: &[u8]) -> Result<Damage, NoMem>
    ensures key { IfOk result (λ damage. damage.key ≡ key.now) }
    ensures value { IfOk result (λ damage. damage.value ≡ None) }
{
    let key = Bytes::of_bytes(alloc, key)?;
    Ok(Damage { key, value: None })
}

/// Reads one range of rows, which has to have so many, and writes their entries. Gives the key from
/// which the others come.
fn fill_next<S: Store<L>, L: Ledger>(
    alloc: Global,
    target: &Target,
    key: &[u8],
    low: Bytes,
    number: u32,
    store: &mut S,
    meter: &mut Meter<L>,
) -> Result<Bytes, Broke>
    requires low { is_in_space 2 low ≡ true }
    requires number { number ≤ 256 }
    ensures follows { IfOk result (λ next. Turns S.Store store.old store.new
        (λ c now. Follows target.now low number c now next)) }
    ensures next { IfOk result (λ next. is_in_space 2 next ≡ true) }
    ensures stopped { OnErr result (Turns S.Store store.old store.new
        (λ c. EntersSome target.now (pairs_within c low (past_key target.now.table)) c)) }
    ensures damage { IfErr result (Shows S.Store store.old
        (λ c. ShowsRange (target_shape target.now) number (pairs_within c low (past_key target.now.table)))) }
    ensures leaves { LeavesNaming S.Store key.now store.old store.new result }
    ensures takes { TakesOrLess (number + 1) number 256 meter.old meter.new result }
    // Over a told content, at most the pairs that are there.
    ensures told { IfSome (S.content store.old) (λ c.
        meter.new.entries ≤ meter.old.entries + length (pairs_within c low (past_key target.now.table))) }
{
    let high = past_key(alloc, target.table)?;
    let found = match store.range(alloc, low.items(), high.items(), ROWS, meter) {
        Err(error) => return Err(Broke::from(error)),
        Ok(found) => found,
    };
    if found.items().len() != number as usize {
        return Err(Broke::Damaged(miscounted(alloc, key)?));
    }
    let next = next_key(alloc, low, found.items())?;
    write_entries(alloc, target, found.items(), store, meter)?;
    Ok(next)
}

/// Reads all rows of a table, which are this many, and writes their entries.
pub(crate) fn fill_rows<S: Store<L>, L: Ledger>(
    alloc: Global,
    target: &Target,
    key: &[u8],
    count: u32,
    store: &mut S,
    meter: &mut Meter<L>,
) -> Result<(), Broke>
    requires few { count ≤ 1000000 }
    ensures enters { OnOk result (Turns S.Store store.old store.new (WithRows target.now.table count
        (λ c. Enters target.now (row_pairs_in target.now.table c) c))) }
    ensures stopped { OnErr result (Turns S.Store store.old store.new
        (λ c. EntersSome target.now (row_pairs_in target.now.table c) c)) }
    ensures damage { IfErr result (Shows S.Store store.old (WithRows target.now.table count
        (λ c. IfDamaged (IsNoRowAmong (target_shape target.now) (row_pairs_in target.now.table c))))) }
    // Over every store, told or not.
    ensures leaves { LeavesNaming S.Store key.now store.old store.new result }
    ensures takes { TakesOrLess (fill_ops count) count (count + 256) meter.old meter.new result }
    ensures told { OnErr result (IfSome (S.content store.old) (λ c.
        length (row_pairs_in target.now.table c) ≡ count → meter.new.entries ≤ meter.old.entries + count)) }
{
    let mut low = first_key(alloc, target.table)?;
    for full in 0..count / ROWS {
        low = fill_next(alloc, target, key, low, ROWS, store, meter)?;
    }
    fill_next(alloc, target, key, low, count % ROWS, store, meter)?;
    Ok(())
}
