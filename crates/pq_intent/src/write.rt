//! Writes that are paid from an allowance, and the changes of a list one after the other.
ghost use Rattle.std.specs.Prelude.{◌≡◌, ◌≤◌, ◌+◌, ◌++◌, ◌∷◌, [], None, length, map, OnOk};
ghost use Rattle.std.specs.Option.{option_copied};
ghost use Rattle.pq_content.specs.Standing.{change_of};
ghost use Rattle.pq_intent.specs.Writing.{WritesWithin, MakesOne, MakesAll};

use pq_row_code::Change;
use pq_store::{Allowance, Broke, Guard, Meter, Store};
use std::alloc::Global;
use std::sync::ledger::Ledger;

/// Gives a key its new value, or none, whatever it has.
pub fn put<S: Store<L>, L: Ledger>(
    alloc: Global,
    key: &[u8],
    new: Option<&[u8]>,
    store: &mut S,
    allowance: &mut Allowance,
    meter: &mut Meter<L>,
) -> Result<(), Broke>
    requires { 1 ≤ allowance.old.left.ops }
    ensures makes { MakesOne S.Store (key.now, option_copied new.entry) store.old store.new result }
    ensures within { WritesWithin S.Store 1 store.old store.new allowance.old allowance.new meter.old meter.new result }
    ensures one { meter.new.ops ≡ meter.old.ops + 1 }
{
    allowance.spend(0);
    match store.write(alloc, key, Guard::Any, new, meter) {
        Ok(_) => Ok(()),
        Err(error) => Err(Broke::from(error)),
    }
}

/// Makes one change.
pub fn write_change<S: Store<L>, L: Ledger>(
    alloc: Global,
    change: &Change,
    store: &mut S,
    allowance: &mut Allowance,
    meter: &mut Meter<L>,
) -> Result<(), Broke>
    requires { 1 ≤ allowance.old.left.ops }
    ensures makes { MakesOne S.Store (change_of change.now) store.old store.new result }
    ensures within { WritesWithin S.Store 1 store.old store.new allowance.old allowance.new meter.old meter.new result }
    ensures one { meter.new.ops ≡ meter.old.ops + 1 }
{
    let key = change.key.items();
    match &change.new {
        Some(value) => put(alloc, key, Some(value.items()), store, allowance, meter),
        None => put(alloc, key, None, store, allowance, meter),
    }
}

/// Makes the changes in order. Where it stops, the first of them are made.
pub fn write_changes<S: Store<L>, L: Ledger>(
    alloc: Global,
    changes: &[Change],
    store: &mut S,
    allowance: &mut Allowance,
    meter: &mut Meter<L>,
) -> Result<(), Broke>
    requires { length changes.now ≤ allowance.old.left.ops }
    ensures makes { MakesAll S.Store (map change_of changes.now) store.old store.new meter.old meter.new result }
    ensures within { WritesWithin S.Store (length changes.now) store.old store.new
        allowance.old allowance.new meter.old meter.new result }
    ensures each { OnOk result (meter.new.ops ≡ meter.old.ops + length changes.now) }
{
    for change in changes {
        write_change(alloc, change, store, allowance, meter)?;
    }
    Ok(())
}

/// Makes the changes in order, and removes the key at the end.
pub fn finish<S: Store<L>, L: Ledger>(
    alloc: Global,
    key: &[u8],
    changes: &[Change],
    store: &mut S,
    allowance: &mut Allowance,
    meter: &mut Meter<L>,
) -> Result<(), Broke>
    requires { length changes.now + 1 ≤ allowance.old.left.ops }
    ensures makes { MakesAll S.Store (map change_of changes.now ++ (key.now, None) ∷ []) store.old store.new
        meter.old meter.new result }
    ensures within { WritesWithin S.Store (length changes.now + 1) store.old store.new
        allowance.old allowance.new meter.old meter.new result }
    ensures each { OnOk result (meter.new.ops ≡ meter.old.ops + (length changes.now + 1)) }
{
    write_changes(alloc, changes, store, allowance, meter)?;
    put(alloc, key, None, store, allowance, meter)
}
