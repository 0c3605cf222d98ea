//! Committing changes: all of them or none, whichever call of the store is the last one.
ghost use Rattle.std.specs.Prelude.{◌≡◌, ◌≤◌, ◌<◌, ◌+◌, ◌⊎◌, None, Some, length, map, IfOk, IfErr, IfSome, IsErr, IsErrOf, OnOk, OnErr};
ghost use Rattle.std.specs.FinMap.{insert};
ghost use Rattle.std.specs.Option.{option_map};
ghost use Rattle.pq_row_code.specs.Changes.{AreChanges};
ghost use Rattle.pq_content.specs.Pairs.{changed_content};
ghost use Rattle.pq_content.specs.Standing.{change_of, AreIntended};
ghost use Rattle.pq_key_code.specs.KeyCode.{intent_key};
ghost use Rattle.pq_store.specs.Content.{Content, written_content};
ghost use Rattle.pq_store.specs.Breaks.{IfDamaged, IsPresent, IsUndamaged};
ghost use Rattle.pq_intent.specs.Changing.{IfDamagedSame, IsPartway, MayChange, WantsMemory, commit_writes, intent_writes};
ghost use Rattle.pq_intent.specs.Settling.{IsSettled, Settles, HasIntent};
ghost use Rattle.pq_intent.specs.Spending.{write_ops};
ghost use Rattle.pq_intent.specs.Writing.{WritesWithin};

use crate::write::{finish, write_change};
use pq_base::{Bytes, List};
use pq_key_code::intent_key;
use pq_row_code::{Change, encode_changes};
use pq_store::{Allowance, Broke, Damage, Guard, Meter, Store};
use std::alloc::Global;
use std::sync::ledger::Ledger;

/// Writes the intent, whose key has to be absent, and gives the key back.
fn put_intent<S: Store<L>, L: Ledger>(
    alloc: Global,
    key: Bytes,
    code: &[u8],
    store: &mut S,
    allowance: &mut Allowance,
    meter: &mut Meter<L>,
) -> Result<Bytes, Broke>
    requires key { key ≡ intent_key }
    requires left { 1 ≤ allowance.old.left.ops }
    ensures back { IfOk result (λ back. back ≡ intent_key) }
    ensures put { OnOk result ((pairs : Content) → IsSettled (S.content store.old) pairs
        → S.content store.new ≡ Some (insert pairs intent_key code.now)) }
    ensures stopped { OnErr result ((pairs : Content) → IsSettled (S.content store.old) pairs
        → (S.content store.new ≡ Some pairs) ⊎ (S.content store.new ≡ Some (insert pairs intent_key code.now))) }
    ensures taken { HasIntent (S.content store.old) → IsErr result × (S.content store.new ≡ S.content store.old) }
    ensures damage { IfErr result (λ broke. IfSome (S.content store.old)
        (λ pairs. IfDamaged (IsPresent intent_key pairs) broke)) }
    ensures kept { IfErr result (IfDamagedSame (S.content store.old) (S.content store.new)) }
    ensures memory { IsErrOf result Broke.NoMem → S.content store.new ≡ S.content store.old }
    ensures made { OnOk result (S.content store.new
        ≡ option_map (written_content intent_key (Some code.now)) (S.content store.old)) }
    ensures partway { OnErr result (MayChange (intent_key, Some code.now) (S.content store.old) (S.content store.new)) }
    ensures one { meter.new.ops ≡ meter.old.ops + 1 }
    ensures within { WritesWithin S.Store 1 store.old store.new allowance.old allowance.new meter.old meter.new result }
{
    allowance.spend(0);
    match store.write(alloc, key.items(), Guard::Absent, Some(code), meter) {
        Ok(true) => Ok(key),
        Ok(false) => Err(Broke::Damaged(Damage { key, value: None })),
        Err(error) => Err(Broke::from(error)),
    }
}

/// Commits changes through the intent. All memory of its own is taken before the first call.
fn commit_by_intent<S: Store<L>, L: Ledger>(
    alloc: Global,
    changes: &List<Change>,
    store: &mut S,
    allowance: &mut Allowance,
    meter: &mut Meter<L>,
) -> Result<(), Broke>
    requires coded { AreChanges changes.now }
    requires intended { AreIntended (map change_of changes.now) }
    requires left { length changes.now + 2 ≤ allowance.old.left.ops }
    ensures made { OnOk result ((pairs : Content) → IsSettled (S.content store.old) pairs
        → S.content store.new ≡ Some (changed_content (map change_of changes.now) pairs)) }
    ensures stopped { OnErr result ((pairs : Content) → IsSettled (S.content store.old) pairs
        → Settles (S.content store.new) pairs
        ⊎ Settles (S.content store.new) (changed_content (map change_of changes.now) pairs)) }
    ensures taken { HasIntent (S.content store.old) → IsErr result × (S.content store.new ≡ S.content store.old) }
    ensures damage { IfErr result (λ broke. IfSome (S.content store.old)
        (λ pairs. IfDamaged (IsPresent intent_key pairs) broke)) }
    ensures kept { IfErr result (IfDamagedSame (S.content store.old) (S.content store.new)) }
    ensures memory { IsErrOf result Broke.NoMem → (pairs : Content) → IsSettled (S.content store.old) pairs
        → WantsMemory (intent_writes changes.now) meter.old meter.new (S.content store.old) (S.content store.new) }
    ensures whole { OnOk result (IfSome (S.content store.old) (λ pairs.
        S.content store.new ≡ Some (changed_content (map change_of changes.now) pairs))) }
    ensures partway { OnErr result (IsPartway (intent_writes changes.now) (S.content store.old) (S.content store.new)) }
    ensures within { WritesWithin S.Store (length changes.now + 2) store.old store.new
        allowance.old allowance.new meter.old meter.new result }
{
    let key = intent_key(alloc)?;
    let code = encode_changes(alloc, changes)?;
    let key = put_intent(alloc, key, code.items(), store, allowance, meter)?;
    finish(alloc, key.items(), changes.items(), store, allowance, meter)
}

/// Makes changes whole, each of which an intent may hold. A single change is one write. More of them are first
/// written as the intent, from which the rest is made at the next opening where this call is stopped.
/// An intent that is there already is damage, and nothing is changed. Entries are never spent.
pub fn commit<S: Store<L>, L: Ledger>(
    alloc: Global,
    changes: List<Change>,
    store: &mut S,
    allowance: &mut Allowance,
    meter: &mut Meter<L>,
) -> Result<(), Broke>
    requires some { 1 ≤ length changes }
    requires coded { AreChanges changes }
    requires intended { AreIntended (map change_of changes) }
    requires left { write_ops (length changes) ≤ allowance.old.left.ops }
    ensures made { OnOk result ((pairs : Content) → IsSettled (S.content store.old) pairs
        → S.content store.new ≡ Some (changed_content (map change_of changes) pairs)) }
    // Whichever call was the last one, the content settles to the old one or to the changed one.
    ensures stopped { OnErr result ((pairs : Content) → IsSettled (S.content store.old) pairs
        → Settles (S.content store.new) pairs
        ⊎ Settles (S.content store.new) (changed_content (map change_of changes) pairs)) }
    ensures sound { IfErr result (λ broke. (pairs : Content) → IsSettled (S.content store.old) pairs
        → IsUndamaged broke) }
    ensures taken { 2 ≤ length changes → HasIntent (S.content store.old)
        → IsErr result × (S.content store.new ≡ S.content store.old) }
    ensures damage { IfErr result (λ broke. IfSome (S.content store.old)
        (λ pairs. IfDamaged (IsPresent intent_key pairs) broke)) }
    ensures kept { IfErr result (IfDamagedSame (S.content store.old) (S.content store.new)) }
    // Memory of its own is taken before the first call. From there on it is wanting only where the last call of the
    // store was not made for it: each write before that one is made. (A single change is one call.)
    ensures memory { IsErrOf result Broke.NoMem → (pairs : Content) → IsSettled (S.content store.old) pairs
        → WantsMemory (intent_writes changes) meter.old meter.new (S.content store.old) (S.content store.new) }
    // Over any content that is told, with an intent or without one: all of it is made, or a first part of its writes.
    ensures whole { OnOk result (IfSome (S.content store.old) (λ pairs.
        S.content store.new ≡ Some (changed_content (map change_of changes) pairs))) }
    ensures partway { OnErr result (IsPartway (commit_writes changes) (S.content store.old) (S.content store.new)) }
    // Over every store, told or not, and also on an error.
    ensures within { WritesWithin S.Store (write_ops (length changes)) store.old store.new
        allowance.old allowance.new meter.old meter.new result }
{
    match changes.items() {
        [change] => write_change(alloc, change, store, allowance, meter),
        _ => commit_by_intent(alloc, &changes, store, allowance, meter),
    }
}
