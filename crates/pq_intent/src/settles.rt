//! Settling: the changes of an intent that was left are made, and it is removed.
ghost use Rattle.std.specs.Prelude.{◌≡◌, ◌⊎◌, ◌+◌, ◌≤◌, ◌<◌, ◌^◌, ◌++◌, ◌∷◌, [], None, Some, length, map, IfOk, IfErr, IfSome, OnOk, OnErr};
ghost use Rattle.std.specs.FinMap.{get};
ghost use Rattle.pq_content.specs.Standing.{change_of};
ghost use Rattle.pq_key_code.specs.KeyCode.{intent_key};
ghost use Rattle.pq_store.specs.Content.{HasBrokeCause, Content};
ghost use Rattle.pq_intent.specs.Changing.{content_after, IsPartway};
ghost use Rattle.pq_intent.specs.Counting.{nothing_settled, settled_changes, CountsChanges, HasNumbers};
ghost use Rattle.pq_store.specs.Breaks.{IsUndamaged, IsAnswered};
ghost use Rattle.pq_intent.specs.Errors.{ShowsNoIntent};
ghost use Rattle.pq_intent.specs.Settling.{IsSettled, Settles, LeavesSettled, StopsSettling};
ghost use Rattle.pq_intent.specs.Spending.{IsWithinSettling, IsWithinSettlingOf};

use crate::intent::intent_of;
use crate::write::finish;
use pq_base::{Bound, List, Used};
use pq_key_code::intent_key;
use pq_row_code::Change;
use pq_store::{Allowance, Broke, Damage, Meter, Store};
use std::alloc::Global;
use std::sync::ledger::Ledger;

/// How many changes the intent had that was found, 0 where there was none, and what was used.
#[derive(Drop)]
pub struct Settled {
    pub changes: u32,
    pub used: Used,
}

fn nothing_settled() -> Settled
    ensures { result ≡ nothing_settled }
{
    Settled {
        changes: 0,
        used: Used { ops: 1, entries: 0 },
    }
}

/// Makes the changes of the intent that was read, and removes it.
fn settle_changes<S: Store<L>, L: Ledger>(
    alloc: Global,
    key: &[u8],
    changes: &List<Change>,
    store: &mut S,
    meter: &mut Meter<L>,
) -> Result<Settled, Broke>
    requires { length changes.now < 2 ^ 16 }
    ensures made { OnOk result (S.content store.new
        ≡ content_after (map change_of changes.now ++ (key.now, None) ∷ []) (S.content store.old)) }
    ensures stopped { OnErr result (IsPartway (map change_of changes.now ++ (key.now, None) ∷ [])
        (S.content store.old) (S.content store.new)) }
    ensures sound { IfErr result IsUndamaged }
    ensures counts { IfOk result (λ settled. settled ≡ settled_changes (length changes.now)) }
    ensures ops { IfOk result (λ settled. meter.new.ops + 1 ≡ meter.old.ops + settled.used.ops) }
    ensures few { meter.new.ops ≤ meter.old.ops + (length changes.now + 1) }
    ensures entries { meter.new.entries ≡ meter.old.entries }
    ensures cause { HasBrokeCause (S.faults store.old) (S.faults store.new) result }
    ensures answered { IfErr result (IsAnswered S.answers) }
{
    let number = changes.items().len() as u32;
    let ops = number as u128 + 1;
    let mut allowance = Allowance::grant(Bound { ops, entries: 0 });
    finish(alloc, key, changes.items(), store, &mut allowance, meter)?;
    Ok(Settled {
        changes: number,
        used: Used {
            ops: number as u64 + 2,
            entries: 1,
        },
    })
}

/// Makes the changes of an intent that was left, and removes it. Where there is none, nothing is
/// changed. At each call the content settles to the same one as before.
pub fn settle<S: Store<L>, L: Ledger>(
    alloc: Global,
    store: &mut S,
    meter: &mut Meter<L>,
) -> Result<Settled, Broke>
    // What the content settled to is there, with no intent.
    ensures made { OnOk result ((settled : Content) → Settles (S.content store.old) settled
        → IsSettled (S.content store.new) settled) }
    // Over a told content there is such a one.
    ensures settles { OnOk result (IfSome (S.content store.old) (λ pairs. LeavesSettled pairs (S.content store.new))) }
    ensures stopped { OnErr result ((settled : Content) → Settles (S.content store.old) settled
        → Settles (S.content store.new) settled) }
    // Wherever it stops over a told content, no other change is made than those of its intent: a value that is no
    // intent stays, and so does everything else.
    ensures stops { OnErr result (IfSome (S.content store.old) (λ pairs. StopsSettling pairs (S.content store.new))) }
    ensures sound { IfErr result (λ broke. (settled : Content) → Settles (S.content store.old) settled
        → IsUndamaged broke) }
    // Damage is a value at the intent's key that is no code of changes that an intent may hold.
    // Nothing is changed then.
    ensures damage { IfErr result (λ broke. IfSome (S.content store.old) (λ pairs. ShowsNoIntent pairs broke)) }
    ensures kept { IfErr result (λ broke. IsUndamaged broke ⊎ (S.content store.new ≡ S.content store.old)) }
    // Where there is no intent, nothing is changed, whatever is answered.
    ensures rests { IfSome (S.content store.old) (λ pairs. get pairs intent_key ≡ None
        → S.content store.new ≡ S.content store.old) }
    ensures counts { IfOk result (λ settled. IfSome (S.content store.old) (λ pairs. CountsChanges pairs settled)) }
    // Over every store, told or not.
    ensures numbers { IfOk result HasNumbers }
    ensures ops { IfOk result (λ settled. meter.new.ops ≡ meter.old.ops + settled.used.ops) }
    ensures entries { IfOk result (λ settled. meter.new.entries ≡ meter.old.entries + settled.used.entries) }
    // Where it gives up, it is within the settling of some number of changes; over a told content, within its own.
    ensures within { OnErr result (IsWithinSettling meter.old meter.new) }
    ensures within_own { OnErr result (IfSome (S.content store.old) (IsWithinSettlingOf meter.old meter.new)) }
    ensures cause { HasBrokeCause (S.faults store.old) (S.faults store.new) result }
    ensures answered { IfErr result (IsAnswered S.answers) }
{
    let key = intent_key(alloc)?;
    let value = match store.get(alloc, key.items(), meter) {
        Err(error) => return Err(Broke::from(error)),
        Ok(None) => return Ok(nothing_settled()),
        Ok(Some(value)) => value,
    };
    match intent_of(alloc, value.items())? {
        None => Err(Broke::Damaged(Damage {
            key,
            value: Some(value),
        })),
        Some(changes) => settle_changes(alloc, key.items(), &changes, store, meter),
    }
}
