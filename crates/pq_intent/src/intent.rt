//! The changes of an intent.
ghost use Rattle.std.specs.Prelude.{◌≡◌, IfOk, IfSome, IfNone};
ghost use Rattle.std.specs.List.{list_all};
ghost use Rattle.pq_intent.specs.Settling.{IsIntentOf, IsNoIntent};
ghost use Rattle.pq_content.specs.Standing.{may_intend};

use pq_base::{List, NoMem};
use pq_row_code::{Change, decode_changes};
use std::alloc::Global;

/// Whether an intent may hold a change of this key: one of a row, an entry or a counter.
fn may_intend(key: &[u8]) -> bool
    ensures { result ≡ may_intend key.now }
{
    match key {
        [space, ..] => *space == 0x02 || *space == 0x03 || *space == 0x05,
        [] => false,
    }
}

/// Whether an intent may hold all of these changes.
fn are_intended(changes: &[Change]) -> bool
    ensures { result ≡ list_all (λ change. may_intend change.key) changes.now }
{
    changes.iter().all(|change| may_intend(change.key.items()))
}

/// The changes of the intent with this value. None where it is no code of changes that an
/// intent may hold.
pub fn intent_of(alloc: Global, value: &[u8]) -> Result<Option<List<Change>>, NoMem>
    ensures found { IfOk result (λ found. IfSome found (λ changes. IsIntentOf changes value.now)) }
    ensures none { IfOk result (λ found. IfNone found (IsNoIntent value.now)) }
{
    let Some(changes) = decode_changes(alloc, value)? else {
        return Ok(None);
    };
    if are_intended(changes.items()) {
        Ok(Some(changes))
    } else {
        Ok(None)
    }
}
