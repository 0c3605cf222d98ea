//! Entries that are written for the pairs of rows.
ghost use Rattle.std.specs.Prelude.{◌≡◌, ◌≤◌, ◌+◌, ◌∷◌, [], Some, length, map, IfOk, IfErr, IfSome, IfNone, OnOk, OnErr};
ghost use Rattle.std.specs.Option.{option_map};
ghost use Rattle.pq_row_code.specs.StoredRow.{IsNoRowCode};
ghost use Rattle.pq_store.specs.Breaks.{IfDamaged, IsUndamaged};
ghost use Rattle.pq_store.specs.Content.{entry, written_content};
ghost use Rattle.pq_store.specs.Counts.{charged_counts};
ghost use Rattle.pq_intent.specs.Changing.{MayChange};
ghost use Rattle.pq_builds.specs.Filling.{IsEntryIn, Enters, EntersSome, target_shape, IsNoRowPair, IsNoRowAmong, HasValue};
ghost use Rattle.pq_builds.specs.Told.{Turns, LeavesStore};

use crate::target::{Target, entry_of};
use pq_base::{Bytes, NoMem};
use pq_row_code::decode_filled;
use pq_store::{Broke, Damage, Guard, Meter, Pair, Store};
use std::alloc::Global;
use std::sync::ledger::Ledger;

/// Gives a key its value, whatever it has.
pub(crate) fn put<S: Store<L>, L: Ledger>(
    alloc: Global,
    key: &[u8],
    value: &[u8],
    store: &mut S,
    meter: &mut Meter<L>,
) -> Result<(), Broke>
    ensures made { OnOk result (S.content store.new
        ≡ option_map (written_content key.now (Some value.now)) (S.content store.old)) }
    ensures stopped { OnErr result (MayChange (key.now, Some value.now) (S.content store.old) (S.content store.new)) }
    ensures sound { IfErr result IsUndamaged }
    ensures meter { meter.new ≡ charged_counts meter.old 0 }
    ensures leaves { LeavesStore S.Store store.old store.new result }
{
    match store.write(alloc, key, Guard::Any, Some(value), meter) {
        Ok(_) => Ok(()),
        Err(error) => Err(Broke::from(error)),
    }
}

/// The key of the entry of the row that a pair has, None where its value is the code of no row.
fn entry_in(alloc: Global, target: &Target, pair: &Pair) -> Result<Option<Bytes>, NoMem>
    ensures found { IfOk result (λ key. IfSome key (IsEntryIn target.now (entry pair.now))) }
    ensures none { IfOk result (λ key. IfNone key (IsNoRowCode (target_shape target.now) pair.now.value)) }
{
    match decode_filled(
        alloc,
        pair.value.items(),
        target.types.items(),
        &target.fillers,
    )? {
        None => Ok(None),
        Some(row) => Ok(Some(entry_of(alloc, target, &row)?)),
    }
}

/// A pair whose value is not of the form that its key asks for.
fn damage_of(alloc: Global, pair: &Pair) -> Result<Damage, NoMem>
    ensures key { IfOk result (λ damage. damage.key ≡ pair.now.key) }
    ensures value { IfOk result (λ damage. damage.value ≡ Some pair.now.value) }
{
    Ok(Damage {
        key: Bytes::of_bytes(alloc, pair.key.items())?,
        value: Some(Bytes::of_bytes(alloc, pair.value.items())?),
    })
}

/// Writes the entry of the row that a pair has.
fn write_entry<S: Store<L>, L: Ledger>(
    alloc: Global,
    target: &Target,
    pair: &Pair,
    store: &mut S,
    meter: &mut Meter<L>,
) -> Result<(), Broke>
    ensures enters { OnOk result (Turns S.Store store.old store.new (Enters target.now (entry pair.now ∷ []))) }
    ensures stopped { OnErr result (Turns S.Store store.old store.new (EntersSome target.now (entry pair.now ∷ []))) }
    ensures damage { IfErr result (IfDamaged (IsNoRowPair (target_shape target.now) (entry pair.now))) }
    ensures one { OnOk result (meter.new.ops ≡ meter.old.ops + 1) }
    ensures few { meter.new.ops ≤ meter.old.ops + 1 }
    ensures entries { meter.new.entries ≡ meter.old.entries }
    ensures leaves { LeavesStore S.Store store.old store.new result }
{
    match entry_in(alloc, target, pair)? {
        None => Err(Broke::Damaged(damage_of(alloc, pair)?)),
        Some(key) => put(alloc, key.items(), &[], store, meter),
    }
}

/// Writes the entries of the rows that the pairs have, in their order.
pub(crate) fn write_entries<S: Store<L>, L: Ledger>(
    alloc: Global,
    target: &Target,
    pairs: &[Pair],
    store: &mut S,
    meter: &mut Meter<L>,
) -> Result<(), Broke>
    ensures enters { OnOk result (Turns S.Store store.old store.new (Enters target.now (map entry pairs.now))) }
    ensures stopped { OnErr result (Turns S.Store store.old store.new (EntersSome target.now (map entry pairs.now))) }
    ensures damage { IfErr result (IfDamaged (IsNoRowAmong (target_shape target.now) (map entry pairs.now))) }
    ensures valued { IfErr result HasValue }
    ensures each { OnOk result (meter.new.ops ≡ meter.old.ops + length pairs.now) }
    ensures few { meter.new.ops ≤ meter.old.ops + length pairs.now }
    ensures entries { meter.new.entries ≡ meter.old.entries }
    ensures leaves { LeavesStore S.Store store.old store.new result }
{
    for pair in pairs {
        write_entry(alloc, target, pair, store, meter)?;
    }
    Ok(())
}
