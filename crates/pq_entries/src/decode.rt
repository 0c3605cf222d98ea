//! Pairs of the store as rows and as values of a sequence.
ghost use Rattle.std.specs.Prelude.{◌≡◌, ◌≤◌, All, map, drop, length, IfOk, IfErr};
ghost use Rattle.std.specs.List.{AllByRecursion};
ghost use Rattle.pq_base.specs.Shapes.{row_shape};
ghost use Rattle.pq_base.specs.Values.{AllFit};
ghost use Rattle.pq_key_code.specs.KeyCode.{code_of};
ghost use Rattle.pq_row_code.specs.StoredRow.{code_as};
ghost use Rattle.pq_store.specs.Content.{entry};
ghost use Rattle.pq_entries.specs.Entries.{IsUnread, IsNoRowPair, IsNoKeyPair, OneShows, TellsPair};

use pq_base::{Bytes, ColType, Dir, List, NoMem, Row, Value};
use pq_key_code::decode_key;
use pq_row_code::decode_filled;
use pq_store::{Broke, Damage, Pair};
use std::alloc::Global;

/// The damage of a key and its value.
fn damage_at(alloc: Global, key: &[u8], value: &[u8]) -> Result<Damage, NoMem>
    ensures { IfOk result (TellsPair (key.now, value.now)) }
{
    Ok(Damage {
        key: Bytes::of_bytes(alloc, key)?,
        value: Some(Bytes::of_bytes(alloc, value)?),
    })
}

/// The row of a pair.
fn decoded_row(
    alloc: Global,
    types: &[ColType],
    fillers: &List<Option<Value>>,
    pair: &Pair,
) -> Result<Row, Broke>
    ensures code { IfOk result (λ row. code_as (row_shape types.now fillers.now) row ≡ pair.now.value) }
    ensures fits { IfOk result (AllFit types.now) }
    ensures cause { IfErr result (IsUnread (IsNoRowPair (row_shape types.now fillers.now) (entry pair.now))) }
{
    match decode_filled(alloc, pair.value.items(), types, fillers)? {
        Some(row) => Ok(row),
        None => {
            let damage = damage_at(alloc, pair.key.items(), pair.value.items())?;
            Err(Broke::Damaged(damage))
        }
    }
}

/// The rows of pairs.
pub(crate) fn decoded_rows(
    alloc: Global,
    types: &[ColType],
    fillers: &List<Option<Value>>,
    pairs: &[Pair],
) -> Result<List<Row>, Broke>
    ensures codes { IfOk result (λ rows. map (code_as (row_shape types.now fillers.now)) rows
        ≡ map (λ pair. pair.value) pairs.now) }
    ensures fit { IfOk result (AllByRecursion (AllFit types.now)) }
    ensures cause { IfErr result (IsUnread (OneShows (IsNoRowPair (row_shape types.now fillers.now))
        (map entry pairs.now))) }
{
    let mut rows = List::with_room(alloc, pairs.len())?;
    for pair in pairs {
        let row = decoded_row(alloc, types, fillers, pair)?;
        rows.push(alloc, row)?;
    }
    Ok(rows)
}

/// The values of a pair's key behind its first bytes.
fn decoded_values(
    alloc: Global,
    types: &[ColType],
    dirs: &[Dir],
    skipped: usize,
    pair: &Pair,
) -> Result<Row, Broke>
    requires alike { length types.now ≡ length dirs.now }
    requires long { skipped ≤ length pair.now.key }
    ensures code { IfOk result (λ values. code_of dirs.now values ≡ drop skipped pair.now.key) }
    ensures fits { IfOk result (AllFit types.now) }
    ensures cause { IfErr result (IsUnread (IsNoKeyPair types.now dirs.now skipped (entry pair.now))) }
{
    let code = &pair.key.items()[skipped..];
    match decode_key(alloc, code, types, dirs)? {
        Some(values) => Ok(values),
        None => {
            let damage = damage_at(alloc, pair.key.items(), pair.value.items())?;
            Err(Broke::Damaged(damage))
        }
    }
}

/// The values of pairs' keys behind their first bytes.
pub(crate) fn decoded_keys(
    alloc: Global,
    types: &[ColType],
    dirs: &[Dir],
    skipped: usize,
    pairs: &[Pair],
) -> Result<List<Row>, Broke>
    requires alike { length types.now ≡ length dirs.now }
    requires long { All (λ pair. skipped ≤ length pair.key) pairs.now }
    ensures codes { IfOk result (λ found. map (code_of dirs.now) found ≡ map
        (λ pair. drop skipped pair.key) pairs.now) }
    ensures fit { IfOk result (AllByRecursion (AllFit types.now)) }
    ensures cause { IfErr result (IsUnread (OneShows (IsNoKeyPair types.now dirs.now skipped) (map entry pairs.now))) }
{
    let mut found = List::with_room(alloc, pairs.len())?;
    for pair in pairs {
        let values = decoded_values(alloc, types, dirs, skipped, pair)?;
        found.push(alloc, values)?;
    }
    Ok(found)
}
