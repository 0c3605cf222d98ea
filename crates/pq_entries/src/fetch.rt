//! The rows that entries name.
ghost use Rattle.std.specs.Prelude.{◌≡◌, ◌≤◌, ◌+◌, List, Some, All, map, length, IfOk, IfErr, IfSome, IsSome};
ghost use Rattle.std.specs.List.{AllByRecursion};
ghost use Rattle.pq_base.specs.Members.{In};
ghost use Rattle.pq_base.specs.Values.{AllFit};
ghost use Rattle.pq_base.specs.declared.value.Value.{Value};
ghost use Rattle.pq_schema.specs.Rows.{types_of, shape_of};
ghost use Rattle.pq_schema.specs.Sequences.{IsAccess, index_sequence, index_numbered};
ghost use Rattle.pq_schema.specs.Sound.{IsTable};
ghost use Rattle.pq_schema.specs.Tables.{table_at};
ghost use Rattle.pq_calls.specs.Calls.{Asks};
ghost use Rattle.pq_calls.specs.Keys.{sequence_types};
ghost use Rattle.pq_calls.specs.World.{Affords, where_told};
ghost use Rattle.pq_content.specs.Pairs.{Pair, HoldsRows};
ghost use Rattle.pq_content.specs.Tables.{Rows, values_of, rows_of, stored_code};
ghost use Rattle.pq_nodes.specs.Operators.{ShowsRead};
ghost use Rattle.pq_entries.specs.Entries.{IsSequence, IsNamedRow, AreNamedRows, IsEntryThere, IsUnread, IsNoNamedRow, OneNamesNoRow, named_at};

use crate::keys::{named_at, named_key};
use crate::ranges::table_of;
use pq_base::{Bytes, ColType, List, NoMem, Row};
use pq_calls::{Calls, answered_row, types_of};
use pq_key_code::row_key;
use pq_schema::{Access, Catalog, Table, sequence};
use pq_store::{Broke, Damage, Store};
use std::alloc::Global;
use std::sync::ledger::Ledger;

/// The row that an entry of an index names, by the entry's values: one operation and one entry. That it is
/// not there is damage.
pub fn named_row<S: Store<L>, L: Ledger>(
    alloc: Global,
    catalog: &Catalog,
    number: u8,
    index: u8,
    values: &Row,
    calls: &mut Calls<S, L>,
) -> Result<Row, Broke>
    requires sequence { IsSequence catalog.now.tables number (Access.Secondary index) }
    requires values { AllFit (sequence_types (table_at catalog.now.tables number) (Access.Secondary index)) values.now }
    requires there { IsEntryThere number (table_at catalog.now.tables number) index
        (S.content calls.old.store.now) values.now }
    requires share { Affords calls.old.allowance.now 1 1 }
    ensures asks { Asks S.Store (where_told (ShowsRead catalog.now.tables)) calls.old calls.new 1 1 1 result }
    ensures fits { IfOk result (AllFit (types_of (table_at catalog.now.tables number))) }
    // Over any content that is told, the row that stands at the key that the entry names.
    ensures code { IfOk result (λ found. IfSome (S.content calls.old.store.now)
        (IsNamedRow number (table_at catalog.now.tables number) index values.now found)) }
    ensures answer { IfOk result (λ found. (rows : Rows) (others : List Pair) (row : List Value)
        → HoldsRows (S.content calls.old.store.now) catalog.now.tables rows others →
        In row (rows_of number rows) → values.now
        ≡ values_of (index_sequence (table_at catalog.now.tables number)
        (index_numbered (table_at catalog.now.tables number) index)) row → found ≡ row) }
{
    let access = Access::Secondary(index);
    let table = table_of(catalog, number, access);
    let key = named_key(alloc, table, access, values)?;
    match calls.row(alloc, number, table, &key)? {
        Some(stored) => Ok(stored.row),
        None => Err(Broke::Damaged(Damage {
            key: row_key(alloc, number, &key)?,
            value: None,
        })),
    }
}

/// The keys in the store of the rows that entries of an index name, by the entries' values.
fn named_keys(
    alloc: Global,
    number: u8,
    table: &Table,
    index: u8,
    found: &[Row],
) -> Result<List<Option<Bytes>>, NoMem>
    requires table { IsTable table.now }
    requires access { IsAccess table.now (Access.Secondary index) }
    ensures { IfOk result (λ asked. asked ≡ map (named_at number table.now index) found.now) }
{
    let parts = sequence(alloc, table, Access::Secondary(index))?;
    let mut asked = List::with_room(alloc, found.len())?;
    for values in found {
        let key = table.key.items();
        let at = named_at(alloc, number, parts.items(), values.items(), key)?;
        asked.push(alloc, Some(at))?;
    }
    Ok(asked)
}

/// The row of the value at a key that was asked for.
fn row_at(
    alloc: Global,
    table: &Table,
    types: &[ColType],
    asked: &Option<Bytes>,
    code: &Option<Bytes>,
) -> Result<Row, Broke>
    requires types { types.now ≡ types_of table.now }
    requires asked { IsSome asked.now }
    ensures fits { IfOk result (AllFit (types_of table.now)) }
    ensures code { IfOk result (λ row. code.now ≡ Some (stored_code table.now row)) }
    ensures cause { IfErr result (IsUnread (IsNoNamedRow (shape_of table.now) asked.now code.now)) }
{
    let Some(at) = asked else {
        unreachable!();
    };
    match code {
        Some(code) => answered_row(alloc, at.items(), code.items(), types, &table.fillers),
        None => Err(Broke::Damaged(Damage {
            key: Bytes::of_bytes(alloc, at.items())?,
            value: None,
        })),
    }
}

/// The rows of the values at keys that were asked for.
fn rows_at(
    alloc: Global,
    table: &Table,
    asked: &[Option<Bytes>],
    codes: &[Option<Bytes>],
) -> Result<List<Row>, Broke>
    requires alike { length codes.now ≡ length asked.now }
    requires asked { All IsSome asked.now }
    ensures fit { IfOk result (AllByRecursion (AllFit (types_of table.now))) }
    ensures codes { IfOk result (λ rows. codes.now ≡ map (λ row. Some (stored_code table.now row)) rows) }
    ensures cause { IfErr result (IsUnread (OneNamesNoRow (shape_of table.now) asked.now codes.now)) }
{
    let types = types_of(alloc, table)?;
    let mut rows = List::with_room(alloc, asked.len())?;
    for place in 0..asked.len() {
        let row = row_at(alloc, table, types.items(), &asked[place], &codes[place])?;
        rows.push(alloc, row)?;
    }
    Ok(rows)
}

/// The rows that entries of an index name, by the entries' values: one operation and one entry for each, all asked
/// at once. That one is not there is damage.
pub fn named_rows<S: Store<L>, L: Ledger>(
    alloc: Global,
    catalog: &Catalog,
    number: u8,
    index: u8,
    found: &[Row],
    calls: &mut Calls<S, L>,
) -> Result<List<Row>, Broke>
    requires sequence { IsSequence catalog.now.tables number (Access.Secondary index) }
    requires values { AllByRecursion (AllFit
        (sequence_types (table_at catalog.now.tables number) (Access.Secondary index))) found.now }
    requires there { AllByRecursion (IsEntryThere number (table_at catalog.now.tables number) index
        (S.content calls.old.store.now)) found.now }
    requires share { Affords calls.old.allowance.now (length found.now) (length found.now) }
    ensures asks { Asks S.Store (where_told (ShowsRead catalog.now.tables)) calls.old calls.new
        (length found.now) (length found.now) 1 result }
    ensures long { IfOk result (λ rows. length rows ≡ length found.now) }
    ensures fit { IfOk result (AllByRecursion (AllFit (types_of (table_at catalog.now.tables number)))) }
    ensures codes { IfOk result (λ named. IfSome (S.content calls.old.store.now)
        (AreNamedRows number (table_at catalog.now.tables number) index found.now named)) }
    ensures answer { IfOk result (λ named. (rows : Rows) (others : List Pair) (wanted : List (List Value))
        → HoldsRows (S.content calls.old.store.now) catalog.now.tables rows others →
        AllByRecursion (λ row. In row (rows_of number rows)) wanted
        → found.now ≡ map (values_of (index_sequence (table_at catalog.now.tables number)
        (index_numbered (table_at catalog.now.tables number) index))) wanted → named ≡ wanted) }
{
    let table = table_of(catalog, number, Access::Secondary(index));
    let asked = named_keys(alloc, number, table, index, found)?;
    let codes = calls.gets(alloc, asked.items())?;
    rows_at(alloc, table, asked.items(), codes.items())
}
