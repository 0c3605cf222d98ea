//! The rows of a write: the one that was read, and the one that is to be put.
ghost use Rattle.std.specs.Prelude.{◌≡◌, None, length, IfOk, IfSome, option_map};
ghost use Rattle.pq_base.specs.Shapes.{row_shape};
ghost use Rattle.pq_base.specs.Values.{AllFit};
ghost use Rattle.pq_content.specs.Tables.{types_of, stored_code};
ghost use Rattle.pq_key_code.specs.KeyCode.{IsBytes};
ghost use Rattle.pq_row_code.specs.StoredRow.{filled_decoded};
ghost use Rattle.pq_index_keep.specs.Tested.{with_sets};
ghost use Rattle.pq_clients.specs.Fitting.{MayWrite, IsMadeTable, IsUpdateOf};
ghost use Rattle.pq_clients.specs.Flights.{table_of, table_number, pair_key, row_made, row_refusal, old_row, new_row, new_code};
ghost use Rattle.pq_clients.specs.Held.{decoded_row};
ghost use Rattle.pq_clients.specs.InFlight.{tables_of, seen_flight, MayFly};

use crate::flight::InFlight;
use pq_base::{Bytes, ColType, List, NoMem, Refusal, Row, Value, known_types};
use pq_calls::types_of;
use pq_index_keep::{SetCol, Write, condition_refusal, held_refusal, with_sets};
use pq_key_code::row_key;
use pq_row_code::{decode_filled, encode_stored, known_fillers, stored_code_len};
use pq_row_keys::key_at;
use pq_schema::{Catalog, Table};
use std::alloc::Global;

/// The row of a table that has this code.
pub(crate) fn decoded_row(alloc: Global, table: &Table, code: &[u8]) -> Result<Option<Row>, NoMem>
    ensures row { IfOk result (λ row. row ≡ decoded_row table.now code.now) }
    ensures fits { IfOk result (λ row. IfSome row (AllFit (types_of table.now))) }
{
    let types = types_of(alloc, table)?;
    decoded(alloc, types.items(), &table.fillers, code)
}

/// The row of these types and defaults that has this code.
fn decoded(
    alloc: Global,
    types: &[ColType],
    fillers: &List<Option<Value>>,
    code: &[u8],
) -> Result<Option<Row>, NoMem>
    ensures row { IfOk result (λ row. row ≡ filled_decoded (row_shape types.now fillers.now) code.now) }
    ensures fits { IfOk result (λ row. IfSome row (AllFit types.now)) }
{
    known_types(types);
    known_fillers(fillers.items());
    known_bytes(code);
    decode_filled(alloc, code, types, fillers)
}

/// Tells a proof that the bytes are bytes.
fn known_bytes(bytes: &[u8])
    ensures { IsBytes bytes.now }
{}

/// The number of the write's table.
pub(crate) fn table_number(write: &Write) -> u8
    ensures { result ≡ table_number write.now }
{
    match write {
        Write::Insert { table, .. } | Write::Update { table, .. } | Write::Delete { table, .. } => {
            *table
        }
    }
}

/// The table of a write.
pub(crate) fn table_of<'a>(catalog: &'a Catalog, write: &Write) -> &'a Table
    requires { MayWrite catalog.now.tables write.now }
    ensures table { result.now ≡ table_of catalog.now.tables write.now }
    ensures made { IsMadeTable result.now }
{
    pq_index_keep::table_of(catalog, table_number(write))
}

/// The key of the pair of the row that is written.
#[tactic(auto, unfolding(crate::specs::Flights::pair_key))]
pub(crate) fn pair_key(alloc: Global, catalog: &Catalog, write: &Write) -> Result<Bytes, NoMem>
    requires { MayWrite catalog.now.tables write.now }
    ensures { IfOk result (λ key. key ≡ pair_key catalog.now.tables write.now) }
{
    match write {
        Write::Insert { table, row } => key_at(
            alloc,
            *table,
            table_of(catalog, write).key.items(),
            row.items(),
        ),
        Write::Update { table, key, .. } | Write::Delete { table, key, .. } => {
            row_key(alloc, *table, key)
        }
    }
}

/// The row that was read.
#[tactic(auto, unfolding(crate::specs::Flights::old_row))]
pub(crate) fn old_row(alloc: Global, flight: &InFlight<'_>) -> Result<Option<Row>, NoMem>
    requires { MayWrite (tables_of flight.now) flight.now.write.now }
    ensures row { IfOk result (λ row. row ≡ old_row (tables_of flight.now) (seen_flight flight.now)) }
    ensures fits { IfOk result (λ row. IfSome row (AllFit (types_of (table_of (tables_of flight.now) flight.now.write.now)))) }
{
    match flight.read {
        None => Ok(None),
        Some(code) => decoded_row(alloc, table_of(flight.catalog, flight.write), code.items()),
    }
}

/// Why the row that is there refuses the write: by the first condition that doesn't hold, or else by the first ADD
/// without a sum.
pub(crate) fn row_refusal(
    alloc: Global,
    catalog: &Catalog,
    write: &Write,
    row: &Row,
) -> Result<Option<Refusal>, NoMem>
    requires { MayWrite catalog.now.tables write.now }
    ensures { IfOk result (λ refusal. refusal ≡ row_refusal catalog.now.tables write.now row.now) }
{
    let table = table_of(catalog, write);
    match write {
        Write::Insert { .. } => Ok(None),
        Write::Update { sets, conds, .. } => {
            held_refusal(alloc, table, sets.items(), conds.items(), row)
        }
        Write::Delete { conds, .. } => condition_refusal(alloc, table, conds.items(), row),
    }
}

/// The row with the columns that an UPDATE sets.
pub(crate) fn updated(
    alloc: Global,
    catalog: &Catalog,
    write: &Write,
    sets: &List<SetCol>,
    old: &Row,
) -> Result<Row, NoMem>
    requires write { MayWrite catalog.now.tables write.now }
    requires update { IsUpdateOf write.now sets.now }
    requires granted { row_refusal catalog.now.tables write.now old.now ≡ None }
    requires fits { AllFit (types_of (table_of catalog.now.tables write.now)) old.now }
    ensures row { IfOk result (λ new. new ≡ with_sets sets.now old.now) }
    ensures fits { IfOk result (AllFit (types_of (table_of catalog.now.tables write.now))) }
{
    with_sets(alloc, old, sets.items())
}

/// The row that the write makes of one that it found, or of none.
pub(crate) fn row_made(
    alloc: Global,
    catalog: &Catalog,
    write: &Write,
    old: &Option<Row>,
) -> Result<Option<Row>, NoMem>
    requires write { MayWrite catalog.now.tables write.now }
    requires granted { IfSome old.now (λ row. row_refusal catalog.now.tables write.now row ≡ None) }
    requires old { IfSome old.now (AllFit (types_of (table_of catalog.now.tables write.now))) }
    ensures row { IfOk result (λ row. row ≡ row_made write.now old.now) }
    ensures fits { IfOk result (λ row. IfSome row (AllFit (types_of (table_of catalog.now.tables write.now)))) }
{
    match write {
        Write::Insert { row, .. } => Ok(Some(row.copy(alloc)?)),
        Write::Update { sets, .. } => match old {
            None => Ok(None),
            Some(old) => Ok(Some(updated(alloc, catalog, write, sets, old)?)),
        },
        Write::Delete { .. } => Ok(None),
    }
}

/// The row that is to be put.
#[tactic(auto, unfolding(crate::specs::Flights::new_row))]
pub(crate) fn new_row(alloc: Global, flight: &InFlight<'_>) -> Result<Option<Row>, NoMem>
    requires { MayFly flight.now }
    ensures row { IfOk result (λ row. row ≡ new_row (tables_of flight.now) (seen_flight flight.now)) }
    ensures fits { IfOk result (λ row. IfSome row (AllFit (types_of (table_of (tables_of flight.now) flight.now.write.now)))) }
{
    let old = old_row(alloc, flight)?;
    row_made(alloc, flight.catalog, flight.write, &old)
}

/// The code of a row that fits its table.
fn encoded(alloc: Global, catalog: &Catalog, write: &Write, row: &Row) -> Result<Bytes, NoMem>
    requires write { MayWrite catalog.now.tables write.now }
    requires fits { AllFit (types_of (table_of catalog.now.tables write.now)) row.now }
    ensures { IfOk result (λ code. code ≡ stored_code (table_of catalog.now.tables write.now) row.now) }
{
    encode_stored(alloc, row, &table_of(catalog, write).fillers)
}

/// The number of bytes of such a code.
pub(crate) fn code_len(catalog: &Catalog, write: &Write, row: &Row) -> u32
    requires write { MayWrite catalog.now.tables write.now }
    requires fits { AllFit (types_of (table_of catalog.now.tables write.now)) row.now }
    ensures { result ≡ length (stored_code (table_of catalog.now.tables write.now) row.now) }
{
    stored_code_len(row, &table_of(catalog, write).fillers)
}

/// The code of a row that fits its table, or nothing of none.
fn code_of(
    alloc: Global,
    catalog: &Catalog,
    write: &Write,
    row: &Option<Row>,
) -> Result<Option<Bytes>, NoMem>
    requires write { MayWrite catalog.now.tables write.now }
    requires fits { IfSome row.now (AllFit (types_of (table_of catalog.now.tables write.now))) }
    ensures { IfOk result (λ code. code
        ≡ option_map (stored_code (table_of catalog.now.tables write.now)) row.now) }
{
    match row {
        None => Ok(None),
        Some(row) => Ok(Some(encoded(alloc, catalog, write, row)?)),
    }
}

/// The code of the row that is to be put.
#[tactic(auto, unfolding(crate::specs::Flights::new_code))]
pub(crate) fn new_code(alloc: Global, flight: &InFlight<'_>) -> Result<Option<Bytes>, NoMem>
    requires { MayFly flight.now }
    ensures { IfOk result (λ code. code ≡ new_code (tables_of flight.now) (seen_flight flight.now)) }
{
    let new = new_row(alloc, flight)?;
    code_of(alloc, flight.catalog, flight.write, &new)
}
