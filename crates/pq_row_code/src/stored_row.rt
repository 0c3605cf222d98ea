//! Stored rows: rows without the longest suffix of added columns that hold their defaults.
ghost use Rattle.std.specs.Prelude.{◌≡◌, ◌≤◌, ◌<◌, [], List, All, drop, length, IfOk, IfSome, IfNone};
ghost use Rattle.pq_base.specs.declared.value.Value.{Value};
ghost use Rattle.pq_base.specs.Shapes.{row_shape};
ghost use Rattle.pq_base.specs.Values.{IsValue, AllFit};
ghost use Rattle.pq_row_code.specs.RowCode.{IsShort};
ghost use Rattle.pq_row_code.specs.StoredRow.{AreFillers, holds_default, stored_len, stored_row, code_as, columns_told, with_defaults, of_stored_len, filled, short_decoded, filled_decoded};

use crate::decode::row_read;
use crate::encode::{code_len, code_of};
use pq_base::{
    Bytes, ColType, List, NoMem, Row, Value, cmp_values, fits, known_types, known_value,
};
use std::alloc::Global;

/// Whether the column is an added one that holds its default.
fn holds_default(fillers: &[Option<Value>], row: &[Value], col: usize) -> bool
    requires { col < length row.now }
    ensures { result ≡ holds_default fillers.now row.now col }
{
    match fillers.get(col) {
        Some(Some(filler)) => cmp_values(filler, &row[col]).is_eq(),
        _ => false,
    }
}

/// The number of columns of the stored row.
fn stored_columns(fillers: &[Option<Value>], row: &[Value]) -> usize
    ensures len { result ≡ stored_len fillers.now row.now }
    ensures inside { result ≤ length row.now }
{
    let mut len = row.len();
    if len > 32 {
        return len;
    }
    while len > 0 && holds_default(fillers, row, len - 1) {
        len -= 1;
    }
    len
}

/// The number of columns of the stored row: those of the row without the longest suffix of added columns
/// that hold their defaults. `fillers` has the default of each added column at its place.
pub fn stored_len(row: &Row, fillers: &List<Option<Value>>) -> u8
    requires { length row.now ≤ 32 }
    ensures { result ≡ stored_len fillers.now row.now }
{
    stored_columns(fillers.items(), row.items()) as u8
}

/// The values of the stored row.
fn stored_values<'a>(row: &'a Row, fillers: &List<Option<Value>>) -> &'a [Value]
    ensures { result.now ≡ stored_row fillers.now row.now }
{
    let row = row.items();
    &row[..stored_columns(fillers.items(), row)]
}

/// The number of bytes of the stored row's code.
pub fn stored_code_len(row: &Row, fillers: &List<Option<Value>>) -> u32
    requires columns { length row.now ≤ 32 }
    requires texts { All IsShort row.now }
    ensures { result ≡ length (code_as (row_shape [] fillers.now) row.now) }
{
    code_len(stored_values(row, fillers))
}

/// The row code of the stored row.
pub fn encode_stored(
    alloc: Global,
    row: &Row,
    fillers: &List<Option<Value>>,
) -> Result<Bytes, NoMem>
    requires columns { length row.now ≤ 32 }
    requires texts { All IsShort row.now }
    ensures { IfOk result (λ code. code ≡ code_as (row_shape [] fillers.now) row.now) }
{
    code_of(alloc, stored_values(row, fillers))
}

/// The number of columns that the first byte tells.
fn columns_told(bytes: &[u8]) -> usize
    ensures { result ≡ columns_told bytes.now }
{
    match bytes {
        [] => 0,
        [first, ..] if *first < 0x40 => *first as usize,
        [first, ..] => *first as usize - 0x40,
    }
}

/// The row with the defaults of the columns behind it. None where one of these was not added.
fn with_defaults(
    alloc: Global,
    types: &[ColType],
    fillers: &[Option<Value>],
    mut row: Row,
) -> Result<Option<Row>, NoMem>
    ensures { IfOk result (λ made. made ≡ with_defaults types.now fillers.now row) }
{
    let Some((ty, types)) = types.split_first() else {
        return Ok(Some(row));
    };
    let Some((filler, fillers)) = fillers.split_first() else {
        return Ok(None);
    };
    match filler {
        Some(value) if fits(value, *ty) => {
            row.push(alloc, value.copy(alloc)?)?;
            with_defaults(alloc, types, fillers, row)
        }
        _ => Ok(None),
    }
}

/// The defaults from a column on.
fn fillers_from(fillers: &[Option<Value>], col: usize) -> &[Option<Value>]
    ensures { result.now ≡ drop col fillers.now }
{
    if col < fillers.len() {
        &fillers[col..]
    } else {
        &[]
    }
}

/// The row whose first columns were read. None where they are not its stored row.
#[tactic(auto, unfolding(crate::specs::StoredRow::filled))]
fn filled(
    alloc: Global,
    columns: usize,
    front: Row,
    types: &[ColType],
    fillers: &[Option<Value>],
) -> Result<Option<Row>, NoMem>
    requires { columns ≤ length types.now }
    ensures { IfOk result (λ row. row ≡ filled (row_shape types.now fillers.now) columns front) }
{
    let behind = fillers_from(fillers, columns);
    let Some(row) = with_defaults(alloc, &types[columns..], behind, front)? else {
        return Ok(None);
    };
    if stored_columns(fillers, row.items()) == columns {
        Ok(Some(row))
    } else {
        Ok(None)
    }
}

#[tactic(auto, unfolding(crate::specs::StoredRow::short_decoded))]
fn short_read(
    alloc: Global,
    columns: usize,
    bytes: &[u8],
    types: &[ColType],
    fillers: &[Option<Value>],
) -> Result<Option<Row>, NoMem>
    ensures { IfOk result (λ row. row ≡ short_decoded (row_shape types.now fillers.now) columns bytes.now) }
{
    if columns > types.len() {
        return Ok(None);
    }
    match row_read(alloc, bytes, &types[..columns])? {
        Some(front) => filled(alloc, columns, front, types, fillers),
        None => Ok(None),
    }
}

#[inline(always)]
#[tactic(auto, unfolding(crate::specs::StoredRow::filled_decoded))]
fn filled_read(
    alloc: Global,
    bytes: &[u8],
    types: &[ColType],
    fillers: &[Option<Value>],
) -> Result<Option<Row>, NoMem>
    ensures { IfOk result (λ row. row ≡ filled_decoded (row_shape types.now fillers.now) bytes.now) }
{
    if types.len() > 32 {
        return row_read(alloc, bytes, types);
    }
    short_read(alloc, columns_told(bytes), bytes, types, fillers)
}

fn known_filler(filler: &Option<Value>)
    ensures { IfSome filler.now IsValue }
{
    if let Some(value) = filler {
        known_value(value);
    }
}

/// Tells a proof that the defaults are in their kinds' ranges.
pub fn known_fillers(fillers: &[Option<Value>])
    ensures { AreFillers fillers.now }
{
    for filler in fillers {
        known_filler(filler);
    }
}

/// The row that fits the types and whose stored row has this code. None exactly where there is no such row;
/// so a code that spells out a default at its end is none.
pub fn decode_filled(
    alloc: Global,
    bytes: &[u8],
    types: &[ColType],
    fillers: &List<Option<Value>>,
) -> Result<Option<Row>, NoMem>
    // What is answered fits, and has this code.
    ensures found { IfOk result (λ answer. IfSome answer
        (λ row. AllFit types.now row × (code_as (row_shape types.now fillers.now) row ≡ bytes.now))) }
    // None, and no row that fits has this code.
    ensures none { IfOk result (λ answer. IfNone answer ((row : List Value) → AllFit types.now row
        → code_as (row_shape types.now fillers.now) row ≡ bytes.now → ⊥)) }
{
    let fillers = fillers.items();
    known_types(types);
    known_fillers(fillers);
    filled_read(alloc, bytes, types, fillers)
}
