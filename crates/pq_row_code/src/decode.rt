//! From row codes to rows.
ghost use Rattle.std.specs.Prelude.{◌≡◌, List, Some, None, length, if◌then◌else◌, IfOk, IfSome, IfNone};
ghost use Rattle.std.specs.Option.{option_map};
ghost use Rattle.std.specs.Int.{w16, w64};
ghost use Rattle.pq_base.specs.declared.value.Value.{Value};
ghost use Rattle.pq_base.specs.Values.{AllFit, kind_of_type, room_of};
ghost use Rattle.pq_row_code.specs.RowCode.{row_code};
ghost use Rattle.pq_row_code.specs.RowReading.{bits_at, flag_at, string_at, field_at, cell_at, fields_at, marks_at, marked_front, marked_decoded, is_plain, plain_decoded, row_decoded};

use pq_base::{ColType, DataKind, NoMem, PText, Row, Value, known_types};
use pq_key_code::checked_text;
use std::alloc::Global;

fn u64_of(bytes: &[u8]) -> Option<(u64, &[u8])>
    ensures { option_map (λ x. (x.0, x.1.now)) result ≡ bits_at w64 bytes.now }
{
    if bytes.len() < 8 {
        return None;
    }
    let (front, rest) = bytes.split_at(8);
    let bits = u64::from_be_bytes([
        front[0], front[1], front[2], front[3], front[4], front[5], front[6], front[7],
    ]);
    Some((bits, rest))
}

pub(crate) fn u16_of(bytes: &[u8]) -> Option<(u16, &[u8])>
    ensures { option_map (λ x. (x.0, x.1.now)) result ≡ bits_at w16 bytes.now }
{
    if bytes.len() < 2 {
        return None;
    }
    let (front, rest) = bytes.split_at(2);
    Some((u16::from_be_bytes([front[0], front[1]]), rest))
}

fn flag_of(bytes: &[u8]) -> Option<(bool, &[u8])>
    ensures { option_map (λ x. (x.0, x.1.now)) result ≡ flag_at bytes.now }
{
    let [byte, rest @ ..] = bytes else {
        return None;
    };
    match *byte {
        0 => Some((false, rest)),
        1 => Some((true, rest)),
        _ => None,
    }
}

#[tactic(auto, unfolding(crate::specs::RowReading::string_at))]
fn string_of(alloc: Global, most: u16, bytes: &[u8]) -> Result<Option<(PText, &[u8])>, NoMem>
    ensures { IfOk result (λ read. option_map (λ x. (x.0, x.1.now)) read ≡ string_at most bytes.now) }
{
    let Some((len, rest)) = u16_of(bytes) else {
        return Ok(None);
    };
    let len = len as usize;
    if rest.len() < len {
        return Ok(None);
    }
    let (front, rest) = rest.split_at(len);
    match checked_text(alloc, front, most)? {
        Some(text) => Ok(Some((text, rest))),
        None => Ok(None),
    }
}

#[inline(always)]
#[tactic(auto, unfolding(crate::specs::RowReading::field_at))]
fn field_of(alloc: Global, ty: ColType, bytes: &[u8]) -> Result<Option<(Value, &[u8])>, NoMem>
    ensures { IfOk result (λ read. option_map (λ x. (x.0, x.1.now)) read
        ≡ field_at (kind_of_type ty) (room_of ty) bytes.now) }
{
    match ty.kind() {
        DataKind::Int => match u64_of(bytes) {
            Some((bits, rest)) => Ok(Some((Value::Int(bits.cast_signed()), rest))),
            None => Ok(None),
        },
        DataKind::Bool => match flag_of(bytes) {
            Some((truth, rest)) => Ok(Some((Value::Bool(truth), rest))),
            None => Ok(None),
        },
        DataKind::Text => match string_of(alloc, ty.room(), bytes)? {
            Some((text, rest)) => Ok(Some((Value::Text(text), rest))),
            None => Ok(None),
        },
    }
}

#[tactic(auto, unfolding(crate::specs::RowReading::cell_at))]
fn cell_of(
    alloc: Global,
    ty: ColType,
    mark: u32,
    bytes: &[u8],
) -> Result<Option<(Value, &[u8])>, NoMem>
    ensures { IfOk result (λ read. option_map (λ x. (x.0, x.1.now)) read ≡ cell_at ty mark bytes.now) }
{
    if mark != 1 {
        return field_of(alloc, ty, bytes);
    }
    if ty.is_nullable() {
        Ok(Some((Value::Null, bytes)))
    } else {
        Ok(None)
    }
}

// The columns of a row without NULL.
fn plain_fields_of<'a>(
    alloc: Global,
    types: &[ColType],
    bytes: &'a [u8],
) -> Result<Option<(Row, &'a [u8])>, NoMem>
    ensures { IfOk result (λ read. option_map (λ x. (x.0, x.1.now)) read ≡ fields_at types.now 0 bytes.now) }
{
    let mut row = Row::with_room(alloc, types.len())?;
    let mut rest = bytes;
    for ty in types {
        let Some((value, after)) = field_of(alloc, *ty, rest)? else {
            return Ok(None);
        };
        row.push(alloc, value)?;
        rest = after;
    }
    Ok(Some((row, rest)))
}

fn marked_fields_of<'a>(
    alloc: Global,
    types: &[ColType],
    marks: u32,
    bytes: &'a [u8],
) -> Result<Option<(Row, &'a [u8])>, NoMem>
    ensures { IfOk result (λ read. option_map (λ x. (x.0, x.1.now)) read ≡ fields_at types.now marks bytes.now) }
{
    let mut row = Row::with_room(alloc, types.len())?;
    let mut rest = bytes;
    let mut left = marks;
    for ty in types {
        let Some((value, after)) = cell_of(alloc, *ty, left % 2, rest)? else {
            return Ok(None);
        };
        row.push(alloc, value)?;
        rest = after;
        left /= 2;
    }
    if left == 0 {
        Ok(Some((row, rest)))
    } else {
        Ok(None)
    }
}

fn marks_of(bytes: &[u8]) -> Option<(u32, &[u8])>
    ensures { option_map (λ x. (x.0, x.1.now)) result ≡ marks_at bytes.now }
{
    let [a, b, c, d, rest @ ..] = bytes else {
        return None;
    };
    Some((u32::from_be_bytes([*a, *b, *c, *d]), rest))
}

// The marks and the bytes behind them, where the first byte tells that there are marks.
fn front_of<'a>(types: &[ColType], count: u8, bytes: &'a [u8]) -> Option<(u32, &'a [u8])>
    ensures { option_map (λ x. (x.0, x.1.now)) result ≡ marked_front (length types.now) count bytes.now }
{
    if count as usize != types.len() + 0x40 {
        return None;
    }
    match marks_of(bytes) {
        Some((0, _)) | None => None,
        Some((marks, rest)) => Some((marks, rest)),
    }
}

#[tactic(auto, unfolding(crate::specs::RowReading::marked_decoded))]
fn marked_row(alloc: Global, bytes: &[u8], types: &[ColType]) -> Result<Option<Row>, NoMem>
    ensures { IfOk result (λ row. row ≡ marked_decoded types.now bytes.now) }
{
    let [count, rest @ ..] = bytes else {
        return Ok(None);
    };
    let Some((marks, rest)) = front_of(types, *count, rest) else {
        return Ok(None);
    };
    let Some((row, rest)) = marked_fields_of(alloc, types, marks, rest)? else {
        return Ok(None);
    };
    if !rest.is_empty() {
        return Ok(None);
    }
    Ok(Some(row))
}

// Whether there is a row with NULL, which `row` then is. Out of line and with nothing to answer in memory, so that
// reading a row without NULL stays one loop.
#[inline(never)]
fn put_marked(alloc: Global, bytes: &[u8], types: &[ColType], row: &mut Row) -> Result<bool, NoMem>
    ensures { IfOk result (λ found. (if found then Some row.new else None) ≡ marked_decoded types.now bytes.now) }
{
    match marked_row(alloc, bytes, types)? {
        Some(read) => {
            *row = read;
            Ok(true)
        }
        None => Ok(false),
    }
}

// Whether the first byte is that of a row without NULL.
fn is_plain(bytes: &[u8], types: &[ColType]) -> bool
    ensures { result ≡ is_plain types.now bytes.now }
{
    match bytes {
        [count, ..] => *count as usize == types.len(),
        [] => false,
    }
}

#[tactic(auto, unfolding(crate::specs::RowReading::plain_decoded))]
fn plain_row(alloc: Global, bytes: &[u8], types: &[ColType]) -> Result<Option<Row>, NoMem>
    ensures { IfOk result (λ row. row ≡ plain_decoded types.now bytes.now) }
{
    let [_, rest @ ..] = bytes else {
        return Ok(None);
    };
    let Some((row, rest)) = plain_fields_of(alloc, types, rest)? else {
        return Ok(None);
    };
    if rest.is_empty() {
        Ok(Some(row))
    } else {
        Ok(None)
    }
}

#[inline(always)]
pub(crate) fn row_read(alloc: Global, bytes: &[u8], types: &[ColType]) -> Result<Option<Row>, NoMem>
    ensures { IfOk result (λ row. row ≡ row_decoded types.now bytes.now) }
{
    if is_plain(bytes, types) {
        return plain_row(alloc, bytes, types);
    }
    let mut row = Row::new(alloc);
    if put_marked(alloc, bytes, types, &mut row)? {
        Ok(Some(row))
    } else {
        Ok(None)
    }
}

/// The row that fits the types and has this row code. None exactly where there is no such row.
pub fn decode_row(alloc: Global, bytes: &[u8], types: &[ColType]) -> Result<Option<Row>, NoMem>
    // What is answered fits, and has this code.
    ensures found { IfOk result (λ answer. IfSome answer (λ row. AllFit types.now row × (row_code row ≡ bytes.now))) }
    // None, and no row that fits has this code.
    ensures none { IfOk result (λ answer. IfNone answer ((row : List Value) → AllFit types.now row
        → row_code row ≡ bytes.now → ⊥)) }
{
    known_types(types);
    row_read(alloc, bytes, types)
}
