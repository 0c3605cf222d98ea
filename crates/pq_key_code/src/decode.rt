//! From key codes to values.
ghost use Rattle.std.specs.Prelude.{◌≡◌, ◌≤◌, ◌==◌, false, List, length, take, slice_index_or, IfOk, IfSome, IfNone};
ghost use Rattle.std.specs.List.{list_any};
ghost use Rattle.std.specs.Option.{option_map};
ghost use Rattle.pq_base.specs.declared.value.Dir.TheVariants.{Asc};
ghost use Rattle.pq_base.specs.declared.value.Value.{Value};
ghost use Rattle.pq_base.specs.Values.{AllFit};
ghost use Rattle.pq_key_code.specs.KeyCode.{code_of};
ghost use Rattle.pq_key_code.specs.KeyReading.{from_least, number_at, truth_at, text_value_at, text_within, payload_at, component_at, row_key_at, key_at};

use crate::encode::{null_marker, turn};
use pq_base::{Bytes, ColType, DataKind, Dir, NoMem, PText, Row, Value};
use std::alloc::Global;

fn from_least_of(bits: u64) -> i64
    ensures { result ≡ from_least bits }
{
    bits.wrapping_add(1 << 63).cast_signed()
}

fn number_of(dir: Dir, bytes: &[u8]) -> Option<(i64, &[u8])>
    ensures { option_map (λ x. (x.0, x.1.now)) result ≡ number_at dir bytes.now }
{
    if bytes.len() < 8 {
        return None;
    }
    let (front, rest) = bytes.split_at(8);
    let bits = u64::from_be_bytes([
        turn(dir, front[0]),
        turn(dir, front[1]),
        turn(dir, front[2]),
        turn(dir, front[3]),
        turn(dir, front[4]),
        turn(dir, front[5]),
        turn(dir, front[6]),
        turn(dir, front[7]),
    ]);
    Some((from_least_of(bits), rest))
}

fn truth_of(dir: Dir, bytes: &[u8]) -> Option<(bool, &[u8])>
    ensures { option_map (λ x. (x.0, x.1.now)) result ≡ truth_at dir bytes.now }
{
    let [byte, rest @ ..] = bytes else {
        return None;
    };
    match turn(dir, *byte) {
        0 => Some((false, rest)),
        1 => Some((true, rest)),
        _ => None,
    }
}

#[tactic(auto, unfolding(crate::specs::KeyReading::text_value_at))]
fn unescaped_text(alloc: Global, dir: Dir, bytes: &[u8]) -> Result<Option<(Bytes, &[u8])>, NoMem>
    ensures { IfOk result (λ read. option_map (λ x. (x.0, x.1.now)) read ≡ text_value_at dir bytes.now) }
{
    let mut text = Bytes::with_room(alloc, bytes.len())?;
    let mut i = 0;
    while i + 1 < bytes.len() {
        let byte = turn(dir, bytes[i]);
        if byte != 0 {
            text.push(alloc, byte)?;
            i += 1;
        } else {
            match turn(dir, bytes[i + 1]) {
                1 => return Ok(Some((text, &bytes[i + 2..]))),
                255 => {
                    text.push(alloc, 0)?;
                    i += 2;
                }
                _ => return Ok(None),
            }
        }
    }
    Ok(None)
}

/// How many bytes stand before the first zero.
#[tactic(auto, using(crate::proofs::Reading::plain_more))]
fn plain_len(bytes: &[u8]) -> usize
    ensures within { result ≤ length bytes.now }
    ensures plain { list_any (λ byte. byte == 0) (take result bytes.now) ≡ false }
    ensures ends { slice_index_or bytes.now result 0 ≡ 0 }
{
    let mut len = 0;
    while len < bytes.len() && bytes[len] != 0 {
        len += 1;
    }
    len
}

// Most texts have no zero to escape.
fn ascending_text(alloc: Global, bytes: &[u8]) -> Result<Option<(Bytes, &[u8])>, NoMem>
    ensures { IfOk result (λ read. option_map (λ x. (x.0, x.1.now)) read ≡ text_value_at Asc bytes.now) }
{
    let len = plain_len(bytes);
    if len + 1 < bytes.len() && bytes[len + 1] == 1 {
        let text = Bytes::of_bytes(alloc, &bytes[..len])?;
        Ok(Some((text, &bytes[len + 2..])))
    } else {
        unescaped_text(alloc, Dir::Asc, bytes)
    }
}

fn text_of(alloc: Global, dir: Dir, bytes: &[u8]) -> Result<Option<(Bytes, &[u8])>, NoMem>
    ensures { IfOk result (λ read. option_map (λ x. (x.0, x.1.now)) read ≡ text_value_at dir bytes.now) }
{
    match dir {
        Dir::Asc => ascending_text(alloc, bytes),
        Dir::Desc => unescaped_text(alloc, dir, bytes),
    }
}

/// The text of these bytes. None exactly where they are more than `most` or no UTF-8.
pub fn checked_text(alloc: Global, bytes: &[u8], most: u16) -> Result<Option<PText>, NoMem>
    ensures { IfOk result (λ text. text ≡ text_within most bytes.now) }
{
    if bytes.len() > most as usize {
        return Ok(None);
    }
    PText::from_bytes(alloc, bytes)
}

// The same of bytes that were gathered for it, which takes no memory.
fn gathered_text(bytes: Bytes, most: u16) -> Option<PText>
    ensures { result ≡ text_within most bytes }
{
    if bytes.items().len() > most as usize {
        return None;
    }
    PText::from_vec(bytes.into_vec())
}

#[tactic(auto, unfolding(crate::specs::KeyReading::payload_at))]
fn payload_of(
    alloc: Global,
    kind: DataKind,
    most: u16,
    dir: Dir,
    bytes: &[u8],
) -> Result<Option<(Value, &[u8])>, NoMem>
    ensures { IfOk result (λ read. option_map (λ x. (x.0, x.1.now)) read ≡ payload_at kind most dir bytes.now) }
{
    match kind {
        DataKind::Int => match number_of(dir, bytes) {
            Some((number, rest)) => Ok(Some((Value::Int(number), rest))),
            None => Ok(None),
        },
        DataKind::Bool => match truth_of(dir, bytes) {
            Some((truth, rest)) => Ok(Some((Value::Bool(truth), rest))),
            None => Ok(None),
        },
        DataKind::Text => {
            let Some((text, rest)) = text_of(alloc, dir, bytes)? else {
                return Ok(None);
            };
            match gathered_text(text, most) {
                Some(text) => Ok(Some((Value::Text(text), rest))),
                None => Ok(None),
            }
        }
    }
}

#[tactic(auto, unfolding(crate::specs::KeyReading::component_at))]
fn component_of(
    alloc: Global,
    ty: ColType,
    dir: Dir,
    bytes: &[u8],
) -> Result<Option<(Value, &[u8])>, NoMem>
    ensures { IfOk result (λ read. option_map (λ x. (x.0, x.1.now)) read ≡ component_at ty dir bytes.now) }
{
    let [marker, rest @ ..] = bytes else {
        return Ok(None);
    };
    if *marker == 0x10 {
        return payload_of(alloc, ty.kind(), ty.room(), dir, rest);
    }
    if *marker == null_marker(dir) && ty.is_nullable() {
        Ok(Some((Value::Null, rest)))
    } else {
        Ok(None)
    }
}

fn row_of<'a>(
    alloc: Global,
    types: &[ColType],
    dirs: &[Dir],
    bytes: &'a [u8],
) -> Result<Option<(Row, &'a [u8])>, NoMem>
    requires { length types.now ≡ length dirs.now }
    ensures { IfOk result (λ read. option_map (λ x. (x.0, x.1.now)) read ≡ row_key_at types.now dirs.now bytes.now) }
{
    let mut row = Row::with_room(alloc, types.len())?;
    let mut rest = bytes;
    for i in 0..types.len() {
        let Some((value, after)) = component_of(alloc, types[i], dirs[i], rest)? else {
            return Ok(None);
        };
        row.push(alloc, value)?;
        rest = after;
    }
    Ok(Some((row, rest)))
}

#[tactic(auto, unfolding(crate::specs::KeyReading::key_at))]
fn key_of(
    alloc: Global,
    bytes: &[u8],
    types: &[ColType],
    dirs: &[Dir],
) -> Result<Option<Row>, NoMem>
    requires { length types.now ≡ length dirs.now }
    ensures { IfOk result (λ row. row ≡ key_at types.now dirs.now bytes.now) }
{
    let Some((row, rest)) = row_of(alloc, types, dirs, bytes)? else {
        return Ok(None);
    };
    if rest.is_empty() {
        Ok(Some(row))
    } else {
        Ok(None)
    }
}

/// The row that fits the types and has this key code, each value in its direction. None exactly
/// where there is no such row.
pub fn decode_key(
    alloc: Global,
    bytes: &[u8],
    types: &[ColType],
    dirs: &[Dir],
) -> Result<Option<Row>, NoMem>
    requires { length types.now ≡ length dirs.now }
    // What is answered fits, and has this code.
    ensures found { IfOk result (λ answer. IfSome answer
        (λ row. AllFit types.now row × (code_of dirs.now row ≡ bytes.now))) }
    // None, and no row that fits has this code.
    ensures none { IfOk result (λ answer. IfNone answer ((row : List Value) → AllFit types.now row
        → code_of dirs.now row ≡ bytes.now → ⊥)) }
{
    key_of(alloc, bytes, types, dirs)
}
