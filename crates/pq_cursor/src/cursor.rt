//! The text of a position, and the position of a text.
ghost use Rattle.std.specs.Prelude.{◌≡◌, length, IfOk, IfErr};
ghost use Rattle.pq_cursor.specs.Cursors.{IsCursorOf, WhyUnread, cursor_bytes, cursor_text, position_behind};

use base64::DecodeAllocError;
use base64::engine::general_purpose::URL_SAFE_NO_PAD;
use pq_base::{Bytes, ColType, Dir, NoMem, PText, Refusal, Row, Stopped};
use pq_key_code::{decode_key, encode_key};
use std::alloc::Global;

/// The format byte, the query's number and the key code of the position.
fn cursor_bytes(alloc: Global, query: u16, position: &Row, dirs: &[Dir]) -> Result<Bytes, NoMem>
    requires { length position.now ≡ length dirs.now }
    ensures { IfOk result (λ bytes. bytes ≡ cursor_bytes query dirs.now position.now) }
{
    let [high, low] = query.to_be_bytes();
    let mut bytes = Bytes::of_bytes(alloc, &[0x01, high, low])?;
    let code = encode_key(alloc, position, dirs)?;
    bytes.extend(alloc, code.items())?;
    Ok(bytes)
}

/// The cursor of a position of the query, by the number of the query's definition. Each value of the
/// position has its direction.
#[tactic(auto, unfolding(crate::specs::Cursors::cursor_text))]
pub fn cursor_text(alloc: Global, query: u16, position: &Row, dirs: &[Dir]) -> Result<PText, NoMem>
    requires { length position.now ≡ length dirs.now }
    ensures { IfOk result (λ text. text ≡ cursor_text query dirs.now position.now) }
{
    let bytes = cursor_bytes(alloc, query, position, dirs)?;
    let text = URL_SAFE_NO_PAD.encode(alloc, bytes.items())?;
    match PText::from_bytes(alloc, text.as_str().as_bytes())? {
        Some(text) => Ok(text),
        None => unreachable!(),
    }
}

/// The position that bytes hold behind the head of the query's cursors, None where they hold none that
/// fits the types.
fn position_behind(
    alloc: Global,
    bytes: &[u8],
    query: u16,
    types: &[ColType],
    dirs: &[Dir],
) -> Result<Option<Row>, NoMem>
    requires { length types.now ≡ length dirs.now }
    ensures { IfOk result (λ position. position ≡ position_behind query types.now dirs.now bytes.now) }
{
    let [high, low] = query.to_be_bytes();
    match bytes.strip_prefix(&[0x01, high, low]) {
        Some(code) => decode_key(alloc, code, types, dirs),
        None => Ok(None),
    }
}

/// The position that fits the types and has this text as its cursor for the query, by the number of the
/// query's definition. It is refused (E403) exactly where there is no such position.
pub fn read_cursor(
    alloc: Global,
    text: &PText,
    query: u16,
    types: &[ColType],
    dirs: &[Dir],
) -> Result<Row, Stopped>
    requires { length types.now ≡ length dirs.now }
    ensures found { IfOk result (λ position. IsCursorOf query types.now dirs.now text.now position) }
    ensures refused { IfErr result (WhyUnread query types.now dirs.now text.now) }
{
    let bytes = match URL_SAFE_NO_PAD.decode(alloc, text.bytes()) {
        Ok(bytes) => bytes,
        Err(DecodeAllocError::DecodeError(_)) => return Err(Stopped::Refused(Refusal::Cursor)),
        Err(DecodeAllocError::OutOfMemory) => return Err(Stopped::NoMem),
    };
    match position_behind(alloc, bytes.as_slice(), query, types, dirs)? {
        Some(position) => Ok(position),
        None => Err(Stopped::Refused(Refusal::Cursor)),
    }
}
