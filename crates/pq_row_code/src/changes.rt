//! The change list, both ways.
ghost use Rattle.std.specs.Prelude.{◌≡◌, ◌++◌, ◌<◌, ◌^◌, List, length, OnOk, IfOk, IfSome, IfNone, All};
ghost use Rattle.std.specs.Option.{option_map};
ghost use Rattle.std.specs.Int.{w32};
ghost use Rattle.pq_row_code.specs.declared.changes.Change.{Change};
ghost use Rattle.pq_row_code.specs.RowReading.{bits_at};
ghost use Rattle.pq_row_code.specs.Changes.{sized_bytes, change_code, changes_code, IsChange, AreChanges};
ghost use Rattle.pq_row_code.specs.ChangeReading.{sized_at, new_at, change_at, changes_at, list_at};

use crate::decode::u16_of;
use pq_base::{Bytes, List, NoMem};
use std::alloc::Global;

/// A key of the store and what it is to hold: a new value, or nothing.
pub struct Change {
    pub key: Bytes,
    pub new: Option<Bytes>,
}

// Written out, so that whoever drops a change makes one call for it.
impl Drop for Change {
    fn drop(self) {
        let Change {
            key: _key,
            new: _new,
        } = self;
    }
}

fn put_sized(alloc: Global, out: &mut Bytes, bytes: &[u8]) -> Result<(), NoMem>
    requires { length bytes.now < 2 ^ 32 }
    ensures { OnOk result (out.new ≡ out.old ++ sized_bytes bytes.now) }
{
    out.extend(alloc, &(bytes.len() as u32).to_be_bytes())?;
    out.extend(alloc, bytes)
}

fn put_change(alloc: Global, out: &mut Bytes, change: &Change) -> Result<(), NoMem>
    requires { IsChange change.now }
    ensures { OnOk result (out.new ≡ out.old ++ change_code change.now) }
{
    put_sized(alloc, out, change.key.items())?;
    match &change.new {
        None => out.push(alloc, 0),
        Some(value) => {
            out.push(alloc, 1)?;
            put_sized(alloc, out, value.items())
        }
    }
}

// At least as many bytes as the changes take, wherever there is memory for them.
fn changes_room(changes: &[Change]) -> usize {
    let mut room = 2usize;
    for change in changes {
        let value = match &change.new {
            None => 0,
            Some(value) => value.items().len(),
        };
        room = room
            .saturating_add(9)
            .saturating_add(change.key.items().len())
            .saturating_add(value);
    }
    room
}

/// The bytes of a change list: the number of changes in two bytes, and then each change. A key has
/// four bytes of length before its own, and then comes 00 for a removal, or 01 and the value with
/// four bytes of length. The highest byte of a number comes first.
pub fn encode_changes(alloc: Global, changes: &List<Change>) -> Result<Bytes, NoMem>
    requires few { length changes.now < 2 ^ 16 }
    requires each { All IsChange changes.now }
    ensures { IfOk result (λ code. code ≡ changes_code changes.now) }
{
    let mut code = Bytes::with_room(alloc, changes_room(changes.items()))?;
    code.extend(alloc, &(changes.items().len() as u16).to_be_bytes())?;
    for change in changes.items() {
        put_change(alloc, &mut code, change)?;
    }
    Ok(code)
}

fn change_len(change: &Change) -> u32
    requires { length (change_code change.now) < 2 ^ 32 }
    ensures { result ≡ length (change_code change.now) }
{
    let value = match &change.new {
        None => 0,
        Some(value) => 4 + value.items().len() as u32,
    };
    5 + change.key.items().len() as u32 + value
}

/// The number of bytes of the code of these changes.
pub fn changes_len(changes: &List<Change>) -> u32
    requires { length (changes_code changes.now) < 2 ^ 32 }
    ensures { result ≡ length (changes_code changes.now) }
{
    let mut len = 2;
    for change in changes.items() {
        len += change_len(change);
    }
    len
}

fn u32_of(bytes: &[u8]) -> Option<(u32, &[u8])>
    ensures { option_map (λ x. (x.0, x.1.now)) result ≡ bits_at w32 bytes.now }
{
    if bytes.len() < 4 {
        return None;
    }
    let (front, rest) = bytes.split_at(4);
    Some((
        u32::from_be_bytes([front[0], front[1], front[2], front[3]]),
        rest,
    ))
}

#[tactic(auto, unfolding(crate::specs::ChangeReading::sized_at))]
fn sized_of(alloc: Global, bytes: &[u8]) -> Result<Option<(Bytes, &[u8])>, NoMem>
    ensures { IfOk result (λ read. option_map (λ x. (x.0, x.1.now)) read ≡ sized_at bytes.now) }
{
    let Some((len, rest)) = u32_of(bytes) else {
        return Ok(None);
    };
    let len = len as usize;
    if rest.len() < len {
        return Ok(None);
    }
    let (front, rest) = rest.split_at(len);
    Ok(Some((Bytes::of_bytes(alloc, front)?, rest)))
}

#[tactic(auto, unfolding(crate::specs::ChangeReading::new_at))]
fn new_of(alloc: Global, bytes: &[u8]) -> Result<Option<(Option<Bytes>, &[u8])>, NoMem>
    ensures { IfOk result (λ read. option_map (λ x. (x.0, x.1.now)) read ≡ new_at bytes.now) }
{
    let [byte, rest @ ..] = bytes else {
        return Ok(None);
    };
    match *byte {
        0 => Ok(Some((None, rest))),
        1 => match sized_of(alloc, rest)? {
            Some((value, rest)) => Ok(Some((Some(value), rest))),
            None => Ok(None),
        },
        _ => Ok(None),
    }
}

#[tactic(auto, unfolding(crate::specs::ChangeReading::change_at))]
fn change_of(alloc: Global, bytes: &[u8]) -> Result<Option<(Change, &[u8])>, NoMem>
    ensures { IfOk result (λ read. option_map (λ x. (x.0, x.1.now)) read ≡ change_at bytes.now) }
{
    let Some((key, rest)) = sized_of(alloc, bytes)? else {
        return Ok(None);
    };
    match new_of(alloc, rest)? {
        Some((new, rest)) => Ok(Some((Change { key, new }, rest))),
        None => Ok(None),
    }
}

fn changes_of(
    alloc: Global,
    count: u16,
    bytes: &[u8],
) -> Result<Option<(List<Change>, &[u8])>, NoMem>
    ensures { IfOk result (λ read. option_map (λ x. (x.0, x.1.now)) read ≡ changes_at count bytes.now) }
{
    let mut changes = List::new(alloc);
    let mut rest = bytes;
    for _ in 0..count {
        let Some((change, after)) = change_of(alloc, rest)? else {
            return Ok(None);
        };
        changes.push(alloc, change)?;
        rest = after;
    }
    Ok(Some((changes, rest)))
}

#[tactic(auto, unfolding(crate::specs::ChangeReading::list_at))]
fn list_of(alloc: Global, bytes: &[u8]) -> Result<Option<List<Change>>, NoMem>
    ensures { IfOk result (λ changes. changes ≡ list_at bytes.now) }
{
    let Some((count, rest)) = u16_of(bytes) else {
        return Ok(None);
    };
    let Some((changes, rest)) = changes_of(alloc, count, rest)? else {
        return Ok(None);
    };
    if rest.is_empty() {
        Ok(Some(changes))
    } else {
        Ok(None)
    }
}

/// The change list that has these bytes. None exactly where no change list has them.
pub fn decode_changes(alloc: Global, bytes: &[u8]) -> Result<Option<List<Change>>, NoMem>
    // What is answered is a change list with these bytes.
    ensures found { IfOk result (λ answer. IfSome answer
        (λ changes. AreChanges changes × (changes_code changes ≡ bytes.now))) }
    // None, and no change list has these bytes.
    ensures none { IfOk result (λ answer. IfNone answer ((changes : List Change) → AreChanges changes
        → changes_code changes ≡ bytes.now → ⊥)) }
{
    list_of(alloc, bytes)
}
