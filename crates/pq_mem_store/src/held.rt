//! A key and its value in one piece of memory.
ghost use Rattle.std.specs.Prelude.{◌≡◌, ◌++◌, ◌<◌, ◌≤◌, ◌^◌, length, IfOk, OnOk};
ghost use Rattle.pq_mem_store.specs.Held.{len_bytes, key_len, behind_len, held_pair};

use pq_base::NoMem;
use std::alloc::Global;
use std::marker::Model;

/// A pair as the store in memory holds it: the length of the key, the key, and the value.
#[derive(Drop)]
pub(crate) struct HeldPair {
    bytes: Vec<u8>,
}

impl Model for HeldPair {
    ghost use Rattle.std.specs.Prelude.{◌≤◌, ℕ, List, length};
    ghost use Rattle.pq_mem_store.specs.Held.{held_pair, held_code, key_len, behind_len};

    ghost Value = { List ℕ × List ℕ };

    ghost coded = { held_code };

    ghost view = { λ a. held_pair a.bytes.items };

    ghost invariant = { λ a. key_len a.bytes.items ≤ length (behind_len a.bytes.items) };
}

impl HeldPair {
    /// The pair, in just the memory that it needs.
    pub(crate) fn new(alloc: Global, key: &[u8], value: &[u8]) -> Result<HeldPair, NoMem>
        ensures { IfOk result (λ pair. pair ≡ (key.now, value.now)) }
    {
        let len = (key.len() / 255 + 1)
            .saturating_add(key.len())
            .saturating_add(value.len());
        let mut bytes = Vec::with_capacity(alloc, len)?;
        put_len(&mut bytes, key.len())?;
        bytes.extend_from_slice(key)?;
        bytes.extend_from_slice(value)?;
        Ok(HeldPair { bytes })
    }

    /// The key.
    pub(crate) fn key(&self) -> &[u8]
        ensures { result.now ≡ self.now.0 }
    {
        key_of(self.bytes.as_slice())
    }

    /// The value.
    pub(crate) fn value(&self) -> &[u8]
        ensures { result.now ≡ self.now.1 }
    {
        value_of(self.bytes.as_slice())
    }
}

// Puts a length behind what is there: a byte of 255 for each 255 in it, and the rest.
fn put_len(bytes: &mut Vec<u8>, len: usize) -> Result<(), NoMem>
    ensures { OnOk result (bytes.new.items ≡ bytes.old.items ++ len_bytes len) }
{
    for _ in 0..len / 255 {
        bytes.push(255)?;
    }
    bytes.push((len % 255) as u8)?;
    Ok(())
}

// The key in a pair's bytes: nearly always behind one byte of length.
fn key_of(bytes: &[u8]) -> &[u8]
    requires { key_len bytes.now ≤ length (behind_len bytes.now) }
    ensures { result.now ≡ (held_pair bytes.now).0 }
{
    match bytes {
        [len @ 0..=254, rest @ ..] => &rest[..*len as usize],
        _ => &behind_len(bytes)[..key_len(bytes)],
    }
}

// The value.
fn value_of(bytes: &[u8]) -> &[u8]
    requires { key_len bytes.now ≤ length (behind_len bytes.now) }
    ensures { result.now ≡ (held_pair bytes.now).1 }
{
    match bytes {
        [len @ 0..=254, rest @ ..] => &rest[*len as usize..],
        _ => &behind_len(bytes)[key_len(bytes)..],
    }
}

// The length that stands first.
fn key_len(bytes: &[u8]) -> usize
    requires { key_len bytes.now < 2 ^ 63 }
    ensures { result ≡ key_len bytes.now }
{
    let [byte, rest @ ..] = bytes else {
        return 0;
    };
    if *byte == 255 {
        255 + key_len(rest)
    } else {
        *byte as usize
    }
}

// What stands behind it.
fn behind_len(bytes: &[u8]) -> &[u8]
    ensures { result.now ≡ behind_len bytes.now }
{
    let [byte, rest @ ..] = bytes else {
        return bytes;
    };
    if *byte == 255 { behind_len(rest) } else { rest }
}
