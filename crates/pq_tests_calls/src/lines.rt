//! Pairs as texts: `b=2` is a pair of a key and a value, and `%0a` in it is the byte of these two digits.
use pq_base::{Bytes, List, NoMem};
use pq_store::Pair;
use std::alloc::Global;

fn digit_of(byte: u8) -> u8 {
    match byte {
        b'0'..=b'9' => byte.wrapping_sub(b'0'),
        b'a'..=b'f' => byte.wrapping_sub(b'a' - 10),
        _ => 0,
    }
}

fn byte_of(high: u8, low: u8) -> u8 {
    digit_of(high).wrapping_mul(16).wrapping_add(digit_of(low))
}

fn push_bytes(alloc: Global, text: &str, bytes: &mut Bytes) -> Result<(), NoMem> {
    let mut digits = 0;
    let mut high = 0;
    for byte in text.as_bytes() {
        match (digits, *byte) {
            (0, b'%') => digits = 2,
            (0, other) => bytes.push(alloc, other)?,
            (2, digit) => {
                high = digit;
                digits = 1;
            }
            (_, low) => {
                bytes.push(alloc, byte_of(high, low))?;
                digits = 0;
            }
        }
    }
    Ok(())
}

/// The bytes of a text in which `%0a` is a byte.
fn bytes_in(alloc: Global, text: &str) -> Result<Bytes, NoMem> {
    let mut bytes = Bytes::new(alloc);
    push_bytes(alloc, text, &mut bytes)?;
    Ok(bytes)
}

/// What stands before a sign and behind it.
pub(crate) fn cut_at<'a>(text: &'a str, sign: &str) -> (&'a str, &'a str) {
    match text.split_once(sign) {
        Some(parts) => parts,
        None => (text, ""),
    }
}

/// The pair of a word.
pub(crate) fn pair_in(alloc: Global, word: &str) -> Result<Pair, NoMem> {
    let (key, value) = cut_at(word, "=");
    let key = bytes_in(alloc, key)?;
    let value = bytes_in(alloc, value)?;
    Ok(Pair { key, value })
}

/// The pairs of a text.
pub(crate) fn pairs_in(alloc: Global, text: &str) -> Result<List<Pair>, NoMem> {
    let mut pairs = List::new(alloc);
    for word in text.split_whitespace() {
        pairs.push(alloc, pair_in(alloc, word)?)?;
    }
    Ok(pairs)
}
