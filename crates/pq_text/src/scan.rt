//! The tokens of a text, found in one pass.
ghost use Rattle.std.specs.Prelude.{◌≡◌, ◌+◌, ◌-◌, ◌<◌, ◌≤◌, ◌==◌, ◌^◌, length, drop, take_while, slice_index, not, IfOk, IfSome, if◌then◌else◌};
ghost use Rattle.std.specs.Char.{is_ascii_digit};
ghost use Rattle.pq_text.specs.Bytes.{next_is, is_word_byte, is_double_mark};
ghost use Rattle.pq_text.specs.Forms.{text_end};
ghost use Rattle.pq_text.specs.Scanning.{first_token, left_out};
ghost use Rattle.pq_text.specs.Tokens.{text_limit, char_len, tokens_from, tokens_of, with_behind, InOrder, HaveForms};

use crate::byte::{double_mark, letter, mark, white, word_byte};
use crate::token::{Kind, Token};
use pq_base::{List, NoMem, PText};
use std::alloc::Global;

fn word_count(bytes: &[u8]) -> usize
    ensures count { result ≡ length (take_while is_word_byte bytes.now) }
    ensures within { result ≤ length bytes.now }
{
    bytes.iter().take_while(|byte| word_byte(**byte)).count()
}

fn digit_count(bytes: &[u8]) -> usize
    ensures count { result ≡ length (take_while is_ascii_digit bytes.now) }
    ensures within { result ≤ length bytes.now }
{
    bytes
        .iter()
        .take_while(|byte| byte.is_ascii_digit())
        .count()
}

/// How many bytes stand before the end of the line.
fn line_count(bytes: &[u8]) -> usize
    ensures count { result ≡ length (take_while (λ c. not (c == 10)) bytes.now) }
    ensures within { result ≤ length bytes.now }
{
    bytes.iter().take_while(|byte| **byte != b'\n').count()
}

/// How many bytes a text has behind its first quote, with the last one.
fn text_count(bytes: &[u8]) -> Option<usize>
    ensures ends { result ≡ text_end bytes.now }
    ensures within { IfSome result (λ n. n ≤ length bytes.now) }
{
    let mut passed = 0;
    'bytes: while passed < bytes.len() {
        if bytes[passed] != b'\'' {
            passed += 1;
        } else if passed + 1 < bytes.len() && bytes[passed + 1] == b'\'' {
            passed += 2;
        } else {
            return Some(passed + 1);
        }
    }
    None
}

fn next_is_dash(bytes: &[u8]) -> bool
    ensures { result ≡ next_is (λ c. c == 45) bytes.now }
{
    match bytes {
        [c, ..] => *c == b'-',
        [] => false,
    }
}

fn next_is_digit(bytes: &[u8]) -> bool
    ensures { result ≡ next_is is_ascii_digit bytes.now }
{
    match bytes {
        [c, ..] => c.is_ascii_digit(),
        [] => false,
    }
}

/// How many bytes at the front of a byte and the rest are white or a comment.
#[tactic(auto, unfolding(crate::specs::Scanning::left_out))]
fn left_count(byte: u8, rest: &[u8]) -> usize
    requires { length rest.now < 2 ^ 32 }
    ensures left { result ≡ left_out byte rest.now }
    ensures within { result ≤ length rest.now + 1 }
{
    if white(byte) {
        return 1;
    }
    if byte == b'-' && next_is_dash(rest) {
        return line_count(rest) + 1;
    }
    0
}

/// How many bytes the character has that begins so.
fn character_count(byte: u8) -> usize
    ensures { result ≡ char_len byte }
{
    if byte < 192 {
        1
    } else if byte < 224 {
        2
    } else if byte < 240 {
        3
    } else {
        4
    }
}

fn mark_count(byte: u8, rest: &[u8]) -> usize
    ensures count { result ≡ if next_is (is_double_mark byte) rest.now then 2 else 1 }
    ensures some { 0 < result }
    ensures within { result ≤ length rest.now + 1 }
{
    match rest {
        [c, ..] => { if double_mark(byte, *c) { 2 } else { 1 } }
        [] => 1,
    }
}

/// The first token of a byte and the rest, and how many bytes it has.
#[tactic(auto, unfolding(crate::specs::Scanning::first_token))]
fn first(byte: u8, rest: &[u8]) -> (Kind, usize)
    requires { length rest.now < 2 ^ 32 }
    ensures first { (result.0, result.1) ≡ first_token byte rest.now }
    ensures some { 0 < result.1 }
    ensures within { result.1 ≤ length rest.now + 1 }
{
    if letter(byte) {
        return (Kind::Word, word_count(rest) + 1);
    }
    if byte.is_ascii_digit() || (byte == b'-' && next_is_digit(rest)) {
        return (Kind::Number, digit_count(rest) + 1);
    }
    if byte == b'\'' {
        return match text_count(rest) {
            None => (Kind::Other, rest.len() + 1),
            Some(n) => (Kind::Text, n + 1),
        };
    }
    if mark(byte) {
        return (Kind::Mark, mark_count(byte, rest));
    }
    (Kind::Other, character_count(byte).min(rest.len() + 1))
}

/// What stands behind the byte at this place.
fn after(text: &[u8], at: usize) -> &[u8]
    requires { at < length text.now }
    ensures { result.now ≡ drop (at + 1) text.now }
{
    &text[at + 1..]
}

/// For how many tokens to make room at first.
fn token_room(text: &[u8]) -> usize
    requires { length text.now ≤ text_limit }
    ensures { result ≤ 64 }
{
    (text.len() / 2 + 1).min(64)
}

/// Where the next token begins from a place on, or the end of the text.
fn token_start(text: &[u8], from: usize) -> usize
    requires limit { length text.now ≤ text_limit }
    requires within { from ≤ length text.now }
    ensures same { tokens_from 0 from (drop from text.now) ≡ tokens_from 0 result (drop result text.now) }
    ensures ahead { from ≤ result }
    ensures within { result ≤ length text.now }
    ensures stays { result < length text.now
        → left_out (slice_index text.now result) (drop (result + 1) text.now) ≡ 0 }
{
    let mut at = from;
    'left: while at < text.len() {
        let left = left_count(text[at], after(text, at));
        if left == 0 {
            return at;
        }
        at += left;
    }
    at
}

/// The first token of a text from a place on.
#[inline(always)]
pub fn next_token(text: &[u8], from: usize) -> Option<Token>
    requires limit { length text.now ≤ text_limit }
    requires within { from ≤ length text.now }
    ensures found { tokens_from 0 from (drop from text.now) ≡ with_behind text.now result }
    ensures ahead { IfSome result (λ t. (from ≤ t.from) × (t.from < t.to) × (t.to ≤ length text.now)) }
{
    let at = token_start(text, from);
    if at == text.len() {
        return None;
    }
    let (kind, len) = first(text[at], after(text, at));
    Some(Token {
        kind,
        from: at as u32,
        to: (at + len) as u32,
    })
}

fn scan(alloc: Global, text: &[u8]) -> Result<List<Token>, NoMem>
    requires { length text.now ≤ text_limit }
    ensures found { IfOk result (λ found. found ≡ tokens_of text.now) }
    ensures order { IfOk result (InOrder 0 (length text.now)) }
    ensures slices { IfOk result (HaveForms text.now) }
{
    let mut tokens = List::with_room(alloc, token_room(text))?;
    let mut at = 0;
    'tokens: while let Some(token) = next_token(text, at) {
        tokens.push(alloc, token)?;
        at = token.to as usize;
    }
    Ok(tokens)
}

/// The tokens of a text of at most 1,048,576 bytes.
///
/// At each place the longest form is taken, white bytes and comments are left out, and another
/// single character is a token of its own. The spans are in order, and each token is the slice of
/// its span.
pub fn tokens(alloc: Global, text: &PText) -> Result<List<Token>, NoMem>
    requires { length text.now ≤ text_limit }
    ensures found { IfOk result (λ found. found ≡ tokens_of text.now) }
    ensures order { IfOk result (InOrder 0 (length text.now)) }
    ensures slices { IfOk result (HaveForms text.now) }
{
    scan(alloc, text.bytes())
}
