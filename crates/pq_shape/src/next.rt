//! The next token, seen as what it stands for.
ghost use Rattle.std.specs.Prelude.{◌≡◌, ◌<◌, ◌≤◌, ℕ, Some, None, IfOk, OnOk, MatchOption, length, map, ◌++◌, slice_range, slice_index, slice_get, bytes_eq, nat_lt, ◌-◌, false};
ghost use Rattle.std.specs.List.{list_all};
ghost use Rattle.std.specs.Str.{is_utf8};
ghost use Rattle.pq_base.specs.Words.{uppercase_byte, keywords};
ghost use Rattle.pq_shape.specs.Cursors.{shape_seen, IsNamed};
ghost use Rattle.pq_shape.specs.Front.{is_word_shape, is_mark_shape, is_name_shape, is_soft_shape, soft_name, name_of, number_in, text_in, constant_in};
ghost use Rattle.pq_shape.specs.Shapes.{bytes_of, word_place, lowercase_bytes, utf8_text, word_shape, kept_byte, is_kept_quote, undoubled_quotes, mark_code, between_quotes, shape_of};
ghost use Rattle.pq_shape.specs.Letters.{letter_places};

use crate::keyword::{FALSE, TRUE};
use crate::number::number;
use crate::soft::Soft;
use pq_base::{Bytes, NoMem, PText, Value, keyword_table};
use pq_text::{Kind, Token};
use std::alloc::Global;
use std::marker::Model;

/// What bytes are, found without memory. Numbers, names and texts are made where they are read.
#[derive(Clone, Copy)]
enum Sort {
    /// A word of the keyword table, by its place there.
    Keyword(u8),
    /// A word of at most 32 bytes.
    Name,
    /// Digits, with a `-` before them or not, of whatever size.
    Number,
    /// What stands between quotes, UTF-8 or not.
    Text,
    /// A mark, by its code: its byte, or of two bytes 256 times the first and the second.
    Mark(u16),
    /// What no statement has.
    Other,
}

/// A token, seen as what it stands for.
#[derive(Drop)]
pub struct Next<'a> {
    sort: Sort,
    bytes: &'a [u8],
}

impl<'a> Model for Next<'a> {
    ghost use Rattle.pq_shape.specs.Cursors.{shape_seen, IsNamed};
    ghost use Rattle.pq_shape.specs.Shape.{Shape};

    ghost Value = { Shape };

    ghost view = { λ n. shape_seen n.sort n.bytes.now };

    ghost invariant = { λ n. IsNamed n.sort n.bytes.now };
}

/// The bytes of a token.
fn bytes_at(text: &[u8], token: Token) -> &[u8]
    ensures { result.now ≡ bytes_of text.now token }
{
    let to = (token.to as usize).min(text.len());
    let from = (token.from as usize).min(to);
    &text[from..to]
}

/// The first byte with its ASCII letter raised, 0 where there is none.
fn capital(bytes: &[u8]) -> u8
    ensures { result ≡ uppercase_byte (slice_index bytes.now 0) }
{
    match bytes {
        [first, ..] => first.to_ascii_uppercase(),
        [] => 0,
    }
}

/// Where the keywords with this capital stand in the keyword table: the first place, and the one behind the last.
#[tactic(auto, unfolding(crate::specs::Letters::letter_places))]
fn letter_places(capital: u8) -> (usize, usize)
    ensures places { (result.0, result.1) ≡ letter_places capital }
    ensures within { result.1 ≤ 35 }
{
    match capital {
        b'A' => (0, 4),
        b'B' => (4, 6),
        b'C' => (6, 8),
        b'D' => (8, 10),
        b'E' => (10, 11),
        b'F' => (11, 14),
        b'I' => (14, 17),
        b'J' => (17, 18),
        b'K' => (18, 19),
        b'L' => (19, 20),
        b'O' => (20, 21),
        b'P' => (21, 24),
        b'R' => (24, 26),
        b'S' => (26, 29),
        b'T' => (29, 32),
        b'U' => (32, 33),
        b'V' => (33, 34),
        b'W' => (34, 35),
        _ => (0, 0),
    }
}

/// Whether these bytes are the word, in any letter case.
fn is_word(word: &[u8], bytes: &[u8]) -> bool
    ensures { result ≡ bytes_eq word.now (map uppercase_byte bytes.now) }
{
    match word {
        [] => bytes.is_empty(),
        [letter, word @ ..] => match bytes {
            [] => false,
            [byte, bytes @ ..] => *letter == byte.to_ascii_uppercase() && is_word(word, bytes),
        },
    }
}

/// The same, with the lengths first.
#[tactic(auto, using(crate::proofs::Places::other_length))]
fn is_keyword(word: &[u8], bytes: &[u8]) -> bool
    ensures { result ≡ bytes_eq word.now (map uppercase_byte bytes.now) }
{
    if word.len() != bytes.len() {
        return false;
    }
    is_word(word, bytes)
}

/// The place of the keyword among some places that hold it, if it stands anywhere.
fn keyword_among(bytes: &[u8], from: usize, to: usize) -> Option<u8>
    requires within { to ≤ 35 }
    requires among { (place : ℕ) → slice_get keywords place ≡ Some (map uppercase_byte bytes.now)
        → (from ≤ place) × (place < to) }
    ensures { result ≡ word_place keywords (map uppercase_byte bytes.now) }
{
    let table = keyword_table();
    let mut place = from;
    'places: while place < to {
        if is_keyword(table.word(place).as_bytes(), bytes) {
            return Some(place as u8);
        }
        place += 1;
    }
    None
}

/// The place of a word in the keyword table, in any letter case.
fn keyword(bytes: &[u8]) -> Option<u8>
    ensures { result ≡ word_place keywords (map uppercase_byte bytes.now) }
{
    let (from, to) = letter_places(capital(bytes));
    keyword_among(bytes, from, to)
}

/// The bytes with the ASCII letters lowered.
fn lower(alloc: Global, bytes: &[u8]) -> Result<Bytes, NoMem>
    ensures { IfOk result (λ low. low ≡ lowercase_bytes bytes.now) }
{
    let mut low = Vec::from_slice(alloc, bytes)?;
    low.make_ascii_lowercase();
    Ok(Bytes::from_vec(low))
}

/// The text of these bytes, where they are UTF-8.
fn text_of(alloc: Global, bytes: &[u8]) -> Result<Option<PText>, NoMem>
    ensures { IfOk result (λ found. found ≡ utf8_text bytes.now) }
{
    let found = PText::from_bytes(alloc, bytes)?;
    Ok(found)
}

/// The same of bytes that were gathered for it, which takes no memory.
fn gathered(bytes: Bytes) -> Option<PText>
    ensures { result ≡ utf8_text bytes }
{
    PText::from_vec(bytes.into_vec())
}

/// Whether all bytes are of ASCII.
fn is_plain(bytes: &[u8]) -> bool
    ensures { result ≡ list_all (λ b. nat_lt b 128) bytes.now }
{
    bytes.iter().all(|byte| *byte < 128)
}

/// Whether the bytes in small letters are UTF-8.
#[tactic(auto, using(crate::proofs::Made::lowercase_utf8))]
fn is_lowered_utf8(bytes: &[u8]) -> bool
    requires { length bytes.now ≤ 32 }
    ensures { result ≡ is_utf8 (lowercase_bytes bytes.now) }
{
    if is_plain(bytes) {
        return true;
    }
    let mut room = [0; 32];
    let low = &mut room[..bytes.len()];
    low.copy_from_slice(bytes);
    low.make_ascii_lowercase();
    std::str::from_utf8(low).is_ok()
}

/// What a word is.
#[inline(always)]
fn word(bytes: &[u8]) -> Sort
    ensures shape { shape_seen result bytes.now ≡ word_shape bytes.now }
    ensures named { IsNamed result bytes.now }
{
    match keyword(bytes) {
        Some(place) => Sort::Keyword(place),
        None => {
            if bytes.len() <= 32 && is_lowered_utf8(bytes) {
                Sort::Name
            } else {
                Sort::Other
            }
        }
    }
}

/// What stands between the quotes.
fn inner(bytes: &[u8]) -> &[u8]
    ensures { result.now ≡ slice_range bytes.now 1 (length bytes.now - 1) }
{
    match bytes {
        [_, inner @ .., _] => inner,
        _ => &[],
    }
}

/// Puts a byte, but a quote behind a quote that stays, and says whether it is a quote that stays.
fn put(alloc: Global, plain: &mut Bytes, quoted: bool, byte: u8) -> Result<bool, NoMem>
    ensures bytes { OnOk result (plain.new ≡ plain.old ++ kept_byte quoted byte) }
    ensures quote { IfOk result (λ is. is ≡ is_kept_quote quoted byte) }
{
    let quote = byte == b'\'';
    if quoted && quote {
        return Ok(false);
    }
    plain.push(alloc, byte)?;
    Ok(quote && !quoted)
}

/// The bytes with each doubled quote once.
fn undouble(alloc: Global, bytes: &[u8]) -> Result<Bytes, NoMem>
    ensures { IfOk result (λ plain. plain ≡ undoubled_quotes false bytes.now) }
{
    let mut plain = Bytes::new(alloc);
    let mut quoted = false;
    for byte in bytes {
        quoted = put(alloc, &mut plain, quoted, *byte)?;
    }
    Ok(plain)
}

/// The text of what stands between the quotes, where it is UTF-8.
#[tactic(auto, using(crate::proofs::Made::undoubled_plain))]
fn plain_text(alloc: Global, inner: &[u8]) -> Result<Option<PText>, NoMem>
    ensures { IfOk result (λ found. found ≡ utf8_text (undoubled_quotes false inner.now)) }
{
    if !inner.contains(&b'\'') {
        return text_of(alloc, inner);
    }
    let plain = undouble(alloc, inner)?;
    Ok(gathered(plain))
}

fn mark(bytes: &[u8]) -> u16
    ensures { result ≡ mark_code bytes.now }
{
    match bytes {
        [] => 0,
        [byte] => *byte as u16,
        [first, second, ..] => *first as u16 * 256 + *second as u16,
    }
}

impl<'a> Next<'a> {
    /// This token of a text.
    #[inline(always)]
    #[tactic(auto, unfolding(crate::specs::Shapes::shape_of))]
    pub fn new(text: &'a [u8], token: Token) -> Next<'a>
        ensures { result ≡ shape_of text.now token }
    {
        let bytes = bytes_at(text, token);
        let sort = match token.kind {
            Kind::Word => word(bytes),
            Kind::Number => Sort::Number,
            Kind::Text => Sort::Text,
            Kind::Mark => Sort::Mark(mark(bytes)),
            Kind::Other => Sort::Other,
        };
        Next { sort, bytes }
    }

    /// Whether it is this keyword.
    #[tactic(auto, unfolding(crate::specs::Front::is_word_shape))]
    pub fn is_word(&self, place: u8) -> bool
        ensures { result ≡ is_word_shape place self.now }
    {
        matches!(self.sort, Sort::Keyword(other) if other == place)
    }

    /// Whether it is this mark.
    #[tactic(auto, unfolding(crate::specs::Front::is_mark_shape))]
    pub fn is_mark(&self, mark: u16) -> bool
        ensures { result ≡ is_mark_shape mark self.now }
    {
        matches!(self.sort, Sort::Mark(other) if other == mark)
    }

    /// Whether it is a name.
    #[tactic(auto, unfolding(crate::specs::Front::is_name_shape))]
    pub fn is_name(&self) -> bool
        ensures { result ≡ is_name_shape self.now }
    {
        matches!(self.sort, Sort::Name)
    }

    /// Whether it is this soft word.
    #[tactic(auto, unfolding(crate::specs::Front::is_soft_shape))]
    pub fn is_soft(&self, soft: Soft) -> bool
        ensures { result ≡ is_soft_shape soft self.now }
    {
        match self.sort {
            Sort::Name => self.bytes.eq_ignore_ascii_case(soft.name()),
            _ => false,
        }
    }

    /// The name that it is.
    #[tactic(auto, unfolding(crate::specs::Front::name_of))]
    pub fn name(&self, alloc: Global) -> Result<Option<PText>, NoMem>
        ensures { IfOk result (λ name. name ≡ name_of self.now) }
    {
        match self.sort {
            Sort::Name => {
                let low = lower(alloc, self.bytes)?;
                Ok(gathered(low))
            }
            _ => Ok(None),
        }
    }

    /// The number that it is.
    #[tactic(auto, unfolding(crate::specs::Front::number_in))]
    pub fn number(&self) -> Option<i64>
        ensures { result ≡ number_in self.now }
    {
        match self.sort {
            Sort::Number => number(self.bytes),
            _ => None,
        }
    }

    /// The text that it is.
    #[tactic(auto, unfolding(crate::specs::Front::text_in))]
    pub fn text(&self, alloc: Global) -> Result<Option<PText>, NoMem>
        ensures { IfOk result (λ text. text ≡ text_in self.now) }
    {
        match self.sort {
            Sort::Text => plain_text(alloc, inner(self.bytes)),
            _ => Ok(None),
        }
    }

    /// The constant that it is.
    #[tactic(auto, unfolding(crate::specs::Front::constant_in, crate::specs::Front::truth_of))]
    pub fn constant(&self, alloc: Global) -> Result<Option<Value>, NoMem>
        ensures { IfOk result (λ value. value ≡ constant_in self.now) }
    {
        Ok(match self.sort {
            Sort::Number => number(self.bytes).map(Value::Int),
            Sort::Text => plain_text(alloc, inner(self.bytes))?.map(Value::Text),
            Sort::Keyword(TRUE) => Some(Value::Bool(true)),
            Sort::Keyword(FALSE) => Some(Value::Bool(false)),
            _ => None,
        })
    }
}
