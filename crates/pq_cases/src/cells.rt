//! What a case is done with: the words of its line, and the texts behind them.
//!
//! `INT`, `BOOL`, `TEXT9`, and these with `?` behind them are types, `asc` and `desc` directions, `7`, `-7`, `true`,
//! `null` and `'ann` values, `=7` the default of an added column, `=` a column that was not added, `#7` a number and
//! `x0aff` bytes. A text begins with `"` behind a space and ends before the
//! next such, or with the line. In values and texts `%0a` is the byte of these two digits; in texts `{9 ab}` is `ab` nine
//! times.
ghost use Rattle.std.specs.Prelude.{IfOk, IfSome, OnOk, All};
ghost use Rattle.pq_row_code.specs.RowCode.{IsShort};

use pq_base::{Bytes, ColType, Dir, List, NoMem, PText, Row, Value};
use std::alloc::Global;

/// The words of a case by their kinds, and its texts.
#[derive(Drop)]
pub struct Cells<'a> {
    pub command: &'a str,
    /// The second word.
    pub what: &'a str,
    pub types: Vec<ColType>,
    pub dirs: Vec<Dir>,
    pub row: Row,
    pub fillers: List<Option<Value>>,
    pub numbers: Vec<u32>,
    pub code: Bytes,
    pub texts: List<Bytes>,
}

fn digit_of(byte: u8) -> u8 {
    match byte {
        b'0'..=b'9' => byte.wrapping_sub(b'0'),
        b'a'..=b'f' => byte.wrapping_sub(b'a' - 10),
        _ => 0,
    }
}

fn byte_of(high: u8, low: u8) -> u8 {
    digit_of(high).wrapping_mul(16).wrapping_add(digit_of(low))
}

// The bytes of a text in which `%0a` is a byte.
fn push_bytes(alloc: Global, text: &str, bytes: &mut Bytes) -> Result<(), NoMem> {
    let mut digits = 0;
    let mut high = 0;
    for byte in text.as_bytes() {
        match (digits, *byte) {
            (0, b'%') => digits = 2,
            (0, other) => bytes.push(alloc, other)?,
            (2, digit) => {
                high = digit;
                digits = 1;
            }
            (_, low) => {
                bytes.push(alloc, byte_of(high, low))?;
                digits = 0;
            }
        }
    }
    Ok(())
}

fn text_bytes(alloc: Global, text: &str) -> Result<Bytes, NoMem> {
    let mut bytes = Bytes::new(alloc);
    push_bytes(alloc, text, &mut bytes)?;
    Ok(bytes)
}

fn push_times(alloc: Global, times: u32, part: &[u8], bytes: &mut Bytes) -> Result<(), NoMem> {
    for _ in 0..times {
        bytes.extend(alloc, part)?;
    }
    Ok(())
}

// The bytes of `9 ab`.
fn push_repeated(alloc: Global, text: &str, bytes: &mut Bytes) -> Result<(), NoMem> {
    if let Some((times, part)) = text.split_once(" ") {
        let part = text_bytes(alloc, part)?;
        push_times(
            alloc,
            times.parse::<u32>().unwrap_or(0),
            part.items(),
            bytes,
        )?;
    }
    Ok(())
}

// The bytes of `9 ab}c`, or of a text without a brace.
fn push_part(alloc: Global, part: &str, bytes: &mut Bytes) -> Result<(), NoMem> {
    match part.split_once("}") {
        Some((repeated, rest)) => {
            push_repeated(alloc, repeated, bytes)?;
            push_bytes(alloc, rest, bytes)
        }
        None => push_bytes(alloc, part, bytes),
    }
}

fn text_of(alloc: Global, text: &str) -> Result<Bytes, NoMem> {
    let mut bytes = Bytes::new(alloc);
    for part in text.split("{") {
        push_part(alloc, part, &mut bytes)?;
    }
    Ok(bytes)
}

fn texts_of(alloc: Global, line: &str) -> Result<List<Bytes>, NoMem> {
    let mut texts = List::new(alloc);
    for text in line.split(" \"") {
        texts.push(alloc, text_of(alloc, text)?)?;
    }
    Ok(texts)
}

// The bytes of two digits each.
fn push_code(alloc: Global, text: &str, code: &mut Bytes) -> Result<(), NoMem> {
    let mut high = None;
    for byte in text.as_bytes() {
        match high {
            None => high = Some(*byte),
            Some(first) => {
                code.push(alloc, byte_of(first, *byte))?;
                high = None;
            }
        }
    }
    Ok(())
}

fn text_type(word: &str) -> Option<ColType> {
    let size = word.strip_prefix("TEXT")?;
    match size.strip_suffix("?") {
        Some(size) => Some(ColType::NullText(size.parse::<u16>().ok()?)),
        None => Some(ColType::Text(size.parse::<u16>().ok()?)),
    }
}

fn type_of(word: &str) -> Option<ColType> {
    match word {
        "INT" => Some(ColType::Int),
        "INT?" => Some(ColType::NullInt),
        "BOOL" => Some(ColType::Bool),
        "BOOL?" => Some(ColType::NullBool),
        _ => text_type(word),
    }
}

fn push_type(word: &str, types: &mut Vec<ColType>) -> Result<(), NoMem> {
    if let Some(ty) = type_of(word) {
        types.push(ty)?;
    }
    Ok(())
}

fn dir_of(word: &str) -> Option<Dir> {
    match word {
        "asc" => Some(Dir::Asc),
        "desc" => Some(Dir::Desc),
        _ => None,
    }
}

fn push_dir(word: &str, dirs: &mut Vec<Dir>) -> Result<(), NoMem> {
    if let Some(dir) = dir_of(word) {
        dirs.push(dir)?;
    }
    Ok(())
}

fn number_of(word: &str) -> Option<u32> {
    word.strip_prefix("#")?.parse::<u32>().ok()
}

fn push_number(word: &str, numbers: &mut Vec<u32>) -> Result<(), NoMem> {
    if let Some(number) = number_of(word) {
        numbers.push(number)?;
    }
    Ok(())
}

fn int_value(word: &str) -> Option<Value>
    ensures { IfSome result IsShort }
{
    match word.parse::<i64>() {
        Ok(number) => Some(Value::Int(number)),
        Err(_) => None,
    }
}

fn text_value(alloc: Global, text: &str) -> Result<Option<Value>, NoMem>
    ensures { IfOk result (λ value. IfSome value IsShort) }
{
    let bytes = text_bytes(alloc, text)?;
    if bytes.items().len() > 1000 {
        return Ok(None);
    }
    match PText::from_bytes(alloc, bytes.items())? {
        Some(text) => Ok(Some(Value::Text(text))),
        None => Ok(None),
    }
}

fn value_of(alloc: Global, word: &str) -> Result<Option<Value>, NoMem>
    ensures { IfOk result (λ value. IfSome value IsShort) }
{
    match word {
        "null" => Ok(Some(Value::Null)),
        "true" => Ok(Some(Value::Bool(true))),
        "false" => Ok(Some(Value::Bool(false))),
        _ => match word.strip_prefix("'") {
            Some(text) => text_value(alloc, text),
            None => Ok(int_value(word)),
        },
    }
}

fn push_value(alloc: Global, word: &str, row: &mut Row) -> Result<(), NoMem>
    requires { All IsShort row.old }
    ensures { OnOk result (All IsShort row.new) }
{
    match value_of(alloc, word)? {
        Some(value) => row.push(alloc, value),
        None => Ok(()),
    }
}

fn push_filler(alloc: Global, word: &str, fillers: &mut List<Option<Value>>) -> Result<(), NoMem> {
    let filler = value_of(alloc, word)?;
    fillers.push(alloc, filler)
}

// Puts a word that is a default, bytes or a value, by how it begins, with those of its kind.
fn push_marked(alloc: Global, word: &str, cells: &mut Cells) -> Result<(), NoMem>
    requires { All IsShort cells.old.row }
    ensures { OnOk result (All IsShort cells.new.row) }
{
    if let Some(word) = word.strip_prefix("=") {
        return push_filler(alloc, word, &mut cells.fillers);
    }
    match word.strip_prefix("x") {
        Some(digits) => push_code(alloc, digits, &mut cells.code),
        None => push_value(alloc, word, &mut cells.row),
    }
}

// Puts a word with those of its kind.
fn push_word(alloc: Global, word: &str, cells: &mut Cells) -> Result<(), NoMem>
    requires { All IsShort cells.old.row }
    ensures { OnOk result (All IsShort cells.new.row) }
{
    push_type(word, &mut cells.types)?;
    push_dir(word, &mut cells.dirs)?;
    push_number(word, &mut cells.numbers)?;
    push_marked(alloc, word, cells)
}

fn push_words(alloc: Global, words: &[&str], cells: &mut Cells) -> Result<(), NoMem>
    requires { All IsShort cells.old.row }
    ensures { OnOk result (All IsShort cells.new.row) }
{
    for word in words {
        push_word(alloc, word, cells)?;
    }
    Ok(())
}

fn word_at<'a>(words: &[&'a str], place: usize) -> &'a str {
    match words.get(place) {
        Some(word) => word,
        None => "",
    }
}

// Cells of a line with this command and this second word, before its words are put.
fn new_cells<'a>(alloc: Global, command: &'a str, what: &'a str, texts: List<Bytes>) -> Cells<'a>
    ensures { All IsShort result.row }
{
    Cells {
        command,
        what,
        types: Vec::new(alloc),
        dirs: Vec::new(alloc),
        row: Row::new(alloc),
        fillers: List::new(alloc),
        numbers: Vec::new(alloc),
        code: Bytes::new(alloc),
        texts,
    }
}

// The cells that the words say, with these texts.
fn cells_with<'a>(alloc: Global, words: &[&'a str], texts: List<Bytes>) -> Result<Cells<'a>, NoMem>
    ensures { IfOk result (λ cells. All IsShort cells.row) }
{
    let mut cells = new_cells(alloc, word_at(words, 0), word_at(words, 1), texts);
    push_words(alloc, words, &mut cells)?;
    Ok(cells)
}

/// The number that the word of this place is.
pub fn number_at(words: &[&str], place: usize) -> Option<u32> {
    words.get(place)?.parse::<u32>().ok()
}

/// The words of a text.
pub fn words_of<'a>(alloc: Global, text: &'a str) -> Result<Vec<&'a str>, NoMem> {
    Ok(text.split_whitespace().collect(alloc)?)
}

/// The cells of a line.
pub fn cells_of<'a>(alloc: Global, line: &'a str) -> Result<Cells<'a>, NoMem>
    ensures { IfOk result (λ cells. All IsShort cells.row) }
{
    match line.split_once(" \"") {
        Some((line, texts)) => {
            let words = words_of(alloc, line)?;
            cells_with(alloc, &words, texts_of(alloc, texts)?)
        }
        None => {
            let words = words_of(alloc, line)?;
            cells_with(alloc, &words, List::new(alloc))
        }
    }
}

impl<'a> Cells<'a> {
    /// The number of this place, 0 where there is none.
    pub fn number(&self, place: usize) -> u32 {
        match self.numbers.get(place) {
            Some(number) => *number,
            None => 0,
        }
    }

    /// The text of this place, the empty one where there is none.
    pub fn text(&self, place: usize) -> &[u8] {
        match self.texts.items().get(place) {
            Some(text) => text.items(),
            None => &[],
        }
    }
}
