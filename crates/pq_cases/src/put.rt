//! How answers are written: a row's values as the cells are, each behind a space.
use pq_base::{Bound, Bytes, Dir, List, NoMem, PText, Refusal, Row, Stopped, Used, Value};
use pq_print::{End, Report, print_report};
use std::alloc::Global;

fn digit(number: u8) -> u8 {
    match number % 16 {
        low @ 0..=9 => low.wrapping_add(b'0'),
        low => low.wrapping_add(b'a' - 10),
    }
}

fn put_byte(alloc: Global, byte: u8, out: &mut Bytes) -> Result<(), NoMem> {
    out.extend(alloc, &[digit(byte / 16), digit(byte % 16)])
}

/// The bytes, by two digits each.
pub fn put_code(alloc: Global, bytes: &[u8], out: &mut Bytes) -> Result<(), NoMem> {
    out.extend(alloc, b" x")?;
    for byte in bytes {
        put_byte(alloc, *byte, out)?;
    }
    Ok(())
}

fn put_text_byte(alloc: Global, byte: u8, out: &mut Bytes) -> Result<(), NoMem> {
    if byte != b'%' && byte.is_ascii_graphic() {
        return out.push(alloc, byte);
    }
    out.push(alloc, b'%')?;
    put_byte(alloc, byte, out)
}

/// The bytes as they are, or by two digits behind `%`.
pub fn put_text(alloc: Global, bytes: &[u8], out: &mut Bytes) -> Result<(), NoMem> {
    for byte in bytes {
        put_text_byte(alloc, *byte, out)?;
    }
    Ok(())
}

/// A word behind a space.
pub fn put_word(alloc: Global, word: &str, out: &mut Bytes) -> Result<(), NoMem> {
    put_plain(alloc, word.as_bytes(), out)
}

/// The bytes as they are, behind a space.
pub fn put_plain(alloc: Global, bytes: &[u8], out: &mut Bytes) -> Result<(), NoMem> {
    out.push(alloc, b' ')?;
    out.extend(alloc, bytes)
}

/// A number behind a space.
pub fn put_number(alloc: Global, number: i64, out: &mut Bytes) -> Result<(), NoMem> {
    let word = format!(in alloc; "{number}")?;
    put_word(alloc, word.as_str(), out)
}

fn put_value(alloc: Global, value: &Value, out: &mut Bytes) -> Result<(), NoMem> {
    match value {
        Value::Null => put_word(alloc, "null", out),
        Value::Int(number) => put_number(alloc, *number, out),
        Value::Bool(true) => put_word(alloc, "true", out),
        Value::Bool(false) => put_word(alloc, "false", out),
        Value::Text(text) => {
            put_word(alloc, "'", out)?;
            put_text(alloc, text.bytes(), out)
        }
    }
}

/// The values of a row, behind `of`.
pub fn put_row(alloc: Global, row: &Row, out: &mut Bytes) -> Result<(), NoMem> {
    put_word(alloc, "of", out)?;
    for value in row.items() {
        put_value(alloc, value, out)?;
    }
    Ok(())
}

/// The row that was read, or `none`.
pub fn put_read(alloc: Global, read: &Option<Row>, out: &mut Bytes) -> Result<(), NoMem> {
    match read {
        Some(row) => put_row(alloc, row, out),
        None => put_word(alloc, "none", out),
    }
}

/// A direction.
pub fn put_dir(alloc: Global, dir: Dir, out: &mut Bytes) -> Result<(), NoMem> {
    match dir {
        Dir::Asc => put_word(alloc, "asc", out),
        Dir::Desc => put_word(alloc, "desc", out),
    }
}

/// The operations and the entries of a bound.
pub fn put_bound(alloc: Global, bound: Bound, out: &mut Bytes) -> Result<(), NoMem> {
    let words = format!(in alloc; "{} {}", bound.ops, bound.entries)?;
    put_word(alloc, words.as_str(), out)
}

/// Printed lines without the end of the last, behind a space; `no_end` where they don't end.
pub fn put_printed(alloc: Global, printed: &[u8], out: &mut Bytes) -> Result<(), NoMem> {
    match printed {
        [text @ .., b'\n'] => put_plain(alloc, text, out),
        _ => put_word(alloc, "no_end", out),
    }
}

/// The report as it is printed.
pub fn put_report(alloc: Global, report: &Report, out: &mut Bytes) -> Result<(), NoMem> {
    let mut printed = Bytes::new(alloc);
    print_report(alloc, report, &mut printed)?;
    put_printed(alloc, printed.items(), out)
}

fn refused(alloc: Global, refusal: Refusal) -> Report {
    Report {
        number: 1,
        lines: List::new(alloc),
        end: End::Refused(refusal),
        bound: Bound { ops: 0, entries: 0 },
        used: Used { ops: 0, entries: 0 },
    }
}

fn put_refusal(alloc: Global, refusal: Refusal, out: &mut Bytes) -> Result<(), NoMem> {
    let report = refused(alloc, refusal);
    put_report(alloc, &report, out)
}

/// A word for any refusal, or that there is no memory.
pub fn put_refused(
    alloc: Global,
    stopped: Stopped,
    word: &str,
    out: &mut Bytes,
) -> Result<(), NoMem> {
    match &stopped {
        Stopped::Refused(_) => put_word(alloc, word, out),
        Stopped::NoMem => Err(NoMem),
    }
}

/// The report of a refusal of statement 1, or that there is no memory.
pub fn put_stopped(alloc: Global, stopped: Stopped, out: &mut Bytes) -> Result<(), NoMem> {
    match stopped {
        Stopped::Refused(refusal) => put_refusal(alloc, refusal, out),
        Stopped::NoMem => Err(NoMem),
    }
}

/// The text of these bytes, the empty one where they aren't UTF-8.
pub fn named(alloc: Global, text: &[u8]) -> Result<PText, NoMem> {
    match PText::from_bytes(alloc, text)? {
        Some(text) => Ok(text),
        None => Ok(PText::from_string(String::new(alloc))),
    }
}
