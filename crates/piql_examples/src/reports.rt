//! Reports in a text that a run has written.
use pq_base::NoMem;
use pq_shell::Status;
use std::alloc::Global;

// Whether a line tells of a refused statement: its number, and then the word.
fn is_refusal(line: &[u8]) -> bool {
    match line.iter().position(|byte| !byte.is_ascii_digit()) {
        Some(digits) => digits > 0 && line[digits..].starts_with(b" refused "),
        None => false,
    }
}

/// How a run ends that writes this text.
pub fn status_of(text: &[u8]) -> Status {
    if text.split(|byte| *byte == b'\n').any(is_refusal) {
        Status::SomeRefused
    } else {
        Status::Good
    }
}

/// How the last line of a report begins that has this number.
pub fn head(alloc: Global, number: u32) -> Result<String, NoMem> {
    Ok(format!(in alloc; "{number} ")?)
}

/// A text as far as the line that ends the report with this number; for 0 as far as the line of the opening.
pub fn up_to<'a>(alloc: Global, text: &'a [u8], number: u32) -> Result<&'a [u8], NoMem> {
    let head = head(alloc, number)?;
    let mut size = 0usize;
    for line in text.split_inclusive(|byte| *byte == b'\n') {
        size = size.saturating_add(line.len());
        if number == 0 || line.starts_with(head.as_bytes()) {
            break;
        }
    }
    Ok(&text[..size.min(text.len())])
}
