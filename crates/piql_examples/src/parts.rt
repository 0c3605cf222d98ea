//! Scripts and texts in parts, with an empty line between two of them. A part that begins with `# ` is a remark.
use pq_base::{Bytes, List, NoMem};
use std::alloc::Global;

// Ends a part, where it is no remark.
fn put_part(alloc: Global, parts: &mut List<Bytes>, part: Bytes) -> Result<(), NoMem> {
    if part.items().is_empty() || part.items().starts_with(b"# ") {
        return Ok(());
    }
    parts.push(alloc, part)
}

// Puts a line to a part, behind those that it has.
fn put_line(alloc: Global, part: &mut Bytes, line: &[u8]) -> Result<(), NoMem> {
    if !part.items().is_empty() {
        part.push(alloc, b'\n')?;
    }
    part.extend(alloc, line)
}

/// The parts of a file, without remarks.
pub fn parts_of(alloc: Global, file: &[u8]) -> Result<List<Bytes>, NoMem> {
    let mut parts = List::new(alloc);
    let mut part = Bytes::new(alloc);
    for line in file.split(|byte| *byte == b'\n') {
        if line.is_empty() {
            put_part(alloc, &mut parts, part)?;
            part = Bytes::new(alloc);
        } else {
            put_line(alloc, &mut part, line)?;
        }
    }
    put_part(alloc, &mut parts, part)?;
    Ok(parts)
}

/// The part of a file that has this number, from 1; nothing where there is none.
pub fn part_of(alloc: Global, file: &[u8], number: u64) -> Result<Bytes, NoMem> {
    let mut left = number;
    for part in parts_of(alloc, file)?.items() {
        left = left.saturating_sub(1);
        if left == 0 {
            return Bytes::of_bytes(alloc, part.items());
        }
    }
    Ok(Bytes::new(alloc))
}

/// The parts without anything between them.
pub fn joined(alloc: Global, parts: &[Bytes]) -> Result<Bytes, NoMem> {
    let mut whole = Bytes::new(alloc);
    for part in parts {
        whole.extend(alloc, part.items())?;
    }
    Ok(whole)
}
