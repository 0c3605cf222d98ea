//! The files that the cells of a case name, in the folder `runs`.
use crate::cells::cell;
use crate::io_result;
use crate::parts::{joined, parts_of};
use std::{fs, io};

/// What the files of a case have; nothing for a cell that it hasn't.
#[derive(Drop)]
pub struct Texts {
    /// Parts of a script (`parts=`).
    pub parts: Vec<u8>,
    /// A script (`script=`, or the joined parts).
    pub script: Vec<u8>,
    /// What it has to write (`out=`).
    pub out: Vec<u8>,
    /// A script that is run before, and two others behind it (`ground=`, `first=`, `second=`).
    pub ground: Vec<u8>,
    pub first: Vec<u8>,
    pub second: Vec<u8>,
    /// A script that is run behind, or its parts, and what that has to write (`asks=`, `answer=`).
    pub asks: Vec<u8>,
    pub answer: Vec<u8>,
}

// What the file has that a cell names.
fn file(rt: &HostRuntime, cells: &[&str], name: &str, ending: &str) -> io::Result<Vec<u8>> {
    match cell(cells, name) {
        Some(file) => fs::read(rt, format!(in rt.alloc(); "runs/{file}{ending}")?),
        None => Ok(Vec::new(rt.alloc())),
    }
}

// The script of a case, whose parts these are.
fn script(rt: &HostRuntime, cells: &[&str], parts: &[u8]) -> io::Result<Vec<u8>> {
    if cell(cells, "parts=").is_none() {
        return file(rt, cells, "script=", ".piql");
    }
    let parts = io_result(parts_of(rt.alloc(), parts))?;
    Ok(io_result(joined(rt.alloc(), parts.items()))?.into_vec())
}

/// What the files have that the cells name.
pub fn texts_of(rt: &HostRuntime, cells: &[&str]) -> io::Result<Texts> {
    let asks = if cell(cells, "part=").is_some() {
        ".parts"
    } else {
        ".piql"
    };
    let parts = file(rt, cells, "parts=", ".parts")?;
    Ok(Texts {
        script: script(rt, cells, parts.as_slice())?,
        parts,
        out: file(rt, cells, "out=", ".out")?,
        ground: file(rt, cells, "ground=", ".piql")?,
        first: file(rt, cells, "first=", ".piql")?,
        second: file(rt, cells, "second=", ".piql")?,
        asks: file(rt, cells, "asks=", asks)?,
        answer: file(rt, cells, "answer=", ".out")?,
    })
}
