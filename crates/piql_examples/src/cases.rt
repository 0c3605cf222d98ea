//! Cases: a word that says what is run, and cells. Scripts, and what they write but for the used numbers, are files of
//! the folder `runs`. A script of parts is run without anything between them.
//!
//! - `run`: the parts in one run write `out`; part by part, over a store that is opened again for each, they write the
//!   same reports, and both stores hold the same in the end.
//! - `ends`: with the `words`, or `run`, the run ends with the `status`, or well, and has written `out` or its first
//!   `bytes`, or nothing. A `read` or a `write` may fail, the sink may have other `room`, and the script be `spaces`.
//! - `begins`: with the words the run ends well, and what it has written begins with `out`.
//! - `codes`: nothing is run; the statuses have their numbers.
//! - `cuts`: the script is cut behind each byte of its parts, each of which is a statement. What is written has the
//!   reports of the whole ones.
//! - `crowded`: as `ends`, over a store that counts so many `rows`.
//! - `content`: as `ends`, over what `ground` leaves and the pairs `KEY:VALUE` that are `put` into it; a `KEY` alone
//!   is removed.
//! - `stop`: as `ends`, over what `ground` leaves, where a `call` of the store fails, `done` or not. Opened again, the
//!   store writes `answer` where it `asks`: of both one `part`, or all.
//! - `twice`: the run is stopped so, and then each of so many calls that it `tries` of the opening fails too, which has
//!   as many as `opening` says.
//! - `rounds`: over what `ground` leaves the `part` of `asks` asks the store so many times (`rounds`), beside the opening.
//! - `switch`: as `ends`, over `ground` and the rows of `first` for so many `calls`, and then those of `second`.
ghost use Rattle.std.specs.Prelude.{◌≡◌};

use crate::texts::{Texts, texts_of};
use crate::{contents, cuts, ends, io_result, parted, rounds, stops, switched};
use pq_base::NoMem;
use pq_store::{Meter, Opening};
use std::alloc::Global;
use std::io;
use std::marker::Brand;
use std::sync::ledger::{Blank, Ledger};

// The word of a case.
fn word_of<'a>(cells: &[&'a str]) -> &'a str {
    match cells.first() {
        Some(word) => word,
        None => "",
    }
}

// Whether a case does what it has to. The caller's proof picks the ledger of the blank.
fn holds<L: Ledger>(
    alloc: Global,
    blank: Blank,
    cells: &[&str],
    texts: &Texts,
) -> Result<bool, NoMem>
    requires name { blank.name ≡ L.name }
    requires parts { blank.parts ≡ L.parts }
    requires two { blank.parts ≡ 2 }
{
    let mut meter = Meter::<L>::start(Opening::of(blank));
    match word_of(cells) {
        "run" => parted::is_as_written(alloc, texts, &mut meter),
        "ends" => ends::is_as_written(alloc, cells, texts, &mut meter),
        "begins" => ends::begins_as_written(alloc, cells, texts, &mut meter),
        "codes" => Ok(ends::are_numbered()),
        "cuts" => cuts::is_as_written(alloc, texts, &mut meter),
        "crowded" => ends::is_crowded(alloc, cells, texts, &mut meter),
        "content" => contents::is_as_written(alloc, cells, texts, &mut meter),
        "stop" => stops::is_as_written(alloc, cells, texts, &mut meter),
        "twice" => stops::is_twice_as_written(alloc, cells, texts, &mut meter),
        "rounds" => rounds::is_as_written(alloc, cells, texts, &mut meter),
        "switch" => switched::is_as_written(alloc, cells, texts, &mut meter),
        _ => Ok(false),
    }
}

// The same over a ledger of its own.
fn holds_alone(alloc: Global, cells: &[&str], texts: &Texts) -> Result<bool, NoMem> {
    holds::<Brand>(alloc, Blank::new(2), cells, texts)
}

/// Whether the case of a line does what it has to.
pub fn is_as_written(rt: &HostRuntime, line: &str) -> io::Result<bool> {
    let cells: Vec<&str> = line.split_whitespace().collect(rt.alloc())?;
    let texts = texts_of(rt, &cells)?;
    io_result(holds_alone(rt.alloc(), &cells, &texts))
}
