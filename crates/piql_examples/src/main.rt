//! `piql_examples`: each word names an example (`examples`), each line of standard input is a case (`cases`). A line
//! says for each whether it does what the files beside it say.
#![tactic(auto)]

mod cases;
mod cells;
mod contents;
mod cuts;
mod ends;
mod examples;
mod parted;
mod parts;
mod reports;
mod rounds;
mod stops;
mod switched;
mod texts;

use pq_base::{List, NoMem, PText};
use pq_shell::{WordsErr, read_words};
use std::io;
use std::process::ExitCode;

// The names of the examples.
fn names_of(rt: &HostRuntime) -> io::Result<List<PText>> {
    match read_words(rt) {
        Ok(names) => Ok(names),
        Err(WordsErr::NotUtf8) => Err(io::Error::from(io::ErrorKind::InvalidInput)),
        Err(WordsErr::NoMem) => Err(io::Error::from(io::ErrorKind::OutOfMemory)),
    }
}

// What an answer without memory is to a program.
fn io_result<T>(answer: Result<T, NoMem>) -> io::Result<T> {
    match answer {
        Ok(value) => Ok(value),
        Err(NoMem) => Err(io::Error::from(io::ErrorKind::OutOfMemory)),
    }
}

// Writes the line of an example or a case.
fn tell(rt: &HostRuntime, what: &str, same: bool) -> io::Result<()> {
    let said = if same { "as written" } else { "differs" };
    println!(rt; "{what}: {said}")
}

// Whether all examples do what they have to.
fn run_examples(rt: &HostRuntime, names: &[PText]) -> io::Result<bool> {
    let mut all = true;
    for name in names {
        let same = examples::is_as_written(rt, name.as_str())?;
        tell(rt, name.as_str(), same)?;
        all = all && same;
    }
    Ok(all)
}

// Whether a line is no case.
fn is_remark(line: &str) -> bool {
    line.is_empty() || line.starts_with("#")
}

// Whether all cases do what they have to.
fn run_cases(rt: &HostRuntime) -> io::Result<bool> {
    let mut all = true;
    for line in rt.lines(rt.alloc()) {
        let line = line?;
        if !is_remark(line.as_str()) {
            let same = cases::is_as_written(rt, line.as_str())?;
            tell(rt, line.as_str(), same)?;
            all = all && same;
        }
    }
    Ok(all)
}

fn main(rt: HostRuntime) -> io::Result<ExitCode> {
    let names = names_of(&rt)?;
    let examples = run_examples(&rt, names.items())?;
    let cases = run_cases(&rt)?;
    Ok(if examples && cases {
        ExitCode::SUCCESS
    } else {
        ExitCode::FAILURE
    })
}
