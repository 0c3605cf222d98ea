//! The words of a run, the generated script, and the summary of its reports.
ghost use Rattle.std.specs.Prelude.{◌≡◌, ◌+◌, ◌^◌, ◌<◌, ◌≤◌, length, IfSome, OnOk};

use crate::cells::{Cells, number_at, words_of};
use crate::put::{named, put_number, put_plain, put_printed, put_word};
use pq_base::{Bound, Bytes, List, NoMem, PText, Refusal, Row, Used, Value};
use pq_fill::{Form, Kind, Summary, fill_count, fill_kind, fill_statement, form_of, print_summary};
use pq_print::{End, Line, Report};
use std::alloc::Global;

fn texts_as_words(alloc: Global, texts: &[Bytes]) -> Result<List<PText>, NoMem> {
    let mut words = List::new(alloc);
    for text in texts {
        words.push(alloc, named(alloc, text.items())?)?;
    }
    Ok(words)
}

/// The form of a run that the texts spell as its words.
pub fn form(alloc: Global, cells: &Cells, out: &mut Bytes) -> Result<(), NoMem> {
    let words = texts_as_words(alloc, cells.texts.items())?;
    match form_of(words.items()) {
        Some(Form::Run) => put_word(alloc, "run", out),
        Some(Form::Check) => put_word(alloc, "check", out),
        Some(Form::Fill(users)) => {
            put_word(alloc, "fill", out)?;
            put_number(alloc, users as i64, out)
        }
        None => put_word(alloc, "none", out),
    }
}

fn kind_word(kind: Kind) -> &'static str {
    match kind {
        Kind::Definition => "definition",
        Kind::User => "user",
        Kind::Sub => "sub",
        Kind::Thought => "thought",
        Kind::Run => "run",
    }
}

fn put_kind(alloc: Global, kind: Option<Kind>, out: &mut Bytes) -> Result<(), NoMem> {
    match kind {
        Some(kind) => put_word(alloc, kind_word(kind), out),
        None => put_word(alloc, "none", out),
    }
}

// The users of a script, of which there are 1 to 20,000.
fn users_of(cells: &Cells) -> Option<u32>
    ensures { IfSome result (λ users. (1 ≤ users) × (users ≤ 20000)) }
{
    let users = cells.number(0);
    (1 <= users && users <= 20_000).then_some(users)
}

/// How many statements the script for so many users has.
pub fn count(alloc: Global, cells: &Cells, out: &mut Bytes) -> Result<(), NoMem> {
    match users_of(cells) {
        Some(users) => put_number(alloc, fill_count(users) as i64, out),
        None => Ok(()),
    }
}

/// The kind of the statement at a place of the script for so many users, and the statement; or `none`.
pub fn place(alloc: Global, cells: &Cells, out: &mut Bytes) -> Result<(), NoMem> {
    let Some(users) = users_of(cells) else {
        return Ok(());
    };
    put_kind(alloc, fill_kind(users, cells.number(1)), out)?;
    match fill_statement(alloc, users, cells.number(1))? {
        Some(statement) => put_plain(alloc, statement.bytes(), out),
        None => put_word(alloc, "none", out),
    }
}

fn kind_of(word: &str) -> Kind {
    match word {
        "user" => Kind::User,
        "sub" => Kind::Sub,
        "thought" => Kind::Thought,
        "run" => Kind::Run,
        _ => Kind::Definition,
    }
}

fn push_user(alloc: Global, number: i64, row: &mut Row) -> Result<(), NoMem> {
    row.push(alloc, Value::Text(named(alloc, b"ann")?))?;
    row.push(alloc, Value::Int(number))?;
    row.push(alloc, Value::Int(1000))
}

// A row whose second value is this number, or one of one value where the word is none.
fn row_of(alloc: Global, word: &str) -> Result<Row, NoMem> {
    let mut row = Row::new(alloc);
    match word.parse::<i64>() {
        Ok(number) => push_user(alloc, number, &mut row)?,
        Err(_) => row.push(alloc, Value::Int(100))?,
    }
    Ok(row)
}

fn push_rows(alloc: Global, words: &[&str], lines: &mut List<Line>) -> Result<(), NoMem> {
    for word in words {
        let row = row_of(alloc, word)?;
        lines.push(alloc, Line::Row(row))?;
    }
    Ok(())
}

fn rows_of(alloc: Global, words: &[&str]) -> Result<List<Line>, NoMem> {
    let mut lines = List::new(alloc);
    push_rows(alloc, words, &mut lines)?;
    Ok(lines)
}

// How the statement of a report ended that has so many rows.
fn end_of(word: &str, rows: usize) -> End {
    match word {
        "refused" => End::Refused(Refusal::Unfinished),
        "rows" => End::Rows {
            count: (rows % 4_294_967_296) as u32,
            next: None,
        },
        _ => End::Done,
    }
}

// The report of `run rows 111 1110 9 30 7 -3`: its kind, how it ended, its bound, what it used, and its rows.
fn report_of(alloc: Global, words: &[&str]) -> Result<Report, NoMem> {
    let rows = words.get(6..).unwrap_or(&[]);
    let ended = words.get(1).copied().unwrap_or("");
    Ok(Report {
        number: 1,
        lines: rows_of(alloc, rows)?,
        end: end_of(ended, rows.len()),
        bound: Bound {
            ops: number_at(words, 2).unwrap_or(0) as u128,
            entries: number_at(words, 3).unwrap_or(0) as u128,
        },
        used: Used {
            ops: number_at(words, 4).unwrap_or(0) as u64,
            entries: number_at(words, 5).unwrap_or(0) as u64,
        },
    })
}

fn note_words(alloc: Global, words: &[&str], summary: &mut Summary) -> Result<(), NoMem>
    requires { summary.old.reports + 1 < 2 ^ 32 }
    ensures { OnOk result (summary.new.reports ≡ summary.old.reports + 1) }
{
    let kind = kind_of(words.first().copied().unwrap_or(""));
    let report = report_of(alloc, words)?;
    summary.note(kind, &report);
    Ok(())
}

fn note(alloc: Global, text: &[u8], summary: &mut Summary) -> Result<(), NoMem>
    requires { summary.old.reports + 1 < 2 ^ 32 }
    ensures { OnOk result (summary.new.reports ≡ summary.old.reports + 1) }
{
    let text = named(alloc, text)?;
    let words = words_of(alloc, text.as_str())?;
    note_words(alloc, &words, summary)
}

// The summary of the reports that the texts describe.
fn summary_of(alloc: Global, opening: Used, texts: &[Bytes]) -> Result<Summary, NoMem>
    requires { length texts.now ≤ 1000 }
{
    let mut summary = Summary::new(opening);
    for text in texts {
        note(alloc, text.items(), &mut summary)?;
    }
    Ok(summary)
}

fn put_summary(alloc: Global, users: u32, summary: &Summary, out: &mut Bytes) -> Result<(), NoMem> {
    let mut printed = Bytes::new(alloc);
    print_summary(alloc, users, summary, &mut printed)?;
    put_printed(alloc, printed.items(), out)
}

/// The summary of the reports that the texts describe, of so many users and an opening that used so much.
pub fn summary(alloc: Global, cells: &Cells, out: &mut Bytes) -> Result<(), NoMem> {
    let texts = cells.texts.items();
    if texts.len() > 1000 {
        return Ok(());
    }
    let opening = Used {
        ops: cells.number(1) as u64,
        entries: cells.number(2) as u64,
    };
    let summary = summary_of(alloc, opening, texts)?;
    put_summary(alloc, cells.number(0), &summary, out)
}
