//! Reports, openings and damage as text.
ghost use Rattle.std.specs.Prelude.{◌≡◌, ◌<◌, ◌≤◌, ◌++◌, IfOk, OnOk, OnErr, flat_map, string_bytes};
ghost use Rattle.std.specs.Char.{digit_char};
ghost use Rattle.pq_print.specs.Report.{bound_text, used_text, choice_text, dir_text, index_col_text, line_text, line_of, next_text, end_text, printed_report, opening_line, hex, damage_line, is_refusal};

use crate::costs::with_costs;
use crate::number::put_number;
use crate::part::{Part, put_each, put_separated};
use crate::refusal::{put_in_batch, put_refusal};
use crate::report::{End, IndexCol, Line, Opened, Report};
use crate::value::put_row;
use pq_base::{Bound, Bytes, Choice, Dir, NoMem, PText, Used};
use std::alloc::{AllocError, Global};

pub fn put_bound(bound: Bound, out: &mut String) -> Result<(), AllocError>
    ensures { OnOk result (string_bytes out.new ≡ string_bytes out.old ++ bound_text bound) }
{
    out.push_str(" bound ")?;
    put_number(out, bound.ops)?;
    out.push_str(" ")?;
    put_number(out, bound.entries)
}

pub fn put_used(used: Used, out: &mut String) -> Result<(), AllocError>
    ensures { OnOk result (string_bytes out.new ≡ string_bytes out.old ++ used_text used) }
{
    out.push_str(" used ")?;
    put_number(out, used.ops)?;
    out.push_str(" ")?;
    put_number(out, used.entries)
}

fn put_choice(choice: Choice, out: &mut String) -> Result<(), AllocError>
    ensures { OnOk result (string_bytes out.new ≡ string_bytes out.old ++ choice_text choice) }
{
    match choice {
        Choice::Whole => out.push_str(" whole"),
        Choice::Stop(relation) => {
            out.push_str(" stop ")?;
            put_number(out, relation)
        }
    }
}

/// Puts what stands behind a column of this direction.
pub fn put_dir(dir: Dir, out: &mut String) -> Result<(), AllocError>
    ensures { OnOk result (string_bytes out.new ≡ string_bytes out.old ++ dir_text dir) }
{
    match dir {
        Dir::Asc => Ok(()),
        Dir::Desc => out.push_str(" DESC"),
    }
}

impl Part<()> for IndexCol {
    ghost text = { λ _ col. index_col_text col };

    fn put(&self, _scope: &(), out: &mut String) -> Result<(), AllocError> {
        out.push_str(self.name.as_str())?;
        put_dir(self.dir, out)
    }
}

impl Part<()> for Line {
    ghost text = { λ _ line. line_of (line_text line) };

    fn put(&self, _scope: &(), out: &mut String) -> Result<(), AllocError> {
        put_line(self, out)?;
        out.push_str("\n")
    }
}

fn put_line(line: &Line, out: &mut String) -> Result<(), AllocError>
    ensures { OnOk result (string_bytes out.new ≡ string_bytes out.old ++ line_text line.now) }
{
    match line {
        Line::Row(row) => put_row(row, out),
        Line::Query {
            name,
            choice,
            bound,
        } => {
            out.push_str("query ")?;
            out.push_str(name.as_str())?;
            put_choice(*choice, out)?;
            put_bound(*bound, out)
        }
        Line::Index {
            table,
            number,
            cols,
        } => {
            out.push_str("index ")?;
            out.push_str(table.as_str())?;
            out.push_str(" ")?;
            put_number(out, *number)?;
            out.push_str(" (")?;
            put_separated(cols.items(), &(), ", ", out)?;
            out.push_str(")")
        }
        Line::Def { number, text } => {
            out.push_str("def ")?;
            put_number(out, *number)?;
            out.push_str(" ")?;
            out.push_str(text.as_str())
        }
    }
}

fn put_next(cursor: &PText, out: &mut String) -> Result<(), AllocError>
    ensures { OnOk result (string_bytes out.new ≡ string_bytes out.old ++ next_text (Some cursor.now)) }
{
    out.push_str(" next ")?;
    out.push_str(cursor.as_str())
}

fn put_end(end: &End, out: &mut String) -> Result<(), AllocError>
    ensures { OnOk result (string_bytes out.new ≡ string_bytes out.old ++ end_text end.now) }
{
    match end {
        End::Done => out.push_str(" ok"),
        End::Rows { count, next } => {
            out.push_str(" ok rows ")?;
            put_number(out, *count)?;
            match next {
                None => Ok(()),
                Some(cursor) => put_next(cursor, out),
            }
        }
        End::Refused(refusal) => {
            out.push_str(" refused ")?;
            put_refusal(refusal, out)
        }
        End::InBatch { place, cause } => {
            out.push_str(" refused ")?;
            put_in_batch(*place, cause, out)
        }
    }
}

impl Report {
    /// Whether the statement was refused.
    pub fn is_refusal(&self) -> bool
        ensures { result ≡ is_refusal self.now }
    {
        match self.end {
            End::Done | End::Rows { .. } => false,
            End::Refused(_) | End::InBatch { .. } => true,
        }
    }
}

/// The room for a report's text: 64 bytes for each line, which few are longer than, but for no more than 64 lines.
fn text_room(lines: usize) -> usize
    ensures { result ≤ 4160 }
{
    64 * (lines.min(64) + 1)
}

#[tactic(auto, unfolding(crate::specs::Report::printed_report))]
/// The report's lines and its end line.
pub fn report_bytes(alloc: Global, report: &Report) -> Result<Bytes, NoMem>
    ensures { IfOk result (λ bytes. bytes ≡ printed_report report.now) }
{
    let lines = report.lines.items();
    let mut text = String::with_capacity(alloc, text_room(lines.len()))?;
    put_each(lines, &(), "", &mut text)?;
    put_number(&mut text, report.number)?;
    put_end(&report.end, &mut text)?;
    with_costs(text, report.bound, report.used)
}

/// Appends the report's lines and its end line. After `NoMem` the bytes are as before.
pub fn print_report(alloc: Global, report: &Report, out: &mut Bytes) -> Result<(), NoMem>
    ensures ok { OnOk result (out.new ≡ out.old ++ printed_report report.now) }
    ensures err { OnErr result (out.new ≡ out.old) }
{
    let bytes = report_bytes(alloc, report)?;
    out.extend(alloc, bytes.items())
}

#[tactic(auto, unfolding(crate::specs::Report::opening_line))]
/// Appends the opening's line. After `NoMem` the bytes are as before.
pub fn print_opening(alloc: Global, opened: &Opened, out: &mut Bytes) -> Result<(), NoMem>
    ensures ok { OnOk result (out.new ≡ out.old ++ opening_line opened.now) }
    ensures err { OnErr result (out.new ≡ out.old) }
{
    let mut text = String::new(alloc);
    text.push_str("open defs ")?;
    put_number(&mut text, opened.defs)?;
    put_bound(opened.bound, &mut text)?;
    put_used(opened.used, &mut text)?;
    text.push_str("\n")?;
    out.extend_text(alloc, text)
}

fn hex_digit(value: u8) -> char
    requires { value < 16 }
    ensures { result ≡ digit_char value }
{
    if value < 10 {
        return (b'0' + value) as char;
    }
    (b'a' + (value - 10)) as char
}

fn put_hex(bytes: &[u8], out: &mut String) -> Result<(), AllocError>
    ensures { OnOk result (string_bytes out.new ≡ string_bytes out.old ++ flat_map hex bytes.now) }
{
    for byte in bytes {
        out.push(hex_digit(*byte / 16))?;
        out.push(hex_digit(*byte % 16))?;
    }
    Ok(())
}

#[tactic(auto, unfolding(crate::specs::Report::damage_line))]
/// Appends the line that names the key where damage was found. After `NoMem` the bytes are as before.
pub fn print_damage(alloc: Global, key: &[u8], out: &mut Bytes) -> Result<(), NoMem>
    ensures ok { OnOk result (out.new ≡ out.old ++ damage_line key.now) }
    ensures err { OnErr result (out.new ≡ out.old) }
{
    let mut text = String::new(alloc);
    text.push_str("damaged ")?;
    put_hex(key, &mut text)?;
    text.push_str("\n")?;
    out.extend_text(alloc, text)
}
