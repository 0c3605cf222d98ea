//! The summary of the reports of the generated script.
ghost use Rattle.std.specs.Prelude.{◌≡◌, ◌+◌, ◌^◌, ◌<◌, ◌++◌, OnOk, OnErr, string_bytes};
ghost use Rattle.pq_fill.specs.Summary.{count_line, counts_text, sums_text, no_reports, with_report, sum_line, home_line, total_line, summary_text};

use crate::item::Kind;
use crate::numbers::{Numbers, Total};
use crate::text::{put_bound, put_number, put_used};
use pq_base::{Bound, Bytes, NoMem, Used};
use pq_print::Report;
use std::alloc::{AllocError, Global};
use std::marker::Model;

/// The summary of the reports that were noted. It keeps numbers alone.
#[derive(Drop)]
pub struct Summary {
    numbers: Numbers,
}

impl Model for Summary {
    ghost use Rattle.pq_fill.specs.declared.numbers.Numbers.{Numbers};
    ghost use Rattle.pq_fill.specs.Summary.{AreWithin};

    ghost Value = { Numbers };

    ghost view = { λ s. s.numbers };

    ghost invariant = { λ s. AreWithin s.numbers };
}

impl Summary {
    /// The summary before the first report, of a store whose opening used this much.
    pub fn new(used: Used) -> Summary
        ensures { result ≡ no_reports used }
    {
        Summary {
            numbers: Numbers::new(used),
        }
    }

    /// Notes the report of a statement of this kind.
    pub fn note(&mut self, kind: Kind, report: &Report)
        requires { self.old.reports + 1 < 2 ^ 32 }
        ensures { self.new ≡ with_report self.old (kind, report.now) }
    {
        self.numbers = self.numbers.with_report(kind, report);
    }
}

/// Puts a line of a word and a count.
fn put_count(word: &str, count: u64, out: &mut String) -> Result<(), AllocError>
    ensures { OnOk result (string_bytes out.new ≡ string_bytes out.old ++ count_line word.now count) }
{
    out.push_str(word)?;
    out.push_str(" ")?;
    put_number(count, out)?;
    out.push_str("\n")
}

fn put_sum(sum: i128, out: &mut String) -> Result<(), AllocError>
    ensures { OnOk result (string_bytes out.new ≡ string_bytes out.old ++ sum_line sum) }
{
    out.push_str("sum ")?;
    put_number(sum, out)?;
    out.push_str("\n")
}

fn put_home(home: Bound, most: Used, out: &mut String) -> Result<(), AllocError>
    ensures { OnOk result (string_bytes out.new ≡ string_bytes out.old ++ home_line home most) }
{
    out.push_str("home")?;
    put_bound(home, out)?;
    put_used(most, out)?;
    out.push_str("\n")
}

fn put_total(total: Total, out: &mut String) -> Result<(), AllocError>
    ensures { OnOk result (string_bytes out.new ≡ string_bytes out.old ++ total_line total) }
{
    out.push_str("total ")?;
    put_number(total.ops, out)?;
    out.push_str(" ")?;
    put_number(total.entries, out)?;
    out.push_str("\n")
}

/// Puts the counts of statements.
fn put_counts(numbers: &Numbers, out: &mut String) -> Result<(), AllocError>
    ensures { OnOk result (string_bytes out.new ≡ string_bytes out.old ++ counts_text numbers.now) }
{
    put_count("refused", u64::from(numbers.refused), out)?;
    put_count("users", u64::from(numbers.users), out)?;
    put_count("subs", u64::from(numbers.subs), out)?;
    put_count("thoughts", u64::from(numbers.thoughts), out)?;
    put_count("runs", u64::from(numbers.runs), out)?;
    put_count("rows", numbers.rows, out)
}

/// Puts the sum, the line of the home page, and the total.
fn put_sums(numbers: &Numbers, out: &mut String) -> Result<(), AllocError>
    ensures { OnOk result (string_bytes out.new ≡ string_bytes out.old ++ sums_text numbers.now) }
{
    put_sum(numbers.sum, out)?;
    put_home(numbers.home, numbers.most, out)?;
    put_total(numbers.total, out)
}

/// Appends the text of the summary of `fill N`. After `NoMem` the bytes are as before.
#[tactic(auto, unfolding(crate::specs::Summary::summary_text))]
pub fn print_summary(alloc: Global, n: u32, summary: &Summary, out: &mut Bytes) -> Result<(), NoMem>
    ensures ok { OnOk result (out.new ≡ out.old ++ summary_text n summary.now) }
    ensures err { OnErr result (out.new ≡ out.old) }
{
    let mut text = String::new(alloc);
    put_count("fill", u64::from(n), &mut text)?;
    put_counts(&summary.numbers, &mut text)?;
    put_sums(&summary.numbers, &mut text)?;
    out.extend_text(alloc, text)
}
