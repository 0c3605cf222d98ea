//! The numbers of a summary.
ghost use Rattle.std.specs.Prelude.{ℕ, ◌≡◌, ◌≤◌, ◌<◌, ◌+◌, ◌^◌, length, List};
ghost use Rattle.pq_print.specs.Report.{is_refusal};
ghost use Rattle.pq_fill.specs.Summary.{no_reports, with_run, with_accepted, with_outcome, with_most, with_report};
ghost use Rattle.pq_fill.specs.Summary.{end_count, answer_lines, second_number, line_number, sum_of, plus_used, greater_used};
ghost use Rattle.pq_fill.specs.Summary.{IsShared, AreCounted, IsTotalOf, AreWithin};

use crate::item::Kind;
use pq_base::{Bound, Row, Used, Value};
use pq_print::{End, Line, Report};

/// What all reports used together.
#[derive(Clone, Copy)]
pub struct Total {
    pub ops: u128,
    pub entries: u128,
}

/// The numbers of the reports that were noted.
#[derive(Clone, Copy)]
pub struct Numbers {
    /// How many reports were noted.
    pub reports: u32,
    /// How many of them are refusals.
    pub refused: u32,
    /// The accepted INSERTs of users, of subscriptions and of thoughts.
    pub users: u32,
    pub subs: u32,
    pub thoughts: u32,
    /// The accepted RUNs, how many rows they answered, and the sum of the second values of these.
    pub runs: u32,
    pub rows: u64,
    pub sum: i128,
    /// The bound of the last accepted RUN.
    pub home: Bound,
    /// The most operations and the most entries that a RUN used.
    pub most: Used,
    /// What the opening and all reports used.
    pub total: Total,
}

/// How many rows are answered.
fn counted(end: &End) -> u32
    ensures { result ≡ end_count end.now }
{
    match end {
        End::Done | End::Refused(_) | End::InBatch { .. } => 0,
        End::Rows { count, .. } => *count,
    }
}

#[tactic(auto, using(std::proofs::lemmas::List::take_min))]
/// The rows that a report answers: its first lines, as many as it counts.
fn answered(report: &Report) -> &[Line]
    ensures lines { result.now ≡ answer_lines report.now }
    ensures few { length result.now < 2 ^ 32 }
{
    let lines = report.lines.items();
    let count = counted(&report.end) as usize;
    &lines[..count.min(lines.len())]
}

/// The second value of a row, 0 where it is no number.
fn second_number(row: &Row) -> i64
    ensures { result ≡ second_number row.now }
{
    match row.items() {
        [_, Value::Int(number), ..] => *number,
        _ => 0,
    }
}

fn line_number(line: &Line) -> i64
    ensures { result ≡ line_number line.now }
{
    match line {
        Line::Row(row) => second_number(row),
        Line::Query { .. } | Line::Index { .. } | Line::Def { .. } => 0,
    }
}

/// The sum of the second values of some lines.
fn sum_of(lines: &[Line]) -> i128
    requires { length lines.now < 2 ^ 32 }
    ensures sum { result ≡ sum_of lines.now }
    ensures shared { IsShared (2 ^ 63) (length lines.now) result }
{
    let mut sum = 0;
    for line in lines {
        sum += line_number(line) as i128;
    }
    sum
}

/// The greater number of operations, and the greater number of entries.
fn greater_used(most: Used, used: Used) -> Used
    ensures { result ≡ greater_used most used }
{
    Used {
        ops: most.ops.max(used.ops),
        entries: most.entries.max(used.entries),
    }
}

/// What the runs used at most, with a statement of this kind.
fn with_most(kind: Kind, used: Used, most: Used) -> Used
    ensures { result ≡ with_most kind used most }
{
    match kind {
        Kind::Definition | Kind::User | Kind::Sub | Kind::Thought => most,
        Kind::Run => greater_used(most, used),
    }
}

impl Total {
    /// The total with what a report used.
    fn plus(self, used: Used) -> Total
        requires ops { self.ops + 2 ^ 64 ≤ 2 ^ 128 }
        requires entries { self.entries + 2 ^ 64 ≤ 2 ^ 128 }
        ensures total { result ≡ plus_used self used }
        ensures within { (many : ℕ) → IsTotalOf many self → IsTotalOf (many + 1) result }
    {
        Total {
            ops: self.ops + u128::from(used.ops),
            entries: self.entries + u128::from(used.entries),
        }
    }
}

impl Numbers {
    /// The numbers before the first report: what the opening used.
    pub fn new(used: Used) -> Numbers
        ensures numbers { result ≡ no_reports used }
        ensures within { AreWithin result }
    {
        Numbers {
            reports: 0,
            refused: 0,
            users: 0,
            subs: 0,
            thoughts: 0,
            runs: 0,
            rows: 0,
            sum: 0,
            home: Bound { ops: 0, entries: 0 },
            most: Used { ops: 0, entries: 0 },
            total: Total {
                ops: u128::from(used.ops),
                entries: u128::from(used.entries),
            },
        }
    }

    fn with_run(self, report: &Report) -> Numbers
        requires room { self.reports + 1 < 2 ^ 32 }
        requires counted { AreCounted self.reports self }
        ensures numbers { result ≡ with_run report.now self }
        ensures counted { AreCounted (self.reports + 1) result }
    {
        Numbers {
            runs: self.runs + 1,
            rows: self.rows + u64::from(counted(&report.end)),
            sum: self.sum + sum_of(answered(report)),
            home: report.bound,
            ..self
        }
    }

    fn with_accepted(self, kind: Kind, report: &Report) -> Numbers
        requires room { self.reports + 1 < 2 ^ 32 }
        requires counted { AreCounted self.reports self }
        ensures numbers { result ≡ with_accepted kind report.now self }
        ensures counted { AreCounted (self.reports + 1) result }
    {
        match kind {
            Kind::Definition => self,
            Kind::User => Numbers {
                users: self.users + 1,
                ..self
            },
            Kind::Sub => Numbers {
                subs: self.subs + 1,
                ..self
            },
            Kind::Thought => Numbers {
                thoughts: self.thoughts + 1,
                ..self
            },
            Kind::Run => self.with_run(report),
        }
    }

    fn with_outcome(self, kind: Kind, report: &Report) -> Numbers
        requires room { self.reports + 1 < 2 ^ 32 }
        requires counted { AreCounted self.reports self }
        ensures numbers { result ≡ with_outcome (is_refusal report.now) kind report.now self }
        ensures counted { AreCounted (self.reports + 1) result }
    {
        if report.is_refusal() {
            return Numbers {
                refused: self.refused + 1,
                ..self
            };
        }
        self.with_accepted(kind, report)
    }

    /// The numbers with one report more.
    pub fn with_report(self, kind: Kind, report: &Report) -> Numbers
        requires room { self.reports + 1 < 2 ^ 32 }
        requires within { AreWithin self }
        ensures numbers { result ≡ with_report self (kind, report.now) }
        ensures within { AreWithin result }
    {
        Numbers {
            reports: self.reports + 1,
            most: with_most(kind, report.used, self.most),
            total: self.total.plus(report.used),
            ..self.with_outcome(kind, report)
        }
    }
}
