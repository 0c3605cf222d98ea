//! Reports that several statements make.
ghost use Rattle.std.specs.Prelude.{◌≡◌, ◌≤◌, []};
ghost use Rattle.pq_reports.specs.Reports.{build_report, counter_report, crowded_report, define_report, too_many_report};
ghost use Rattle.pq_builds.specs.Bounds.{bound};
ghost use Rattle.pq_reports.specs.Step.{misread_report, report_of, refusal_report};

use pq_base::{Bound, List, Refusal, Used};
use pq_builds::build_ops;
use pq_print::{End, Line, Report};
use std::alloc::Global;

pub const NOTHING_USED: Used = Used { ops: 0, entries: 0 };

/// The bound of a statement that makes no call of the store.
pub const NO_CALLS: Bound = Bound { ops: 0, entries: 0 };

/// The report of a refusal.
pub fn refusal_report(alloc: Global, number: u32, why: Refusal, bound: Bound, used: Used) -> Report
    ensures { result ≡ record (refusal_report number why bound) { used = used } }
{
    Report {
        number,
        lines: List::new(alloc),
        end: End::Refused(why),
        bound,
        used,
    }
}

/// The report of a batch of which the write at this place, from 1, is refused.
pub fn in_batch_report(
    alloc: Global,
    number: u32,
    place: u16,
    cause: Refusal,
    bound: Bound,
    used: Used,
) -> Report
    ensures { result ≡ record (report_of number [] (End.InBatch place cause) bound) { used = used } }
{
    Report {
        number,
        lines: List::new(alloc),
        end: End::InBatch { place, cause },
        bound,
        used,
    }
}

/// The report of a batch of which the write at this place, from 1, is refused by reading.
pub fn misread_report(alloc: Global, number: u32, place: u16, cause: Refusal) -> Report
    ensures { result ≡ misread_report number place cause }
{
    in_batch_report(alloc, number, place, cause, NO_CALLS, NOTHING_USED)
}

/// The report of a statement that is done.
pub fn done_report(alloc: Global, number: u32, bound: Bound, used: Used) -> Report
    ensures { result ≡ record (report_of number [] End.Done bound) { used = used } }
{
    Report {
        number,
        lines: List::new(alloc),
        end: End::Done,
        bound,
        used,
    }
}

/// The report of a statement that is refused before any call of the store.
pub fn unread_report(alloc: Global, number: u32, why: Refusal) -> Report
    ensures { result ≡ refusal_report number why (bound 0 0) }
{
    refusal_report(alloc, number, why, NO_CALLS, NOTHING_USED)
}

/// The report of a statement that is done without a call of the store.
pub fn unpaid_report(number: u32, lines: List<Line>, bound: Bound) -> Report
    ensures { result ≡ report_of number lines End.Done bound }
{
    Report {
        number,
        lines,
        end: End::Done,
        bound,
        used: NOTHING_USED,
    }
}

/// The report of a definition, which is one write.
pub fn define_report(number: u32, lines: List<Line>) -> Report
    ensures { result ≡ define_report number lines }
{
    Report {
        number,
        lines,
        end: End::Done,
        bound: Bound { ops: 1, entries: 0 },
        used: Used { ops: 1, entries: 0 },
    }
}

/// The report of a definition whose index was filled over so many rows.
pub fn build_report(number: u32, lines: List<Line>, count: u32) -> Report
    requires { count ≤ 1000000 }
    ensures { result ≡ build_report number lines count }
{
    let ops = build_ops(count);
    let entries = 2 * count;
    Report {
        number,
        lines,
        end: End::Done,
        bound: Bound {
            ops: ops as u128,
            entries: entries as u128,
        },
        used: Used {
            ops: ops as u64,
            entries: entries as u64,
        },
    }
}

/// The report of an index that would be filled over too many rows: they were counted.
pub fn too_many_report(alloc: Global, number: u32, why: Refusal) -> Report
    ensures { result ≡ too_many_report number why }
{
    let bound = Bound {
        ops: 1,
        entries: 1_000_001,
    };
    let used = Used {
        ops: 1,
        entries: 1_000_001,
    };
    refusal_report(alloc, number, why, bound, used)
}

/// The bound of a counter's definition: the count of its table's rows, of which one is enough, and one write.
pub const COUNTER_BOUND: Bound = Bound { ops: 2, entries: 1 };

/// The bound of a READ: one get.
pub const READ_BOUND: Bound = Bound { ops: 1, entries: 1 };

/// The report of a counter's definition: its table has no rows.
pub fn counter_report(alloc: Global, number: u32) -> Report
    ensures { result ≡ counter_report number }
{
    done_report(alloc, number, COUNTER_BOUND, Used { ops: 2, entries: 0 })
}

/// The report of a counter over a table that has rows: one was counted.
pub fn crowded_report(alloc: Global, number: u32, why: Refusal) -> Report
    ensures { result ≡ crowded_report number why }
{
    let used = Used { ops: 1, entries: 1 };
    refusal_report(alloc, number, why, COUNTER_BOUND, used)
}
