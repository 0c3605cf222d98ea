//! READ: how many rows a group of a counter has.
ghost use Rattle.std.specs.Prelude.{◌≡◌, ◌≤◌, ◌+◌, IfErr, IfOk, Ok};
ghost use Rattle.pq_store.specs.Breaks.{IsAnswered};
ghost use Rattle.pq_store.specs.Content.{HasBrokeCause};
ghost use Rattle.pq_statement.specs.Actions.{Reads};
ghost use Rattle.pq_statement.specs.Readings.{IsReading};
ghost use Rattle.pq_statement.specs.Requests.{reading_asked};
ghost use Rattle.pq_reports.specs.Promise.{Promises};
ghost use Rattle.pq_reports.specs.Reports.{count_report};
ghost use Rattle.pq_tallies.specs.Counters.{most_count};

use pq_base::{List, NoMem, Row, Used, Value};
use pq_catalog::PlannedCatalog;
use pq_counters::read_counter;
use pq_print::{End, Line, Report};
use pq_reports::READ_BOUND;
use pq_statement::ReadRequest;
use pq_store::{Allowance, Broke, Meter, Store};
use std::alloc::Global;
use std::sync::ledger::Ledger;

/// The report of a number of rows.
fn count_report(alloc: Global, number: u32, count: u64, used: Used) -> Result<Report, NoMem>
    requires { count ≤ most_count }
    ensures { IfOk result (λ report. report ≡ count_report number count used) }
{
    let mut values = Row::new(alloc);
    values.push(alloc, Value::Int(count as i64))?;
    let mut lines = List::new(alloc);
    lines.push(alloc, Line::Row(values))?;
    Ok(Report {
        number,
        lines,
        end: End::Rows {
            count: 1,
            next: None,
        },
        bound: READ_BOUND,
        used,
    })
}

/// Reads how many rows a group has.
pub fn read_count<S: Store<L>, L: Ledger>(
    alloc: Global,
    planned: PlannedCatalog,
    number: u32,
    read: &ReadRequest,
    store: &mut S,
    meter: &mut Meter<L>,
) -> Result<(PlannedCatalog, Report), Broke>
    requires { IsReading planned (reading_asked read.now) }
    ensures step { Promises number (Ok (Reads (reading_asked read.now))) (S.content store.old)
        (S.content store.new) planned meter.old meter.new result }
    ensures rounds { S.rounds store.new ≤ S.rounds store.old + 1 }
    ensures cause { HasBrokeCause (S.faults store.old) (S.faults store.new) result }
    ensures answered { IfErr result (IsAnswered S.answers) }
{
    let mut allowance = Allowance::grant(READ_BOUND);
    let count = read_counter(
        alloc,
        planned.catalog(),
        read.counter,
        &read.values,
        store,
        &mut allowance,
        meter,
    )?;
    let report = count_report(alloc, number, count, allowance.used())?;
    Ok((planned, report))
}
