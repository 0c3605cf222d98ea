//! The lines of a run, written as they are made.
ghost use Rattle.std.specs.Prelude.{◌≡◌, OnOk, IfErr};
ghost use Rattle.std.specs.Io.KnownBytes.{append_known};
ghost use Rattle.pq_fill.specs.Summary.{summary_text};
ghost use Rattle.pq_print.specs.Report.{printed_report, opening_line, damage_line};
ghost use Rattle.pq_console.specs.Stops.{CutsOff, Causes};

use crate::outside::{Failed, Sink, write_all};
use crate::stop::Stop;
use pq_base::{Bytes, List, NoMem};
use pq_fill::{Summary, print_summary};
use pq_print::{Opened, Report, print_damage, print_opening, report_bytes};
use std::alloc::Global;

/// Writes a text.
pub fn write_text<O: Sink>(text: &Bytes, sink: &mut O) -> Result<(), Stop>
    ensures ok { OnOk result (O.held sink.new ≡ append_known (O.held sink.old) text.now) }
    ensures err { IfErr result (λ stop. CutsOff stop text.now (O.held sink.old) (O.held sink.new)) }
    ensures causes { Causes 0 0 (O.faults sink.old) (O.faults sink.new) result }
{
    match write_all(sink, text.items()) {
        Ok(()) => Ok(()),
        Err(Failed) => Err(Stop::WriteFailed),
    }
}

/// Writes a report.
pub fn write_report<O: Sink>(alloc: Global, report: &Report, sink: &mut O) -> Result<(), Stop>
    ensures ok { OnOk result (O.held sink.new ≡ append_known (O.held sink.old) (printed_report report.now)) }
    ensures err { IfErr result (λ stop. CutsOff stop (printed_report report.now) (O.held sink.old) (O.held sink.new)) }
    ensures causes { Causes 0 0 (O.faults sink.old) (O.faults sink.new) result }
{
    match report_bytes(alloc, report) {
        Ok(text) => write_text(&text, sink),
        Err(NoMem) => Err(Stop::NoMem),
    }
}

/// Writes the opening's line.
pub fn write_opening<O: Sink>(alloc: Global, opened: &Opened, sink: &mut O) -> Result<(), Stop>
    ensures ok { OnOk result (O.held sink.new ≡ append_known (O.held sink.old) (opening_line opened.now)) }
    ensures err { IfErr result (λ stop. CutsOff stop (opening_line opened.now) (O.held sink.old) (O.held sink.new)) }
    ensures causes { Causes 0 0 (O.faults sink.old) (O.faults sink.new) result }
{
    let mut text = List::new(alloc);
    match print_opening(alloc, opened, &mut text) {
        Ok(()) => write_text(&text, sink),
        Err(NoMem) => Err(Stop::NoMem),
    }
}

/// Writes the line that names the key where damage was found.
pub fn write_damage<O: Sink>(alloc: Global, key: &[u8], sink: &mut O) -> Result<(), Stop>
    ensures ok { OnOk result (O.held sink.new ≡ append_known (O.held sink.old) (damage_line key.now)) }
    ensures err { IfErr result (λ stop. CutsOff stop (damage_line key.now) (O.held sink.old) (O.held sink.new)) }
    ensures causes { Causes 0 0 (O.faults sink.old) (O.faults sink.new) result }
{
    let mut text = List::new(alloc);
    match print_damage(alloc, key, &mut text) {
        Ok(()) => write_text(&text, sink),
        Err(NoMem) => Err(Stop::NoMem),
    }
}

/// Writes the summary of a generated script.
pub fn write_summary<O: Sink>(
    alloc: Global,
    n: u32,
    summary: &Summary,
    sink: &mut O,
) -> Result<(), Stop>
    ensures ok { OnOk result (O.held sink.new ≡ append_known (O.held sink.old) (summary_text n summary.now)) }
    ensures err { IfErr result (λ stop. CutsOff stop (summary_text n summary.now) (O.held sink.old) (O.held sink.new)) }
    ensures causes { Causes 0 0 (O.faults sink.old) (O.faults sink.new) result }
{
    let mut text = List::new(alloc);
    match print_summary(alloc, n, summary, &mut text) {
        Ok(()) => write_text(&text, sink),
        Err(NoMem) => Err(Stop::NoMem),
    }
}
