//! The lines of a run of clients.
ghost use Rattle.std.specs.Prelude.{◌≡◌, ◌++◌, OnOk, string_bytes};
ghost use Rattle.pq_clients.specs.Steps.{is_fault};
ghost use Rattle.pq_shell.specs.Serving.{rest_text};
ghost use Rattle.pq_client_shell.specs.Lines.{skipped_line, outcome_text, told_line, told_part, told_text};

use itoa::{Buffer, Integer};
use pq_base::{Bytes, NoMem, Refusal};
use pq_clients::{Outcome, Told};
use pq_print::{print_report, put_refusal};
use pq_shell::rest_report;
use std::alloc::{AllocError, Global};

fn put_number<I: Integer>(number: I, out: &mut String) -> Result<(), AllocError>
    ensures { OnOk result (string_bytes out.new ≡ string_bytes out.old ++ I.text number) }
{
    let mut buffer = Buffer::new();
    out.push_str(buffer.format(number))
}

/// Puts the line of a piece that is skipped.
pub fn put_skipped(number: u32, out: &mut String) -> Result<(), AllocError>
    ensures { OnOk result (string_bytes out.new ≡ string_bytes out.old ++ skipped_line number) }
{
    put_number(number, out)?;
    out.push_str(" skipped\n")
}

/// Puts the report of an unfinished rest, where there is one.
pub fn put_rest(alloc: Global, unfinished: bool, number: u32, out: &mut Bytes) -> Result<(), NoMem>
    ensures { OnOk result (out.new ≡ out.old ++ rest_text unfinished number) }
{
    if unfinished {
        return print_report(alloc, &rest_report(alloc, number), out);
    }
    Ok(())
}

fn put_refused(why: &Refusal, out: &mut String) -> Result<(), AllocError>
    ensures { OnOk result (string_bytes out.new ≡ string_bytes out.old ++ outcome_text (Outcome.Refused why.now)) }
{
    out.push_str("refused ")?;
    put_refusal(why, out)
}

fn put_outcome(outcome: &Outcome, out: &mut String) -> Result<(), AllocError>
    ensures { OnOk result (string_bytes out.new ≡ string_bytes out.old ++ outcome_text outcome.now) }
{
    match outcome {
        Outcome::Done => out.push_str("done"),
        Outcome::Refused(why) => put_refused(why, out),
        Outcome::Busy { .. } => out.push_str("busy"),
        Outcome::Conflict { .. } => out.push_str("conflict"),
        Outcome::Failed | Outcome::NoMem | Outcome::Damaged(_) => Ok(()),
    }
}

fn put_told_line(told: &Told, out: &mut String) -> Result<(), AllocError>
    ensures { OnOk result (string_bytes out.new ≡ string_bytes out.old ++ told_line told.now) }
{
    out.push_str("told ")?;
    put_number(told.client, out)?;
    out.push_str(" ")?;
    put_number(told.number, out)?;
    out.push_str(" ")?;
    put_outcome(&told.outcome, out)?;
    out.push_str("\n")
}

fn is_fault(outcome: &Outcome) -> bool
    ensures { result ≡ is_fault outcome.now }
{
    match outcome {
        Outcome::Done | Outcome::Refused(_) | Outcome::Busy { .. } | Outcome::Conflict { .. } =>
            false,
        Outcome::Failed | Outcome::NoMem | Outcome::Damaged(_) => true,
    }
}

/// Puts the line of what a client was told of a write, but for a fault.
#[tactic(auto, unfolding(crate::specs::Lines::told_part))]
fn put_told_part(told: &Told, out: &mut String) -> Result<(), AllocError>
    ensures { OnOk result (string_bytes out.new ≡ string_bytes out.old ++ told_part told.now) }
{
    if is_fault(&told.outcome) {
        return Ok(());
    }
    put_told_line(told, out)
}

/// Puts a line for each write of which a client was told, but for the faults.
pub fn put_told(told: &[Told], out: &mut String) -> Result<(), AllocError>
    ensures { OnOk result (string_bytes out.new ≡ string_bytes out.old ++ told_text told.now) }
{
    for one in told {
        put_told_part(one, out)?;
    }
    Ok(())
}
