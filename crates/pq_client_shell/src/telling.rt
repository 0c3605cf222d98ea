//! What the clients were told, and how it ends the run.
ghost use Rattle.std.specs.Prelude.{◌≡◌, ◌≤◌, ◌⊎◌, None, Some, IfOk, IfErr, IsErrOf};
ghost use Rattle.std.specs.List.{list_any};
ghost use Rattle.std.specs.Io.KnownBytes.{append_known};
ghost use Rattle.pq_store.specs.Content.{HasRisen};
ghost use Rattle.pq_console.specs.Stops.{CutsOff};
ghost use Rattle.pq_client_shell.specs.Lines.{told_text};
ghost use Rattle.pq_client_shell.specs.Telling.{fault_of, first_fault, first_of, is_undone};

use crate::lines::put_told;
use pq_base::{Bytes, List, NoMem};
use pq_clients::{Outcome, Told};
use pq_shell::{Sink, Stop, write_text};
use std::alloc::Global;

/// The fault by which a client ended.
fn fault_of(outcome: Outcome) -> Option<Stop>
    ensures { result ≡ fault_of outcome }
{
    match outcome {
        Outcome::Done | Outcome::Refused(_) | Outcome::Busy { .. } | Outcome::Conflict { .. } =>
            None,
        Outcome::Failed => Some(Stop::StoreFailed),
        Outcome::NoMem => Some(Stop::NoMem),
        Outcome::Damaged(damage) => Some(Stop::Damaged(damage)),
    }
}

fn first_of(fault: Option<Stop>, next: Option<Stop>) -> Option<Stop>
    ensures { result ≡ first_of fault next }
{
    match fault {
        Some(stop) => Some(stop),
        None => next,
    }
}

/// The first fault that was told.
fn first_fault(told: List<Told>) -> Option<Stop>
    ensures { result ≡ first_fault told }
{
    let mut fault = None;
    for one in told.into_vec() {
        fault = first_of(fault, fault_of(one.outcome));
    }
    fault
}

fn is_undone(told: &Told) -> bool
    ensures { result ≡ is_undone told.now }
{
    match &told.outcome {
        Outcome::Done => false,
        Outcome::Refused(_)
        | Outcome::Busy { .. }
        | Outcome::Conflict { .. }
        | Outcome::Failed
        | Outcome::NoMem
        | Outcome::Damaged(_) => true,
    }
}

/// Whether a write was told that isn't done.
fn has_undone(told: &[Told]) -> bool
    ensures { result ≡ list_any is_undone told.now }
{
    told.iter().any(|one| is_undone(one))
}

/// The lines of what was told.
fn told_lines(alloc: Global, told: &[Told]) -> Result<Bytes, NoMem>
    ensures { IfOk result (λ lines. lines ≡ told_text told.now) }
{
    let mut text = String::new(alloc);
    put_told(told, &mut text)?;
    let mut lines = List::new(alloc);
    lines.extend_text(alloc, text)?;
    Ok(lines)
}

/// Writes what the clients were told, and says whether a write isn't done. It stops by the first fault that was told.
pub fn tell<O: Sink>(alloc: Global, told: List<Told>, sink: &mut O) -> Result<bool, Stop>
    ensures unbroken { IfOk result (λ undone. first_fault told ≡ None) }
    ensures undone { IfOk result (λ undone. undone ≡ list_any is_undone told) }
    ensures text { IfOk result (λ undone. O.held sink.new ≡ append_known (O.held sink.old) (told_text told)) }
    ensures err { IfErr result (λ stop. CutsOff stop (told_text told) (O.held sink.old) (O.held sink.new)
        ⊎ ((first_fault told ≡ Some stop)
        × (O.held sink.new ≡ append_known (O.held sink.old) (told_text told)))) }
    ensures later { O.faults sink.old ≤ O.faults sink.new }
    ensures write_failed { IsErrOf result Stop.WriteFailed → HasRisen (O.faults sink.old) (O.faults sink.new) }
    ensures store_failed { IsErrOf result Stop.StoreFailed → first_fault told ≡ Some Stop.StoreFailed }
{
    let Ok(lines) = told_lines(alloc, told.items()) else {
        return Err(Stop::NoMem);
    };
    write_text(&lines, sink)?;
    let undone = has_undone(told.items());
    if let Some(stop) = first_fault(told) {
        return Err(stop);
    }
    Ok(undone)
}
