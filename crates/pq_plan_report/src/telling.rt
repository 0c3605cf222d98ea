//! What is told of a script: the report that a check makes of each statement, behind the plan that it asks for.
ghost use Rattle.std.specs.Prelude.{◌≡◌, ◌<◌, ◌+◌, ◌^◌, ◌++◌, ◌||◌, [], false, length, if◌then◌else◌, string_bytes, IfOk, OnOk};
ghost use Rattle.pq_print.specs.Report.{is_refusal, printed_report};
ghost use Rattle.pq_base.specs.declared.refusal.Refusal.TheVariants as Refusal;
ghost use Rattle.pq_statement.specs.Actions.{action_of};
ghost use Rattle.pq_reports.specs.Step.{unread_report};
ghost use Rattle.pq_schema.specs.Schema.{empty_schema};
ghost use Rattle.pq_text.specs.Pieces.{pieces_of};
ghost use Rattle.pq_plan_report.specs.Plans.{IsSummed};
ghost use Rattle.pq_plan_report.specs.Told.{AreSummed, is_refused, report_of, rest_text, schema_behind, some_refused, told_piece, told_pieces, told_script};

use crate::plan::piece_plan;
use pq_base::{Bound, Bytes, List, NoMem, Refusal, Used};
use pq_catalog::PlannedCatalog;
use pq_check::check;
use pq_print::{End, Report, print_report};
use pq_text::{Piece, cut_script};
use std::alloc::Global;

/// What is told of a script.
#[derive(Drop)]
pub struct Told {
    pub text: Bytes,
    /// Whether a statement is refused.
    pub refused: bool,
}

/// What is told of the pieces so far, with the definitions behind them and the number of the next one.
#[derive(Drop)]
struct Telling {
    session: PlannedCatalog,
    number: u32,
    told: Told,
}

/// Puts the plan of a statement that isn't refused behind what is told so far.
fn put_plan(alloc: Global, plan: String, refused: bool, text: &mut Bytes) -> Result<(), NoMem>
    ensures { OnOk result (text.new ≡ text.old ++ (if refused then [] else string_bytes plan)) }
{
    if refused {
        return Ok(());
    }
    text.extend_text(alloc, plan)
}

/// Puts a report behind what is told so far, and before it the plan, if it is no refusal.
fn put_report(alloc: Global, plan: String, report: &Report, text: &mut Bytes) -> Result<(), NoMem>
    ensures { OnOk result (text.new ≡ text.old
        ++ ((if is_refusal report.now then [] else string_bytes plan) ++ printed_report report.now)) }
{
    put_plan(alloc, plan, report.is_refusal(), text)?;
    print_report(alloc, report, text)
}

/// Puts what is told of a piece behind what is told so far. Gives the definitions behind it, and whether it is refused.
fn put_piece(
    alloc: Global,
    session: PlannedCatalog,
    number: u32,
    piece: &Piece,
    text: &mut Bytes,
) -> Result<(PlannedCatalog, bool), NoMem>
    ensures session { IfOk result (λ next. next.0 ≡ schema_behind session number piece.now) }
    ensures refused { IfOk result (λ next. next.1 ≡ is_refusal (report_of session number piece.now)) }
    ensures text { OnOk result (text.new ≡ text.old ++ told_piece session number piece.now) }
    ensures summed { IfOk result (λ _. IsSummed session (action_of session piece.now)) }
{
    let plan = piece_plan(alloc, session.catalog(), piece)?;
    let (session, report) = check(alloc, session, number, piece)?;
    put_report(alloc, plan, &report, text)?;
    Ok((session, report.is_refusal()))
}

/// The report of an unfinished rest.
fn rest_report(alloc: Global, number: u32) -> Report
    ensures { result ≡ unread_report number Refusal.Unfinished }
{
    Report {
        number,
        lines: List::new(alloc),
        end: End::Refused(Refusal::Unfinished),
        bound: Bound { ops: 0, entries: 0 },
        used: Used { ops: 0, entries: 0 },
    }
}

/// Puts the report of an unfinished rest behind what is told so far.
fn put_rest(alloc: Global, number: u32, text: &mut Bytes) -> Result<(), NoMem>
    ensures { OnOk result (text.new ≡ text.old ++ printed_report (unread_report number Refusal.Unfinished)) }
{
    print_report(alloc, &rest_report(alloc, number), text)
}

impl Telling {
    /// Nothing is told.
    fn new(alloc: Global) -> Telling
        ensures session { result.session ≡ empty_schema }
        ensures number { result.number ≡ 1 }
        ensures text { result.told.text ≡ [] }
        ensures refused { result.told.refused ≡ false }
    {
        Telling {
            session: PlannedCatalog::blank(alloc),
            number: 1,
            told: Told {
                text: List::new(alloc),
                refused: false,
            },
        }
    }

    /// Tells a piece behind the others.
    fn tell(self, alloc: Global, piece: &Piece) -> Result<Telling, NoMem>
        requires { self.number + 1 < 2 ^ 32 }
        ensures session { IfOk result (λ next. next.session ≡ schema_behind self.session self.number piece.now) }
        ensures number { IfOk result (λ next. next.number ≡ self.number + 1) }
        ensures text { IfOk result (λ next. next.told.text
            ≡ self.told.text ++ told_piece self.session self.number piece.now) }
        ensures refused { IfOk result (λ next. next.told.refused
            ≡ (self.told.refused || is_refusal (report_of self.session self.number piece.now))) }
        ensures summed { IfOk result (λ _. IsSummed self.session (action_of self.session piece.now)) }
    {
        let Telling {
            session,
            number,
            told,
        } = self;
        let mut told = told;
        let (session, refused) = put_piece(alloc, session, number, piece, &mut told.text)?;
        told.refused = told.refused || refused;
        Ok(Telling {
            session,
            number: number + 1,
            told,
        })
    }

    /// Tells the rest, if it is unfinished.
    fn finish(self, alloc: Global, unfinished: bool) -> Result<Told, NoMem>
        ensures text { IfOk result (λ told. told.text ≡ self.told.text ++ rest_text unfinished self.number) }
        ensures refused { IfOk result (λ told. told.refused ≡ (self.told.refused || unfinished)) }
    {
        let Telling { number, told, .. } = self;
        let mut told = told;
        if unfinished {
            put_rest(alloc, number, &mut told.text)?;
        }
        told.refused = told.refused || unfinished;
        Ok(told)
    }
}

/// Tells pieces, numbered from 1.
fn tell_pieces(alloc: Global, pieces: &[Piece]) -> Result<Telling, NoMem>
    requires { length pieces.now < 2 ^ 31 }
    ensures number { IfOk result (λ telling. telling.number ≡ length pieces.now + 1) }
    ensures text { IfOk result (λ telling. telling.told.text ≡ told_pieces empty_schema 1 pieces.now) }
    ensures refused { IfOk result (λ telling. telling.told.refused ≡ some_refused empty_schema 1 pieces.now) }
    ensures summed { IfOk result (λ _. AreSummed empty_schema 1 pieces.now) }
{
    let mut telling = Telling::new(alloc);
    for piece in pieces {
        let next = telling.tell(alloc, piece)?;
        telling = next;
    }
    Ok(telling)
}

/// Tells a script.
pub fn tell_script(alloc: Global, script: &[u8]) -> Result<Told, NoMem>
    requires { length script.now < 2 ^ 31 }
    ensures text { IfOk result (λ told. told.text ≡ told_script script.now) }
    ensures refused { IfOk result (λ told. told.refused ≡ is_refused script.now) }
    ensures summed { IfOk result (λ _. AreSummed empty_schema 1 (pieces_of script.now)) }
{
    let cut = cut_script(alloc, &[script])?;
    let telling = tell_pieces(alloc, cut.pieces.items())?;
    telling.finish(alloc, cut.unfinished)
}
