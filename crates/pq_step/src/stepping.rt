//! The step of a statement over the definitions of a store.
ghost use Rattle.std.specs.Prelude.{◌≡◌, ◌≤◌, ◌<◌, ◌+◌, ◌⊎◌, [], IfOk, IfErr, IfSome, OnErr, Ok, Result, false};
ghost use Rattle.pq_intent.specs.Spending.{TakesAtMost};
ghost use Rattle.pq_store.specs.Content.{HasBrokeCause};
ghost use Rattle.pq_base.specs.declared.refusal.Refusal.{Refusal};
ghost use Rattle.pq_catalog.specs.Model.{Model as Tables};
ghost use Rattle.pq_store.specs.Breaks.{IsUndamaged, IsAnswered, IsAnsweredBut};
ghost use Rattle.pq_reports.specs.Making.{IsWithinAsked, LeavesAsked, MakesAsked};
ghost use Rattle.pq_reports.specs.Matches.{Matches};
ghost use Rattle.pq_reports.specs.Evidence.{AnswersFor, TellsEvidenceFor};
ghost use Rattle.pq_statement.specs.Actions.{Action, action_of, schema_after, statement_bound};
ghost use Rattle.pq_reports.specs.Promise.{Promises, IsBound, IsRefusal, IsWithinFixed, KeepsDamaged, LacksMemory, OnlyReads};
ghost use Rattle.pq_reports.specs.Refusing.{CanEnd, IsUnread};
ghost use Rattle.pq_reports.specs.Telling.{TellsAsked};
ghost use Rattle.pq_statement.specs.Requests.{Asks, IsRequest};
ghost use Rattle.pq_catalog.specs.Stands.{Stands, Opens, next_key};
ghost use Rattle.pq_builds.specs.Bounds.{bound};
ghost use Rattle.pq_reports.specs.Step.{step};
ghost use Rattle.pq_check.specs.Written.{IsPrepareOf, IsDefinedAs};
ghost use Rattle.pq_print.specs.Report.{is_refusal};
ghost use Rattle.pq_schema.specs.declared.query.Query.{Query};
ghost use Rattle.pq_step.specs.Rounds.{AsksAsked};
ghost use Rattle.pq_step.specs.Unbuilt.{MakesNoIndex};

use crate::prepare::define_query;
use crate::run::run_query;
use crate::select::select_query;
use pq_base::{NoMem, Stopped};
use pq_catalog::PlannedCatalog;
use pq_define::{add_column, create, create_counter};
use pq_print::Report;
use pq_reports::{misread_report, plan_report, request_of, show, unread_report};
use pq_statement::Request;
use pq_store::{Broke, Meter, Store};
use pq_text::Piece;
use pq_write::{make_batch, make_write, read_count};
use std::alloc::Global;
use std::sync::ledger::Ledger;

/// Makes one step of the model: the statement of a piece of the script, with its number. On an
/// error the catalog is spent, and the store opens to what stood before the step or after it.
pub fn statement<S: Store<L>, L: Ledger>(
    alloc: Global,
    planned: PlannedCatalog,
    number: u32,
    piece: &Piece,
    store: &mut S,
    meter: &mut Meter<L>,
) -> Result<(PlannedCatalog, Report), Broke>
    ensures matches { IfOk result (λ p. (m : Tables) → Stands (S.content store.old) planned m
        → Matches (step m number piece.now).report p.1) }
    ensures made { IfOk result (λ p. (m : Tables) → Stands (S.content store.old) planned m
        → Stands (S.content store.new) p.0 (step m number piece.now).model) }
    ensures ops { IfOk result (λ p. meter.new.ops ≡ meter.old.ops + p.1.used.ops) }
    ensures entries { IfOk result (λ p. meter.new.entries ≡ meter.old.entries + p.1.used.entries) }
    // Over every store, told or not: the bound is fixed by the definitions and the piece alone, what is used
    // is within it, also where the step breaks off, and a refused statement changes nothing.
    // Where an index is made, the bound is that of a build over some number of rows.
    ensures bound { IfOk result (λ p. IsBound (statement_bound planned piece.now) p.1.bound) }
    ensures within { IfSome (statement_bound planned piece.now) (λ most. TakesAtMost most meter.old meter.new) }
    ensures building { OnErr result (IsWithinFixed (statement_bound planned piece.now) meter.old meter.new) }
    // Over a model it is within the bound of its own step, where an index is made too.
    ensures within_own { (m : Tables) → Stands (S.content store.old) planned m
        → TakesAtMost (step m number piece.now).report.bound meter.old meter.new }
    ensures few_ops { IfOk result (λ p. p.1.used.ops ≤ p.1.bound.ops) }
    ensures few_entries { IfOk result (λ p. p.1.used.entries ≤ p.1.bound.entries) }
    ensures refused { IfOk result (λ p. IsRefusal p.1.end
        → (S.content store.new ≡ S.content store.old) × (p.0 ≡ planned)) }
    // A RUN, a SELECT, a READ, an EXPLAIN, a SHOW and what is refused before any call write nothing, whatever comes.
    ensures reads { OnlyReads (action_of planned piece.now) → S.content store.new ≡ S.content store.old }
    // A refusal is one that what the piece asks for can have.
    ensures can { IfOk result (λ p. CanEnd planned (action_of planned piece.now) p.1.end) }
    // What is refused before any call is reported as just that; and so are the definitions
    // behind each report fixed.
    ensures number { IfOk result (λ p. p.1.number ≡ number) }
    ensures unread { IfOk result (λ p. IsUnread number (action_of planned piece.now) p.1) }
    ensures next { IfOk result (λ p. p.0 ≡ schema_after planned piece.now p.1) }
    // What a PREPARE defines is its query, arranged: without LIMIT and PAGINATE it answers the same rows as the
    // query as it is written.
    ensures arranged { IfOk result (λ p. (written : Query) → IsPrepareOf planned written piece.now
        → is_refusal p.1 ≡ false → IsDefinedAs planned.tables written p.0) }
    // Over any content that is told, whether it stands for a model or not: what isn't refused was made, by what that
    // content has. And over every store a report is of the kind of what was asked for, and its lines are.
    ensures tells { IfOk result (λ p. (IsRefusal p.1.end → ⊥) → IfSome (S.content store.old)
        (λ content. MakesAsked planned (action_of planned piece.now) content (S.content store.new) p.1)) }
    ensures kind { IfOk result (λ p. (IsRefusal p.1.end → ⊥)
        → TellsAsked planned (action_of planned piece.now) p.1) }
    ensures bare { IfOk result (λ p. IsRefusal p.1.end → p.1.lines ≡ []) }
    ensures stopped { OnErr result ((m : Tables) → Stands (S.content store.old) planned m
        → Opens (S.content store.new) m ⊎ Opens (S.content store.new) (step m number piece.now).model) }
    ensures damage { IfErr result (λ broke. (m : Tables) → Stands (S.content store.old) planned m
        → IsUndamaged broke) }
    // A write or a batch for which memory is wanting isn't made: nothing is changed, or its intent stands.
    ensures memory { IfErr result (λ broke. (m : Tables) → Stands (S.content store.old) planned m
        → LacksMemory (action_of planned piece.now) (S.content store.old) (S.content store.new) broke) }
    // Damage leaves the content as it was; but an index that was being made is left as it is, with its mark.
    ensures kept { IfErr result (KeepsDamaged planned (action_of planned piece.now) (S.content store.old)
        (S.content store.new)) }
    // Whatever content is told and whatever breaks it off: nothing is done, or some of what was asked for, as that
    // content has it. An index that is made takes no more than its table's rows there need.
    ensures left { OnErr result (IfSome (S.content store.old)
        (λ content. LeavesAsked planned (action_of planned piece.now) content (S.content store.new))) }
    ensures within_rows { OnErr result (IfSome (S.content store.old)
        (λ content. IsWithinAsked (action_of planned piece.now) content meter.old meter.new)) }
    // Damage is told with what shows it in the content that was there, and in what is there now; by a batch with the
    // changes of the writes before the one at hand.
    ensures shown { IfErr result (λ broke. IfSome (S.content store.old)
        (λ content. TellsEvidenceFor (action_of planned piece.now) planned content broke)) }
    ensures lasting { IfErr result (λ broke. IfSome (S.content store.new)
        (λ content. TellsEvidenceFor (action_of planned piece.now) planned content broke)) }
    // Over every store: how often it is asked, by what the piece asks for. Where an index is made, the rows decide.
    ensures rounds { AsksAsked planned (action_of planned piece.now) (S.rounds store.old) (S.rounds store.new) }
    ensures cause { HasBrokeCause (S.faults store.old) (S.faults store.new) result }
    // Damage is told of what a call answered, in a batch behind the changes of the writes before; or, where an index
    // is made, of its definition's key alone: of no other statement.
    ensures answered { IfErr result (IsAnsweredBut (AnswersFor planned (action_of planned piece.now) S.answers)
        (next_key planned)) }
    ensures unbuilt { MakesNoIndex (action_of planned piece.now)
        → IfErr result (IsAnswered (AnswersFor planned (action_of planned piece.now) S.answers)) }
{
    planned.known();
    make_piece(alloc, planned, number, piece, store, meter)
}

/// Makes what a piece asks for.
fn make_piece<S: Store<L>, L: Ledger>(
    alloc: Global,
    planned: PlannedCatalog,
    number: u32,
    piece: &Piece,
    store: &mut S,
    meter: &mut Meter<L>,
) -> Result<(PlannedCatalog, Report), Broke>
    ensures step { Promises number (action_of planned piece.now) (S.content store.old) (S.content store.new) planned
        meter.old meter.new result }
    ensures rounds { AsksAsked planned (action_of planned piece.now) (S.rounds store.old) (S.rounds store.new) }
    ensures cause { HasBrokeCause (S.faults store.old) (S.faults store.new) result }
    ensures answered { IfErr result (IsAnsweredBut (AnswersFor planned (action_of planned piece.now) S.answers)
        (next_key planned)) }
    ensures unbuilt { MakesNoIndex (action_of planned piece.now)
        → IfErr result (IsAnswered (AnswersFor planned (action_of planned piece.now) S.answers)) }
{
    match request_of(alloc, &planned, piece) {
        Err(Stopped::NoMem) => Err(Broke::NoMem),
        Err(Stopped::Refused(why)) => Ok((planned, unread_report(alloc, number, why))),
        Ok(request) => act(alloc, planned, number, request, store, meter),
    }
}

/// Makes what was asked for.
fn act<S: Store<L>, L: Ledger>(
    alloc: Global,
    planned: PlannedCatalog,
    number: u32,
    request: Request,
    store: &mut S,
    meter: &mut Meter<L>,
) -> Result<(PlannedCatalog, Report), Broke>
    requires { IsRequest planned request }
    ensures step { (asked : Result Action Refusal) → Asks planned request asked
        → Promises number asked (S.content store.old) (S.content store.new) planned meter.old meter.new result }
    ensures rounds { (asked : Result Action Refusal) → Asks planned request asked
        → AsksAsked planned asked (S.rounds store.old) (S.rounds store.new) }
    ensures cause { HasBrokeCause (S.faults store.old) (S.faults store.new) result }
    ensures answered { (asked : Result Action Refusal) → Asks planned request asked
        → IfErr result (IsAnsweredBut (AnswersFor planned asked S.answers) (next_key planned)) }
    ensures unbuilt { (asked : Result Action Refusal) → Asks planned request asked → MakesNoIndex asked
        → IfErr result (IsAnswered (AnswersFor planned asked S.answers)) }
{
    match request {
        Request::Create(def) => create(alloc, planned, number, def, store, meter),
        Request::Alter(def) => add_column(alloc, planned, number, def, store, meter),
        Request::Write(write) => make_write(alloc, planned, number, &write, store, meter),
        Request::Batch(writes) => make_batch(alloc, planned, number, &writes, store, meter),
        Request::Misread { place, cause } => {
            Ok((planned, misread_report(alloc, number, place, cause)))
        }
        Request::Prepare(plan) => define_query(alloc, planned, number, plan, store, meter),
        Request::Explain(plan) => {
            let report = plan_report(alloc, &planned, number, &plan)?;
            Ok((planned, report))
        }
        Request::Run(run) => run_query(alloc, planned, number, &run, store, meter),
        Request::Count(def) => create_counter(alloc, planned, number, def, store, meter),
        Request::Read(read) => read_count(alloc, planned, number, &read, store, meter),
        Request::Show => Ok(show(alloc, planned, number)?),
        Request::Select(plan) => select_query(alloc, planned, number, &plan, store, meter),
    }
}
