//! A stop scan over its inputs.
ghost use Rattle.std.specs.Prelude.{◌≤◌, option_copied, length, IfOk, IfErr, IfSome};
ghost use Rattle.pq_nodes.specs.Operators.{AffordsNode, AreFound, AreInputs, AnswersNode, IsCursor};
ghost use Rattle.pq_plan.specs.Nodes.{stop_scan};
ghost use Rattle.pq_scan.specs.Prepared.{IsScannable};
ghost use Rattle.pq_scan.specs.Request.{IsRequest, IsNodeFor, AreInputsFor, AreFoundFor, AnswersFor, SpendsNode, StopsRead};
ghost use Rattle.pq_scan.specs.Scanned.{AreScanned, AreScannedFor};

use crate::fetch::combos_of;
use crate::gather::{first_few, gather};
use crate::prepared::Scan;
use crate::request::Request;
use pq_base::{List, Row};
use pq_calls::Calls;
use pq_plan::Combo;
use pq_schema::Access;
use pq_store::{Broke, Store};
use std::alloc::Global;
use std::sync::ledger::Ledger;

/// What a prepared scan makes of its inputs.
fn run<S: Store<L>, L: Ledger>(
    alloc: Global,
    scan: &Scan<'_>,
    inputs: &[Combo],
    after: Option<&Row>,
    k: u16,
    calls: &mut Calls<S, L>,
) -> Result<List<Combo>, Broke>
    requires ready { IsScannable scan.now }
    requires inputs { AreInputs scan.now.catalog.now.tables scan.now.query.now scan.now.rel inputs.now }
    requires cursor { IsCursor scan.now.catalog.now.tables scan.now.query.now (option_copied after) }
    requires limit { 1 ≤ k }
    requires share { AffordsNode calls.old.allowance.now (length inputs.now)
        (stop_scan scan.now.rel k scan.now.access) }
    ensures spends { SpendsNode S.Store calls.old calls.new (length inputs.now)
        (stop_scan scan.now.rel k scan.now.access) }
    ensures stops { IfErr result (StopsRead S.Store scan.now.catalog.now.tables calls.old calls.new) }
    ensures found { IfOk result (AreFound scan.now.catalog.now.tables scan.now.query.now scan.now.rel
        (length inputs.now) (stop_scan scan.now.rel k scan.now.access)) }
    ensures codes { IfOk result (λ found. IfSome (S.content calls.old.store.now)
        (AreScanned scan.now (option_copied after.entry) k inputs.now found)) }
    ensures answer { IfOk result (AnswersNode
        (S.content calls.old.store.now) scan.now.catalog.now.tables scan.now.query.now scan.now.params.now
        (option_copied after.entry) inputs.now (stop_scan scan.now.rel k scan.now.access)) }
{
    let found = gather(alloc, scan, inputs, after, k as u32, calls)?;
    let first = first_few(alloc, found, k as usize)?;
    Ok(combos_of(alloc, scan, inputs, first, calls)?)
}

/// The first `k` combinations by position, of an input and a row of the relation each, strictly after the
/// cursor: for each input that passes one range of at most `k` rows or entries, all asked for at once, what is
/// found in the order of positions and cut, and then the rows of the entries, asked for at once.
pub fn scan_inputs<S: Store<L>, L: Ledger>(
    alloc: Global,
    request: &Request<'_>,
    rel: u8,
    access: Access,
    inputs: &[Combo],
    k: u16,
    calls: &mut Calls<S, L>,
) -> Result<List<Combo>, Broke>
    requires request { IsRequest request.now }
    requires ready { IsNodeFor request.now (stop_scan rel k access) }
    requires inputs { AreInputsFor request.now rel inputs.now }
    requires share { AffordsNode calls.old.allowance.now (length inputs.now) (stop_scan rel k access) }
    ensures spends { SpendsNode S.Store calls.old calls.new (length inputs.now) (stop_scan rel k access) }
    ensures stops { IfErr result (StopsRead S.Store request.now.catalog.now.tables calls.old calls.new) }
    ensures found { IfOk result (AreFoundFor request.now rel (length inputs.now) (stop_scan rel k access)) }
    // Over any content that is told, no pair is passed over, and no row stands in for another.
    ensures codes { IfOk result (λ found. IfSome (S.content calls.old.store.now)
        (AreScannedFor request.now rel access k inputs.now found)) }
    ensures answer { IfOk result (AnswersFor (S.content calls.old.store.now) request.now inputs.now
        (stop_scan rel k access)) }
{
    let scan = Scan::prepare(alloc, request, rel, access)?;
    run(alloc, &scan, inputs, request.after, k, calls)
}
