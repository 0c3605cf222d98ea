//! The sorted join.
ghost use Rattle.std.specs.Prelude.{◌≤◌, ◌+◌, length, option_copied, IfOk, IfErr, IfSome};
ghost use Rattle.pq_store.specs.Breaks.{IsAnswered};
ghost use Rattle.pq_calls.specs.World.{world};
ghost use Rattle.pq_plan.specs.Nodes.{stop_scan};
ghost use Rattle.pq_nodes.specs.Operators.{IsAsked, IsReadyNode, AreInputs, IsCursor, AffordsNode, ReadsNode, AreFound, AnswersNode, StopsReading, IsSoundOverRows};
ghost use Rattle.pq_nodes.specs.Rounds.{node_rounds};
ghost use Rattle.pq_scan.specs.Scanned.{AreFirstScanned};

use pq_base::{List, Row};
use pq_calls::Calls;
use pq_plan::Combo;
use pq_scan::{Request, scan_inputs};
use pq_schema::{Access, Catalog, Query};
use pq_store::{Allowance, Broke, Meter, Store};
use std::alloc::Global;
use std::sync::ledger::Ledger;

/// The first `k` combinations by position of an input and a row of the relation each, strictly after the
/// cursor: for each input one range of at most `k` rows, or entries of an index, and for an index a get of
/// each row that is answered.
pub fn sorted_join<S: Store<L>, L: Ledger>(
    alloc: Global,
    catalog: &Catalog,
    query: &Query,
    params: &Row,
    rel: u8,
    access: Access,
    inputs: List<Combo>,
    after: Option<&Row>,
    k: u16,
    store: &mut S,
    allowance: &mut Allowance,
    meter: &mut Meter<L>,
) -> Result<List<Combo>, Broke>
    requires asked { IsAsked catalog.now.tables query.now params.now }
    requires ready { IsReadyNode catalog.now.tables query.now (stop_scan rel k access) }
    requires inputs { AreInputs catalog.now.tables query.now rel inputs }
    requires cursor { IsCursor catalog.now.tables query.now (option_copied after) }
    requires share { AffordsNode allowance.old (length inputs) (stop_scan rel k access) }
    // Over any content that is told, no pair is passed over, and no row stands in for another.
    ensures codes { IfOk result (λ found. IfSome (S.content store.old)
        (AreFirstScanned catalog.now.tables query.now params.now rel access (option_copied after.entry) k
        inputs found)) }
    ensures answer { IfOk result (AnswersNode (S.content store.old) catalog.now.tables query.now params.now
        (option_copied after.entry) inputs (stop_scan rel k access)) }
    ensures reads { ReadsNode (world (S.content store.old) (S.faults store.old) allowance.old meter.old)
        (world (S.content store.new) (S.faults store.new) allowance.new meter.new) (length inputs)
        (stop_scan rel k access) }
    ensures found { IfOk result (AreFound catalog.now.tables query.now rel (length inputs) (stop_scan rel k access)) }
    ensures cause { IfErr result (StopsReading catalog.now.tables (world (S.content store.old)
        (S.faults store.old) allowance.old meter.old)
        (world (S.content store.new) (S.faults store.new) allowance.new meter.new)) }
    ensures rounds { S.rounds store.new ≤ S.rounds store.old + node_rounds (stop_scan rel k access) }
    ensures answered { IfErr result (IsAnswered S.answers) }
    ensures undamaged { IfErr result (IsSoundOverRows (S.content store.old) catalog.now.tables) }
{
    let request = Request {
        catalog,
        query,
        params,
        after,
    };
    let mut calls = Calls {
        store,
        allowance,
        meter,
    };
    let inputs = inputs.items();
    scan_inputs(alloc, &request, rel, access, inputs, k, &mut calls)
}
