//! The candidates of all inputs, and the first of them by position.
ghost use Rattle.std.specs.Prelude.{◌≡◌, ◌≤◌, ◌*◌, length, take, option_copied, IfOk, IfErr, IfSome};
ghost use Rattle.std.specs.List.{AllByRecursion};
ghost use Rattle.pq_base.specs.Sorting.{sort_by};
ghost use Rattle.pq_store.specs.Content.{key_cmp};
ghost use Rattle.pq_calls.specs.World.{Affords};
ghost use Rattle.pq_nodes.specs.Combos.{FitsTables};
ghost use Rattle.pq_nodes.specs.Operators.{AreInputs, IsCursor};
ghost use Rattle.pq_scan.specs.Candidates.{IsCandidate, AreCandidates};
ghost use Rattle.pq_scan.specs.Merging.{place_of};
ghost use Rattle.pq_scan.specs.Prepared.{IsScannable};
ghost use Rattle.pq_scan.specs.Request.{Spends, StopsRead};
ghost use Rattle.pq_scan.specs.Scanned.{AreGathered};

use crate::asks::asks_of;
use crate::candidates::Candidate;
use crate::merge::Heads;
use crate::prepared::Scan;
use crate::reads::add_found;
use pq_base::{List, NoMem, Row};
use pq_calls::Calls;
use pq_plan::Combo;
use pq_store::{Broke, Store};
use std::alloc::Global;
use std::sync::ledger::Ledger;

/// What a scan finds for all inputs, in their order, asked for at once: for each input at most one operation,
/// and at most `limit` entries.
pub(crate) fn gather<S: Store<L>, L: Ledger>(
    alloc: Global,
    scan: &Scan<'_>,
    inputs: &[Combo],
    after: Option<&Row>,
    limit: u32,
    calls: &mut Calls<S, L>,
) -> Result<List<Candidate>, Broke>
    requires ready { IsScannable scan.now }
    requires inputs { AreInputs scan.now.catalog.now.tables scan.now.query.now scan.now.rel inputs.now }
    requires cursor { IsCursor scan.now.catalog.now.tables scan.now.query.now (option_copied after) }
    requires limit { 1 ≤ limit }
    requires share { Affords calls.old.allowance.now (length inputs.now) (length inputs.now * limit) }
    ensures spends { Spends S.Store calls.old calls.new (length inputs.now) (length inputs.now * limit) 1 }
    ensures stops { IfErr result (StopsRead S.Store scan.now.catalog.now.tables calls.old calls.new) }
    ensures kept { IfOk result (AllByRecursion (IsCandidate scan.now (S.content calls.old.store.now)
        (length inputs.now))) }
    // Over any content that is told, no pair of a range is passed over.
    ensures codes { IfOk result (λ found. IfSome (S.content calls.old.store.now)
        (AreGathered scan.now limit (option_copied after.entry) 0 inputs.now found)) }
    ensures answer { IfOk result (AreCandidates scan.now (S.content calls.old.store.now) limit
        (option_copied after.entry) inputs.now) }
{
    let asks = asks_of(alloc, scan, inputs, after)?;
    let parts = calls.ranges(alloc, asks.ranges.items(), limit)?;
    let mut found = List::new(alloc);
    for place in 0..inputs.len() {
        add_found(
            alloc,
            scan,
            &asks.forms.items()[place],
            place,
            parts.items()[place].items(),
            &mut found,
        )?;
    }
    Ok(found)
}

/// The first candidates by position, at most `k`; of one position those of the earlier input first.
pub(crate) fn first_few(
    alloc: Global,
    found: List<Candidate>,
    k: usize,
) -> Result<List<Candidate>, NoMem>
    ensures { IfOk result (λ first. first ≡ take k (sort_by key_cmp place_of found)) }
{
    Heads::over(alloc, found)?.first(alloc, k)
}
