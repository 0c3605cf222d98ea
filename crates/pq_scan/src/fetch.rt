//! The rows of candidates, behind their inputs.
ghost use Rattle.std.specs.Prelude.{◌≡◌, ◌<◌, ◌++◌, ◌∷◌, [], map, length, IfOk, IfErr, IfSome};
ghost use Rattle.std.specs.List.{AllByRecursion};
ghost use Rattle.pq_base.specs.Values.{AllFit};
ghost use Rattle.pq_schema.specs.Rows.{types_of};
ghost use Rattle.pq_calls.specs.World.{Affords};
ghost use Rattle.pq_nodes.specs.Combos.{FitsTables};
ghost use Rattle.pq_nodes.specs.Operators.{AreInputs};
ghost use Rattle.pq_scan.specs.Candidates.{scanned_table, kept_in, place_in, IsHeld, IsCandidate, AreRowsOf, AreCombosOf, rows_behind, fetches};
ghost use Rattle.pq_scan.specs.Prepared.{IsScannable};
ghost use Rattle.pq_scan.specs.Request.{Spends, StopsRead};
ghost use Rattle.pq_scan.specs.Scanned.{AreRowsKept, AreFetched};

use crate::candidates::{Candidate, Found};
use crate::merge::Placed;
use crate::prepared::Scan;
use pq_base::{List, NoMem, Row};
use pq_calls::Calls;
use pq_entries::named_rows;
use pq_plan::Combo;
use pq_schema::Access;
use pq_store::{Broke, Store};
use std::alloc::Global;
use std::sync::ledger::Ledger;

/// The places of candidates' inputs, and what was kept of their rows.
#[derive(Drop)]
struct Kept {
    places: List<usize>,
    held: List<Row>,
}

/// Candidates without the codes of their positions.
fn kept_of(alloc: Global, candidates: List<Candidate>) -> Result<Kept, NoMem>
    ensures places { IfOk result (λ kept. kept.places ≡ map place_in candidates) }
    ensures held { IfOk result (λ kept. kept.held ≡ map kept_in candidates) }
{
    let count = candidates.items().len();
    let mut places = List::with_room(alloc, count)?;
    let mut rows = List::with_room(alloc, count)?;
    for candidate in candidates.into_vec() {
        let Placed { item, .. } = candidate;
        let Found { input, held } = item;
        places.push(alloc, input)?;
        rows.push(alloc, held)?;
    }
    Ok(Kept { places, held: rows })
}

/// The rows of which something was kept: themselves, or those that the entries with these values name, which
/// are asked for at once.
fn rows_of<S: Store<L>, L: Ledger>(
    alloc: Global,
    scan: &Scan<'_>,
    held: List<Row>,
    calls: &mut Calls<S, L>,
) -> Result<List<Row>, Broke>
    requires ready { IsScannable scan.now }
    requires held { AllByRecursion (IsHeld scan.now (S.content calls.old.store.now)) held }
    requires share { Affords calls.old.allowance.now (fetches scan.now.access (length held))
        (fetches scan.now.access (length held)) }
    ensures spends { Spends S.Store calls.old calls.new (fetches scan.now.access (length held))
        (fetches scan.now.access (length held)) (fetches scan.now.access 1) }
    ensures stops { IfErr result (StopsRead S.Store scan.now.catalog.now.tables calls.old calls.new) }
    ensures long { IfOk result (λ rows. length rows ≡ length held) }
    ensures fit { IfOk result (AllByRecursion (AllFit (types_of (scanned_table scan.now)))) }
    ensures codes { IfOk result (λ rows. IfSome (S.content calls.old.store.now)
        (AreRowsKept scan.now.number (scanned_table scan.now) scan.now.access held rows)) }
    ensures answer { IfOk result (AreRowsOf scan.now (S.content calls.old.store.now) held) }
{
    match scan.access {
        Access::Primary => Ok(held),
        Access::Secondary(index) => named_rows(
            alloc,
            scan.catalog,
            scan.number,
            index,
            held.items(),
            calls,
        ),
    }
}

/// A row behind the rows of an input.
fn behind(alloc: Global, input: &Combo, row: Row) -> Result<Combo, NoMem>
    ensures { IfOk result (λ combo. combo ≡ input.now ++ row ∷ []) }
{
    let mut combo = input.copy(alloc)?;
    combo.push(alloc, row)?;
    Ok(combo)
}

/// Each row behind the rows of the input at its place.
fn behind_each(
    alloc: Global,
    inputs: &[Combo],
    places: &[usize],
    rows: List<Row>,
) -> Result<List<Combo>, NoMem>
    requires there { AllByRecursion (λ place. place < length inputs.now) places.now }
    requires alike { length rows ≡ length places.now }
    ensures { IfOk result (λ found. found ≡ rows_behind inputs.now places.now rows) }
{
    let mut found = List::with_room(alloc, places.len())?;
    let mut at = 0;
    for row in rows.into_vec() {
        let combo = behind(alloc, &inputs[places[at]], row)?;
        found.push(alloc, combo)?;
        at += 1;
    }
    Ok(found)
}

/// The rows of candidates behind their inputs, in the order of the candidates.
pub(crate) fn combos_of<S: Store<L>, L: Ledger>(
    alloc: Global,
    scan: &Scan<'_>,
    inputs: &[Combo],
    candidates: List<Candidate>,
    calls: &mut Calls<S, L>,
) -> Result<List<Combo>, Broke>
    requires ready { IsScannable scan.now }
    requires inputs { AreInputs scan.now.catalog.now.tables scan.now.query.now scan.now.rel inputs.now }
    requires candidates { AllByRecursion (IsCandidate scan.now (S.content calls.old.store.now)
        (length inputs.now)) candidates }
    requires share { Affords calls.old.allowance.now (fetches scan.now.access (length candidates))
        (fetches scan.now.access (length candidates)) }
    ensures spends { Spends S.Store calls.old calls.new (fetches scan.now.access (length candidates))
        (fetches scan.now.access (length candidates)) (fetches scan.now.access 1) }
    ensures stops { IfErr result (StopsRead S.Store scan.now.catalog.now.tables calls.old calls.new) }
    ensures size { IfOk result (λ found. length found ≡ length candidates) }
    ensures fit { IfOk result (AllByRecursion
        (FitsTables scan.now.catalog.now.tables scan.now.query.now scan.now.rel)) }
    // Over any content that is told, each row stands where its entry says.
    ensures codes { IfOk result (λ found. IfSome (S.content calls.old.store.now)
        (AreFetched scan.now inputs.now candidates found)) }
    ensures answer { IfOk result (AreCombosOf scan.now (S.content calls.old.store.now) inputs.now candidates) }
{
    let Kept { places, held } = kept_of(alloc, candidates)?;
    let rows = rows_of(alloc, scan, held, calls)?;
    Ok(behind_each(alloc, inputs, places.items(), rows)?)
}
