//! The opening of a store: it is settled, its catalog is read, and a build that was left is completed.
ghost use Rattle.std.specs.Prelude.{◌≡◌, ◌≤◌, ◌<◌, ◌+◌, ◌^◌, length, IfOk, IfErr, IfSome, IsSome, OnOk, OnErr, Ok, None, Some, Result};
ghost use Rattle.pq_builds.specs.Stages.{Takes, IsWithinBuild as BuildsWithin, left_ops};
ghost use Rattle.pq_intent.specs.Spending.{TakesAtMost};
ghost use Rattle.pq_store.specs.Content.{HasBrokeCause};
ghost use Rattle.pq_catalog.specs.Model.{Model as Tables};
ghost use Rattle.pq_opening.specs.Opening.{HasAnswer, IsAnsweredFlaw, opening_of, started_of, none_added, added_from, catalog_in, completion_bound, AreFewRows, HasFewLeft, IsOpening, IsQuiet, IsStarted, IsAsMarked, LeavesFlawed, LeavesMarked, LeavesRead, LeavesStopped, rows_of_mark, TellsSchema, NamesPair, NamesFlaw, ShowsMarked};
ghost use Rattle.pq_schema.specs.Valid.{IsValid};
ghost use Rattle.pq_opening.specs.Within.{IsBounded, StopsWithin, IsWithinOpening};
ghost use Rattle.pq_store.specs.Breaks.{IfDamaged, IsUndamaged, IsAnswered};
ghost use Rattle.pq_catalog.specs.Stands.{HoldsModel, Stands, Opens, last_key, last_made};
ghost use Rattle.pq_builds.specs.Bounds.{bound};

use crate::last::complete;
use crate::opening::with_pairs;
use pq_base::{Bound, Used};
use pq_builds::left_ops;
use pq_catalog::{Mark, PlannedCatalog};
use pq_intent::{Settled, settle};
use pq_store::{Broke, Meter, Store};
use std::alloc::Global;
use std::sync::ledger::Ledger;

/// What an opened store has: the catalog with its plans, and how many definitions were found.
#[derive(Drop)]
pub struct Begun {
    pub planned: PlannedCatalog,
    pub defs: u16,
    pub bound: Bound,
    pub used: Used,
}

/// What one range found of a catalog: its definitions with their plans, and the mark of the last one.
#[derive(Drop)]
struct Found {
    pub planned: PlannedCatalog,
    pub mark: Mark,
}

/// What was opened after a settling, by one range that found a pair for each definition, and by the
/// completion of a build over so many rows.
fn opened_by(planned: PlannedCatalog, settled: &Settled, rows: Option<u32>) -> Begun
    requires ops { settled.now.used.ops < 2 ^ 40 }
    requires entries { settled.now.used.entries ≤ 1 }
    requires rows { AreFewRows rows }
    ensures started { result ≡ started_of planned settled.now (length planned.definitions) rows }
    ensures few { length planned.definitions ≤ 256 }
    ensures valid { IsValid result.planned }
{
    planned.known();
    let defs = planned.catalog().defs();
    let (ops, entries) = match rows {
        None => (0, 0),
        Some(rows) => (u64::from(left_ops(rows)), u64::from(2 * rows)),
    };
    let all_ops = settled.used.ops + 1 + ops;
    Begun {
        defs,
        planned,
        bound: Bound {
            ops: all_ops as u128,
            entries: 257 + entries as u128,
        },
        used: Used {
            ops: all_ops,
            entries: settled.used.entries + u64::from(defs) + entries,
        },
    }
}

/// Opens a store: what an intent left is made whole, the catalog is read by one range, and a build
/// that was left is completed. The first pair that is no definition's is damage, and so is an intent
/// that is none, and what stops the completion.
pub fn start<S: Store<L>, L: Ledger>(
    alloc: Global,
    store: &mut S,
    meter: &mut Meter<L>,
) -> Result<Begun, Broke>
    ensures opened { IfOk result (λ s. (m : Tables) → Opens (S.content store.old) m
        → IsOpening (S.content store.old) m (opening_of s)) }
    ensures stands { IfOk result (λ s. (m : Tables) → Opens (S.content store.old) m
        → Stands (S.content store.new) s.planned m) }
    ensures kept { (m : Tables) → Opens (S.content store.old) m → Opens (S.content store.new) m }
    ensures ops { IfOk result (λ s. meter.new.ops ≡ meter.old.ops + s.used.ops) }
    ensures entries { IfOk result (λ s. meter.new.entries ≡ meter.old.entries + s.used.entries) }
    // Over every store: the definitions are valid, the bound is one of an opening, and what is used is at
    // most it. Where it breaks off, the meter rose by at most such a bound and one range more; over a store
    // that opens to a model, by its own.
    ensures valid { IfOk result (λ s. IsValid s.planned) }
    ensures defs { IfOk result (λ s. s.defs ≡ length s.planned.definitions) }
    ensures bounded { IfOk result (λ s. IsBounded (opening_of s)) }
    ensures within { OnErr result (StopsWithin meter.old meter.new) }
    ensures within_own { OnErr result ((m : Tables) → Opens (S.content store.old) m
        → IfSome (S.content store.old) (IsWithinOpening m meter.old meter.new)) }
    // Over a told store, what its catalog says, or the first flaw that it has. A build over too many rows
    // isn't completed, and the definition's key is named.
    ensures told { IfOk result (λ s. IfSome (S.content store.old) (λ pairs. TellsSchema pairs s.planned)) }
    ensures flaw { IfErr result (λ broke. IfSome (S.content store.old) (λ pairs. NamesFlaw pairs broke)) }
    ensures damage { IfErr result (λ broke. (m : Tables) → Opens (S.content store.old) m → IsUndamaged broke) }
    // What is left of it, whether it opens to a model or not: what it settles to, with more of a build that was
    // left or all of it; where there is damage, also the content as it was. A quiet content is left as it is.
    ensures left { OnOk result (IfSome (S.content store.old) (λ c. LeavesRead c (S.content store.new))) }
    ensures left_flawed { IfErr result (λ broke. IfSome (S.content store.old)
        (λ c. IfDamaged (λ damage. LeavesFlawed c (S.content store.new)) broke)) }
    // Whatever it stops for, nothing else is changed: a value that is no intent stays, and so does a flawed catalog.
    ensures stops { OnErr result (IfSome (S.content store.old) (λ c. LeavesStopped c (S.content store.new))) }
    ensures rests { IfSome (S.content store.old) (λ c. IsQuiet c → S.content store.new ≡ Some c) }
    ensures cause { HasBrokeCause (S.faults store.old) (S.faults store.new) result }
    // Damage is told of what a call answered; or, where a build that was left is completed, of the key of an
    // answered pair alone.
    ensures answered { IfErr result (IsAnsweredFlaw S.answers) }
{
    let settled = settle(alloc, store, meter)?;
    let found = read_catalog(alloc, store, meter)?;
    finish_opening(alloc, found, &settled, store, meter)
}

/// Tells a proof that there are at most 256 definitions.
fn known_few(planned: &PlannedCatalog)
    ensures { length planned.now.definitions ≤ 256 }
{
    let _defs = planned.catalog().defs();
}

/// Reads the definitions of a store that was settled.
fn read_catalog<S: Store<L>, L: Ledger>(
    alloc: Global,
    store: &mut S,
    meter: &mut Meter<L>,
) -> Result<Found, Broke>
    ensures told { IfOk result (λ f. IfSome (S.content store.old)
        (λ pairs. added_from none_added (catalog_in pairs) ≡ Ok (f.planned, f.mark))) }
    ensures marked { IfOk result (λ f. f.mark ≡ Mark.Building → IsSome (last_made f.planned)) }
    ensures takes { IfOk result (λ f. Takes 1 (length f.planned.definitions) meter.old meter.new) }
    ensures few { IfOk result (λ f. length f.planned.definitions ≤ 256) }
    ensures within { OnErr result (TakesAtMost (bound 1 257) meter.old meter.new) }
    ensures within_own { OnErr result (IfSome (S.content store.old) (λ pairs.
        TakesAtMost (bound 1 (length (catalog_in pairs))) meter.old meter.new)) }
    ensures flaw { IfErr result (λ broke. IfSome (S.content store.old) (λ pairs. NamesPair pairs broke)) }
    ensures same { S.content store.new ≡ S.content store.old }
    ensures cause { HasBrokeCause (S.faults store.old) (S.faults store.new) result }
    ensures answered { IfErr result (IsAnswered S.answers) }
    ensures last { IfOk result (λ f. f.mark ≡ Mark.Building → HasAnswer S.answers (last_key f.planned)) }
{
    let found = match store.range(alloc, &[1], &[2], 257, meter) {
        Err(error) => return Err(Broke::from(error)),
        Ok(found) => found,
    };
    match with_pairs(
        alloc,
        (PlannedCatalog::blank(alloc), Mark::Ready),
        found.items(),
    )? {
        Err(damage) => Err(Broke::Damaged(damage)),
        Ok((planned, mark)) => {
            known_few(&planned);
            Ok(Found { planned, mark })
        }
    }
}

/// Completes the build that the mark tells of, where it tells of one.
fn finish_opening<S: Store<L>, L: Ledger>(
    alloc: Global,
    found: Found,
    settled: &Settled,
    store: &mut S,
    meter: &mut Meter<L>,
) -> Result<Begun, Broke>
    requires ops { settled.now.used.ops < 2 ^ 40 }
    requires entries { settled.now.used.entries ≤ 1 }
    requires marked { found.mark ≡ Mark.Building → IsSome (last_made found.planned) }
    requires last { found.mark ≡ Mark.Building → HasAnswer S.answers (last_key found.planned) }
    ensures stands { IfOk result (λ s. (m : Tables) → m.schema ≡ found.planned
        → IsAsMarked found.mark (S.content store.old) m → HoldsModel (S.content store.new) m) }
    ensures started { IfOk result (λ s. IsStarted found.planned s settled.now meter.old meter.new) }
    ensures valid { IfOk result (λ s. IsValid s.planned) }
    ensures rows { IfOk result (λ s. (m : Tables) → m.schema ≡ found.planned
        → IsAsMarked found.mark (S.content store.old) m
        → s ≡ started_of found.planned settled.now (length found.planned.definitions) (rows_of_mark found.mark m)) }
    ensures stopped { OnErr result ((m : Tables) → m.schema ≡ found.planned
        → IsAsMarked found.mark (S.content store.old) m → Opens (S.content store.new) m) }
    ensures sound { IfErr result (λ broke. (m : Tables) → m.schema ≡ found.planned
        → IsAsMarked found.mark (S.content store.old) m → IsUndamaged broke) }
    ensures shown { IfErr result (λ broke. IfSome (S.content store.old)
        (λ c. ShowsMarked found.planned found.mark c broke)) }
    ensures left { IfSome (S.content store.old)
        (λ c. LeavesMarked found.planned found.mark c (S.content store.new)) }
    ensures few_left { OnOk result (IfSome (S.content store.old) (HasFewLeft found.planned found.mark)) }
    ensures within { OnErr result (BuildsWithin left_ops meter.old meter.new) }
    ensures within_own { OnErr result ((m : Tables) → m.schema ≡ found.planned
        → IsAsMarked found.mark (S.content store.old) m
        → TakesAtMost (completion_bound (rows_of_mark found.mark m)) meter.old meter.new) }
    ensures cause { HasBrokeCause (S.faults store.old) (S.faults store.new) result }
    ensures answered { IfErr result (IsAnsweredFlaw S.answers) }
{
    let Found { planned, mark } = found;
    match mark {
        Mark::Ready => Ok(opened_by(planned, settled, None)),
        Mark::Building => {
            let rows = complete(alloc, planned.catalog(), store, meter)?;
            Ok(opened_by(planned, settled, Some(rows)))
        }
    }
}
