//! What is built for the last definition of a catalog, and its completion.
ghost use Rattle.std.specs.Prelude.{◌≡◌, ◌≤◌, ◌*◌, length, IfOk, IfErr, IfSome, IsSome, OnOk, OnErr};
ghost use Rattle.pq_builds.specs.Bounds.{left_bound};
ghost use Rattle.pq_builds.specs.Filling.{row_pairs_in};
ghost use Rattle.pq_builds.specs.Stages.{ShowsLeft, StopsFilling, Takes, IsWithinBuild, left_ops};
ghost use Rattle.pq_intent.specs.Spending.{TakesAtMost};
ghost use Rattle.pq_catalog.specs.Model.{Model};
ghost use Rattle.pq_opening.specs.Opening.{IsLeft, IsFillingIn, GoesOnLeft, rows_left, HasFewRows, ShowsMarked};
ghost use Rattle.pq_catalog.specs.Stands.{HoldsModel, Opens, last_key, last_made, last_query};
ghost use Rattle.pq_store.specs.Breaks.{IsUndamaged, IsAnsweredBut};
ghost use Rattle.pq_store.specs.Content.{HasBrokeCause};

use pq_base::{Bytes, NoMem};
use pq_builds::{NewQuery, Target, complete_index};
use pq_catalog::{Mark, last_format};
use pq_key_code::catalog_key;
use pq_print::print_definition;
use pq_schema::{Catalog, Def, Made};
use pq_store::{Broke, Meter, Store};
use std::alloc::Global;
use std::sync::ledger::Ledger;

/// The index that the last definition made.
pub(crate) fn last_made(catalog: &Catalog) -> Option<Made>
    ensures { result ≡ last_made catalog.now }
{
    let number = catalog.defs();
    if number == 0 {
        return None;
    }
    match catalog.definition(number) {
        Def::Query { made } => made,
        Def::Table { .. } | Def::Added { .. } | Def::Counter => None,
    }
}

/// The key, the format and the text of the last definition.
pub(crate) fn last_query(alloc: Global, catalog: &Catalog) -> Result<NewQuery, NoMem>
    requires { 1 ≤ length catalog.now.definitions }
    ensures { IfOk result (λ query. query ≡ last_query catalog.now) }
{
    let number = catalog.defs();
    let text = print_definition(alloc, catalog, number)?;
    Ok(NewQuery {
        key: catalog_key(alloc, number)?,
        format: last_format(catalog),
        text: Bytes::of_bytes(alloc, text.bytes())?,
    })
}

/// What is built for the last definition, which made an index.
fn left(alloc: Global, catalog: &Catalog) -> Result<(Target, NewQuery), NoMem>
    requires { IsSome (last_made catalog.now) }
    ensures { IfOk result (λ left. IsLeft catalog.now left.0 left.1) }
{
    catalog.known();
    let Some(made) = last_made(catalog) else {
        unreachable!()
    };
    let target = Target::made(alloc, made.table, catalog.table(made.table), made.index)?;
    let query = last_query(alloc, catalog)?;
    Ok((target, query))
}

/// Completes what is built for a last definition.
fn complete_left<S: Store<L>, L: Ledger>(
    alloc: Global,
    target: &Target,
    query: &NewQuery,
    store: &mut S,
    meter: &mut Meter<L>,
) -> Result<u32, Broke>
    ensures made { IfOk result (λ rows. (m : Model) → IsLeft m.schema target.now query.now
        → IsFillingIn (S.content store.old) m
        → HoldsModel (S.content store.new) m × (rows ≡ rows_left m)) }
    ensures stopped { OnErr result ((m : Model) → IsLeft m.schema target.now query.now
        → IsFillingIn (S.content store.old) m
        → Opens (S.content store.new) m) }
    ensures sound { IfErr result (λ broke. (m : Model) → IsLeft m.schema target.now query.now
        → IsFillingIn (S.content store.old) m → IsUndamaged broke) }
    ensures shown { IfErr result (λ broke. IfSome (S.content store.old) (λ c. ShowsLeft target.now query.now c broke)) }
    ensures left { IfSome (S.content store.old) (λ c. StopsFilling target.now query.now c (S.content store.new)) }
    ensures few { IfOk result (λ rows. rows ≤ 1000000) }
    ensures few_left { OnOk result (IfSome (S.content store.old) (λ c.
        length (row_pairs_in target.now.table c) ≤ 1000000)) }
    ensures within { OnErr result (IsWithinBuild left_ops meter.old meter.new) }
    ensures within_own { OnErr result ((m : Model) → IsLeft m.schema target.now query.now
        → IsFillingIn (S.content store.old) m → TakesAtMost (left_bound (rows_left m)) meter.old meter.new) }
    ensures takes { IfOk result (λ rows. Takes (left_ops rows) (2 * rows) meter.old meter.new) }
    ensures cause { HasBrokeCause (S.faults store.old) (S.faults store.new) result }
    ensures answered { IfErr result (IsAnsweredBut S.answers query.now.key) }
{
    complete_index(alloc, target, query, store, meter)
}

/// Completes the build of a catalog's last definition, and answers how many rows its index is over.
pub(crate) fn complete<S: Store<L>, L: Ledger>(
    alloc: Global,
    catalog: &Catalog,
    store: &mut S,
    meter: &mut Meter<L>,
) -> Result<u32, Broke>
    requires { IsSome (last_made catalog.now) }
    ensures made { IfOk result (λ rows. (m : Model) → m.schema ≡ catalog.now → IsFillingIn (S.content store.old) m
        → HoldsModel (S.content store.new) m × (rows ≡ rows_left m)) }
    ensures stopped { OnErr result ((m : Model) → m.schema ≡ catalog.now → IsFillingIn (S.content store.old) m
        → Opens (S.content store.new) m) }
    ensures sound { IfErr result (λ broke. (m : Model) → m.schema ≡ catalog.now → IsFillingIn (S.content store.old) m
        → IsUndamaged broke) }
    ensures shown { IfErr result (λ broke. IfSome (S.content store.old)
        (λ c. ShowsMarked catalog.now Mark.Building c broke)) }
    ensures left { IfSome (S.content store.old) (λ c. GoesOnLeft catalog.now c (S.content store.new)) }
    ensures few { IfOk result (λ rows. rows ≤ 1000000) }
    ensures few_left { OnOk result (IfSome (S.content store.old) (HasFewRows (last_made catalog.now))) }
    ensures within { OnErr result (IsWithinBuild left_ops meter.old meter.new) }
    ensures within_own { OnErr result ((m : Model) → m.schema ≡ catalog.now → IsFillingIn (S.content store.old) m
        → TakesAtMost (left_bound (rows_left m)) meter.old meter.new) }
    ensures takes { IfOk result (λ rows. Takes (left_ops rows) (2 * rows) meter.old meter.new) }
    ensures cause { HasBrokeCause (S.faults store.old) (S.faults store.new) result }
    ensures answered { IfErr result (IsAnsweredBut S.answers (last_key catalog.now)) }
{
    let (target, query) = left(alloc, catalog)?;
    complete_left(alloc, &target, &query, store, meter)
}
