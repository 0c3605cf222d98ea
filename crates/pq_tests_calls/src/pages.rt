//! Pages of a query by the operators alone.
ghost use Rattle.std.specs.Prelude.{◌≡◌, ◌≤◌, ◌∷◌, [], length, option_copied, IfOk};
ghost use Rattle.std.specs.List.{AllByRecursion};
ghost use Rattle.pq_schema.specs.Resolved.{IsResolved};
ghost use Rattle.pq_calls.specs.World.{Affords};
ghost use Rattle.pq_compile.specs.Chosen.{IsCompiled};
ghost use Rattle.pq_nodes.specs.Combos.{FitsTables};
ghost use Rattle.pq_nodes.specs.Operators.{IsAsked, IsCursor, AreInputs};
ghost use Rattle.pq_tests_calls.specs.Reads.{IsReadyAt};

use crate::asked::{Planned, read_of};
use pq_base::{Bound, Choice, List, NoMem, Row};
use pq_fk_join::fk_join;
use pq_index_scan::{index_scan, limit_range};
use pq_local_ops::{first_k, keep_after, keep_matching, sort_combos};
use pq_mem_store::MemStore;
use pq_plan::{Combo, Physical};
use pq_schema::{Catalog, Query};
use pq_sorted_join::sorted_join;
use pq_store::{Allowance, Broke, Meter, Store};
use std::alloc::Global;
use std::sync::ledger::Ledger;

/// How many rows a page has.
pub(crate) const PAGE: u16 = 3;

/// More than a node costs over nine inputs.
pub(crate) const AMPLE: Bound = Bound {
    ops: 200_000,
    entries: 200_000,
};

/// What a node makes of its inputs, by its operator.
fn read<S: Store<L>, L: Ledger>(
    alloc: Global,
    catalog: &Catalog,
    query: &Query,
    params: &Row,
    rel: u8,
    node: &Physical,
    inputs: List<Combo>,
    after: Option<&Row>,
    store: &mut S,
    allowance: &mut Allowance,
    meter: &mut Meter<L>,
) -> Result<List<Combo>, Broke>
    requires asked { IsAsked catalog.now.tables query.now params.now }
    requires ready { IsReadyAt catalog.now.tables query.now rel node.now }
    requires inputs { AreInputs catalog.now.tables query.now rel inputs }
    requires few { length inputs ≤ 9 }
    requires share { Affords allowance.old 200000 200000 }
    requires cursor { IsCursor catalog.now.tables query.now (option_copied after) }
    ensures { IfOk result (AllByRecursion (FitsTables catalog.now.tables query.now rel)) }
{
    match node {
        Physical::Lookup { .. } => fk_join(
            alloc, catalog, query, params, rel, inputs, store, allowance, meter,
        ),
        Physical::LimitRange { limit, access, .. } => limit_range(
            alloc, catalog, query, params, rel, *limit, *access, inputs, store, allowance, meter,
        ),
        Physical::StopScan { k, access, .. } => {
            if rel == 1 {
                index_scan(
                    alloc, catalog, query, params, rel, *access, after, *k, store, allowance, meter,
                )
            } else {
                sorted_join(
                    alloc, catalog, query, params, rel, *access, inputs, after, *k, store,
                    allowance, meter,
                )
            }
        }
        _ => Err(Broke::NoMem),
    }
}

/// What the plan reads of the relation, and what of it passes the predicates. Of a stop all passes.
pub(crate) fn read_matching<S: Store<L>, L: Ledger>(
    alloc: Global,
    catalog: &Catalog,
    planned: &Planned,
    params: &Row,
    rel: u8,
    inputs: List<Combo>,
    after: Option<&Row>,
    store: &mut S,
    allowance: &mut Allowance,
    meter: &mut Meter<L>,
) -> Result<List<Combo>, Broke>
    requires asked { IsAsked catalog.now.tables planned.now.query params.now }
    requires compiled { IsCompiled catalog.now.tables planned.now.query planned.now.made }
    requires inputs { AreInputs catalog.now.tables planned.now.query rel inputs }
    requires few { length inputs ≤ 9 }
    requires share { Affords allowance.old 200000 200000 }
    requires cursor { IsCursor catalog.now.tables planned.now.query (option_copied after) }
    ensures { IfOk result (AllByRecursion (FitsTables catalog.now.tables planned.now.query rel)) }
{
    let Some(node) = read_of(catalog, planned, rel) else {
        return Err(Broke::NoMem);
    };
    let query = &planned.query;
    let found = read(
        alloc, catalog, query, params, rel, node, inputs, after, store, allowance, meter,
    )?;
    match node {
        Physical::StopScan { .. } => Ok(found),
        _ => Ok(keep_matching(query, params, rel, found)?),
    }
}

/// The one combination of no relation.
fn unit(alloc: Global) -> Result<List<Combo>, NoMem>
    ensures { IfOk result (λ found. found ≡ [] ∷ []) }
{
    let mut found = List::new(alloc);
    found.push(alloc, Combo::empty(alloc))?;
    Ok(found)
}

/// The same of the first relation.
pub(crate) fn read_first<L: Ledger>(
    alloc: Global,
    catalog: &Catalog,
    planned: &Planned,
    params: &Row,
    after: Option<&Row>,
    store: &mut MemStore,
    meter: &mut Meter<L>,
) -> Result<List<Combo>, Broke>
    requires asked { IsAsked catalog.now.tables planned.now.query params.now }
    requires compiled { IsCompiled catalog.now.tables planned.now.query planned.now.made }
    requires cursor { IsCursor catalog.now.tables planned.now.query (option_copied after) }
    ensures { IfOk result (AllByRecursion (FitsTables catalog.now.tables planned.now.query 1)) }
{
    let inputs = unit(alloc)?;
    let mut allowance = Allowance::grant(AMPLE);
    read_matching(
        alloc,
        catalog,
        planned,
        params,
        1,
        inputs,
        after,
        store,
        &mut allowance,
        meter,
    )
}

/// All that a plan without a stop reads, in order, and of that a page.
fn cut_page(
    alloc: Global,
    catalog: &Catalog,
    query: &Query,
    after: Option<&Row>,
    combos: List<Combo>,
) -> Result<List<Combo>, NoMem>
    requires resolved { IsResolved catalog.now.tables query.now }
    requires cursor { IsCursor catalog.now.tables query.now (option_copied after) }
    requires fit { AllByRecursion (FitsTables catalog.now.tables query.now (length query.now.relations)) combos }
    ensures { IfOk result (AllByRecursion (FitsTables catalog.now.tables query.now (length query.now.relations))) }
{
    let sorted = sort_combos(alloc, catalog, query, combos)?;
    match after {
        Some(at) => Ok(first_k(keep_after(alloc, catalog, query, at, sorted)?, PAGE)),
        None => Ok(first_k(sorted, PAGE)),
    }
}

/// What the plan reads of all its relations, of which there are one or two.
fn read_all<L: Ledger>(
    alloc: Global,
    catalog: &Catalog,
    planned: &Planned,
    params: &Row,
    after: Option<&Row>,
    store: &mut MemStore,
    meter: &mut Meter<L>,
) -> Result<List<Combo>, Broke>
    requires asked { IsAsked catalog.now.tables planned.now.query params.now }
    requires compiled { IsCompiled catalog.now.tables planned.now.query planned.now.made }
    requires cursor { IsCursor catalog.now.tables planned.now.query (option_copied after) }
    ensures { IfOk result (AllByRecursion
        (FitsTables catalog.now.tables planned.now.query (length planned.now.query.relations))) }
{
    let found = read_first(alloc, catalog, planned, params, after, store, meter)?;
    let count = planned.query.relations.items().len();
    if count == 1 {
        return Ok(found);
    }
    if count != 2 || found.items().len() > 9 {
        return Err(Broke::NoMem);
    }
    let mut allowance = Allowance::grant(AMPLE);
    read_matching(
        alloc,
        catalog,
        planned,
        params,
        2,
        found,
        after,
        store,
        &mut allowance,
        meter,
    )
}

/// A page of the query.
pub(crate) fn page<L: Ledger>(
    alloc: Global,
    catalog: &Catalog,
    planned: &Planned,
    params: &Row,
    after: Option<&Row>,
    store: &mut MemStore,
    meter: &mut Meter<L>,
) -> Result<List<Combo>, Broke>
    requires asked { IsAsked catalog.now.tables planned.now.query params.now }
    requires compiled { IsCompiled catalog.now.tables planned.now.query planned.now.made }
    requires cursor { IsCursor catalog.now.tables planned.now.query (option_copied after) }
    ensures { IfOk result (AllByRecursion
        (FitsTables catalog.now.tables planned.now.query (length planned.now.query.relations))) }
{
    let found = read_all(alloc, catalog, planned, params, after, store, meter)?;
    match planned.made.choice {
        Choice::Whole => Ok(cut_page(alloc, catalog, &planned.query, after, found)?),
        Choice::Stop(_) => Ok(found),
    }
}
