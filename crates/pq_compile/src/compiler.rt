//! What a query is compiled to.

ghost use Rattle.std.specs.Prelude.{◌≡◌, ◌≤◌, [], length, IfOk, IfErr, IfSome, Err};
ghost use Rattle.pq_base.specs.Answers.{Refuses};
ghost use Rattle.pq_schema.specs.Sound.{IsQuery};
ghost use Rattle.pq_schema.specs.Candidates.{candidates as candidates_of};
ghost use Rattle.pq_stop_push.specs.Pushes.{held_plan};
ghost use Rattle.pq_schema.specs.Wanted.{is_large, first_unbounded, no_bound, ChosenCandidate, chosen_candidate};
ghost use Rattle.pq_compile.specs.Chosen.{IsBest, IsCompiled};

use crate::choosing::least;
use crate::lowering::lower;
use crate::wanting::index_of;
use pq_base::{Bound, Choice, Refusal, Stopped};
use pq_plan::BoundedPlan;
use pq_predicates::{data_bound, fixed, table_of};
use pq_schema::{Catalog, NewIndex, Query};
use pq_stop_push::{Candidate, candidates};
use std::alloc::Global;

/// The plan of a query, the candidate that it was made for, and the index that it wants.
#[derive(Drop)]
pub struct Compiled {
    pub plan: BoundedPlan,
    pub choice: Choice,
    pub wanted: Option<NewIndex>,
}

fn is_large(bound: Bound) -> bool
    ensures { result ≡ is_large bound }
{
    50000 < bound.ops || 50000 < bound.entries
}

/// The first relation without a data bound.
#[tactic(auto, using(crate::proofs::Best::find_after))]
fn first_unbounded(catalog: &Catalog, query: &Query) -> Option<u8>
    requires { IsQuery catalog.now.tables query.now }
    ensures first { result ≡ first_unbounded catalog.now.tables query.now }
    ensures there { IfSome result (λ rel. (1 ≤ rel) × (rel ≤ length query.now.relations)) }
{
    for rel in 1..query.relations.items().len() as u8 + 1 {
        if data_bound(table_of(catalog, query, rel), fixed(query, rel)).is_none() {
            return Some(rel);
        }
    }
    None
}

/// The refusal of a query without candidates, which names the first relation without a data bound.
fn no_bound(alloc: Global, catalog: &Catalog, query: &Query) -> Stopped
    requires query { IsQuery catalog.now.tables query.now }
    requires none { candidates_of catalog.now.tables query.now ≡ [] }
    ensures { Refuses {A = ChosenCandidate} result (Err (no_bound catalog.now.tables query.now)) }
{
    let Some(rel) = first_unbounded(catalog, query) else {
        unreachable!();
    };
    match query.relations.items()[rel as usize - 1].alias.copy(alloc) {
        Ok(alias) => Stopped::Refused(Refusal::NoBound { alias }),
        Err(_) => Stopped::NoMem,
    }
}

/// The plan of the least candidate.
fn compile_best(
    alloc: Global,
    catalog: &Catalog,
    query: &Query,
    best: &Candidate,
) -> Result<Compiled, Stopped>
    requires query { IsQuery catalog.now.tables query.now }
    requires best { IsBest catalog.now.tables query.now (held_plan best.now) }
    ensures made { IfOk result (λ made. IsCompiled catalog.now.tables query.now made) }
    ensures refused { IfErr result (λ stopped. Refuses stopped (chosen_candidate catalog.now.tables query.now)) }
{
    if is_large(best.bound) {
        return Err(Stopped::Refused(Refusal::BoundLarge {
            ops: best.bound.ops,
            entries: best.bound.entries,
        }));
    }
    let wanted = index_of(alloc, catalog, query, best.choice)?;
    let tree = lower(alloc, catalog, query, &best.tree)?;
    Ok(Compiled {
        plan: BoundedPlan::wrap(tree),
        choice: best.choice,
        wanted,
    })
}

/// The plan of the query's least candidate, with the index that it wants; or the refusal of a query that
/// has no candidate, whose least one has a number over 50,000, or that wants a table's seventeenth index.
pub fn compile(alloc: Global, catalog: &Catalog, query: &Query) -> Result<Compiled, Stopped>
    requires { IsQuery catalog.now.tables query.now }
    ensures made { IfOk result (λ made. IsCompiled catalog.now.tables query.now made) }
    ensures refused { IfErr result (λ stopped. Refuses stopped (chosen_candidate catalog.now.tables query.now)) }
{
    let list = candidates(alloc, catalog, query)?;
    match least(list.items()) {
        None => Err(no_bound(alloc, catalog, query)),
        Some(best) => compile_best(alloc, catalog, query, best),
    }
}
