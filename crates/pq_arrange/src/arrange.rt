//! The query that is planned in place of a query.
ghost use Rattle.std.specs.Prelude.{◌≡◌, ◌∷◌, [], ◌≤◌, All, IfOk, find, length, true, false};
ghost use Rattle.pq_schema.specs.Resolved.{IsResolved};
ghost use Rattle.pq_stop_push.specs.Having.{has_candidate};
ghost use Rattle.pq_arrange.specs.Arrange.{arranged_query, rearranged_query};
ghost use Rattle.pq_arrange.specs.Moves.{places};
ghost use Rattle.pq_arrange.specs.Placing.{arranged_order};

use crate::closing::closed;
use crate::labels::Classes;
use crate::moves::{places, reordered};
use crate::placing::Placing;
use pq_base::{List, NoMem};
use pq_schema::{Catalog, Query};
use pq_stop_push::has_candidate;
use std::alloc::Global;

/// A query with its relations in another order.
#[derive(Drop)]
pub struct Rearranged {
    pub query: Query,
    /// The new number of each relation of the old query, in the order of these.
    pub places: List<u8>,
}

/// The order in which the relations are placed.
#[tactic(auto, using(pq_schema::proofs::Soundness::valid_query, crate::proofs::Ordering::order_few, crate::proofs::Ordering::order_there))]
fn order_of(alloc: Global, catalog: &Catalog, query: &Query, close: bool) -> Result<List<u8>, NoMem>
    requires { IsResolved catalog.now.tables query.now }
    ensures order { IfOk result (λ order. order ≡ arranged_order catalog.now.tables query.now close) }
    ensures few { IfOk result (λ order. length order ≤ 6) }
    ensures there { IfOk result (λ order. All (λ rel. (1 ≤ rel) × (rel ≤ length query.now.relations)) order) }
{
    catalog.known();
    let classes = Classes::of(alloc, query.preds.items())?;
    let placing = Placing {
        catalog,
        query,
        classes: &classes,
        closed: close,
    };
    let order = placing.order(alloc)?;
    Ok(order)
}

/// The query with its relations in this order, and closed where that is asked for.
#[tactic(auto, using(crate::proofs::Ordering::moved_taken, crate::proofs::Ordering::rearranged_closed, crate::proofs::Ordering::rearranged_plain))]
fn moved_by(
    alloc: Global,
    catalog: &Catalog,
    query: &Query,
    order: &[u8],
    close: bool,
) -> Result<Query, NoMem>
    requires resolved { IsResolved catalog.now.tables query.now }
    requires order { order.now ≡ arranged_order catalog.now.tables query.now close }
    requires few { length order.now ≤ 6 }
    requires there { All (λ rel. (1 ≤ rel) × (rel ≤ length query.now.relations)) order.now }
    ensures { IfOk result (λ found. found ≡ rearranged_query catalog.now.tables query.now close) }
{
    catalog.known();
    let moved = reordered(alloc, order, query)?;
    if close {
        let found = closed(alloc, catalog, moved)?;
        return Ok(found);
    }
    Ok(moved)
}

/// The query with its relations in the order of their data bounds, and with its equalities closed where
/// that is asked for (docs/MODEL.md, "FROM in any order").
pub fn rearrange(
    alloc: Global,
    catalog: &Catalog,
    query: &Query,
    closed: bool,
) -> Result<Rearranged, NoMem>
    requires { IsResolved catalog.now.tables query.now }
    ensures query { IfOk result (λ found. found.query ≡ rearranged_query catalog.now.tables query.now closed) }
    ensures places { IfOk result (λ found. found.places ≡ places (arranged_order catalog.now.tables query.now closed)) }
{
    let order = order_of(alloc, catalog, query, closed)?;
    let query = moved_by(alloc, catalog, query, order.items(), closed)?;
    let places = places(alloc, order.items())?;
    Ok(Rearranged { query, places })
}

/// Whether a query that reading gives has a candidate.
#[tactic(auto, using(pq_schema::proofs::Soundness::valid_query))]
fn is_bounded(catalog: &Catalog, query: &Query) -> bool
    requires { IsResolved catalog.now.tables query.now }
    ensures { result ≡ has_candidate catalog.now.tables query.now }
{
    catalog.known();
    has_candidate(catalog, query)
}

/// The query rearranged, or rearranged and closed: the first that has a candidate.
fn bounded(alloc: Global, catalog: &Catalog, query: &Query) -> Result<Option<Query>, NoMem>
    requires { IsResolved catalog.now.tables query.now }
    ensures { IfOk result (λ found. found ≡ find (has_candidate catalog.now.tables)
        (rearranged_query catalog.now.tables query.now false ∷ rearranged_query catalog.now.tables query.now true
        ∷ [])) }
{
    let plain = rearrange(alloc, catalog, query, false)?.query;
    if is_bounded(catalog, &plain) {
        return Ok(Some(plain));
    }
    let closed = rearrange(alloc, catalog, query, true)?.query;
    if is_bounded(catalog, &closed) {
        return Ok(Some(closed));
    }
    Ok(None)
}

/// The query that is planned in place of a query: itself where it has a candidate, else it rearranged, else
/// it rearranged and closed; and itself where none of these has one.
pub fn arranged(alloc: Global, catalog: &Catalog, query: Query) -> Result<Query, NoMem>
    requires { IsResolved catalog.now.tables query }
    ensures { IfOk result (λ found. found ≡ arranged_query catalog.now.tables query) }
{
    if is_bounded(catalog, &query) {
        return Ok(query);
    }
    match bounded(alloc, catalog, &query)? {
        None => Ok(query),
        Some(found) => Ok(found),
    }
}
