//! Where a query can stop, and what a stop there costs.

ghost use Rattle.std.specs.Prelude.{◌≡◌, ◌+◌, ◌-◌, ◌≤◌, length, nat_le};
ghost use Rattle.std.specs.List.{list_all, list_any, range_with_len};
ghost use Rattle.pq_schema.specs.Sound.{IsQuery};
ghost use Rattle.pq_schema.specs.Relations.{is_total};
ghost use Rattle.pq_schema.specs.Candidates.{is_served, can_stop_at, stop_cost, stop_size};
ghost use Rattle.pq_stop_push.specs.Having.{has_candidate};
ghost use Rattle.pq_stop_push.specs.Pushes.{stop_there};

use crate::costs::{are_bounded, reached_after};
use pq_base::Bound;
use pq_index_pick::primary_serves;
use pq_plan::read_stop;
use pq_predicates::{fixed, is_lookup, is_total, order_rest, range_on, table_of};
use pq_schema::{Catalog, Query, Stop};
use std::alloc::Global;

/// Whether the primary sequence serves the relation.
fn is_served(alloc: Global, catalog: &Catalog, query: &Query, p: u8) -> bool
    requires query { IsQuery catalog.now.tables query.now }
    requires one { 1 ≤ p }
    requires there { p ≤ length query.now.relations }
    ensures { result ≡ is_served catalog.now.tables query.now p }
{
    let order = order_rest(alloc, query, p);
    primary_serves(
        table_of(catalog, query, p),
        fixed(query, p),
        order.as_slice(),
    )
}

/// The cost of the stop candidate at a relation.
pub fn stop_cost(alloc: Global, catalog: &Catalog, query: &Query, k: u16, p: u8) -> Bound
    requires query { IsQuery catalog.now.tables query.now }
    requires k { k ≤ 1000 }
    requires one { 1 ≤ p }
    requires there { p ≤ length query.now.relations }
    ensures { result ≡ stop_cost catalog.now.tables query.now k p }
{
    let stopped = read_stop(
        k,
        is_served(alloc, catalog, query, p),
        reached_after(catalog, query, p - 1),
    );
    let rest = k as u128 * (query.relations.items().len() as u128 - p as u128);
    Bound {
        ops: stopped.cost.ops + rest,
        entries: stopped.cost.entries + rest,
    }
}

/// Whether each ORDER BY column is of a relation not after this one.
fn order_before(query: &Query, p: u8) -> bool
    ensures { result ≡ list_all (λ item. nat_le item.col.rel p) query.now.order }
{
    query.order.items().iter().all(|item| item.col.rel <= p)
}

/// Whether each relation from one on is total.
#[tactic(auto, using(crate::proofs::Ranges::all_after))]
fn all_total(catalog: &Catalog, query: &Query, from: u8) -> bool
    requires query { IsQuery catalog.now.tables query.now }
    requires one { 1 ≤ from }
    requires there { from ≤ length query.now.relations + 1 }
    ensures { result ≡ list_all (is_total catalog.now.tables query.now)
        (range_with_len from (length query.now.relations + 1 - from)) }
{
    for rel in from..query.relations.items().len() as u8 + 1 {
        if !is_total(catalog, query, rel) {
            return false;
        }
    }
    true
}

/// The conditions of the stop candidate at a relation, but for the stop itself.
fn can_stop_at(catalog: &Catalog, query: &Query, p: u8) -> bool
    requires query { IsQuery catalog.now.tables query.now }
    requires one { 1 ≤ p }
    requires there { p ≤ length query.now.relations }
    ensures { result ≡ can_stop_at catalog.now.tables query.now p }
{
    are_bounded(catalog, query, p - 1)
        && !is_lookup(table_of(catalog, query, p), fixed(query, p))
        && order_before(query, p)
        && range_on(query, p)
        && all_total(catalog, query, p + 1)
}

/// k of LIMIT k or PAGINATE k.
pub fn stop_size(stop: Stop) -> Option<u16>
    ensures { result ≡ stop_size stop }
{
    match stop {
        Stop::All => None,
        Stop::Limit(k) => Some(k),
        Stop::Paginate(k) => Some(k),
    }
}

/// k of the stop candidate at a relation, None exactly where there is none.
pub fn stop_there(catalog: &Catalog, query: &Query, p: u8) -> Option<u16>
    requires query { IsQuery catalog.now.tables query.now }
    requires one { 1 ≤ p }
    requires there { p ≤ length query.now.relations }
    ensures { result ≡ stop_there catalog.now.tables query.now p }
{
    match stop_size(query.stop) {
        None => None,
        Some(k) => {
            if can_stop_at(catalog, query, p) {
                Some(k)
            } else {
                None
            }
        }
    }
}

/// Whether the query can stop at one of its relations.
#[tactic(auto, using(crate::proofs::Ranges::any_after))]
fn can_stop(catalog: &Catalog, query: &Query) -> bool
    requires { IsQuery catalog.now.tables query.now }
    ensures { result ≡ list_any (can_stop_at catalog.now.tables query.now)
        (range_with_len 1 (length query.now.relations)) }
{
    for p in 1..query.relations.items().len() as u8 + 1 {
        if can_stop_at(catalog, query, p) {
            return true;
        }
    }
    false
}

/// Whether the query has a candidate.
#[tactic(auto, using(crate::proofs::Having::has_whole, crate::proofs::Having::has_none, crate::proofs::Having::has_stop))]
pub fn has_candidate(catalog: &Catalog, query: &Query) -> bool
    requires { IsQuery catalog.now.tables query.now }
    ensures { result ≡ has_candidate catalog.now.tables query.now }
{
    if are_bounded(catalog, query, query.relations.items().len() as u8) {
        return true;
    }
    match stop_size(query.stop) {
        None => false,
        Some(_) => can_stop(catalog, query),
    }
}
