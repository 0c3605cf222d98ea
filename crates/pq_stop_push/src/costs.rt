//! What reading relations costs.

ghost use Rattle.std.specs.Prelude.{◌≡◌, ℕ, suc, ◌+◌, ◌^◌, ◌≤◌, length, is_some, unwrap_or};
ghost use Rattle.std.specs.List.{list_all, range_with_len};
ghost use Rattle.pq_schema.specs.Sound.{IsTable, IsQuery};
ghost use Rattle.pq_schema.specs.Candidates.{read_cost, bound_at, reached_after, read_next, are_bounded};
ghost use Rattle.pq_plan.specs.Totals.{reached_total, IsLow, Below};

use pq_base::{Bound, ColSet};
use pq_plan::{Total, limit_cost, read_each};
use pq_predicates::{data_bound, fixed, is_lookup, is_primary, limit_of, table_of};
use pq_schema::{Catalog, Query, Table};

/// The cost of reading a relation, for each input.
fn read_cost(table: &Table, set: ColSet) -> Bound
    requires { IsTable table.now }
    ensures cost { result ≡ read_cost table.now set }
    ensures ops { result.ops ≤ 10001 }
    ensures entries { result.entries ≤ 20000 }
{
    if is_lookup(table, set) {
        return Bound { ops: 1, entries: 1 };
    }
    match limit_of(table, set) {
        None => Bound { ops: 0, entries: 0 },
        Some(number) => {
            let limit = &table.limits.items()[number as usize - 1];
            limit_cost(is_primary(table, limit), limit.n)
        }
    }
}

/// The data bound of a relation.
pub fn bound_at(catalog: &Catalog, query: &Query, rel: u8) -> Option<u32>
    requires query { IsQuery catalog.now.tables query.now }
    requires one { 1 ≤ rel }
    requires there { rel ≤ length query.now.relations }
    ensures bound { result ≡ bound_at catalog.now.tables query.now rel }
    ensures small { unwrap_or result 0 ≤ 10000 }
{
    data_bound(table_of(catalog, query, rel), fixed(query, rel))
}

fn size_at(catalog: &Catalog, query: &Query, rel: u8) -> u32
    requires query { IsQuery catalog.now.tables query.now }
    requires one { 1 ≤ rel }
    requires there { rel ≤ length query.now.relations }
    ensures size { result ≡ unwrap_or (bound_at catalog.now.tables query.now rel) 0 }
    ensures small { result ≤ 10000 }
{
    match bound_at(catalog, query, rel) {
        None => 0,
        Some(n) => n,
    }
}

/// The total after one more relation.
fn read_next(catalog: &Catalog, query: &Query, total: Total, rel: u8) -> Total
    requires query { IsQuery catalog.now.tables query.now }
    requires one { 1 ≤ rel }
    requires there { rel ≤ length query.now.relations }
    requires low { IsLow total }
    ensures total { reached_total result ≡ read_next catalog.now.tables query.now (reached_total total) rel }
    ensures below { (k : ℕ) → Below (30000 ^ k) (reached_total total) → Below (30000 ^ suc k) (reached_total result) }
{
    let size = size_at(catalog, query, rel);
    let cost = read_cost(table_of(catalog, query, rel), fixed(query, rel));
    read_each(size, cost, total)
}

/// Whether each of the first relations has a data bound.
#[tactic(auto, using(crate::proofs::Ranges::all_after))]
pub fn are_bounded(catalog: &Catalog, query: &Query, count: u8) -> bool
    requires query { IsQuery catalog.now.tables query.now }
    requires there { count ≤ length query.now.relations }
    ensures { result ≡ are_bounded catalog.now.tables query.now count }
{
    for rel in 1..count + 1 {
        if bound_at(catalog, query, rel).is_none() {
            return false;
        }
    }
    true
}

/// The total after the first relations, as many as are said.
pub fn reached_after(catalog: &Catalog, query: &Query, count: u8) -> Total
    requires query { IsQuery catalog.now.tables query.now }
    requires there { count ≤ length query.now.relations }
    ensures total { reached_total result ≡ reached_after catalog.now.tables query.now count }
    ensures low { IsLow result }
{
    let mut total = Total {
        inputs: 1,
        cost: Bound { ops: 0, entries: 0 },
    };
    for rel in 1..count + 1 {
        total = read_next(catalog, query, total, rel);
    }
    total
}
