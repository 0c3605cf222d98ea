//! Lookups, limits and data bounds of a table.

ghost use Rattle.std.specs.Prelude.{◌≡◌, ◌==◌, ◌≤◌, ◌&&◌, length, min, position};
ghost use Rattle.std.specs.Option.{option_map_or};
ghost use Rattle.pq_schema.specs.Sound.{IsTable, IsQuery, AreColumns};
ghost use Rattle.pq_schema.specs.Tables.{is_lookup, applies, least_limit, data_bound, is_least, is_primary, first_limit, limit_of};
ghost use Rattle.pq_schema.specs.Relations.{relation_at, table_of};

use pq_base::ColSet;
use pq_schema::{Catalog, Limit, Query, Table, primary_begins};

/// The number of the table of a relation.
pub fn table_number(query: &Query, rel: u8) -> u8
    requires from_one { 1 ≤ rel }
    requires there { rel ≤ length query.now.relations }
    ensures { result ≡ (relation_at query.now rel).table }
{
    query.relations.items()[rel as usize - 1].table
}

/// The table of a relation.
pub fn table_of<'a>(catalog: &'a Catalog, query: &Query, rel: u8) -> &'a Table
    requires query { IsQuery catalog.now.tables query.now }
    requires from_one { 1 ≤ rel }
    requires there { rel ≤ length query.now.relations }
    ensures table { result.now ≡ table_of catalog.now.tables query.now rel }
    ensures sound { IsTable result.now }
{
    catalog.table(table_number(query, rel))
}

/// Whether the key lies in the fixed columns.
pub fn is_lookup(table: &Table, set: ColSet) -> bool
    requires { IsTable table.now }
    ensures { result ≡ is_lookup table.now set }
{
    ColSet::of(table.key.items()).within(set)
}

/// Whether the limit's columns lie in the fixed ones.
fn applies(limit: &Limit, set: ColSet) -> bool
    requires { AreColumns limit.now.cols }
    ensures { result ≡ applies set limit.now }
{
    ColSet::of(limit.cols.items()).within(set)
}

fn lesser(least: Option<u32>, n: u32) -> u32
    ensures { result ≡ option_map_or (λ m. min m n) least n }
{
    match least {
        None => n,
        Some(m) => m.min(n),
    }
}

/// The least n among the limits whose columns lie in the fixed ones.
#[tactic(auto, using(crate::proofs::Least::least_of_push))]
fn least_limit(table: &Table, set: ColSet) -> Option<u32>
    requires { IsTable table.now }
    ensures { result ≡ least_limit table.now set }
{
    let mut least = None;
    for limit in table.limits.items() {
        if applies(limit, set) {
            least = Some(lesser(least, limit.n));
        }
    }
    least
}

/// At most how many rows have the fixed values.
pub fn data_bound(table: &Table, set: ColSet) -> Option<u32>
    requires { IsTable table.now }
    ensures { result ≡ data_bound table.now set }
{
    if is_lookup(table, set) {
        return Some(1);
    }
    least_limit(table, set)
}

fn is_least(n: u32, set: ColSet, limit: &Limit) -> bool
    requires { AreColumns limit.now.cols }
    ensures { result ≡ is_least n set limit.now }
{
    limit.n == n && applies(limit, set)
}

/// Whether the primary sequence begins with the limit's columns.
pub fn is_primary(table: &Table, limit: &Limit) -> bool
    requires table { IsTable table.now }
    requires limit { AreColumns limit.now.cols }
    ensures { result ≡ is_primary table.now limit.now }
{
    primary_begins(table, ColSet::of(limit.cols.items()))
}

fn first_primary(table: &Table, set: ColSet, n: u32) -> Option<usize>
    requires { IsTable table.now }
    ensures { result ≡ position (λ limit. is_least n set limit && is_primary table.now limit) table.now.limits }
{
    table.limits.items().iter().position(|limit| is_least(n, set, limit)
        && is_primary(table, limit))
}

fn first_least(table: &Table, set: ColSet, n: u32) -> Option<usize>
    requires { IsTable table.now }
    ensures { result ≡ position (is_least n set) table.now.limits }
{
    table
        .limits
        .items()
        .iter()
        .position(|limit| is_least(n, set, limit))
}

fn first_limit(table: &Table, set: ColSet, n: u32) -> Option<usize>
    requires { IsTable table.now }
    ensures { result ≡ first_limit table.now set n }
{
    match first_primary(table, set, n) {
        Some(place) => Some(place),
        None => first_least(table, set, n),
    }
}

/// The number of the limit taken, from 1. None at a lookup, and where no limit's columns are fixed.
pub fn limit_of(table: &Table, set: ColSet) -> Option<u8>
    requires { IsTable table.now }
    ensures { result ≡ limit_of table.now set }
{
    if is_lookup(table, set) {
        return None;
    }
    match least_limit(table, set) {
        None => None,
        Some(n) => match first_limit(table, set, n) {
            None => None,
            Some(place) => Some(place as u8 + 1),
        },
    }
}
