//! Which relations a foreign key ties whole.

ghost use Rattle.std.specs.Prelude.{◌≡◌, ◌==◌, ◌&&◌, ◌≤◌, length, zip};
ghost use Rattle.std.specs.List.{list_any, list_all};
ghost use Rattle.pq_schema.specs.Sound.{IsQuery};
ghost use Rattle.pq_schema.specs.Tables.{have_no_null};
ghost use Rattle.pq_schema.specs.Relations.{relation_at, table_of, is_column, spells, is_spelt, spells_one, is_whole, is_tied, is_total};

use crate::relations::belongs_to;
use crate::tables::{table_number, table_of};
use pq_base::Op;
use pq_schema::{Catalog, Column, Foreign, Operand, Pred, Query, type_at};

fn is_column(operand: &Operand, rel: u8, col: u8) -> bool
    ensures { result ≡ is_column operand.now rel col }
{
    match operand {
        Operand::Col(other) => other.rel == rel && other.col == col,
        Operand::Const(_) | Operand::Param(_) => false,
    }
}

fn spells(pred: &Pred, rel: u8, earlier: u8, child: u8, parent: u8) -> bool
    ensures { result ≡ spells rel earlier pred.now (child, parent) }
{
    pred.op == Op::Eq
        && pred.left.rel == rel
        && pred.left.col == parent
        && is_column(&pred.right, earlier, child)
}

fn is_spelt(query: &Query, rel: u8, earlier: u8, child: u8, parent: u8) -> bool
    ensures { result ≡ is_spelt query.now rel earlier (child, parent) }
{
    query
        .preds
        .items()
        .iter()
        .any(|pred| spells(pred, rel, earlier, child, parent))
}

fn spells_some(pred: &Pred, rel: u8, earlier: u8, cols: &[u8], key: &[u8]) -> bool
    ensures { result ≡ list_any (spells rel earlier pred.now) (zip cols.now key.now) }
{
    cols.iter().copied().zip(key.iter().copied()).any(|(child, parent)| spells(
        pred, rel, earlier, child, parent,
    ))
}

fn all_spelt(query: &Query, rel: u8, earlier: u8, cols: &[u8], key: &[u8]) -> bool
    ensures { result ≡ list_all (is_spelt query.now rel earlier) (zip cols.now key.now) }
{
    cols.iter().copied().zip(key.iter().copied()).all(|(child, parent)| is_spelt(
        query, rel, earlier, child, parent,
    ))
}

fn spells_one(pred: &Pred, rel: u8, earlier: u8, cols: &[u8], key: &[u8]) -> bool
    ensures { result ≡ spells_one rel earlier (zip cols.now key.now) pred.now }
{
    belongs_to(pred) != rel || spells_some(pred, rel, earlier, cols, key)
}

fn all_spell_one(query: &Query, rel: u8, earlier: u8, cols: &[u8], key: &[u8]) -> bool
    ensures { result ≡ list_all (spells_one rel earlier (zip cols.now key.now)) query.now.preds }
{
    query
        .preds
        .items()
        .iter()
        .all(|pred| spells_one(pred, rel, earlier, cols, key))
}

fn is_whole(query: &Query, rel: u8, earlier: u8, cols: &[u8], key: &[u8]) -> bool
    ensures { result ≡ is_whole query.now rel earlier (zip cols.now key.now) }
{
    all_spelt(query, rel, earlier, cols, key) && all_spell_one(query, rel, earlier, cols, key)
}

fn have_no_null(columns: &[Column], cols: &[u8]) -> bool
    ensures { result ≡ have_no_null columns.now cols.now }
{
    cols.iter().all(|col| !type_at(columns, *col).is_nullable())
}

fn ties_by(
    foreign: &Foreign,
    columns: &[Column],
    query: &Query,
    rel: u8,
    earlier: u8,
    number: u8,
    key: &[u8],
) -> bool
    ensures { result ≡ (foreign.now.table == number && have_no_null columns.now foreign.now.cols
        && is_whole query.now rel earlier (zip foreign.now.cols key.now)) }
{
    let cols = foreign.cols.items();
    foreign.table == number
        && have_no_null(columns, cols)
        && is_whole(query, rel, earlier, cols, key)
}

fn some_ties(
    foreign: &[Foreign],
    columns: &[Column],
    query: &Query,
    rel: u8,
    earlier: u8,
    number: u8,
    key: &[u8],
) -> bool
    ensures { result ≡ list_any (λ one. one.table == number && have_no_null columns.now one.cols
        && is_whole query.now rel earlier (zip one.cols key.now)) foreign.now }
{
    foreign.iter().any(|one| ties_by(one, columns, query, rel, earlier, number, key))
}

fn is_tied(catalog: &Catalog, query: &Query, rel: u8, earlier: u8) -> bool
    requires query { IsQuery catalog.now.tables query.now }
    requires one { 1 ≤ earlier }
    requires before { earlier ≤ rel }
    requires there { rel ≤ length query.now.relations }
    ensures { result ≡ is_tied catalog.now.tables query.now rel earlier }
{
    let number = table_number(query, rel);
    let table = table_of(catalog, query, rel);
    let other = table_of(catalog, query, earlier);
    some_ties(
        other.foreign.items(),
        other.columns.items(),
        query,
        rel,
        earlier,
        number,
        table.key.items(),
    )
}

/// Whether a foreign key of an earlier relation is spelt whole, and nothing else belongs to this one.
#[tactic(auto, using(crate::proofs::Ranges::any_after))]
pub fn is_total(catalog: &Catalog, query: &Query, rel: u8) -> bool
    requires query { IsQuery catalog.now.tables query.now }
    requires one { 1 ≤ rel }
    requires there { rel ≤ length query.now.relations }
    ensures { result ≡ is_total catalog.now.tables query.now rel }
{
    for earlier in 1..rel {
        if is_tied(catalog, query, rel, earlier) {
            return true;
        }
    }
    false
}
