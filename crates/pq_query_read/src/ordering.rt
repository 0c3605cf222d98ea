//! ORDER BY, and how many rows are wanted.
ghost use Rattle.std.specs.Prelude.{◌≡◌};
ghost use Rattle.std.specs.List.{list_any};
ghost use Rattle.pq_base.specs.Answers.{Answers};
ghost use Rattle.pq_query_read.specs.Columns.{AreRelations};
ghost use Rattle.pq_query_read.specs.Resolving.{has_ref, ref_name, item_of, items_of, limit_size, stop_of};

use crate::columns::column;
use crate::select::{ItemDef, RefDef, StopDef};
use pq_base::{List, PText, Refusal, Stopped, count_word};
use pq_schema::{Catalog, ColRef, OrderItem, Relation, Stop};
use std::alloc::Global;

/// The greatest number of rows that LIMIT and PAGINATE name.
const ROWS: i64 = 1000;

fn is_among(items: &[OrderItem], col: ColRef) -> bool
    ensures { result ≡ list_any (has_ref col) items.now }
{
    items
        .iter()
        .any(|item| item.col.rel == col.rel && item.col.col == col.col)
}

/// The column's name without its alias.
fn ref_name(def: &RefDef) -> &PText
    ensures { result.now ≡ ref_name def.now.first def.now.second }
{
    match &def.second {
        Some(name) => name,
        None => &def.first,
    }
}

/// The column behind these.
fn item(
    alloc: Global,
    catalog: &Catalog,
    relations: &[Relation],
    before: &[OrderItem],
    def: &ItemDef,
) -> Result<OrderItem, Stopped>
    requires { AreRelations catalog.now.tables relations.now }
    ensures { Answers result (item_of catalog.now.tables relations.now before.now def.now) }
{
    let col = column(alloc, catalog, relations, &def.col)?;
    if is_among(before, col) {
        let name = ref_name(&def.col).copy(alloc)?;
        return Err(Stopped::Refused(Refusal::Repeated { name }));
    }
    Ok(OrderItem { col, dir: def.dir })
}

/// The columns of ORDER BY, or the first refusal of one.
pub fn order(
    alloc: Global,
    catalog: &Catalog,
    relations: &[Relation],
    defs: &[ItemDef],
) -> Result<List<OrderItem>, Stopped>
    requires { AreRelations catalog.now.tables relations.now }
    ensures { Answers result (items_of catalog.now.tables relations.now defs.now) }
{
    let mut items = List::new(alloc);
    for def in defs {
        let next = item(alloc, catalog, relations, items.items(), def)?;
        items.push(alloc, next)?;
    }
    Ok(items)
}

/// The number of rows, where it is from 1 to 1,000.
fn stop_size(number: i64) -> Option<u16>
    ensures { result ≡ limit_size number }
{
    if 1 <= number && number <= ROWS {
        Some(number as u16)
    } else {
        None
    }
}

/// How many rows are wanted; a number outside its limit is refused.
pub fn stop(def: &StopDef) -> Result<Stop, Stopped>
    ensures { Answers result (stop_of def.now) }
{
    let made = match def {
        StopDef::All => Some(Stop::All),
        StopDef::Limit(number) => stop_size(*number).map(Stop::Limit),
        StopDef::Paginate(number) => stop_size(*number).map(Stop::Paginate),
    };
    made.ok_or(Stopped::Refused(Refusal::Count {
        word: count_word::STOP,
    }))
}
