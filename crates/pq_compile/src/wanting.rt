//! The index that a candidate wants.

ghost use Rattle.std.specs.Prelude.{◌≡◌, ◌≤◌, length};
ghost use Rattle.pq_base.specs.Answers.{Answers};
ghost use Rattle.pq_schema.specs.Sound.{IsQuery, AreRefs};
ghost use Rattle.pq_schema.specs.Relations.{tied_set, order_rest};
ghost use Rattle.pq_plan.specs.Plans.{HasChoice};
ghost use Rattle.pq_index_pick.specs.Needs.{IsNeed};
ghost use Rattle.pq_schema.specs.Wanted.{index_at, index_of};

use pq_base::{Choice, Refusal, Stopped, count_word};
use pq_index_pick::{Need, new_index, serving};
use pq_predicates::{fixed, order_rest, table_number, table_of};
use pq_schema::{Catalog, NewIndex, Query};
use std::alloc::Global;

/// The greatest number of indexes of a table.
const INDEXES: usize = 16;

/// What a stop at the relation asks of a sequence.
pub fn need_at(alloc: Global, query: &Query, p: u8) -> Need
    requires { AreRefs query.now }
    ensures fixed { result.fixed ≡ tied_set query.now p }
    ensures order { result.order.items ≡ order_rest query.now p }
    ensures need { IsNeed result }
{
    Need {
        fixed: fixed(query, p),
        order: order_rest(alloc, query, p),
    }
}

/// The index that a stop at the relation wants, where no sequence serves.
fn index_at(
    alloc: Global,
    catalog: &Catalog,
    query: &Query,
    p: u8,
) -> Result<Option<NewIndex>, Stopped>
    requires query { IsQuery catalog.now.tables query.now }
    requires one { 1 ≤ p }
    requires there { p ≤ length query.now.relations }
    ensures { Answers result (index_at catalog.now.tables query.now p) }
{
    let table = table_of(catalog, query, p);
    let need = need_at(alloc, query, p);
    if serving(table, &need).is_some() {
        return Ok(None);
    }
    let count = table.indexes.items().len();
    if INDEXES <= count {
        return Err(Stopped::Refused(Refusal::Count {
            word: count_word::INDEXES,
        }));
    }
    let index = new_index(alloc, table, &need)?;
    Ok(Some(NewIndex {
        table: table_number(query, p),
        number: count as u8 + 1,
        index,
    }))
}

/// The index that a candidate wants.
pub fn index_of(
    alloc: Global,
    catalog: &Catalog,
    query: &Query,
    choice: Choice,
) -> Result<Option<NewIndex>, Stopped>
    requires query { IsQuery catalog.now.tables query.now }
    requires choice { HasChoice catalog.now.tables query.now choice }
    ensures { Answers result (index_of catalog.now.tables query.now choice) }
{
    match choice {
        Choice::Whole => Ok(None),
        Choice::Stop(p) => index_at(alloc, catalog, query, p),
    }
}
