//! What a CREATE COUNTER adds, or why it is refused.
ghost use Rattle.std.specs.Prelude.{IfOk, IfErr, OnErr, ◌≡◌, ◌≤◌, length};
ghost use Rattle.pq_base.specs.Answers.{Refuses};
ghost use Rattle.pq_schema.specs.ColumnNames.{places_of};
ghost use Rattle.pq_schema.specs.Definitions.{new_counter, AddsCounter};
ghost use Rattle.pq_schema.specs.Names.{IsCounterDef};
ghost use Rattle.pq_schema.specs.Tables.{table_at};

use crate::counter_checks::check_counter;
use pq_base::{List, NoMem, PText, Stopped};
use pq_schema::{Catalog, Counter, CounterDef, places_of};
use std::alloc::Global;

/// The places of the table's columns of these names.
fn counted_cols(
    alloc: Global,
    catalog: &Catalog,
    table: u8,
    names: &[PText],
) -> Result<List<u8>, NoMem>
    requires from_one { 1 ≤ table }
    requires there { table ≤ length catalog.now.tables }
    ensures { IfOk result (λ cols. cols ≡ places_of (table_at catalog.now.tables table).columns names.now) }
{
    catalog.known();
    places_of(alloc, catalog.table(table).columns.items(), names)
}

/// Adds the counter, and answers the number of its definition, from 1. The first refusal in this order:
/// too many definitions, a name that is taken, an unknown table, a fifth counter of the table, an unknown
/// and a repeated column, and the number of columns. Whether the table has rows is not asked. After an
/// error the catalog is as before.
#[tactic(auto, unfolding(pq_schema::specs::Definitions::new_counter))]
pub fn add_counter(alloc: Global, catalog: &mut Catalog, def: CounterDef) -> Result<u16, Stopped>
    requires { IsCounterDef def }
    ensures added { IfOk result (AddsCounter catalog.old def catalog.new) }
    ensures refused { IfErr result (λ stopped. Refuses stopped (new_counter catalog.old def)) }
    ensures kept { OnErr result (catalog.new ≡ catalog.old) }
{
    catalog.known();
    let table = check_counter(alloc, catalog, &def)?;
    let cols = counted_cols(alloc, catalog, table, def.cols.items())?;
    let name = def.name;
    catalog.push_counter(Counter { name, table, cols })?;
    Ok(catalog.defs())
}
