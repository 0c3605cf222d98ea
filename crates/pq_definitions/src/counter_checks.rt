//! What refuses a CREATE COUNTER, in the written order.
ghost use Rattle.std.specs.Prelude.{◌≡◌, ◌≤◌, length, Some, IfOk};
ghost use Rattle.pq_base.specs.Answers.{Passes};
ghost use Rattle.pq_schema.specs.Definitions.{counted_refusal, counter_refusal};
ghost use Rattle.pq_schema.specs.Schema.{find_table};

use crate::table_checks::{check_definition, counted, is_outside};
use pq_base::{Refusal, Stopped, count_word};
use pq_schema::{Catalog, CounterDef, check_names};
use std::alloc::Global;

/// The greatest number of a table's counters.
const COUNTERS: usize = 4;

/// Refuses a fifth counter of the table, an unknown and a repeated column, and no column or more than four.
fn check_counted(
    alloc: Global,
    catalog: &Catalog,
    table: u8,
    def: &CounterDef,
) -> Result<(), Stopped>
    requires from_one { 1 ≤ table }
    requires there { table ≤ length catalog.now.tables }
    ensures { Passes result (counted_refusal catalog.now def.now table) }
{
    let counters = catalog.counters_of(alloc, table)?;
    if counters.items().len() >= COUNTERS {
        return Err(counted(count_word::COUNTERS));
    }
    check_names(
        alloc,
        catalog.table(table).columns.items(),
        def.cols.items(),
    )?;
    if is_outside(def.cols.items().len(), 4) {
        return Err(counted(count_word::LIMIT_COLUMNS));
    }
    Ok(())
}

/// The number of the table whose rows are counted, where nothing refuses the counter.
pub fn check_counter(alloc: Global, catalog: &Catalog, def: &CounterDef) -> Result<u8, Stopped>
    ensures passes { Passes result (counter_refusal catalog.now def.now) }
    ensures table { IfOk result (λ table. find_table catalog.now def.now.table ≡ Some table) }
    ensures there { IfOk result (λ table. (1 ≤ table) × (table ≤ length catalog.now.tables)) }
{
    check_definition(alloc, catalog, &def.name)?;
    let Some(table) = catalog.find_table(&def.table) else {
        let name = def.table.copy(alloc)?;
        return Err(Stopped::Refused(Refusal::NoTable { name }));
    };
    check_counted(alloc, catalog, table, def)?;
    Ok(table)
}
