//! CREATE COUNTER: a counter is over a table without rows, and its definition comes behind the others.
ghost use Rattle.std.specs.Prelude.{◌≡◌, ◌≤◌, ◌+◌, Ok, length, min, IfErr, IfOk, IfSome, MatchResult, OnErr};
ghost use Rattle.pq_base.specs.Answers.{Passes};
ghost use Rattle.pq_base.specs.declared.refusal.Refusal.TheVariants as Refusal;
ghost use Rattle.pq_builds.specs.Filling.{row_pairs_in};
ghost use Rattle.pq_builds.specs.Stages.{Takes};
ghost use Rattle.pq_schema.specs.Definitions.{counted_schema, counted_table, counter_refusal, new_counter};
ghost use Rattle.pq_schema.specs.Names.{IsCounterDef};
ghost use Rattle.pq_store.specs.Breaks.{IsAnswered, IsUndamaged};
ghost use Rattle.pq_store.specs.Content.{HasBrokeCause};
ghost use Rattle.pq_statement.specs.Actions.{Counts, action_from};
ghost use Rattle.pq_reports.specs.Promise.{Promises};

use crate::define::put_last;
use pq_base::{Refusal, Stopped};
use pq_builds::{first_key, past_key};
use pq_catalog::PlannedCatalog;
use pq_definitions::check_counter;
use pq_print::Report;
use pq_reports::{counter_report, crowded_report, unread_report};
use pq_schema::CounterDef;
use pq_store::{Broke, Meter, Store};
use std::alloc::Global;
use std::sync::ledger::Ledger;

/// How many rows a table has, of which one is counted at most.
fn count_one<S: Store<L>, L: Ledger>(
    alloc: Global,
    table: u8,
    store: &mut S,
    meter: &mut Meter<L>,
) -> Result<u32, Broke>
    ensures counted { IfOk result (λ n. IfSome (S.content store.old) (λ c. n ≡ min 1 (length (row_pairs_in table c)))) }
    ensures few { IfOk result (λ n. n ≤ 1) }
    ensures same { S.content store.new ≡ S.content store.old }
    ensures sound { IfErr result IsUndamaged }
    ensures takes { IfOk result (λ n. Takes 1 n meter.old meter.new) }
    ensures few_ops { meter.new.ops ≤ meter.old.ops + 1 }
    ensures none { OnErr result (meter.new.entries ≡ meter.old.entries) }
    ensures rounds { S.rounds store.new ≤ S.rounds store.old + 1 }
    ensures cause { HasBrokeCause (S.faults store.old) (S.faults store.new) result }
    ensures answered { IfErr result (IsAnswered S.answers) }
{
    let low = first_key(alloc, table)?;
    let high = past_key(alloc, table)?;
    match store.count(alloc, low.items(), high.items(), 1, meter) {
        Ok(n) => Ok(n),
        Err(error) => Err(Broke::from(error)),
    }
}

/// The refusal of a counter over a table with rows.
fn not_empty(def: CounterDef) -> Refusal
    ensures { result ≡ Refusal.NotEmpty def.table }
{
    let CounterDef { table, .. } = def;
    Refusal::NotEmpty { table }
}

/// The number of the table whose rows are counted, where nothing refuses the counter.
fn counted_table(alloc: Global, planned: &PlannedCatalog, def: &CounterDef) -> Result<u8, Stopped>
    ensures passes { Passes result (counter_refusal planned.now def.now) }
    ensures table { IfOk result (λ table. counted_table planned.now def.now ≡ table) }
{
    check_counter(alloc, planned.catalog(), def)
}

/// Defines a counter, where nothing refuses it.
pub fn create_counter<S: Store<L>, L: Ledger>(
    alloc: Global,
    planned: PlannedCatalog,
    number: u32,
    def: CounterDef,
    store: &mut S,
    meter: &mut Meter<L>,
) -> Result<(PlannedCatalog, Report), Broke>
    requires { IsCounterDef def }
    ensures step { Promises number (action_from (λ next. Counts def) (new_counter planned def))
        (S.content store.old) (S.content store.new) planned meter.old meter.new result }
    ensures rounds { MatchResult (new_counter planned def) (λ next. S.rounds store.new ≤ S.rounds store.old + 2)
        (λ why. S.rounds store.new ≤ S.rounds store.old) }
    ensures cause { HasBrokeCause (S.faults store.old) (S.faults store.new) result }
    ensures answered { IfErr result (IsAnswered S.answers) }
{
    match counted_table(alloc, &planned, &def) {
        Err(Stopped::NoMem) => Err(Broke::NoMem),
        Err(Stopped::Refused(why)) => Ok((planned, unread_report(alloc, number, why))),
        Ok(table) => count_over(alloc, planned, number, table, def, store, meter),
    }
}

/// Defines a counter that only its table's rows can refuse.
fn count_over<S: Store<L>, L: Ledger>(
    alloc: Global,
    planned: PlannedCatalog,
    number: u32,
    table: u8,
    def: CounterDef,
    store: &mut S,
    meter: &mut Meter<L>,
) -> Result<(PlannedCatalog, Report), Broke>
    requires names { IsCounterDef def }
    requires accepted { new_counter planned def ≡ Ok (counted_schema planned def) }
    requires table { counted_table planned def ≡ table }
    ensures step { Promises number (Ok (Counts def)) (S.content store.old) (S.content store.new) planned
        meter.old meter.new result }
    ensures rounds { S.rounds store.new ≤ S.rounds store.old + 2 }
    ensures cause { HasBrokeCause (S.faults store.old) (S.faults store.new) result }
    ensures answered { IfErr result (IsAnswered S.answers) }
{
    let count = count_one(alloc, table, store, meter)?;
    if count > 0 {
        return Ok((planned, crowded_report(alloc, number, not_empty(def))));
    }
    let planned = planned.with_counted(alloc, def)?;
    put_last(alloc, &planned, store, meter)?;
    Ok((planned, counter_report(alloc, number)))
}
