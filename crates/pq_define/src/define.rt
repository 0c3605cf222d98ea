//! Definitions: each is one write of its pair, whose key has to be absent.
ghost use Rattle.std.specs.Prelude.{◌≡◌, ◌≤◌, ◌+◌, MatchResult, true, None, Ok, length, IfOk, IfErr, IfSome, OnOk, OnErr};
ghost use Rattle.std.specs.FinMap.{get as value_at_key};
ghost use Rattle.pq_store.specs.Content.{HasBrokeCause};
ghost use Rattle.pq_store.specs.Counts.{charged_counts};
ghost use Rattle.pq_reports.specs.Putting.{PutsNew, MayPut};
ghost use Rattle.pq_store.specs.Breaks.{IfDamaged, IsPresent, IsUndamaged, IsAnswered};
ghost use Rattle.pq_intent.specs.Changing.{IfDamagedSame};
ghost use Rattle.pq_intent.specs.Spending.{TakesAtMost};
ghost use Rattle.pq_reports.specs.Promise.{Promises};
ghost use Rattle.pq_reports.specs.Reports.{define_report};
ghost use Rattle.pq_catalog.specs.Kept.{IsPlanWanting};
ghost use Rattle.pq_statement.specs.Actions.{Creates, Prepares, action_from};
ghost use Rattle.pq_planning.specs.Planning.{planned_definition};
ghost use Rattle.pq_schema.specs.Candidates.{Candidate};
ghost use Rattle.pq_schema.specs.Definitions.{new_table};
ghost use Rattle.pq_schema.specs.Valid.{IsDefined};
ghost use Rattle.pq_builds.specs.Bounds.{bound};
ghost use Rattle.pq_planning.specs.Lines.{query_lines};
ghost use Rattle.pq_catalog.specs.Stands.{last_key, last_value};
ghost use Rattle.pq_schema.specs.Names.{IsTableDef};

use pq_base::{Bytes, List, NoMem};
use pq_builds::READY;
use pq_catalog::{PlannedCatalog, last_format};
use pq_key_code::catalog_key;
use pq_plan::BoundedPlan;
use pq_print::{Line, Report, print_definition};
use pq_reports::{define_report, lines_of, unread_report};
use pq_schema::{Catalog, Query, TableDef};
use pq_store::{Broke, Damage, Guard, Meter, Pair, Store};
use std::alloc::Global;
use std::sync::ledger::Ledger;

/// The pair of the last definition: the format, the mark that it is ready, and its canonical text.
fn last_pair(alloc: Global, catalog: &Catalog) -> Result<Pair, NoMem>
    requires { 1 ≤ length catalog.now.definitions }
    ensures key { IfOk result (λ pair. pair.key ≡ last_key catalog.now) }
    ensures value { IfOk result (λ pair. pair.value ≡ last_value catalog.now) }
{
    let number = catalog.defs();
    let text = print_definition(alloc, catalog, number)?;
    let mut value = Bytes::of_bytes(alloc, &[last_format(catalog), READY])?;
    value.extend(alloc, text.bytes())?;
    Ok(Pair {
        key: catalog_key(alloc, number)?,
        value,
    })
}

/// The damage of a key that has a value and had to be absent.
fn present(key: Bytes) -> Damage
    ensures key { result.key ≡ key }
    ensures value { result.value ≡ None }
{
    Damage { key, value: None }
}

/// Writes a pair whose key has to be absent.
fn put_absent<S: Store<L>, L: Ledger>(
    alloc: Global,
    pair: Pair,
    store: &mut S,
    meter: &mut Meter<L>,
) -> Result<(), Broke>
    ensures put { OnOk result (PutsNew true pair.key pair.value (S.content store.old) (S.content store.new)) }
    ensures stopped { OnErr result (MayPut pair.key pair.value (S.content store.old) (S.content store.new)) }
    ensures damage { IfErr result (λ broke. IfSome (S.content store.old)
        (λ pairs. value_at_key pairs pair.key ≡ None → IsUndamaged broke)) }
    ensures meter { OnOk result (meter.new ≡ charged_counts meter.old 0) }
    ensures within { TakesAtMost (bound 1 0) meter.old meter.new }
    ensures shown { IfErr result (λ broke. IfSome (S.content store.old)
        (λ pairs. IfDamaged (IsPresent pair.key pairs) broke)) }
    ensures kept { IfErr result (IfDamagedSame (S.content store.old) (S.content store.new)) }
    ensures rounds { S.rounds store.new ≤ S.rounds store.old + 1 }
    ensures cause { HasBrokeCause (S.faults store.old) (S.faults store.new) result }
    ensures answered { IfErr result (IsAnswered S.answers) }
{
    let Pair { key, value } = pair;
    match store.write(
        alloc,
        key.items(),
        Guard::Absent,
        Some(value.items()),
        meter,
    ) {
        Err(error) => Err(Broke::from(error)),
        Ok(true) => Ok(()),
        Ok(false) => Err(Broke::Damaged(present(key))),
    }
}

/// Writes the pair of the last definition, whose key has to be absent.
pub(crate) fn put_last<S: Store<L>, L: Ledger>(
    alloc: Global,
    planned: &PlannedCatalog,
    store: &mut S,
    meter: &mut Meter<L>,
) -> Result<(), Broke>
    requires { 1 ≤ length planned.now.definitions }
    ensures put { OnOk result (PutsNew true (last_key planned.now) (last_value planned.now) (S.content store.old)
        (S.content store.new)) }
    ensures stopped { OnErr result (MayPut (last_key planned.now) (last_value planned.now) (S.content store.old)
        (S.content store.new)) }
    ensures damage { IfErr result (λ broke. IfSome (S.content store.old)
        (λ pairs. value_at_key pairs (last_key planned.now) ≡ None → IsUndamaged broke)) }
    ensures meter { OnOk result (meter.new ≡ charged_counts meter.old 0) }
    ensures within { TakesAtMost (bound 1 0) meter.old meter.new }
    ensures shown { IfErr result (λ broke. IfSome (S.content store.old)
        (λ pairs. IfDamaged (IsPresent (last_key planned.now) pairs) broke)) }
    ensures kept { IfErr result (IfDamagedSame (S.content store.old) (S.content store.new)) }
    ensures rounds { S.rounds store.new ≤ S.rounds store.old + 1 }
    ensures cause { HasBrokeCause (S.faults store.old) (S.faults store.new) result }
    ensures answered { IfErr result (IsAnswered S.answers) }
{
    let pair = last_pair(alloc, planned.catalog())?;
    put_absent(alloc, pair, store, meter)
}

/// Writes the pair of the last definition, and reports it with these lines.
pub(crate) fn write_last<S: Store<L>, L: Ledger>(
    alloc: Global,
    planned: PlannedCatalog,
    number: u32,
    lines: List<Line>,
    store: &mut S,
    meter: &mut Meter<L>,
) -> Result<(PlannedCatalog, Report), Broke>
    requires { 1 ≤ length planned.definitions }
    ensures done { IfOk result (λ made. (made.0 ≡ planned) × (made.1 ≡ define_report number lines)) }
    ensures put { OnOk result (PutsNew true (last_key planned) (last_value planned) (S.content store.old)
        (S.content store.new)) }
    ensures stopped { OnErr result (MayPut (last_key planned) (last_value planned) (S.content store.old)
        (S.content store.new)) }
    ensures damage { IfErr result (λ broke. IfSome (S.content store.old)
        (λ pairs. value_at_key pairs (last_key planned) ≡ None → IsUndamaged broke)) }
    ensures meter { OnOk result (meter.new ≡ charged_counts meter.old 0) }
    ensures within { TakesAtMost (bound 1 0) meter.old meter.new }
    ensures shown { IfErr result (λ broke. IfSome (S.content store.old)
        (λ pairs. IfDamaged (IsPresent (last_key planned) pairs) broke)) }
    ensures kept { IfErr result (IfDamagedSame (S.content store.old) (S.content store.new)) }
    ensures rounds { S.rounds store.new ≤ S.rounds store.old + 1 }
    ensures cause { HasBrokeCause (S.faults store.old) (S.faults store.new) result }
    ensures answered { IfErr result (IsAnswered S.answers) }
{
    put_last(alloc, &planned, store, meter)?;
    Ok((planned, define_report(number, lines)))
}

/// Defines a table, where nothing refuses it.
pub fn create<S: Store<L>, L: Ledger>(
    alloc: Global,
    planned: PlannedCatalog,
    number: u32,
    def: TableDef,
    store: &mut S,
    meter: &mut Meter<L>,
) -> Result<(PlannedCatalog, Report), Broke>
    requires { IsTableDef def }
    ensures step { Promises number (action_from Creates (new_table planned def)) (S.content store.old)
        (S.content store.new) planned meter.old meter.new result }
    ensures rounds { MatchResult (new_table planned def) (λ table. S.rounds store.new ≤ S.rounds store.old + 1)
        (λ why. S.rounds store.new ≤ S.rounds store.old) }
    ensures cause { HasBrokeCause (S.faults store.old) (S.faults store.new) result }
    ensures answered { IfErr result (IsAnswered S.answers) }
{
    let (planned, made) = planned.with_table_of(alloc, def)?;
    match made {
        Err(why) => Ok((planned, unread_report(alloc, number, why))),
        Ok(table) => {
            let lines = lines_of(alloc, &planned, table)?;
            write_last(alloc, planned, number, lines, store, meter)
        }
    }
}

/// Defines a query that wants no index.
pub fn write_query<S: Store<L>, L: Ledger>(
    alloc: Global,
    planned: PlannedCatalog,
    number: u32,
    lines: List<Line>,
    query: Query,
    plan: BoundedPlan,
    store: &mut S,
    meter: &mut Meter<L>,
) -> Result<(PlannedCatalog, Report), Broke>
    requires defined { IsDefined planned query None }
    requires compiled { IsPlanWanting planned.tables query plan None }
    ensures step { (best : Candidate) → lines ≡ query_lines planned.tables (planned_definition query best None)
        → Promises number (Ok (Prepares (planned_definition query best None))) (S.content store.old)
        (S.content store.new) planned meter.old meter.new result }
    ensures rounds { S.rounds store.new ≤ S.rounds store.old + 1 }
    ensures cause { HasBrokeCause (S.faults store.old) (S.faults store.new) result }
    ensures answered { IfErr result (IsAnswered S.answers) }
{
    let planned = planned.with_defined(alloc, query, plan, None)?;
    write_last(alloc, planned, number, lines, store, meter)
}
