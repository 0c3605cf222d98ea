//! What an UPDATE changes.
ghost use Rattle.std.specs.Prelude.{◌≡◌, ◌≤◌, ◌<◌, ◌+◌, All, Some, None, length, slice_set, IfOk, IfErr, IfSome, IfNone};
ghost use Rattle.std.specs.List.{AllByRecursion};
ghost use Rattle.pq_base.specs.Values.{AllFit};
ghost use Rattle.pq_content.specs.Tables.{IsTableNumber, key_types, stored_code};
ghost use Rattle.pq_calls.specs.Evidence.{IsNoRow};
ghost use Rattle.pq_calls.specs.World.{no_damage, where_told};
ghost use Rattle.pq_pending.specs.Calls.{seen};
ghost use Rattle.pq_index_keep.specs.Bounds.{row_behind, tested_limits, tested_behind};
ghost use Rattle.pq_index_keep.specs.Checking.{long_refusal};
ghost use Rattle.pq_index_keep.specs.Effects.{sum_refusal};
ghost use Rattle.pq_index_keep.specs.Keyed.{keyed_table, IsHeldAt};
ghost use Rattle.pq_index_keep.specs.Needs.{HasTests, IsCodable};
ghost use Rattle.pq_index_keep.specs.NewRows.{tests_of, update_refusal_of, NoneHolds, IsRefusedAs};
ghost use Rattle.pq_index_keep.specs.Promises.{IsPlanWhere, IsHeldPlan, IsPlannedWrite, IsNewFor};
ghost use Rattle.pq_index_keep.specs.Refusals.{IsUpdateRefusal};
ghost use Rattle.pq_index_keep.specs.Rounds.{test_rounds};
ghost use Rattle.pq_index_keep.specs.Sound.{AreWritable, IsSet, IsUpdate};
ghost use Rattle.pq_index_keep.specs.Spending.{CanSpend, Spends, SpendsOnRow, Stops};
ghost use Rattle.pq_index_keep.specs.Tested.{scope_of, with_sets};

use crate::changes::updates;
use crate::held::{held_refusal, set_value};
use crate::plan::{KeyedRow, Planned, PlannedWrite, find_row, no_row, table_of};
use crate::refusals::tested_refusal;
use crate::write::{Cond, NewRow, Scope, SetCol, Write};
use pq_base::{Bytes, List, NoMem, Refusal, Row, Value};
use pq_calls::StoredRow;
use pq_pending::PendingCalls;
use pq_row_code::stored_code_len;
use pq_schema::{Catalog, Table};
use pq_store::{Broke, Store};
use std::alloc::Global;
use std::sync::ledger::Ledger;

fn put_value(row: Row, col: u8, value: Value) -> Row
    requires { col < length row }
    ensures { result ≡ slice_set row col value }
{
    let mut held = row.into_vec();
    held[col as usize] = value;
    List::from_vec(held)
}

/// The row with each column set to what it gets, of the row that is there; FALSE where an ADD has no sum, which
/// `sum_refusal` tells.
pub fn with_sets(alloc: Global, row: &Row, sets: &[SetCol]) -> Result<Row, NoMem>
    requires { All (λ set. set.col < length row.now) sets.now }
    ensures { IfOk result (λ new. new ≡ with_sets sets.now row.now) }
{
    let mut new = row.copy(alloc)?;
    for set in sets {
        let value = set_value(alloc, row, set)?;
        new = put_value(new, set.col, value);
    }
    Ok(new)
}

fn new_row(alloc: Global, row: &Row, sets: &List<SetCol>) -> Result<Row, NoMem>
    requires { All (λ set. set.col < length row.now) sets.now }
    ensures { IfOk result (λ new. new ≡ with_sets sets.now row.now) }
{
    with_sets(alloc, row, sets.items())
}

fn scope_of(sets: &List<SetCol>) -> Scope
    requires { All (λ set. set.col < 32) sets.now }
    ensures { result ≡ scope_of sets.now }
{
    Scope::of(sets.items())
}

/// The refusal of a row whose code is too long.
fn long_refusal(alloc: Global, table: &Table, row: &Row) -> Result<Option<Refusal>, NoMem>
    requires row { IsCodable row.now }
    ensures { IfOk result (λ refusal. refusal ≡ long_refusal table.now row.now) }
{
    let length = stored_code_len(row, &table.fillers);
    if 4096 < length {
        let table = table.name.copy(alloc)?;
        return Ok(Some(Refusal::RowLong { table, length }));
    }
    Ok(None)
}

/// Why an UPDATE to the new row is refused.
fn update_refusal<S: Store<L>, L: Ledger>(
    alloc: Global,
    new: &NewRow<'_>,
    calls: &mut PendingCalls<S, L>,
) -> Result<Option<Refusal>, Broke>
    requires table { HasTests new.now.table.now }
    requires row { IsCodable new.now.row.now }
    requires share { CanSpend calls.old
        (row_behind calls.old.pending.now.removers new.now.scope.now new.now.table.now) }
    ensures spends { SpendsOnRow S.Store calls.old calls.new new.now.scope.now new.now.table.now }
    ensures stops { IfErr result (Stops S.Store no_damage calls.old calls.new) }
    ensures can { IfOk result (λ refusal. IfSome refusal (IsUpdateRefusal new.now.table.now)) }
    ensures passed { IfOk result (NoneHolds (seen S.content calls.old) (tests_of new.now)) }
    ensures short { IfOk result (λ refusal.
        IfNone refusal (length (stored_code new.now.table.now new.now.row.now) ≤ 4096)) }
    ensures answer { IfOk result (IsRefusedAs (seen S.content calls.old) new.now.number new.now.table.now
        new.now.row.now (update_refusal_of new.now)) }
{
    let long = long_refusal(alloc, new.table, new.row)?;
    if let Some(refusal) = long {
        return Ok(Some(refusal));
    }
    let rest = tested_refusal(alloc, new, calls)?;
    Ok(rest)
}

/// The change of a row that is there, where its conditions hold and it has its sums.
fn plan_change<S: Store<L>, L: Ledger>(
    alloc: Global,
    keyed: &KeyedRow<'_>,
    sets: &List<SetCol>,
    at: Bytes,
    row: &Row,
    new: &Row,
    calls: &mut PendingCalls<S, L>,
) -> Result<Planned, Broke>
    requires sound { AreWritable keyed.now.catalog.now.tables }
    requires number { IsTableNumber keyed.now.catalog.now.tables keyed.now.number }
    requires key_fits { AllFit (key_types (keyed_table keyed.now)) keyed.now.key.now }
    requires each { AllByRecursion (IsSet (keyed_table keyed.now)) sets.now }
    requires held { IsHeldAt keyed.now at row.now }
    requires sums { sum_refusal (keyed_table keyed.now) sets.now row.now ≡ None }
    requires new { new.now ≡ with_sets sets.now row.now }
    requires share { CanSpend calls.old
        (row_behind calls.old.pending.now.removers (scope_of sets.now) (keyed_table keyed.now)) }
    ensures spends { SpendsOnRow S.Store calls.old calls.new (scope_of sets.now) (keyed_table keyed.now) }
    ensures stops { IfErr result (Stops S.Store no_damage calls.old calls.new) }
    ensures plan { IfOk result (IsPlanWhere keyed.now.catalog.now.tables (seen S.content calls.old) keyed.now.number
        keyed.now.key.now row.now (λ conds. Write.Update keyed.now.number keyed.now.key.now sets.now conds)) }
{
    let KeyedRow {
        catalog,
        number,
        ..
    } = *keyed;
    let table = table_of(catalog, number);
    let scope = scope_of(sets);
    let copy = row.copy(alloc)?;
    let before = Some(copy);
    let tested = NewRow {
        scope: &scope,
        old: &before,
        number,
        table,
        row: new,
    };
    let refusal = update_refusal(alloc, &tested, calls)?;
    match refusal {
        Some(refusal) => Ok(Planned::Refused(refusal)),
        None => {
            let changes = updates(alloc, at, number, table, row, new)?;
            Ok(Planned::Changes(changes))
        }
    }
}

/// The plan of an UPDATE of a row that is there, and the row that comes in its place.
fn plan_held<S: Store<L>, L: Ledger>(
    alloc: Global,
    keyed: &KeyedRow<'_>,
    sets: &List<SetCol>,
    conds: &List<Cond>,
    at: Bytes,
    row: &Row,
    calls: &mut PendingCalls<S, L>,
) -> Result<(Planned, Option<Row>), Broke>
    requires sound { AreWritable keyed.now.catalog.now.tables }
    requires update { IsUpdate keyed.now.catalog.now.tables keyed.now.number keyed.now.key.now sets.now conds.now }
    requires held { IsHeldAt keyed.now at row.now }
    requires share { CanSpend calls.old
        (row_behind calls.old.pending.now.removers (scope_of sets.now) (keyed_table keyed.now)) }
    ensures spends { SpendsOnRow S.Store calls.old calls.new (scope_of sets.now) (keyed_table keyed.now) }
    ensures stops { IfErr result (Stops S.Store no_damage calls.old calls.new) }
    ensures plan { IfOk result (λ made. IsHeldPlan keyed.now.catalog.now.tables (seen S.content calls.old)
        (Write.Update keyed.now.number keyed.now.key.now sets.now conds.now)
        keyed.now.number keyed.now.key.now row.now made.0) }
    ensures new { IfOk result (λ made. IsNewFor keyed.now.catalog.now.tables
        (Write.Update keyed.now.number keyed.now.key.now sets.now conds.now) (Some row.now) made.1) }
{
    let table = table_of(keyed.catalog, keyed.number);
    match held_refusal(alloc, table, sets.items(), conds.items(), row)? {
        Some(refusal) => Ok((Planned::Refused(refusal), None)),
        None => {
            let new = new_row(alloc, row, sets)?;
            match plan_change(alloc, keyed, sets, at, row, &new, calls) {
                Err(error) => Err(error),
                Ok(planned) => Ok((planned, Some(new))),
            }
        }
    }
}

/// The plan of an UPDATE.
pub(crate) fn plan_update<S: Store<L>, L: Ledger>(
    alloc: Global,
    keyed: &KeyedRow<'_>,
    sets: &List<SetCol>,
    conds: &List<Cond>,
    calls: &mut PendingCalls<S, L>,
) -> Result<PlannedWrite, Broke>
    requires sound { AreWritable keyed.now.catalog.now.tables }
    requires update { IsUpdate keyed.now.catalog.now.tables keyed.now.number keyed.now.key.now sets.now conds.now }
    requires share { CanSpend calls.old
        (tested_behind calls.old.pending.now.removers (scope_of sets.now) (keyed_table keyed.now)) }
    ensures spends { Spends S.Store calls.old calls.new
        (tested_behind calls.old.pending.now.removers (scope_of sets.now) (keyed_table keyed.now))
        (1 + test_rounds calls.old.pending.now.changes
        (tested_limits (scope_of sets.now) (keyed_table keyed.now).limits)) }
    ensures stops { IfErr result
        (Stops S.Store (where_told (IsNoRow keyed.now.catalog.now.tables)) calls.old calls.new) }
    ensures plan { IfOk result (IsPlannedWrite keyed.now.catalog.now.tables (seen S.content calls.old)
        (Write.Update keyed.now.number keyed.now.key.now sets.now conds.now)) }
{
    match find_row(alloc, keyed, calls) {
        Err(error) => Err(error),
        Ok(None) => match no_row(alloc, table_of(keyed.catalog, keyed.number)) {
            Err(NoMem) => Err(Broke::NoMem),
            Ok(planned) => Ok(PlannedWrite {
                planned,
                old: None,
                new: None,
            }),
        },
        Ok(Some(found)) => {
            let StoredRow { at, row } = found;
            match plan_held(alloc, keyed, sets, conds, at, &row, calls) {
                Err(error) => Err(error),
                Ok((planned, new)) => Ok(PlannedWrite {
                    planned,
                    old: Some(row),
                    new,
                }),
            }
        }
    }
}
