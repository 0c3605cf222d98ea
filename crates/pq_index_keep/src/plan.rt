//! What a write changes in the store, or why it is refused.
ghost use Rattle.std.specs.Prelude.{◌≡◌, ◌+◌, List, Some, None, option_map, IfOk, IfErr, IfSome};
ghost use Rattle.std.specs.FinMap.{get as value_at};
ghost use Rattle.pq_base.specs.Values.{AllFit};
ghost use Rattle.pq_key_code.specs.KeyCode.{row_key};
ghost use Rattle.pq_schema.specs.Tables.{table_at};
ghost use Rattle.pq_content.specs.Pairs.{Pair};
ghost use Rattle.pq_content.specs.Tables.{Rows, AllOfKinds, IsTableNumber, key_types, types_of, shape_of, key_of, row_at};
ghost use Rattle.pq_calls.specs.Evidence.{IsRead, IsNoRow};
ghost use Rattle.pq_calls.specs.World.{Affords, no_damage, where_told};
ghost use Rattle.pq_pending.specs.Calls.{seen};
ghost use Rattle.pq_index_keep.specs.Bounds.{referring_count, children_behind, one_get, tested_limits, tested_behind, with_more};
ghost use Rattle.pq_index_keep.specs.Keyed.{keyed_table, IsHeldAt};
ghost use Rattle.pq_index_keep.specs.Needs.{HasTests, AreIndexes};
ghost use Rattle.pq_index_keep.specs.Promises.{HoldsRows, IsPlanOf, PlansAll, IsPlanWhere, IsHeldPlan, IsPlannedWrite};
ghost use Rattle.pq_index_keep.specs.Rounds.{test_rounds};
ghost use Rattle.pq_index_keep.specs.Sound.{AreWritable, IsInsert, IsDelete};
ghost use Rattle.pq_index_keep.specs.Spending.{CanSpend, Spends, SpendsOnChildren, Stops};

use crate::changes::{puts, removals};
use crate::held::condition_refusal;
use crate::references::child_refusal;
use crate::refusals::insert_refusal;
use crate::write::{Cond, Scope, Write};
use pq_base::{Bytes, List, NoMem, Refusal, Row};
use pq_calls::StoredRow;
use pq_pending::PendingCalls;
use pq_row_code::Change;
use pq_row_keys::key_at;
use pq_schema::{Catalog, Table};
use pq_store::{Broke, Store};
use std::alloc::Global;
use std::sync::ledger::Ledger;

/// The changes that a write makes, or its refusal.
#[derive(Drop)]
pub enum Planned {
    Changes(List<Change>),
    Refused(Refusal),
}

/// The plan of a write, the row that was read for it, which is the old one of an UPDATE or DELETE, and the row that an
/// UPDATE puts in its place.
#[derive(Drop)]
pub struct PlannedWrite {
    pub planned: Planned,
    pub old: Option<Row>,
    pub new: Option<Row>,
}

/// The row of a table that a write names by its key.
#[derive(Clone, Copy)]
pub(crate) struct KeyedRow<'a> {
    pub catalog: &'a Catalog,
    pub number: u8,
    pub key: &'a Row,
}

/// The table of a write.
pub fn table_of(catalog: &Catalog, number: u8) -> &Table
    requires sound { AreWritable catalog.now.tables }
    requires number { IsTableNumber catalog.now.tables number }
    ensures table { result.now ≡ table_at catalog.now.tables number }
    ensures tests { HasTests result.now }
    ensures indexes { AreIndexes result.now result.now.indexes }
{
    catalog.table(number)
}

pub(crate) fn no_row(alloc: Global, table: &Table) -> Result<Planned, NoMem>
    ensures { IfOk result (λ planned. planned ≡ Planned.Refused (Refusal.NoRow table.now.name)) }
{
    Ok(Planned::Refused(Refusal::NoRow {
        table: table.name.copy(alloc)?,
    }))
}

/// The row's own key in the store.
fn own_key(alloc: Global, number: u8, table: &Table, row: &Row) -> Result<Bytes, NoMem>
    ensures { IfOk result (λ at. at ≡ row_key number (key_of table.now row.now)) }
{
    key_at(alloc, number, table.key.items(), row.items())
}

pub(crate) fn plan_insert<S: Store<L>, L: Ledger>(
    alloc: Global,
    catalog: &Catalog,
    number: u8,
    row: &Row,
    calls: &mut PendingCalls<S, L>,
) -> Result<Planned, Broke>
    requires sound { AreWritable catalog.now.tables }
    requires insert { IsInsert catalog.now.tables number row.now }
    requires share { CanSpend calls.old
        (tested_behind calls.old.pending.now.removers Scope.All (table_at catalog.now.tables number)) }
    ensures spends { Spends S.Store calls.old calls.new
        (tested_behind calls.old.pending.now.removers Scope.All (table_at catalog.now.tables number))
        (test_rounds calls.old.pending.now.changes
        (tested_limits Scope.All (table_at catalog.now.tables number).limits)) }
    ensures stops { IfErr result (Stops S.Store no_damage calls.old calls.new) }
    ensures plan { IfOk result
        (IsPlanOf catalog.now.tables (seen S.content calls.old) (Write.Insert number row.now) None) }
    ensures answer { IfOk result
        (PlansAll catalog.now.tables (seen S.content calls.old) (Write.Insert number row.now)) }
{
    let table = table_of(catalog, number);
    let at = own_key(alloc, number, table, row)?;
    let refusal = insert_refusal(alloc, at.items(), number, table, row, calls)?;
    match refusal {
        Some(refusal) => Ok(Planned::Refused(refusal)),
        None => {
            let changes = puts(alloc, at, number, table, row)?;
            Ok(Planned::Changes(changes))
        }
    }
}

/// The row of the table with this key, and its key in the store.
pub(crate) fn find_row<S: Store<L>, L: Ledger>(
    alloc: Global,
    keyed: &KeyedRow<'_>,
    calls: &mut PendingCalls<S, L>,
) -> Result<Option<StoredRow>, Broke>
    requires sound { AreWritable keyed.now.catalog.now.tables }
    requires number { IsTableNumber keyed.now.catalog.now.tables keyed.now.number }
    requires kinds { AllOfKinds (key_types (keyed_table keyed.now)) keyed.now.key.now }
    requires share { Affords calls.old.allowance.now 1 1 }
    ensures spends { Spends S.Store calls.old calls.new one_get 1 }
    ensures stops { IfErr result
        (Stops S.Store (where_told (IsNoRow keyed.now.catalog.now.tables)) calls.old calls.new) }
    ensures answer { IfOk result (λ found. (rows : Rows) (others : List Pair)
        → HoldsRows (seen S.content calls.old) keyed.now.catalog.now.tables rows others
        → option_map (λ stored. stored.row) found
        ≡ row_at keyed.now.catalog.now.tables rows keyed.now.number keyed.now.key.now) }
    ensures read { IfOk result (λ found. IfSome (seen S.content calls.old)
        (λ c. IsRead (shape_of (keyed_table keyed.now))
        (value_at c (row_key keyed.now.number keyed.now.key.now)) (option_map (λ stored. stored.row) found))) }
    ensures at { IfOk result (λ found. IfSome found
        (λ stored. stored.at ≡ row_key keyed.now.number keyed.now.key.now)) }
    ensures fits { IfOk result (λ found. IfSome found
        (λ stored. AllFit (types_of (keyed_table keyed.now)) stored.row)) }
{
    let KeyedRow {
        catalog,
        number,
        key,
    } = *keyed;
    match calls.row(alloc, number, table_of(catalog, number), key) {
        Err(error) => Err(error),
        Ok(found) => Ok(found),
    }
}

/// The removal of a row that is there, where its conditions hold.
fn plan_removal<S: Store<L>, L: Ledger>(
    alloc: Global,
    keyed: &KeyedRow<'_>,
    at: Bytes,
    row: &Row,
    calls: &mut PendingCalls<S, L>,
) -> Result<Planned, Broke>
    requires sound { AreWritable keyed.now.catalog.now.tables }
    requires number { IsTableNumber keyed.now.catalog.now.tables keyed.now.number }
    requires key_fits { AllFit (key_types (keyed_table keyed.now)) keyed.now.key.now }
    requires held { IsHeldAt keyed.now at row.now }
    requires share { CanSpend calls.old (children_behind calls.old.pending.now.removers
        keyed.now.catalog.now.tables keyed.now.number) }
    ensures spends { SpendsOnChildren S.Store calls.old calls.new keyed.now.catalog.now.tables keyed.now.number }
    ensures stops { IfErr result (Stops S.Store no_damage calls.old calls.new) }
    ensures plan { IfOk result (IsPlanWhere keyed.now.catalog.now.tables (seen S.content calls.old) keyed.now.number
        keyed.now.key.now row.now (λ conds. Write.Delete keyed.now.number keyed.now.key.now conds)) }
{
    let KeyedRow {
        catalog,
        number,
        key,
    } = *keyed;
    let table = table_of(catalog, number);
    let tables = catalog.tables();
    let refusal = child_refusal(alloc, tables, number, key, calls)?;
    match refusal {
        Some(refusal) => Ok(Planned::Refused(refusal)),
        None => {
            let changes = removals(alloc, at, number, table, row)?;
            Ok(Planned::Changes(changes))
        }
    }
}

/// The plan of a DELETE of a row that is there.
fn plan_held<S: Store<L>, L: Ledger>(
    alloc: Global,
    keyed: &KeyedRow<'_>,
    conds: &List<Cond>,
    at: Bytes,
    row: &Row,
    calls: &mut PendingCalls<S, L>,
) -> Result<Planned, Broke>
    requires sound { AreWritable keyed.now.catalog.now.tables }
    requires delete { IsDelete keyed.now.catalog.now.tables keyed.now.number keyed.now.key.now conds.now }
    requires held { IsHeldAt keyed.now at row.now }
    requires share { CanSpend calls.old (children_behind calls.old.pending.now.removers
        keyed.now.catalog.now.tables keyed.now.number) }
    ensures spends { SpendsOnChildren S.Store calls.old calls.new keyed.now.catalog.now.tables keyed.now.number }
    ensures stops { IfErr result (Stops S.Store no_damage calls.old calls.new) }
    ensures plan { IfOk result (IsHeldPlan keyed.now.catalog.now.tables (seen S.content calls.old)
        (Write.Delete keyed.now.number keyed.now.key.now conds.now) keyed.now.number keyed.now.key.now row.now) }
{
    let table = table_of(keyed.catalog, keyed.number);
    match condition_refusal(alloc, table, conds.items(), row)? {
        Some(refusal) => Ok(Planned::Refused(refusal)),
        None => plan_removal(alloc, keyed, at, row, calls),
    }
}

pub(crate) fn plan_delete<S: Store<L>, L: Ledger>(
    alloc: Global,
    keyed: &KeyedRow<'_>,
    conds: &List<Cond>,
    calls: &mut PendingCalls<S, L>,
) -> Result<PlannedWrite, Broke>
    requires sound { AreWritable keyed.now.catalog.now.tables }
    requires delete { IsDelete keyed.now.catalog.now.tables keyed.now.number keyed.now.key.now conds.now }
    requires share { CanSpend calls.old (with_more 1 (children_behind calls.old.pending.now.removers
        keyed.now.catalog.now.tables keyed.now.number)) }
    ensures spends { Spends S.Store calls.old calls.new
        (with_more 1 (children_behind calls.old.pending.now.removers keyed.now.catalog.now.tables keyed.now.number))
        (1 + test_rounds calls.old.pending.now.changes
        (referring_count keyed.now.catalog.now.tables keyed.now.number)) }
    ensures stops { IfErr result
        (Stops S.Store (where_told (IsNoRow keyed.now.catalog.now.tables)) calls.old calls.new) }
    ensures plan { IfOk result (IsPlannedWrite keyed.now.catalog.now.tables (seen S.content calls.old)
        (Write.Delete keyed.now.number keyed.now.key.now conds.now)) }
{
    match find_row(alloc, keyed, calls) {
        Err(error) => Err(error),
        Ok(None) => match no_row(alloc, table_of(keyed.catalog, keyed.number)) {
            Err(NoMem) => Err(Broke::NoMem),
            Ok(planned) => Ok(PlannedWrite {
                planned,
                old: None,
                new: None,
            }),
        },
        Ok(Some(found)) => {
            let StoredRow { at, row } = found;
            match plan_held(alloc, keyed, conds, at, &row, calls) {
                Err(error) => Err(error),
                Ok(planned) => Ok(PlannedWrite {
                    planned,
                    old: Some(row),
                    new: None,
                }),
            }
        }
    }
}
