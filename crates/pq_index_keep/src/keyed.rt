//! The write of an UPDATE or DELETE, whose row is named by its key, or the first refusal that is found
//! by reading.
ghost use Rattle.std.specs.Prelude.{◌≡◌, ◌≤◌, [], length, map, IfOk};
ghost use Rattle.std.specs.List.{list_any};
ghost use Rattle.pq_base.specs.Answers.{Answers, Passes};
ghost use Rattle.pq_base.specs.Values.{IsValue};
ghost use Rattle.pq_def_read.specs.Known.{AreKnown};
ghost use Rattle.pq_schema.specs.Tables.{table_at};
ghost use Rattle.pq_content.specs.Tables.{IsTableNumber};
ghost use Rattle.pq_index_keep.specs.Checking.{names_in, values_in, keyed_names_refusal, is_keyed_wrong, keyed_values_refusal, keyed_refusal, columns_refusal, key_given, update_checked, delete_checked, assigned_misfit};
ghost use Rattle.pq_index_keep.specs.Sound.{is_among, AreWritable, IsWrite};

use crate::column_values::{are_among, check_fit, is_among, refuse_columns};
use crate::conditions::{check_conditions, cond_names, conds_of, known_conds};
use crate::settings::{check_sets, known_sets, set_names, sets_of};
use crate::write::Write;
use pq_base::{List, NoMem, PText, Row, Stopped, known_value};
use pq_def_read::{Assign, CondDef, SetDef};
use pq_row_keys::all_given;
use pq_schema::{Catalog, Table, check_known, check_repeated, places_of};
use std::alloc::Global;

fn names_in(alloc: Global, assigns: &[Assign]) -> Result<List<PText>, NoMem>
    ensures { IfOk result (λ names. names ≡ names_in assigns.now) }
{
    let mut names = List::new(alloc);
    for assign in assigns {
        names.push(alloc, assign.col.copy(alloc)?)?;
    }
    Ok(names)
}

fn values_in(alloc: Global, assigns: &[Assign]) -> Result<Row, NoMem>
    ensures { IfOk result (λ values. values ≡ values_in assigns.now) }
{
    let mut values = List::new(alloc);
    for assign in assigns {
        values.push(alloc, assign.value.copy(alloc)?)?;
    }
    Ok(values)
}

fn any_among(others: &[u8], cols: &[u8]) -> bool
    ensures { result ≡ list_any (is_among others.now) cols.now }
{
    cols.iter().any(|col| is_among(others, *col))
}

fn is_keyed_wrong(table: &Table, sets: &[u8], key: &[u8]) -> bool
    ensures { result ≡ is_keyed_wrong table.now sets.now key.now }
{
    let own = table.key.items();
    let set = any_among(own, sets);
    let missing = !are_among(own, key);
    let more = !are_among(key, own);
    set || missing || more
}

/// Refuses an unknown column of SET, WHERE and IF, and then a repeated one of SET and of WHERE.
fn check_keyed_names(
    alloc: Global,
    table: &Table,
    sets: &[PText],
    key: &[PText],
    conds: &[PText],
) -> Result<(), Stopped>
    ensures { Passes result (keyed_names_refusal table.now sets.now key.now conds.now) }
{
    check_known(alloc, table.columns.items(), sets)?;
    check_known(alloc, table.columns.items(), key)?;
    check_known(alloc, table.columns.items(), conds)?;
    check_repeated(alloc, sets)?;
    check_repeated(alloc, key)
}

/// Refuses the first value that doesn't fit its column.
fn check_assigned(alloc: Global, table: &Table, assigns: &[Assign]) -> Result<(), Stopped>
    requires { length table.now.columns ≤ 32 }
    ensures { Passes result (assigned_misfit table.now assigns.now) }
{
    let names = names_in(alloc, assigns)?;
    let places = places_of(alloc, table.columns.items(), names.items())?;
    let values = values_in(alloc, assigns)?;
    check_fit(alloc, table, names.items(), places.items(), values.items())
}

/// Refuses columns of SET and WHERE that aren't right for the table's key.
fn check_columns(
    alloc: Global,
    table: &Table,
    sets: &[SetDef],
    key: &[Assign],
) -> Result<(), Stopped>
    requires { length table.now.columns ≤ 32 }
    ensures { Passes result (columns_refusal table.now sets.now key.now) }
{
    let sets = set_names(alloc, sets)?;
    let key = names_in(alloc, key)?;
    let sets = places_of(alloc, table.columns.items(), sets.items())?;
    let key = places_of(alloc, table.columns.items(), key.items())?;
    let wrong = is_keyed_wrong(table, sets.items(), key.items());
    refuse_columns(alloc, table, wrong)
}

fn check_keyed_values(
    alloc: Global,
    table: &Table,
    sets: &[SetDef],
    key: &[Assign],
    conds: &[CondDef],
) -> Result<(), Stopped>
    requires columns { length table.now.columns ≤ 32 }
    requires few { length conds.now ≤ 16 }
    ensures { Passes result (keyed_values_refusal table.now sets.now key.now conds.now) }
{
    check_columns(alloc, table, sets, key)?;
    check_sets(alloc, table, sets)?;
    check_assigned(alloc, table, key)?;
    check_conditions(table, conds)
}

/// Refuses what is wrong with an UPDATE or DELETE of the table, but for the number of conditions.
fn check_keyed(
    alloc: Global,
    table: &Table,
    sets: &[SetDef],
    key: &[Assign],
    conds: &[CondDef],
) -> Result<(), Stopped>
    requires columns { length table.now.columns ≤ 32 }
    requires few { length conds.now ≤ 16 }
    ensures { Passes result (keyed_refusal table.now sets.now key.now conds.now) }
{
    let set_names = set_names(alloc, sets)?;
    let key_names = names_in(alloc, key)?;
    let cond_names = cond_names(alloc, conds)?;
    check_keyed_names(
        alloc,
        table,
        set_names.items(),
        key_names.items(),
        cond_names.items(),
    )?;
    check_keyed_values(alloc, table, sets, key, conds)
}

/// The values of the key in its order.
fn key_given(alloc: Global, table: &Table, key: &[Assign]) -> Result<Row, NoMem>
    requires { length table.now.columns ≤ 32 }
    ensures { IfOk result (λ row. row ≡ key_given table.now key.now) }
{
    let names = names_in(alloc, key)?;
    let places = places_of(alloc, table.columns.items(), names.items())?;
    let values = values_in(alloc, key)?;
    all_given(alloc, places.items(), values.items(), table.key.items())
}

fn known_assign(assign: &Assign)
    ensures { IsValue assign.now.value }
{
    known_value(&assign.value);
}

fn known_assigns(assigns: &[Assign])
    ensures { AreKnown assigns.now }
{
    for assign in assigns {
        known_assign(assign);
    }
}

pub(crate) fn check_update(
    alloc: Global,
    catalog: &Catalog,
    number: u8,
    sets: &[SetDef],
    key: &[Assign],
    conds: &[CondDef],
) -> Result<Write, Stopped>
    requires sound { AreWritable catalog.now.tables }
    requires number { IsTableNumber catalog.now.tables number }
    requires few { length conds.now ≤ 16 }
    ensures answer { Answers result
        (update_checked (table_at catalog.now.tables number) number sets.now key.now conds.now) }
    ensures write { IfOk result (IsWrite catalog.now.tables) }
{
    known_sets(sets);
    known_assigns(key);
    known_conds(conds);
    let table = catalog.table(number);
    check_keyed(alloc, table, sets, key, conds)?;
    let sets = sets_of(alloc, table, sets)?;
    let key = key_given(alloc, table, key)?;
    let conds = conds_of(alloc, table, conds)?;
    Ok(Write::Update {
        table: number,
        key,
        sets,
        conds,
    })
}

/// The same where no column is set.
fn check_key(alloc: Global, table: &Table, key: &[Assign], conds: &[CondDef]) -> Result<(), Stopped>
    requires columns { length table.now.columns ≤ 32 }
    requires few { length conds.now ≤ 16 }
    ensures { Passes result (keyed_refusal table.now [] key.now conds.now) }
{
    let sets = List::new(alloc);
    check_keyed(alloc, table, sets.items(), key, conds)
}

pub(crate) fn check_delete(
    alloc: Global,
    catalog: &Catalog,
    number: u8,
    key: &[Assign],
    conds: &[CondDef],
) -> Result<Write, Stopped>
    requires sound { AreWritable catalog.now.tables }
    requires number { IsTableNumber catalog.now.tables number }
    requires few { length conds.now ≤ 16 }
    ensures answer { Answers result (delete_checked (table_at catalog.now.tables number) number key.now conds.now) }
    ensures write { IfOk result (IsWrite catalog.now.tables) }
{
    known_assigns(key);
    known_conds(conds);
    let table = catalog.table(number);
    check_key(alloc, table, key, conds)?;
    let key = key_given(alloc, table, key)?;
    let conds = conds_of(alloc, table, conds)?;
    Ok(Write::Delete {
        table: number,
        key,
        conds,
    })
}
