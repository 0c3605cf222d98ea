//! The groups that a row comes into by its table's limits.
ghost use Rattle.std.specs.Prelude.{◌≡◌, ◌≤◌, ◌++◌, All, length, map, filter, IfOk, OnOk, IsSome};
ghost use Rattle.pq_base.specs.Columns.{set_of};
ghost use Rattle.pq_schema.specs.Sequences.{group_access};
ghost use Rattle.pq_schema.specs.Sound.{IsTable, AreColumns};
ghost use Rattle.pq_pending.specs.Tests.{place_among};
ghost use Rattle.pq_index_keep.specs.Asking.{asks_room, room_test, room_tests};
ghost use Rattle.pq_index_keep.specs.Effects.{stays};

use crate::groups::row_group_ends;
use crate::write::{NewRow, Scope};
use pq_base::{List, NoMem, Row};
use pq_row_keys::{null_at, same_cells};
use pq_schema::{Limit, Table};
use pq_store::Test;
use std::alloc::Global;

/// Whether the row before had the same values at the columns.
pub fn stays(old: &Option<Row>, row: &Row, cols: &[u8]) -> bool
    ensures { result ≡ stays old.now row.now cols.now }
{
    match old {
        None => false,
        Some(old) => same_cells(cols, old.items(), row.items()),
    }
}

/// Whether the limit is tested, and at its columns the values change and none is NULL.
fn asks_room(scope: &Scope, old: &Option<Row>, row: &Row, limit: &Limit) -> bool
    requires { AreColumns limit.now.cols }
    ensures { result ≡ asks_room scope.now old.now row.now limit.now }
{
    let cols = limit.cols.items();
    scope.touches(cols) && !stays(old, row, cols) && !null_at(cols, row.items())
}

/// That n rows agree with the row at the limit's columns.
fn room_test(
    alloc: Global,
    number: u8,
    table: &Table,
    row: &Row,
    limit: &Limit,
) -> Result<Test, NoMem>
    requires columns { AreColumns limit.now.cols }
    requires table { IsTable table.now }
    requires access { IsSome (group_access table.now (set_of limit.now.cols)) }
    ensures { IfOk result (λ test. test ≡ room_test number table.now row.now limit.now) }
{
    let ends = row_group_ends(alloc, number, table, limit.cols.items(), row.items())?;
    Ok(Test::Full(ends, limit.n))
}

/// Puts the tests of the limits behind the others.
pub(crate) fn ask_rooms(
    alloc: Global,
    new: &NewRow<'_>,
    limits: &[Limit],
    tests: &mut List<Test>,
) -> Result<(), NoMem>
    requires table { IsTable new.now.table.now }
    requires columns { All (λ limit. AreColumns limit.cols) limits.now }
    requires access { All (λ limit. IsSome (group_access new.now.table.now (set_of limit.cols))) limits.now }
    ensures { OnOk result (tests.new ≡ tests.old ++ room_tests new.now.scope.now new.now.old.now new.now.number
        new.now.table.now new.now.row.now limits.now) }
{
    for limit in limits {
        if asks_room(new.scope, new.old, new.row, limit) {
            let test = room_test(alloc, new.number, new.table, new.row, limit)?;
            tests.push(alloc, test)?;
        }
    }
    Ok(())
}

/// The place of the limit whose test stands behind n others.
pub(crate) fn room_place(
    scope: &Scope,
    old: &Option<Row>,
    limits: &[Limit],
    row: &Row,
    n: usize,
) -> usize
    requires { All (λ limit. AreColumns limit.cols) limits.now }
    ensures place { result ≡ place_among (asks_room scope.now old.now row.now) limits.now n }
    ensures within { result ≤ length limits.now }
{
    match limits.split_first() {
        None => 0,
        Some((limit, rest)) => {
            if !asks_room(scope, old, row, limit) {
                return 1 + room_place(scope, old, rest, row, n);
            }
            if n == 0 {
                return 0;
            }
            1 + room_place(scope, old, rest, row, n - 1)
        }
    }
}
