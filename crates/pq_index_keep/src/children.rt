//! The rows that name a row by foreign keys of theirs.
ghost use Rattle.std.specs.Prelude.{◌≡◌, ◌≤◌, ◌++◌, All, length, map, filter, IfOk, OnOk, IsSome};
ghost use Rattle.pq_base.specs.Columns.{set_of};
ghost use Rattle.pq_schema.specs.Sequences.{group_access};
ghost use Rattle.pq_schema.specs.Sound.{IsTable, AreColumns};
ghost use Rattle.pq_pending.specs.Tests.{place_among};
ghost use Rattle.pq_index_keep.specs.Asking.{child_test, child_tests, refers_to};
ghost use Rattle.pq_index_keep.specs.Sound.{AreWritable};

use crate::groups::group_ends;
use pq_base::{List, NoMem, Row};
use pq_schema::{Foreign, Table};
use pq_store::Test;
use std::alloc::Global;

/// That some row of a table names the key by its foreign key.
fn child_test(
    alloc: Global,
    child: u8,
    table: &Table,
    key: &Row,
    foreign: &Foreign,
) -> Result<Test, NoMem>
    requires columns { AreColumns foreign.now.cols }
    requires table { IsTable table.now }
    requires access { IsSome (group_access table.now (set_of foreign.now.cols)) }
    ensures { IfOk result (λ test. test ≡ child_test child table.now key.now foreign.now) }
{
    let ends = group_ends(alloc, child, table, foreign.cols.items(), key.items())?;
    Ok(Test::Full(ends, 1))
}

/// Puts the tests of the foreign keys of a table that refer to the key's table behind the others.
fn ask_naming(
    alloc: Global,
    number: u8,
    key: &Row,
    child: u8,
    table: &Table,
    foreign: &[Foreign],
    tests: &mut List<Test>,
) -> Result<(), NoMem>
    requires table { IsTable table.now }
    requires columns { All (λ f. AreColumns f.cols) foreign.now }
    requires access { All (λ f. IsSome (group_access table.now (set_of f.cols))) foreign.now }
    ensures { OnOk result (tests.new
        ≡ tests.old ++ map (child_test child table.now key.now) (filter (refers_to number) foreign.now)) }
{
    for own in foreign {
        if own.table == number {
            let test = child_test(alloc, child, table, key, own)?;
            tests.push(alloc, test)?;
        }
    }
    Ok(())
}

/// Puts the tests of all foreign keys that refer to the key's table behind the others.
pub(crate) fn ask_children(
    alloc: Global,
    number: u8,
    key: &Row,
    tables: &[Table],
    tests: &mut List<Test>,
) -> Result<(), NoMem>
    requires few { length tables.now ≤ 64 }
    requires sound { AreWritable tables.now }
    ensures { OnOk result (tests.new ≡ tests.old ++ child_tests number key.now 1 tables.now) }
{
    for (i, table) in tables.iter().enumerate() {
        let foreign = table.foreign.items();
        ask_naming(alloc, number, key, i as u8 + 1, table, foreign, tests)?;
    }
    Ok(())
}

/// The place of the foreign key that refers to a table and whose test stands behind n others.
pub(crate) fn naming_place(number: u8, foreign: &[Foreign], n: usize) -> usize
    ensures place { result ≡ place_among (refers_to number) foreign.now n }
    ensures within { result ≤ length foreign.now }
{
    match foreign.split_first() {
        None => 0,
        Some((own, rest)) => {
            if own.table != number {
                return 1 + naming_place(number, rest, n);
            }
            if n == 0 {
                return 0;
            }
            1 + naming_place(number, rest, n - 1)
        }
    }
}
