//! The rows that a row names by its foreign keys.
ghost use Rattle.std.specs.Prelude.{◌≡◌, ◌≤◌, ◌++◌, All, length, IfOk, OnOk};
ghost use Rattle.pq_schema.specs.Sound.{AreColumns};
ghost use Rattle.pq_pending.specs.Tests.{place_among};
ghost use Rattle.pq_index_keep.specs.Asking.{asks_parent, parent_test, parent_tests};

use crate::write::Scope;
use pq_base::{List, NoMem, Row};
use pq_row_keys::{key_at, null_at};
use pq_schema::Foreign;
use pq_store::Test;
use std::alloc::Global;

/// Whether the foreign key is tested and has no NULL in the row.
fn asks_parent(scope: &Scope, row: &Row, foreign: &Foreign) -> bool
    requires { AreColumns foreign.now.cols }
    ensures { result ≡ asks_parent scope.now row.now foreign.now }
{
    scope.touches(foreign.cols.items()) && !null_at(foreign.cols.items(), row.items())
}

/// That the row that the foreign key names is not there.
fn parent_test(alloc: Global, row: &Row, foreign: &Foreign) -> Result<Test, NoMem>
    ensures { IfOk result (λ test. test ≡ parent_test row.now foreign.now) }
{
    let key = key_at(alloc, foreign.table, foreign.cols.items(), row.items())?;
    Ok(Test::Lacks(key))
}

/// Puts the tests of the foreign keys behind the others.
pub(crate) fn ask_parents(
    alloc: Global,
    scope: &Scope,
    foreign: &[Foreign],
    row: &Row,
    tests: &mut List<Test>,
) -> Result<(), NoMem>
    requires { All (λ f. AreColumns f.cols) foreign.now }
    ensures { OnOk result (tests.new ≡ tests.old ++ parent_tests scope.now row.now foreign.now) }
{
    for key in foreign {
        if asks_parent(scope, row, key) {
            let test = parent_test(alloc, row, key)?;
            tests.push(alloc, test)?;
        }
    }
    Ok(())
}

/// The place of the foreign key whose test stands behind n others.
pub(crate) fn parent_place(scope: &Scope, foreign: &[Foreign], row: &Row, n: usize) -> usize
    requires { All (λ f. AreColumns f.cols) foreign.now }
    ensures place { result ≡ place_among (asks_parent scope.now row.now) foreign.now n }
    ensures within { result ≤ length foreign.now }
{
    match foreign.split_first() {
        None => 0,
        Some((key, rest)) => {
            if !asks_parent(scope, row, key) {
                return 1 + parent_place(scope, rest, row, n);
            }
            if n == 0 {
                return 0;
            }
            1 + parent_place(scope, rest, row, n - 1)
        }
    }
}
