//! Why a write is refused by the rows that are there.
ghost use Rattle.std.specs.Prelude.{◌≡◌, ◌≤◌, ◌<◌, ◌+◌, ◌-◌, [], ◌∷◌, ◌++◌, All, length, None, IfOk, IfErr, IfSome};
ghost use Rattle.pq_key_code.specs.KeyCode.{row_key};
ghost use Rattle.pq_schema.specs.Sound.{IsTable, AreColumns};
ghost use Rattle.pq_content.specs.Tables.{key_of};
ghost use Rattle.pq_pending.specs.Tests.{place_among};
ghost use Rattle.pq_pending.specs.Calls.{seen};
ghost use Rattle.pq_calls.specs.World.{no_damage};
ghost use Rattle.pq_index_keep.specs.Asking.{asks_parent, asks_room, parent_tests, row_tests, test_refusal, IsOwn};
ghost use Rattle.pq_index_keep.specs.Bounds.{tested_limits, tested_behind, row_behind, with_more};
ghost use Rattle.pq_index_keep.specs.Effects.{no_parent, no_room, insert_refusal};
ghost use Rattle.pq_index_keep.specs.Needs.{AsksTests, HasTests};
ghost use Rattle.pq_index_keep.specs.NewRows.{tests_of, refusal_of, refusal_behind, NoneHolds, IsRefusedAs};
ghost use Rattle.pq_index_keep.specs.Refusals.{IsInsertRefusal, IsTestRefusal, IsAskedRefusal};
ghost use Rattle.pq_index_keep.specs.Rounds.{test_rounds};
ghost use Rattle.pq_index_keep.specs.Spending.{CanSpend, Spends, SpendsOnRow, Stops};

use crate::limits::{ask_rooms, room_place};
use crate::parents::{ask_parents, parent_place};
use crate::write::{NewRow, Scope};
use pq_base::{Bytes, List, NoMem, Refusal, Row};
use pq_pending::PendingCalls;
use pq_schema::Table;
use pq_store::{Broke, Store, Test};
use std::alloc::Global;
use std::sync::ledger::Ledger;

/// The refusal of a row for which this foreign key of its table finds none.
pub fn no_parent(alloc: Global, table: &Table, place: usize) -> Result<Refusal, NoMem>
    requires { place < 4 }
    ensures { IfOk result (λ refusal. refusal ≡ no_parent table.now place) }
{
    Ok(Refusal::NoParent {
        table: table.name.copy(alloc)?,
        number: place as u8 + 1,
    })
}

/// The refusal of a row whose group by this limit of its table is full.
pub fn no_room(alloc: Global, table: &Table, place: usize) -> Result<Refusal, NoMem>
    requires limit { place < length table.now.limits }
    requires few { place < 4 }
    ensures { IfOk result (λ refusal. refusal ≡ no_room table.now place) }
{
    Ok(Refusal::Cardinality {
        table: table.name.copy(alloc)?,
        number: place as u8 + 1,
        n: table.limits.items()[place].n,
    })
}

/// Tests that are asked at once, and the place behind those of foreign keys.
#[derive(Drop)]
struct Asked {
    tests: List<Test>,
    parents: usize,
}

/// The tests that are given, then those of the row's foreign keys, and then those of its limits.
fn asked_tests(alloc: Global, own: List<Test>, new: &NewRow<'_>) -> Result<Asked, NoMem>
    requires table { AsksTests new.now.table.now }
    ensures tests { IfOk result (λ made. made.tests ≡ own ++ tests_of new.now) }
    ensures parents { IfOk result (λ made. made.parents
        ≡ length own + length (parent_tests new.now.scope.now new.now.row.now new.now.table.now.foreign)) }
{
    let NewRow {
        scope,
        table,
        row,
        ..
    } = *new;
    let mut tests = own;
    ask_parents(alloc, scope, table.foreign.items(), row, &mut tests)?;
    let parents = tests.items().len();
    let limits = table.limits.items();
    ask_rooms(alloc, new, limits, &mut tests)?;
    Ok(Asked { tests, parents })
}

/// The refusal of the test at a place: of so many of the row's own key, of those of foreign keys up to another place,
/// and of those of limits.
fn test_refusal(
    alloc: Global,
    own: usize,
    parents: usize,
    new: &NewRow<'_>,
    at: usize,
) -> Result<Refusal, NoMem>
    requires table { IsTable new.now.table.now }
    requires columns { All (λ f. AreColumns f.cols) new.now.table.now.foreign }
    requires few { length new.now.table.now.foreign ≤ 4 }
    requires own { own ≤ parents }
    requires parent { own ≤ at → at < parents → place_among (asks_parent new.now.scope.now new.now.row.now)
        new.now.table.now.foreign (at - own) < length new.now.table.now.foreign }
    requires room { parents ≤ at → place_among (asks_room new.now.scope.now new.now.old.now new.now.row.now)
        new.now.table.now.limits (at - parents) < length new.now.table.now.limits }
    ensures { IfOk result (λ refusal. refusal
        ≡ test_refusal own parents new.now.scope.now new.now.old.now new.now.table.now new.now.row.now at) }
{
    let NewRow {
        scope,
        old,
        table,
        row,
        ..
    } = *new;
    if at < own {
        return Ok(Refusal::DuplicateKey {
            table: table.name.copy(alloc)?,
        });
    }
    if at < parents {
        let place = parent_place(scope, table.foreign.items(), row, at - own);
        return no_parent(alloc, table, place);
    }
    let place = room_place(scope, old, table.limits.items(), row, at - parents);
    no_room(alloc, table, place)
}

/// The refusal of the first test that holds: of those that are given of the row's own key, of its foreign keys, and of
/// its limits, all asked at once.
fn first_refusal<S: Store<L>, L: Ledger>(
    alloc: Global,
    own: List<Test>,
    new: &NewRow<'_>,
    calls: &mut PendingCalls<S, L>,
) -> Result<Option<Refusal>, Broke>
    requires table { HasTests new.now.table.now }
    requires own { IsOwn new.now.number new.now.table.now new.now.row.now own }
    requires share { CanSpend calls.old (with_more (length own)
        (row_behind calls.old.pending.now.removers new.now.scope.now new.now.table.now)) }
    ensures spends { Spends S.Store calls.old calls.new
        (with_more (length own) (row_behind calls.old.pending.now.removers new.now.scope.now new.now.table.now))
        (test_rounds calls.old.pending.now.changes (tested_limits new.now.scope.now new.now.table.now.limits)) }
    ensures stops { IfErr result (Stops S.Store no_damage calls.old calls.new) }
    ensures can { IfOk result (λ refusal. IfSome refusal (IsAskedRefusal own new.now.table.now)) }
    ensures passed { IfOk result (NoneHolds (seen S.content calls.old) (own ++ tests_of new.now)) }
    ensures answer { IfOk result (IsRefusedAs (seen S.content calls.old) new.now.number new.now.table.now
        new.now.row.now (refusal_behind own new.now)) }
{
    calls.pending.known();
    let first = own.items().len();
    let asked = asked_tests(alloc, own, new)?;
    match calls.first_held(alloc, asked.tests.items())? {
        None => Ok(None),
        Some(at) => {
            let parents = asked.parents;
            let refusal = test_refusal(alloc, first, parents, new, at)?;
            Ok(Some(refusal))
        }
    }
}

/// The refusal of the foreign keys, or else of the limits.
pub(crate) fn tested_refusal<S: Store<L>, L: Ledger>(
    alloc: Global,
    new: &NewRow<'_>,
    calls: &mut PendingCalls<S, L>,
) -> Result<Option<Refusal>, Broke>
    requires table { HasTests new.now.table.now }
    requires share { CanSpend calls.old
        (row_behind calls.old.pending.now.removers new.now.scope.now new.now.table.now) }
    ensures spends { SpendsOnRow S.Store calls.old calls.new new.now.scope.now new.now.table.now }
    ensures stops { IfErr result (Stops S.Store no_damage calls.old calls.new) }
    ensures can { IfOk result (λ refusal. IfSome refusal (IsTestRefusal new.now.table.now)) }
    ensures passed { IfOk result (NoneHolds (seen S.content calls.old) (tests_of new.now)) }
    ensures answer { IfOk result (IsRefusedAs (seen S.content calls.old) new.now.number new.now.table.now
        new.now.row.now (refusal_of new.now)) }
{
    let own = List::new(alloc);
    first_refusal(alloc, own, new, calls)
}

/// The test of a row's own key.
fn own_tests(alloc: Global, at: &[u8]) -> Result<List<Test>, NoMem>
    ensures { IfOk result (λ tests. tests ≡ Test.Has at.now ∷ []) }
{
    let mut tests = List::new(alloc);
    let key = Bytes::of_bytes(alloc, at)?;
    tests.push(alloc, Test::Has(key))?;
    Ok(tests)
}

/// Why an INSERT of the row at its key is refused.
pub(crate) fn insert_refusal<S: Store<L>, L: Ledger>(
    alloc: Global,
    at: &[u8],
    number: u8,
    table: &Table,
    row: &Row,
    calls: &mut PendingCalls<S, L>,
) -> Result<Option<Refusal>, Broke>
    requires table { HasTests table.now }
    requires at { at.now ≡ row_key number (key_of table.now row.now) }
    requires share { CanSpend calls.old (tested_behind calls.old.pending.now.removers Scope.All table.now) }
    ensures spends { Spends S.Store calls.old calls.new
        (tested_behind calls.old.pending.now.removers Scope.All table.now)
        (test_rounds calls.old.pending.now.changes (tested_limits Scope.All table.now.limits)) }
    ensures stops { IfErr result (Stops S.Store no_damage calls.old calls.new) }
    ensures can { IfOk result (λ refusal. IfSome refusal (IsInsertRefusal table.now)) }
    ensures passed { IfOk result (NoneHolds (seen S.content calls.old)
        (Test.Has (row_key number (key_of table.now row.now))
        ∷ row_tests Scope.All None number table.now row.now)) }
    ensures answer { IfOk result (IsRefusedAs (seen S.content calls.old) number table.now row.now
        (λ tables rows. insert_refusal tables rows number row.now)) }
{
    let own = own_tests(alloc, at)?;
    let (scope, old) = (Scope::All, None);
    let new = NewRow {
        scope: &scope,
        old: &old,
        number,
        table,
        row,
    };
    first_refusal(alloc, own, &new, calls)
}
