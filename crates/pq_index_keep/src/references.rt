//! Why a DELETE is refused by the rows that name its row.
ghost use Rattle.std.specs.Prelude.{◌≡◌, ◌≤◌, ◌<◌, List, All, length, IfOk, IfErr, IfSome};
ghost use Rattle.pq_content.specs.Pairs.{Pair};
ghost use Rattle.pq_content.specs.Tables.{Rows};
ghost use Rattle.pq_index_keep.specs.Asking.{child_tests, child_refusal_at};
ghost use Rattle.pq_index_keep.specs.Bounds.{referring_count, children_behind};
ghost use Rattle.pq_index_keep.specs.Effects.{referenced_refusal, child_refusal};
ghost use Rattle.pq_pending.specs.Calls.{seen};
ghost use Rattle.pq_calls.specs.World.{no_damage};
ghost use Rattle.pq_index_keep.specs.NewRows.{NoneHolds};
ghost use Rattle.pq_index_keep.specs.Promises.{HoldsRows};
ghost use Rattle.pq_index_keep.specs.Refusals.{IsDeleteRefusal};
ghost use Rattle.pq_index_keep.specs.Sound.{AreWritable, MayName};
ghost use Rattle.pq_index_keep.specs.Spending.{CanSpend, SpendsOnChildren, Stops};

use crate::bound::refers;
use crate::children::{ask_children, naming_place};
use pq_base::{List, NoMem, Refusal, Row};
use pq_pending::PendingCalls;
use pq_schema::Table;
use pq_store::{Broke, Store};
use std::alloc::Global;
use std::sync::ledger::Ledger;

/// The refusal of a DELETE whose row is named by this foreign key of this table.
pub fn referenced(alloc: Global, table: &Table, place: usize) -> Result<Refusal, NoMem>
    requires { place < 4 }
    ensures { IfOk result (λ refusal. refusal ≡ referenced_refusal table.now place) }
{
    Ok(Refusal::Referenced {
        table: table.name.copy(alloc)?,
        number: place as u8 + 1,
    })
}

/// The refusal of the test at a place among those of all foreign keys that refer to the table.
fn child_refusal_at(
    alloc: Global,
    tables: &[Table],
    number: u8,
    at: usize,
) -> Result<Refusal, NoMem>
    requires sound { All (λ table. length table.foreign ≤ 4) tables.now }
    requires within { at < referring_count tables.now number }
    ensures { IfOk result (λ refusal. refusal ≡ child_refusal_at number tables.now at) }
{
    match tables.split_first() {
        None => unreachable!(),
        Some((table, rest)) => {
            let own = refers(number, table);
            if at >= own {
                return child_refusal_at(alloc, rest, number, at - own);
            }
            let place = naming_place(number, table.foreign.items(), at);
            referenced(alloc, table, place)
        }
    }
}

/// The refusal of the first foreign key, in order of tables, by which some row names the key.
pub(crate) fn child_refusal<S: Store<L>, L: Ledger>(
    alloc: Global,
    tables: &[Table],
    number: u8,
    key: &Row,
    calls: &mut PendingCalls<S, L>,
) -> Result<Option<Refusal>, Broke>
    requires few { length tables.now ≤ 64 }
    requires sound { AreWritable tables.now }
    requires may { All (λ table. All (MayName table number key.now) table.foreign) tables.now }
    requires share { CanSpend calls.old (children_behind calls.old.pending.now.removers tables.now number) }
    ensures spends { SpendsOnChildren S.Store calls.old calls.new tables.now number }
    ensures stops { IfErr result (Stops S.Store no_damage calls.old calls.new) }
    ensures can { IfOk result (λ refusal. IfSome refusal (IsDeleteRefusal tables.now)) }
    ensures passed { IfOk result (NoneHolds (seen S.content calls.old) (child_tests number key.now 1 tables.now)) }
    ensures answer { IfOk result (λ refusal. (rows : Rows) (others : List Pair)
        → HoldsRows (seen S.content calls.old) tables.now rows others
        → refusal ≡ child_refusal rows number key.now 1 tables.now) }
{
    calls.pending.known();
    let mut tests = List::new(alloc);
    ask_children(alloc, number, key, tables, &mut tests)?;
    match calls.first_held(alloc, tests.items())? {
        None => Ok(None),
        Some(at) => Ok(Some(child_refusal_at(alloc, tables, number, at)?)),
    }
}
