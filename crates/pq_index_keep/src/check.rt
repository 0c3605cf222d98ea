//! The write of a statement, or the first refusal that is found by reading.
ghost use Rattle.std.specs.Prelude.{◌≡◌, Err, IfOk};
ghost use Rattle.pq_base.specs.Answers.{Answers};
ghost use Rattle.pq_base.specs.declared.count_word.TheConstants.{PREDICATES};
ghost use Rattle.pq_schema.specs.Schema.{find_table};
ghost use Rattle.pq_schema.specs.Tables.{table_at};
ghost use Rattle.pq_index_keep.specs.Checking.{in_table, insert_checked, update_checked, delete_checked, unless_many, checked_write};
ghost use Rattle.pq_index_keep.specs.Sound.{AreWritable, IsWrite};

use crate::inserts::check_insert;
use crate::keyed::{check_delete, check_update};
use crate::write::Write;
use pq_base::{List, PText, Refusal, Stopped, Value, count_word};
use pq_def_read::{Assign, CondDef, SetDef, WriteDef};
use pq_schema::Catalog;
use std::alloc::Global;

/// The greatest number of conditions of a write.
const CONDITIONS: usize = 16;

fn too_many() -> Stopped
    ensures { result ≡ Stopped.Refused (Refusal.Count PREDICATES) }
{
    Stopped::Refused(Refusal::Count {
        word: count_word::PREDICATES,
    })
}

fn no_table(alloc: Global, name: &PText) -> Result<Write, Stopped>
    ensures answer { Answers result (Err (Refusal.NoTable name.now)) }
    ensures write { IfOk result (λ write. ⊥) }
{
    let name = name.copy(alloc)?;
    Err(Stopped::Refused(Refusal::NoTable { name }))
}

fn check_into(
    alloc: Global,
    catalog: &Catalog,
    name: &PText,
    cols: &Option<List<PText>>,
    values: &[Value],
) -> Result<Write, Stopped>
    requires sound { AreWritable catalog.now.tables }
    ensures answer { Answers result (in_table name.now (find_table catalog.now name.now)
        (λ t. insert_checked (table_at catalog.now.tables t) t cols.now values.now)) }
    ensures write { IfOk result (IsWrite catalog.now.tables) }
{
    match catalog.find_table(name) {
        None => no_table(alloc, name),
        Some(number) => check_insert(alloc, catalog, number, cols, values),
    }
}

fn check_set(
    alloc: Global,
    catalog: &Catalog,
    name: &PText,
    sets: &[SetDef],
    key: &[Assign],
    conds: &[CondDef],
) -> Result<Write, Stopped>
    requires sound { AreWritable catalog.now.tables }
    ensures answer { Answers result (unless_many conds.now (in_table name.now (find_table catalog.now name.now)
        (λ t. update_checked (table_at catalog.now.tables t) t sets.now key.now conds.now))) }
    ensures write { IfOk result (IsWrite catalog.now.tables) }
{
    if CONDITIONS < conds.len() {
        return Err(too_many());
    }
    match catalog.find_table(name) {
        None => no_table(alloc, name),
        Some(number) => check_update(alloc, catalog, number, sets, key, conds),
    }
}

fn check_from(
    alloc: Global,
    catalog: &Catalog,
    name: &PText,
    key: &[Assign],
    conds: &[CondDef],
) -> Result<Write, Stopped>
    requires sound { AreWritable catalog.now.tables }
    ensures answer { Answers result (unless_many conds.now (in_table name.now (find_table catalog.now name.now)
        (λ t. delete_checked (table_at catalog.now.tables t) t key.now conds.now))) }
    ensures write { IfOk result (IsWrite catalog.now.tables) }
{
    if CONDITIONS < conds.len() {
        return Err(too_many());
    }
    match catalog.find_table(name) {
        None => no_table(alloc, name),
        Some(number) => check_delete(alloc, catalog, number, key, conds),
    }
}

/// The write by numbers, or the first refusal found by reading: more than 16 conditions, the table, an unknown column,
/// a repeated one, the wrong columns, a value that doesn't fit, a condition whose constant is of another kind, and a
/// row too long.
#[tactic(auto, unfolding(crate::specs::Checking::checked_write))]
pub fn check_write(alloc: Global, catalog: &Catalog, write: &WriteDef) -> Result<Write, Stopped>
    ensures answer { Answers result (checked_write catalog.now write.now) }
    ensures write { IfOk result (IsWrite catalog.now.tables) }
{
    catalog.known();
    match write {
        WriteDef::Insert {
            table,
            cols,
            values,
        } => check_into(alloc, catalog, table, cols, values.items()),
        WriteDef::Update {
            table,
            sets,
            key,
            conds,
        } => check_set(
            alloc,
            catalog,
            table,
            sets.items(),
            key.items(),
            conds.items(),
        ),
        WriteDef::Delete { table, key, conds } => {
            check_from(alloc, catalog, table, key.items(), conds.items())
        }
    }
}
