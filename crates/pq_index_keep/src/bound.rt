//! The bounds of writes.
ghost use Rattle.std.specs.Prelude.{◌≡◌, ◌≤◌, ◌<◌, ◌*◌, ◌^◌, ◌&&◌, not, All, length};
ghost use Rattle.std.specs.List.{list_any, sum_by, count_by};
ghost use Rattle.pq_base.specs.Columns.{has_col};
ghost use Rattle.pq_schema.specs.Sound.{AreColumns, AreParts};
ghost use Rattle.pq_content.specs.Standing.{write_ops};
ghost use Rattle.pq_index_keep.specs.Bounds.{tested_foreign, tested_limits, tested_n, refers, referring_count, tests, most_changes, write_tests, write_bound, counted, tests_behind};
ghost use Rattle.pq_index_keep.specs.Sound.{AreWritable, IsWrite};
ghost use Rattle.pq_index_keep.specs.Tested.{touches, touches_index};

use crate::write::{Scope, Write};
use pq_base::{Bound, ColSet};
use pq_schema::{Catalog, Foreign, Index, KeyPart, Limit, Table, columns_in};

fn tested_foreign(scope: &Scope, foreign: &[Foreign]) -> usize
    requires { All (λ f. AreColumns f.cols) foreign.now }
    ensures { result ≡ tested_foreign scope.now foreign.now }
{
    let mut count = 0;
    for key in foreign {
        if scope.touches(key.cols.items()) {
            count += 1;
        }
    }
    count
}

fn tested_limits(scope: &Scope, limits: &[Limit]) -> usize
    requires { All (λ limit. AreColumns limit.cols) limits.now }
    ensures { result ≡ tested_limits scope.now limits.now }
{
    let mut count = 0;
    for limit in limits {
        if scope.touches(limit.cols.items()) {
            count += 1;
        }
    }
    count
}

/// The sum of the n of the limits that are tested.
fn tested_rows(scope: &Scope, limits: &[Limit]) -> u128
    requires { All (λ limit. AreColumns limit.cols) limits.now }
    ensures sum { result ≡ sum_by (tested_n scope.now) limits.now }
    ensures few { result ≤ 2 ^ 32 * length limits.now }
{
    let mut sum: u128 = 0;
    for limit in limits {
        if scope.touches(limit.cols.items()) {
            sum += limit.n as u128;
        }
    }
    sum
}

/// The operations and entries that the tests of an INSERT or UPDATE take.
fn tests(scope: &Scope, table: &Table) -> Bound
    requires foreign { All (λ f. AreColumns f.cols) table.now.foreign }
    requires limits { All (λ limit. AreColumns limit.cols) table.now.limits }
    requires few { length table.now.limits ≤ 4 }
    ensures tests { result ≡ tests scope.now table.now }
    ensures few { result.ops < 2 ^ 80 }
{
    let foreign = tested_foreign(scope, table.foreign.items()) as u128;
    let limits = tested_limits(scope, table.limits.items()) as u128;
    let rows = tested_rows(scope, table.limits.items());
    Bound {
        ops: 1 + foreign + limits,
        entries: 1 + foreign + rows,
    }
}

fn touches_parts(set: ColSet, parts: &[KeyPart]) -> bool
    requires { AreParts parts.now }
    ensures { result ≡ list_any (λ part. has_col set part.col) parts.now }
{
    parts.iter().any(|part| set.has(part.col))
}

/// Whether a column of the key that is not in the one set is in the other.
fn touches_rest(set: ColSet, left_out: ColSet, key: &[u8]) -> bool
    requires { AreColumns key.now }
    ensures { result ≡ list_any (λ col. not (has_col left_out col) && has_col set col) key.now }
{
    key.iter().any(|col| !left_out.has(*col) && set.has(*col))
}

/// Whether the sequence of the index holds a column that gets a value.
fn touches_index(scope: &Scope, table: &Table, index: &Index) -> bool
    requires key { AreColumns table.now.key }
    requires parts { AreParts index.now.cols }
    ensures { result ≡ touches_index scope.now table.now index.now }
{
    match scope {
        Scope::All => true,
        Scope::Columns(set) => {
            let parts = index.cols.items();
            touches_parts(*set, parts) || touches_rest(*set, columns_in(parts), table.key.items())
        }
    }
}

fn touched_indexes(scope: &Scope, table: &Table) -> usize
    requires key { AreColumns table.now.key }
    requires parts { All (λ index. AreParts index.cols) table.now.indexes }
    ensures { result ≡ count_by (touches_index scope.now table.now) table.now.indexes }
{
    let mut count = 0;
    for index in table.indexes.items() {
        if touches_index(scope, table, index) {
            count += 1;
        }
    }
    count
}

/// How many foreign keys of a table refer to another.
pub(crate) fn refers(number: u8, table: &Table) -> usize
    ensures { result ≡ refers number table.now }
{
    table
        .foreign
        .items()
        .iter()
        .filter(|foreign| foreign.table == number)
        .count()
}

/// How many foreign keys refer to the table.
fn referring(tables: &[Table], number: u8) -> u128
    ensures sum { result ≡ referring_count tables.now number }
    ensures few { result ≤ 2 ^ 64 * length tables.now }
{
    let mut sum: u128 = 0;
    for table in tables {
        sum += refers(number, table) as u128;
    }
    sum
}

/// The operations that so many changes take.
pub fn commit_ops(changes: usize) -> u128
    ensures ops { result ≡ write_ops changes }
    ensures few { result < 2 ^ 80 }
{
    if changes == 1 { 1 } else { changes as u128 + 2 }
}

/// The greatest number of pairs that the write changes.
pub fn most_changes(catalog: &Catalog, write: &Write) -> usize
    requires sound { AreWritable catalog.now.tables }
    requires write { IsWrite catalog.now.tables write.now }
    ensures { result ≡ most_changes catalog.now.tables write.now }
{
    match write {
        Write::Insert { table, .. } | Write::Delete { table, .. } => {
            1 + catalog.table(*table).indexes.items().len()
        }
        Write::Update { table, sets, .. } => {
            1 + 2 * touched_indexes(&Scope::of(sets.items()), catalog.table(*table))
        }
    }
}

/// The operations and entries that the tests of the write take.
fn write_tests(catalog: &Catalog, write: &Write) -> Bound
    requires sound { AreWritable catalog.now.tables }
    requires write { IsWrite catalog.now.tables write.now }
    ensures tests { result ≡ write_tests catalog.now.tables write.now }
    ensures few { result.ops < 2 ^ 80 }
{
    match write {
        Write::Insert { table, .. } => tests(&Scope::All, catalog.table(*table)),
        Write::Update { table, sets, .. } => {
            tests(&Scope::of(sets.items()), catalog.table(*table))
        }
        Write::Delete { table, .. } => {
            let referring = referring(catalog.tables(), *table);
            Bound {
                ops: 1 + referring,
                entries: 1 + referring,
            }
        }
    }
}

/// What the write may use at most: its tests, and then the changes of its pairs.
pub fn write_bound(catalog: &Catalog, write: &Write) -> Bound
    requires write { IsWrite catalog.now.tables write.now }
    ensures { result ≡ write_bound catalog.now.tables write.now }
{
    catalog.known();
    let tests = write_tests(catalog, write);
    Bound {
        ops: tests.ops + commit_ops(most_changes(catalog, write)),
        entries: tests.entries,
    }
}

/// How many limits of the write's table, or foreign keys that refer to it, the write may count rows of.
fn counted(catalog: &Catalog, write: &Write) -> u128
    requires sound { AreWritable catalog.now.tables }
    requires write { IsWrite catalog.now.tables write.now }
    ensures counted { result ≡ counted catalog.now.tables write.now }
    ensures few { result < 2 ^ 80 }
{
    match write {
        Write::Insert { table, .. } => {
            tested_limits(&Scope::All, catalog.table(*table).limits.items()) as u128
        }
        Write::Update { table, sets, .. } => {
            let scope = Scope::of(sets.items());
            tested_limits(&scope, catalog.table(*table).limits.items()) as u128
        }
        Write::Delete { table, .. } => referring(catalog.tables(), *table),
    }
}

/// The operations and entries that the tests of the write take behind so many writes of a batch that remove pairs.
pub fn tests_behind(catalog: &Catalog, write: &Write, removers: u32) -> Bound
    requires write { IsWrite catalog.now.tables write.now }
    requires few { removers ≤ 256 }
    ensures tests { result ≡ tests_behind removers catalog.now.tables write.now }
    ensures ops { result.ops ≤ 300 }
    ensures entries { result.entries ≤ 66000 }
{
    catalog.known();
    let tests = write_tests(catalog, write);
    let counted = counted(catalog, write);
    Bound {
        ops: tests.ops,
        entries: tests.entries + counted * removers as u128,
    }
}
