//! What counters add to the bound of a write.
ghost use Rattle.std.specs.Prelude.{◌≡◌, ◌≤◌, ◌<◌, ◌+◌, ◌^◌, ℕ, All, List};
ghost use Rattle.pq_index_keep.specs.Sound.{IsWrite};
ghost use Rattle.pq_tallies.specs.Defined.{NumberedCounter, counters_in, numbered_of, with_number};
ghost use Rattle.pq_counters.specs.Bounds.{update_moves, most_moves, rereading, all_moves, counter_reads, counter_bound, whole_bound};
ghost use Rattle.pq_counters.specs.Whole.{whole_changes, reads_behind};
ghost use Rattle.pq_counters.specs.Steps.{HasSmallColumns, HasSmallCounter};

use pq_base::Bound;
use pq_index_keep::{Scope, SetCol, Write, commit_ops, most_changes, tests_behind, write_bound};
use pq_schema::{Catalog, Counter, Definition};

/// How many pairs of the counter an UPDATE of these columns changes at most.
fn update_moves(table: u8, sets: &[SetCol], counter: &Counter) -> usize
    requires sets { All (λ set. set.col < 32) sets.now }
    requires columns { All (λ col. col < 32) counter.now.cols }
    ensures moves { (number : ℕ) → result ≡ update_moves table sets.now (with_number number counter.now) }
    ensures few { result ≤ 2 }
{
    if table != counter.table {
        return 0;
    }
    if Scope::of(sets).touches(counter.cols.items()) {
        2
    } else {
        0
    }
}

/// How many pairs of the counter the write changes at most.
fn most_moves(write: &Write, counter: &Counter) -> usize
    requires sets { HasSmallColumns write.now }
    requires columns { All (λ col. col < 32) counter.now.cols }
    ensures moves { (number : ℕ) → result ≡ most_moves write.now (with_number number counter.now) }
    ensures few { result ≤ 2 }
{
    match write {
        Write::Insert { table, .. } | Write::Delete { table, .. } => {
            if *table == counter.table { 1 } else { 0 }
        }
        Write::Update { table, sets, .. } => update_moves(*table, sets.items(), counter),
    }
}

/// The same of a definition: none where it is no counter's.
fn definition_moves(write: &Write, definition: &Definition) -> usize
    requires sets { HasSmallColumns write.now }
    requires columns { HasSmallCounter definition.now }
    ensures moves { (number : ℕ) → result ≡ all_moves (numbered_of number definition.now) write.now }
    ensures few { result ≤ 2 }
{
    match definition {
        Definition::OfTable { .. } | Definition::OfQuery { .. } | Definition::OfColumn { .. } => 0,
        Definition::OfCounter { counter } => most_moves(write, counter),
    }
}

/// How many pairs of all counters the write changes at most.
pub(crate) fn all_moves(catalog: &Catalog, write: &Write) -> usize
    requires sets { HasSmallColumns write.now }
    requires columns { All HasSmallCounter catalog.now.definitions }
    ensures moves { result ≡ all_moves (counters_in catalog.now) write.now }
    ensures few { result ≤ 512 }
{
    let count = catalog.defs();
    let mut sum = 0;
    for place in 0..count {
        sum += definition_moves(write, catalog.definition_at(place + 1));
    }
    sum
}

/// One where the old row is read again, else none.
fn rereading(write: &Write) -> usize
    ensures { result ≡ rereading write.now }
{
    match write {
        Write::Insert { .. } => 0,
        Write::Update { .. } | Write::Delete { .. } => 1,
    }
}

/// How many reads the counters of which so many pairs may change take.
fn counter_reads(moves: usize, write: &Write) -> usize
    requires few { moves ≤ 512 }
    ensures reads { (counters : List NumberedCounter) → moves ≡ all_moves counters write.now
        → result ≡ counter_reads counters write.now }
    ensures few { result ≤ 513 }
{
    if moves == 0 {
        return 0;
    }
    rereading(write) + moves
}

/// The greatest number of pairs that the write changes, of rows, entries and counters.
pub fn whole_changes(catalog: &Catalog, write: &Write) -> usize
    requires { IsWrite catalog.now.tables write.now }
    ensures changes { result ≡ whole_changes catalog.now write.now }
    ensures few { result ≤ 41 }
{
    catalog.known();
    most_changes(catalog, write) + all_moves(catalog, write)
}

/// What the tests of the write and the reads of its counters take at most, behind so many writes that remove pairs.
pub fn reads_behind(catalog: &Catalog, write: &Write, removers: u32) -> Bound
    requires write { IsWrite catalog.now.tables write.now }
    requires few { removers ≤ 256 }
    ensures reads { result ≡ reads_behind removers catalog.now write.now }
    ensures ops { result.ops ≤ 2 ^ 20 }
    ensures entries { result.entries ≤ 2 ^ 20 }
{
    catalog.known();
    let tests = tests_behind(catalog, write, removers);
    let reads = counter_reads(all_moves(catalog, write), write) as u128;
    Bound {
        ops: tests.ops + reads,
        entries: tests.entries + reads,
    }
}

/// What the counters add to the bound of the write: their reads, and the changes of their pairs.
pub fn counter_bound(catalog: &Catalog, write: &Write) -> Bound
    requires { IsWrite catalog.now.tables write.now }
    ensures { result ≡ counter_bound catalog.now write.now }
{
    catalog.known();
    let moves = all_moves(catalog, write);
    let reads = counter_reads(moves, write) as u128;
    let changes = most_changes(catalog, write);
    Bound {
        ops: reads + (commit_ops(changes + moves) - commit_ops(changes)),
        entries: reads,
    }
}

/// The bound of a write with what its counters add.
pub fn whole_bound(catalog: &Catalog, write: &Write) -> Bound
    requires { IsWrite catalog.now.tables write.now }
    ensures is { result ≡ whole_bound catalog.now write.now }
    ensures ops { result.ops < 2 ^ 32 }
    ensures entries { result.entries < 2 ^ 32 }
{
    catalog.known();
    let rows = write_bound(catalog, write);
    let counters = counter_bound(catalog, write);
    Bound {
        ops: rows.ops + counters.ops,
        entries: rows.entries + counters.entries,
    }
}
