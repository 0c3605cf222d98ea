//! The bound of a batch.
ghost use Rattle.std.specs.Prelude.{◌≡◌, ◌≤◌, ◌<◌, ◌+◌, ◌*◌, ◌^◌, length};
ghost use Rattle.std.specs.List.{AllByRecursion};
ghost use Rattle.pq_index_keep.specs.Bounds.{removers_of};
ghost use Rattle.pq_index_keep.specs.Sound.{IsWrite};
ghost use Rattle.pq_batch.specs.Batches.{batch_bound, batch_changes, batch_reads};
ghost use Rattle.pq_batch.specs.Promises.{IsBatch};

use pq_base::{Bound, List};
use pq_counters::{reads_behind, whole_changes};
use pq_index_keep::{Write, commit_ops};
use pq_schema::Catalog;

/// How many pairs of a sequence the write removes at most.
pub(crate) fn removers_of(write: &Write) -> u32
    ensures removers { result ≡ removers_of write.now }
    ensures few { result ≤ 1 }
{
    match write {
        Write::Insert { .. } => 0,
        Write::Update { .. } | Write::Delete { .. } => 1,
    }
}

/// The reads of the writes, behind so many that remove pairs.
#[tactic(auto, unfolding(crate::specs::Batches::batch_reads))]
fn reads_from(catalog: &Catalog, writes: &[Write], removers: u32) -> Bound
    requires each { AllByRecursion (IsWrite catalog.now.tables) writes.now }
    requires few { removers + length writes.now ≤ 256 }
    ensures reads { result ≡ batch_reads catalog.now removers writes.now }
    ensures ops { result.ops ≤ 2 ^ 20 * length writes.now }
    ensures entries { result.entries ≤ 2 ^ 20 * length writes.now }
{
    let [write, rest @ ..] = writes else {
        return Bound { ops: 0, entries: 0 };
    };
    let first = reads_behind(catalog, write, removers);
    let more = reads_from(catalog, rest, removers + removers_of(write));
    Bound {
        ops: first.ops + more.ops,
        entries: first.entries + more.entries,
    }
}

/// The greatest number of pairs that the writes change.
fn changes_from(catalog: &Catalog, writes: &[Write]) -> usize
    requires each { AllByRecursion (IsWrite catalog.now.tables) writes.now }
    requires few { length writes.now ≤ 256 }
    ensures changes { result ≡ batch_changes catalog.now writes.now }
    ensures few { result ≤ 41 * length writes.now }
{
    match writes {
        [] => 0,
        [write, rest @ ..] => whole_changes(catalog, write) + changes_from(catalog, rest),
    }
}

/// What a batch may use: the reads of its writes, and the changes of all of them as one commit.
pub fn batch_bound(catalog: &Catalog, writes: &List<Write>) -> Bound
    requires { IsBatch catalog.now writes.now }
    ensures bound { result ≡ batch_bound catalog.now writes.now }
    ensures ops { result.ops < 2 ^ 32 }
    ensures entries { result.entries < 2 ^ 32 }
{
    let reads = reads_from(catalog, writes.items(), 0);
    let changes = changes_from(catalog, writes.items());
    Bound {
        ops: reads.ops + commit_ops(changes),
        entries: reads.entries,
    }
}
