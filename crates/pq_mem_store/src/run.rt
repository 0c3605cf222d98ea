//! Runs of pairs, and the search for the run into which a key belongs.
ghost use Rattle.std.specs.Prelude.{◌≡◌, ◌≤◌, ◌<◌, ◌++◌, ℕ, IsTrue, length, filter, IfOk, OnErr, List};
ghost use Rattle.std.specs.List.{flat_map};
ghost use Rattle.pq_store.specs.Content.{is_rising, is_within};
ghost use Rattle.pq_mem_store.specs.Runs.{all_have, IsBegun, IsSeat};

use crate::held::HeldPair;
use pq_base::{List, NoMem};
use pq_store::Pair;
use std::alloc::Global;

/// How many pairs a block has at most, and how many runs a run of runs.
pub(crate) const MOST: usize = 64;

/// What begins with a key: a pair, or pairs in the order of their keys.
pub(crate) trait Begins {
    ghost use Rattle.std.specs.Prelude.{◌≡◌, IsTrue};
    ghost use Rattle.pq_mem_store.specs.Runs.{Pairs, has_pairs, first_key};

    // The pairs in it.
    ghost pairs: { Self → Pairs };

    /// The key of its first pair.
    fn key(&self) -> &[u8]
        requires { IsTrue (has_pairs (pairs self.now)) }
        ensures { result.now ≡ first_key (pairs self.now) };
}

/// Pairs in the order of their keys, as many as one list holds without a long move for one more.
pub(crate) trait Run: Begins + Drop {
    ghost use Rattle.std.specs.Prelude.{◌≡◌, ◌≤◌, ◌++◌, [], IsTrue, not, IfOk, OnOk, OnErr, MatchOption};
    ghost use Rattle.std.specs.Prelude.{filter, map, take, length, min};
    ghost use Rattle.std.specs.Option.{option_copied};
    ghost use Rattle.std.specs.FinMap.{find, put};
    ghost use Rattle.pq_store.specs.Content.{entry, is_within, key_cmp};
    ghost use Rattle.pq_mem_store.specs.Runs.{has_pairs, others};

    /// No pairs.
    fn new(alloc: Global) -> Self
        ensures { Self.pairs result ≡ [] };

    fn is_empty(&self) -> bool
        ensures { result ≡ not (has_pairs (Self.pairs self.now)) };

    /// The value of a key.
    fn find(&self, key: &[u8]) -> Option<&[u8]>
        ensures { option_copied result ≡ find key_cmp key.now (Self.pairs self.now) };

    /// Puts copies of all pairs behind those that are there.
    fn copy_all(&self, alloc: Global, copies: &mut List<Pair>) -> Result<(), NoMem>
        ensures { OnOk result (map entry copies.new ≡ map entry copies.old ++ Self.pairs self.now) };

    /// Puts copies of the pairs of a range behind those that are there, until there are `most` in all.
    fn copy_range(
        &self,
        alloc: Global,
        low: &[u8],
        high: &[u8],
        most: usize,
        copies: &mut List<Pair>,
    ) -> Result<(), NoMem>
        requires { length copies.old ≤ most }
        ensures few { length copies.new ≤ most }
        ensures ok { OnOk result (map entry copies.new
            ≡ take most (map entry copies.old ++ filter (is_within low.now high.now) (Self.pairs self.now))) };

    /// The lesser of `cap` and the number of pairs of a range.
    fn number(&self, low: &[u8], high: &[u8], cap: u32) -> u32
        ensures { result ≡ min cap (length (filter (is_within low.now high.now) (Self.pairs self.now))) };

    /// Where it is full, cuts it in two parts with pairs and gives the second one. The cut suits pairs that come in
    /// the order of their keys: where the key to be put comes behind all, it is made before the last.
    fn cut(&mut self, alloc: Global, key: &[u8]) -> Result<Option<Self>, NoMem>
        ensures ok { IfOk result (λ cut. MatchOption cut (Self.pairs self.new ≡ Self.pairs self.old)
            (λ part. (Self.pairs self.new ++ Self.pairs part ≡ Self.pairs self.old)
            × IsTrue (has_pairs (Self.pairs self.new)) × IsTrue (has_pairs (Self.pairs part)))) }
        ensures err { OnErr result (Self.pairs self.new ≡ Self.pairs self.old) };

    /// Puts a pair, over the one with its key where there is one.
    fn put(&mut self, alloc: Global, pair: HeldPair) -> Result<(), NoMem>
        ensures ok { OnOk result (Self.pairs self.new ≡ put key_cmp pair.0 pair.1 (Self.pairs self.old)) }
        ensures err { OnErr result (Self.pairs self.new ≡ Self.pairs self.old) };

    /// Takes the pair of a key out.
    fn take_out(&mut self, key: &[u8])
        ensures { Self.pairs self.new ≡ others key.now (Self.pairs self.old) };
}

/// The place of the middle element of a part that has one.
pub(crate) fn middle(low: usize, high: usize) -> usize
    requires { low < high }
    ensures low { low ≤ result }
    ensures high { result < high }
{
    low + (high - low) / 2
}

/// How many of them begin with a key that is no greater.
pub(crate) fn begun<R: Begins>(runs: &[R], key: &[u8]) -> usize
    requires { IsTrue (all_have R.pairs runs.now) }
    ensures { IsBegun R.pairs runs.now key.now result }
{
    let mut low = 0;
    let mut high = runs.len();
    while low < high {
        let at = middle(low, high);
        if runs[at].key().cmp(key).is_le() {
            low = at + 1;
        } else {
            high = at;
        }
    }
    low
}

/// The run into which a key belongs: the last one that begins with no greater key, or else the first one.
pub(crate) fn seat<R: Begins>(runs: &[R], key: &[u8]) -> usize
    requires some { 0 < length runs.now }
    requires have { IsTrue (all_have R.pairs runs.now) }
    requires rising { IsTrue (is_rising (flat_map R.pairs runs.now)) }
    ensures { IsSeat R.pairs runs.now key.now result }
{
    begun(runs, key).saturating_sub(1)
}

/// The runs from the one on in which a range begins.
pub(crate) fn from_seat<'a, R: Begins>(runs: &'a [R], low: &[u8]) -> &'a [R]
    requires have { IsTrue (all_have R.pairs runs.now) }
    requires rising { IsTrue (is_rising (flat_map R.pairs runs.now)) }
    ensures have { IsTrue (all_have R.pairs result.now) }
    ensures rising { IsTrue (is_rising (flat_map R.pairs result.now)) }
    ensures same { (high : List ℕ) → filter (is_within low.now high) (flat_map R.pairs result.now)
        ≡ filter (is_within low.now high) (flat_map R.pairs runs.now) }
{
    if runs.is_empty() {
        return runs;
    }
    let at = seat(runs, low);
    &runs[at..]
}

// Where so many runs are cut of which some begin with no greater key.
fn cut_place(begun: usize, len: usize) -> usize
    requires { 1 < len }
    ensures some { 0 < result }
    ensures more { result < len }
{
    if begun == len { len - 1 } else { len / 2 }
}

// A list with the room of a full one at once, where there is memory for it. Else it grows as it is filled.
fn with_room<R>(part: Vec<R>) -> Vec<R>
    ensures { result.items ≡ part.items }
{
    let mut part = part;
    let _ = part.reserve(MOST.saturating_sub(part.len()));
    part
}

/// Cuts the last runs off: half of them, or one where a key comes behind all.
pub(crate) fn cut_at<R: Begins>(runs: &mut Vec<R>, key: &[u8]) -> Result<Vec<R>, NoMem>
    requires some { 1 < length runs.old.items }
    requires have { IsTrue (all_have R.pairs runs.old.items) }
    ensures ok { IfOk result (λ part. (runs.new.items ++ part.items ≡ runs.old.items)
        × (0 < length runs.new.items) × (0 < length part.items)) }
    ensures err { OnErr result (runs.new.items ≡ runs.old.items) }
{
    let at = cut_place(begun(runs.as_slice(), key), runs.len());
    Ok(with_room(runs.split_off(at)?))
}
