//! The pairs with late keys: the intent, and the numbers of counters.
ghost use Rattle.std.specs.Prelude.{◌≡◌, ◌++◌, IfOk, OnOk, OnErr, map, take, length, min};
ghost use Rattle.std.specs.Option.{option_copied};
ghost use Rattle.std.specs.FinMap.{empty, entries, get as value_at, insert, remove};
ghost use Rattle.pq_store.specs.Content.{entry, pairs_within};
ghost use Rattle.pq_mem_store.specs.Split.{first_number, is_from};

use crate::hashed_pairs::HashedPairs;
use crate::pair_map::PairMap;
use pq_base::{List, NoMem};
use pq_store::Pair;
use std::alloc::Global;
use std::marker::Model;

/// Pairs in two parts. The intent comes and goes with most writes, and stands alone, so that no other is moved for it.
/// The numbers of counters are found by a hash of their keys.
#[derive(Drop)]
pub(crate) struct LatePairs {
    marks: PairMap,
    numbers: HashedPairs,
}

impl Model for LatePairs {
    ghost use Rattle.std.specs.Prelude.{IsTrue};
    ghost use Rattle.std.specs.FinMap.{entries};
    ghost use Rattle.pq_store.specs.Content.{Content, content_code};
    ghost use Rattle.pq_mem_store.specs.Split.{first_number, both_contents, are_before, are_from};

    ghost Value = { Content };

    ghost coded = { content_code };

    ghost view = { λ a. both_contents a.marks a.numbers };

    ghost invariant = { λ a. IsTrue (are_before first_number (entries a.marks))
        × IsTrue (are_from first_number (entries a.numbers)) };
}

// Whether a key belongs to the numbers: from the first byte 5 on.
fn is_number(key: &[u8]) -> bool
    ensures { result ≡ is_from first_number key.now }
{
    match key {
        [first, ..] => *first >= 5,
        [] => false,
    }
}

impl LatePairs {
    /// No pairs.
    pub(crate) fn new(alloc: Global) -> LatePairs
        ensures { result ≡ empty }
    {
        LatePairs {
            marks: PairMap::new(alloc),
            numbers: HashedPairs::new(alloc),
        }
    }

    /// Puts copies of all pairs behind those that are there.
    pub(crate) fn copy_all(&self, alloc: Global, copies: &mut List<Pair>) -> Result<(), NoMem>
        ensures { OnOk result (map entry copies.new ≡ map entry copies.old ++ entries self.now) }
    {
        self.marks.copy_all(alloc, copies)?;
        self.numbers.copy_all(alloc, copies)
    }

    /// The value of a key.
    pub(crate) fn find(&self, key: &[u8]) -> Option<&[u8]>
        ensures { option_copied result ≡ value_at self.now key.now }
    {
        if is_number(key) {
            self.numbers.find(key)
        } else {
            self.marks.find(key)
        }
    }

    /// Puts copies of the first pairs of a range, or of all where there are fewer, behind those that are there.
    pub(crate) fn copy_first(
        &self,
        alloc: Global,
        low: &[u8],
        high: &[u8],
        limit: u32,
        copies: &mut List<Pair>,
    ) -> Result<(), NoMem>
        ensures { OnOk result (map entry copies.new
            ≡ map entry copies.old ++ take limit (pairs_within self.now low.now high.now)) }
    {
        if is_number(low) {
            return self.numbers.copy_first(alloc, low, high, limit, copies);
        }
        let before = copies.items().len();
        self.marks.copy_first(alloc, low, high, limit, copies)?;
        if !is_number(high) {
            return Ok(());
        }
        let left = limit - (copies.items().len() - before) as u32;
        self.numbers.copy_first(alloc, low, high, left, copies)
    }

    /// The lesser of `cap` and the number of pairs of a range.
    pub(crate) fn number(
        &self,
        alloc: Global,
        low: &[u8],
        high: &[u8],
        cap: u32,
    ) -> Result<u32, NoMem>
        ensures { IfOk result (λ n. n ≡ min cap (length (pairs_within self.now low.now high.now))) }
    {
        if is_number(low) {
            return self.numbers.number(alloc, low, high, cap);
        }
        let marks = self.marks.number(alloc, low, high, cap)?;
        if !is_number(high) {
            return Ok(marks);
        }
        Ok(marks + self.numbers.number(alloc, low, high, cap - marks)?)
    }

    /// Puts a pair.
    pub(crate) fn put(&mut self, alloc: Global, key: &[u8], value: &[u8]) -> Result<(), NoMem>
        ensures ok { OnOk result (self.new ≡ insert self.old key.now value.now) }
        ensures err { OnErr result (self.new ≡ self.old) }
    {
        if is_number(key) {
            self.numbers.put(alloc, key, value)
        } else {
            self.marks.put(alloc, key, value)
        }
    }

    /// Takes the pair of a key out.
    pub(crate) fn take_out(&mut self, key: &[u8])
        ensures { self.new ≡ remove self.old key.now }
    {
        if is_number(key) {
            self.numbers.take_out(key);
        } else {
            self.marks.take_out(key);
        }
    }
}
