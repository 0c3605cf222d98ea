//! A map of keys to values, each in memory of its own, seen as its content.
ghost use Rattle.std.specs.Prelude.{◌≡◌, ◌++◌, true, false, IfOk, OnOk, OnErr, map, take, length, min, if◌then◌else◌};
ghost use Rattle.std.specs.Option.{option_copied};
ghost use Rattle.std.specs.FinMap.{empty, entries, get as value_at, insert, remove};
ghost use Rattle.std.specs.Ordering.{is_lt};
ghost use Rattle.pq_store.specs.Content.{entry, pairs_within, key_cmp};
ghost use Rattle.pq_mem_store.specs.Split.{pair_bytes};

use pq_base::{List, NoMem};
use pq_store::{Pair, pair_of};
use std::alloc::Global;
use std::collections::{BTreeMap, btree_map};
use std::marker::Model;
use std::ops::Range;

/// Pairs in the order of their keys. A search is made without a copy of the key, and a value is put into its place; for
/// that each pair takes two pieces of memory.
#[derive(Drop)]
pub(crate) struct PairMap {
    values: BTreeMap<Vec<u8>, Vec<u8>>,
}

impl Model for PairMap {
    ghost use Rattle.std.specs.Prelude.{IsTrue, map};
    ghost use Rattle.std.specs.FinMap.{from_sorted};
    ghost use Rattle.pq_store.specs.Content.{Content, content_code, is_rising};
    ghost use Rattle.pq_mem_store.specs.Split.{pair_bytes};

    ghost Value = { Content };

    ghost coded = { content_code };

    ghost view = { λ a. from_sorted (map (pair_bytes (λ k. k.items) (λ v. v.items)) a.values.entries) };

    ghost invariant = { λ a. IsTrue (is_rising (map (pair_bytes (λ k. k.items) (λ v. v.items)) a.values.entries)) };
}

impl PairMap {
    /// No pairs.
    pub(crate) fn new(alloc: Global) -> PairMap
        ensures { result ≡ empty }
    {
        PairMap {
            values: BTreeMap::new(alloc),
        }
    }

    /// Puts copies of all pairs behind those that are there.
    pub(crate) fn copy_all(&self, alloc: Global, copies: &mut List<Pair>) -> Result<(), NoMem>
        ensures { OnOk result (map entry copies.new ≡ map entry copies.old ++ entries self.now) }
    {
        for (key, value) in &self.values {
            copies.push(alloc, pair_of(alloc, key.as_slice(), value.as_slice())?)?;
        }
        Ok(())
    }

    /// The value of a key.
    pub(crate) fn find(&self, key: &[u8]) -> Option<&[u8]>
        ensures { option_copied result ≡ value_at self.now key.now }
    {
        match self.values.get(key) {
            Some(value) => Some(value.as_slice()),
            None => None,
        }
    }

    /// Puts copies of the first pairs of a range, or of all where there are fewer, behind those that are there.
    pub(crate) fn copy_first(
        &self,
        alloc: Global,
        low: &[u8],
        high: &[u8],
        limit: u32,
        copies: &mut List<Pair>,
    ) -> Result<(), NoMem>
        ensures { OnOk result (map entry copies.new
            ≡ map entry copies.old ++ take limit (pairs_within self.now low.now high.now)) }
    {
        let bounds = bounds_of(alloc, low, high)?;
        copy_range(alloc, self.values.range(bounds), limit, copies)
    }

    /// The lesser of `cap` and the number of pairs of a range.
    pub(crate) fn number(
        &self,
        alloc: Global,
        low: &[u8],
        high: &[u8],
        cap: u32,
    ) -> Result<u32, NoMem>
        ensures { IfOk result (λ n. n ≡ min cap (length (pairs_within self.now low.now high.now))) }
    {
        let bounds = bounds_of(alloc, low, high)?;
        Ok(self.values.range(bounds).take(cap as usize).count() as u32)
    }

    // Gives a key this value in the place of one of the same length, and tells whether it has one.
    fn overwrite(&mut self, key: &[u8], value: &[u8]) -> bool
        ensures done { result ≡ true → self.new ≡ insert self.old key.now value.now }
        ensures kept { result ≡ false → self.new ≡ self.old }
    {
        let Some(place) = self.values.get_mut(key) else {
            return false;
        };
        if place.len() != value.len() {
            return false;
        }
        place.copy_from_slice(value);
        true
    }

    /// Puts a pair: by one search where the key has a value of the same length, and else by two.
    pub(crate) fn put(&mut self, alloc: Global, key: &[u8], value: &[u8]) -> Result<(), NoMem>
        ensures ok { OnOk result (self.new ≡ insert self.old key.now value.now) }
        ensures err { OnErr result (self.new ≡ self.old) }
    {
        if self.overwrite(key, value) {
            return Ok(());
        }
        let value = vec_of(alloc, value)?;
        self.values.insert(vec_of(alloc, key)?, value)?;
        Ok(())
    }

    /// Takes the pair of a key out.
    pub(crate) fn take_out(&mut self, key: &[u8])
        ensures { self.new ≡ remove self.old key.now }
    {
        self.values.remove(key);
    }
}

// A copy of bytes.
pub(crate) fn vec_of(alloc: Global, bytes: &[u8]) -> Result<Vec<u8>, NoMem>
    ensures { IfOk result (λ copy. copy.items ≡ bytes.now) }
{
    let mut copy = Vec::with_capacity(alloc, bytes.len())?;
    copy.extend_from_slice(bytes)?;
    Ok(copy)
}

// The bounds of a range from a low key up to a high one. Where that is below the low one, they are both the low one.
fn bounds_of(alloc: Global, low: &[u8], high: &[u8]) -> Result<Range<Vec<u8>>, NoMem>
    ensures start { IfOk result (λ bounds. bounds.start.items ≡ low.now) }
    ensures end { IfOk result (λ bounds. bounds.end.items
        ≡ (if is_lt (key_cmp low.now high.now) then high.now else low.now)) }
{
    let start = vec_of(alloc, low)?;
    let end = if low.cmp(high).is_lt() { high } else { low };
    Ok(start..vec_of(alloc, end)?)
}

// Puts copies of the first pairs of a range, or of all where there are fewer, behind those that are there.
fn copy_range(
    alloc: Global,
    range: btree_map::Range<'_, Vec<u8>, Vec<u8>>,
    limit: u32,
    copies: &mut List<Pair>,
) -> Result<(), NoMem>
    ensures { OnOk result (map entry copies.new
        ≡ map entry copies.old ++ take limit (map (pair_bytes (λ k. k.items) (λ v. v.items)) range.entry)) }
{
    for (key, value) in range.take(limit as usize) {
        copies.push(alloc, pair_of(alloc, key.as_slice(), value.as_slice())?)?;
    }
    Ok(())
}
