//! Pairs that are found by a hash of their keys, seen as their content.
ghost use Rattle.std.specs.Prelude.{◌≡◌, ◌++◌, true, false, IfOk, OnOk, OnErr, map, take, length, min};
ghost use Rattle.std.specs.Option.{option_copied};
ghost use Rattle.std.specs.FinMap.{empty, entries, get as value_at, insert, remove};
ghost use Rattle.pq_store.specs.Content.{entry, pairs_within};

use crate::pair_map::{PairMap, vec_of};
use pq_base::{List, NoMem};
use pq_store::Pair;
use std::alloc::Global;
use std::collections::HashMap;
use std::marker::Model;

/// Pairs that are read, put and taken out without a search among the others. They stand in no order:
/// what asks for several of them puts all into order first.
#[derive(Drop)]
pub(crate) struct HashedPairs {
    values: HashMap<Vec<u8>, Vec<u8>>,
}

impl Model for HashedPairs {
    ghost use Rattle.pq_store.specs.Content.{Content, content_code};
    ghost use Rattle.pq_mem_store.specs.Split.{content_of};

    ghost Value = { Content };

    ghost coded = { content_code };

    ghost view = { λ a. content_of (λ k. k.items) (λ v. v.items) a.values.entries };
}

impl HashedPairs {
    /// No pairs.
    pub(crate) fn new(alloc: Global) -> HashedPairs
        ensures { result ≡ empty }
    {
        HashedPairs {
            values: HashMap::new(alloc),
        }
    }

    /// The value of a key.
    pub(crate) fn find(&self, key: &[u8]) -> Option<&[u8]>
        ensures { option_copied result ≡ value_at self.now key.now }
    {
        match self.values.get(key) {
            Some(value) => Some(value.as_slice()),
            None => None,
        }
    }

    // Copies of the pairs, in the order of their keys.
    fn ordered(&self, alloc: Global) -> Result<PairMap, NoMem>
        ensures { IfOk result (λ ordered. ordered ≡ self.now) }
    {
        let mut ordered = PairMap::new(alloc);
        for (key, value) in &self.values {
            ordered.put(alloc, key.as_slice(), value.as_slice())?;
        }
        Ok(ordered)
    }

    /// Puts copies of all pairs behind those that are there.
    pub(crate) fn copy_all(&self, alloc: Global, copies: &mut List<Pair>) -> Result<(), NoMem>
        ensures { OnOk result (map entry copies.new ≡ map entry copies.old ++ entries self.now) }
    {
        self.ordered(alloc)?.copy_all(alloc, copies)
    }

    /// Puts copies of the first pairs of a range, or of all where there are fewer, behind those that are there.
    pub(crate) fn copy_first(
        &self,
        alloc: Global,
        low: &[u8],
        high: &[u8],
        limit: u32,
        copies: &mut List<Pair>,
    ) -> Result<(), NoMem>
        ensures { OnOk result (map entry copies.new
            ≡ map entry copies.old ++ take limit (pairs_within self.now low.now high.now)) }
    {
        self.ordered(alloc)?
            .copy_first(alloc, low, high, limit, copies)
    }

    /// The lesser of `cap` and the number of pairs of a range.
    pub(crate) fn number(
        &self,
        alloc: Global,
        low: &[u8],
        high: &[u8],
        cap: u32,
    ) -> Result<u32, NoMem>
        ensures { IfOk result (λ n. n ≡ min cap (length (pairs_within self.now low.now high.now))) }
    {
        self.ordered(alloc)?.number(alloc, low, high, cap)
    }

    // Gives a key this value in the place of one of the same length, and tells whether it has one.
    fn overwrite(&mut self, key: &[u8], value: &[u8]) -> bool
        ensures done { result ≡ true → self.new ≡ insert self.old key.now value.now }
        ensures kept { result ≡ false → self.new ≡ self.old }
    {
        let Some(place) = self.values.get_mut(key) else {
            return false;
        };
        if place.len() != value.len() {
            return false;
        }
        place.copy_from_slice(value);
        true
    }

    // Puts a pair in a way that serves any.
    fn put_any(&mut self, alloc: Global, key: &[u8], value: &[u8]) -> Result<(), NoMem>
        ensures ok { OnOk result (self.new ≡ insert self.old key.now value.now) }
        ensures err { OnErr result (self.new ≡ self.old) }
    {
        let value = vec_of(alloc, value)?;
        let own = vec_of(alloc, key)?;
        self.values.insert(own, value)?;
        Ok(())
    }

    /// Puts a pair: over the value of its key, where that has the same length.
    pub(crate) fn put(&mut self, alloc: Global, key: &[u8], value: &[u8]) -> Result<(), NoMem>
        ensures ok { OnOk result (self.new ≡ insert self.old key.now value.now) }
        ensures err { OnErr result (self.new ≡ self.old) }
    {
        if self.overwrite(key, value) {
            return Ok(());
        }
        self.put_any(alloc, key, value)
    }

    /// Takes the pair of a key out.
    pub(crate) fn take_out(&mut self, key: &[u8])
        ensures { self.new ≡ remove self.old key.now }
    {
        self.values.remove(key);
    }
}
