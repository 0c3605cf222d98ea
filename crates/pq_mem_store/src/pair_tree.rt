//! Pairs in the order of their keys, each in one piece of memory, seen as their content.
ghost use Rattle.std.specs.Prelude.{◌≡◌, ◌++◌, IfOk, OnOk, OnErr, map, take, length, min};
ghost use Rattle.std.specs.Option.{option_copied};
ghost use Rattle.std.specs.FinMap.{empty, entries, get as value_at, insert, remove};
ghost use Rattle.pq_store.specs.Content.{entry, pairs_within};

use crate::block::Block;
use crate::held::HeldPair;
use crate::run::Run;
use crate::runs::Runs;
use pq_base::{List, NoMem};
use pq_store::Pair;
use std::alloc::Global;
use std::marker::Model;

/// Pairs in the order of their keys, in blocks. A list of lists of blocks holds them, so that a write moves a short
/// part of one list, or of each where a block is cut.
#[derive(Drop)]
pub(crate) struct PairTree {
    runs: Runs<Runs<Block>>,
}

impl Model for PairTree {
    ghost use Rattle.std.specs.Prelude.{IsTrue};
    ghost use Rattle.std.specs.FinMap.{from_sorted};
    ghost use Rattle.pq_store.specs.Content.{Content, content_code, is_rising};

    ghost Value = { Content };

    ghost coded = { content_code };

    ghost view = { λ a. from_sorted a.runs };

    ghost invariant = { λ a. IsTrue (is_rising a.runs) };
}

impl PairTree {
    /// No pairs.
    pub(crate) fn new(alloc: Global) -> PairTree
        ensures { result ≡ empty }
    {
        PairTree {
            runs: Runs::new(alloc),
        }
    }

    /// Puts copies of all pairs behind those that are there.
    #[tactic(auto, using(pq_store::proofs::Views::seen_entries))]
    pub(crate) fn copy_all(&self, alloc: Global, copies: &mut List<Pair>) -> Result<(), NoMem>
        ensures { OnOk result (map entry copies.new ≡ map entry copies.old ++ entries self.now) }
    {
        self.runs.copy_all(alloc, copies)
    }

    /// The value of a key.
    pub(crate) fn find(&self, key: &[u8]) -> Option<&[u8]>
        ensures { option_copied result ≡ value_at self.now key.now }
    {
        self.runs.find(key)
    }

    /// Puts copies of the first pairs of a range, or of all where there are fewer, behind those that are there.
    pub(crate) fn copy_first(
        &self,
        alloc: Global,
        low: &[u8],
        high: &[u8],
        limit: u32,
        copies: &mut List<Pair>,
    ) -> Result<(), NoMem>
        ensures { OnOk result (map entry copies.new
            ≡ map entry copies.old ++ take limit (pairs_within self.now low.now high.now)) }
    {
        let most = copies.items().len() + limit as usize;
        self.runs.copy_range(alloc, low, high, most, copies)
    }

    /// The lesser of `cap` and the number of pairs of a range.
    pub(crate) fn number(&self, low: &[u8], high: &[u8], cap: u32) -> u32
        ensures { result ≡ min cap (length (pairs_within self.now low.now high.now)) }
    {
        self.runs.number(low, high, cap)
    }

    /// Puts a pair.
    pub(crate) fn put(&mut self, alloc: Global, key: &[u8], value: &[u8]) -> Result<(), NoMem>
        ensures ok { OnOk result (self.new ≡ insert self.old key.now value.now) }
        ensures err { OnErr result (self.new ≡ self.old) }
    {
        let pair = HeldPair::new(alloc, key, value)?;
        self.runs.put(alloc, pair)
    }

    /// Takes the pair of a key out.
    pub(crate) fn take_out(&mut self, key: &[u8])
        ensures { self.new ≡ remove self.old key.now }
    {
        self.runs.take_out(key);
    }
}
