//! One part: a key and the node that has the keys from there on.
ghost use Rattle.std.specs.Prelude.{◌≡◌, ◌≤◌, ◌<◌, ◌+◌, ◌*◌, ◌^◌, IfSome, IfOk, OnOk, ◌∷◌, [], filter, map, take, length, min};
ghost use Rattle.pq_store.specs.Content.{entry, is_within, ranged_entries, counted_entries};
ghost use Rattle.pq_parts.specs.Tally.{HasAsked};
ghost use Rattle.pq_parts.specs.Asking as asking;
ghost use Rattle.pq_parts.specs.Asking.{AsksNode};

use crate::asking::{number_of, put_answers};
use crate::clip::{earlier, later};
use crate::tally::Tally;
use pq_base::{Bytes, List, NoMem};
use pq_store::{Ends, Pair, Store, StoreErr};
use std::alloc::Global;
use std::sync::ledger::Ledger;

/// A node, and the first key of its range.
#[derive(Drop)]
pub struct Part<S> {
    /// The range has the keys from this one on, before that of the next part.
    pub from: Bytes,
    /// The node.
    pub store: S,
}

impl<S> Part<S> {
    ghost use Rattle.pq_parts.specs.Spans.{span_of, span_meets, own_content, number_met, IsPieceOf};

    // Whether the part, which ends before the next one's first key, has keys of the range.
    fn meets(&self, low: &[u8], high: &[u8], until: &Option<Bytes>) -> bool
        ensures { (content : _) → result ≡ span_meets low.now high.now (span_of content self.now until.now) }
    {
        if !low.cmp(high).is_lt() || !self.from.items().cmp(high).is_lt() {
            return false;
        }
        match until {
            Some(until) => low.cmp(until.items()).is_lt(),
            None => true,
        }
    }

    // The first `limit` pairs of the range that the part has, one call of the node or none.
    pub(crate) fn range<N: Ledger>(
        &mut self,
        alloc: Global,
        low: &[u8],
        high: &[u8],
        until: &Option<Bytes>,
        limit: u32,
        tally: &mut Tally<N>,
    ) -> Result<List<Pair>, StoreErr>
    where
        S: Store<N>,
        ensures answer { IfOk result (λ found. IfSome (own_content (span_of S.content self.old until.now)) (λ mine.
            map entry found ≡ take limit (filter (is_within low.now high.now) mine))) }
        ensures part { IfOk result
            (λ found. IsPieceOf (span_of S.content self.old until.now) low.now high.now limit
            (map entry found)) }
        ensures asks { AsksNode S.Store self.old self.new result }
        ensures tally { HasAsked tally.old tally.new
            (number_met low.now high.now (span_of S.content self.old until.now ∷ [])) limit
            (ranged_entries result) result }
    {
        if limit == 0 || !self.meets(low, high, until) {
            return Ok(List::new(alloc));
        }
        let low = later(low, self.from.items());
        let high = earlier(high, until);
        tally.range(alloc, &mut self.store, low, high, limit)
    }

    // How many pairs of the range the part has, up to `cap`: one call of the node or none.
    pub(crate) fn count<N: Ledger>(
        &mut self,
        alloc: Global,
        low: &[u8],
        high: &[u8],
        until: &Option<Bytes>,
        cap: u32,
        tally: &mut Tally<N>,
    ) -> Result<u32, StoreErr>
    where
        S: Store<N>,
        ensures answer { IfOk result (λ n. IfSome (own_content (span_of S.content self.old until.now)) (λ mine.
            n ≡ min cap (length (filter (is_within low.now high.now) mine)))) }
        ensures few { IfOk result (λ n. n ≤ cap) }
        ensures asks { AsksNode S.Store self.old self.new result }
        ensures tally { HasAsked tally.old tally.new
            (number_met low.now high.now (span_of S.content self.old until.now ∷ [])) cap
            (counted_entries result) result }
    {
        if cap == 0 || !self.meets(low, high, until) {
            return Ok(0);
        }
        let low = later(low, self.from.items());
        let high = earlier(high, until);
        tally.count(alloc, &mut self.store, low, high, cap)
    }

    // Whether the part, which ends before the next one's first key, has the key.
    fn has(&self, key: &[u8], until: &Option<Bytes>) -> bool
        ensures { result ≡ asking.lies self.now.from until.now key.now }
    {
        self.from.items().cmp(key).is_le()
            && match until {
                Some(until) => key.cmp(until.items()).is_lt(),
                None => true,
            }
    }

    // A copy of the key, where the part has it.
    fn own_key(
        &self,
        alloc: Global,
        key: &Option<Bytes>,
        until: &Option<Bytes>,
    ) -> Result<Option<Bytes>, NoMem>
        ensures { IfOk result (λ own. own ≡ asking.own_key self.now.from until.now key.now) }
    {
        let Some(key) = key else {
            return Ok(None);
        };
        if self.has(key.items(), until) {
            Ok(Some(Bytes::of_bytes(alloc, key.items())?))
        } else {
            Ok(None)
        }
    }

    // The keys that the part has, each at its place.
    fn own_keys(
        &self,
        alloc: Global,
        keys: &[Option<Bytes>],
        until: &Option<Bytes>,
    ) -> Result<List<Option<Bytes>>, NoMem>
        ensures { IfOk result (λ own. own ≡ map (asking.own_key self.now.from until.now) keys.now) }
    {
        let mut own = List::new(alloc);
        for key in keys {
            let asked = self.own_key(alloc, key, until)?;
            own.push(alloc, asked)?;
        }
        Ok(own)
    }

    // Puts the values of the keys that the part has at their places: one call of the node or none.
    pub(crate) fn gets<N: Ledger>(
        &mut self,
        alloc: Global,
        keys: &[Option<Bytes>],
        until: &Option<Bytes>,
        found: &mut Vec<Option<Bytes>>,
        tally: &mut Tally<N>,
    ) -> Result<(), StoreErr>
    where
        S: Store<N>,
        requires few { length keys.now < 2 ^ 32 }
        requires long { length found.old.items ≡ length keys.now }
        ensures put { OnOk result (asking.AreAnswersPut (asking.IsTold (S.content self.old.store))
            (map (asking.own_key self.old.from until.now) keys.now) found.old.items found.new.items) }
        ensures asks { AsksNode S.Store self.old self.new result }
    {
        let own = self.own_keys(alloc, keys, until)?;
        if number_of(own.items()) == 0 {
            return Ok(());
        }
        let values = tally.gets(alloc, &mut self.store, own.items())?;
        put_answers(own.items(), values, found);
        Ok(())
    }

    // Whether the part has all keys of the range.
    fn covers(&self, low: &[u8], high: &[u8], until: &Option<Bytes>) -> bool
        ensures { result ≡ asking.covers_range self.now.from until.now low.now high.now }
    {
        self.from.items().cmp(low).is_le()
            && match until {
                Some(until) => high.cmp(until.items()).is_le(),
                None => true,
            }
    }

    // A copy of the range, where the part has all its keys.
    fn own_ask(
        &self,
        alloc: Global,
        asked: &Option<Ends>,
        until: &Option<Bytes>,
    ) -> Result<Option<Ends>, NoMem>
        ensures { IfOk result (λ own. own ≡ asking.own_ask self.now.from until.now asked.now) }
    {
        let Some(ends) = asked else {
            return Ok(None);
        };
        if self.covers(ends.low.items(), ends.high.items(), until) {
            let low = Bytes::of_bytes(alloc, ends.low.items())?;
            let high = Bytes::of_bytes(alloc, ends.high.items())?;
            Ok(Some(Ends { low, high }))
        } else {
            Ok(None)
        }
    }

    // The ranges that lie in the part's keys, each at its place.
    fn own_asks(
        &self,
        alloc: Global,
        asks: &[Option<Ends>],
        until: &Option<Bytes>,
    ) -> Result<List<Option<Ends>>, NoMem>
        ensures { IfOk result (λ own. own ≡ map (asking.own_ask self.now.from until.now) asks.now) }
    {
        let mut own = List::new(alloc);
        for asked in asks {
            let ends = self.own_ask(alloc, asked, until)?;
            own.push(alloc, ends)?;
        }
        Ok(own)
    }

    // Puts the pairs of the ranges that lie in the part's keys at their places: one call of the node or none.
    pub(crate) fn put_pairs<N: Ledger>(
        &mut self,
        alloc: Global,
        asks: &[Option<Ends>],
        limit: u32,
        until: &Option<Bytes>,
        found: &mut Vec<List<Pair>>,
        tally: &mut Tally<N>,
    ) -> Result<(), StoreErr>
    where
        S: Store<N>,
        requires limit { 1 ≤ limit }
        requires few { length asks.now * limit < 2 ^ 32 }
        requires long { length found.old.items ≡ length asks.now }
        ensures put { OnOk result (asking.AreAnswersPut (asking.ArePairsTold (S.content self.old.store) limit)
            (map (asking.own_ask self.old.from until.now) asks.now) found.old.items found.new.items) }
        ensures asks { AsksNode S.Store self.old self.new result }
    {
        let own = self.own_asks(alloc, asks, until)?;
        if number_of(own.items()) == 0 {
            return Ok(());
        }
        let parts = tally.ranges(alloc, &mut self.store, own.items(), limit)?;
        put_answers(own.items(), parts, found);
        Ok(())
    }
}
