//! Single calls on a store that see changes as made, each paid from an allowance.
ghost use Rattle.std.specs.Prelude.{◌≡◌, ◌≤◌, ◌<◌, ◌+◌, ◌^◌, Some, option_map, length, map, min, take, is_some, IfOk, IfErr, IfSome, IfNone};
ghost use Rattle.std.specs.FinMap.{get as value_at};
ghost use Rattle.pq_base.specs.Shapes.{row_shape};
ghost use Rattle.pq_base.specs.Values.{AllFit};
ghost use Rattle.pq_key_code.specs.KeyCode.{row_key};
ghost use Rattle.pq_schema.specs.Rows.{types_of, shape_of};
ghost use Rattle.pq_store.specs.Content.{entry, pairs_within};
ghost use Rattle.pq_calls.specs.Evidence.{IsRead, IsNoRowAt};
ghost use Rattle.pq_calls.specs.World.{Affords, no_damage};
ghost use Rattle.pq_pending.specs.Calls.{AsksPending, seen, answers_of};
ghost use Rattle.pq_pending.specs.Pending.{removals_within, counted_with};

use crate::pending::Pending;
use pq_base::{Bytes, ColType, List, NoMem, Row, Value};
use pq_calls::{StoredRow, answered_row, types_of};
use pq_key_code::row_key;
use pq_schema::Table;
use pq_store::{Allowance, Broke, Meter, Pair, Store};
use std::alloc::Global;
use std::sync::ledger::Ledger;

/// A store, changes that are not made yet, the allowance by which the store is called, and the meter that counts the
/// calls. Each call sees the changes as made.
#[derive(Drop)]
pub struct PendingCalls<'p, 'a, S, L: Ledger> {
    pub pending: &'p Pending,
    pub store: &'a mut S,
    pub allowance: &'a mut Allowance,
    pub meter: &'a mut Meter<L>,
}

pub(crate) fn copy_of(alloc: Global, value: &Option<Bytes>) -> Result<Option<Bytes>, NoMem>
    ensures { IfOk result (λ copy. copy ≡ value.now) }
{
    match value {
        Some(bytes) => Ok(Some(Bytes::of_bytes(alloc, bytes.items())?)),
        None => Ok(None),
    }
}

// Of the first pairs of a range those that stay, and those that are written, at most cap.
fn counted(pending: &Pending, low: &[u8], high: &[u8], cap: u32, found: &[Pair]) -> u32
    ensures { result ≡ counted_with low.now high.now cap pending.now.changes (map entry found.now) }
{
    let all = pending
        .unchanged(found)
        .saturating_add(pending.puts_within(low, high));
    all.min(cap as usize) as u32
}

impl<'p, 'a, S: Store<L>, L: Ledger> PendingCalls<'p, 'a, S, L> {
    // The value that the store has for the key.
    fn stored(&mut self, alloc: Global, key: &[u8]) -> Result<Option<Bytes>, Broke>
        requires share { Affords self.old.allowance.now 1 1 }
        ensures asks { AsksPending S.Store no_damage self.old self.new 1 1 1 result }
        ensures answer { IfOk result (λ found. IfSome (S.content self.old.store.now)
            (λ c. found ≡ value_at c key.now)) }
        ensures answers { IfOk result (λ found. S.answers key.now found) }
    {
        let answer = self.store.get(alloc, key, self.meter);
        self.allowance.spend_get(&answer);
        Ok(answer?)
    }

    /// The value of the key: nothing is asked where a change gives it, and else one operation, and an entry where there
    /// is one.
    pub fn get(&mut self, alloc: Global, key: &[u8]) -> Result<Option<Bytes>, Broke>
        requires share { Affords self.old.allowance.now 1 1 }
        ensures asks { AsksPending S.Store no_damage self.old self.new 1 1 1 result }
        ensures answer { IfOk result (λ found. IfSome (seen S.content self.old) (λ c. found ≡ value_at c key.now)) }
        ensures answers { IfOk result (λ found. answers_of S.answers self.old key.now found) }
    {
        self.pending.known();
        match self.pending.value(key) {
            Some(new) => Ok(copy_of(alloc, new)?),
            None => self.stored(alloc, key),
        }
    }

    // The lesser of `cap` and the number of pairs that the store has in the range.
    fn stored_count(
        &mut self,
        alloc: Global,
        low: &[u8],
        high: &[u8],
        cap: u32,
    ) -> Result<u32, Broke>
        requires share { Affords self.old.allowance.now 1 cap }
        ensures asks { AsksPending S.Store no_damage self.old self.new 1 cap 1 result }
        ensures answer { IfOk result (λ n. IfSome (S.content self.old.store.now)
            (λ c. n ≡ min cap (length (pairs_within c low.now high.now)))) }
        ensures few { IfOk result (λ n. n ≤ cap) }
    {
        let answer = self.store.count(alloc, low, high, cap, self.meter);
        self.allowance.spend_count(&answer);
        Ok(answer?)
    }

    // The first pairs that the store has in the range.
    fn stored_range(
        &mut self,
        alloc: Global,
        low: &[u8],
        high: &[u8],
        limit: u32,
    ) -> Result<List<Pair>, Broke>
        requires limit { 1 ≤ limit }
        requires share { Affords self.old.allowance.now 1 limit }
        ensures asks { AsksPending S.Store no_damage self.old self.new 1 limit 1 result }
        ensures answer { IfOk result (λ found. IfSome (S.content self.old.store.now)
            (λ c. map entry found ≡ take limit (pairs_within c low.now high.now))) }
    {
        let answer = self.store.range(alloc, low, high, limit, self.meter);
        self.allowance.spend_range(&answer);
        Ok(answer?)
    }

    /// The lesser of `cap` and the number of pairs with `low <= key < high`: at most one operation, and where pairs of
    /// the range are removed, as many more may be read.
    pub fn count(&mut self, alloc: Global, low: &[u8], high: &[u8], cap: u32) -> Result<u32, Broke>
        requires some { 1 ≤ cap }
        requires few { cap + removals_within low.now high.now self.old.pending.now.changes < 2 ^ 32 }
        requires share { Affords self.old.allowance.now 1
            (cap + removals_within low.now high.now self.old.pending.now.changes) }
        ensures asks { AsksPending S.Store no_damage self.old self.new
            1 (cap + removals_within low.now high.now self.old.pending.now.changes) 1 result }
        ensures answer { IfOk result (λ n. IfSome (seen S.content self.old)
            (λ c. n ≡ min cap (length (pairs_within c low.now high.now)))) }
        ensures few { IfOk result (λ n. n ≤ cap) }
    {
        self.pending.known();
        let removed = self.pending.removals_within(low, high) as u32;
        if removed == 0 && self.pending.puts_within(low, high) == 0 {
            return self.stored_count(alloc, low, high, cap);
        }
        let found = self.stored_range(alloc, low, high, cap + removed)?;
        Ok(counted(self.pending, low, high, cap, found.items()))
    }

    /// Whether there is a value at this key.
    pub fn has_value(&mut self, alloc: Global, at: &[u8]) -> Result<bool, Broke>
        requires share { Affords self.old.allowance.now 1 1 }
        ensures asks { AsksPending S.Store no_damage self.old self.new 1 1 1 result }
        ensures answer { IfOk result (λ there. IfSome (seen S.content self.old) (λ c.
            there ≡ is_some (value_at c at.now))) }
    {
        Ok(self.get(alloc, at)?.is_some())
    }

    // The row at a key of the store, which has to fit the types.
    fn row_at(
        &mut self,
        alloc: Global,
        at: Bytes,
        types: &[ColType],
        fillers: &List<Option<Value>>,
    ) -> Result<Option<StoredRow>, Broke>
        requires share { Affords self.old.allowance.now 1 1 }
        ensures asks { AsksPending S.Store (IsNoRowAt (row_shape types.now fillers.now) at) self.old self.new
            1 1 1 result }
        ensures read { IfOk result (λ found. IfSome (seen S.content self.old) (λ c.
            IsRead (row_shape types.now fillers.now) (value_at c at) (option_map (λ stored. stored.row) found))) }
        ensures none { IfOk result (λ found. IfNone found (answers_of S.answers self.old at None)) }
        ensures at { IfOk result (λ found. IfSome found (λ stored. stored.at ≡ at)) }
        ensures fits { IfOk result (λ found. IfSome found (λ stored. AllFit types.now stored.row)) }
    {
        let Some(code) = self.get(alloc, at.items())? else {
            return Ok(None);
        };
        let row = answered_row(alloc, at.items(), code.items(), types, fillers)?;
        Ok(Some(StoredRow { at, row }))
    }

    /// The row of the table with this key, and its key in the store. A value that is the code of no
    /// row of the table is damage.
    pub fn row(
        &mut self,
        alloc: Global,
        number: u8,
        table: &Table,
        key: &Row,
    ) -> Result<Option<StoredRow>, Broke>
        requires share { Affords self.old.allowance.now 1 1 }
        ensures asks { AsksPending S.Store (IsNoRowAt (shape_of table.now) (row_key number key.now)) self.old self.new
            1 1 1 result }
        ensures read { IfOk result (λ found. IfSome (seen S.content self.old) (λ c.
            IsRead (shape_of table.now) (value_at c (row_key number key.now)) (option_map
            (λ stored. stored.row) found))) }
        ensures none { IfOk result (λ found. IfNone found
            (answers_of S.answers self.old (row_key number key.now) None)) }
        ensures at { IfOk result (λ found. IfSome found (λ stored. stored.at ≡ row_key number key.now)) }
        ensures fits { IfOk result (λ found. IfSome found (λ stored. AllFit (types_of table.now) stored.row)) }
    {
        let types = types_of(alloc, table)?;
        let at = row_key(alloc, number, key)?;
        self.row_at(alloc, at, types.items(), &table.fillers)
    }
}
