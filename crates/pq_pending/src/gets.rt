//! Values that are asked for at once, where changes give some of them.
ghost use Rattle.std.specs.Prelude.{◌≡◌, ◌≤◌, ◌+◌, length, map, IfOk, IfErr};
ghost use Rattle.std.specs.List.{AllZip};
ghost use Rattle.pq_store.specs.Rounds.{IsValueOf, IsValueAnswered};
ghost use Rattle.pq_calls.specs.World.{Affords, no_damage};
ghost use Rattle.pq_pending.specs.Calls.{AsksPending, seen, answers_of};
ghost use Rattle.pq_pending.specs.Gets.{open_key, joined_value, joined_values};

use crate::calls::{PendingCalls, copy_of};
use crate::pending::Pending;
use pq_base::{Bytes, List, NoMem};
use pq_store::{Broke, Store};
use std::alloc::Global;
use std::sync::ledger::Ledger;

// What is asked of the store for a key.
fn open_key(alloc: Global, pending: &Pending, key: &Option<Bytes>) -> Result<Option<Bytes>, NoMem>
    ensures { IfOk result (λ asked. asked ≡ open_key pending.now.changes key.now) }
{
    let Some(bytes) = key else {
        return Ok(None);
    };
    match pending.value(bytes.items()) {
        Some(_) => Ok(None),
        None => Ok(Some(Bytes::of_bytes(alloc, bytes.items())?)),
    }
}

// What is asked of the store for these keys.
fn open_keys(
    alloc: Global,
    pending: &Pending,
    keys: &[Option<Bytes>],
) -> Result<List<Option<Bytes>>, NoMem>
    ensures { IfOk result (λ asked. asked ≡ map (open_key pending.now.changes) keys.now) }
{
    let mut asked = List::new(alloc);
    for key in keys {
        asked.push(alloc, open_key(alloc, pending, key)?)?;
    }
    Ok(asked)
}

// The value of a key, of what the store answered.
fn joined_value(
    alloc: Global,
    pending: &Pending,
    key: &Option<Bytes>,
    stored: &Option<Bytes>,
) -> Result<Option<Bytes>, NoMem>
    ensures { IfOk result (λ value. value ≡ joined_value pending.now.changes key.now stored.now) }
{
    let Some(bytes) = key else {
        return Ok(None);
    };
    match pending.value(bytes.items()) {
        Some(new) => copy_of(alloc, new),
        None => copy_of(alloc, stored),
    }
}

// The values of these keys, of what the store answered.
fn joined_values(
    alloc: Global,
    pending: &Pending,
    keys: &[Option<Bytes>],
    stored: &[Option<Bytes>],
) -> Result<List<Option<Bytes>>, NoMem>
    requires { length stored.now ≡ length keys.now }
    ensures { IfOk result (λ values. values ≡ joined_values pending.now.changes keys.now stored.now) }
{
    let mut values = List::new(alloc);
    for (i, key) in keys.iter().enumerate() {
        let value = joined_value(alloc, pending, key, &stored[i])?;
        values.push(alloc, value)?;
    }
    Ok(values)
}

impl<'p, 'a, S: Store<L>, L: Ledger> PendingCalls<'p, 'a, S, L> {
    // The values that the store has for keys, and None where none stands.
    fn stored_gets(
        &mut self,
        alloc: Global,
        keys: &[Option<Bytes>],
    ) -> Result<List<Option<Bytes>>, Broke>
        requires share { Affords self.old.allowance.now (length keys.now) (length keys.now) }
        ensures asks { AsksPending S.Store no_damage self.old self.new (length keys.now) (length keys.now) 1 result }
        ensures long { IfOk result (λ found. length found ≡ length keys.now) }
        ensures answer { IfOk result (AllZip (IsValueOf (S.content self.old.store.now)) keys.now) }
        ensures answers { IfOk result (AllZip (IsValueAnswered S.answers) keys.now) }
    {
        Ok(self.store.gets(alloc, keys, self.allowance, self.meter)?)
    }

    // The values of keys, some of which changes may give.
    fn joined_gets(
        &mut self,
        alloc: Global,
        keys: &[Option<Bytes>],
    ) -> Result<List<Option<Bytes>>, Broke>
        requires share { Affords self.old.allowance.now (length keys.now) (length keys.now) }
        ensures asks { AsksPending S.Store no_damage self.old self.new (length keys.now) (length keys.now) 1 result }
        ensures long { IfOk result (λ found. length found ≡ length keys.now) }
        ensures answer { IfOk result (AllZip (IsValueOf (seen S.content self.old)) keys.now) }
        ensures answers { IfOk result (AllZip (IsValueAnswered (answers_of S.answers self.old)) keys.now) }
    {
        self.pending.known();
        let asked = open_keys(alloc, self.pending, keys)?;
        let stored = self.stored_gets(alloc, asked.items())?;
        Ok(joined_values(alloc, self.pending, keys, stored.items())?)
    }

    /// The values of keys, and None where none stands: what changes give costs nothing, and the rest is asked at once,
    /// one operation and at most one entry for each.
    pub fn gets(
        &mut self,
        alloc: Global,
        keys: &[Option<Bytes>],
    ) -> Result<List<Option<Bytes>>, Broke>
        requires share { Affords self.old.allowance.now (length keys.now) (length keys.now) }
        ensures asks { AsksPending S.Store no_damage self.old self.new (length keys.now) (length keys.now) 1 result }
        ensures long { IfOk result (λ found. length found ≡ length keys.now) }
        ensures answer { IfOk result (AllZip (IsValueOf (seen S.content self.old)) keys.now) }
        ensures answers { IfOk result (AllZip (IsValueAnswered (answers_of S.answers self.old)) keys.now) }
    {
        if self.pending.is_empty() {
            return self.stored_gets(alloc, keys);
        }
        self.joined_gets(alloc, keys)
    }
}
