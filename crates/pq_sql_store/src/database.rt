//! The database with the transaction that is open in it between two calls.
//!
//! A statement that changes several pairs puts the intent, makes each change and removes the intent again, and an
//! index is filled by a write of each entry. Each of these rows of writes is one transaction here, with one sync. The
//! writes of a statement have no condition, so they are kept and made together as the intent is removed.
ghost use Rattle.std.specs.Prelude.{◌≡◌, ◌⊎◌, IfOk, IsErr, OnErr, OnOk, Some, true};
ghost use Rattle.pq_sql_store.specs.Lots.{ended, filling, undone};

use crate::kept::{Write, copied, make_all};
use crate::sql_store::store_err;
use crate::statements::{begin, change, commit, number_within, pairs_within, rollback, value_at};
use pq_base::{Bytes, List};
use pq_store::{Guard, Pair, StoreErr};
use sqlite::{Alter, Connection, Error, ErrorCode};
use std::alloc::Global;

/// The key of the intent.
const INTENT: &[u8] = &[0x04];

/// The transaction that is open.
#[derive(Drop)]
pub enum Within {
    /// None: each write is committed by itself.
    Nothing,
    /// That of a statement, from the put of the intent to its removal. The intent has this value, and isn't written.
    Intent(Bytes),
    /// Entries that nobody was told of. The next call that is no write of an entry commits them.
    Filling,
    /// One was undone, with writes that were answered as made. So no call is answered any more.
    Undone,
}

/// A database with the store's table, whose writes are committed by whole statements and by lots of entries.
pub struct Database<D: Alter> {
    connection: Connection<D>,
    within: Within,
    // The writes of the statement that were answered as made. They are made before anything else is asked.
    kept: Option<Vec<Write>>,
}

// Written out, so that no caller proves again how each part of a connection is dropped. The database undoes the
// transaction that is open.
impl<D: Alter + Drop> Drop for Database<D> {
    fn drop(self) {
        let Database {
            connection: _,
            within: _,
            kept: _,
        } = self;
    }
}

// What a key is to the transactions.
#[derive(Clone, Copy)]
enum Place {
    Intent,
    Entry,
    Other,
}

fn place_of(key: &[u8]) -> Place {
    match key {
        [0x04] => Place::Intent,
        [0x03, ..] => Place::Entry,
        _ => Place::Other,
    }
}

// Whether the intent's key lies in the range.
fn has_intent(low: &[u8], high: &[u8]) -> bool {
    low.cmp(INTENT).is_le() && INTENT.cmp(high).is_lt()
}

// The first pairs of a range in which the intent lies, which has this value and isn't written.
fn around_intent<D: Alter>(
    alloc: Global,
    connection: &mut Connection<D>,
    held: &[u8],
    low: &[u8],
    high: &[u8],
    limit: u32,
) -> Result<List<Pair>, Error> {
    let mut pairs = pairs_within(alloc, connection, low, INTENT, limit)?.into_vec();
    let behind = pairs_within(alloc, connection, INTENT, high, limit)?.into_vec();
    pairs.push(Pair {
        key: copied(alloc, INTENT)?,
        value: copied(alloc, held)?,
    })?;
    for pair in behind {
        pairs.push(pair)?;
    }
    pairs.truncate(limit as usize);
    Ok(List::from_vec(pairs))
}

// Whether the guard holds of a key that has this value.
fn holds_of(guard: Guard, held: &[u8]) -> bool {
    match guard {
        Guard::Any => true,
        Guard::Absent => false,
        Guard::Is(value) => value == held,
    }
}

// Whether a write that changed so many rows was made; None where no write changes as many.
fn is_done(guard: Guard, new: Option<&[u8]>, changed: usize) -> Option<bool> {
    match (guard, new, changed) {
        (_, _, 1) => Some(true),
        (Guard::Any, None, 0) => Some(true),
        (Guard::Absent | Guard::Is(_), _, 0) => Some(false),
        _ => None,
    }
}

impl<D: Alter> Database<D> {
    /// The database over a connection with no open transaction.
    pub fn over(connection: Connection<D>) -> Database<D> {
        Database {
            connection,
            within: Within::Nothing,
            kept: None,
        }
    }

    /// Undoes what waits for a commit, and answers no call from then on. Where nothing waits it does nothing.
    pub fn undo(&mut self)
        ensures { self.new.within ≡ undone self.old.within }
    {
        if !matches!(self.within, Within::Nothing) {
            self.within = Within::Undone;
            // Where the refusal has ended the transaction there is none to roll back.
            let _ = rollback(&mut self.connection);
        }
    }

    /// What the refusal of a call is to the store. Want of memory is none where writes wait for a commit that were
    /// answered as made: the database then undoes them too.
    pub fn refusal(&self, error: &Error) -> StoreErr
        ensures { result ≡ StoreErr.NoMem → self.now.within ≡ Within.Nothing }
    {
        match self.within {
            Within::Nothing => store_err(error),
            Within::Intent(_) | Within::Filling | Within::Undone => StoreErr::Failed,
        }
    }

    // Commits what waits.
    fn commit(&mut self) -> Result<(), Error>
        ensures done { OnOk result (self.new.within ≡ Within.Nothing) }
        ensures same { OnErr result (self.new.within ≡ self.old.within) }
    {
        commit(&mut self.connection)?;
        self.within = Within::Nothing;
        Ok(())
    }

    // Commits the entries that wait. Each call but the write of an entry begins so.
    fn end_lot(&mut self) -> Result<(), Error>
        ensures ended { OnOk result (self.new.within ≡ ended self.old.within) }
        ensures same { OnErr result (self.new.within ≡ self.old.within) }
        ensures undone { self.old.within ≡ Within.Undone → IsErr result }
    {
        match self.within {
            Within::Nothing | Within::Intent(_) => Ok(()),
            Within::Filling => self.commit(),
            Within::Undone => Err(Error::SqliteFailure(ErrorCode::Closed)),
        }
    }

    // Begins a lot of entries, where no transaction is open.
    fn begin_lot(&mut self) -> Result<(), Error>
        ensures begun { OnOk result (self.new.within ≡ filling self.old.within) }
        ensures same { OnErr result (self.new.within ≡ self.old.within) }
        ensures undone { self.old.within ≡ Within.Undone → IsErr result }
    {
        match self.within {
            Within::Intent(_) | Within::Filling => Ok(()),
            Within::Nothing => {
                begin(&mut self.connection)?;
                self.within = Within::Filling;
                Ok(())
            }
            Within::Undone => Err(Error::SqliteFailure(ErrorCode::Closed)),
        }
    }

    // Makes the writes that are kept.
    fn make_kept(&mut self, alloc: Global) -> Result<(), Error>
        ensures { self.new.within ≡ self.old.within }
    {
        match self.kept.take() {
            Some(kept) => make_all(alloc, &mut self.connection, kept.as_slice()),
            None => Ok(()),
        }
    }

    // Has all that was answered in the database: commits the entries that wait, and makes the writes that are kept.
    fn settle(&mut self, alloc: Global) -> Result<(), Error>
        ensures ended { OnOk result (self.new.within ≡ ended self.old.within) }
        ensures undone { self.old.within ≡ Within.Undone → IsErr result }
    {
        self.end_lot()?;
        self.make_kept(alloc)
    }

    /// The value of the key.
    pub fn get(&mut self, alloc: Global, key: &[u8]) -> Result<Option<Bytes>, Error>
        ensures ended { OnOk result (self.new.within ≡ ended self.old.within) }
        ensures undone { self.old.within ≡ Within.Undone → IsErr result }
    {
        self.settle(alloc)?;
        match (&self.within, place_of(key)) {
            (Within::Intent(held), Place::Intent) => Ok(Some(copied(alloc, held.items())?)),
            _ => value_at(&mut self.connection, key),
        }
    }

    /// The first `limit` pairs with `low <= key < high`.
    pub fn range(
        &mut self,
        alloc: Global,
        low: &[u8],
        high: &[u8],
        limit: u32,
    ) -> Result<List<Pair>, Error>
        ensures ended { OnOk result (self.new.within ≡ ended self.old.within) }
        ensures undone { self.old.within ≡ Within.Undone → IsErr result }
    {
        self.settle(alloc)?;
        match &self.within {
            Within::Intent(held) if has_intent(low, high) => around_intent(
                alloc,
                &mut self.connection,
                held.items(),
                low,
                high,
                limit,
            ),
            _ => pairs_within(alloc, &mut self.connection, low, high, limit),
        }
    }

    /// The number of pairs with `low <= key < high`, up to `cap`.
    pub fn count(&mut self, alloc: Global, low: &[u8], high: &[u8], cap: u32) -> Result<u32, Error>
        ensures ended { OnOk result (self.new.within ≡ ended self.old.within) }
        ensures undone { self.old.within ≡ Within.Undone → IsErr result }
    {
        self.settle(alloc)?;
        let written = number_within(&mut self.connection, low, high, cap)?;
        match self.within {
            Within::Intent(_) if has_intent(low, high) && written < cap => Ok(written + 1),
            _ => Ok(written),
        }
    }

    /// Whether a guarded write was made; None where the database changed more rows than a write does.
    pub fn write(
        &mut self,
        alloc: Global,
        key: &[u8],
        guard: Guard,
        new: Option<&[u8]>,
    ) -> Result<Option<bool>, Error>
        ensures undone { self.old.within ≡ Within.Undone → IsErr result }
    {
        self.write_at(place_of(key), alloc, key, guard, new)
    }

    fn write_at(
        &mut self,
        place: Place,
        alloc: Global,
        key: &[u8],
        guard: Guard,
        new: Option<&[u8]>,
    ) -> Result<Option<bool>, Error>
        ensures entry { place ≡ Place.Entry → OnOk result (self.new.within ≡ filling self.old.within) }
        ensures other { place ≡ Place.Other → OnOk result (self.new.within ≡ ended self.old.within) }
        ensures undone { self.old.within ≡ Within.Undone → IsErr result }
    {
        match place {
            Place::Intent => self.write_intent(alloc, key, guard, new),
            Place::Entry => self.write_entry(alloc, key, guard, new),
            Place::Other => self.write_other(alloc, key, guard, new),
        }
    }

    fn write_entry(
        &mut self,
        alloc: Global,
        key: &[u8],
        guard: Guard,
        new: Option<&[u8]>,
    ) -> Result<Option<bool>, Error>
        ensures begun { OnOk result (self.new.within ≡ filling self.old.within) }
        ensures undone { self.old.within ≡ Within.Undone → IsErr result }
    {
        self.begin_lot()?;
        self.change(alloc, key, guard, new)
    }

    fn write_other(
        &mut self,
        alloc: Global,
        key: &[u8],
        guard: Guard,
        new: Option<&[u8]>,
    ) -> Result<Option<bool>, Error>
        ensures ended { OnOk result (self.new.within ≡ ended self.old.within) }
        ensures undone { self.old.within ≡ Within.Undone → IsErr result }
    {
        self.end_lot()?;
        self.change(alloc, key, guard, new)
    }

    fn change(
        &mut self,
        alloc: Global,
        key: &[u8],
        guard: Guard,
        new: Option<&[u8]>,
    ) -> Result<Option<bool>, Error>
        ensures { self.new.within ≡ self.old.within }
    {
        match (&self.within, guard) {
            (Within::Intent(_), Guard::Any) => self.keep(alloc, key, new),
            _ => self.change_now(alloc, key, guard, new),
        }
    }

    // Keeps a write of the statement. Without a condition it is made as surely as the statement is.
    fn keep(&mut self, alloc: Global, key: &[u8], new: Option<&[u8]>) -> Result<Option<bool>, Error>
        ensures { self.new.within ≡ self.old.within }
    {
        let write = Write::of(alloc, key, new)?;
        let mut kept = match self.kept.take() {
            Some(kept) => kept,
            None => Vec::new(alloc),
        };
        kept.push(write)?;
        self.kept = Some(kept);
        Ok(Some(true))
    }

    fn change_now(
        &mut self,
        alloc: Global,
        key: &[u8],
        guard: Guard,
        new: Option<&[u8]>,
    ) -> Result<Option<bool>, Error>
        ensures { self.new.within ≡ self.old.within }
    {
        self.make_kept(alloc)?;
        let changed = change(&mut self.connection, key, guard, new)?;
        Ok(is_done(guard, new, changed))
    }

    // A write of the intent. One that a file of an earlier version holds is a pair as any other.
    fn write_intent(
        &mut self,
        alloc: Global,
        key: &[u8],
        guard: Guard,
        new: Option<&[u8]>,
    ) -> Result<Option<bool>, Error>
        ensures undone { self.old.within ≡ Within.Undone → IsErr result }
    {
        self.settle(alloc)?;
        match (&self.within, guard, new) {
            (Within::Intent(held), _, _) if !holds_of(guard, held.items()) => Ok(Some(false)),
            (Within::Intent(_), _, _) => self.write_held(alloc, new),
            (_, Guard::Absent, Some(value)) => self.begin_statement(alloc, key, value),
            _ => self.change(alloc, key, guard, new),
        }
    }

    // Begins the transaction of a statement, where there is no intent.
    fn begin_statement(
        &mut self,
        alloc: Global,
        key: &[u8],
        value: &[u8],
    ) -> Result<Option<bool>, Error>
        ensures held { IfOk result (λ done. done ≡ Some true → self.new.within ≡ Within.Intent value.now) }
        ensures same { IfOk result (λ done. done ≡ Some true ⊎ (self.new.within ≡ self.old.within)) }
        ensures failed { OnErr result (self.new.within ≡ self.old.within) }
    {
        if value_at(&mut self.connection, key)?.is_some() {
            return Ok(Some(false));
        }
        let held = copied(alloc, value)?;
        begin(&mut self.connection)?;
        self.within = Within::Intent(held);
        Ok(Some(true))
    }

    // Gives the intent that is held another value, or removes it and commits its statement.
    fn write_held(&mut self, alloc: Global, new: Option<&[u8]>) -> Result<Option<bool>, Error>
        ensures failed { OnErr result (self.new.within ≡ self.old.within) }
    {
        match new {
            Some(value) => self.within = Within::Intent(copied(alloc, value)?),
            None => self.commit()?,
        }
        Ok(Some(true))
    }
}

impl<D: Alter + Drop> Database<D> {
    /// The connection, with the entries that wait committed. A statement whose intent stands is left to be undone.
    pub fn into_connection(mut self) -> Result<Connection<D>, Error> {
        let ended = self.end_lot();
        let Database {
            connection,
            within: _,
            kept: _,
        } = self;
        ended?;
        Ok(connection)
    }
}
