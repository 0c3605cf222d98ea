//! The store over a connection.
ghost use Rattle.std.specs.Prelude.{◌≡◌, ◌≤◌, IfOk};
ghost use Rattle.pq_store.specs.Content.{HasRisen};

use crate::database::Database;
use crate::statements::{Shape, make_table, read_shape};
use pq_base::{Bytes, List};
use pq_store::{Allowance, Ends, Guard, Meter, Pair, Store, StoreErr, Test, is_part};
use sqlite::{Alter, Connection, Error, ErrorCode};
use std::alloc::Global;
use std::marker::Model;
use std::sync::ledger::Ledger;

/// A store of pairs in the table `kv(k BLOB PRIMARY KEY, v BLOB NOT NULL)` of a database, seen as its
/// count of faults.
///
/// The writes from the put of the intent to its removal are one transaction, and so are the writes of entries in a
/// row outside it; each other write is one by itself. Each refusal of the database is a fault that is counted, but for
/// want of memory where no transaction is open. So is an answer that no store gives. A fault undoes the transaction
/// that is open, and behind it each call is a fault.
pub struct SqlStore<D: Alter> {
    database: Database<D>,
    faults: u64,
}

impl<D: Alter> Model for SqlStore<D> {
    ghost use Rattle.std.specs.Prelude.{ℕ};
    ghost use Rattle.std.specs.Coded.{coded_ℕ};

    ghost Value = { ℕ };

    ghost coded = { coded_ℕ };

    ghost view = { λ s. s.faults };
}

// Written out, so that no caller proves again how each part of a connection is dropped.
impl<D: Alter + Drop> Drop for SqlStore<D> {
    fn drop(self) {
        let SqlStore {
            database: _,
            faults: _,
        } = self;
    }
}

/// What a refusal of the database is to a store.
pub(crate) fn store_err(error: &Error) -> StoreErr {
    match error {
        Error::SqliteFailure(ErrorCode::OutOfMemory) => StoreErr::NoMem,
        _ => StoreErr::Failed,
    }
}

// The table is there, made where there was none. Somebody else's is left alone.
fn have_table<D: Alter>(connection: &mut Connection<D>) -> Result<bool, Error> {
    match read_shape(connection)? {
        Shape::Own => Ok(true),
        Shape::Foreign => Ok(false),
        Shape::Absent => {
            make_table(connection)?;
            Ok(true)
        }
    }
}

impl<D: Alter> SqlStore<D> {
    fn fault(&mut self) -> StoreErr
        ensures failed { result ≡ StoreErr.Failed }
        ensures later { self.old ≤ self.new }
        ensures risen { HasRisen self.old self.new }
    {
        self.database.undo();
        self.faults = self.faults.saturating_add(1);
        StoreErr::Failed
    }

    // Any refusal is a fault but for want of memory, which is one too where a transaction is open.
    fn refused(&mut self, error: &Error) -> StoreErr
        ensures later { self.old ≤ self.new }
        ensures risen { result ≡ StoreErr.Failed → HasRisen self.old self.new }
    {
        match self.database.refusal(error) {
            StoreErr::NoMem => StoreErr::NoMem,
            StoreErr::Failed => self.fault(),
        }
    }
}

impl<D: Alter + Drop> SqlStore<D> {
    /// The store over the connection, whose table is made where there is none. It has no fault yet. A
    /// table of another make is left as it is, and the answer is `Failed`.
    pub fn over(connection: Connection<D>) -> Result<SqlStore<D>, StoreErr>
        ensures { IfOk result (λ faults. faults ≡ 0) }
    {
        let mut connection = connection;
        match have_table(&mut connection) {
            Ok(true) => Ok(SqlStore {
                database: Database::over(connection),
                faults: 0,
            }),
            Ok(false) => Err(StoreErr::Failed),
            Err(error) => Err(store_err(&error)),
        }
    }

    /// The connection, after the last call. Entries that wait for a commit are committed, and a statement that was
    /// broken off is undone.
    pub(crate) fn into_connection(self) -> Result<Connection<D>, Error> {
        let SqlStore {
            database,
            faults: _,
        } = self;
        database.into_connection()
    }
}

impl<L: Ledger, D: Alter> Store<L> for SqlStore<D> {
    ghost use Rattle.std.specs.Prelude.{None};

    ghost content = { λ _. None };

    ghost faults = { λ s. s };

    fn get(
        &mut self,
        alloc: Global,
        key: &[u8],
        meter: &mut Meter<L>,
    ) -> Result<Option<Bytes>, StoreErr> {
        match self.database.get(alloc, key) {
            Ok(Some(value)) => {
                meter.charge(1);
                Ok(Some(value))
            }
            Ok(None) => {
                meter.charge(0);
                Ok(None)
            }
            Err(error) => {
                meter.charge(0);
                Err(self.refused(&error))
            }
        }
    }

    fn range(
        &mut self,
        alloc: Global,
        low: &[u8],
        high: &[u8],
        limit: u32,
        meter: &mut Meter<L>,
    ) -> Result<List<Pair>, StoreErr> {
        match self.database.range(alloc, low, high, limit) {
            Ok(pairs) => {
                if is_part(low, high, limit, pairs.items()) {
                    meter.charge(pairs.items().len() as u32);
                    Ok(pairs)
                } else {
                    meter.charge(0);
                    Err(self.fault())
                }
            }
            Err(error) => {
                meter.charge(0);
                Err(self.refused(&error))
            }
        }
    }

    fn count(
        &mut self,
        alloc: Global,
        low: &[u8],
        high: &[u8],
        cap: u32,
        meter: &mut Meter<L>,
    ) -> Result<u32, StoreErr> {
        match self.database.count(alloc, low, high, cap) {
            Ok(n) => {
                if n <= cap {
                    meter.charge(n);
                    Ok(n)
                } else {
                    meter.charge(0);
                    Err(self.fault())
                }
            }
            Err(error) => {
                meter.charge(0);
                Err(self.refused(&error))
            }
        }
    }

    fn write(
        &mut self,
        alloc: Global,
        key: &[u8],
        guard: Guard,
        new: Option<&[u8]>,
        meter: &mut Meter<L>,
    ) -> Result<bool, StoreErr> {
        meter.charge(0);
        match self.database.write(alloc, key, guard, new) {
            Ok(Some(done)) => Ok(done),
            Ok(None) => Err(self.fault()),
            Err(error) => Err(self.refused(&error)),
        }
    }

    fn gets(
        &mut self,
        alloc: Global,
        keys: &[Option<Bytes>],
        allowance: &mut Allowance,
        meter: &mut Meter<L>,
    ) -> Result<List<Option<Bytes>>, StoreErr> {
        self.gets_singly(alloc, keys, allowance, meter)
    }

    fn ranges(
        &mut self,
        alloc: Global,
        asks: &[Option<Ends>],
        limit: u32,
        allowance: &mut Allowance,
        meter: &mut Meter<L>,
    ) -> Result<List<List<Pair>>, StoreErr> {
        self.ranges_singly(alloc, asks, limit, allowance, meter)
    }

    fn first_held(
        &mut self,
        alloc: Global,
        tests: &[Test],
        allowance: &mut Allowance,
        meter: &mut Meter<L>,
    ) -> Result<Option<usize>, StoreErr> {
        self.first_held_singly(alloc, tests, allowance, meter)
    }
}
