//! The store in a file.
ghost use Rattle.std.specs.Prelude.{◌≡◌, IfOk};

use crate::sql_store::{SqlStore, store_err};
use pq_base::{Bytes, List};
use pq_store::{Allowance, Ends, Guard, Meter, Pair, Store, StoreErr, Test};
use sqlite::{Connection, File, FileStore};
use std::alloc::Global;
use std::marker::Model;
use std::sync::ledger::Ledger;

/// The store over an SQLite file, seen as its count of faults.
pub struct FileSqlStore {
    inner: SqlStore<FileStore<File>>,
}

impl Model for FileSqlStore {
    ghost use Rattle.std.specs.Prelude.{ℕ};
    ghost use Rattle.std.specs.Coded.{coded_ℕ};

    ghost Value = { ℕ };

    ghost coded = { coded_ℕ };

    ghost view = { λ s. s.inner };
}

// Written out, so that no caller proves again how each part of a connection is dropped.
impl Drop for FileSqlStore {
    fn drop(self) {
        let FileSqlStore { inner: _ } = self;
    }
}

impl FileSqlStore {
    /// The store in the file at the path, which is made where there is none. It has no fault yet. A
    /// file that is no database, and one whose table is another's, is left as it is.
    pub fn open(rt: &HostRuntime, path: &str) -> Result<FileSqlStore, StoreErr>
        ensures { IfOk result (λ faults. faults ≡ 0) }
    {
        let connection = match Connection::open(rt, path) {
            Ok(connection) => connection,
            Err(error) => return Err(store_err(&error)),
        };
        let inner = SqlStore::over(connection)?;
        Ok(FileSqlStore { inner })
    }

    /// Copies what the log beside the file holds into the file. Without it nothing is lost: the next
    /// `open` reads both.
    pub fn close(self) -> Result<(), StoreErr> {
        let FileSqlStore { inner } = self;
        let connection = match inner.into_connection() {
            Ok(connection) => connection,
            Err(error) => return Err(store_err(&error)),
        };
        match connection.close() {
            Ok(()) => Ok(()),
            Err(error) => Err(store_err(&error)),
        }
    }
}

impl<L: Ledger> Store<L> for FileSqlStore {
    ghost use Rattle.std.specs.Prelude.{None};

    ghost content = { λ _. None };

    ghost faults = { λ s. s };

    fn get(
        &mut self,
        alloc: Global,
        key: &[u8],
        meter: &mut Meter<L>,
    ) -> Result<Option<Bytes>, StoreErr> {
        self.inner.get(alloc, key, meter)
    }

    fn range(
        &mut self,
        alloc: Global,
        low: &[u8],
        high: &[u8],
        limit: u32,
        meter: &mut Meter<L>,
    ) -> Result<List<Pair>, StoreErr> {
        self.inner.range(alloc, low, high, limit, meter)
    }

    fn count(
        &mut self,
        alloc: Global,
        low: &[u8],
        high: &[u8],
        cap: u32,
        meter: &mut Meter<L>,
    ) -> Result<u32, StoreErr> {
        self.inner.count(alloc, low, high, cap, meter)
    }

    fn write(
        &mut self,
        alloc: Global,
        key: &[u8],
        guard: Guard,
        new: Option<&[u8]>,
        meter: &mut Meter<L>,
    ) -> Result<bool, StoreErr> {
        self.inner.write(alloc, key, guard, new, meter)
    }

    fn gets(
        &mut self,
        alloc: Global,
        keys: &[Option<Bytes>],
        allowance: &mut Allowance,
        meter: &mut Meter<L>,
    ) -> Result<List<Option<Bytes>>, StoreErr> {
        self.gets_singly(alloc, keys, allowance, meter)
    }

    fn ranges(
        &mut self,
        alloc: Global,
        asks: &[Option<Ends>],
        limit: u32,
        allowance: &mut Allowance,
        meter: &mut Meter<L>,
    ) -> Result<List<List<Pair>>, StoreErr> {
        self.ranges_singly(alloc, asks, limit, allowance, meter)
    }

    fn first_held(
        &mut self,
        alloc: Global,
        tests: &[Test],
        allowance: &mut Allowance,
        meter: &mut Meter<L>,
    ) -> Result<Option<usize>, StoreErr> {
        self.first_held_singly(alloc, tests, allowance, meter)
    }
}
