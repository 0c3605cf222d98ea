//! The statements over the table of pairs, each one call of the database with a constant text.
//!
//! They carry no clause on the database, so that whoever calls them proves nothing of it.
use pq_base::{Bytes, List};
use pq_store::{Guard, Pair};
use sqlite::types::ValueRef;
use sqlite::{Alter, Connection, Error, ErrorCode, Row, params};
use std::alloc::Global;

const TABLE: &str = "CREATE TABLE kv(k BLOB PRIMARY KEY, v BLOB NOT NULL)";

const SHAPE: &str = "SELECT sql FROM sqlite_schema WHERE name = 'kv'";

const GET: &str = "SELECT v FROM kv WHERE k = ?1";

const RANGE: &str = "SELECT k, v FROM kv WHERE k >= ?1 AND k < ?2 ORDER BY k LIMIT ?3";

const COUNT: &str = "SELECT count(*) FROM (SELECT k FROM kv WHERE k >= ?1 AND k < ?2 LIMIT ?3)";

const PUT: &str =
    "INSERT INTO kv (k, v) VALUES (?1, ?2) ON CONFLICT (k) DO UPDATE SET v = excluded.v";

const ADD: &str = "INSERT INTO kv (k, v) VALUES (?1, ?2) ON CONFLICT (k) DO NOTHING";

/// How many pairs a lot has.
pub const LOT: usize = 32;

// A lot whose keys are all absent.
const ADD_LOT: &str = "INSERT INTO kv (k, v) VALUES \
    (?, ?), (?, ?), (?, ?), (?, ?), (?, ?), (?, ?), (?, ?), (?, ?), \
    (?, ?), (?, ?), (?, ?), (?, ?), (?, ?), (?, ?), (?, ?), (?, ?), \
    (?, ?), (?, ?), (?, ?), (?, ?), (?, ?), (?, ?), (?, ?), (?, ?), \
    (?, ?), (?, ?), (?, ?), (?, ?), (?, ?), (?, ?), (?, ?), (?, ?)";

const SWAP: &str = "UPDATE kv SET v = ?3 WHERE k = ?1 AND v = ?2";

const DROP: &str = "DELETE FROM kv WHERE k = ?1";

const DROP_SAME: &str = "DELETE FROM kv WHERE k = ?1 AND v = ?2";

fn run<D: Alter>(
    connection: &mut Connection<D>,
    text: &str,
    params: &[ValueRef<'_>],
) -> Result<usize, Error> {
    connection.execute(text, params)
}

fn first<D: Alter>(
    connection: &mut Connection<D>,
    text: &str,
    params: &[ValueRef<'_>],
) -> Result<Row, Error> {
    connection.query_row(text, params)
}

fn all<D: Alter>(
    connection: &mut Connection<D>,
    text: &str,
    params: &[ValueRef<'_>],
) -> Result<Vec<Row>, Error> {
    connection.query_all(text, params)
}

/// What the table that is there is to the store.
#[derive(Clone, Copy, PartialEq, Eq)]
pub enum Shape {
    /// There is none.
    Absent,
    /// It is the store's own.
    Own,
    /// It, or another thing by its name, is somebody else's.
    Foreign,
}

/// What the database has by the name of the table.
pub fn read_shape<D: Alter>(connection: &mut Connection<D>) -> Result<Shape, Error> {
    match first(connection, SHAPE, &[]) {
        Ok(row) => {
            let text: String = row.get(0)?;
            Ok(if text.as_str() == TABLE {
                Shape::Own
            } else {
                Shape::Foreign
            })
        }
        Err(Error::QueryReturnedNoRows) => Ok(Shape::Absent),
        Err(error) => Err(error),
    }
}

/// Makes the table.
pub fn make_table<D: Alter>(connection: &mut Connection<D>) -> Result<(), Error> {
    run(connection, TABLE, &[])?;
    Ok(())
}

/// Begins a transaction.
pub fn begin<D: Alter>(connection: &mut Connection<D>) -> Result<(), Error> {
    run(connection, "BEGIN", &[])?;
    Ok(())
}

/// Commits the transaction. One whose commit is refused is rolled back.
pub fn commit<D: Alter>(connection: &mut Connection<D>) -> Result<(), Error> {
    run(connection, "COMMIT", &[])?;
    Ok(())
}

/// Rolls the transaction back.
pub fn rollback<D: Alter>(connection: &mut Connection<D>) -> Result<(), Error> {
    run(connection, "ROLLBACK", &[])?;
    Ok(())
}

/// The value of the key.
pub fn value_at<D: Alter>(
    connection: &mut Connection<D>,
    key: &[u8],
) -> Result<Option<Bytes>, Error> {
    match first(connection, GET, params![key]) {
        Ok(row) => Ok(Some(List::from_vec(row.get::<Vec<u8>>(0)?))),
        Err(Error::QueryReturnedNoRows) => Ok(None),
        Err(error) => Err(error),
    }
}

fn pair_of(row: &Row) -> Result<Pair, Error> {
    Ok(Pair {
        key: List::from_vec(row.get::<Vec<u8>>(0)?),
        value: List::from_vec(row.get::<Vec<u8>>(1)?),
    })
}

/// The first `limit` pairs with `low <= key < high`.
pub fn pairs_within<D: Alter>(
    alloc: Global,
    connection: &mut Connection<D>,
    low: &[u8],
    high: &[u8],
    limit: u32,
) -> Result<List<Pair>, Error> {
    let mut pairs = Vec::new(alloc);
    for row in all(connection, RANGE, params![low, high, limit])? {
        pairs.push(pair_of(&row)?)?;
    }
    Ok(List::from_vec(pairs))
}

/// The number of pairs with `low <= key < high`, up to `cap`.
pub fn number_within<D: Alter>(
    connection: &mut Connection<D>,
    low: &[u8],
    high: &[u8],
    cap: u32,
) -> Result<u32, Error> {
    first(connection, COUNT, params![low, high, cap])?.get(0)
}

/// How many rows a guarded write changed. A removal of what isn't there is a look at it.
pub fn change<D: Alter>(
    connection: &mut Connection<D>,
    key: &[u8],
    guard: Guard,
    new: Option<&[u8]>,
) -> Result<usize, Error> {
    match (guard, new) {
        (Guard::Any, Some(value)) => run(connection, PUT, params![key, value]),
        (Guard::Any, None) => run(connection, DROP, params![key]),
        (Guard::Absent, Some(value)) => run(connection, ADD, params![key, value]),
        (Guard::Absent, None) => match value_at(connection, key)? {
            Some(_) => Ok(0),
            None => Ok(1),
        },
        (Guard::Is(old), Some(value)) => run(connection, SWAP, params![key, old, value]),
        (Guard::Is(old), None) => run(connection, DROP_SAME, params![key, old]),
    }
}

/// Whether a lot was added, whose keys and values take turns. Where a key is there nothing is changed.
pub fn add_lot<D: Alter>(
    connection: &mut Connection<D>,
    values: &[ValueRef<'_>],
) -> Result<bool, Error> {
    match run(connection, ADD_LOT, values) {
        Ok(LOT) => Ok(true),
        Ok(_) => Err(Error::SqliteFailure(ErrorCode::Closed)),
        Err(Error::SqliteFailure(ErrorCode::ConstraintViolation(_))) => Ok(false),
        Err(error) => Err(error),
    }
}
