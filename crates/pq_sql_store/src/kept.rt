//! Writes that are told as made, and are made together.
//!
//! They carry no clause on the database, so that whoever calls them proves nothing of it.
ghost use Rattle.std.specs.Prelude.{◌≡◌, IfOk};

use crate::statements::{LOT, add_lot, change};
use pq_base::{Bytes, List};
use pq_store::Guard;
use sqlite::types::ValueRef;
use sqlite::{Alter, Connection, Error, ErrorCode};
use std::alloc::Global;

/// A write without a condition that isn't made yet.
#[derive(Drop)]
pub struct Write {
    key: Bytes,
    new: Option<Bytes>,
}

/// The bytes once more.
pub fn copied(alloc: Global, bytes: &[u8]) -> Result<Bytes, Error>
    ensures { IfOk result (λ copy. copy ≡ bytes.now) }
{
    Ok(List::from_vec(Vec::from_slice(alloc, bytes)?))
}

impl Write {
    /// The write that gives the key this value, or removes it.
    pub fn of(alloc: Global, key: &[u8], new: Option<&[u8]>) -> Result<Write, Error> {
        let new = match new {
            Some(value) => Some(copied(alloc, value)?),
            None => None,
        };
        Ok(Write {
            key: copied(alloc, key)?,
            new,
        })
    }
}

// The keys and values of a lot; None where one is a removal.
fn values_of<'a>(alloc: Global, lot: &'a [Write]) -> Result<Option<Vec<ValueRef<'a>>>, Error> {
    let mut values = Vec::new(alloc);
    for write in lot {
        let Some(value) = &write.new else {
            return Ok(None);
        };
        values.push(ValueRef::Blob(write.key.items()))?;
        values.push(ValueRef::Blob(value.items()))?;
    }
    Ok(Some(values))
}

// Whether a lot was added. It isn't where one is a removal, or a key is there or twice in it; then nothing is changed.
fn is_added<D: Alter>(
    alloc: Global,
    connection: &mut Connection<D>,
    lot: &[Write],
) -> Result<bool, Error> {
    match values_of(alloc, lot)? {
        Some(values) => add_lot(connection, values.as_slice()),
        None => Ok(false),
    }
}

fn make<D: Alter>(connection: &mut Connection<D>, write: &Write) -> Result<(), Error> {
    let key = write.key.items();
    let is_made = match &write.new {
        Some(value) => change(connection, key, Guard::Any, Some(value.items()))? == 1,
        None => change(connection, key, Guard::Any, None)? <= 1,
    };
    // No database that keeps the table changes another number of rows.
    if is_made {
        Ok(())
    } else {
        Err(Error::SqliteFailure(ErrorCode::Closed))
    }
}

fn make_each<D: Alter>(connection: &mut Connection<D>, writes: &[Write]) -> Result<(), Error> {
    for write in writes {
        make(connection, write)?;
    }
    Ok(())
}

/// Makes the writes in their order. Up to the first lot that can't be added they are added in lots, and one by one from
/// it on.
pub fn make_all<D: Alter>(
    alloc: Global,
    connection: &mut Connection<D>,
    writes: &[Write],
) -> Result<(), Error> {
    let (lots, rest) = writes.as_chunks::<LOT>();
    let mut are_new = true;
    for lot in lots {
        are_new = are_new && is_added(alloc, connection, lot)?;
        if !are_new {
            make_each(connection, lot)?;
        }
    }
    make_each(connection, rest)
}
