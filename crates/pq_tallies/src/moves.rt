//! Which group of a counter a row leaves, and into which one it comes.
ghost use Rattle.std.specs.Prelude.{◌≡◌, IfOk, Some};
ghost use Rattle.std.specs.Option.{option_copied};
ghost use Rattle.pq_tallies.specs.Defined.{with_number};
ghost use Rattle.pq_tallies.specs.Moves.{group_in, group_key, move_in, moved, moved_keys};

use crate::codes::key_at;
use pq_base::{Bytes, NoMem, Row};
use pq_row_keys::{null_at, same_cells};
use pq_schema::Counter;
use std::alloc::Global;

/// The keys of the group that a row leaves, and of the one that a row comes into.
#[derive(Drop)]
pub struct MovedKeys {
    pub from: Option<Bytes>,
    pub to: Option<Bytes>,
}

const NO_MOVE: MovedKeys = MovedKeys {
    from: None,
    to: None,
};

/// The key of the group that the row is in: none where it has NULL at the columns.
fn key_in(alloc: Global, number: u16, counter: &Counter, row: &Row) -> Result<Option<Bytes>, NoMem>
    ensures { IfOk result (λ key. key ≡ group_key number (group_in (with_number number counter.now) row.now)) }
{
    if null_at(counter.cols.items(), row.items()) {
        return Ok(None);
    }
    Ok(Some(key_at(alloc, number, counter.cols.items(), row.items())?))
}

/// From the group of the one row into that of the other, unless the values stay.
fn turned(
    alloc: Global,
    number: u16,
    counter: &Counter,
    old: &Row,
    new: &Row,
) -> Result<MovedKeys, NoMem>
    ensures { IfOk result (λ keys. keys
        ≡ moved_keys number (moved (with_number number counter.now) (Some old.now) (Some new.now))) }
{
    if same_cells(counter.cols.items(), old.items(), new.items()) {
        return Ok(NO_MOVE);
    }
    Ok(MovedKeys {
        from: key_in(alloc, number, counter, old)?,
        to: key_in(alloc, number, counter, new)?,
    })
}

/// The groups of the row that goes and of the one that comes.
fn moved(
    alloc: Global,
    number: u16,
    counter: &Counter,
    old: Option<&Row>,
    new: Option<&Row>,
) -> Result<MovedKeys, NoMem>
    ensures { IfOk result (λ keys. keys ≡ moved_keys number
        (moved (with_number number counter.now) (option_copied old.entry) (option_copied new.entry))) }
{
    match (old, new) {
        (Some(old), Some(new)) => turned(alloc, number, counter, old, new),
        (Some(old), None) => Ok(MovedKeys {
            from: key_in(alloc, number, counter, old)?,
            to: None,
        }),
        (None, Some(new)) => Ok(MovedKeys {
            from: None,
            to: key_in(alloc, number, counter, new)?,
        }),
        (None, None) => Ok(NO_MOVE),
    }
}

/// The keys of the groups that a row of the table leaves and that one comes into, by the counter with this number; of
/// another table's counter nothing moves.
pub fn move_in(
    alloc: Global,
    table: u8,
    old: Option<&Row>,
    new: Option<&Row>,
    number: u16,
    counter: &Counter,
) -> Result<MovedKeys, NoMem>
    ensures { IfOk result (λ keys. keys ≡ moved_keys number
        (move_in table (option_copied old.entry) (option_copied new.entry) (with_number number counter.now))) }
{
    if table == counter.table {
        moved(alloc, number, counter, old, new)
    } else {
        Ok(NO_MOVE)
    }
}
