//! The keys and values of counters in a store.
ghost use Rattle.std.specs.Prelude.{◌≡◌, ◌≤◌, [], IfOk, IfSome, IfNone};
ghost use Rattle.pq_content.specs.Tables.{cells};
ghost use Rattle.pq_tallies.specs.Counters.{counter_key, count_code, next_count, stored_count, most_count, IsNoCountCode};

use pq_base::{Bytes, Dir, NoMem, Row, Value};
use pq_key_code::put_component;
use pq_row_keys::put_cells;
use std::alloc::Global;

/// The greatest number of rows that a group may have.
pub const MOST_COUNT: u64 = 9_223_372_036_854_775_807;

// Most keys have no more bytes than this.
const KEY_ROOM: usize = 40;

/// The number after this one: None exactly from the greatest on.
pub fn next_count(n: u64) -> Option<u64>
    ensures { result ≡ next_count n }
{
    if n < MOST_COUNT { Some(n + 1) } else { None }
}

/// What the keys of a counter's groups begin with: space 05 and the counter's number in two bytes.
fn counter_front(alloc: Global, number: u16) -> Result<Bytes, NoMem>
    ensures { IfOk result (λ key. key ≡ counter_key number []) }
{
    let [high, low] = number.to_be_bytes();
    let mut key = Bytes::with_room(alloc, KEY_ROOM)?;
    key.extend(alloc, &[0x05, high, low])?;
    Ok(key)
}

/// The key of a group: space 05, the counter's number in two bytes, and the code of the values.
pub fn counter_key(alloc: Global, number: u16, values: &Row) -> Result<Bytes, NoMem>
    ensures { IfOk result (λ key. key ≡ counter_key number values.now) }
{
    let mut key = counter_front(alloc, number)?;
    for value in values.items() {
        put_component(alloc, &mut key, Dir::Asc, value)?;
    }
    Ok(key)
}

/// The same for the values of a row at the columns.
pub(crate) fn key_at(alloc: Global, number: u16, cols: &[u8], row: &[Value]) -> Result<Bytes, NoMem>
    ensures { IfOk result (λ key. key ≡ counter_key number (cells cols.now row.now)) }
{
    let mut key = counter_front(alloc, number)?;
    put_cells(alloc, &mut key, cols, row)?;
    Ok(key)
}

/// What a store holds for a group of so many rows: nothing for none.
pub fn stored_count(alloc: Global, n: u64) -> Result<Option<Bytes>, NoMem>
    ensures { IfOk result (λ stored. stored ≡ stored_count n) }
{
    if n == 0 {
        return Ok(None);
    }
    Ok(Some(Bytes::of_bytes(alloc, &n.to_be_bytes())?))
}

/// The number that has this code: None exactly where no number of rows has it.
pub fn count_of(code: &[u8]) -> Option<u64>
    ensures is { IfSome result (λ n. count_code n ≡ code.now) }
    ensures some { IfSome result (λ n. 1 ≤ n) }
    ensures few { IfSome result (λ n. n ≤ most_count) }
    ensures none { IfNone result (IsNoCountCode code.now) }
{
    if code.len() != 8 {
        return None;
    }
    let n = u64::from_be_bytes([
        code[0], code[1], code[2], code[3], code[4], code[5], code[6], code[7],
    ]);
    if n == 0 || n > MOST_COUNT {
        return None;
    }
    Some(n)
}
