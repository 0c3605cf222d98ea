//! What the pair of a row holds.
ghost use Rattle.std.specs.Prelude.{◌≡◌, true, Some, is_some, option_and_then, IfOk, take, drop};
ghost use Rattle.std.specs.Int.{w32, from_be_bytes};
ghost use Rattle.pq_clients.specs.Held.{held_value, is_held_value, something, present_row, decoded_row, cell_of};
ghost use Rattle.pq_clients.specs.Steps.{is_held_by_other, is_row_or_none};

use crate::rows::decoded_row;
use pq_base::{Bytes, NoMem};
use pq_schema::Table;
use std::alloc::Global;

/// The value that a client holds a pair with: the mark, its number and its write's number, and the present
/// row's code or nothing.
#[tactic(auto, unfolding(crate::specs::Held::held_value))]
pub(crate) fn held_value(
    alloc: Global,
    client: u32,
    number: u32,
    present: &Option<Bytes>,
) -> Result<Bytes, NoMem>
    ensures { IfOk result (λ value. value ≡ held_value client number present.now) }
{
    let mut value = Bytes::of_bytes(alloc, &[0x80])?;
    value.extend(alloc, &client.to_be_bytes())?;
    value.extend(alloc, &number.to_be_bytes())?;
    match present {
        None => Ok(value),
        Some(code) => {
            value.extend(alloc, code.items())?;
            Ok(value)
        }
    }
}

/// Whether a value has the mark and is long enough for two numbers.
pub(crate) fn is_held_value(bytes: &[u8]) -> bool
    ensures { result ≡ is_held_value bytes.now }
{
    match bytes {
        [] => false,
        [first, rest @ ..] => *first == 0x80 && 8 <= rest.len(),
    }
}

/// Whether the bytes are a row's code.
fn is_row(alloc: Global, table: &Table, bytes: &[u8]) -> Result<bool, NoMem>
    ensures { IfOk result (λ answer. answer ≡ is_some (decoded_row table.now bytes.now)) }
{
    Ok(decoded_row(alloc, table, bytes)?.is_some())
}

/// Whether a row is present behind the numbers of a held value.
fn is_row_held(alloc: Global, table: &Table, bytes: &[u8]) -> Result<bool, NoMem>
    ensures { IfOk result (λ answer. answer
        ≡ is_some (option_and_then (decoded_row table.now) (something bytes.now))) }
{
    if bytes.is_empty() {
        return Ok(false);
    }
    is_row(alloc, table, bytes)
}

#[tactic(auto, unfolding(crate::specs::Held::cell_of))]
fn is_row_in(alloc: Global, table: &Table, value: &[u8]) -> Result<bool, NoMem>
    ensures { IfOk result (λ answer. answer ≡ is_some (present_row table.now (Some value.now))) }
{
    if is_held_value(value) {
        is_row_held(alloc, table, &value[9..])
    } else {
        is_row(alloc, table, value)
    }
}

/// Whether a row of the table is present in a pair with this value, or none.
pub(crate) fn is_present(alloc: Global, table: &Table, found: &Option<Bytes>) -> Result<bool, NoMem>
    ensures { IfOk result (λ answer. answer ≡ is_some (present_row table.now found.now)) }
{
    match found {
        None => Ok(false),
        Some(value) => is_row_in(alloc, table, value.items()),
    }
}

/// Whether the bytes are a row's code or nothing.
fn is_row_or_none(alloc: Global, table: &Table, bytes: &[u8]) -> Result<bool, NoMem>
    ensures { IfOk result (λ answer. answer ≡ is_row_or_none table.now (something bytes.now)) }
{
    if bytes.is_empty() {
        return Ok(true);
    }
    is_row(alloc, table, bytes)
}

/// The number of the client that holds a pair with this value.
fn holder_of(value: &[u8]) -> u32
    requires { is_held_value value.now ≡ true }
    ensures { result ≡ from_be_bytes w32 (take 4 (drop 1 value.now)) }
{
    match value {
        [_, a, b, c, d, ..] => u32::from_be_bytes([*a, *b, *c, *d]),
        _ => unreachable!(),
    }
}

/// Whether another client holds a pair with this value, which has the mark.
#[tactic(auto, unfolding(crate::specs::Held::cell_of))]
pub(crate) fn is_held_by_other(
    alloc: Global,
    table: &Table,
    client: u32,
    value: &[u8],
) -> Result<bool, NoMem>
    requires { is_held_value value.now ≡ true }
    ensures { IfOk result (λ answer. answer ≡ is_held_by_other table.now client (cell_of value.now)) }
{
    if holder_of(value) == client {
        return Ok(false);
    }
    is_row_or_none(alloc, table, &value[9..])
}
