//! The bytes of requests.
ghost use Rattle.std.specs.Prelude.{◌≡◌, ◌≤◌, ◌+◌, ◌<◌, ◌++◌, ◌∷◌, [], IfOk, OnOk, IsErrOf, length};
ghost use Rattle.std.specs.Option.{option_copied};
ghost use Rattle.pq_host.specs.Frames.{number, sized, op_code, guard_mark, held_value, put_value, range_body, write_body, asked_key, asked_range, test_bytes, gets_body, ranges_body, tests_body};

use pq_base::{Bytes, NoMem};
use pq_store::{Ends, Guard, StoreErr, Test};
use std::alloc::Global;

/// The first byte of each request and of each answer, behind its length.
pub(crate) const VERSION: u8 = 1;

/// The bytes of the script, or of the reports, that one exchange carries at most.
pub(crate) const PIECE: usize = 65_536;

/// The bytes that a request's body may have.
pub(crate) const MOST: usize = 16_777_213;

/// What a host is asked.
#[derive(Clone, Copy, PartialEq, Eq)]
pub(crate) enum Op {
    /// For more of the script.
    Read,
    /// To take some of the reports.
    Report,
    /// Where its nodes begin.
    Places,
    /// For the value of a key.
    Get,
    /// For the pairs of a range.
    Range,
    /// For the number of pairs of a range.
    Count,
    /// To change what a key has.
    Write,
    /// For the values of several keys.
    Gets,
    /// For the pairs of several ranges.
    Ranges,
    /// For the first of several tests that holds.
    FirstHeld,
}

impl Op {
    fn code(self) -> u8
        ensures { result ≡ op_code self }
    {
        match self {
            Op::Read => 1,
            Op::Report => 2,
            Op::Places => 3,
            Op::Get => 16,
            Op::Range => 17,
            Op::Count => 18,
            Op::Write => 19,
            Op::Gets => 20,
            Op::Ranges => 21,
            Op::FirstHeld => 22,
        }
    }
}

/// What stands before the body of a request that has so many bytes.
pub(crate) fn head(op: Op, node: u8, len: u32) -> [u8; 7]
    requires { len ≤ 16777213 }
    ensures { result ≡ number (3 + len) ++ (1 ∷ op_code op ∷ node ∷ []) }
{
    let [a, b, c, d] = (3 + len).to_be_bytes();
    [a, b, c, d, VERSION, op.code(), node]
}

// Puts bytes behind their length. What is longer than any length can say is too long for a request.
fn put_sized(alloc: Global, body: &mut Bytes, bytes: &[u8]) -> Result<(), StoreErr>
    ensures ok { OnOk result (body.new ≡ body.old ++ sized bytes.now) }
    ensures too_long { IsErrOf result StoreErr.Failed → 16777213 < length bytes.now }
{
    let Ok(len) = u32::try_from(bytes.len()) else {
        return Err(StoreErr::Failed);
    };
    put(alloc, body, &len.to_be_bytes())?;
    put(alloc, body, bytes)
}

fn put(alloc: Global, body: &mut Bytes, bytes: &[u8]) -> Result<(), StoreErr>
    ensures ok { OnOk result (body.new ≡ body.old ++ bytes.now) }
    ensures no_memory { ¬ IsErrOf result StoreErr.Failed }
{
    match body.extend(alloc, bytes) {
        Ok(()) => Ok(()),
        Err(NoMem) => Err(StoreErr::NoMem),
    }
}

/// The body of a request for the first `limit` pairs of a range, or for their number up to `limit`.
pub(crate) fn range_body(
    alloc: Global,
    low: &[u8],
    high: &[u8],
    limit: u32,
) -> Result<Bytes, StoreErr>
    ensures ok { IfOk result (λ body. body ≡ range_body low.now high.now limit) }
    ensures too_long { IsErrOf result StoreErr.Failed → 16777213 < length (range_body low.now high.now limit) }
{
    let mut body = Bytes::new(alloc);
    put(alloc, &mut body, &limit.to_be_bytes())?;
    put_sized(alloc, &mut body, low)?;
    put(alloc, &mut body, high)?;
    Ok(body)
}

fn guard_mark(guard: Guard) -> u8
    ensures { result ≡ guard_mark guard.entry }
{
    match guard {
        Guard::Any => 0,
        Guard::Absent => 1,
        Guard::Is(_) => 2,
    }
}

fn held_value<'a>(guard: Guard<'a>) -> &'a [u8]
    ensures { result.now ≡ held_value guard.entry }
{
    match guard {
        Guard::Any | Guard::Absent => &[],
        Guard::Is(value) => value,
    }
}

fn put_value<'a>(new: Option<&'a [u8]>) -> &'a [u8]
    ensures { result.now ≡ put_value (option_copied new.entry) }
{
    match new {
        Some(value) => value,
        None => &[],
    }
}

/// The body of a request that changes what a key has.
pub(crate) fn write_body(
    alloc: Global,
    key: &[u8],
    guard: Guard,
    new: Option<&[u8]>,
) -> Result<Bytes, StoreErr>
    ensures ok { IfOk result (λ body. body ≡ write_body key.now guard.entry (option_copied new.entry)) }
    ensures too_long { IsErrOf result StoreErr.Failed
        → 16777213 < length (write_body key.now guard.entry (option_copied new.entry)) }
{
    let mut body = Bytes::new(alloc);
    put(alloc, &mut body, &[guard_mark(guard), new.is_some() as u8])?;
    put_sized(alloc, &mut body, key)?;
    put_sized(alloc, &mut body, held_value(guard))?;
    put(alloc, &mut body, put_value(new))?;
    Ok(body)
}

fn put_ends(alloc: Global, body: &mut Bytes, ends: &Ends) -> Result<(), StoreErr>
    ensures ok { OnOk result (body.new ≡ body.old ++ (sized ends.now.low ++ sized ends.now.high)) }
    ensures too_long { IsErrOf result StoreErr.Failed → 16777213 < length (sized ends.now.low ++ sized ends.now.high) }
{
    put_sized(alloc, body, ends.low.items())?;
    put_sized(alloc, body, ends.high.items())
}

fn put_key(alloc: Global, body: &mut Bytes, asked: &Option<Bytes>) -> Result<(), StoreErr>
    ensures ok { OnOk result (body.new ≡ body.old ++ asked_key asked.now) }
    ensures too_long { IsErrOf result StoreErr.Failed → 16777213 < length (asked_key asked.now) }
{
    match asked {
        None => put(alloc, body, &[0]),
        Some(key) => {
            put(alloc, body, &[1])?;
            put_sized(alloc, body, key.items())
        }
    }
}

fn put_range(alloc: Global, body: &mut Bytes, asked: &Option<Ends>) -> Result<(), StoreErr>
    ensures ok { OnOk result (body.new ≡ body.old ++ asked_range asked.now) }
    ensures too_long { IsErrOf result StoreErr.Failed → 16777213 < length (asked_range asked.now) }
{
    match asked {
        None => put(alloc, body, &[0]),
        Some(ends) => {
            put(alloc, body, &[1])?;
            put_ends(alloc, body, ends)
        }
    }
}

fn put_test(alloc: Global, body: &mut Bytes, test: &Test) -> Result<(), StoreErr>
    ensures ok { OnOk result (body.new ≡ body.old ++ test_bytes test.now) }
    ensures too_long { IsErrOf result StoreErr.Failed → 16777213 < length (test_bytes test.now) }
{
    match test {
        Test::Has(key) => {
            put(alloc, body, &[0])?;
            put_sized(alloc, body, key.items())
        }
        Test::Lacks(key) => {
            put(alloc, body, &[1])?;
            put_sized(alloc, body, key.items())
        }
        Test::Full(ends, n) => {
            put(alloc, body, &[2])?;
            put(alloc, body, &n.to_be_bytes())?;
            put_ends(alloc, body, ends)
        }
    }
}

/// The body of a request for the values of keys.
pub(crate) fn gets_body(alloc: Global, keys: &[Option<Bytes>]) -> Result<Bytes, StoreErr>
    requires { length keys.now ≤ 128 }
    ensures ok { IfOk result (λ body. body ≡ gets_body keys.now) }
    ensures too_long { IsErrOf result StoreErr.Failed → 16777213 < length (gets_body keys.now) }
{
    let mut body = Bytes::new(alloc);
    put(alloc, &mut body, &(keys.len() as u32).to_be_bytes())?;
    for asked in keys {
        put_key(alloc, &mut body, asked)?;
    }
    Ok(body)
}

/// The body of a request for the first `limit` pairs of each range.
pub(crate) fn ranges_body(
    alloc: Global,
    asks: &[Option<Ends>],
    limit: u32,
) -> Result<Bytes, StoreErr>
    requires { length asks.now ≤ 128 }
    ensures ok { IfOk result (λ body. body ≡ ranges_body asks.now limit) }
    ensures too_long { IsErrOf result StoreErr.Failed → 16777213 < length (ranges_body asks.now limit) }
{
    let mut body = Bytes::new(alloc);
    put(alloc, &mut body, &limit.to_be_bytes())?;
    put(alloc, &mut body, &(asks.len() as u32).to_be_bytes())?;
    for asked in asks {
        put_range(alloc, &mut body, asked)?;
    }
    Ok(body)
}

/// The body of a request for the first test that holds.
pub(crate) fn tests_body(alloc: Global, tests: &[Test]) -> Result<Bytes, StoreErr>
    requires { length tests.now ≤ 128 }
    ensures ok { IfOk result (λ body. body ≡ tests_body tests.now) }
    ensures too_long { IsErrOf result StoreErr.Failed → 16777213 < length (tests_body tests.now) }
{
    let mut body = Bytes::new(alloc);
    put(alloc, &mut body, &(tests.len() as u32).to_be_bytes())?;
    for test in tests {
        put_test(alloc, &mut body, test)?;
    }
    Ok(body)
}
