//! What the bodies of answers say.
ghost use Rattle.std.specs.Prelude.{◌≡◌, ℕ, ◌≤◌, ◌<◌, ◌*◌, ◌^◌, ◌++◌, true, false, sum_by, Some, IfOk, IfSome, IsTrue, map, flat_map, length};
ghost use Rattle.std.specs.List.{AllZip};
ghost use Rattle.pq_store.specs.Content.{entry};
ghost use Rattle.pq_store.specs.Rounds.{IsValueAnswered, IsPartAsked, least_entries, most_entries, sum_made};
ghost use Rattle.pq_host.specs.Ends.{any_answer};
ghost use Rattle.pq_host.specs.Frames.{number, sized, answer_head, failed_answer, pair_bytes, part_bytes, value_bytes, value_body, pairs_body, keys_body, done_body, place_body, told_place};

use crate::request::VERSION;
use pq_base::{Bytes, List, NoMem};
use pq_store::{Ends, Guard, Pair, StoreErr, Test, is_part};
use std::alloc::Global;

/// The last byte of an answer's head: what was asked has failed.
const FAILED: u8 = 0;

/// The last byte of an answer's head: what was asked is done.
const DONE: u8 = 1;

/// What the head of an answer says.
#[derive(Clone, Copy, PartialEq, Eq)]
pub(crate) enum Head {
    /// What was asked is done, and a body of so many bytes comes.
    Done(u32),
    /// What was asked has failed.
    Failed,
}

/// Why nothing was read in the body of an answer.
#[derive(Clone, Copy, PartialEq, Eq)]
pub(crate) enum Unread {
    /// It says nothing that answers its request.
    Malformed,
    /// There was no memory for what it says.
    NoMem,
}

impl From<NoMem> for Unread {
    fn from(_error: NoMem) -> Unread {
        Unread::NoMem
    }
}

impl From<Unread> for StoreErr {
    fn from(error: Unread) -> StoreErr {
        match error {
            Unread::Malformed => StoreErr::Failed,
            Unread::NoMem => StoreErr::NoMem,
        }
    }
}

/// What the head of an answer says: none where it is none.
#[tactic(auto, unfolding(crate::specs::Frames::answer_head, crate::specs::Frames::failed_answer))]
pub(crate) fn read_head(head: [u8; 6]) -> Option<Head>
    ensures done { (len : ℕ) → result ≡ Some (Head.Done len) → head ≡ answer_head len }
    ensures failed { result ≡ Some Head.Failed → head ≡ failed_answer }
{
    let [a, b, c, d, version, end] = head;
    let len = u32::from_be_bytes([a, b, c, d]);
    if version != VERSION || len < 2 {
        return None;
    }
    match (end, len - 2) {
        (DONE, body) => Some(Head::Done(body)),
        (FAILED, 0) => Some(Head::Failed),
        _ => None,
    }
}

// A number, and what stands behind it.
fn cut_number(bytes: &[u8]) -> Result<(u32, &[u8]), Unread>
    ensures { IfOk result (λ cut. bytes.now ≡ number cut.0 ++ cut.1.now) }
{
    match bytes {
        [a, b, c, d, rest @ ..] => Ok((u32::from_be_bytes([*a, *b, *c, *d]), rest)),
        _ => Err(Unread::Malformed),
    }
}

// Bytes behind their length, and what stands behind them.
fn cut_sized(bytes: &[u8]) -> Result<(&[u8], &[u8]), Unread>
    ensures { IfOk result (λ cut. bytes.now ≡ sized cut.0.now ++ cut.1.now) }
{
    let (len, rest) = cut_number(bytes)?;
    match rest.split_at_checked(len as usize) {
        Some(cut) => Ok(cut),
        None => Err(Unread::Malformed),
    }
}

/// The value of a get: none, or one.
pub(crate) fn read_value(alloc: Global, body: &[u8]) -> Result<Option<Bytes>, Unread>
    ensures { IfOk result (λ found. body.now ≡ value_body found) }
{
    match body {
        [0] => Ok(None),
        [1, value @ ..] => Ok(Some(Bytes::of_bytes(alloc, value)?)),
        _ => Err(Unread::Malformed),
    }
}

/// The first keys of nodes, at most 64.
pub(crate) fn read_keys(alloc: Global, body: &[u8]) -> Result<List<Bytes>, Unread>
    ensures few { IfOk result (λ keys. length keys ≤ 64) }
    ensures said { IfOk result (λ keys. body.now ≡ keys_body keys) }
{
    let (number, mut rest) = cut_number(body)?;
    if number > 64 {
        return Err(Unread::Malformed);
    }
    let mut keys = List::new(alloc);
    for _ in 0..number {
        let (key, behind) = cut_sized(rest)?;
        keys.push(alloc, Bytes::of_bytes(alloc, key)?)?;
        rest = behind;
    }
    if !rest.is_empty() {
        return Err(Unread::Malformed);
    }
    Ok(keys)
}

// The next pair, and what stands behind it.
fn cut_pair(alloc: Global, bytes: &[u8]) -> Result<(Pair, &[u8]), Unread>
    ensures { IfOk result (λ cut. bytes.now ≡ pair_bytes (entry cut.0) ++ cut.1.now) }
{
    let (key, rest) = cut_sized(bytes)?;
    let (value, rest) = cut_sized(rest)?;
    let key = Bytes::of_bytes(alloc, key)?;
    let value = Bytes::of_bytes(alloc, value)?;
    Ok((Pair { key, value }, rest))
}

// The next pairs, at most `limit`, and what stands behind them. What they say of one another is not looked at.
fn cut_pairs(alloc: Global, bytes: &[u8], limit: u32) -> Result<(List<Pair>, &[u8]), Unread>
    ensures few { IfOk result (λ cut. length cut.0 ≤ limit) }
    ensures said { IfOk result (λ cut. bytes.now ≡ part_bytes cut.0 ++ cut.1.now) }
{
    let (number, mut rest) = cut_number(bytes)?;
    if number > limit {
        return Err(Unread::Malformed);
    }
    let mut pairs = List::new(alloc);
    for _ in 0..number {
        let (pair, behind) = cut_pair(alloc, rest)?;
        pairs.push(alloc, pair)?;
        rest = behind;
    }
    Ok((pairs, rest))
}

/// The pairs of a range, at most `limit`. What they say of one another is not looked at.
pub(crate) fn read_pairs(alloc: Global, body: &[u8], limit: u32) -> Result<List<Pair>, Unread>
    ensures few { IfOk result (λ pairs. length pairs ≤ limit) }
    ensures said { IfOk result (λ pairs. body.now ≡ pairs_body (map entry pairs)) }
{
    let (pairs, rest) = cut_pairs(alloc, body, limit)?;
    if !rest.is_empty() {
        return Err(Unread::Malformed);
    }
    Ok(pairs)
}

// The next value that answers for a key, and what stands behind it. Where no key stands it is none.
fn cut_value<'a>(
    alloc: Global,
    asked: &Option<Bytes>,
    bytes: &'a [u8],
) -> Result<(Option<Bytes>, &'a [u8]), Unread>
    ensures answered { IfOk result (λ cut. IsValueAnswered any_answer asked.now cut.0) }
    ensures said { IfOk result (λ cut. bytes.now ≡ value_bytes cut.0 ++ cut.1.now) }
{
    match (bytes, asked) {
        ([0, rest @ ..], _) => Ok((None, rest)),
        ([1, rest @ ..], Some(_)) => {
            let (value, rest) = cut_sized(rest)?;
            Ok((Some(Bytes::of_bytes(alloc, value)?), rest))
        }
        _ => Err(Unread::Malformed),
    }
}

/// The values of keys, one for each.
#[tactic(auto, using(pq_store::proofs::Rounds::all_zip_more))]
pub(crate) fn read_values(
    alloc: Global,
    body: &[u8],
    keys: &[Option<Bytes>],
) -> Result<List<Option<Bytes>>, Unread>
    ensures answered { IfOk result (AllZip (IsValueAnswered any_answer) keys.now) }
    ensures said { IfOk result (λ found. body.now ≡ flat_map value_bytes found) }
{
    let mut rest = body;
    let mut found = List::new(alloc);
    for asked in keys {
        let (value, behind) = cut_value(alloc, asked, rest)?;
        found.push(alloc, value)?;
        rest = behind;
    }
    if !rest.is_empty() {
        return Err(Unread::Malformed);
    }
    Ok(found)
}

// Whether a store may answer these pairs to what was asked.
fn answers_range(asked: &Option<Ends>, limit: u32, pairs: &[Pair]) -> bool
    ensures { IsTrue result → IsPartAsked limit asked.now pairs.now }
{
    match asked {
        None => pairs.is_empty(),
        Some(ends) => is_part(ends.low.items(), ends.high.items(), limit, pairs),
    }
}

/// The pairs of ranges, a list for each, which are what a store may answer.
#[tactic(auto, using(pq_store::proofs::Rounds::all_zip_more))]
pub(crate) fn read_parts(
    alloc: Global,
    body: &[u8],
    asks: &[Option<Ends>],
    limit: u32,
) -> Result<List<List<Pair>>, Unread>
    ensures parts { IfOk result (AllZip (IsPartAsked limit) asks.now) }
    ensures said { IfOk result (λ found. body.now ≡ flat_map part_bytes found) }
{
    let mut rest = body;
    let mut found = List::new(alloc);
    for asked in asks {
        let (pairs, behind) = cut_pairs(alloc, rest, limit)?;
        if !answers_range(asked, limit, pairs.items()) {
            return Err(Unread::Malformed);
        }
        found.push(alloc, pairs)?;
        rest = behind;
    }
    if !rest.is_empty() {
        return Err(Unread::Malformed);
    }
    Ok(found)
}

// The entries of the test that holds.
fn held_entries(test: &Test) -> u32
    ensures least { result ≡ least_entries true test.now }
    ensures most { result ≡ most_entries true test.now }
{
    match test {
        Test::Has(_) => 1,
        Test::Lacks(_) => 0,
        Test::Full(_, n) => *n,
    }
}

// The least that the entries of a test that doesn't hold are.
fn least_unheld(test: &Test) -> u32
    ensures { result ≡ least_entries false test.now }
{
    match test {
        Test::Has(_) | Test::Full(..) => 0,
        Test::Lacks(_) => 1,
    }
}

// The most that they are.
fn most_unheld(test: &Test) -> u32
    ensures { result ≡ most_entries false test.now }
{
    match test {
        Test::Has(_) => 0,
        Test::Lacks(_) => 1,
        Test::Full(_, n) => n.saturating_sub(1),
    }
}

// The least and the most of the entries of tests that don't hold.
fn unheld_entries(tests: &[Test]) -> (u64, u64)
    requires { length tests.now ≤ 128 }
    ensures least { result.0 ≡ sum_by (least_entries false) tests.now }
    ensures most { result.1 ≡ sum_by (most_entries false) tests.now }
    ensures fits { result.0 ≤ 128 * 2 ^ 32 }
    ensures most_fits { result.1 ≤ 128 * 2 ^ 32 }
{
    let mut least = 0;
    let mut most = 0;
    for test in tests {
        least += least_unheld(test) as u64;
        most += most_unheld(test) as u64;
    }
    (least, most)
}

// Whether the tests may have so many entries, of which this is the first that holds.
fn may_count(tests: &[Test], at: Option<usize>, entries: u32) -> bool
    requires few { length tests.now ≤ 128 }
    requires within { IfSome at (λ i. i < length tests.now) }
    ensures least { IsTrue result → sum_made least_entries tests.now at ≤ entries }
    ensures most { IsTrue result → entries ≤ sum_made most_entries tests.now at }
{
    let entries = entries as u64;
    match at {
        None => {
            let (least, most) = unheld_entries(tests);
            least <= entries && entries <= most
        }
        Some(i) => {
            let (least, most) = unheld_entries(&tests[..i]);
            let held = held_entries(&tests[i]) as u64;
            least + held <= entries && entries <= most + held
        }
    }
}

// A place and a number of entries, and nothing behind them.
fn place_and_entries(body: &[u8]) -> Result<(u32, u32), Unread>
    ensures { IfOk result (λ told. body.now ≡ place_body told.0 told.1) }
{
    let (place, rest) = cut_number(body)?;
    let (entries, rest) = cut_number(rest)?;
    if !rest.is_empty() {
        return Err(Unread::Malformed);
    }
    Ok((place, entries))
}

// The place of a test, or none where it is the number of tests. A place above it says nothing.
fn place_among(tests: &[Test], place: u32) -> Option<Option<usize>>
    ensures within { IfSome result (λ at. IfSome at (λ i. i < length tests.now)) }
    ensures said { IfSome result (λ at. place ≡ told_place tests.now at) }
{
    let place = place as usize;
    if place < tests.len() {
        return Some(Some(place));
    }
    if place == tests.len() {
        return Some(None);
    }
    None
}

/// The place of the first test that holds, where one does, and the entries of the tests up to it.
pub(crate) fn read_place(tests: &[Test], body: &[u8]) -> Result<(Option<usize>, u32), Unread>
    requires { length tests.now ≤ 128 }
    ensures within { IfOk result (λ told. IfSome told.0 (λ i. i < length tests.now)) }
    ensures said { IfOk result (λ told. body.now ≡ place_body (told_place tests.now told.0) told.1) }
    ensures least { IfOk result (λ told. sum_made least_entries tests.now told.0 ≤ told.1) }
    ensures most { IfOk result (λ told. told.1 ≤ sum_made most_entries tests.now told.0) }
{
    let (place, entries) = place_and_entries(body)?;
    match place_among(tests, place) {
        Some(at) if may_count(tests, at, entries) => Ok((at, entries)),
        _ => Err(Unread::Malformed),
    }
}

/// Whether a write was made. One that nothing guards is made.
pub(crate) fn read_done(guard: Guard, body: [u8; 1]) -> Option<bool>
    ensures { IfSome result (λ done. body ≡ done_body done) }
{
    match (guard, body) {
        (_, [1]) => Some(true),
        (Guard::Absent | Guard::Is(_), [0]) => Some(false),
        _ => None,
    }
}
