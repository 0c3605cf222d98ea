//! Whether pairs are what a store may answer to a range.
ghost use Rattle.std.specs.Prelude.{◌≡◌, true, IsTrue, All, map};
ghost use Rattle.pq_store.specs.Content.{IsPartOf, is_within, is_rising, entry};

use crate::store::Pair;

// Whether the key lies in the range.
fn lies_within(low: &[u8], high: &[u8], pair: &Pair) -> bool
    ensures { result ≡ is_within low.now high.now (entry pair.now) }
{
    low.cmp(pair.key.items()).is_le() && pair.key.items().cmp(high).is_lt()
}

fn are_within(low: &[u8], high: &[u8], pairs: &[Pair]) -> bool
    ensures each { IsTrue result → All (λ pair. is_within low.now high.now (entry pair) ≡ true) pairs.now }
    ensures all { All (λ pair. is_within low.now high.now (entry pair) ≡ true) pairs.now → IsTrue result }
{
    pairs.iter().all(|pair| lies_within(low, high, pair))
}

/// Whether the keys strictly rise.
pub fn rise(pairs: &[Pair]) -> bool
    ensures { result ≡ is_rising (map entry pairs.now) }
{
    let Some((first, rest)) = pairs.split_first() else {
        return true;
    };
    let mut last = first;
    for pair in rest {
        if !last.key.items().cmp(pair.key.items()).is_lt() {
            return false;
        }
        last = pair;
    }
    true
}

/// Whether these are at most `limit` pairs with `low <= key < high` whose keys strictly rise: what
/// each store promises of its answer to a range. A store over something else, as a database or the
/// other end of a stream, tests with it what it was given.
pub fn is_part(low: &[u8], high: &[u8], limit: u32, pairs: &[Pair]) -> bool
    ensures part { IsTrue result → IsPartOf low.now high.now limit (map entry pairs.now) }
    ensures exactly { IsPartOf low.now high.now limit (map entry pairs.now) → IsTrue result }
{
    if pairs.len() > limit as usize {
        return false;
    }
    if !are_within(low, high, pairs) {
        return false;
    }
    rise(pairs)
}
