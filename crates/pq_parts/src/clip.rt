//! The ends of what a part has of a range.
ghost use Rattle.std.specs.Prelude.{◌≡◌};
ghost use Rattle.pq_parts.specs.Clips as clips;

use pq_base::Bytes;

/// The later of two first keys.
pub fn later<'a>(a: &'a [u8], b: &'a [u8]) -> &'a [u8]
    ensures { result.now ≡ clips.later a.now b.now }
{
    if a.cmp(b).is_lt() { b } else { a }
}

/// The earlier of two ends, where there is a second one.
pub fn earlier<'a>(a: &'a [u8], b: &'a Option<Bytes>) -> &'a [u8]
    ensures { result.now ≡ clips.earlier a.now b.now }
{
    match b {
        Some(b) => {
            if b.items().cmp(a).is_lt() {
                b.items()
            } else {
                a
            }
        }
        None => a,
    }
}
