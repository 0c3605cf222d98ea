//! Whether parts stand in the order of their keys.
ghost use Rattle.std.specs.Prelude.{◌≡◌, ◌↔◌, IsTrue};
ghost use Rattle.pq_parts.specs.Spans.{IsPlacement, are_rising};

use crate::part::Part;

/// Whether the parts begin at the empty key, are at most 64, and strictly rise.
pub fn are_placed<S>(parts: &[Part<S>]) -> bool
    ensures { IsTrue result ↔ IsPlacement parts.now }
{
    match parts.first() {
        Some(first) => parts.len() <= 64 && first.from.items().is_empty() && rise(parts),
        None => false,
    }
}

// Whether the first keys strictly rise.
fn rise<S>(parts: &[Part<S>]) -> bool
    ensures { result ≡ are_rising parts.now }
{
    let Some((first, rest)) = parts.split_first() else {
        return true;
    };
    let mut last = first;
    for part in rest {
        if !last.from.items().cmp(part.from.items()).is_lt() {
            return false;
        }
        last = part;
    }
    true
}
