//! Numbers of relations and columns.
ghost use Rattle.std.specs.Prelude.{◌≡◌, ◌+◌, ◌<◌, ◌≤◌, All, IfOk};
ghost use Rattle.std.specs.List.{range_with_len};

use pq_base::{List, NoMem};
use std::alloc::Global;

/// So many numbers, from a first one on.
#[tactic(auto, using(crate::proofs::Ranges::range_step, crate::proofs::Ranges::range_end, crate::proofs::Ranges::range_all))]
pub(crate) fn numbers(alloc: Global, from: u8, count: u8) -> Result<List<u8>, NoMem>
    requires { from + count ≤ 255 }
    ensures numbers { IfOk result (λ found. found ≡ range_with_len from count) }
    ensures within { IfOk result (λ found. All (λ n. (from ≤ n) × (n < from + count)) found) }
{
    let mut found = List::new(alloc);
    for n in from..from + count {
        found.push(alloc, n)?;
    }
    Ok(found)
}
