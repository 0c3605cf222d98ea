//! The least candidate.

ghost use Rattle.std.specs.Prelude.{◌≡◌, ◌<◌, Some, map, fold, option_map};
ghost use Rattle.pq_schema.specs.Costs.{is_less};
ghost use Rattle.pq_stop_push.specs.Pushes.{held_plan};
ghost use Rattle.pq_compile.specs.Lowered.{lesser_planned, least_planned};

use pq_base::Bound;
use pq_stop_push::Candidate;

/// Fewer operations, or as many and fewer entries.
fn is_less(a: Bound, b: Bound) -> bool
    ensures { result ≡ is_less a b }
{
    a.ops < b.ops || a.ops == b.ops && a.entries < b.entries
}

fn lesser<'a>(best: &'a Candidate, next: &'a Candidate) -> &'a Candidate
    ensures { held_plan result.now ≡ lesser_planned (held_plan best.now) (held_plan next.now) }
{
    if is_less(next.bound, best.bound) {
        next
    } else {
        best
    }
}

fn fewest<'a>(first: &'a Candidate, rest: &'a [Candidate]) -> &'a Candidate
    ensures { held_plan result.now ≡ fold lesser_planned (held_plan first.now) (map held_plan rest.now) }
{
    let mut best = first;
    for next in rest {
        best = lesser(best, next);
    }
    best
}

/// The first of the candidates with the fewest operations, and of these with the fewest entries.
pub fn least(candidates: &[Candidate]) -> Option<&Candidate>
    ensures { option_map (λ best. held_plan best.now) result ≡ least_planned (map held_plan candidates.now) }
{
    match candidates.split_first() {
        None => None,
        Some((first, rest)) => Some(fewest(first, rest)),
    }
}
