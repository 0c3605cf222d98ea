//! Questions that several nodes answer: each gets its own, and the answers go back to their places.
ghost use Rattle.std.specs.Prelude.{◌≡◌, ◌<◌, ◌^◌, length, sum_by};
ghost use Rattle.pq_store.specs.Rounds.{one_if_some};
ghost use Rattle.pq_parts.specs.Asking as asking;

use pq_base::List;

/// How many of the places have something.
pub fn number_of<T>(places: &[Option<T>]) -> usize
    ensures { result ≡ sum_by one_if_some places.now }
{
    let mut number = 0;
    for place in places {
        if place.is_some() {
            number += 1;
        }
    }
    number
}

/// How many entries the answers have together.
pub fn entries_of<T>(answers: &[List<T>]) -> u32
    requires { sum_by length answers.now < 2 ^ 32 }
    ensures { result ≡ sum_by length answers.now }
{
    let mut entries = 0;
    for answer in answers {
        entries += answer.items().len() as u32;
    }
    entries
}

/// Puts the answers of what was asked in their places. What stands at the others stays.
pub fn put_answers<Q, A: Drop>(asked: &[Option<Q>], answers: List<A>, found: &mut Vec<A>)
    requires answers { length answers ≡ length asked.now }
    requires found { length found.old.items ≡ length asked.now }
    ensures { found.new.items ≡ asking.put_answers asked.now answers found.old.items }
{
    let mut at = 0;
    for answer in answers.into_vec() {
        put_answer(asked, at, answer, found);
        at += 1;
    }
}

// Puts the answer in its place, where something was asked.
fn put_answer<Q, A: Drop>(asked: &[Option<Q>], at: usize, answer: A, found: &mut Vec<A>)
    requires asked { at < length asked.now }
    requires found { at < length found.old.items }
    ensures { found.new.items ≡ asking.put_answer asked.now at answer found.old.items }
{
    if asked[at].is_some() {
        found[at] = answer;
    }
}
