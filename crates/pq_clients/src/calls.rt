//! Single calls of a store.
ghost use Rattle.std.specs.Prelude.{◌≡◌, ℕ, List, Option, if◌then◌else◌, true};
ghost use Rattle.std.specs.Option.{option_copied};
ghost use Rattle.pq_key_code.specs.KeyCode.{past_code};
ghost use Rattle.std.specs.FinMap.{get as value_at};
ghost use Rattle.pq_store.specs.Content.{written_content, after_write, admits};
ghost use Rattle.pq_clients.specs.Goes.{Goes};
ghost use Rattle.pq_clients.specs.Steps.{is_just, counted};
ghost use Rattle.pq_clients.specs.InFlight.{spot_of};

use crate::halt::Halt;
use pq_base::Bytes;
use pq_key_code::past;
use pq_store::{Guard, Meter, Store};
use std::alloc::Global;
use std::sync::ledger::Ledger;

/// The value of the key.
pub(crate) fn get_pair<S: Store<L>, L: Ledger>(
    alloc: Global,
    key: &[u8],
    store: &mut S,
    meter: &mut Meter<L>,
) -> Result<Option<Bytes>, Halt>
    ensures { Goes (λ found. found) (λ c. (c, value_at c key.now))
        (spot_of S.Store store.old meter.old) (spot_of S.Store store.new meter.new) result }
{
    match store.get(alloc, key, meter) {
        Ok(found) => Ok(found),
        Err(error) => Err(Halt::from(error)),
    }
}

/// How many pairs have keys that begin so, at most `cap`.
pub(crate) fn count_pairs<S: Store<L>, L: Ledger>(
    alloc: Global,
    front: &[u8],
    cap: u32,
    store: &mut S,
    meter: &mut Meter<L>,
) -> Result<u32, Halt>
    ensures { Goes (λ n. n) (λ c. (c, counted c front.now cap))
        (spot_of S.Store store.old meter.old) (spot_of S.Store store.new meter.new) result }
{
    let copy = Bytes::of_bytes(alloc, front)?;
    let high = past(alloc, copy)?;
    count_up_to(alloc, front, high.items(), cap, store, meter)
}

#[tactic(auto, unfolding(crate::specs::Steps::counted))]
fn count_up_to<S: Store<L>, L: Ledger>(
    alloc: Global,
    front: &[u8],
    high: &[u8],
    cap: u32,
    store: &mut S,
    meter: &mut Meter<L>,
) -> Result<u32, Halt>
    requires { high.now ≡ past_code front.now }
    ensures { Goes (λ n. n) (λ c. (c, counted c front.now cap))
        (spot_of S.Store store.old meter.old) (spot_of S.Store store.new meter.new) result }
{
    match store.count(alloc, front, high, cap, meter) {
        Ok(n) => Ok(n),
        Err(error) => Err(Halt::from(error)),
    }
}

fn guard_of(expected: &Option<Bytes>) -> Guard<'_>
    ensures { (found : Option (List ℕ)) → admits result found ≡ is_just expected.now found }
{
    match expected {
        None => Guard::Absent,
        Some(value) => Guard::Is(value.items()),
    }
}

fn value_of(new: &Option<Bytes>) -> Option<&[u8]>
    ensures { option_copied result ≡ new.now }
{
    match new {
        None => None,
        Some(value) => Some(value.items()),
    }
}

/// Gives the pair this value, or removes it, where the guard admits it.
fn write_pair<S: Store<L>, L: Ledger>(
    alloc: Global,
    key: &[u8],
    guard: Guard,
    new: Option<&[u8]>,
    store: &mut S,
    meter: &mut Meter<L>,
) -> Result<bool, Halt>
    ensures { Goes (λ done. done) (λ c. (
      after_write guard.entry key.now (option_copied new.entry) c,
      admits guard.entry (value_at c key.now),
    ))
        (spot_of S.Store store.old meter.old) (spot_of S.Store store.new meter.new) result }
{
    match store.write(alloc, key, guard, new, meter) {
        Ok(done) => Ok(done),
        Err(error) => Err(Halt::from(error)),
    }
}

/// Gives the pair this value, or removes it, where it has just what is expected.
pub(crate) fn write_over<S: Store<L>, L: Ledger>(
    alloc: Global,
    key: &[u8],
    expected: &Option<Bytes>,
    new: &Option<Bytes>,
    store: &mut S,
    meter: &mut Meter<L>,
) -> Result<bool, Halt>
    ensures { Goes (λ done. done) (λ c. (
      if is_just expected.now (value_at c key.now)
          then written_content key.now new.now c else c,
      is_just expected.now (value_at c key.now),
    ))
        (spot_of S.Store store.old meter.old) (spot_of S.Store store.new meter.new) result }
{
    write_pair(alloc, key, guard_of(expected), value_of(new), store, meter)
}

/// Gives the pair this value, or removes it.
pub(crate) fn write_any<S: Store<L>, L: Ledger>(
    alloc: Global,
    key: &[u8],
    new: &Option<Bytes>,
    store: &mut S,
    meter: &mut Meter<L>,
) -> Result<bool, Halt>
    ensures { Goes (λ done. done) (λ c. (written_content key.now new.now c, true))
        (spot_of S.Store store.old meter.old) (spot_of S.Store store.new meter.new) result }
{
    write_pair(alloc, key, Guard::Any, value_of(new), store, meter)
}
