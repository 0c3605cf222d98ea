//! How many rows a table has for which an index is to be filled.
ghost use Rattle.std.specs.Prelude.{◌≡◌, ◌≤◌, ◌+◌, length, IfOk, IfErr, IfSome, OnErr};
ghost use Rattle.pq_store.specs.Content.{HasBrokeCause};
ghost use Rattle.pq_store.specs.Breaks.{IsUndamaged};
ghost use Rattle.pq_builds.specs.Filling.{row_pairs_in};
ghost use Rattle.pq_builds.specs.Stages.{IsCounted, Takes, count_entries};

use crate::fill::{first_key, past_key};
use pq_store::{Broke, Meter, Store};
use std::alloc::Global;
use std::sync::ledger::Ledger;

/// The greatest number of rows for which an index is filled.
const MOST_ROWS: u32 = 1_000_000;

/// How many rows a table has, None where they are more than an index is filled for.
pub(crate) fn count_rows<S: Store<L>, L: Ledger>(
    alloc: Global,
    table: u8,
    store: &mut S,
    meter: &mut Meter<L>,
) -> Result<Option<u32>, Broke>
    ensures counted { IfOk result (λ count. IfSome (S.content store.old)
        (λ c. IsCounted (length (row_pairs_in table c)) count)) }
    ensures few { IfOk result (λ count. IfSome count (λ n. n ≤ 1000000)) }
    ensures same { S.content store.new ≡ S.content store.old }
    ensures sound { IfErr result IsUndamaged }
    ensures takes { IfOk result (λ count. Takes 1 (count_entries count) meter.old meter.new) }
    ensures few_ops { meter.new.ops ≤ meter.old.ops + 1 }
    ensures none { OnErr result (meter.new.entries ≡ meter.old.entries) }
    ensures cause { HasBrokeCause (S.faults store.old) (S.faults store.new) result }
{
    let low = first_key(alloc, table)?;
    let high = past_key(alloc, table)?;
    match store.count(alloc, low.items(), high.items(), MOST_ROWS + 1, meter) {
        Err(error) => Err(Broke::from(error)),
        Ok(count) => {
            if count > MOST_ROWS {
                Ok(None)
            } else {
                Ok(Some(count))
            }
        }
    }
}
