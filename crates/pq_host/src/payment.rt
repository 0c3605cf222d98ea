//! What a round costs: an operation for each question, and an entry for each value or pair that answers it.
ghost use Rattle.std.specs.Prelude.{◌≡◌, ◌≤◌, ◌<◌, ◌*◌, IfSome, None, length, sum_by};
ghost use Rattle.std.specs.List.{AllZip};
ghost use Rattle.pq_store.specs.Counts.{charged_counts, raised_counts, spent_counts};
ghost use Rattle.pq_store.specs.Rounds.{Affords, Pays, AreTestsCounted, IsPartAsked, one_if_some, test_entries, least_entries, most_entries, sum_made};

use pq_base::List;
use pq_store::{Allowance, Ends, Meter, Pair, Test};
use std::sync::ledger::Ledger;

/// How many of the places have something.
pub(crate) fn number_of<T>(places: &[Option<T>]) -> usize
    ensures { result ≡ sum_by one_if_some places.now }
{
    let mut number = 0;
    for place in places {
        if place.is_some() {
            number += 1;
        }
    }
    number
}

/// Pays for one operation, and so many entries.
pub(crate) fn pay_one<L: Ledger>(entries: u32, allowance: &mut Allowance, meter: &mut Meter<L>)
    requires ops { 1 ≤ allowance.old.left.ops }
    requires entries { entries ≤ allowance.old.left.entries }
    ensures spent { allowance.new ≡ spent_counts allowance.old entries }
    ensures charged { meter.new ≡ charged_counts meter.old entries }
{
    meter.charge(entries);
    allowance.spend(entries);
}

/// Pays for so many operations, and for all their entries.
pub(crate) fn pay_all<L: Ledger>(
    ops: usize,
    entries: u32,
    allowance: &mut Allowance,
    meter: &mut Meter<L>,
)
    requires some { 1 ≤ ops }
    requires share { Affords allowance.old ops entries }
    ensures paid { Pays allowance.old allowance.new meter.old meter.new ops entries }
    ensures counted { meter.new ≡ raised_counts meter.old ops entries }
{
    for _ in 1..ops {
        pay_one(0, allowance, meter);
    }
    pay_one(entries, allowance, meter);
}

// One operation and so many entries, where a range was asked for. Where none was there are no entries.
fn pay_range<L: Ledger>(
    asked: &Option<Ends>,
    entries: u32,
    allowance: &mut Allowance,
    meter: &mut Meter<L>,
)
    requires none { one_if_some asked.now ≡ 0 → entries ≡ 0 }
    requires share { Affords allowance.old 1 entries }
    ensures paid { Pays allowance.old allowance.new meter.old meter.new 1 entries }
    ensures counted { meter.new ≡ raised_counts meter.old (one_if_some asked.now) entries }
{
    if asked.is_some() {
        pay_one(entries, allowance, meter);
    }
}

/// Pays for an operation for each range that was asked for, and an entry for each pair.
#[tactic(auto, using(pq_store::proofs::Rounds::pays_nothing, pq_store::proofs::Rounds::nothing_raised))]
pub(crate) fn pay_ranges<L: Ledger>(
    asks: &[Option<Ends>],
    parts: &[List<Pair>],
    limit: u32,
    allowance: &mut Allowance,
    meter: &mut Meter<L>,
)
    requires parts { AllZip (IsPartAsked limit) asks.now parts.now }
    requires share { Affords allowance.old (length asks.now) (length asks.now * limit) }
    ensures paid { Pays allowance.old allowance.new meter.old meter.new (length asks.now) (length asks.now * limit) }
    ensures counted { meter.new ≡ raised_counts meter.old (sum_by one_if_some asks.now) (sum_by length parts.now) }
{
    if let ([asked, asks @ ..], [part, parts @ ..]) = (asks, parts) {
        pay_range(asked, part.items().len() as u32, allowance, meter);
        pay_ranges(asks, parts, limit, allowance, meter);
    }
}

/// Pays for the tests up to the first that holds, and their entries.
#[tactic(auto, using(crate::proofs::Testing::tests_counted))]
pub(crate) fn pay_tests<L: Ledger>(
    tests: &[Test],
    at: Option<usize>,
    entries: u32,
    allowance: &mut Allowance,
    meter: &mut Meter<L>,
)
    requires some { 1 ≤ length tests.now }
    requires within { IfSome at (λ i. i < length tests.now) }
    requires least { sum_made least_entries tests.now at ≤ entries }
    requires most { entries ≤ sum_made most_entries tests.now at }
    requires share { Affords allowance.old (length tests.now) (sum_by test_entries tests.now) }
    ensures paid { Pays allowance.old allowance.new meter.old meter.new (length tests.now)
        (sum_by test_entries tests.now) }
    ensures counted { AreTestsCounted None meter.old meter.new tests.now at }
{
    match at {
        None => pay_all(tests.len(), entries, allowance, meter),
        Some(i) => pay_all(i + 1, entries, allowance, meter),
    }
}
