//! What a round costs: an operation for each question, and the entries of its answers.
ghost use Rattle.std.specs.Prelude.{◌≡◌, ◌≤◌, ◌<◌, ◌^◌, IsTrue, length, sum_by};
ghost use Rattle.pq_store.specs.Counts.{charged_counts, raised_counts, spent_counts, granted_counts};
ghost use Rattle.pq_store.specs.Rounds.{Affords, Pays, one_if_some};

use crate::asking::number_of;
use pq_base::{Bound, Used};
use pq_store::{Allowance, Meter};
use std::sync::ledger::Ledger;

// Pays for one operation, and so many entries.
fn pay_one<L: Ledger>(entries: u32, allowance: &mut Allowance, meter: &mut Meter<L>)
    requires ops { 1 ≤ allowance.old.left.ops }
    requires entries { entries ≤ allowance.old.left.entries }
    ensures spent { allowance.new ≡ spent_counts allowance.old entries }
    ensures charged { meter.new ≡ charged_counts meter.old entries }
{
    meter.charge(entries);
    allowance.spend(entries);
}

// Pays for so many operations, and for all their entries.
fn pay_all<L: Ledger>(ops: usize, entries: u32, allowance: &mut Allowance, meter: &mut Meter<L>)
    requires some { 1 ≤ ops }
    requires share { Affords allowance.old ops entries }
    ensures paid { Pays allowance.old allowance.new meter.old meter.new ops entries }
    ensures counted { meter.new ≡ raised_counts meter.old ops entries }
{
    for _ in 1..ops {
        pay_one(0, allowance, meter);
    }
    pay_one(entries, allowance, meter);
}

/// Whether what is left are numbers of 32 bits.
pub fn is_small(allowance: &Allowance) -> bool
    ensures ops { IsTrue result → allowance.now.left.ops < 2 ^ 32 }
    ensures entries { IsTrue result → allowance.now.left.entries < 2 ^ 32 }
{
    allowance.ops_left() <= u32::MAX as u64 && allowance.entries_left() <= u32::MAX as u64
}

/// An allowance of just what is left of another one.
pub fn share_of(allowance: &Allowance) -> Allowance
    requires ops { allowance.now.left.ops < 2 ^ 32 }
    requires entries { allowance.now.left.entries < 2 ^ 32 }
    ensures { result ≡ granted_counts allowance.now.left.ops allowance.now.left.entries }
{
    Allowance::grant(Bound {
        ops: allowance.ops_left() as u128,
        entries: allowance.entries_left() as u128,
    })
}

/// Pays for what was used, where that are some operations. Entries alone are not paid for.
#[tactic(auto, using(pq_store::proofs::Rounds::pays_nothing, pq_store::proofs::Rounds::pays_within))]
pub fn pay_used<L: Ledger>(used: Used, allowance: &mut Allowance, meter: &mut Meter<L>)
    requires few { used.entries < 2 ^ 32 }
    requires share { Affords allowance.old used.ops used.entries }
    ensures paid { Pays allowance.old allowance.new meter.old meter.new used.ops used.entries }
    ensures counted { 1 ≤ used.ops → meter.new ≡ raised_counts meter.old used.ops used.entries }
{
    if used.ops > 0 {
        pay_all(used.ops as usize, used.entries as u32, allowance, meter);
    }
}

/// Pays for an operation for each question that was asked, and for all their entries.
#[tactic(auto, using(pq_store::proofs::Rounds::pays_nothing, pq_store::proofs::Rounds::pays_within, pq_store::proofs::Rounds::nothing_raised, crate::proofs::Paying::asked_few))]
pub fn pay_round<Q, L: Ledger>(
    asks: &[Option<Q>],
    entries: u32,
    allowance: &mut Allowance,
    meter: &mut Meter<L>,
)
    requires few { sum_by one_if_some asks.now ≡ 0 → entries ≡ 0 }
    requires share { Affords allowance.old (length asks.now) entries }
    ensures paid { Pays allowance.old allowance.new meter.old meter.new (length asks.now) entries }
    ensures counted { meter.new ≡ raised_counts meter.old (sum_by one_if_some asks.now) entries }
{
    let asked = number_of(asks);
    if asked > 0 {
        pay_all(asked, entries, allowance, meter);
    }
}
