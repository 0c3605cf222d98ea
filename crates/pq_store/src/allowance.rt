//! What a call may still spend of store operations and entries.
ghost use Rattle.std.specs.Prelude.{◌≡◌, ◌≤◌, ◌<◌, ◌^◌, ◌-◌};
ghost use Rattle.pq_store.specs.Content.{got_entries, ranged_entries, counted_entries};
ghost use Rattle.pq_store.specs.Counts.{granted_counts, spent_counts, used_of};
ghost use Rattle.pq_store.specs.Rounds.{Affords};

use crate::store::{Pair, StoreErr};
use pq_base::{Bound, Bytes, List, Used};
use std::marker::Model;

/// Numbers of operations and entries: what is left, and what was granted.
#[derive(Drop)]
pub struct Allowance {
    ops: u64,
    entries: u64,
    of_ops: u64,
    of_entries: u64,
}

impl Model for Allowance {
    ghost use Rattle.std.specs.Prelude.{◌≤◌};
    ghost use Rattle.pq_store.specs.Counts.{AllowedCounts};

    ghost Value = { AllowedCounts };

    ghost view = { λ a. record {
      left = record { ops = a.ops; entries = a.entries };
      granted = record { ops = a.of_ops; entries = a.of_entries };
    } };

    ghost invariant = { λ a. (a.ops ≤ a.of_ops) × (a.entries ≤ a.of_entries) };
}

impl Allowance {
    /// An allowance of just the bound's numbers.
    pub fn grant(bound: Bound) -> Allowance
        requires ops { bound.ops < 2 ^ 32 }
        requires entries { bound.entries < 2 ^ 32 }
        ensures { result ≡ granted_counts bound.ops bound.entries }
    {
        let (ops, entries) = (bound.ops as u64, bound.entries as u64);
        Allowance {
            ops,
            entries,
            of_ops: ops,
            of_entries: entries,
        }
    }

    /// One operation and so many entries less are left.
    pub fn spend(&mut self, entries: u32)
        requires ops { 1 ≤ self.old.left.ops }
        requires entries { entries ≤ self.old.left.entries }
        ensures { self.new ≡ spent_counts self.old entries }
    {
        self.ops -= 1;
        self.entries -= entries as u64;
    }

    /// What a get costs: one operation, and an entry where it found a value.
    pub fn spend_get(&mut self, answer: &Result<Option<Bytes>, StoreErr>)
        requires share { Affords self.old 1 (got_entries answer.now) }
        ensures { self.new ≡ spent_counts self.old (got_entries answer.now) }
    {
        match answer {
            Ok(Some(_)) => self.spend(1),
            _ => self.spend(0),
        }
    }

    /// What a range costs: one operation, and an entry for each pair.
    pub fn spend_range(&mut self, answer: &Result<List<Pair>, StoreErr>)
        requires few { ranged_entries answer.now < 2 ^ 32 }
        requires share { Affords self.old 1 (ranged_entries answer.now) }
        ensures { self.new ≡ spent_counts self.old (ranged_entries answer.now) }
    {
        match answer {
            Ok(pairs) => self.spend(pairs.items().len() as u32),
            Err(_) => self.spend(0),
        }
    }

    /// What a count costs: one operation, and an entry for each pair that it counted.
    pub fn spend_count(&mut self, answer: &Result<u32, StoreErr>)
        requires share { Affords self.old 1 (counted_entries answer.now) }
        ensures { self.new ≡ spent_counts self.old (counted_entries answer.now) }
    {
        match answer {
            Ok(number) => self.spend(*number),
            Err(_) => self.spend(0),
        }
    }

    /// How many operations are left.
    pub fn ops_left(&self) -> u64
        ensures { result ≡ self.now.left.ops }
    {
        self.ops
    }

    /// How many entries are left.
    pub fn entries_left(&self) -> u64
        ensures { result ≡ self.now.left.entries }
    {
        self.entries
    }

    /// What was spent so far.
    pub fn used(&self) -> Used
        ensures { result ≡ used_of self.now }
    {
        Used {
            ops: self.of_ops - self.ops,
            entries: self.of_entries - self.entries,
        }
    }
}
