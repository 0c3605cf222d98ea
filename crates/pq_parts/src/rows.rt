//! Tests in a row that one part answers alone: its node is asked for all of them at once.
ghost use Rattle.std.specs.Prelude.{◌≡◌, ◌≤◌, ◌<◌, ◌+◌, ◌^◌, IfOk, IfSome, true, length, position, sum_by, take};
ghost use Rattle.pq_store.specs.Rounds.{Affords, Pays, AreTestsCounted, is_held, test_entries};
ghost use Rattle.pq_parts.specs.Asking.{AreAnswered, answers_test, AsksNodes};
ghost use Rattle.pq_parts.specs.Spans.{content_of};

use crate::part_store::PartStore;
use crate::payment::{pay_used, share_of};
use pq_store::{Allowance, Meter, Store, StoreErr, Test};
use std::alloc::Global;
use std::sync::ledger::Ledger;

/// The place of a part, and how many of the first tests it answers alone.
#[derive(Clone, Copy)]
pub struct Row {
    pub at: usize,
    pub len: usize,
}

impl<S: Store<N>, N: Ledger> PartStore<S, N> {
    // The place of the part that answers the test alone.
    fn place_of(&self, test: &Test) -> Option<usize>
        ensures within { IfSome result (λ at. at < length self.now.parts) }
        ensures alone { IfSome result (λ at. answers_test self.now.parts at test.now ≡ true) }
    {
        match test {
            Test::Has(key) => Some(self.place(key.items())),
            Test::Lacks(key) => Some(self.place(key.items())),
            Test::Full(ends, _) => {
                let at = self.place(ends.low.items());
                if self.ends_before(at, ends.high.items()) {
                    Some(at)
                } else {
                    None
                }
            }
        }
    }

    // How many of the first tests the part at this place answers alone.
    fn row_at(&self, at: usize, tests: &[Test]) -> usize
        ensures within { result ≤ length tests.now }
        ensures alone { AreAnswered self.now.parts at (take result tests.now) }
    {
        for (n, test) in tests.iter().enumerate() {
            if self.place_of(test) != Some(at) {
                return n;
            }
        }
        tests.len()
    }

    /// The part that answers the first test alone, and how many of the tests it so answers.
    pub fn first_row(&self, tests: &[Test]) -> Option<Row>
        ensures place { IfSome result (λ row. row.at < length self.now.parts) }
        ensures some { IfSome result (λ row. 1 ≤ row.len) }
        ensures within { IfSome result (λ row. row.len ≤ length tests.now) }
        ensures alone { IfSome result (λ row. AreAnswered self.now.parts row.at (take row.len tests.now)) }
    {
        let Some((first, behind)) = tests.split_first() else {
            return None;
        };
        match self.place_of(first) {
            Some(at) => Some(Row {
                at,
                len: 1 + self.row_at(at, behind),
            }),
            None => None,
        }
    }

    /// The place of the first test that holds, of tests that the part at this place answers alone: one call of its node.
    pub fn row_held<L: Ledger>(
        &mut self,
        alloc: Global,
        at: usize,
        tests: &[Test],
        allowance: &mut Allowance,
        meter: &mut Meter<L>,
    ) -> Result<Option<usize>, StoreErr>
        requires place { at < length self.old.parts }
        requires alone { AreAnswered self.old.parts at tests.now }
        requires some { 1 ≤ length tests.now }
        requires ops { allowance.old.left.ops < 2 ^ 32 }
        requires entries { allowance.old.left.entries < 2 ^ 32 }
        requires share { Affords allowance.old (length tests.now) (sum_by test_entries tests.now) }
        ensures answer { IfOk result (λ held. IfSome (content_of S.content self.old.parts)
            (λ pairs. held ≡ position (is_held pairs) tests.now)) }
        ensures within { IfOk result (λ held. IfSome held (λ i. i < length tests.now)) }
        ensures asks { AsksNodes S.Store self.old.parts self.new.parts 1 result }
        ensures paid { Pays allowance.old allowance.new meter.old meter.new (length tests.now)
            (sum_by test_entries tests.now) }
        ensures counted { IfOk result (AreTestsCounted (content_of S.content self.old.parts) meter.old
            meter.new tests.now) }
    {
        let mut share = share_of(allowance);
        let held = self
            .tally
            .first_held(alloc, &mut self.parts[at].store, tests, &mut share);
        pay_used(share.used(), allowance, meter);
        held
    }
}
