//! Tests that are asked for at once, where changes decide some of them.
ghost use Rattle.std.specs.Prelude.{◌≡◌, ◌≤◌, ◌<◌, ◌+◌, ◌^◌, [], ◌∷◌, ◌++◌, length, filter, position, option_map, IfOk, IfErr, IfSome, IsTrue};
ghost use Rattle.std.specs.List.{sum_by};
ghost use Rattle.pq_store.specs.Rounds.{test_entries, is_held};
ghost use Rattle.pq_calls.specs.World.{Affords, no_damage};
ghost use Rattle.pq_pending.specs.Calls.{AsksPending, seen, answers_of};
ghost use Rattle.pq_pending.specs.Tests.{is_crowded, known_test, is_asked, stops, asked_place, seen_entries, GoOn, IsCountable, AreCountable, held_rounds};

use crate::calls::PendingCalls;
use crate::pending::Pending;
use pq_base::{Bytes, List, NoMem};
use pq_store::{Broke, Ends, Store, Test};
use std::alloc::Global;
use std::sync::ledger::Ledger;

// A copy of the test.
fn copy_test(alloc: Global, test: &Test) -> Result<Test, NoMem>
    ensures { IfOk result (λ copy. copy ≡ test.now) }
{
    match test {
        Test::Has(key) => Ok(Test::Has(Bytes::of_bytes(alloc, key.items())?)),
        Test::Lacks(key) => Ok(Test::Lacks(Bytes::of_bytes(alloc, key.items())?)),
        Test::Full(ends, n) => {
            let low = Bytes::of_bytes(alloc, ends.low.items())?;
            let high = Bytes::of_bytes(alloc, ends.high.items())?;
            Ok(Test::Full(Ends { low, high }, *n))
        }
    }
}

// Whether changes are of keys of the test's range.
fn is_crowded(pending: &Pending, test: &Test) -> bool
    ensures { result ≡ is_crowded pending.now.changes test.now }
{
    match test {
        Test::Has(_) => false,
        Test::Lacks(_) => false,
        Test::Full(ends, _) => pending.is_within(ends.low.items(), ends.high.items()),
    }
}

// Whether the test holds by the changes alone, where one of them is of its key.
fn known_test(pending: &Pending, test: &Test) -> Option<bool>
    ensures { result ≡ known_test pending.now.changes test.now }
{
    match test {
        Test::Has(key) => pending.value(key.items()).map(|new| new.is_some()),
        Test::Lacks(key) => pending.value(key.items()).map(|new| new.is_none()),
        Test::Full(_, _) => None,
    }
}

fn is_asked(pending: &Pending, test: &Test) -> bool
    ensures { result ≡ is_asked pending.now.changes test.now }
{
    !is_crowded(pending, test) && known_test(pending, test).is_none()
}

fn stops(pending: &Pending, test: &Test) -> bool
    ensures { result ≡ stops pending.now.changes test.now }
{
    is_crowded(pending, test) || known_test(pending, test).unwrap_or(false)
}

fn first_stop(pending: &Pending, tests: &[Test]) -> Option<usize>
    ensures { result ≡ position (stops pending.now.changes) tests.now }
{
    tests.iter().position(|test| stops(pending, test))
}

// Copies of the tests that the store is asked as they are.
fn asked_tests(alloc: Global, pending: &Pending, tests: &[Test]) -> Result<List<Test>, NoMem>
    ensures { IfOk result (λ asked. asked ≡ filter (is_asked pending.now.changes) tests.now) }
{
    let mut asked = List::new(alloc);
    for test in tests {
        if is_asked(pending, test) {
            asked.push(alloc, copy_test(alloc, test)?)?;
        }
    }
    Ok(asked)
}

fn are_none(tests: &[Test]) -> bool
    ensures { IsTrue result → tests.now ≡ [] }
{
    tests.is_empty()
}

// The place of the test that is asked behind n others.
fn asked_place(pending: &Pending, tests: &[Test], n: usize) -> usize
    ensures place { result ≡ asked_place pending.now.changes tests.now n }
    ensures within { result ≤ length tests.now }
{
    match tests.split_first() {
        None => 0,
        Some((test, rest)) => {
            if !is_asked(pending, test) {
                return 1 + asked_place(pending, rest, n);
            }
            if n == 0 {
                return 0;
            }
            1 + asked_place(pending, rest, n - 1)
        }
    }
}

fn placed(pending: &Pending, tests: &[Test], at: Option<usize>) -> Option<usize>
    ensures { result ≡ option_map (asked_place pending.now.changes tests.now) at }
{
    match at {
        None => None,
        Some(n) => Some(asked_place(pending, tests, n)),
    }
}

// A place behind so many tests.
fn behind(front: usize, at: Option<usize>) -> Option<usize>
    requires { IfSome at (λ i. front + i < 2 ^ 64) }
    ensures { result ≡ option_map (λ i. front + i) at }
{
    match at {
        None => None,
        Some(i) => Some(front + i),
    }
}

impl<'p, 'a, S: Store<L>, L: Ledger> PendingCalls<'p, 'a, S, L> {
    // The place of the first test that holds of the store as it is.
    fn stored_first_held(&mut self, alloc: Global, tests: &[Test]) -> Result<Option<usize>, Broke>
        requires share { Affords self.old.allowance.now (length tests.now) (sum_by test_entries tests.now) }
        ensures asks { AsksPending S.Store no_damage self.old self.new
            (length tests.now) (sum_by test_entries tests.now) 1 result }
        ensures answer { IfOk result (λ at. IfSome (S.content self.old.store.now)
            (λ c. at ≡ position (is_held c) tests.now)) }
        ensures within { IfOk result (λ at. IfSome at (λ i. i < length tests.now)) }
    {
        Ok(
            self.store
                .first_held(alloc, tests, self.allowance, self.meter)?,
        )
    }

    // The same with the changes made, of tests that don't stop: the others are asked at once.
    fn front_held(&mut self, alloc: Global, tests: &[Test]) -> Result<Option<usize>, Broke>
        requires front { GoOn self.old.pending.now.changes tests.now }
        requires share { Affords self.old.allowance.now (length tests.now)
            (sum_by (seen_entries self.old.pending.now.changes) tests.now) }
        ensures asks { AsksPending S.Store no_damage self.old self.new
            (length tests.now) (sum_by (seen_entries self.old.pending.now.changes) tests.now) 1 result }
        ensures answer { IfOk result (λ at. IfSome (seen S.content self.old)
            (λ c. at ≡ position (is_held c) tests.now)) }
        ensures within { IfOk result (λ at. IfSome at (λ i. i < length tests.now)) }
    {
        self.pending.known();
        let asked = asked_tests(alloc, self.pending, tests)?;
        if are_none(asked.items()) {
            return Ok(None);
        }
        let at = self.stored_first_held(alloc, asked.items())?;
        Ok(placed(self.pending, tests, at))
    }

    // Whether a test holds, asked by itself.
    fn holds(&mut self, alloc: Global, test: &Test) -> Result<bool, Broke>
        requires few { IsCountable self.old.pending.now.changes test.now }
        requires share { Affords self.old.allowance.now 1 (seen_entries self.old.pending.now.changes test.now) }
        ensures asks { AsksPending S.Store no_damage self.old self.new
            1 (seen_entries self.old.pending.now.changes test.now) 1 result }
        ensures answer { IfOk result (λ held. IfSome (seen S.content self.old) (λ c. held ≡ is_held c test.now)) }
    {
        match test {
            Test::Has(key) => self.has_value(alloc, key.items()),
            Test::Lacks(key) => Ok(!self.has_value(alloc, key.items())?),
            Test::Full(ends, n) => {
                let count = self.count(alloc, ends.low.items(), ends.high.items(), *n)?;
                Ok(count == *n)
            }
        }
    }

    // The place of the first test that holds, of tests that don't stop and of one behind them.
    fn front_and_stop_held(
        &mut self,
        alloc: Global,
        front: &[Test],
        stop: &Test,
    ) -> Result<Option<usize>, Broke>
        requires front { GoOn self.old.pending.now.changes front.now }
        requires few { IsCountable self.old.pending.now.changes stop.now }
        requires share { Affords self.old.allowance.now (length (front.now ++ stop.now ∷ []))
            (sum_by (seen_entries self.old.pending.now.changes) (front.now ++ stop.now ∷ [])) }
        ensures asks { AsksPending S.Store no_damage self.old self.new
            (length (front.now ++ stop.now ∷ []))
            (sum_by (seen_entries self.old.pending.now.changes) (front.now ++ stop.now ∷ [])) 2 result }
        ensures answer { IfOk result (λ at. IfSome (seen S.content self.old)
            (λ c. at ≡ position (is_held c) (front.now ++ stop.now ∷ []))) }
        ensures within { IfOk result (λ at. IfSome at (λ i. i < length (front.now ++ stop.now ∷ []))) }
    {
        let last = front.len();
        if let Some(at) = self.front_held(alloc, front)? {
            return Ok(Some(at));
        }
        if self.holds(alloc, stop)? {
            return Ok(Some(last));
        }
        Ok(None)
    }

    // The place of the first test that holds, where there are changes.
    fn seen_first_held(&mut self, alloc: Global, tests: &[Test]) -> Result<Option<usize>, Broke>
        requires few { AreCountable self.old.pending.now.changes tests.now }
        requires share { Affords self.old.allowance.now (length tests.now)
            (sum_by (seen_entries self.old.pending.now.changes) tests.now) }
        ensures asks { AsksPending S.Store no_damage self.old self.new
            (length tests.now) (sum_by (seen_entries self.old.pending.now.changes) tests.now)
            (held_rounds self.old.pending.now.changes tests.now) result }
        ensures answer { IfOk result (λ at. IfSome (seen S.content self.old)
            (λ c. at ≡ position (is_held c) tests.now)) }
        ensures within { IfOk result (λ at. IfSome at (λ i. i < length tests.now)) }
    {
        self.pending.known();
        let Some(front) = first_stop(self.pending, tests) else {
            return self.front_held(alloc, tests);
        };
        let stop = &tests[front];
        if !is_crowded(self.pending, stop) {
            let before = self.front_held(alloc, &tests[..front])?;
            return Ok(Some(before.unwrap_or(front)));
        }
        if let Some(at) = self.front_and_stop_held(alloc, &tests[..front], stop)? {
            return Ok(Some(at));
        }
        let rest = self.seen_first_held(alloc, &tests[front + 1..])?;
        Ok(behind(front + 1, rest))
    }

    /// The place of the first test that holds. Nothing is spent for those behind it, nor for one that a change decides;
    /// a test whose range has keys of changes is asked by itself, and the others between two of these at once.
    pub fn first_held(&mut self, alloc: Global, tests: &[Test]) -> Result<Option<usize>, Broke>
        requires few { AreCountable self.old.pending.now.changes tests.now }
        requires share { Affords self.old.allowance.now (length tests.now)
            (sum_by (seen_entries self.old.pending.now.changes) tests.now) }
        ensures asks { AsksPending S.Store no_damage self.old self.new
            (length tests.now) (sum_by (seen_entries self.old.pending.now.changes) tests.now)
            (held_rounds self.old.pending.now.changes tests.now) result }
        ensures answer { IfOk result (λ at. IfSome (seen S.content self.old)
            (λ c. at ≡ position (is_held c) tests.now)) }
        ensures within { IfOk result (λ at. IfSome at (λ i. i < length tests.now)) }
    {
        if self.pending.is_empty() {
            return self.stored_first_held(alloc, tests);
        }
        self.seen_first_held(alloc, tests)
    }
}
