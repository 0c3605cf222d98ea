//! Several questions to a host at once.
ghost use Rattle.std.specs.Prelude.{◌≡◌, ℕ, ◌≤◌, ◌<◌, ◌*◌, ◌++◌, ◌∷◌, [], Some, None, List, IfOk, IfSome, OnOk, OnErr, flat_map, length, sum_by};
ghost use Rattle.std.specs.List.{AllZip};
ghost use Rattle.pq_store.specs.Content.{HasCause};
ghost use Rattle.pq_store.specs.Counts.{raised_counts};
ghost use Rattle.pq_store.specs.Rounds.{Affords, Pays, IsValueAnswered, IsPartAsked, one_if_some, least_entries, most_entries, sum_made, test_entries, AreTestsCounted};
ghost use Rattle.pq_host.specs.Ends.{HasExchanged, HasFailed, Exchanges, Fails, IsSameNode, IsStill, HasAskedValues, HasAskedParts, HasAskedTests, any_answer, most_asked, most_ranges};
ghost use Rattle.pq_host.specs.Frames.{request, answer, get_request, gets_request, values_request, parts_request, value_bytes, values_body, part_bytes, test_request, tests_request, first_held_request, place_body, told_place, TellsTest};

use crate::answer::{read_parts, read_place, read_value, read_values};
use crate::host_store::HostStore;
use crate::payment::{number_of, pay_all, pay_one, pay_ranges, pay_tests};
use crate::request::{Op, gets_body, range_body, ranges_body, tests_body};
use pq_base::{Bytes, List, NoMem};
use pq_store::{Allowance, Ends, Meter, Pair, StoreErr, Test};
use std::alloc::Global;
use std::io::{Read, Write};
use std::sync::ledger::Ledger;

/// How many keys, ranges or tests one request asks for at most.
const ASKS: usize = 128;

/// How many pairs an answer to several ranges has at most.
const PAIRS: u32 = 4_096;

/// Puts the items behind the others.
pub(crate) fn append<T: Drop>(alloc: Global, all: &mut List<T>, more: List<T>) -> Result<(), NoMem>
    ensures { OnOk result (all.new ≡ all.old ++ more) }
{
    for item in more.into_vec() {
        all.push(alloc, item)?;
    }
    Ok(())
}

// The answers where no key is asked for.
#[tactic(auto, using(pq_store::proofs::Rounds::all_zip_more))]
fn no_values(alloc: Global, keys: &[Option<Bytes>]) -> Result<List<Option<Bytes>>, NoMem>
    ensures answered { IfOk result (AllZip (IsValueAnswered any_answer) keys.now) }
    ensures none { IfOk result (λ found. sum_by one_if_some found ≡ 0) }
{
    let mut found = List::new(alloc);
    for _asked in keys {
        found.push(alloc, None)?;
    }
    Ok(found)
}

// The answers where no range is asked for.
fn no_parts(alloc: Global, asks: &[Option<Ends>], limit: u32) -> Result<List<List<Pair>>, NoMem>
    ensures parts { IfOk result (AllZip (IsPartAsked limit) asks.now) }
    ensures none { IfOk result (λ found. sum_by length found ≡ 0) }
{
    let _limit = limit;
    let mut found = List::new(alloc);
    for _asked in asks {
        found.push(alloc, List::new(alloc))?;
    }
    Ok(found)
}

// What asks for the pairs of ranges, and the body that says which.
fn parts_question(alloc: Global, asks: &[Option<Ends>], limit: u32) -> Result<(Op, Bytes), StoreErr>
    requires { length asks.now ≤ 128 }
    ensures { IfOk result (λ question. (node : ℕ) → request question.0 node question.1
        ≡ parts_request node asks.now limit) }
{
    match asks {
        [Some(ends)] => {
            let body = range_body(alloc, ends.low.items(), ends.high.items(), limit)?;
            Ok((Op::Range, body))
        }
        _ => Ok((Op::Ranges, ranges_body(alloc, asks, limit)?)),
    }
}

impl<'a, R: Read, W: Write> HostStore<'a, R, W> {
    /// How many questions one request asks at most.
    pub(crate) fn at_once(&self) -> usize
        ensures { result ≡ most_asked self.now.rounds }
    {
        if self.rounds { ASKS } else { 1 }
    }

    /// How many ranges with this limit one request asks for at most.
    pub(crate) fn ranges_at_once(&self, limit: u32) -> usize
        requires { 1 ≤ limit }
        ensures some { 1 ≤ result }
        ensures few { result ≤ 128 }
        ensures most { result ≡ most_ranges self.now.rounds limit }
    {
        if self.rounds {
            (PAIRS / limit).min(128).max(1) as usize
        } else {
            1
        }
    }

    // The value of one key.
    fn one_value(&mut self, alloc: Global, key: &[u8]) -> Result<List<Option<Bytes>>, StoreErr>
        ensures long { IfOk result (λ found. length found ≡ 1) }
        ensures asks { Exchanges self.old.link self.new.link (get_request self.old.node key.now)
            (λ found. values_body (Some key.now ∷ []) found) result }
        ensures same { IsStill self.old self.new }
    {
        let body = self.link.ask_body(alloc, Op::Get, self.node, key)?;
        let mut found = List::new(alloc);
        found.push(alloc, read_value(alloc, body.items())?)?;
        self.link.answered();
        Ok(found)
    }

    // The values of several keys, one for each, by one exchange.
    fn values_together(
        &mut self,
        alloc: Global,
        keys: &[Option<Bytes>],
    ) -> Result<List<Option<Bytes>>, StoreErr>
        requires { length keys.now ≤ 128 }
        ensures answered { IfOk result (AllZip (IsValueAnswered any_answer) keys.now) }
        ensures asks { Exchanges self.old.link self.new.link (gets_request self.old.node keys.now)
            (flat_map value_bytes) result }
        ensures same { IsStill self.old self.new }
    {
        let body = gets_body(alloc, keys)?;
        let body = self
            .link
            .ask_body(alloc, Op::Gets, self.node, body.items())?;
        let found = read_values(alloc, body.items(), keys)?;
        self.link.answered();
        Ok(found)
    }

    // The values of keys, one for each, by one exchange.
    fn asked_values(
        &mut self,
        alloc: Global,
        keys: &[Option<Bytes>],
    ) -> Result<List<Option<Bytes>>, StoreErr>
        requires { length keys.now ≤ 128 }
        ensures answered { IfOk result (AllZip (IsValueAnswered any_answer) keys.now) }
        ensures asks { Exchanges self.old.link self.new.link (values_request self.old.node keys.now)
            (values_body keys.now) result }
        ensures same { IsStill self.old self.new }
    {
        match keys {
            [Some(key)] => self.one_value(alloc, key.items()),
            _ => self.values_together(alloc, keys),
        }
    }

    /// The values of keys by one exchange, which is paid. Nothing is sent where nothing is asked.
    #[tactic(auto, using(crate::proofs::Paying::asked_few, crate::proofs::Paying::found_few, pq_store::proofs::Rounds::pays_within))]
    pub(crate) fn paid_values<L: Ledger>(
        &mut self,
        alloc: Global,
        keys: &[Option<Bytes>],
        allowance: &mut Allowance,
        meter: &mut Meter<L>,
    ) -> Result<List<Option<Bytes>>, StoreErr>
        requires few { length keys.now ≤ 128 }
        requires share { Affords allowance.old (length keys.now) (length keys.now) }
        ensures answered { IfOk result (AllZip (IsValueAnswered any_answer) keys.now) }
        ensures cause { HasCause self.old.faults self.new.faults result }
        ensures paid { Pays allowance.old allowance.new meter.old meter.new (length keys.now) (length keys.now) }
        ensures counted { IfOk result (λ found. meter.new ≡ raised_counts meter.old (sum_by one_if_some keys.now)
            (sum_by one_if_some found)) }
        ensures exchanged { IfOk result (HasAskedValues self.old.node self.old.link self.new.link keys.now) }
        ensures failed { OnErr result (HasFailed self.old.link self.new.link (values_request self.old.node keys.now)) }
        ensures same { IsSameNode self.old self.new }
    {
        let asked = number_of(keys);
        if asked == 0 {
            return Ok(no_values(alloc, keys)?);
        }
        match self.asked_values(alloc, keys) {
            Ok(values) => {
                pay_all(asked, number_of(values.items()) as u32, allowance, meter);
                Ok(values)
            }
            Err(error) => {
                pay_one(0, allowance, meter);
                Err(self.refused(error))
            }
        }
    }

    // The pairs of ranges, a list for each, by one exchange.
    fn asked_parts(
        &mut self,
        alloc: Global,
        asks: &[Option<Ends>],
        limit: u32,
    ) -> Result<List<List<Pair>>, StoreErr>
        requires { length asks.now ≤ 128 }
        ensures parts { IfOk result (AllZip (IsPartAsked limit) asks.now) }
        ensures asks { Exchanges self.old.link self.new.link (parts_request self.old.node asks.now limit)
            (flat_map part_bytes) result }
        ensures same { IsStill self.old self.new }
    {
        let (op, body) = parts_question(alloc, asks, limit)?;
        let body = self.link.ask_body(alloc, op, self.node, body.items())?;
        let found = read_parts(alloc, body.items(), asks, limit)?;
        self.link.answered();
        Ok(found)
    }

    /// The pairs of ranges by one exchange, which is paid. Nothing is sent where nothing is asked.
    pub(crate) fn paid_parts<L: Ledger>(
        &mut self,
        alloc: Global,
        asks: &[Option<Ends>],
        limit: u32,
        allowance: &mut Allowance,
        meter: &mut Meter<L>,
    ) -> Result<List<List<Pair>>, StoreErr>
        requires few { length asks.now ≤ 128 }
        requires share { Affords allowance.old (length asks.now) (length asks.now * limit) }
        ensures parts { IfOk result (AllZip (IsPartAsked limit) asks.now) }
        ensures cause { HasCause self.old.faults self.new.faults result }
        ensures paid { Pays allowance.old allowance.new meter.old meter.new (length asks.now)
            (length asks.now * limit) }
        ensures counted { IfOk result (λ found. meter.new ≡ raised_counts meter.old (sum_by one_if_some asks.now)
            (sum_by length found)) }
        ensures exchanged { IfOk result (HasAskedParts self.old.node limit self.old.link self.new.link asks.now) }
        ensures failed { OnErr result (HasFailed self.old.link self.new.link
            (parts_request self.old.node asks.now limit)) }
        ensures same { IsSameNode self.old self.new }
    {
        if number_of(asks) == 0 {
            return Ok(no_parts(alloc, asks, limit)?);
        }
        match self.asked_parts(alloc, asks, limit) {
            Ok(parts) => {
                pay_ranges(asks, parts.items(), limit, allowance, meter);
                Ok(parts)
            }
            Err(error) => {
                pay_one(0, allowance, meter);
                Err(self.refused(error))
            }
        }
    }

    // Whether a test holds, and the entries that tell it, by a get or a count.
    fn asked_test(&mut self, alloc: Global, test: &Test) -> Result<(bool, u32), StoreErr>
        ensures least { IfOk result (λ told. least_entries told.0 test.now ≤ told.1) }
        ensures most { IfOk result (λ told. told.1 ≤ most_entries told.0 test.now) }
        ensures exchanged { IfOk result (λ told. (body : List ℕ) × TellsTest test.now body told.0 told.1
            × HasExchanged self.old.link self.new.link (test_request self.old.node test.now) (answer body)) }
        ensures fails { Fails self.old.link self.new.link (test_request self.old.node test.now) result }
        ensures same { IsStill self.old self.new }
    {
        match test {
            Test::Has(key) => {
                let found = self.value_at(alloc, key.items())?;
                Ok((found.is_some(), found.is_some() as u32))
            }
            Test::Lacks(key) => {
                let found = self.value_at(alloc, key.items())?;
                Ok((found.is_none(), found.is_some() as u32))
            }
            Test::Full(ends, n) => {
                let number = self.number_within(alloc, ends.low.items(), ends.high.items(), *n)?;
                Ok((number == *n, number))
            }
        }
    }

    // The first of several tests that holds, and the entries of those up to it, by one exchange.
    fn place_together(
        &mut self,
        alloc: Global,
        tests: &[Test],
    ) -> Result<(Option<usize>, u32), StoreErr>
        requires { length tests.now ≤ 128 }
        ensures within { IfOk result (λ told. IfSome told.0 (λ i. i < length tests.now)) }
        ensures least { IfOk result (λ told. sum_made least_entries tests.now told.0 ≤ told.1) }
        ensures most { IfOk result (λ told. told.1 ≤ sum_made most_entries tests.now told.0) }
        ensures asks { Exchanges self.old.link self.new.link (first_held_request self.old.node tests.now)
            (λ told. place_body (told_place tests.now told.0) told.1) result }
        ensures same { IsStill self.old self.new }
    {
        let body = tests_body(alloc, tests)?;
        let answer = self
            .link
            .ask_exact::<8>(Op::FirstHeld, self.node, body.items())?;
        let told = read_place(tests, &answer)?;
        self.link.answered();
        Ok(told)
    }

    // The first of the tests that holds, and the entries of those up to it, by one exchange.
    fn asked_place(
        &mut self,
        alloc: Global,
        tests: &[Test],
    ) -> Result<(Option<usize>, u32), StoreErr>
        requires { length tests.now ≤ 128 }
        ensures within { IfOk result (λ told. IfSome told.0 (λ i. i < length tests.now)) }
        ensures least { IfOk result (λ told. sum_made least_entries tests.now told.0 ≤ told.1) }
        ensures most { IfOk result (λ told. told.1 ≤ sum_made most_entries tests.now told.0) }
        ensures exchanged { IfOk result (λ told. HasAskedTests self.old.node self.old.link self.new.link tests.now
            told.0) }
        ensures fails { Fails self.old.link self.new.link (tests_request self.old.node tests.now) result }
        ensures same { IsStill self.old self.new }
    {
        match tests {
            [test] => match self.asked_test(alloc, test) {
                Ok((true, entries)) => Ok((Some(0), entries)),
                Ok((false, entries)) => Ok((None, entries)),
                Err(error) => Err(error),
            },
            _ => self.place_together(alloc, tests),
        }
    }

    /// The first of the tests that holds by one exchange, which is paid.
    pub(crate) fn paid_place<L: Ledger>(
        &mut self,
        alloc: Global,
        tests: &[Test],
        allowance: &mut Allowance,
        meter: &mut Meter<L>,
    ) -> Result<Option<usize>, StoreErr>
        requires some { 1 ≤ length tests.now }
        requires few { length tests.now ≤ 128 }
        requires share { Affords allowance.old (length tests.now) (sum_by test_entries tests.now) }
        ensures within { IfOk result (λ at. IfSome at (λ i. i < length tests.now)) }
        ensures cause { HasCause self.old.faults self.new.faults result }
        ensures paid { Pays allowance.old allowance.new meter.old meter.new (length tests.now)
            (sum_by test_entries tests.now) }
        ensures counted { IfOk result (AreTestsCounted None meter.old meter.new tests.now) }
        ensures exchanged { IfOk result (HasAskedTests self.old.node self.old.link self.new.link tests.now) }
        ensures failed { OnErr result (HasFailed self.old.link self.new.link (tests_request self.old.node tests.now)) }
        ensures same { IsSameNode self.old self.new }
    {
        match self.asked_place(alloc, tests) {
            Ok((at, entries)) => {
                pay_tests(tests, at, entries, allowance, meter);
                Ok(at)
            }
            Err(error) => {
                pay_one(0, allowance, meter);
                Err(self.refused(error))
            }
        }
    }
}
