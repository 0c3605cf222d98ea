//! The store at the host.
ghost use Rattle.std.specs.Prelude.{◌≡◌, ◌≤◌, IfOk, OnErr, IsErrOf, map, length, false};
ghost use Rattle.std.specs.Option.{option_copied};
ghost use Rattle.std.specs.Int.{w32, to_be_bytes};
ghost use Rattle.pq_store.specs.Content.{HasRisen, IsPartOf, entry};
ghost use Rattle.pq_host.specs.Ends.{Exchanges, IsSameNode, IsStill};
ghost use Rattle.pq_host.specs.Frames.{number, answer, get_request, range_request, count_request, write_request, value_body, pairs_body, done_body};

use crate::answer::{read_done, read_pairs, read_value};
use crate::link::Link;
use crate::request::{Op, range_body, write_body};
use crate::rounds::append;
use pq_base::{Bytes, List};
use pq_store::{Allowance, Ends, Guard, Meter, Pair, Store, StoreErr, Test, is_part};
use std::alloc::Global;
use std::io::{Read, Write};
use std::marker::Model;
use std::sync::ledger::Ledger;

/// The store of one node of the host. Each call is one request.
///
/// A request that the host says has failed is a fault that is counted, and so is what is no answer, and an answer that
/// no store gives. The count stands still at its type's end.
#[derive(Drop)]
pub struct HostStore<'a, R: Read, W: Write> {
    pub(crate) link: Link<'a, R, W>,
    pub(crate) node: u8,
    /// Whether the host answers several questions at once.
    pub(crate) rounds: bool,
    faults: u64,
}

impl<'a, R: Read, W: Write> Model for HostStore<'a, R, W> {
    ghost use Rattle.pq_host.specs.Ends.{HostedNode};

    ghost Value = { HostedNode };

    ghost view = { λ s. record { link = s.link; node = s.node; rounds = s.rounds; faults = s.faults } };
}

impl<'a, R: Read, W: Write> HostStore<'a, R, W> {
    /// The store of this node at the other end of the link, before its first fault, and whether the host knows rounds.
    pub fn new(link: Link<'a, R, W>, node: u8, rounds: bool) -> HostStore<'a, R, W>
        ensures { result ≡ record { link = link.entry; node = node; rounds = rounds; faults = 0 } }
    {
        HostStore {
            link,
            node,
            rounds,
            faults: 0,
        }
    }

    // Each error but want of memory is a fault.
    pub(crate) fn refused(&mut self, error: StoreErr) -> StoreErr
        ensures error { result ≡ error }
        ensures later { self.old.faults ≤ self.new.faults }
        ensures risen { error ≡ StoreErr.Failed → HasRisen self.old.faults self.new.faults }
        ensures link { self.new.link ≡ self.old.link }
        ensures same { IsSameNode self.old self.new }
    {
        if matches!(error, StoreErr::Failed) {
            self.faults = self.faults.saturating_add(1);
        }
        error
    }

    pub(crate) fn value_at(&mut self, alloc: Global, key: &[u8]) -> Result<Option<Bytes>, StoreErr>
        ensures asks { Exchanges self.old.link self.new.link (get_request self.old.node key.now) value_body result }
        ensures same { IsStill self.old self.new }
    {
        let body = self.link.ask_body(alloc, Op::Get, self.node, key)?;
        let found = read_value(alloc, body.items())?;
        self.link.answered();
        Ok(found)
    }

    fn pairs_within(
        &mut self,
        alloc: Global,
        low: &[u8],
        high: &[u8],
        limit: u32,
    ) -> Result<List<Pair>, StoreErr>
        ensures part { IfOk result (λ found. IsPartOf low.now high.now limit (map entry found)) }
        ensures asks { Exchanges self.old.link self.new.link (range_request self.old.node low.now high.now limit)
            (λ found. pairs_body (map entry found)) result }
        ensures same { IsStill self.old self.new }
    {
        let body = range_body(alloc, low, high, limit)?;
        let body = self
            .link
            .ask_body(alloc, Op::Range, self.node, body.items())?;
        let pairs = read_pairs(alloc, body.items(), limit)?;
        if !is_part(low, high, limit, pairs.items()) {
            return Err(StoreErr::Failed);
        }
        self.link.answered();
        Ok(pairs)
    }

    pub(crate) fn number_within(
        &mut self,
        alloc: Global,
        low: &[u8],
        high: &[u8],
        cap: u32,
    ) -> Result<u32, StoreErr>
        ensures few { IfOk result (λ n. n ≤ cap) }
        ensures asks { Exchanges self.old.link self.new.link (count_request self.old.node low.now high.now cap)
            number result }
        ensures same { IsStill self.old self.new }
    {
        let body = range_body(alloc, low, high, cap)?;
        let number = self
            .link
            .ask_exact::<4>(Op::Count, self.node, body.items())?;
        let n = u32::from_be_bytes(number);
        if n > cap {
            return Err(StoreErr::Failed);
        }
        self.link.answered();
        Ok(n)
    }

    // No memory is wanted once the request is sent.
    fn change(
        &mut self,
        alloc: Global,
        key: &[u8],
        guard: Guard,
        new: Option<&[u8]>,
    ) -> Result<bool, StoreErr>
        ensures asks { Exchanges self.old.link self.new.link
            (write_request self.old.node key.now guard.entry (option_copied new.entry)) done_body result }
        ensures unsent { IsErrOf result StoreErr.NoMem → self.new.link ≡ self.old.link }
        ensures same { IsStill self.old self.new }
    {
        let body = write_body(alloc, key, guard, new)?;
        let answer = self
            .link
            .ask_exact::<1>(Op::Write, self.node, body.items())?;
        match read_done(guard, answer) {
            Some(done) => {
                self.link.answered();
                Ok(done)
            }
            None => Err(StoreErr::Failed),
        }
    }
}

impl<'a, L: Ledger, R: Read, W: Write> Store<L> for HostStore<'a, R, W> {
    ghost use Rattle.std.specs.Prelude.{◌≡◌, ◌≤◌, ◌<◌, ◌*◌, ◌⊎◌, ℕ, None, Option, IfSome, IfOk, OnOk, OnErr, IsErrOf, map, take, length, min, sum_by};
    ghost use Rattle.std.specs.List.{AllZip};
    ghost use Rattle.std.specs.Option.{option_map, option_copied};
    ghost use Rattle.std.specs.FinMap.{get as value_at};
    ghost use Rattle.pq_store.specs.Counts.{charged_counts, raised_counts};
    ghost use Rattle.pq_store.specs.Content.{Content, entry, pairs_within, after_write, admits, got_entries, ranged_entries, counted_entries, IsPartOf, HasCause};
    ghost use Rattle.pq_store.specs.Rounds.{Affords, Pays, IsValueAnswered, IsPartAsked, one_if_some, test_entries, AreTestsCounted};
    ghost use Rattle.pq_host.specs.Ends.{StaysBroken, Exchanges, IsSameNode, HasAskedAll, HasFailedAmong, HasAskedValues, HasAskedParts, HasAskedUnheld, HasFoundHeld, any_answer, most_asked, most_ranges};
    ghost use Rattle.pq_host.specs.Frames.{values_request, parts_request, tests_request, number, answer, get_request, range_request, count_request, write_request, value_body, pairs_body, done_body};

    ghost content = { λ _. None };

    ghost faults = { λ s. s.faults };

    /// One exchange: what is answered is just what the host says.
    fn get(
        &mut self,
        alloc: Global,
        key: &[u8],
        meter: &mut Meter<L>,
    ) -> Result<Option<Bytes>, StoreErr>
        ensures cause { HasCause self.old.faults self.new.faults result }
        ensures meter { meter.new ≡ charged_counts meter.old (got_entries result) }
        ensures asks { Exchanges self.old.link self.new.link (get_request self.old.node key.now) value_body result }
        ensures same { IsSameNode self.old self.new }
    {
        match self.value_at(alloc, key) {
            Ok(Some(value)) => {
                meter.charge(1);
                Ok(Some(value))
            }
            Ok(None) => {
                meter.charge(0);
                Ok(None)
            }
            Err(error) => {
                meter.charge(0);
                Err(self.refused(error))
            }
        }
    }

    /// One exchange: what is answered is just what the host says, where a store may say it.
    fn range(
        &mut self,
        alloc: Global,
        low: &[u8],
        high: &[u8],
        limit: u32,
        meter: &mut Meter<L>,
    ) -> Result<List<Pair>, StoreErr>
        requires { 1 ≤ limit }
        ensures part { IfOk result (λ found. IsPartOf low.now high.now limit (map entry found)) }
        ensures cause { HasCause self.old.faults self.new.faults result }
        ensures meter { meter.new ≡ charged_counts meter.old (ranged_entries result) }
        ensures asks { Exchanges self.old.link self.new.link (range_request self.old.node low.now high.now limit)
            (λ found. pairs_body (map entry found)) result }
        ensures same { IsSameNode self.old self.new }
    {
        match self.pairs_within(alloc, low, high, limit) {
            Ok(pairs) => {
                meter.charge(pairs.items().len() as u32);
                Ok(pairs)
            }
            Err(error) => {
                meter.charge(0);
                Err(self.refused(error))
            }
        }
    }

    /// One exchange: what is answered is just what the host says, where it is at most `cap`.
    fn count(
        &mut self,
        alloc: Global,
        low: &[u8],
        high: &[u8],
        cap: u32,
        meter: &mut Meter<L>,
    ) -> Result<u32, StoreErr>
        ensures few { IfOk result (λ n. n ≤ cap) }
        ensures cause { HasCause self.old.faults self.new.faults result }
        ensures meter { meter.new ≡ charged_counts meter.old (counted_entries result) }
        ensures asks { Exchanges self.old.link self.new.link (count_request self.old.node low.now high.now cap)
            number result }
        ensures same { IsSameNode self.old self.new }
    {
        match self.number_within(alloc, low, high, cap) {
            Ok(n) => {
                meter.charge(n);
                Ok(n)
            }
            Err(error) => {
                meter.charge(0);
                Err(self.refused(error))
            }
        }
    }

    /// One exchange: what is answered is just what the host says. Where there is no memory nothing was sent.
    fn write(
        &mut self,
        alloc: Global,
        key: &[u8],
        guard: Guard,
        new: Option<&[u8]>,
        meter: &mut Meter<L>,
    ) -> Result<bool, StoreErr>
        ensures cause { HasCause self.old.faults self.new.faults result }
        ensures meter { meter.new ≡ charged_counts meter.old 0 }
        ensures asks { Exchanges self.old.link self.new.link
            (write_request self.old.node key.now guard.entry (option_copied new.entry)) done_body result }
        ensures unsent { IsErrOf result StoreErr.NoMem → self.new.link ≡ self.old.link }
        ensures same { IsSameNode self.old self.new }
    {
        meter.charge(0);
        match self.change(alloc, key, guard, new) {
            Ok(done) => Ok(done),
            Err(error) => Err(self.refused(error)),
        }
    }

    /// An exchange for each 128 keys, where the host knows rounds, else one for each key.
    fn gets(
        &mut self,
        alloc: Global,
        keys: &[Option<Bytes>],
        allowance: &mut Allowance,
        meter: &mut Meter<L>,
    ) -> Result<List<Option<Bytes>>, StoreErr>
        requires share { Affords allowance.old (length keys.now) (length keys.now) }
        ensures answered { IfOk result (AllZip (IsValueAnswered any_answer) keys.now) }
        ensures cause { HasCause self.old.faults self.new.faults result }
        ensures paid { Pays allowance.old allowance.new meter.old meter.new (length keys.now) (length keys.now) }
        ensures counted { IfOk result (λ found. meter.new ≡ raised_counts meter.old (sum_by one_if_some keys.now)
            (sum_by one_if_some found)) }
        ensures exchanged { IfOk result (HasAskedAll (most_asked self.old.rounds) (HasAskedValues self.old.node)
            self.old.link self.new.link keys.now) }
        ensures failed { OnErr result (HasFailedAmong (most_asked self.old.rounds) (HasAskedValues self.old.node)
            (values_request self.old.node) self.old.link self.new.link keys.now) }
        ensures broken { 1 ≤ sum_by one_if_some keys.now → StaysBroken self.old.link self.new.link result }
        ensures same { IsSameNode self.old self.new }
    {
        let most = self.at_once();
        let mut found = List::new(alloc);
        while found.items().len() < keys.len() {
            let begin = found.items().len();
            let end = keys.len().min(begin + most);
            let values = self.paid_values(alloc, &keys[begin..end], allowance, meter)?;
            append(alloc, &mut found, values)?;
        }
        Ok(found)
    }

    /// An exchange for each 128 ranges, or for fewer where they may have many pairs, if the host knows rounds; else one
    /// for each range.
    fn ranges(
        &mut self,
        alloc: Global,
        asks: &[Option<Ends>],
        limit: u32,
        allowance: &mut Allowance,
        meter: &mut Meter<L>,
    ) -> Result<List<List<Pair>>, StoreErr>
        requires limit { 1 ≤ limit }
        requires share { Affords allowance.old (length asks.now) (length asks.now * limit) }
        ensures parts { IfOk result (AllZip (IsPartAsked limit) asks.now) }
        ensures cause { HasCause self.old.faults self.new.faults result }
        ensures paid { Pays allowance.old allowance.new meter.old meter.new (length asks.now)
            (length asks.now * limit) }
        ensures counted { IfOk result (λ found. meter.new ≡ raised_counts meter.old (sum_by one_if_some asks.now)
            (sum_by length found)) }
        ensures exchanged { IfOk result (HasAskedAll (most_ranges self.old.rounds limit)
            (HasAskedParts self.old.node limit) self.old.link self.new.link asks.now) }
        ensures failed { OnErr result (HasFailedAmong (most_ranges self.old.rounds limit)
            (HasAskedParts self.old.node limit) (λ part. parts_request self.old.node part limit)
            self.old.link self.new.link asks.now) }
        ensures broken { 1 ≤ sum_by one_if_some asks.now → StaysBroken self.old.link self.new.link result }
        ensures same { IsSameNode self.old self.new }
    {
        let most = self.ranges_at_once(limit);
        let mut found = List::new(alloc);
        while found.items().len() < asks.len() {
            let begin = found.items().len();
            let end = asks.len().min(begin + most);
            let parts = self.paid_parts(alloc, &asks[begin..end], limit, allowance, meter)?;
            append(alloc, &mut found, parts)?;
        }
        Ok(found)
    }

    /// An exchange for each 128 tests up to the one that holds, where the host knows rounds, else one for each test.
    fn first_held(
        &mut self,
        alloc: Global,
        tests: &[Test],
        allowance: &mut Allowance,
        meter: &mut Meter<L>,
    ) -> Result<Option<usize>, StoreErr>
        requires share { Affords allowance.old (length tests.now) (sum_by test_entries tests.now) }
        ensures within { IfOk result (λ at. IfSome at (λ i. i < length tests.now)) }
        ensures cause { HasCause self.old.faults self.new.faults result }
        ensures paid { Pays allowance.old allowance.new meter.old meter.new (length tests.now)
            (sum_by test_entries tests.now) }
        ensures counted { IfOk result (AreTestsCounted None meter.old meter.new tests.now) }
        ensures exchanged { IfOk result (HasFoundHeld (most_asked self.old.rounds) self.old.node self.old.link
            self.new.link tests.now) }
        ensures failed { OnErr result (HasFailedAmong (most_asked self.old.rounds) (HasAskedUnheld self.old.node)
            (tests_request self.old.node) self.old.link self.new.link tests.now) }
        ensures broken { 1 ≤ length tests.now → StaysBroken self.old.link self.new.link result }
        ensures same { IsSameNode self.old self.new }
    {
        let most = self.at_once();
        let mut begin = 0;
        while begin < tests.len() {
            let end = tests.len().min(begin + most);
            let held = self.paid_place(alloc, &tests[begin..end], allowance, meter)?;
            if let Some(place) = held {
                return Ok(Some(begin + place));
            }
            begin = end;
        }
        Ok(None)
    }
}
