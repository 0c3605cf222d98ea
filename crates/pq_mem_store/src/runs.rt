//! Runs one behind the other.
ghost use Rattle.std.specs.Prelude.{◌≡◌, ◌<◌, ◌≤◌, IsTrue, IfOk, OnOk, OnErr, length, vec_len, vec_capacity};
ghost use Rattle.std.specs.List.{flat_map, insert, remove};
ghost use Rattle.std.specs.FinMap.{put};
ghost use Rattle.pq_store.specs.Content.{is_rising, key_cmp};
ghost use Rattle.pq_mem_store.specs.Runs.{all_have, others, IsSeat};

use crate::held::HeldPair;
use crate::run::{Begins, MOST, Run, cut_at, from_seat, seat};
use pq_base::{List, NoMem};
use pq_store::Pair;
use std::alloc::Global;
use std::marker::Model;

/// Runs of which each has pairs, in the order of their keys.
#[derive(Drop)]
pub(crate) struct Runs<R: Run> {
    runs: Vec<R>,
}

impl<R: Run> Model for Runs<R> {
    ghost use Rattle.std.specs.Prelude.{IsTrue, List};
    ghost use Rattle.std.specs.List.{flat_map};
    ghost use Rattle.pq_store.specs.Content.{is_rising};
    ghost use Rattle.pq_mem_store.specs.Runs.{Pairs, pairs_code, all_have};

    ghost Value = { Pairs };

    ghost coded = { pairs_code };

    ghost view = { λ a. flat_map R.pairs a.runs.items };

    ghost invariant = { λ a. IsTrue (all_have R.pairs a.runs.items)
        × IsTrue (is_rising (flat_map R.pairs a.runs.items)) };
}

// Makes room for one pair more where the key belongs, and gives the run into which it then belongs.
fn room_at<R: Run>(alloc: Global, runs: &mut Vec<R>, key: &[u8]) -> Result<usize, NoMem>
    requires some { 0 < length runs.old.items }
    requires have { IsTrue (all_have R.pairs runs.old.items) }
    requires rising { IsTrue (is_rising (flat_map R.pairs runs.old.items)) }
    ensures same { flat_map R.pairs runs.new.items ≡ flat_map R.pairs runs.old.items }
    ensures have { IsTrue (all_have R.pairs runs.new.items) }
    ensures at { IfOk result (IsSeat R.pairs runs.new.items key.now) }
{
    let at = seat(runs.as_slice(), key);
    runs.reserve(1)?;
    match runs[at].cut(alloc, key)? {
        None => Ok(at),
        Some(part) => Ok(with_part(runs, at + 1, part, key)),
    }
}

// Puts the part that was cut off behind its run, and gives the run into which the key then belongs.
fn with_part<R: Run>(runs: &mut Vec<R>, at: usize, part: R, key: &[u8]) -> usize
    requires at { at ≤ length runs.old.items }
    requires room { vec_len runs.old < vec_capacity runs.old }
    requires have { IsTrue (all_have R.pairs (insert runs.old.items at part)) }
    requires rising { IsTrue (is_rising (flat_map R.pairs (insert runs.old.items at part))) }
    ensures items { runs.new.items ≡ insert runs.old.items at part }
    ensures at { IsSeat R.pairs runs.new.items key.now result }
{
    match runs.insert(at, part) {
        Ok(()) => seat(runs.as_slice(), key),
        Err(_) => unreachable!(),
    }
}

// Puts a pair where there are no runs.
fn begin<R: Run>(alloc: Global, runs: &mut Vec<R>, pair: HeldPair) -> Result<(), NoMem>
    requires { length runs.old.items ≡ 0 }
    ensures have { IsTrue (all_have R.pairs runs.new.items) }
    ensures ok { OnOk result (flat_map R.pairs runs.new.items
        ≡ put key_cmp pair.0 pair.1 (flat_map R.pairs runs.old.items)) }
    ensures err { OnErr result (flat_map R.pairs runs.new.items ≡ flat_map R.pairs runs.old.items) }
{
    let mut run = R::new(alloc);
    run.put(alloc, pair)?;
    runs.push(run)?;
    Ok(())
}

// Puts a pair into the run into which it belongs.
fn put_in<R: Run>(alloc: Global, runs: &mut Vec<R>, pair: HeldPair) -> Result<(), NoMem>
    requires some { 0 < length runs.old.items }
    requires have { IsTrue (all_have R.pairs runs.old.items) }
    requires rising { IsTrue (is_rising (flat_map R.pairs runs.old.items)) }
    ensures have { IsTrue (all_have R.pairs runs.new.items) }
    ensures ok { OnOk result (flat_map R.pairs runs.new.items
        ≡ put key_cmp pair.0 pair.1 (flat_map R.pairs runs.old.items)) }
    ensures err { OnErr result (flat_map R.pairs runs.new.items ≡ flat_map R.pairs runs.old.items) }
{
    let at = room_at(alloc, runs, pair.key())?;
    runs[at].put(alloc, pair)
}

// Takes a run without pairs out.
fn drop_empty<R: Run>(runs: &mut Vec<R>, at: usize)
    requires at { at < length runs.old.items }
    requires have { IsTrue (all_have R.pairs (remove runs.old.items at)) }
    ensures have { IsTrue (all_have R.pairs runs.new.items) }
    ensures same { flat_map R.pairs runs.new.items ≡ flat_map R.pairs runs.old.items }
{
    if runs[at].is_empty() {
        runs.remove(at);
    }
}

// Takes the pair of a key out of the run into which it belongs.
fn take_from<R: Run>(runs: &mut Vec<R>, key: &[u8])
    requires some { 0 < length runs.old.items }
    requires have { IsTrue (all_have R.pairs runs.old.items) }
    requires rising { IsTrue (is_rising (flat_map R.pairs runs.old.items)) }
    ensures have { IsTrue (all_have R.pairs runs.new.items) }
    ensures others { flat_map R.pairs runs.new.items ≡ others key.now (flat_map R.pairs runs.old.items) }
{
    let at = seat(runs.as_slice(), key);
    runs[at].take_out(key);
    drop_empty(runs, at);
}

impl<R: Run> Begins for Runs<R> {
    ghost pairs = { λ pairs. pairs };

    fn key(&self) -> &[u8] {
        self.runs[0].key()
    }
}

impl<R: Run> Run for Runs<R> {
    fn new(alloc: Global) -> Runs<R> {
        Runs {
            runs: Vec::new(alloc),
        }
    }

    fn is_empty(&self) -> bool {
        self.runs.as_slice().is_empty()
    }

    fn find(&self, key: &[u8]) -> Option<&[u8]> {
        if self.runs.is_empty() {
            return None;
        }
        let runs = self.runs.as_slice();
        runs[seat(runs, key)].find(key)
    }

    fn copy_all(&self, alloc: Global, copies: &mut List<Pair>) -> Result<(), NoMem> {
        for run in &self.runs {
            run.copy_all(alloc, copies)?;
        }
        Ok(())
    }

    fn copy_range(
        &self,
        alloc: Global,
        low: &[u8],
        high: &[u8],
        most: usize,
        copies: &mut List<Pair>,
    ) -> Result<(), NoMem> {
        for run in from_seat(self.runs.as_slice(), low) {
            if copies.items().len() == most {
                return Ok(());
            }
            if high.cmp(run.key()).is_le() {
                return Ok(());
            }
            run.copy_range(alloc, low, high, most, copies)?;
        }
        Ok(())
    }

    fn number(&self, low: &[u8], high: &[u8], cap: u32) -> u32 {
        let mut n = 0;
        for run in from_seat(self.runs.as_slice(), low) {
            if n == cap {
                return n;
            }
            if high.cmp(run.key()).is_le() {
                return n;
            }
            n += run.number(low, high, cap - n);
        }
        n
    }

    fn cut(&mut self, alloc: Global, key: &[u8]) -> Result<Option<Runs<R>>, NoMem> {
        if self.runs.len() < MOST {
            return Ok(None);
        }
        let runs = cut_at(&mut self.runs, key)?;
        Ok(Some(Runs { runs }))
    }

    fn put(&mut self, alloc: Global, pair: HeldPair) -> Result<(), NoMem> {
        if self.runs.is_empty() {
            begin(alloc, &mut self.runs, pair)
        } else {
            put_in(alloc, &mut self.runs, pair)
        }
    }

    fn take_out(&mut self, key: &[u8]) {
        if self.runs.is_empty() {
            return;
        }
        take_from(&mut self.runs, key);
    }
}
