//! Changes that are not made yet.
ghost use Rattle.std.specs.Prelude.{◌≡◌, ◌<◌, ◌+◌, ◌^◌, [], map, nat_lt, IfOk, IsTrue};
ghost use Rattle.std.specs.List.{count_by};
ghost use Rattle.std.specs.Option.{option_map};
ghost use Rattle.pq_content.specs.Standing.{change_of};
ghost use Rattle.pq_store.specs.Content.{entry};
ghost use Rattle.pq_pending.specs.Pending.{nothing_ahead, with_changes, changed_value, lies_within, removals_within, puts_within, is_unchanged, AreDistinct, RemovesAtMost};

use crate::placed::PlacedChanges;
use pq_base::{Bytes, List, NoMem};
use pq_row_code::Change;
use pq_store::Pair;
use std::alloc::Global;
use std::marker::Model;

/// Changes that are not made yet: of each key the last one, at the place of its first. They are of so many writes that
/// remove pairs, each of which removes at most one of a sequence.
#[derive(Drop)]
pub struct Pending {
    changes: PlacedChanges,
    removers: u32,
}

impl Model for Pending {
    ghost use Rattle.std.specs.Prelude.{map};
    ghost use Rattle.pq_content.specs.Standing.{change_of};
    ghost use Rattle.pq_pending.specs.Pending.{Ahead, AreDistinct, RemovesAtMost};

    ghost Value = { Ahead };

    ghost view = { λ p. record { changes = map change_of p.changes; removers = p.removers } };

    ghost invariant = { λ p. AreDistinct (map change_of p.changes)
        × RemovesAtMost p.removers (map change_of p.changes) };
}

fn put_all(
    alloc: Global,
    changes: PlacedChanges,
    more: List<Change>,
) -> Result<PlacedChanges, NoMem>
    ensures { IfOk result (λ made. map change_of made ≡ with_changes (map change_of changes) (map change_of more)) }
{
    let mut all = changes;
    for change in more.into_vec() {
        all = all.with(alloc, change)?;
    }
    Ok(all)
}

// Whether low <= key < high.
fn lies_within(low: &[u8], high: &[u8], key: &[u8]) -> bool
    ensures { result ≡ lies_within low.now high.now key.now }
{
    low.cmp(key).is_le() && key.cmp(high).is_lt()
}

fn removals_of(changes: &[Change], low: &[u8], high: &[u8]) -> usize
    ensures { result ≡ removals_within low.now high.now (map change_of changes.now) }
{
    let mut count = 0;
    for change in changes {
        if change.new.is_none() && lies_within(low, high, change.key.items()) {
            count += 1;
        }
    }
    count
}

fn puts_of(changes: &[Change], low: &[u8], high: &[u8]) -> usize
    ensures { result ≡ puts_within low.now high.now (map change_of changes.now) }
{
    let mut count = 0;
    for change in changes {
        if change.new.is_some() && lies_within(low, high, change.key.items()) {
            count += 1;
        }
    }
    count
}

fn unchanged_of(changes: &PlacedChanges, pairs: &[Pair]) -> usize
    ensures { result ≡ count_by (is_unchanged (map change_of changes.now)) (map entry pairs.now) }
{
    let mut count = 0;
    for pair in pairs {
        if changes.value(pair.key.items()).is_none() {
            count += 1;
        }
    }
    count
}

impl Pending {
    /// No changes.
    pub fn none(alloc: Global) -> Pending
        ensures { result ≡ nothing_ahead }
    {
        Pending {
            changes: PlacedChanges::none(alloc),
            removers: 0,
        }
    }

    /// These changes and behind them more, of so many writes that remove pairs.
    pub fn with(self, alloc: Global, changes: List<Change>, removers: u32) -> Result<Pending, NoMem>
        requires thin { RemovesAtMost removers (map change_of changes) }
        requires few { self.removers + removers < 2 ^ 32 }
        ensures { IfOk result (λ made. made ≡ record {
          changes = with_changes self.changes (map change_of changes);
          removers = self.removers + removers;
        }) }
    {
        Ok(Pending {
            changes: put_all(alloc, self.changes, changes)?,
            removers: self.removers + removers,
        })
    }

    /// The changes.
    pub fn into_changes(self) -> List<Change>
        ensures { map change_of result ≡ self.changes }
    {
        self.changes.into_list()
    }

    /// Tells a proof that each change is of a key of its own, and how few pairs of a sequence they remove.
    pub fn known(&self)
        ensures distinct { AreDistinct self.now.changes }
        ensures thin { RemovesAtMost self.now.removers self.now.changes }
    {
        let _changes = &self.changes;
    }

    /// Whether there are no changes.
    pub(crate) fn is_empty(&self) -> bool
        ensures { IsTrue result → self.now.changes ≡ [] }
    {
        self.changes.items().is_empty()
    }

    /// What the changes give the key, where one of them is of it.
    pub(crate) fn value(&self, key: &[u8]) -> Option<&Option<Bytes>>
        ensures { option_map (λ new. new.now) result ≡ changed_value self.now.changes key.now }
    {
        self.changes.value(key)
    }

    /// How many pairs with `low <= key < high` are removed.
    pub(crate) fn removals_within(&self, low: &[u8], high: &[u8]) -> usize
        ensures { result ≡ removals_within low.now high.now self.now.changes }
    {
        removals_of(self.changes.items(), low, high)
    }

    /// How many pairs with `low <= key < high` are written.
    pub(crate) fn puts_within(&self, low: &[u8], high: &[u8]) -> usize
        ensures { result ≡ puts_within low.now high.now self.now.changes }
    {
        puts_of(self.changes.items(), low, high)
    }

    /// Whether changes are of keys with `low <= key < high`.
    pub(crate) fn is_within(&self, low: &[u8], high: &[u8]) -> bool
        ensures { result ≡ nat_lt 0 (removals_within low.now high.now self.now.changes
            + puts_within low.now high.now self.now.changes) }
    {
        self.removals_within(low, high) > 0 || self.puts_within(low, high) > 0
    }

    /// How many of the pairs have a key of no change.
    pub(crate) fn unchanged(&self, pairs: &[Pair]) -> usize
        ensures { result ≡ count_by (is_unchanged self.now.changes) (map entry pairs.now) }
    {
        unchanged_of(&self.changes, pairs)
    }
}
