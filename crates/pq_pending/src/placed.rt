//! Changes that are found by their keys.
ghost use Rattle.std.specs.Prelude.{◌≡◌, [], position, map, IfOk};
ghost use Rattle.std.specs.Option.{option_map};
ghost use Rattle.pq_content.specs.Standing.{change_of};
ghost use Rattle.pq_pending.specs.Pending.{with_change, changed_value};
ghost use Rattle.pq_pending.specs.Placed.{is_of};

use indexmap::IndexMap;
use pq_base::{Bytes, List, NoMem};
use pq_row_code::Change;
use std::alloc::Global;
use std::marker::Model;

/// Changes, each of a key of its own, and the place of each by its key.
#[derive(Drop)]
pub(crate) struct PlacedChanges {
    changes: Vec<Change>,
    places: IndexMap<Vec<u8>, usize>,
}

impl Model for PlacedChanges {
    ghost use Rattle.std.specs.Prelude.{List};
    ghost use Rattle.pq_row_code.specs.declared.changes.Change.{Change as Coded};
    ghost use Rattle.pq_pending.specs.Placed.{HavePlaces};

    ghost Value = { List Coded };

    ghost view = { λ p. p.changes.items };

    ghost invariant = { λ p. HavePlaces p.places.entries p.changes.items };
}

impl PlacedChanges {
    /// No changes.
    pub(crate) fn none(alloc: Global) -> PlacedChanges
        ensures { result ≡ [] }
    {
        PlacedChanges {
            changes: Vec::new(alloc),
            places: IndexMap::new(alloc),
        }
    }

    /// The changes in their order.
    pub(crate) fn items(&self) -> &[Change]
        ensures { result.now ≡ self.now }
    {
        self.changes.as_slice()
    }

    // The place of the change of this key.
    fn place(&self, key: &[u8]) -> Option<usize>
        ensures { result ≡ position (is_of key.now) self.now }
    {
        self.places.get(key).copied()
    }

    /// What the changes give the key, where one of them is of it.
    pub(crate) fn value(&self, key: &[u8]) -> Option<&Option<Bytes>>
        ensures { option_map (λ new. new.now) result ≡ changed_value (map change_of self.now) key.now }
    {
        match self.place(key) {
            Some(place) => Some(&self.changes[place].new),
            None => None,
        }
    }

    /// With one change more: of each key the last one stands, at the place of its first.
    pub(crate) fn with(self, alloc: Global, change: Change) -> Result<PlacedChanges, NoMem>
        ensures { IfOk result (λ made. map change_of made ≡ with_change (map change_of self) (change_of change)) }
    {
        let found = self.place(change.key.items());
        let PlacedChanges {
            mut changes,
            mut places,
        } = self;
        match found {
            Some(place) => {
                changes[place] = change;
                Ok(PlacedChanges { changes, places })
            }
            None => {
                let key = Vec::from_slice(alloc, change.key.items())?;
                places.insert(key, changes.len())?;
                changes.push(change)?;
                Ok(PlacedChanges { changes, places })
            }
        }
    }

    /// The changes in their order.
    pub(crate) fn into_list(self) -> List<Change>
        ensures { result ≡ self }
    {
        let PlacedChanges {
            changes,
            places: _places,
        } = self;
        List::from_vec(changes)
    }
}
