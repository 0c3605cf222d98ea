//! A list that contracts see as the list of its items.
ghost use Rattle.std.specs.Prelude.{◌≡◌, ◌++◌, ◌∷◌, [], OnOk, OnErr, IfOk, take, string_bytes};

use std::alloc::{AllocError, AllocFailed, Global};
use std::marker::Model;

/// There was no memory.
#[derive(Debug, Clone, Copy, PartialEq, Eq)]
pub struct NoMem;

impl From<AllocError> for NoMem {
    fn from(_error: AllocError) -> NoMem {
        NoMem
    }
}

impl<T: Drop> From<AllocFailed<T>> for NoMem {
    fn from(_error: AllocFailed<T>) -> NoMem {
        NoMem
    }
}

/// A growing list. It keeps the allocator that it was made with.
#[derive(Debug)]
pub struct List<T> {
    held: Vec<T>,
}

// Written out, so that whoever drops a list makes one call for it.
impl<T: Drop> Drop for List<T> {
    fn drop(self) {
        let List { held: _held } = self;
    }
}

impl<T> Model for List<T> {
    ghost use Rattle.std.specs.Prelude.{List as Items};
    ghost use Rattle.std.specs.Coded.{coded_list};

    ghost Value = { Items T };

    ghost coded = { coded_list T.code };

    ghost view = { λ a. a.held.items };
}

/// Bytes.
pub type Bytes = List<u8>;

impl<T> List<T> {
    /// The empty list. It takes no memory.
    pub fn new(alloc: Global) -> List<T>
        ensures { result ≡ [] }
    {
        List {
            held: Vec::new(alloc),
        }
    }

    /// The empty list, with room for so many items.
    pub fn with_room(alloc: Global, room: usize) -> Result<List<T>, NoMem>
        ensures { IfOk result (λ list. list ≡ []) }
    {
        Ok(List {
            held: Vec::with_capacity(alloc, room)?,
        })
    }

    /// The items of a vector, which takes no memory.
    pub fn from_vec(held: Vec<T>) -> List<T>
        ensures { result ≡ held.items }
    {
        List { held }
    }

    /// The items as a vector, which takes no memory.
    pub fn into_vec(self) -> Vec<T>
        ensures { result.items ≡ self }
    {
        let List { held } = self;
        held
    }

    /// The items in order.
    pub fn items(&self) -> &[T]
        ensures { result.now ≡ self.now }
    {
        self.held.as_slice()
    }
}

impl<T: Drop> List<T> {
    /// Puts an item behind the others. After `NoMem` the list is as before, and the item is dropped.
    pub fn push(&mut self, _alloc: Global, item: T) -> Result<(), NoMem>
        ensures ok { OnOk result (self.new ≡ self.old ++ item ∷ []) }
        ensures err { OnErr result (self.new ≡ self.old) }
    {
        self.held.push(item)?;
        Ok(())
    }

    /// Drops the items from a place on.
    pub fn truncate(&mut self, len: usize)
        ensures { self.new ≡ take len self.old }
    {
        self.held.truncate(len);
    }
}

impl List<u8> {
    /// A copy of the bytes.
    pub fn of_bytes(alloc: Global, bytes: &[u8]) -> Result<Bytes, NoMem>
        ensures { IfOk result (λ copy. copy ≡ bytes.now) }
    {
        let held = Vec::from_slice(alloc, bytes)?;
        Ok(List { held })
    }

    /// Puts the bytes behind those that are there. After `NoMem` the list is as before.
    pub fn extend(&mut self, _alloc: Global, bytes: &[u8]) -> Result<(), NoMem>
        ensures ok { OnOk result (self.new ≡ self.old ++ bytes.now) }
        ensures err { OnErr result (self.new ≡ self.old) }
    {
        self.held.extend_from_slice(bytes)?;
        Ok(())
    }

    /// Puts a text's bytes behind those that are there. After `NoMem` the list is as before.
    pub fn extend_text(&mut self, alloc: Global, text: String) -> Result<(), NoMem>
        ensures ok { OnOk result (self.new ≡ self.old ++ string_bytes text) }
        ensures err { OnErr result (self.new ≡ self.old) }
    {
        if self.held.is_empty() {
            self.held = text.into_bytes();
            return Ok(());
        }
        self.extend(alloc, text.as_str().as_bytes())
    }
}
