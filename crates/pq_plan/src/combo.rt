//! Combinations of rows.

ghost use Rattle.std.specs.Prelude.{◌≡◌, ◌++◌, ◌∷◌, [], OnOk, OnErr, IfOk};

use pq_base::{List, NoMem, Row};
use std::alloc::Global;
use std::marker::Model;

/// One row for each of the first relations of a query.
pub struct Combo {
    pub rows: List<Row>,
}

// Written out, so that whoever drops a combination makes one call for it.
impl Drop for Combo {
    fn drop(self) {
        let Combo { rows: _rows } = self;
    }
}

impl Model for Combo {
    ghost use Rattle.std.specs.Prelude.{List as Items};
    ghost use Rattle.pq_base.specs.declared.value.Value.{Value as Cell};

    ghost Value = { Items (Items Cell) };

    ghost view = { λ c. c.rows };
}

impl Combo {
    /// The combination of no relation. It takes no memory.
    pub fn empty(alloc: Global) -> Combo
        ensures { result ≡ [] }
    {
        Combo {
            rows: List::new(alloc),
        }
    }

    /// The rows, that of relation 1 first.
    pub fn rows(&self) -> &[Row]
        ensures { result.now ≡ self.now }
    {
        self.rows.items()
    }

    /// Puts the next relation's row behind the others. After `NoMem` the combination is as before.
    pub fn push(&mut self, alloc: Global, row: Row) -> Result<(), NoMem>
        ensures ok { OnOk result (self.new ≡ self.old ++ row ∷ []) }
        ensures err { OnErr result (self.new ≡ self.old) }
    {
        self.rows.push(alloc, row)
    }

    /// Another combination of equal rows.
    pub fn copy(&self, alloc: Global) -> Result<Combo, NoMem>
        ensures { IfOk result (λ copy. copy ≡ self.now) }
    {
        let mut copy = Combo::empty(alloc);
        for row in self.rows.items() {
            copy.push(alloc, row.copy(alloc)?)?;
        }
        Ok(copy)
    }
}
