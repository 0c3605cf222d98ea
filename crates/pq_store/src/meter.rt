//! The meter of store calls. It takes no bytes, and nothing but `charge` changes it.
ghost use Rattle.std.specs.Prelude.{◌≡◌};
ghost use Rattle.pq_store.specs.Counts.{no_counts, charged_counts};

use std::marker::Model;
use std::sync::ledger::{Blank, Book, Ledger, Share};

/// The right to start one meter over the ledger type `L`. Generic code has none.
#[derive(Drop)]
pub struct Opening<L: Ledger> {
    book: Book<L>,
    all: Share<L>,
    ghost two: { all.parts ≡ 2 },
    ghost none: { all.amount ≡ 0 },
}

impl<L: Ledger> Opening<L> {
    /// The opening of the ledger of two parts that stands for `L`: whoever hands the blank in picks it.
    pub fn of(blank: Blank) -> Opening<L>
        requires name { blank.name ≡ L.name }
        requires parts { blank.parts ≡ L.parts }
        requires two { blank.parts ≡ 2 }
    {
        let (book, all) = blank.open::<L>();
        Opening { book, all }
    }
}

/// How many operations were made, and how many entries they answered.
#[derive(Drop)]
pub struct Meter<L: Ledger> {
    book: Book<L>,
    ops: Share<L>,
    entries: Share<L>,
}

impl<L: Ledger> Model for Meter<L> {
    ghost use Rattle.std.specs.Prelude.{◌<◌};
    ghost use Rattle.pq_store.specs.Counts.{Counts};

    ghost Value = { Counts };

    ghost view = { λ m. record { ops = m.ops.amount; entries = m.entries.amount } };

    ghost invariant = { λ m. (0 < m.ops.parts) × (0 < m.entries.parts) };
}

impl<L: Ledger> Meter<L> {
    /// A meter with both counts at zero.
    pub fn start(opening: Opening<L>) -> Meter<L>
        ensures { result ≡ no_counts }
    {
        let Opening { book, all } = opening;
        let mut ops = all;
        let entries = ops.split_off(1, 0);
        Meter { book, ops, entries }
    }

    /// One operation more, and so many entries more. A store charges each of its calls once.
    pub fn charge(&mut self, entries: u32)
        ensures { self.new ≡ charged_counts self.old entries }
    {
        self.book.add(&mut self.ops, 1);
        self.book.add(&mut self.entries, entries as u64);
    }
}
