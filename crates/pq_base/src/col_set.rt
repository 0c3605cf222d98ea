//! A set of columns, seen as the number whose bits are the columns.

ghost use Rattle.std.specs.Prelude.{◌≡◌, ◌==◌, ◌<◌, All, count_ones, bit_or};
ghost use Rattle.pq_base.specs.Columns.{with_col, has_col, is_column_within, set_of};

use std::marker::Model;

#[derive(Clone, Copy)]
pub struct ColSet {
    bits: u32,
}

impl Model for ColSet {
    ghost use Rattle.std.specs.Prelude.{ℕ};

    ghost Value = { ℕ };

    ghost view = { λ s. s.bits };

    ghost inverse = { λ n. record { bits = n } };
}

impl ColSet {
    /// The empty set.
    pub fn empty() -> ColSet
        ensures { result ≡ 0 }
    {
        ColSet { bits: 0 }
    }

    /// The set with this column too. Columns are numbered from 0 to 31.
    pub fn with(self, col: u8) -> ColSet
        requires { col < 32 }
        ensures { result ≡ with_col self col }
    {
        ColSet {
            bits: self.bits | 1 << col,
        }
    }

    /// Whether the column is in the set.
    pub fn has(self, col: u8) -> bool
        requires { col < 32 }
        ensures { result ≡ has_col self col }
    {
        self.bits >> col & 1 == 1
    }

    /// Whether each column of this set is in the other.
    pub fn within(self, other: ColSet) -> bool
        ensures { result ≡ is_column_within self other }
    {
        self.bits & other.bits == self.bits
    }

    /// Whether the two are one set.
    pub fn same(self, other: ColSet) -> bool
        ensures { result ≡ (self == other) }
    {
        self.bits == other.bits
    }

    /// The columns of both.
    pub fn joined(self, other: ColSet) -> ColSet
        ensures { result ≡ bit_or self other }
    {
        ColSet {
            bits: self.bits | other.bits,
        }
    }

    /// How many columns it has.
    pub fn count(self) -> u32
        ensures { result ≡ count_ones self }
    {
        self.bits.count_ones()
    }

    /// The set of these columns.
    pub fn of(cols: &[u8]) -> ColSet
        requires { All (λ col. col < 32) cols.now }
        ensures { result ≡ set_of cols.now }
    {
        let mut set = ColSet::empty();
        for col in cols {
            set = set.with(*col);
        }
        set
    }
}
