//! What holds of every valid schema.

ghost use Rattle.std.specs.Prelude.{◌≡◌, ◌≤◌, ℕ, All, length, List, Some};
ghost use Rattle.pq_schema.specs.declared.query.Query.{Query};
ghost use Rattle.pq_schema.specs.Counters.{IsMadeCounter, IsCounterNumber, IsNumberOf, AreRising};
ghost use Rattle.pq_schema.specs.Resolved.{IsResolved};
ghost use Rattle.pq_schema.specs.Schema.{Schema, IsSmall, counter_at, counters_of, find_counter};
ghost use Rattle.pq_schema.specs.Sound.{IsTable, IsLinked, IsQuery, AreMade};
ghost use Rattle.pq_schema.specs.Valid.{IsValid};

/// Each table of a valid schema is made over the tables before it: it has at most 32 columns, texts from 1
/// to 1,000 bytes, a key of 1 to 4 different columns, at most 4 limits and 4 foreign keys over columns that
/// are there, foreign keys to earlier tables, and at most 16 indexes over columns that are there; for each
/// limit and foreign key a sequence begins with its columns. A query that reading gives over its tables is
/// one that planning takes.
pub fn valid_laws()
    ensures small { (s : Schema) → IsValid s → IsSmall s }
    ensures made { (s : Schema) → IsValid s → AreMade s.tables }
    ensures tables { (s : Schema) → IsValid s → All IsTable s.tables }
    ensures linked { (s : Schema) → IsValid s → All (IsLinked s.tables) s.tables }
    ensures queries { (s : Schema) (query : Query) → IsValid s → IsResolved s.tables query → IsQuery s.tables query }
{}

/// Each counter of a valid schema is of a table that is there, over 1 to 4 different columns of it; its
/// number is at most 256, and no table has more than 4. A table's counters are by rising numbers. A name that
/// is found is a counter's.
pub fn counter_laws()
    ensures made { (s : Schema) (number : ℕ) → IsValid s → IsCounterNumber s number
        → IsMadeCounter s.tables (counter_at s number) }
    ensures small { (s : Schema) (number : ℕ) → IsValid s → IsCounterNumber s number → number ≤ 256 }
    ensures numbers { (s : Schema) (table : ℕ) → All (IsNumberOf s table) (counters_of s table) }
    ensures rising { (s : Schema) (table : ℕ) → AreRising (counters_of s table) }
    ensures few { (s : Schema) (table : ℕ) → IsValid s → length (counters_of s table) ≤ 4 }
    ensures found { (s : Schema) (name : List ℕ) (number : ℕ) → find_counter s name ≡ Some number
        → IsCounterNumber s number }
{}
