//! Tables of words that rise by their bytes, looked up with the ASCII letters raised.

ghost use Rattle.std.specs.Prelude.{◌≡◌, ◌+◌, ◌-◌, ◌<◌, ◌≤◌, ◌↔◌, IsTrue, ℕ, List, [], length, map, Some, IsSome, IfSome, IfNone, Contains, slice_get, slice_index_or};
ghost use Rattle.std.specs.Ordering.{nat_cmp};
ghost use Rattle.std.specs.Cmp.Lexicographic.{slice_cmp};
ghost use Rattle.pq_base.specs.Words.{uppercase_byte, texts, IsRising, keywords, refusals, counts, softs};

use std::cmp::Ordering;
use std::marker::Model;

/// N words that rise.
#[derive(Drop)]
pub struct WordTable<const N: usize> {
    words: &'static [&'static str],
}

impl<const N: usize> Model for WordTable<N> {
    ghost use Rattle.std.specs.Prelude.{ℕ, List, ◌≡◌, length};
    ghost use Rattle.pq_base.specs.Words.{texts, IsRising};

    ghost Value = { List (List ℕ) };

    ghost view = { λ t. texts t.words.now };

    ghost invariant = { λ t. (length t.words.now ≡ N) × IsRising (texts t.words.now) };
}

fn raise(b: u8) -> u8
    ensures { result ≡ uppercase_byte b }
{
    b.to_ascii_uppercase()
}

/// How a word of the table compares to a raised word.
fn compare(a: &[u8], b: &[u8]) -> Ordering
    ensures { result ≡ slice_cmp nat_cmp a.now (map uppercase_byte b.now) }
{
    match a {
        [] => match b {
            [] => Ordering::Equal,
            [_, ..] => Ordering::Less,
        },
        [x, a @ ..] => match b {
            [] => Ordering::Greater,
            [y, b @ ..] => {
                let y = raise(*y);
                if *x < y {
                    return Ordering::Less;
                }
                if y < *x {
                    return Ordering::Greater;
                }
                compare(a, b)
            }
        },
    }
}

/// The word at this place.
fn text_at(words: &[&'static str], place: usize) -> &'static str
    requires { place < length words.now }
    ensures text { slice_index_or (texts words.now) place [] ≡ result.now }
    ensures get { slice_get (texts words.now) place ≡ Some result.now }
{
    words[place]
}

fn rises(words: &[&'static str]) -> bool
    ensures { IsTrue result ↔ IsRising (texts words.now) }
{
    let mut i = 1;
    'words: while i < words.len() {
        if !text_at(words, i - 1).cmp(text_at(words, i)).is_lt() {
            return false;
        }
        i += 1;
    }
    true
}

fn find(words: &[&'static str], word: &[u8]) -> Option<usize>
    requires { IsRising (texts words.now) }
    ensures found { IfSome result (λ place. slice_get (texts words.now) place ≡ Some (map uppercase_byte word.now)) }
    ensures none { IfNone result ((place : ℕ)
        → slice_get (texts words.now) place ≡ Some (map uppercase_byte word.now) → ⊥) }
{
    let mut low = 0;
    let mut high = words.len();
    'halves: while low < high {
        let middle = low + (high - low) / 2;
        match compare(text_at(words, middle).as_bytes(), word) {
            Ordering::Less => low = middle + 1,
            Ordering::Greater => high = middle,
            Ordering::Equal => return Some(middle),
        }
    }
    None
}

impl<const N: usize> WordTable<N> {
    /// The table of these words, if they rise.
    pub fn new(words: &'static [&'static str]) -> Option<WordTable<N>>
        requires { length words.now ≡ N }
        ensures rises { IsSome result ↔ IsRising (texts words.now) }
        ensures kept { IfSome result (λ t. t ≡ texts words.now) }
    {
        if rises(words) {
            return Some(WordTable { words });
        }
        None
    }

    /// The word at this place.
    pub fn word(&self, place: usize) -> &'static str
        requires { place < N }
        ensures { slice_get self.now place ≡ Some result.now }
    {
        text_at(self.words, place)
    }

    /// The place of the word that equals this one with its ASCII letters raised.
    pub fn lookup(&self, word: &[u8]) -> Option<usize>
        ensures found { IfSome result (λ place. slice_get self.now place ≡ Some (map uppercase_byte word.now)) }
        ensures none { IfNone result ((place : ℕ) → slice_get self.now place ≡ Some (map uppercase_byte word.now) → ⊥) }
    {
        find(self.words, word)
    }
}

macro_rules! words {
    ($($word:ident),*) => { [$(stringify!($word)),*] };
}

const KEYWORDS: [&'static str; 35] = words!(
    AFTER,
    AND,
    AS,
    ASC,
    BOOL,
    BY,
    CARDINALITY,
    CREATE,
    DELETE,
    DESC,
    EXPLAIN,
    FALSE,
    FOREIGN,
    FROM,
    INSERT,
    INT,
    INTO,
    JOIN,
    KEY,
    LIMIT,
    ORDER,
    PAGINATE,
    PREPARE,
    PRIMARY,
    REFERENCES,
    RUN,
    SELECT,
    SET,
    SHOW,
    TABLE,
    TEXT,
    TRUE,
    UPDATE,
    VALUES,
    WHERE
);

/// The table of the keywords.
pub fn keyword_table() -> WordTable<35>
    ensures { result ≡ keywords }
{
    WordTable { words: &KEYWORDS }
}

const REFUSALS: [&'static str; 37] = [
    "E101", "E102", "E103", "E104", "E201", "E202", "E203", "E204", "E205", "E206", "E207", "E208",
    "E209", "E301", "E302", "E303", "E304", "E305", "E401", "E402", "E403", "E404", "E405", "E406",
    "E501", "E502", "E503", "E504", "E505", "E506", "E507", "E508", "E510", "E511", "E512", "E513",
    "E514",
];

/// The table of the numbers of refusals.
pub fn refusal_numbers() -> WordTable<37>
    ensures { result ≡ refusals }
{
    WordTable { words: &REFUSALS }
}

const COUNTS: [&'static str; 17] = [
    "cardinality",
    "columns",
    "counters",
    "definitions",
    "foreign",
    "indexes",
    "key",
    "limit_columns",
    "limits",
    "order",
    "predicates",
    "relations",
    "selected",
    "stop",
    "tables",
    "text",
    "writes",
];

/// The table of the words that name a count outside its limit.
pub fn count_words() -> WordTable<17>
    ensures { result ≡ counts }
{
    WordTable { words: &COUNTS }
}

const SOFT: [&'static str; 11] = [
    "ADD", "ALTER", "BATCH", "COLUMN", "COUNTER", "DEFAULT", "IF", "IS", "NULL", "OF", "READ",
];

/// The table of the words that are known where the grammar has them, and are names elsewhere.
pub fn soft_words() -> WordTable<11>
    ensures { result ≡ softs }
{
    WordTable { words: &SOFT }
}
