//! Laws of the places of words in their tables.
ghost use Rattle.pq_base.specs.WordPlaces.{NamesCounts, NamesRefusals};

/// Each constant of `count_word` is the place of its word in the table of count words, and each of
/// `refusal_place` that of its number in the table of refusal numbers.
pub fn word_places()
    ensures counts { NamesCounts }
    ensures refusals { NamesRefusals }
{}
