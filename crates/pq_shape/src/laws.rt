//! Laws of the places of keywords, of soft words and of the codes of marks.
ghost use Rattle.pq_shape.specs.Laws.{NamesWords, NamesSoftWords, NamesMarks};

/// Each constant named like a keyword is its place in the keyword table, each soft word is a word of their table, and
/// each constant of a mark is its code.
pub fn keyword_places()
    ensures words { NamesWords }
    ensures soft { NamesSoftWords }
    ensures marks { NamesMarks }
{}
