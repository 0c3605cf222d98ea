//! Laws of the definitions.
ghost use Rattle.std.specs.Prelude.{◌≡◌, ℕ, List};
ghost use Rattle.pq_text.specs.Pieces.{pieces_of, rest_of, is_unfinished};
ghost use Rattle.pq_text.specs.Summaries.{start_summary, pieces_from, unfinished_from};

/// What a splitter tells, from its start on, is what the script as a whole says: its pieces that
/// aren't blank, and whether the rest behind its last cut is unfinished.
///
/// Each call of `feed` moves the bytes that it takes from what follows to what was told, so this
/// holds however the script is cut into parts.
#[tactic(auto)]
pub fn cutting_law()
    ensures pieces { (script : List ℕ) → pieces_from start_summary script ≡ pieces_of script }
    ensures rest { (script : List ℕ) → unfinished_from start_summary script ≡ is_unfinished (rest_of script) }
{}
