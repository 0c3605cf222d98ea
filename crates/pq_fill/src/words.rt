//! The words of a run.
ghost use Rattle.std.specs.Prelude.{◌≡◌, ◌≤◌, ℕ, Some, IfSome, codes, decimal};
ghost use Rattle.pq_fill.specs.declared.words.Form.{Form};
ghost use Rattle.pq_fill.specs.Words.{IsForm};

use itoa::Buffer;
use pq_base::PText;

/// What a run is asked for.
#[derive(Clone, Copy, PartialEq, Eq)]
pub enum Form {
    /// `run`: the script that is read is run over the store.
    Run,
    /// `check`: the script that is read is checked without a store.
    Check,
    /// `fill N`: the generated script for N users is run, from 1 to 20,000.
    Fill(u32),
}

/// The most users of a generated script.
const USERS: u32 = 20_000;

/// The number from 1 to the most that a word spells in decimal, without a sign or leading zeros.
pub fn count_in(word: &str, most: u32) -> Option<u32>
    ensures some { IfSome result (λ n. (1 ≤ n) × (n ≤ most) × (word.now ≡ decimal n)) }
    ensures all { (n : ℕ) → 1 ≤ n → n ≤ most → word.now ≡ decimal n → result ≡ Some n }
{
    let Ok(count) = word.parse::<u32>() else {
        return None;
    };
    let mut buffer = Buffer::new();
    if count == 0 || count > most || buffer.format(count) != word {
        return None;
    }
    Some(count)
}

/// The form of a run that some words spell: `run`; `check`; or `fill` and a number from 1 to 20,000 in
/// decimal, without a sign or leading zeros. None exactly where they spell none of these.
pub fn form_of(words: &[PText]) -> Option<Form>
    ensures spelled { IfSome result (λ form. IsForm form words.now) }
    ensures all { (form : Form) → IsForm form words.now → result ≡ Some form }
{
    match words {
        [word] if word.as_str() == "run" => Some(Form::Run),
        [word] if word.as_str() == "check" => Some(Form::Check),
        [word, number] if word.as_str() == "fill" => {
            let users = count_in(number.as_str(), USERS)?;
            Some(Form::Fill(users))
        }
        _ => None,
    }
}
