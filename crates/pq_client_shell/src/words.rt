//! The words of a run of clients.
ghost use Rattle.std.specs.Prelude.{◌≡◌, ℕ, IfSome, Some};
ghost use Rattle.pq_client_shell.specs.Words.{AreWords};

use pq_base::PText;
use pq_fill::count_in;

/// The most clients of a run.
const CLIENTS: u32 = 16;

/// How many clients some words ask for: they are `clients` and a number from 1 to 16 in decimal, without a sign or
/// leading zeros. None exactly where they are no such words.
pub fn clients_of(words: &[PText]) -> Option<u32>
    ensures spelled { IfSome result (λ k. AreWords k words.now) }
    ensures all { (k : ℕ) → AreWords k words.now → result ≡ Some k }
{
    match words {
        [word, number] if word.as_str() == "clients" => {
            let k = count_in(number.as_str(), CLIENTS)?;
            Some(k)
        }
        _ => None,
    }
}
