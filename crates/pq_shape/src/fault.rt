//! The refusal for the place where reading stopped.
ghost use Rattle.std.specs.Prelude.{◌≡◌, ◌-◌, ◌≤◌, ◌^◌, length, min};
ghost use Rattle.pq_shape.specs.Faults.{offset_at, syntax_at};

use pq_base::{Refusal, Stopped};
use pq_text::Token;

/// Where the token at this place stands, or the length of the text where there is none.
fn offset(text: &[u8], tokens: &[Token], place: usize) -> u32
    ensures { result ≡ offset_at text.now tokens.now place }
{
    match tokens.get(place) {
        Some(token) => token.from,
        None => text.len().min(u32::MAX as usize) as u32,
    }
}

/// The refusal of a text in which so many tokens are left.
pub fn syntax(text: &[u8], tokens: &[Token], left: usize) -> Stopped
    ensures { result ≡ syntax_at text.now tokens.now left }
{
    let at = offset(text, tokens, tokens.len().saturating_sub(left));
    Stopped::Refused(Refusal::Syntax { at })
}
