//! What ends a report's end line: the bound and what was used.
ghost use Rattle.std.specs.Prelude.{◌≡◌, ◌<◌, ◌++◌, [], ◌∷◌, IfOk, IfSome, decimal, string_bytes};
ghost use Rattle.pq_print.specs.Report.{bound_text, used_text, line_of};

use crate::print::{put_bound, put_used};
use pq_base::{Bound, Bytes, List, NoMem, Used};

/// The digit of a number that has one.
fn digit_of(number: u128) -> u8
    requires { number < 10 }
    ensures { decimal number ≡ result ∷ [] }
{
    b'0' + number as u8
}

/// The end of the line, where each number has one digit.
fn short_costs(bound: Bound, used: Used) -> Option<[u8; 20]>
    ensures { IfSome result (λ bytes. bytes ≡ line_of (bound_text bound ++ used_text used)) }
{
    let (ops, entries) = (used.ops as u128, used.entries as u128);
    if bound.ops > 9 || bound.entries > 9 || ops > 9 || entries > 9 {
        return None;
    }
    let mut line = *b" bound _ _ used _ _\n";
    line[7] = digit_of(bound.ops);
    line[9] = digit_of(bound.entries);
    line[16] = digit_of(ops);
    line[18] = digit_of(entries);
    Some(line)
}

// Out of line, since few reports need it.
#[inline(never)]
fn with_long_costs(text: String, bound: Bound, used: Used) -> Result<Bytes, NoMem>
    ensures { IfOk result (λ bytes. bytes ≡ string_bytes text ++ line_of (bound_text bound ++ used_text used)) }
{
    let mut text = text;
    put_bound(bound, &mut text)?;
    put_used(used, &mut text)?;
    text.push_str("\n")?;
    Ok(List::from_vec(text.into_bytes()))
}

/// The bytes of a text with the end of the line behind it.
pub fn with_costs(text: String, bound: Bound, used: Used) -> Result<Bytes, NoMem>
    ensures { IfOk result (λ bytes. bytes ≡ string_bytes text ++ line_of (bound_text bound ++ used_text used)) }
{
    match short_costs(bound, used) {
        Some(costs) => {
            let mut bytes = text.into_bytes();
            bytes.extend_from_slice(&costs)?;
            Ok(List::from_vec(bytes))
        }
        None => with_long_costs(text, bound, used),
    }
}
