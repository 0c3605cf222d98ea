//! Numbers of 64 bits with their sign.
ghost use Rattle.std.specs.Prelude.{◌≡◌, ◌<◌, ◌≤◌, ◌^◌, MatchOption, pos, slice_index, drop, ◌==◌};
ghost use Rattle.std.proofs.Math.IntN.{neg_ℤ};
ghost use Rattle.pq_shape.specs.Numbers.{digits_after, fitting_number, digits_number};
ghost use Rattle.std.proofs.Math.IntN.{neg_ℤ};

/// One more than the greatest number.
const LIMIT: u128 = 1 << 63;

/// The number that decimal digits write, where it is at most 2^63.
fn magnitude(digits: &[u8]) -> Option<u128>
    ensures { MatchOption result (2 ^ 63 < digits_after 0 digits.now)
        (λ n. (n ≡ digits_after 0 digits.now) × (n ≤ 2 ^ 63)) }
{
    let mut number: u128 = 0;
    for digit in digits {
        number = number * 10 + digit.saturating_sub(b'0') as u128;
        if number > LIMIT {
            return None;
        }
    }
    Some(number)
}

fn positive(magnitude: u128) -> Option<i64>
    requires { magnitude ≤ 2 ^ 63 }
    ensures { result ≡ fitting_number (pos magnitude) }
{
    if magnitude < LIMIT {
        Some(magnitude as i64)
    } else {
        None
    }
}

fn negative(magnitude: u128) -> Option<i64>
    requires { magnitude ≤ 2 ^ 63 }
    ensures { result ≡ fitting_number (neg_ℤ (pos magnitude)) }
{
    if magnitude < LIMIT {
        Some(-(magnitude as i64))
    } else {
        Some(i64::MIN)
    }
}

fn has_minus(bytes: &[u8]) -> bool
    ensures { result ≡ (slice_index bytes.now 0 == 45) }
{
    match bytes {
        [first, ..] => *first == b'-',
        [] => false,
    }
}

fn without_first(bytes: &[u8]) -> &[u8]
    ensures { result.now ≡ drop 1 bytes.now }
{
    match bytes {
        [_, rest @ ..] => rest,
        [] => &[],
    }
}

/// The number that a sign and digits write, where it has 64 bits.
pub fn number(bytes: &[u8]) -> Option<i64>
    ensures { result ≡ digits_number bytes.now }
{
    if has_minus(bytes) {
        match magnitude(without_first(bytes)) {
            Some(size) => negative(size),
            None => None,
        }
    } else {
        match magnitude(bytes) {
            Some(size) => positive(size),
            None => None,
        }
    }
}
