//! Sums of numbers of 64 bits.
ghost use Rattle.std.specs.Prelude.{◌≡◌, ◌+ℤ◌, Some, None, if◌then◌else◌};
ghost use Rattle.pq_base.specs.Sums.{has_64_bits, sum_of};

use crate::value::Value;

#[tactic(auto, using(crate::proofs::Sums::sum_given))]
fn number_sum(held: i64, number: i64) -> Option<i64>
    ensures { result ≡ (if has_64_bits (held +ℤ number) then Some (held +ℤ number) else None) }
{
    held.checked_add(number)
}

/// The value with a number added to it; None where it is no number, or the sum is none of 64 bits.
pub fn added(value: &Value, number: i64) -> Option<Value>
    ensures { result ≡ sum_of value.now number }
{
    match value {
        Value::Int(held) => match number_sum(*held, number) {
            Some(sum) => Some(Value::Int(sum)),
            None => None,
        },
        Value::Null | Value::Bool(_) | Value::Text(_) => None,
    }
}
