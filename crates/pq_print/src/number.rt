//! Numbers as text.
ghost use Rattle.std.specs.Prelude.{◌≡◌, ◌++◌, OnOk, string_bytes};

use itoa::{Buffer, Integer};
use std::alloc::AllocError;

/// Puts the decimal digits of a number behind the text.
pub fn put_number<I: Integer>(out: &mut String, number: I) -> Result<(), AllocError>
    ensures { OnOk result (string_bytes out.new ≡ string_bytes out.old ++ I.text number) }
{
    let mut buffer = Buffer::new();
    out.push_str(buffer.format(number))
}
