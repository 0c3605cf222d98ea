//! Values and rows as text.
ghost use Rattle.std.specs.Prelude.{◌≡◌, ◌++◌, IfSome, OnOk, OnErr, flat_map, string_bytes, encode_utf8};
ghost use Rattle.pq_print.specs.Values.{doubled_quotes, quoted_text, value_text, row_text};
ghost use Rattle.pq_print.specs.Report.{line_of};

use crate::number::put_number;
use crate::part::{Part, put_separated};
use pq_base::{Bytes, NoMem, Row, Value};
use std::alloc::{AllocError, Global};

/// Puts a character, a quote twice.
#[tactic(auto, using(crate::proofs::Quotes::doubled_quote, crate::proofs::Quotes::doubled_other))]
fn put_char(c: char, out: &mut String) -> Result<(), AllocError>
    ensures { OnOk result (string_bytes out.new ≡ string_bytes out.old ++ flat_map doubled_quotes (encode_utf8 c)) }
{
    if c == '\'' {
        return out.push_str("''");
    }
    out.push(c)
}

fn put_chars(text: &str, out: &mut String) -> Result<(), AllocError>
    ensures { OnOk result (string_bytes out.new ≡ string_bytes out.old ++ flat_map doubled_quotes text.now) }
{
    for c in text.chars() {
        put_char(c, out)?;
    }
    Ok(())
}

/// The text, if there is no quote in it.
fn plain(text: &str) -> Option<&str>
    ensures { IfSome result (λ plain. plain.now ≡ flat_map doubled_quotes text.now) }
{
    if text.as_bytes().contains(&b'\'') {
        return None;
    }
    Some(text)
}

/// Puts the text with each quote in it written twice.
fn put_doubled(text: &str, out: &mut String) -> Result<(), AllocError>
    ensures { OnOk result (string_bytes out.new ≡ string_bytes out.old ++ flat_map doubled_quotes text.now) }
{
    match plain(text) {
        Some(plain) => out.push_str(plain),
        None => put_chars(text, out),
    }
}

/// Puts the text between quotes, with each quote in it written twice.
fn put_quoted(text: &str, out: &mut String) -> Result<(), AllocError>
    ensures { OnOk result (string_bytes out.new ≡ string_bytes out.old ++ quoted_text text.now) }
{
    out.push_str("'")?;
    put_doubled(text, out)?;
    out.push_str("'")
}

impl Part<()> for Value {
    ghost text = { λ _ value. value_text value };

    fn put(&self, _scope: &(), out: &mut String) -> Result<(), AllocError> {
        match self {
            Value::Null => out.push_str("NULL"),
            Value::Int(number) => put_number(out, *number),
            Value::Bool(true) => out.push_str("true"),
            Value::Bool(false) => out.push_str("false"),
            Value::Text(text) => put_quoted(text.as_str(), out),
        }
    }
}

/// Puts the row's text, `row V, V`, behind what is there.
pub fn put_row(row: &Row, out: &mut String) -> Result<(), AllocError>
    ensures { OnOk result (string_bytes out.new ≡ string_bytes out.old ++ row_text row.now) }
{
    out.push_str("row ")?;
    put_separated(row.items(), &(), ", ", out)
}

/// Appends the row's line. After `NoMem` the bytes are as before.
pub fn print_row(alloc: Global, row: &Row, out: &mut Bytes) -> Result<(), NoMem>
    ensures ok { OnOk result (out.new ≡ out.old ++ line_of (row_text row.now)) }
    ensures err { OnErr result (out.new ≡ out.old) }
{
    let mut text = String::new(alloc);
    put_row(row, &mut text)?;
    text.push_str("\n")?;
    out.extend_text(alloc, text)
}
