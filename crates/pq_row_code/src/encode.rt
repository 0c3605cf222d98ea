//! From rows to row codes.
ghost use Rattle.std.specs.Prelude.{◌≡◌, ◌++◌, ◌≤◌, ◌<◌, ◌^◌, length, All, OnOk, IfOk, if◌then◌else◌};
ghost use Rattle.pq_base.specs.Values.{has_null};
ghost use Rattle.pq_row_code.specs.RowCode.{field, fields, null_marks, row_front, row_code, IsShort};

use pq_base::{Bytes, NoMem, Row, Value};
use std::alloc::Global;

fn put_field(alloc: Global, out: &mut Bytes, value: &Value) -> Result<(), NoMem>
    requires { IsShort value.now }
    ensures { OnOk result (out.new ≡ out.old ++ field value.now) }
{
    match value {
        Value::Null => Ok(()),
        Value::Int(number) => out.extend(alloc, &number.cast_unsigned().to_be_bytes()),
        Value::Bool(truth) => out.push(alloc, u8::from(*truth)),
        Value::Text(text) => {
            out.extend(alloc, &(text.bytes().len() as u16).to_be_bytes())?;
            out.extend(alloc, text.bytes())
        }
    }
}

fn field_len(value: &Value) -> u32
    requires { IsShort value.now }
    ensures len { result ≡ length (field value.now) }
    ensures small { result ≤ 1002 }
{
    match value {
        Value::Null => 0,
        Value::Int(_) => 8,
        Value::Bool(_) => 1,
        Value::Text(text) => 2 + text.bytes().len() as u32,
    }
}

// How many bytes the front has, which tells whether some value is NULL, and how many the fields have.
fn lens(values: &[Value]) -> (u32, u32)
    requires columns { length values.now ≤ 32 }
    requires texts { All IsShort values.now }
    ensures front { result.0 ≡ (if has_null values.now then 5 else 1) }
    ensures fields { result.1 ≡ length (fields values.now) }
    ensures small { result.1 ≤ 32064 }
{
    let mut front = 1;
    let mut fields = 0;
    for value in values {
        match value {
            Value::Null => front = 5,
            _ => fields += field_len(value),
        }
    }
    (front, fields)
}

fn null_marks(values: &[Value]) -> u32
    requires { length values.now ≤ 32 }
    ensures marks { result ≡ null_marks values.now }
    ensures small { result < 2 ^ length values.now }
{
    match values {
        [] => 0,
        [first, rest @ ..] => u32::from(first.is_null()) + 2 * null_marks(rest),
    }
}

// The marks of a row whose front has so many bytes: one alone where no value is NULL.
#[tactic(auto, using(crate::proofs::Fronts::plain_marks))]
fn marks_of(values: &[Value], front: u32) -> u32
    requires columns { length values.now ≤ 32 }
    requires front { front ≡ (if has_null values.now then 5 else 1) }
    ensures { result ≡ null_marks values.now }
{
    if front == 1 {
        return 0;
    }
    null_marks(values)
}

fn put_front(alloc: Global, out: &mut Bytes, columns: u8, marks: u32) -> Result<(), NoMem>
    requires { columns ≤ 32 }
    ensures { OnOk result (out.new ≡ out.old ++ row_front columns marks) }
{
    if marks == 0 {
        return out.push(alloc, columns);
    }
    out.push(alloc, columns + 0x40)?;
    out.extend(alloc, &marks.to_be_bytes())
}

/// The number of bytes of the code of these values.
#[tactic(auto, using(crate::proofs::Fronts::code_len))]
pub(crate) fn code_len(values: &[Value]) -> u32
    requires columns { length values.now ≤ 32 }
    requires texts { All IsShort values.now }
    ensures { result ≡ length (row_code values.now) }
{
    let (front, fields) = lens(values);
    front + fields
}

/// The code of these values.
pub(crate) fn code_of(alloc: Global, values: &[Value]) -> Result<Bytes, NoMem>
    requires columns { length values.now ≤ 32 }
    requires texts { All IsShort values.now }
    ensures { IfOk result (λ code. code ≡ row_code values.now) }
{
    let (front, fields) = lens(values);
    let mut code = Bytes::with_room(alloc, (front + fields) as usize)?;
    let marks = marks_of(values, front);
    put_front(alloc, &mut code, values.len() as u8, marks)?;
    for value in values {
        put_field(alloc, &mut code, value)?;
    }
    Ok(code)
}

/// The number of bytes of the row's code.
pub fn row_code_len(row: &Row) -> u32
    requires columns { length row.now ≤ 32 }
    requires texts { All IsShort row.now }
    ensures { result ≡ length (row_code row.now) }
{
    code_len(row.items())
}

/// The row code: the number of columns in one byte, and then each column. A number has eight bytes
/// in two's complement, the highest first, a truth value one, a text two of length before its own.
/// Where some column is NULL, the first byte is 0x40 more, and four bytes follow it, the highest
/// first, whose bit i is set exactly where column i is NULL. A NULL has no bytes of its own.
pub fn encode_row(alloc: Global, row: &Row) -> Result<Bytes, NoMem>
    requires columns { length row.now ≤ 32 }
    requires texts { All IsShort row.now }
    ensures { IfOk result (λ code. code ≡ row_code row.now) }
{
    code_of(alloc, row.items())
}
