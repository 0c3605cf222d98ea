//! What stands at a column of a row, whether the row has a value there or not.
ghost use Rattle.std.specs.Prelude.{◌≡◌, IfOk, option_copied, unwrap_or};
ghost use Rattle.pq_base.specs.Cells.{no_value, value_of};

use crate::list::NoMem;
use crate::value::Value;
use std::alloc::Global;

/// What stands at a column that isn't there.
pub fn no_value() -> Value
    ensures { result ≡ no_value }
{
    Value::Bool(false)
}

/// A copy of a value that is there, and else what stands at a column that isn't there.
pub fn copied_value(alloc: Global, value: Option<&Value>) -> Result<Value, NoMem>
    ensures { IfOk result (λ copy. copy ≡ unwrap_or (option_copied value.entry) no_value) }
{
    match value {
        Some(value) => value.copy(alloc),
        None => Ok(no_value()),
    }
}

/// A copy of what stands at a column of the row, from 0.
pub fn value_of(alloc: Global, row: &[Value], col: u8) -> Result<Value, NoMem>
    ensures { IfOk result (λ value. value ≡ value_of row.now col) }
{
    copied_value(alloc, row.get(col as usize))
}
