//! The range of the keys under which the rows of a table stand that have given values at some columns: in the first
//! sequence that begins with these columns.
ghost use Rattle.std.specs.Prelude.{◌≡◌, IfOk, IsSome};
ghost use Rattle.pq_base.specs.Columns.{set_of};
ghost use Rattle.pq_key_code.specs.KeyCode.{past_code};
ghost use Rattle.pq_schema.specs.Sequences.{group_access};
ghost use Rattle.pq_schema.specs.Sound.{IsTable, AreColumns};
ghost use Rattle.pq_content.specs.Tables.{cells};
ghost use Rattle.pq_index_keep.specs.Asking.{group_ends};

use pq_base::{Bytes, NoMem, Value};
use pq_key_code::past;
use pq_row_keys::{group_key, group_key_of};
use pq_schema::Table;
use pq_store::Ends;
use std::alloc::Global;

/// The range of the keys that begin so.
fn ends_from(alloc: Global, low: Bytes) -> Result<Ends, NoMem>
    ensures { IfOk result (λ ends. ends ≡ record { low = low; high = past_code low }) }
{
    let mut high = Bytes::with_room(alloc, low.items().len() + 1)?;
    high.extend(alloc, low.items())?;
    let high = past(alloc, high)?;
    Ok(Ends { low, high })
}

/// The ends of the range of the rows with these values at these columns.
pub(crate) fn group_ends(
    alloc: Global,
    number: u8,
    table: &Table,
    cols: &[u8],
    values: &[Value],
) -> Result<Ends, NoMem>
    requires columns { AreColumns cols.now }
    requires table { IsTable table.now }
    requires access { IsSome (group_access table.now (set_of cols.now)) }
    ensures { IfOk result (λ ends. ends ≡ group_ends number table.now cols.now values.now) }
{
    ends_from(alloc, group_key(alloc, number, table, cols, values)?)
}

/// The ends of the range of the rows that agree with the row at these columns.
pub(crate) fn row_group_ends(
    alloc: Global,
    number: u8,
    table: &Table,
    cols: &[u8],
    row: &[Value],
) -> Result<Ends, NoMem>
    requires columns { AreColumns cols.now }
    requires table { IsTable table.now }
    requires access { IsSome (group_access table.now (set_of cols.now)) }
    ensures { IfOk result (λ ends. ends ≡ group_ends number table.now cols.now (cells cols.now row.now)) }
{
    ends_from(alloc, group_key_of(alloc, number, table, cols, row)?)
}
