//! New indexes.

ghost use Rattle.std.specs.Prelude.{◌≡◌, ◌++◌, IfOk, OnOk, OnErr, filter, map, length};
ghost use Rattle.std.specs.List.{range_with_len};
ghost use Rattle.pq_base.specs.Columns.{has_col};
ghost use Rattle.pq_schema.specs.Sound.{IsTable};
ghost use Rattle.pq_schema.specs.Sequences.{ascending_part, new_index};

use crate::pick::Need;
use pq_base::{ColSet, Dir, List, NoMem};
use pq_schema::{Index, KeyPart, Table};
use std::alloc::Global;

/// Adds the fixed columns in table order, ascending.
fn push_fixed(
    cols: &mut List<KeyPart>,
    alloc: Global,
    table: &Table,
    fixed: ColSet,
) -> Result<(), NoMem>
    requires { IsTable table.now }
    ensures { OnOk result (cols.new ≡ cols.old
        ++ map ascending_part (filter (has_col fixed) (range_with_len 0 (length table.now.columns)))) }
{
    for col in 0..table.columns.items().len() as u8 {
        if fixed.has(col) {
            cols.push(alloc, KeyPart { col, dir: Dir::Asc })?;
        }
    }
    Ok(())
}

/// Adds the parts of an order.
fn push_order(cols: &mut List<KeyPart>, alloc: Global, order: &[KeyPart]) -> Result<(), NoMem>
    ensures { OnOk result (cols.new ≡ cols.old ++ order.now) }
{
    for part in order {
        cols.push(alloc, *part)?;
    }
    Ok(())
}

/// The index that a stop wants where no sequence serves: the fixed columns in table order, ascending,
/// and then the order parts.
pub fn new_index(alloc: Global, table: &Table, need: &Need) -> Result<Index, NoMem>
    requires { IsTable table.now }
    ensures { IfOk result (λ index. index ≡ new_index table.now need.now.fixed need.now.order.items) }
{
    let mut cols = List::new(alloc);
    push_fixed(&mut cols, alloc, table, need.fixed)?;
    push_order(&mut cols, alloc, need.order.as_slice())?;
    Ok(Index { cols })
}
