//! The canonical text of a counter.
ghost use Rattle.std.specs.Prelude.{◌≡◌, ◌++◌, OnOk, string_bytes};
ghost use Rattle.pq_print.specs.Canonical.{counter_text};

use crate::names::{table_columns, table_name};
use crate::table::put_names;
use pq_schema::{Counter, Table};
use std::alloc::AllocError;

/// Puts the text of the counter behind what is there.
pub fn put_counter(tables: &[Table], counter: &Counter, out: &mut String) -> Result<(), AllocError>
    ensures { OnOk result (string_bytes out.new
        ≡ string_bytes out.old ++ counter_text tables.now counter.now) }
{
    out.push_str("CREATE COUNTER ")?;
    out.push_str(counter.name.as_str())?;
    out.push_str(" OF ")?;
    out.push_str(table_name(tables, counter.table))?;
    out.push_str(" ")?;
    put_names(
        table_columns(tables, counter.table),
        counter.cols.items(),
        out,
    )?;
    out.push_str(";")
}
