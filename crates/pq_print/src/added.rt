//! The canonical text of an added column.
ghost use Rattle.std.specs.Prelude.{◌≡◌, ◌++◌, OnOk, string_bytes};
ghost use Rattle.pq_schema.specs.Tables.{table_at};
ghost use Rattle.pq_print.specs.Values.{value_text};
ghost use Rattle.pq_print.specs.Canonical.{column_at, column_text, filler_at, added_text};

use crate::names::{column_name, column_type, table_columns, table_fillers, table_name};
use crate::part::Part;
use crate::table::put_type;
use pq_base::Value;
use pq_schema::{Column, Table};
use std::alloc::AllocError;

/// Puts the name and the type of the column at this place, from 0.
#[tactic(auto, unfolding(crate::specs::Canonical::column_text))]
fn put_column_at(columns: &[Column], col: u8, out: &mut String) -> Result<(), AllocError>
    ensures { OnOk result (string_bytes out.new
        ≡ string_bytes out.old ++ column_text (column_at columns.now col)) }
{
    out.push_str(column_name(columns, col))?;
    out.push_str(" ")?;
    put_type(column_type(columns, col), out)
}

/// Puts the default of the column at this place, from 0.
fn put_filler(fillers: &[Option<Value>], col: u8, out: &mut String) -> Result<(), AllocError>
    ensures { OnOk result (string_bytes out.new ≡ string_bytes out.old ++ value_text (filler_at fillers.now col)) }
{
    match fillers.get(col as usize) {
        Some(Some(value)) => value.put(&(), out),
        _ => out.push_str("NULL"),
    }
}

/// Puts the text of the column at this place of the table of this number behind what is there.
pub fn put_added(tables: &[Table], table: u8, col: u8, out: &mut String) -> Result<(), AllocError>
    ensures { OnOk result (string_bytes out.new
        ≡ string_bytes out.old ++ added_text (table_at tables.now table) col) }
{
    out.push_str("ALTER TABLE ")?;
    out.push_str(table_name(tables, table))?;
    out.push_str(" ADD COLUMN ")?;
    put_column_at(table_columns(tables, table), col, out)?;
    out.push_str(" DEFAULT ")?;
    put_filler(table_fillers(tables, table), col, out)?;
    out.push_str(";")
}
