//! The canonical text of a table.
ghost use Rattle.std.specs.Prelude.{◌≡◌, ◌++◌, OnOk, IfOk, string_bytes};
ghost use Rattle.pq_print.specs.Canonical.{column_name, type_text, column_text, columns_text, limit_text, foreign_text, items_text, table_text};

use crate::names::{column_name, table_name};
use crate::number::put_number;
use crate::part::{Part, put_each, put_separated};
use pq_base::{Bytes, ColType, List, NoMem};
use pq_schema::{Column, Foreign, Limit, Table};
use std::alloc::{AllocError, Global};

/// Puts the type's text behind what is there.
pub fn put_type(ty: ColType, out: &mut String) -> Result<(), AllocError>
    ensures { OnOk result (string_bytes out.new ≡ string_bytes out.old ++ type_text ty) }
{
    match ty {
        ColType::Int => out.push_str("INT"),
        ColType::Bool => out.push_str("BOOL"),
        ColType::Text(most) => {
            out.push_str("TEXT(")?;
            put_number(out, most)?;
            out.push_str(")")
        }
        ColType::NullInt => out.push_str("INT NULL"),
        ColType::NullBool => out.push_str("BOOL NULL"),
        ColType::NullText(most) => {
            out.push_str("TEXT(")?;
            put_number(out, most)?;
            out.push_str(") NULL")
        }
    }
}

#[tactic(auto, unfolding(crate::specs::Canonical::column_text))]
fn put_column(column: &Column, out: &mut String) -> Result<(), AllocError>
    ensures { OnOk result (string_bytes out.new ≡ string_bytes out.old ++ column_text column.now) }
{
    out.push_str(column.name.as_str())?;
    out.push_str(" ")?;
    put_type(column.ty, out)
}

impl Part<()> for Column {
    ghost text = { λ _ column. column_text column };

    fn put(&self, _scope: &(), out: &mut String) -> Result<(), AllocError> {
        put_column(self, out)
    }
}

/// Columns that have places, among the tables that foreign keys may name.
#[derive(Clone, Copy)]
struct Home<'a> {
    tables: &'a [Table],
    columns: &'a [Column],
}

/// One of the columns, by its place.
impl<'a> Part<Home<'a>> for u8 {
    ghost text = { λ home col. column_name home.columns.now col };

    fn put(&self, home: &Home<'a>, out: &mut String) -> Result<(), AllocError> {
        out.push_str(column_name(home.columns, *self))
    }
}

#[tactic(auto, unfolding(crate::specs::Canonical::columns_text))]
fn put_columns(home: &Home<'_>, cols: &[u8], out: &mut String) -> Result<(), AllocError>
    ensures { OnOk result (string_bytes out.new ≡ string_bytes out.old ++ columns_text home.now.columns.now cols.now) }
{
    out.push_str("(")?;
    put_separated(cols, home, ", ", out)?;
    out.push_str(")")
}

/// Puts the names of the columns at these places, from 0, behind what is there.
pub fn put_names(columns: &[Column], cols: &[u8], out: &mut String) -> Result<(), AllocError>
    ensures { OnOk result (string_bytes out.new ≡ string_bytes out.old ++ columns_text columns.now cols.now) }
{
    let home = Home {
        tables: &[],
        columns,
    };
    put_columns(&home, cols, out)
}

#[tactic(auto, unfolding(crate::specs::Canonical::limit_text))]
fn put_limit(home: &Home<'_>, limit: &Limit, out: &mut String) -> Result<(), AllocError>
    ensures { OnOk result (string_bytes out.new ≡ string_bytes out.old ++ limit_text home.now.columns.now limit.now) }
{
    out.push_str("CARDINALITY LIMIT ")?;
    put_number(out, limit.n)?;
    out.push_str(" ")?;
    put_columns(home, limit.cols.items(), out)
}

impl<'a> Part<Home<'a>> for Limit {
    ghost text = { λ home limit. limit_text home.columns.now limit };

    fn put(&self, home: &Home<'a>, out: &mut String) -> Result<(), AllocError> {
        put_limit(home, self, out)
    }
}

#[tactic(auto, unfolding(crate::specs::Canonical::foreign_text))]
fn put_foreign(home: &Home<'_>, foreign: &Foreign, out: &mut String) -> Result<(), AllocError>
    ensures { OnOk result (string_bytes out.new
        ≡ string_bytes out.old ++ foreign_text home.now.tables.now home.now.columns.now foreign.now) }
{
    out.push_str("FOREIGN KEY ")?;
    put_columns(home, foreign.cols.items(), out)?;
    out.push_str(" REFERENCES ")?;
    out.push_str(table_name(home.tables, foreign.table))
}

impl<'a> Part<Home<'a>> for Foreign {
    ghost text = { λ home foreign. foreign_text home.tables.now home.columns.now foreign };

    fn put(&self, home: &Home<'a>, out: &mut String) -> Result<(), AllocError> {
        put_foreign(home, self, out)
    }
}

#[tactic(auto, unfolding(crate::specs::Canonical::items_text))]
fn put_items(
    tables: &[Table],
    table: &Table,
    columns: &[Column],
    out: &mut String,
) -> Result<(), AllocError>
    ensures { OnOk result (string_bytes out.new
        ≡ string_bytes out.old ++ items_text tables.now (record table.now { columns = columns.now })) }
{
    let home = Home { tables, columns };
    put_separated(columns, &(), ", ", out)?;
    out.push_str(", PRIMARY KEY ")?;
    put_columns(&home, table.key.items(), out)?;
    put_each(table.limits.items(), &home, ", ", out)?;
    put_each(table.foreign.items(), &home, ", ", out)
}

/// Puts the text of the table with these columns in place of its own behind what is there.
#[tactic(auto, unfolding(crate::specs::Canonical::table_text))]
pub fn put_table(
    tables: &[Table],
    table: &Table,
    columns: &[Column],
    out: &mut String,
) -> Result<(), AllocError>
    ensures { OnOk result (string_bytes out.new
        ≡ string_bytes out.old ++ table_text tables.now (record table.now { columns = columns.now })) }
{
    out.push_str("CREATE TABLE ")?;
    out.push_str(table.name.as_str())?;
    out.push_str(" (")?;
    put_items(tables, table, columns, out)?;
    out.push_str(");")
}

/// The canonical text of a table over those before it.
pub fn print_table(alloc: Global, tables: &[Table], table: &Table) -> Result<Bytes, NoMem>
    ensures { IfOk result (λ text. text ≡ table_text tables.now table.now) }
{
    let mut text = String::new(alloc);
    put_table(tables, table, table.columns.items(), &mut text)?;
    Ok(List::from_vec(text.into_bytes()))
}
