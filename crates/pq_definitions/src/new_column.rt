//! What an ALTER TABLE adds, or why it is refused.
ghost use Rattle.std.specs.Prelude.{IfOk, IfErr, OnErr, ◌≡◌};
ghost use Rattle.pq_base.specs.Answers.{Refuses};
ghost use Rattle.pq_schema.specs.Definitions.{new_column, AddsColumn};
ghost use Rattle.pq_schema.specs.Names.{IsAlterDef};

use crate::table_checks::{check_column, column_of};
use pq_base::Stopped;
use pq_schema::{AlterDef, Catalog};
use std::alloc::Global;

/// Adds the column behind those of its table, and answers the number of its definition, from 1. The
/// first refusal in this order: too many definitions, an unknown table, a thirty-third column, the
/// length of a text, a name that the table has, a default that does not fit. After an error the catalog
/// is as before.
#[tactic(auto, unfolding(pq_schema::specs::Definitions::new_column))]
pub fn add_column(alloc: Global, catalog: &mut Catalog, def: AlterDef) -> Result<u16, Stopped>
    requires { IsAlterDef def }
    ensures added { IfOk result (AddsColumn catalog.old def catalog.new) }
    ensures refused { IfErr result (λ stopped. Refuses stopped (new_column catalog.old def)) }
    ensures kept { OnErr result (catalog.new ≡ catalog.old) }
{
    catalog.known();
    let table = check_column(alloc, catalog, &def)?;
    let column = column_of(alloc, &def.column)?;
    catalog.push_column(alloc, table, column, def.filler)?;
    Ok(catalog.defs())
}
