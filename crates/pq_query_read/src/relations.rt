//! FROM: each table by its name, under its alias.
ghost use Rattle.std.specs.Prelude.{◌≡◌, All, IfOk, length};
ghost use Rattle.std.specs.List.{list_any};
ghost use Rattle.pq_base.specs.Answers.{Answers};
ghost use Rattle.pq_query_read.specs.Columns.{HasTable, has_alias};
ghost use Rattle.pq_query_read.specs.Resolving.{alias_of, relation_of, relations_of};

use crate::select::RelationDef;
use pq_base::{List, PText, Refusal, Stopped};
use pq_schema::{Catalog, Relation};
use std::alloc::Global;

/// The alias, or the table's name where none is given.
fn alias_of(def: &RelationDef) -> &PText
    ensures { result.now ≡ alias_of def.now }
{
    match &def.alias {
        Some(alias) => alias,
        None => &def.table,
    }
}

fn is_taken(relations: &[Relation], alias: &PText) -> bool
    ensures { result ≡ list_any (has_alias alias.now) relations.now }
{
    relations
        .iter()
        .any(|relation| relation.alias.bytes() == alias.bytes())
}

/// The relation behind these.
fn relation(
    alloc: Global,
    catalog: &Catalog,
    before: &[Relation],
    def: &RelationDef,
) -> Result<Relation, Stopped>
    ensures answer { Answers result (relation_of catalog.now before.now def.now) }
    ensures there { IfOk result (HasTable catalog.now.tables) }
{
    let Some(table) = catalog.find_table(&def.table) else {
        let name = def.table.copy(alloc)?;
        return Err(Stopped::Refused(Refusal::NoTable { name }));
    };
    let alias = alias_of(def).copy(alloc)?;
    if is_taken(before, &alias) {
        return Err(Stopped::Refused(Refusal::Alias { name: alias }));
    }
    Ok(Relation { table, alias })
}

/// The relations in order, or the first refusal of one.
pub fn relations(
    alloc: Global,
    catalog: &Catalog,
    defs: &[RelationDef],
) -> Result<List<Relation>, Stopped>
    ensures answer { Answers result (relations_of catalog.now defs.now) }
    ensures there { IfOk result (All (HasTable catalog.now.tables)) }
    ensures long { IfOk result (λ made. length made ≡ length defs.now) }
{
    let mut made = List::new(alloc);
    for def in defs {
        let next = relation(alloc, catalog, made.items(), def)?;
        made.push(alloc, next)?;
    }
    Ok(made)
}
