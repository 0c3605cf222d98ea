//! Columns by name, among the relations of a query.
ghost use Rattle.std.specs.Prelude.{◌≡◌, ◌≤◌, ◌<◌, ◌++◌, IfOk, OnOk, All, filter_map, flat_map, map, length, position};
ghost use Rattle.std.specs.List.{range_with_len};
ghost use Rattle.pq_base.specs.Answers.{Answers};
ghost use Rattle.pq_query_read.specs.Columns.{HasTable, AreRelations, IsIn, has_alias, only, relation_columns, columns_at, column_named, named_in, numbers, unqualified, qualified, ref_of, type_of, all_of, refs_of, selected_of};

use crate::select::{RefDef, Selected};
use pq_base::{ColType, List, NoMem, PText, Refusal, Stopped};
use pq_schema::{Catalog, ColRef, Column, Relation, find_column, type_at};
use std::alloc::Global;

/// The columns of the relation's table, of which there are at most 32.
fn columns_of<'a>(catalog: &'a Catalog, relation: &Relation) -> &'a [Column]
    requires { HasTable catalog.now.tables relation.now }
    ensures columns { result.now ≡ relation_columns catalog.now.tables relation.now }
    ensures few { length result.now ≤ 32 }
{
    catalog.known();
    catalog.table(relation.table).columns.items()
}

/// The column of this name in the relation, which has this number.
fn column_named(catalog: &Catalog, relation: &Relation, rel: u8, name: &PText) -> Option<ColRef>
    requires { HasTable catalog.now.tables relation.now }
    ensures { result ≡ column_named catalog.now.tables name.now rel relation.now }
{
    let columns = columns_of(catalog, relation);
    match find_column(columns, name) {
        None => None,
        Some(col) => Some(ColRef {
            rel,
            col: col as u8,
        }),
    }
}

/// The column of this name, None where no relation or several have one.
fn only_named(catalog: &Catalog, relations: &[Relation], name: &PText) -> Option<ColRef>
    requires { AreRelations catalog.now.tables relations.now }
    ensures { result ≡ only (filter_map (named_in catalog.now.tables relations.now name.now)
        (numbers catalog.now.tables relations.now)) }
{
    let mut found = None;
    for (place, relation) in relations.iter().enumerate() {
        if let Some(col) = column_named(catalog, relation, place as u8 + 1, name) {
            if found.is_some() {
                return None;
            }
            found = Some(col);
        }
    }
    found
}

fn unqualified(
    alloc: Global,
    catalog: &Catalog,
    relations: &[Relation],
    name: &PText,
) -> Result<ColRef, Stopped>
    requires { AreRelations catalog.now.tables relations.now }
    ensures { Answers result (unqualified catalog.now.tables relations.now name.now) }
{
    match only_named(catalog, relations, name) {
        Some(col) => Ok(col),
        None => {
            let name = name.copy(alloc)?;
            Err(Stopped::Refused(Refusal::NoColumn { name }))
        }
    }
}

fn alias_place(relations: &[Relation], alias: &PText) -> Option<usize>
    ensures { result ≡ position (has_alias alias.now) relations.now }
{
    relations
        .iter()
        .position(|relation| relation.alias.bytes() == alias.bytes())
}

fn qualified(
    alloc: Global,
    catalog: &Catalog,
    relations: &[Relation],
    alias: &PText,
    name: &PText,
) -> Result<ColRef, Stopped>
    requires { AreRelations catalog.now.tables relations.now }
    ensures { Answers result (qualified catalog.now.tables relations.now alias.now name.now) }
{
    let Some(place) = alias_place(relations, alias) else {
        let name = alias.copy(alloc)?;
        return Err(Stopped::Refused(Refusal::Alias { name }));
    };
    match column_named(catalog, &relations[place], place as u8 + 1, name) {
        Some(col) => Ok(col),
        None => {
            let name = name.copy(alloc)?;
            Err(Stopped::Refused(Refusal::NoColumn { name }))
        }
    }
}

/// The column that is named: that of the relation with the alias, or the only one of this name.
pub fn column(
    alloc: Global,
    catalog: &Catalog,
    relations: &[Relation],
    def: &RefDef,
) -> Result<ColRef, Stopped>
    requires { AreRelations catalog.now.tables relations.now }
    ensures answer { Answers result (ref_of catalog.now.tables relations.now def.now) }
    ensures there { IfOk result (IsIn catalog.now.tables relations.now) }
{
    match &def.second {
        None => unqualified(alloc, catalog, relations, &def.first),
        Some(name) => qualified(alloc, catalog, relations, &def.first, name),
    }
}

/// The type of the column.
pub fn type_of(catalog: &Catalog, relations: &[Relation], col: ColRef) -> ColType
    requires relations { AreRelations catalog.now.tables relations.now }
    requires column { IsIn catalog.now.tables relations.now col }
    ensures { result ≡ type_of catalog.now.tables relations.now col }
{
    let columns = columns_of(catalog, &relations[col.rel as usize - 1]);
    type_at(columns, col.col)
}

/// Puts the columns of the relation of this number behind the others.
fn push_all(
    refs: &mut List<ColRef>,
    alloc: Global,
    catalog: &Catalog,
    relations: &[Relation],
    rel: u8,
) -> Result<(), NoMem>
    requires relations { AreRelations catalog.now.tables relations.now }
    requires one { 1 ≤ rel }
    requires there { rel ≤ length relations.now }
    ensures { OnOk result (refs.new ≡ refs.old ++ all_of catalog.now.tables relations.now rel) }
{
    let count = columns_of(catalog, &relations[rel as usize - 1]).len() as u8;
    for col in 0..count {
        refs.push(alloc, ColRef { rel, col })?;
    }
    Ok(())
}

/// All columns of all relations.
fn all_columns(
    alloc: Global,
    catalog: &Catalog,
    relations: &[Relation],
) -> Result<List<ColRef>, NoMem>
    requires { AreRelations catalog.now.tables relations.now }
    ensures { IfOk result (λ refs. refs
        ≡ flat_map (all_of catalog.now.tables relations.now) (numbers catalog.now.tables relations.now)) }
{
    let mut refs = List::new(alloc);
    for rel in 1..relations.len() as u8 + 1 {
        push_all(&mut refs, alloc, catalog, relations, rel)?;
    }
    Ok(refs)
}

fn named_columns(
    alloc: Global,
    catalog: &Catalog,
    relations: &[Relation],
    defs: &[RefDef],
) -> Result<List<ColRef>, Stopped>
    requires { AreRelations catalog.now.tables relations.now }
    ensures { Answers result (refs_of catalog.now.tables relations.now defs.now) }
{
    let mut refs = List::new(alloc);
    for def in defs {
        let next = column(alloc, catalog, relations, def)?;
        refs.push(alloc, next)?;
    }
    Ok(refs)
}

/// All columns of all relations, or the named ones in order, or the first refusal of one.
pub fn selected(
    alloc: Global,
    catalog: &Catalog,
    relations: &[Relation],
    def: &Selected,
) -> Result<List<ColRef>, Stopped>
    requires { AreRelations catalog.now.tables relations.now }
    ensures { Answers result (selected_of catalog.now.tables relations.now def.now) }
{
    match def {
        Selected::Star => {
            let refs = all_columns(alloc, catalog, relations)?;
            Ok(refs)
        }
        Selected::Refs(defs) => named_columns(alloc, catalog, relations, defs.items()),
    }
}
