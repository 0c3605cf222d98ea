//! What refuses a CREATE TABLE and an ALTER TABLE, in the written order.
ghost use Rattle.std.specs.Prelude.{◌≡◌, ◌≤◌, ◌||◌, length, map, find, option_map, Some, IfOk};
ghost use Rattle.std.specs.List.{list_all};
ghost use Rattle.pq_base.specs.Answers.{Passes};
ghost use Rattle.pq_base.specs.Values.{FitsType};
ghost use Rattle.pq_schema.specs.ColumnNames.{place_of, places_of};
ghost use Rattle.pq_schema.specs.Definitions.{text_size, cardinality, with_null, plain_column_type, column_type, has_type, column_of, is_outside, room_refusal, definition_refusal, name_refusal, counts_refusal, columns_refusal, is_nullable_name, nullable_refusal, key_refusal, limit_refusal, limits_refusal, reference_refusal, foreign_refusal, foreigns_refusal, groups_refusal, table_refusal, added_refusal, column_refusal};
ghost use Rattle.pq_schema.specs.Schema.{find_table};
ghost use Rattle.pq_schema.specs.Tables.{type_at, types_at, same_kinds};

use pq_base::{ColType, List, NoMem, PText, Refusal, Stopped, count_word, fits};
use pq_schema::{
    AlterDef, Catalog, Column, ColumnDef, ForeignDef, LimitDef, Table, TableDef, check_names,
    check_repeated, find_column, names_of, place_of, same_kind, type_at,
};
use std::alloc::Global;

/// The greatest number of a table's columns.
const COLUMNS: usize = 32;

/// The greatest number of tables.
pub const TABLES: usize = 64;

/// The greatest number of definitions: tables, queries, added columns and counters together.
pub const DEFINITIONS: usize = 256;

pub(crate) fn counted(word: u8) -> Stopped
    ensures { result ≡ Stopped.Refused (Refusal.Count word) }
{
    Stopped::Refused(Refusal::Count { word })
}

/// n of TEXT(n), where it is from 1 to 1,000.
fn text_size(size: i64) -> Option<u16>
    ensures { result ≡ text_size size }
{
    if 1 <= size && size <= 1000 {
        Some(size as u16)
    } else {
        None
    }
}

/// n of a limit, where it is from 1 to 10,000.
pub(crate) fn cardinality(n: i64) -> Option<u32>
    ensures { result ≡ cardinality n }
{
    if 1 <= n && n <= 10000 {
        Some(n as u32)
    } else {
        None
    }
}

/// The type, with NULL where the column is nullable.
fn with_null(nullable: bool, ty: ColType) -> ColType
    ensures { result ≡ with_null nullable ty }
{
    if !nullable {
        return ty;
    }
    match ty {
        ColType::Int | ColType::NullInt => ColType::NullInt,
        ColType::Bool | ColType::NullBool => ColType::NullBool,
        ColType::Text(most) | ColType::NullText(most) => ColType::NullText(most),
    }
}

/// The type, None where a text's length is outside its limit.
fn type_of(def: &ColumnDef) -> Option<ColType>
    ensures { result ≡ column_type def.now }
{
    match plain_type_of(def) {
        Some(ty) => Some(with_null(def.nullable, ty)),
        None => None,
    }
}

fn plain_type_of(def: &ColumnDef) -> Option<ColType>
    ensures { result ≡ plain_column_type def.now }
{
    if def.kind.bytes() == b"INT".as_slice() {
        Some(ColType::Int)
    } else if def.kind.bytes() == b"BOOL".as_slice() {
        Some(ColType::Bool)
    } else {
        match text_size(def.size) {
            Some(size) => Some(ColType::Text(size)),
            None => None,
        }
    }
}

fn have_types(columns: &[ColumnDef]) -> bool
    ensures { result ≡ list_all has_type columns.now }
{
    columns.iter().all(|column| type_of(column).is_some())
}

/// The column with its type.
pub(crate) fn column_of(alloc: Global, def: &ColumnDef) -> Result<Column, NoMem>
    ensures { IfOk result (λ column. column ≡ column_of def.now) }
{
    let name = def.name.copy(alloc)?;
    let ty = type_of(def).unwrap_or(ColType::Int);
    Ok(Column { name, ty })
}

/// The columns, with their types.
fn columns_of(alloc: Global, defs: &[ColumnDef]) -> Result<List<Column>, NoMem>
    ensures { IfOk result (λ columns. columns ≡ map column_of defs.now) }
{
    let mut columns = List::new(alloc);
    for def in defs {
        columns.push(alloc, column_of(alloc, def)?)?;
    }
    Ok(columns)
}

pub(crate) fn is_outside(count: usize, most: usize) -> bool
    ensures { result ≡ is_outside count most }
{
    count < 1 || most < count
}

/// The type of the column of this name.
fn named_type(columns: &[Column], name: &PText) -> ColType
    ensures { result ≡ type_at columns.now (place_of columns.now name.now) }
{
    match columns.get(place_of(columns, name)) {
        None => ColType::Bool,
        Some(column) => column.ty,
    }
}

/// Whether the columns are of the number and kinds of the key.
fn has_shape(columns: &[Column], names: &[PText], parent: &[Column], key: &[u8]) -> bool
    ensures { result ≡ same_kinds (types_at columns.now (places_of columns.now names.now))
        (types_at parent.now key.now) }
{
    match (names.split_first(), key.split_first()) {
        (None, None) => true,
        (Some((name, names)), Some((col, key))) => {
            same_kind(named_type(columns, name), type_at(parent, *col))
                && has_shape(columns, names, parent, key)
        }
        _ => false,
    }
}

/// Refuses a definition too many.
fn check_room(catalog: &Catalog) -> Result<(), Stopped>
    ensures { Passes result (room_refusal catalog.now) }
{
    if usize::from(catalog.defs()) >= DEFINITIONS {
        return Err(counted(count_word::DEFINITIONS));
    }
    Ok(())
}

/// Refuses a definition too many, and a name that is taken.
pub(crate) fn check_definition(
    alloc: Global,
    catalog: &Catalog,
    name: &PText,
) -> Result<(), Stopped>
    ensures { Passes result (definition_refusal catalog.now name.now) }
{
    check_room(catalog)?;
    if catalog.is_taken(name) {
        let name = name.copy(alloc)?;
        return Err(Stopped::Refused(Refusal::NameTaken { name }));
    }
    Ok(())
}

/// Refuses a definition or a table too many, and a name that is taken.
fn check_name(alloc: Global, catalog: &Catalog, name: &PText) -> Result<(), Stopped>
    ensures { Passes result (name_refusal catalog.now name.now) }
{
    check_definition(alloc, catalog, name)?;
    if catalog.tables().len() >= TABLES {
        return Err(counted(count_word::TABLES));
    }
    Ok(())
}

/// Refuses no column, and a column, a limit or a foreign key too many.
fn check_counts(def: &TableDef) -> Result<(), Stopped>
    ensures { Passes result (counts_refusal def.now) }
{
    if is_outside(def.columns.items().len(), COLUMNS) {
        return Err(counted(count_word::COLUMNS));
    }
    if 4 < def.limits.items().len() {
        return Err(counted(count_word::LIMITS));
    }
    if 4 < def.foreign.items().len() {
        return Err(counted(count_word::FOREIGN));
    }
    Ok(())
}

/// The columns, unless a text's length is outside its limit or a name is repeated.
fn checked_columns(alloc: Global, defs: &[ColumnDef]) -> Result<List<Column>, Stopped>
    ensures passes { Passes result (columns_refusal defs.now) }
    ensures columns { IfOk result (λ columns. columns ≡ map column_of defs.now) }
{
    if !have_types(defs) {
        return Err(counted(count_word::TEXT));
    }
    let columns = columns_of(alloc, defs)?;
    let names = names_of(alloc, columns.items())?;
    check_repeated(alloc, names.items())?;
    Ok(columns)
}

fn is_nullable_name(columns: &[Column], name: &PText) -> bool
    ensures { result ≡ is_nullable_name columns.now name.now }
{
    named_type(columns, name).is_nullable()
}

fn first_nullable<'a>(columns: &[Column], names: &'a [PText]) -> Option<&'a PText>
    ensures { option_map (λ name. name.now) result ≡ find (is_nullable_name columns.now) names.now }
{
    names.iter().find(|name| is_nullable_name(columns, name))
}

/// Refuses the first name of a nullable column.
fn check_not_nullable(alloc: Global, columns: &[Column], names: &[PText]) -> Result<(), Stopped>
    ensures { Passes result (nullable_refusal columns.now names.now) }
{
    match first_nullable(columns, names) {
        Some(name) => {
            let name = name.copy(alloc)?;
            Err(Stopped::Refused(Refusal::NullableKey { name }))
        }
        None => Ok(()),
    }
}

fn check_key(alloc: Global, columns: &[Column], key: &[PText]) -> Result<(), Stopped>
    ensures { Passes result (key_refusal columns.now key.now) }
{
    check_names(alloc, columns, key)?;
    check_not_nullable(alloc, columns, key)?;
    if is_outside(key.len(), 4) {
        return Err(counted(count_word::KEY));
    }
    Ok(())
}

fn check_limit(alloc: Global, columns: &[Column], limit: &LimitDef) -> Result<(), Stopped>
    ensures { Passes result (limit_refusal columns.now limit.now) }
{
    check_names(alloc, columns, limit.cols.items())?;
    if is_outside(limit.cols.items().len(), 4) {
        return Err(counted(count_word::LIMIT_COLUMNS));
    }
    if cardinality(limit.n).is_none() {
        return Err(counted(count_word::CARDINALITY));
    }
    Ok(())
}

fn check_limits(alloc: Global, columns: &[Column], limits: &[LimitDef]) -> Result<(), Stopped>
    ensures { Passes result (limits_refusal columns.now limits.now) }
{
    for limit in limits {
        check_limit(alloc, columns, limit)?;
    }
    Ok(())
}

/// Refuses a table that is not there, and a key of another number or other kinds of columns.
fn check_reference(
    alloc: Global,
    catalog: &Catalog,
    columns: &[Column],
    number: u8,
    foreign: &ForeignDef,
) -> Result<(), Stopped>
    ensures { Passes result (reference_refusal catalog.now columns.now number foreign.now
        (find_table catalog.now foreign.now.table)) }
{
    let Some(found) = catalog.find_table(&foreign.table) else {
        let name = foreign.table.copy(alloc)?;
        return Err(Stopped::Refused(Refusal::NoTable { name }));
    };
    let parent = catalog.table(found);
    let cols = foreign.cols.items();
    if has_shape(columns, cols, parent.columns.items(), parent.key.items()) {
        Ok(())
    } else {
        Err(Stopped::Refused(Refusal::ForeignShape { number }))
    }
}

fn check_foreign(
    alloc: Global,
    catalog: &Catalog,
    columns: &[Column],
    number: u8,
    foreign: &ForeignDef,
) -> Result<(), Stopped>
    ensures { Passes result (foreign_refusal catalog.now columns.now number foreign.now) }
{
    check_names(alloc, columns, foreign.cols.items())?;
    check_reference(alloc, catalog, columns, number, foreign)
}

fn check_foreigns(
    alloc: Global,
    catalog: &Catalog,
    columns: &[Column],
    foreign: &[ForeignDef],
) -> Result<(), Stopped>
    requires { length foreign.now ≤ 4 }
    ensures { Passes result (foreigns_refusal catalog.now columns.now 1 foreign.now) }
{
    for (place, item) in foreign.iter().enumerate() {
        check_foreign(alloc, catalog, columns, place as u8 + 1, item)?;
    }
    Ok(())
}

/// Refuses the key, then the limits, then the foreign keys.
fn check_groups(
    alloc: Global,
    catalog: &Catalog,
    columns: &[Column],
    def: &TableDef,
) -> Result<(), Stopped>
    requires { length def.now.foreign ≤ 4 }
    ensures { Passes result (groups_refusal catalog.now columns.now def.now) }
{
    check_key(alloc, columns, def.key.items())?;
    check_limits(alloc, columns, def.limits.items())?;
    check_foreigns(alloc, catalog, columns, def.foreign.items())
}

/// The columns of a definition that nothing refuses.
pub(crate) fn check_table(
    alloc: Global,
    catalog: &Catalog,
    def: &TableDef,
) -> Result<List<Column>, Stopped>
    ensures passes { Passes result (table_refusal catalog.now def.now) }
    ensures columns { IfOk result (λ columns. columns ≡ map column_of def.now.columns) }
{
    check_name(alloc, catalog, &def.name)?;
    check_counts(def)?;
    let columns = checked_columns(alloc, def.columns.items())?;
    check_groups(alloc, catalog, columns.items(), def)?;
    Ok(columns)
}

/// Refuses a thirty-third column, a text's length outside its limit, a name that the table has, and a
/// default that does not fit.
fn check_added(alloc: Global, table: &Table, def: &AlterDef) -> Result<(), Stopped>
    ensures passes { Passes result (added_refusal table.now def.now) }
    ensures fits { IfOk result (λ _. FitsType (column_of def.now.column).ty def.now.filler) }
{
    let columns = table.columns.items();
    if columns.len() >= COLUMNS {
        return Err(counted(count_word::COLUMNS));
    }
    let Some(ty) = type_of(&def.column) else {
        return Err(counted(count_word::TEXT));
    };
    if find_column(columns, &def.column.name).is_some() {
        let name = def.column.name.copy(alloc)?;
        return Err(Stopped::Refused(Refusal::Repeated { name }));
    }
    if !fits(&def.filler, ty) {
        let table = def.table.copy(alloc)?;
        let column = def.column.name.copy(alloc)?;
        return Err(Stopped::Refused(Refusal::ValueKind { table, column }));
    }
    Ok(())
}

/// The number of the table that gets a column, where nothing refuses it.
pub(crate) fn check_column(alloc: Global, catalog: &Catalog, def: &AlterDef) -> Result<u8, Stopped>
    ensures passes { Passes result (column_refusal catalog.now def.now) }
    ensures fits { IfOk result (λ _. FitsType (column_of def.now.column).ty def.now.filler) }
    ensures table { IfOk result (λ table. find_table catalog.now def.now.table ≡ Some table) }
{
    check_room(catalog)?;
    let Some(table) = catalog.find_table(&def.table) else {
        let name = def.table.copy(alloc)?;
        return Err(Stopped::Refused(Refusal::NoTable { name }));
    };
    check_added(alloc, catalog.table(table), def)?;
    Ok(table)
}
