//! The names of columns: where they stand among the columns, and which of them are refused.
ghost use Rattle.std.specs.Prelude.{◌≡◌, ◌≤◌, length, find, option_map, IfOk};
ghost use Rattle.std.specs.List.{list_any};
ghost use Rattle.std.specs.Str.{bytes_eq};
ghost use Rattle.pq_base.specs.Answers.{Passes};
ghost use Rattle.pq_schema.specs.ColumnNames.{first_repeated, names_of, is_unknown, place_of, places_of, unknown_refusal, repeated_refusal, names_refusal};

use crate::table::{Column, find_column};
use pq_base::{List, NoMem, PText, Refusal, Stopped};
use std::alloc::Global;

fn is_among(name: &PText, before: &[PText]) -> bool
    ensures { result ≡ list_any (bytes_eq name.now) before.now }
{
    before.iter().any(|other| name.bytes() == other.bytes())
}

/// The first of the names that stand among the ones before them.
fn first_repeated(names: &[PText]) -> Option<&PText>
    ensures { option_map (λ name. name.now) result ≡ first_repeated names.now }
{
    for (place, name) in names.iter().enumerate() {
        if is_among(name, &names[..place]) {
            return Some(name);
        }
    }
    None
}

fn is_unknown(columns: &[Column], name: &PText) -> bool
    ensures { result ≡ is_unknown columns.now name.now }
{
    find_column(columns, name).is_none()
}

fn first_unknown<'a>(columns: &[Column], names: &'a [PText]) -> Option<&'a PText>
    ensures { option_map (λ name. name.now) result ≡ find (is_unknown columns.now) names.now }
{
    names.iter().find(|name| is_unknown(columns, name))
}

/// The names of the columns, in their order.
pub fn names_of(alloc: Global, columns: &[Column]) -> Result<List<PText>, NoMem>
    ensures { IfOk result (λ names. names ≡ names_of columns.now) }
{
    let mut names = List::with_room(alloc, columns.len())?;
    for column in columns {
        names.push(alloc, column.name.copy(alloc)?)?;
    }
    Ok(names)
}

/// The place of the column of this name, from 0, and 0 where there is none.
pub fn place_of(columns: &[Column], name: &PText) -> usize
    ensures { result ≡ place_of columns.now name.now }
{
    find_column(columns, name).unwrap_or(0)
}

/// The places of the columns of these names.
pub fn places_of(alloc: Global, columns: &[Column], names: &[PText]) -> Result<List<u8>, NoMem>
    requires { length columns.now ≤ 32 }
    ensures { IfOk result (λ places. places ≡ places_of columns.now names.now) }
{
    let mut places = List::new(alloc);
    for name in names {
        places.push(alloc, place_of(columns, name) as u8)?;
    }
    Ok(places)
}

/// Refuses the first name that no column has.
pub fn check_known(alloc: Global, columns: &[Column], names: &[PText]) -> Result<(), Stopped>
    ensures { Passes result (unknown_refusal columns.now names.now) }
{
    match first_unknown(columns, names) {
        Some(name) => {
            let name = name.copy(alloc)?;
            Err(Stopped::Refused(Refusal::NoColumn { name }))
        }
        None => Ok(()),
    }
}

/// Refuses the first name that stands among the ones before it.
pub fn check_repeated(alloc: Global, names: &[PText]) -> Result<(), Stopped>
    ensures { Passes result (repeated_refusal names.now) }
{
    match first_repeated(names) {
        Some(name) => {
            let name = name.copy(alloc)?;
            Err(Stopped::Refused(Refusal::Repeated { name }))
        }
        None => Ok(()),
    }
}

/// Refuses the first unknown name, and then the first repeated one.
pub fn check_names(alloc: Global, columns: &[Column], names: &[PText]) -> Result<(), Stopped>
    ensures { Passes result (names_refusal columns.now names.now) }
{
    check_known(alloc, columns, names)?;
    check_repeated(alloc, names)
}
