//! What stands before the text in a definition's pair: its format and its mark.
ghost use Rattle.std.specs.Prelude.{◌≡◌, ◌≤◌, length, IfOk, IsSome};
ghost use Rattle.pq_catalog.specs.Format.{format_of, last_definition, mark_of, marked_text, has_format};

use pq_base::{NoMem, PText};
use pq_builds::{BUILDING, READY};
use pq_schema::{Catalog, Definition};
use std::alloc::Global;

/// Whether a definition is ready, or the index that it made is being filled.
#[derive(Clone, Copy, PartialEq, Eq)]
pub enum Mark {
    Ready,
    Building,
}

/// The format of a table's pair.
const TABLE_FORMAT: u8 = 1;

/// The format of a query's pair.
pub const QUERY_FORMAT: u8 = 1;

/// The format of an added column's pair.
const COLUMN_FORMAT: u8 = 2;

/// The format of a counter's pair.
const COUNTER_FORMAT: u8 = 2;

/// The format of a definition's pair, by its kind.
fn format_of(definition: &Definition) -> u8
    ensures { result ≡ format_of definition.now }
{
    match definition {
        Definition::OfTable { .. } => TABLE_FORMAT,
        Definition::OfQuery { .. } => QUERY_FORMAT,
        Definition::OfColumn { .. } => COLUMN_FORMAT,
        Definition::OfCounter { .. } => COUNTER_FORMAT,
    }
}

/// The format of the last definition's pair.
pub fn last_format(catalog: &Catalog) -> u8
    requires { 1 ≤ length catalog.now.definitions }
    ensures { result ≡ format_of (last_definition catalog.now) }
{
    format_of(catalog.definition_at(catalog.defs()))
}

/// The mark behind the format. None where it is neither.
fn mark_of(value: &[u8]) -> Option<Mark>
    ensures answer { result ≡ mark_of value.now }
    ensures long { IsSome result → 2 ≤ length value.now }
{
    match value {
        [_, mark, ..] => {
            if *mark == READY {
                Some(Mark::Ready)
            } else if *mark == BUILDING {
                Some(Mark::Building)
            } else {
                None
            }
        }
        _ => None,
    }
}

/// The mark of a definition, and the text behind it.
pub fn marked_text(alloc: Global, value: &[u8]) -> Result<Option<(Mark, PText)>, NoMem>
    ensures { IfOk result (λ found. found ≡ marked_text value.now) }
{
    let Some(mark) = mark_of(value) else {
        return Ok(None);
    };
    match PText::from_bytes(alloc, &value[2..])? {
        None => Ok(None),
        Some(text) => Ok(Some((mark, text))),
    }
}

/// Whether a value has the format of the last definition's pair.
pub fn has_format(value: &[u8], catalog: &Catalog) -> bool
    requires { 1 ≤ length catalog.now.definitions }
    ensures { result ≡ has_format value.now catalog.now }
{
    match value {
        [format, ..] => *format == last_format(catalog),
        _ => false,
    }
}
