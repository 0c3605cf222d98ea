//! Values for columns: which columns have one, and whether it fits.
ghost use Rattle.std.specs.Prelude.{◌≡◌, ◌≤◌, length};
ghost use Rattle.pq_base.specs.Answers.{Passes};
ghost use Rattle.pq_schema.specs.Definitions.{refused_if};
ghost use Rattle.pq_index_keep.specs.Checking.{are_among, misfit_refusal, named_type};
ghost use Rattle.pq_index_keep.specs.Sound.{is_among};

use pq_base::{ColType, PText, Refusal, Stopped, Value, fits};
use pq_schema::{Table, place_of, type_at};
use std::alloc::Global;

pub(crate) fn is_among(cols: &[u8], col: u8) -> bool
    ensures { result ≡ is_among cols.now col }
{
    cols.iter().any(|other| *other == col)
}

/// Whether each of the columns is among the others.
pub(crate) fn are_among(cols: &[u8], others: &[u8]) -> bool
    ensures { result ≡ are_among cols.now others.now }
{
    cols.iter().all(|col| is_among(others, *col))
}

/// The type of the column that has the name.
pub(crate) fn named_type(table: &Table, name: &PText) -> ColType
    requires { length table.now.columns ≤ 32 }
    ensures { result ≡ named_type table.now name.now }
{
    let col = place_of(table.columns.items(), name) as u8;
    type_at(table.columns.items(), col)
}

/// Refuses the columns of a statement where they are wrong.
pub(crate) fn refuse_columns(alloc: Global, table: &Table, wrong: bool) -> Result<(), Stopped>
    ensures { Passes result (refused_if wrong (Refusal.WrongColumns table.now.name)) }
{
    if wrong {
        let table = table.name.copy(alloc)?;
        return Err(Stopped::Refused(Refusal::WrongColumns { table }));
    }
    Ok(())
}

/// Refuses the first value that doesn't fit its column.
pub(crate) fn check_fit(
    alloc: Global,
    table: &Table,
    names: &[PText],
    places: &[u8],
    values: &[Value],
) -> Result<(), Stopped>
    ensures { Passes result (misfit_refusal table.now names.now places.now values.now) }
{
    match (
        names.split_first(),
        places.split_first(),
        values.split_first(),
    ) {
        (Some((name, names)), Some((place, places)), Some((value, values))) => {
            if fits(value, type_at(table.columns.items(), *place)) {
                check_fit(alloc, table, names, places, values)
            } else {
                let column = name.copy(alloc)?;
                let table = table.name.copy(alloc)?;
                Err(Stopped::Refused(Refusal::ValueKind { table, column }))
            }
        }
        _ => Ok(()),
    }
}
