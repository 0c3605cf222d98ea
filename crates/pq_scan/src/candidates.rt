//! What a scan found, with the codes of positions.
ghost use Rattle.std.specs.Prelude.{◌≡◌, ◌++◌, map, drop, count_ones, IfOk, OnOk};
ghost use Rattle.pq_schema.specs.Rows.{cells};
ghost use Rattle.pq_schema.specs.Sequences.{columns_of};
ghost use Rattle.pq_scan.specs.Forms.{filled_code, formed_code, formed_at};

use crate::forms::{PlaceForm, blank_code, items_from, put_filled, put_filled_cells};
use crate::merge::Placed;
use crate::prepared::Scan;
use pq_base::{Bytes, List, NoMem, Row, Value};
use pq_schema::Access;
use std::alloc::Global;

/// A row, or the values of an entry, that a scan found for an input.
#[derive(Drop)]
pub(crate) struct Found {
    /// The place of its input, from 0.
    pub input: usize,
    /// The row where the primary sequence serves, and else the values of the entry.
    pub held: Row,
}

/// What a scan found, with the code of its position.
pub(crate) type Candidate = Placed<Found>;

/// The code of the position of a row.
#[tactic(auto, using(crate::proofs::Formed::cells_from))]
fn row_code(alloc: Global, scan: &Scan<'_>, form: &PlaceForm, row: &[Value]) -> Result<Bytes, NoMem>
    ensures { IfOk result (λ code. code ≡ filled_code form.now.parts form.now.behind
        (drop (count_ones scan.now.fixed) (cells (columns_of scan.now.sequence) row.now))) }
{
    let own = items_from(scan.sequence.items(), scan.fixed.count() as usize);
    let mut code = blank_code(alloc)?;
    put_filled_cells(
        alloc,
        &mut code,
        form.parts.items(),
        form.behind.items(),
        own,
        row,
    )?;
    Ok(code)
}

/// The code of the position of values of the sequence.
fn values_code(
    alloc: Global,
    scan: &Scan<'_>,
    form: &PlaceForm,
    values: &[Value],
) -> Result<Bytes, NoMem>
    ensures { IfOk result (λ code. code ≡ filled_code form.now.parts form.now.behind
        (drop (count_ones scan.now.fixed) values.now)) }
{
    let own = items_from(values, scan.fixed.count() as usize);
    let mut code = blank_code(alloc)?;
    put_filled(
        alloc,
        &mut code,
        form.parts.items(),
        form.behind.items(),
        own,
    )?;
    Ok(code)
}

/// The code of the position of what was found for an input whose positions have this form.
fn place_code(alloc: Global, scan: &Scan<'_>, form: &PlaceForm, held: &Row) -> Result<Bytes, NoMem>
    ensures { IfOk result (λ code. code ≡ formed_code scan.now form.now held.now) }
{
    match scan.access {
        Access::Primary => row_code(alloc, scan, form, held.items()),
        Access::Secondary(_) => values_code(alloc, scan, form, held.items()),
    }
}

/// Adds what was found for one input to what was found before, each with the code of its position.
pub(crate) fn add_candidates(
    alloc: Global,
    scan: &Scan<'_>,
    form: &PlaceForm,
    input: usize,
    held: List<Row>,
    found: &mut List<Candidate>,
) -> Result<(), NoMem>
    ensures { OnOk result (found.new ≡ found.old ++ map (formed_at scan.now form.now input) held) }
{
    for row in held.into_vec() {
        let place = place_code(alloc, scan, form, &row)?;
        found.push(
            alloc,
            Placed {
                place,
                item: Found { input, held: row },
            },
        )?;
    }
    Ok(())
}
