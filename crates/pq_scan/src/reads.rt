//! What the pairs of an input's range give.
ghost use Rattle.std.specs.Prelude.{◌≡◌, ◌≤◌, List, Option, All, map, length, IfOk, IfErr, IfSome, OnOk};
ghost use Rattle.std.specs.List.{AllByRecursion};
ghost use Rattle.pq_base.specs.declared.value.Value.{Value};
ghost use Rattle.pq_store.specs.Content.{entry};
ghost use Rattle.pq_calls.specs.World.{where_told};
ghost use Rattle.pq_entries.specs.Entries.{IsSequence, OfEachRange, IsUnread, OneShows, TellsPair, key_front};
ghost use Rattle.pq_nodes.specs.Operators.{ShowsRead};
ghost use Rattle.pq_scan.specs.Asked.{AddsHeld};
ghost use Rattle.pq_scan.specs.Candidates.{scanned_table, AreHeldWithin, AreFirst, IsHeld};
ghost use Rattle.pq_scan.specs.Forms.{form_of};
ghost use Rattle.pq_scan.specs.Prepared.{IsPrepared};

use crate::candidates::{Candidate, add_candidates};
use crate::forms::PlaceForm;
use crate::prepared::Scan;
use pq_base::{List, Row};
use pq_entries::{rows_in, values_read};
use pq_schema::Access;
use pq_store::{Broke, Pair};
use std::alloc::Global;

/// What is kept of the rows of a range, from its pairs.
fn held_in(alloc: Global, scan: &Scan<'_>, pairs: &[Pair]) -> Result<List<Row>, Broke>
    requires sound { IsPrepared scan.now }
    requires sequence { IsSequence scan.now.catalog.now.tables scan.now.number scan.now.access }
    requires front { All (λ pair. length (key_front 0 scan.now.access) ≤ length pair.key) pairs.now }
    ensures cause { IfErr result (λ why. OfEachRange scan.now.number scan.now.access pairs.now
        (λ told low high limit. IsUnread (where_told (ShowsRead scan.now.catalog.now.tables) told) why)) }
    ensures tells { IfErr result (IsUnread (OneShows TellsPair (map entry pairs.now))) }
    ensures long { IfOk result (λ held. length held ≡ length pairs.now) }
    ensures fit { IfOk result (λ held. OfEachRange scan.now.number scan.now.access pairs.now
        (λ told low high limit. AllByRecursion (IsHeld scan.now told) held)) }
    ensures within { IfOk result (λ held. OfEachRange scan.now.number scan.now.access pairs.now
        (λ told low high limit. IfSome told
        (AreHeldWithin scan.now.number (scanned_table scan.now) scan.now.access low high limit held))) }
    ensures first { IfOk result (λ held. OfEachRange scan.now.number scan.now.access pairs.now
        (λ told low high limit. IfSome told
        (AreFirst scan.now.number (scanned_table scan.now) scan.now.access low high limit held))) }
{
    match scan.access {
        Access::Primary => rows_in(alloc, scan.catalog, scan.number, pairs),
        Access::Secondary(index) => values_read(
            alloc,
            scan.catalog,
            scan.number,
            Access::Secondary(index),
            scan.types.items(),
            scan.dirs.items(),
            pairs,
        ),
    }
}

/// Adds what a scan finds for an input whose positions have this form, from the pairs of its range.
pub(crate) fn add_found(
    alloc: Global,
    scan: &Scan<'_>,
    form: &PlaceForm,
    input: usize,
    pairs: &[Pair],
    found: &mut List<Candidate>,
) -> Result<(), Broke>
    requires sound { IsPrepared scan.now }
    requires sequence { IsSequence scan.now.catalog.now.tables scan.now.number scan.now.access }
    requires front { All (λ pair. length (key_front 0 scan.now.access) ≤ length pair.key) pairs.now }
    ensures cause { IfErr result (λ why. OfEachRange scan.now.number scan.now.access pairs.now
        (λ told low high limit. IsUnread (where_told (ShowsRead scan.now.catalog.now.tables) told) why)) }
    ensures tells { IfErr result (IsUnread (OneShows TellsPair (map entry pairs.now))) }
    ensures adds { OnOk result ((constants : List (Option Value)) → form.now ≡ form_of constants scan.now.position_dirs
        → AddsHeld scan.now constants input pairs.now found.old found.new) }
{
    if pairs.is_empty() {
        return Ok(());
    }
    let held = held_in(alloc, scan, pairs)?;
    add_candidates(alloc, scan, form, input, held, found)?;
    Ok(())
}
