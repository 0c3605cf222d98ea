//! The combinations in the order of their positions.
ghost use Rattle.std.specs.Prelude.{◌≡◌, length, map, IfOk, OnOk};
ghost use Rattle.std.specs.List.{AllByRecursion};
ghost use Rattle.pq_base.specs.Sorting.{sort_by};
ghost use Rattle.pq_schema.specs.Resolved.{IsResolved};
ghost use Rattle.pq_store.specs.Content.{key_cmp};
ghost use Rattle.pq_nodes.specs.Combos.{FitsTables};
ghost use Rattle.pq_local_ops.specs.Lists.{AreOrdered, ArePart};
ghost use Rattle.pq_local_ops.specs.Codes.{coded_combo};

use crate::order::are_ordered;
use crate::position::{code_at, places_of};
use pq_base::{Bytes, Dir, List, NoMem};
use pq_plan::Combo;
use pq_schema::{Catalog, ColRef, Query};
use std::alloc::Global;

/// A combination, and the key code of its position, whose bytes are ordered as positions are.
#[derive(Drop)]
pub(crate) struct Coded {
    pub(crate) code: Bytes,
    pub(crate) combo: Combo,
}

/// Each combination with the code of its position, which is computed once.
fn with_codes(
    alloc: Global,
    cols: &[ColRef],
    dirs: &[Dir],
    combos: List<Combo>,
) -> Result<Vec<Coded>, NoMem>
    requires { length cols.now ≡ length dirs.now }
    ensures { IfOk result (λ items. items.items ≡ map (coded_combo cols.now dirs.now) combos) }
{
    let mut items = Vec::with_capacity(alloc, combos.items().len())?;
    for combo in combos.into_vec() {
        let code = code_at(alloc, &combo, cols, dirs)?;
        items.push(Coded { code, combo })?;
    }
    Ok(items)
}

/// Puts combinations in the order of their codes; those of one code keep their order.
fn sort_coded(items: &mut Vec<Coded>) -> Result<(), NoMem>
    ensures { OnOk result (items.new.items ≡ sort_by key_cmp (λ (item : Coded). item.code) items.old.items) }
{
    items.sort_by(|a, b| a.code.items().cmp(b.code.items()))?;
    Ok(())
}

/// The combinations without their codes.
fn combos_of(alloc: Global, items: Vec<Coded>) -> Result<List<Combo>, NoMem>
    ensures { IfOk result (λ combos. combos ≡ map (λ (item : Coded). item.combo) items.items) }
{
    let mut combos = List::with_room(alloc, items.len())?;
    for item in items {
        combos.push(alloc, item.combo)?;
    }
    Ok(combos)
}

/// The combinations in the order of their positions; those of one position keep their order. Those that are in
/// order are left as they are.
pub fn sort_combos(
    alloc: Global,
    catalog: &Catalog,
    query: &Query,
    combos: List<Combo>,
) -> Result<List<Combo>, NoMem>
    requires resolved { IsResolved catalog.now.tables query.now }
    requires fit { AllByRecursion (FitsTables catalog.now.tables query.now (length query.now.relations)) combos }
    ensures ordered { IfOk result (AreOrdered catalog.now.tables query.now combos) }
    ensures part { IfOk result (ArePart combos) }
{
    if combos.items().len() < 2 {
        return Ok(combos);
    }
    let places = places_of(alloc, catalog, query)?;
    let cols = places.cols.items();
    let dirs = places.dirs.items();
    if are_ordered(cols, dirs, combos.items()) {
        return Ok(combos);
    }
    let mut items = with_codes(alloc, cols, dirs, combos)?;
    sort_coded(&mut items)?;
    combos_of(alloc, items)
}
