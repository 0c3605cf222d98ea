//! The combinations that pass a test, and the first few.
ghost use Rattle.std.specs.Prelude.{◌≡◌, length, take, filter, IfOk, IsOkAnd};
ghost use Rattle.std.specs.List.{AllByRecursion};
ghost use Rattle.pq_base.specs.Values.{AllFit};
ghost use Rattle.pq_schema.specs.Resolved.{IsResolved};
ghost use Rattle.pq_plan.specs.Answer.{holds};
ghost use Rattle.pq_nodes.specs.Combos.{FitsTables, position_types};
ghost use Rattle.pq_local_ops.specs.Codes.{is_above};
ghost use Rattle.pq_local_ops.specs.Lists.{AreKept, ArePast, ArePart, meets_all};

use crate::position::{code_at, places_of};
use pq_base::{Dir, List, NoMem, Row, compares};
use pq_key_code::encode_key;
use pq_operands::{cell, side};
use pq_plan::Combo;
use pq_predicates::belongs_to;
use pq_schema::{Catalog, ColRef, Pred, Query};
use std::alloc::Global;

fn holds(params: &Row, combo: &Combo, pred: &Pred) -> bool
    ensures { result ≡ holds params.now combo.now pred.now }
{
    compares(
        pred.op,
        cell(combo, pred.left),
        side(params, combo, &pred.right),
    )
}

/// Whether the predicates that belong to the relation hold.
fn is_match(query: &Query, params: &Row, rel: u8, combo: &Combo) -> bool
    ensures { result ≡ meets_all query.now params.now rel combo.now }
{
    query
        .preds
        .items()
        .iter()
        .filter(|pred| belongs_to(pred) == rel)
        .all(|pred| holds(params, combo, pred))
}

/// The combinations at which the predicates hold that belong to the relation, in their order. It takes no
/// memory.
pub fn keep_matching(
    query: &Query,
    params: &Row,
    rel: u8,
    combos: List<Combo>,
) -> Result<List<Combo>, NoMem>
    ensures kept { IsOkAnd result (AreKept query.now params.now rel combos) }
    ensures part { IsOkAnd result (ArePart combos) }
{
    let mut kept = combos.into_vec();
    kept.retain(|combo| is_match(query, params, rel, combo));
    Ok(List::from_vec(kept))
}

/// The combinations whose values at some columns have a code above this one, in their order.
fn keep_above(
    alloc: Global,
    cols: &[ColRef],
    dirs: &[Dir],
    code: &[u8],
    combos: List<Combo>,
) -> Result<List<Combo>, NoMem>
    requires { length cols.now ≡ length dirs.now }
    ensures { IfOk result (λ kept. kept ≡ filter (is_above cols.now dirs.now code.now) combos) }
{
    let mut kept = List::with_room(alloc, combos.items().len())?;
    for combo in combos.into_vec() {
        let at = code_at(alloc, &combo, cols, dirs)?;
        if code.cmp(at.items()).is_lt() {
            kept.push(alloc, combo)?;
        }
    }
    Ok(kept)
}

/// The combinations strictly after a position, in their order.
pub fn keep_after(
    alloc: Global,
    catalog: &Catalog,
    query: &Query,
    after: &Row,
    combos: List<Combo>,
) -> Result<List<Combo>, NoMem>
    requires resolved { IsResolved catalog.now.tables query.now }
    requires after { AllFit (position_types catalog.now.tables query.now) after.now }
    requires fit { AllByRecursion (FitsTables catalog.now.tables query.now (length query.now.relations)) combos }
    ensures kept { IfOk result (ArePast catalog.now.tables query.now after.now combos) }
    ensures part { IfOk result (ArePart combos) }
{
    let places = places_of(alloc, catalog, query)?;
    let code = encode_key(alloc, after, places.dirs.items())?;
    keep_above(
        alloc,
        places.cols.items(),
        places.dirs.items(),
        code.items(),
        combos,
    )
}

/// The first k combinations. It takes no memory.
pub fn first_k(combos: List<Combo>, k: u16) -> List<Combo>
    ensures first { result ≡ take k combos }
    ensures part { ArePart combos result }
{
    let mut first = combos;
    if first.items().len() > k as usize {
        first.truncate(k as usize);
    }
    first
}
