//! A merge of lists of combinations.
ghost use Rattle.std.specs.Prelude.{◌≡◌, ◌++◌, ◌∷◌, [], length, map, take, flat_map, IfOk, OnOk};
ghost use Rattle.std.specs.List.{AllByRecursion};
ghost use Rattle.pq_schema.specs.Resolved.{IsResolved};
ghost use Rattle.pq_local_ops.specs.Lists.{AreOrdered};
ghost use Rattle.pq_scan.specs.Merging.{item_of};
ghost use Rattle.pq_sorted_join.specs.Merging.{HasPosition, RisesByPosition, placed_combo};

use pq_base::{Dir, List, NoMem};
use pq_local_ops::{code_at, places_of};
use pq_plan::Combo;
use pq_scan::{Heads, Placed};
use pq_schema::{Catalog, ColRef, Query};
use std::alloc::Global;
use std::marker::Model;

/// Lists of combinations, each in the order of positions, as one: of each list that isn't spent one head is
/// kept, in a heap. It is seen as all that the lists have, in the order of their positions, and of one
/// position that of the earlier list first.
#[derive(Drop)]
pub struct Merge {
    heads: Heads<Combo>,
}

impl Model for Merge {
    ghost use Rattle.std.specs.Prelude.{List as Items, map};
    ghost use Rattle.std.specs.BinaryHeap.{heap_items};
    ghost use Rattle.pq_base.specs.declared.value.Value.{Value as Cell};
    ghost use Rattle.pq_scan.specs.Merging.{IsMerge, item_of, merged_lists};

    ghost Value = { Items (Items (Items Cell)) };

    ghost view = { λ m. map item_of (merged_lists (heap_items m.heads.heap)) };

    ghost invariant = { λ m. IsMerge (heap_items m.heads.heap) };
}

/// Puts the combinations behind what is there, each with the code of its values at some columns.
fn add_placed(
    alloc: Global,
    cols: &[ColRef],
    dirs: &[Dir],
    combos: List<Combo>,
    all: &mut List<Placed<Combo>>,
) -> Result<(), NoMem>
    requires { length cols.now ≡ length dirs.now }
    ensures { OnOk result (all.new ≡ all.old ++ map (placed_combo cols.now dirs.now) combos) }
{
    for combo in combos.into_vec() {
        let place = code_at(alloc, &combo, cols, dirs)?;
        all.push(alloc, Placed { place, item: combo })?;
    }
    Ok(())
}

/// The combinations of all lists, one list behind the other, each with the code of its values at some columns.
#[tactic(auto, using(crate::proofs::Merging::one_list_more))]
fn all_placed(
    alloc: Global,
    cols: &[ColRef],
    dirs: &[Dir],
    lists: List<List<Combo>>,
) -> Result<List<Placed<Combo>>, NoMem>
    requires { length cols.now ≡ length dirs.now }
    ensures { IfOk result (λ all. all ≡ map (placed_combo cols.now dirs.now) (flat_map (λ list. list) lists)) }
{
    let mut all = List::new(alloc);
    for list in lists.into_vec() {
        add_placed(alloc, cols, dirs, list, &mut all)?;
    }
    Ok(all)
}

/// The items without their places.
fn items_of(alloc: Global, all: List<Placed<Combo>>) -> Result<List<Combo>, NoMem>
    ensures { IfOk result (λ combos. combos ≡ map item_of all) }
{
    let mut combos = List::new(alloc);
    for placed in all.into_vec() {
        combos.push(alloc, placed.item)?;
    }
    Ok(combos)
}

impl Merge {
    /// The merge of these lists. In each combination the position columns are there, with values that fit
    /// them, and each list rises strictly by position. The code of each position is computed once.
    pub fn over(
        alloc: Global,
        catalog: &Catalog,
        query: &Query,
        lists: List<List<Combo>>,
    ) -> Result<Merge, NoMem>
        requires resolved { IsResolved catalog.now.tables query.now }
        requires columns { AllByRecursion (AllByRecursion (HasPosition catalog.now.tables query.now)) lists }
        requires rise { AllByRecursion (RisesByPosition catalog.now.tables query.now) lists }
        ensures { IfOk result (AreOrdered catalog.now.tables query.now (flat_map (λ list. list) lists)) }
    {
        let places = places_of(alloc, catalog, query)?;
        let all = all_placed(alloc, places.cols.items(), places.dirs.items(), lists)?;
        let heads = Heads::over(alloc, all)?;
        Ok(Merge { heads })
    }

    /// The first `k` of all lists in the order of positions, at equal positions the one of the earlier list
    /// first, or all where there are fewer. The merge is spent.
    pub fn first(self, alloc: Global, k: u16) -> Result<List<Combo>, NoMem>
        ensures { IfOk result (λ first. first ≡ take k self) }
    {
        let first = self.heads.first(alloc, k as usize)?;
        items_of(alloc, first)
    }
}
