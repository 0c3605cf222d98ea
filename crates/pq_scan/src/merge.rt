//! A merge of lists that rise by position, by a heap of their heads.
ghost use Rattle.std.specs.Prelude.{◌≡◌, ◌++◌, ◌∷◌, [], refl, map, take, IsPermutation, IfOk, OnOk, OnErr};
ghost use Rattle.std.specs.BinaryHeap.{heap_items};
ghost use Rattle.std.specs.Cmp.{eq_by_cmp_equiv, partial_equiv_from_equiv, partial_order_from_total};
ghost use Rattle.std.specs.List.{AllByRecursion};
ghost use Rattle.std.specs.Ordering.{eq_by_cmp, as_partial_cmp};
ghost use Rattle.pq_base.specs.Sorting.{sort_by};
ghost use Rattle.pq_store.specs.Content.{key_cmp};
ghost use Rattle.pq_scan.specs.Merging.{place_of, turn_of, turn_cmp, head_cmp, head_total, numbered_from, numbered_items, waiting_heads, IsRisingList, IsMerge, merged_lists, PutsBack, GivesNext};

use pq_base::{Bytes, List, NoMem};
use std::alloc::Global;
use std::cmp::Ordering;
use std::collections::BinaryHeap;

/// An item, and the code of its position.
#[derive(Drop)]
pub struct Placed<T> {
    /// The code of the position, whose bytes are ordered as positions are.
    pub place: Bytes,
    /// What stands there.
    pub item: T,
}

/// A placed item, and its number among all that were given, from 0.
#[derive(Drop)]
pub(crate) struct Numbered<T> {
    pub placed: Placed<T>,
    pub number: usize,
}

impl<T> Numbered<T> {
    /// By position, and at one position by number.
    fn turn(&self, other: &Numbered<T>) -> Ordering
        ensures { result ≡ turn_cmp (turn_of self.now) (turn_of other.now) }
    {
        self.placed
            .place
            .items()
            .cmp(other.placed.place.items())
            .then(self.number.cmp(&other.number))
    }
}

/// A list that rises and isn't empty: its head, and what is behind it, the next one last.
#[derive(Drop)]
pub(crate) struct Rising<T> {
    pub head: Numbered<T>,
    pub behind: Vec<Numbered<T>>,
}

impl<T> PartialEq for Rising<T> {
    ghost eq = { eq_by_cmp head_cmp };

    ghost laws = { partial_equiv_from_equiv (eq_by_cmp_equiv head_total) };

    fn eq(&self, other: &Rising<T>) -> bool {
        self.cmp(other).is_eq()
    }
}

impl<T> Eq for Rising<T> {
    ghost laws = { eq_by_cmp_equiv head_total };
}

impl<T> PartialOrd for Rising<T> {
    ghost partial_cmp = { as_partial_cmp head_cmp };

    ghost laws = { partial_order_from_total head_total };

    fn partial_cmp(&self, other: &Rising<T>) -> Option<Ordering> {
        Some(self.cmp(other))
    }
}

/// The list whose head comes first is the greatest: a heap gives the greatest first.
impl<T> Ord for Rising<T> {
    ghost cmp = { head_cmp };

    ghost total = { head_total };

    ghost matches_partial_cmp = { λ x y. refl };

    ghost matches_eq = { λ x y. refl };

    fn cmp(&self, other: &Rising<T>) -> Ordering {
        other.head.turn(&self.head)
    }
}

/// Puts one before a list where it may stand there, and else sets the list aside and begins one with it.
fn put_before<T: Drop>(
    item: Numbered<T>,
    list: Rising<T>,
    alloc: Global,
    lists: &mut Vec<Rising<T>>,
) -> Result<Rising<T>, NoMem>
    requires rises { IsRisingList list }
    requires all_rise { AllByRecursion IsRisingList lists.old.items }
    ensures rises { IfOk result IsRisingList }
    ensures all_rise { OnOk result (AllByRecursion IsRisingList lists.new.items) }
    ensures same { IfOk result (λ made. IsPermutation (item ∷ (numbered_items list ++ waiting_heads lists.old.items))
        (numbered_items made ++ waiting_heads lists.new.items)) }
{
    if item.turn(&list.head).is_gt() {
        lists.push(list)?;
        return Ok(Rising {
            head: item,
            behind: Vec::new(alloc),
        });
    }
    let Rising { head, mut behind } = list;
    behind.push(head)?;
    Ok(Rising { head: item, behind })
}

/// Cuts what is given where it falls: lists that rise, as few as there can be. Of lists that rise, one
/// behind the other, it makes at most one each.
fn rising_lists<T: Drop>(alloc: Global, mut found: Vec<Placed<T>>) -> Result<Vec<Rising<T>>, NoMem>
    ensures rise { IfOk result (λ lists. AllByRecursion IsRisingList lists.items) }
    ensures same { IfOk result (λ lists. IsPermutation (numbered_from 0 found.items) (waiting_heads lists.items)) }
{
    let mut lists = Vec::new(alloc);
    let Some(placed) = found.pop() else {
        return Ok(lists);
    };
    let mut list = Rising {
        head: Numbered {
            placed,
            number: found.len(),
        },
        behind: Vec::new(alloc),
    };
    while let Some(placed) = found.pop() {
        let number = found.len();
        list = put_before(Numbered { placed, number }, list, alloc, &mut lists)?;
    }
    lists.push(list)?;
    Ok(lists)
}

// Most pages have no more items than this.
const PAGE_ROOM: usize = 16;

/// A merge: of each list that isn't spent its head stands in the heap.
#[derive(Drop)]
pub struct Heads<T> {
    heap: BinaryHeap<Rising<T>>,
}

impl<T: Drop> Heads<T> {
    /// The merge of lists, one behind the other. It compares each item with the one behind it, to find where
    /// a list ends, and makes a heap of the lists in linear time.
    pub fn over(alloc: Global, found: List<Placed<T>>) -> Result<Heads<T>, NoMem>
        ensures ready { IfOk result (λ heads. IsMerge (heap_items heads.heap)) }
        ensures merged { IfOk result (λ heads.
            merged_lists (heap_items heads.heap) ≡ sort_by key_cmp place_of found) }
    {
        let lists = rising_lists(alloc, found.into_vec())?;
        Ok(Heads {
            heap: BinaryHeap::from(lists),
        })
    }

    /// Puts back what is left of a list.
    fn put_back(&mut self, mut list: Vec<Numbered<T>>) -> Result<(), NoMem>
        ensures heap { OnOk result (PutsBack list.items (heap_items self.old.heap) (heap_items self.new.heap)) }
    {
        if let Some(head) = list.pop() {
            self.heap.push(Rising { head, behind: list })?;
        }
        Ok(())
    }

    /// Takes the next one; `None` where all lists are spent.
    fn next(&mut self) -> Result<Option<Placed<T>>, NoMem>
        requires { IsMerge (heap_items self.old.heap) }
        ensures ready { OnOk result (IsMerge (heap_items self.new.heap)) }
        ensures next { IfOk result (GivesNext (merged_lists (heap_items self.old.heap))
            (merged_lists (heap_items self.new.heap))) }
    {
        let Some(Rising { head, behind }) = self.heap.pop() else {
            return Ok(None);
        };
        self.put_back(behind)?;
        Ok(Some(head.placed))
    }

    /// The first of the merge, at most `k`: by position, and of one position the one given earlier. Each
    /// takes one pop and one push on a heap of as many lists as are left. The merge is spent.
    pub fn first(mut self, alloc: Global, k: usize) -> Result<List<Placed<T>>, NoMem>
        requires { IsMerge (heap_items self.heap) }
        ensures { IfOk result (λ first. first ≡ take k (merged_lists (heap_items self.heap))) }
    {
        let mut first = List::with_room(alloc, k.min(PAGE_ROOM))?;
        for _ in 0..k {
            let Some(placed) = self.next()? else {
                return Ok(first);
            };
            first.push(alloc, placed)?;
        }
        Ok(first)
    }
}
