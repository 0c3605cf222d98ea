//! The first sequence that serves.

ghost use Rattle.std.specs.Prelude.{◌≡◌, ◌==◌, ◌&&◌, ◌^◌, ◌<◌, ◌≤◌, length, drop, position};
ghost use Rattle.pq_schema.specs.Sound.{IsTable, AreParts, AreColumns};
ghost use Rattle.pq_index_pick.specs.Needs.{IsNeed};
ghost use Rattle.pq_schema.specs.Sequences.{then_key, columns_of, same_dir, same_parts, serves_with, serves, primary_sequence, index_sequence, serving_access};

use pq_base::{ColSet, Dir};
use pq_schema::{Access, Index, KeyPart, Table, begins, columns_in, part_at};
use smallvec::SmallVec;

/// What a stop asks of a sequence: the fixed columns first, and then the order parts, of which there are
/// at most four.
#[derive(Drop)]
pub struct Need {
    pub fixed: ColSet,
    pub order: SmallVec<KeyPart, 4>,
}

fn same_part(a: KeyPart, b: KeyPart) -> bool
    ensures { result ≡ (a.col == b.col && same_dir a.dir b.dir) }
{
    let dir = match (a.dir, b.dir) {
        (Dir::Asc, Dir::Asc) => true,
        (Dir::Desc, Dir::Desc) => true,
        (Dir::Asc, Dir::Desc) => false,
        (Dir::Desc, Dir::Asc) => false,
    };
    a.col == b.col && dir
}

/// Whether the one list of parts from a place on is the other. Each is parts and then the columns of the
/// key that are not in its set, so neither is ever built.
#[tactic(auto, using(pq_schema::proofs::Places::drop_some, pq_schema::proofs::Places::drop_none))]
fn matches(
    parts: &[KeyPart],
    set: ColSet,
    order: &[KeyPart],
    both: ColSet,
    key: &[u8],
    from: usize,
) -> bool
    requires columns { AreColumns key.now }
    requires key { length key.now ≤ 4 }
    requires order { length order.now ≤ 4 }
    requires from { from < 2 ^ 32 }
    ensures { result ≡ same_parts (drop from (then_key parts.now set key.now)) (then_key order.now both key.now) }
{
    let mut other = 0;
    'other: loop {
        let Some(b) = part_at(order, both, key, other) else {
            return part_at(parts, set, key, from + other).is_none();
        };
        let Some(a) = part_at(parts, set, key, from + other) else {
            return false;
        };
        if !same_part(a, b) {
            return false;
        }
        other += 1;
    }
}

fn serves(parts: &[KeyPart], set: ColSet, key: &[u8], fixed: ColSet, order: &[KeyPart]) -> bool
    requires parts { AreParts parts.now }
    requires order { AreParts order.now }
    requires few { length order.now ≤ 4 }
    requires key { AreColumns key.now }
    requires short { length key.now ≤ 4 }
    ensures { result ≡ serves_with key.now fixed order.now (then_key parts.now set key.now) }
{
    begins(parts, set, key, fixed)
        && matches(
            parts,
            set,
            order,
            fixed.joined(columns_in(order)),
            key,
            fixed.count() as usize,
        )
}

/// Whether the primary sequence serves.
pub fn primary_serves(table: &Table, fixed: ColSet, order: &[KeyPart]) -> bool
    requires table { IsTable table.now }
    requires order { AreParts order.now }
    requires few { length order.now ≤ 4 }
    ensures { result ≡ serves table.now fixed order.now (primary_sequence table.now) }
{
    serves(&[], ColSet::empty(), table.key.items(), fixed, order)
}

fn index_serves(table: &Table, fixed: ColSet, order: &[KeyPart], index: &Index) -> bool
    requires table { IsTable table.now }
    requires order { AreParts order.now }
    requires few { length order.now ≤ 4 }
    requires index { AreParts index.now.cols }
    ensures { result ≡ serves table.now fixed order.now (index_sequence table.now index.now) }
{
    let parts = index.cols.items();
    serves(parts, columns_in(parts), table.key.items(), fixed, order)
}

fn first_serving(table: &Table, fixed: ColSet, order: &[KeyPart]) -> Option<usize>
    requires table { IsTable table.now }
    requires order { AreParts order.now }
    requires few { length order.now ≤ 4 }
    ensures { result ≡ position (λ index. serves table.now fixed order.now (index_sequence table.now index))
        table.now.indexes }
{
    table
        .indexes
        .items()
        .iter()
        .position(|index| index_serves(table, fixed, order, index))
}

/// The primary sequence where it serves, else the first index that serves.
pub fn serving(table: &Table, need: &Need) -> Option<Access>
    requires table { IsTable table.now }
    requires need { IsNeed need.now }
    ensures { result ≡ serving_access table.now need.now.fixed need.now.order.items }
{
    let order = need.order.as_slice();
    if primary_serves(table, need.fixed, order) {
        return Some(Access::Primary);
    }
    match first_serving(table, need.fixed, order) {
        None => None,
        Some(place) => Some(Access::Secondary(place as u8 + 1)),
    }
}
