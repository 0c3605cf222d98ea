//! The groups of counters that a row leaves and that one comes into.
ghost use Rattle.std.specs.Prelude.{◌≡◌, ◌++◌, All, flat_map, map, IfOk, OnOk};
ghost use Rattle.std.specs.Option.{option_copied};
ghost use Rattle.pq_schema.specs.Counters.{IsCounterNumber};
ghost use Rattle.pq_counters.specs.Groups.{group_with, groups_at, asked_key};

use pq_base::{Bytes, List, NoMem, Row};
use pq_schema::Catalog;
use pq_tallies::move_in;
use std::alloc::Global;

/// A group of the counter with this number, by the key of its pair, that a row comes into or leaves.
#[derive(Drop)]
pub struct MovedGroup {
    pub at: Bytes,
    pub number: u16,
    pub comes: bool,
}

/// Puts the group with this key behind the others.
fn put_group(
    alloc: Global,
    comes: bool,
    number: u16,
    key: Option<Bytes>,
    groups: &mut List<MovedGroup>,
) -> Result<(), NoMem>
    ensures { OnOk result (groups.new ≡ groups.old ++ group_with comes number key) }
{
    let Some(at) = key else {
        return Ok(());
    };
    groups.push(alloc, MovedGroup { at, number, comes })
}

/// Puts the groups of the counter behind the others.
fn put_groups(
    alloc: Global,
    catalog: &Catalog,
    table: u8,
    old: Option<&Row>,
    new: Option<&Row>,
    number: u16,
    groups: &mut List<MovedGroup>,
) -> Result<(), NoMem>
    requires number { IsCounterNumber catalog.now number }
    ensures { OnOk result (groups.new ≡ groups.old
        ++ groups_at catalog.now table (option_copied old.entry) (option_copied new.entry) number) }
{
    let keys = move_in(alloc, table, old, new, number, catalog.counter(number))?;
    put_group(alloc, false, number, keys.from, groups)?;
    put_group(alloc, true, number, keys.to, groups)
}

/// The groups of the counters with these numbers, in their order.
pub(crate) fn moved_groups(
    alloc: Global,
    catalog: &Catalog,
    table: u8,
    old: Option<&Row>,
    new: Option<&Row>,
    numbers: &[u16],
) -> Result<List<MovedGroup>, NoMem>
    requires numbers { All (IsCounterNumber catalog.now) numbers.now }
    ensures { IfOk result (λ groups. groups
        ≡ flat_map (groups_at catalog.now table (option_copied old.entry) (option_copied new.entry)) numbers.now) }
{
    let mut groups = List::new(alloc);
    for number in numbers {
        put_groups(alloc, catalog, table, old, new, *number, &mut groups)?;
    }
    Ok(groups)
}

/// The keys of the groups.
pub(crate) fn asked_keys(alloc: Global, groups: &[MovedGroup]) -> Result<List<Option<Bytes>>, NoMem>
    ensures { IfOk result (λ keys. keys ≡ map asked_key groups.now) }
{
    let mut keys = List::new(alloc);
    for group in groups {
        keys.push(alloc, Some(Bytes::of_bytes(alloc, group.at.items())?))?;
    }
    Ok(keys)
}
