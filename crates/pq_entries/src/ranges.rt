//! Ranges of keys of one sequence.
ghost use Rattle.std.specs.Prelude.{◌≡◌, ◌≤◌, ◌+◌, All, map, length, IfOk, IfErr, IfSome};
ghost use Rattle.std.specs.List.{AllByRecursion};
ghost use Rattle.pq_base.specs.Values.{IsType, AllFit};
ghost use Rattle.pq_schema.specs.Rows.{types_of};
ghost use Rattle.pq_schema.specs.Keys.{dirs_of};
ghost use Rattle.pq_schema.specs.Sequences.{IsAccess, sequence_of};
ghost use Rattle.pq_schema.specs.Sound.{IsTable};
ghost use Rattle.pq_schema.specs.Tables.{table_at};
ghost use Rattle.pq_store.specs.Content.{entry};
ghost use Rattle.pq_calls.specs.Calls.{Asks};
ghost use Rattle.pq_calls.specs.Keys.{sequence_types};
ghost use Rattle.pq_calls.specs.World.{Affords, where_told};
ghost use Rattle.pq_nodes.specs.Operators.{ShowsRead};
ghost use Rattle.pq_entries.specs.Entries.{IsSequence, AreEnds, OfEachRange, AreRowsWithin, AreKeysWithin, AreFirstRows, AreFirstValues, IsKeyThere, IsUnread, TellsPair, OneShows, key_front};

use crate::decode::{decoded_keys, decoded_rows};
use crate::keys::types_at;
use pq_base::{ColType, Dir, List, NoMem, Row};
use pq_calls::{Calls, types_of};
use pq_schema::{Access, Catalog, Table, dirs_of, sequence};
use pq_store::{Broke, Pair, Store};
use std::alloc::Global;
use std::sync::ledger::Ledger;

/// The table of this number.
#[tactic(auto, using(crate::proofs::Tables::sequence_table, crate::proofs::Tables::sequence_types_known))]
pub(crate) fn table_of(catalog: &Catalog, number: u8, access: Access) -> &Table
    requires { IsSequence catalog.now.tables number access }
    ensures table { result.now ≡ table_at catalog.now.tables number }
    ensures is_table { IsTable result.now }
    ensures access { IsAccess result.now access }
    ensures types { All IsType (types_of result.now) }
{
    catalog.known();
    catalog.table(number)
}

/// The rows of pairs that a range of a table's keys has.
pub fn rows_in(
    alloc: Global,
    catalog: &Catalog,
    number: u8,
    pairs: &[Pair],
) -> Result<List<Row>, Broke>
    requires sequence { IsSequence catalog.now.tables number Access.Primary }
    ensures cause { IfErr result (λ why. OfEachRange number Access.Primary pairs.now
        (λ told low high limit. IsUnread (where_told (ShowsRead catalog.now.tables) told) why)) }
    ensures tells { IfErr result (IsUnread (OneShows TellsPair (map entry pairs.now))) }
    ensures long { IfOk result (λ rows. length rows ≡ length pairs.now) }
    ensures fit { IfOk result (AllByRecursion (AllFit (types_of (table_at catalog.now.tables number)))) }
    // Over any content that is told, no pair is passed over.
    ensures codes { IfOk result (λ rows. OfEachRange number Access.Primary pairs.now (λ told low high limit.
        IfSome told (AreRowsWithin (table_at catalog.now.tables number) low high limit rows))) }
    ensures answer { IfOk result (λ rows. OfEachRange number Access.Primary pairs.now (λ told low high limit.
        IfSome told (AreFirstRows number (table_at catalog.now.tables number) low high limit rows))) }
{
    let table = table_of(catalog, number, Access::Primary);
    let types = types_of(alloc, table)?;
    decoded_rows(alloc, types.items(), &table.fillers, pairs)
}

/// The rows of a table between two keys, by rising key, the first `limit` of them: one operation, and an
/// entry for each.
pub fn range_rows<S: Store<L>, L: Ledger>(
    alloc: Global,
    catalog: &Catalog,
    number: u8,
    low: &[u8],
    high: &[u8],
    limit: u32,
    calls: &mut Calls<S, L>,
) -> Result<List<Row>, Broke>
    requires sequence { IsSequence catalog.now.tables number Access.Primary }
    requires ends { AreEnds number Access.Primary low.now high.now }
    requires limit { 1 ≤ limit }
    requires share { Affords calls.old.allowance.now 1 limit }
    ensures asks { Asks S.Store (where_told (ShowsRead catalog.now.tables)) calls.old calls.new 1 limit 1 result }
    ensures few { IfOk result (λ rows. length rows ≤ limit) }
    ensures fit { IfOk result (AllByRecursion (AllFit (types_of (table_at catalog.now.tables number)))) }
    // Over any content that is told, no pair is passed over.
    ensures codes { IfOk result (λ rows. IfSome (S.content calls.old.store.now)
        (AreRowsWithin (table_at catalog.now.tables number) low.now high.now limit rows)) }
    ensures answer { IfOk result
        (λ rows. IfSome (S.content calls.old.store.now)
        (AreFirstRows number (table_at catalog.now.tables number) low.now high.now limit rows)) }
{
    let pairs = calls.range(alloc, low, high, limit)?;
    rows_in(alloc, catalog, number, pairs.items())
}

/// What the values of a sequence's keys are read by: their types and directions.
#[derive(Drop)]
struct KeyShape {
    types: List<ColType>,
    dirs: List<Dir>,
}

fn key_shape(alloc: Global, table: &Table, access: Access) -> Result<KeyShape, NoMem>
    requires table { IsTable table.now }
    requires access { IsAccess table.now access }
    ensures types { IfOk result (λ shape. shape.types ≡ sequence_types table.now access) }
    ensures dirs { IfOk result (λ shape. shape.dirs ≡ dirs_of (sequence_of table.now access)) }
{
    let parts = sequence(alloc, table, access)?;
    Ok(KeyShape {
        types: types_at(alloc, table.columns.items(), parts.items())?,
        dirs: dirs_of(alloc, parts.items())?,
    })
}

/// How many bytes stand before the values in the keys of a sequence.
fn front_len(access: Access) -> usize
    ensures { result ≡ length (key_front 0 access) }
{
    match access {
        Access::Primary => 2,
        Access::Secondary(_) => 3,
    }
}

/// The values of the keys of pairs that a range of a sequence's keys has, by their types and directions.
pub fn values_read(
    alloc: Global,
    catalog: &Catalog,
    number: u8,
    access: Access,
    types: &[ColType],
    dirs: &[Dir],
    pairs: &[Pair],
) -> Result<List<Row>, Broke>
    requires sequence { IsSequence catalog.now.tables number access }
    requires types { types.now ≡ sequence_types (table_at catalog.now.tables number) access }
    requires dirs { dirs.now ≡ dirs_of (sequence_of (table_at catalog.now.tables number) access) }
    requires front { All (λ pair. length (key_front 0 access) ≤ length pair.key) pairs.now }
    ensures cause { IfErr result (λ why. OfEachRange number access pairs.now
        (λ told low high limit. IsUnread (where_told (ShowsRead catalog.now.tables) told) why)) }
    ensures tells { IfErr result (IsUnread (OneShows TellsPair (map entry pairs.now))) }
    ensures long { IfOk result (λ found. length found ≡ length pairs.now) }
    ensures fit { IfOk result (AllByRecursion (AllFit (sequence_types (table_at catalog.now.tables number) access))) }
    ensures there { IfOk result (λ found. OfEachRange number access pairs.now (λ told low high limit.
        AllByRecursion (IsKeyThere number (table_at catalog.now.tables number) access told) found)) }
    // Over any content that is told, no pair is passed over.
    ensures keys { IfOk result (λ found. OfEachRange number access pairs.now (λ told low high limit.
        IfSome told (AreKeysWithin number (table_at catalog.now.tables number) access low high limit found))) }
    ensures answer { IfOk result (λ found. OfEachRange number access pairs.now (λ told low high limit.
        IfSome told (AreFirstValues number (table_at catalog.now.tables number) access low high limit found))) }
{
    decoded_keys(alloc, types, dirs, front_len(access), pairs)
}

/// The values of the keys of pairs that a range of a sequence's keys has.
pub fn values_in(
    alloc: Global,
    catalog: &Catalog,
    number: u8,
    access: Access,
    pairs: &[Pair],
) -> Result<List<Row>, Broke>
    requires sequence { IsSequence catalog.now.tables number access }
    requires front { All (λ pair. length (key_front 0 access) ≤ length pair.key) pairs.now }
    ensures cause { IfErr result (λ why. OfEachRange number access pairs.now
        (λ told low high limit. IsUnread (where_told (ShowsRead catalog.now.tables) told) why)) }
    ensures tells { IfErr result (IsUnread (OneShows TellsPair (map entry pairs.now))) }
    ensures long { IfOk result (λ found. length found ≡ length pairs.now) }
    ensures fit { IfOk result (AllByRecursion (AllFit (sequence_types (table_at catalog.now.tables number) access))) }
    ensures there { IfOk result (λ found. OfEachRange number access pairs.now (λ told low high limit.
        AllByRecursion (IsKeyThere number (table_at catalog.now.tables number) access told) found)) }
    // Over any content that is told, no pair is passed over.
    ensures keys { IfOk result (λ found. OfEachRange number access pairs.now (λ told low high limit.
        IfSome told (AreKeysWithin number (table_at catalog.now.tables number) access low high limit found))) }
    ensures answer { IfOk result (λ found. OfEachRange number access pairs.now (λ told low high limit.
        IfSome told (AreFirstValues number (table_at catalog.now.tables number) access low high limit found))) }
{
    let shape = key_shape(alloc, table_of(catalog, number, access), access)?;
    values_read(
        alloc,
        catalog,
        number,
        access,
        shape.types.items(),
        shape.dirs.items(),
        pairs,
    )
}

/// The values of a sequence's keys between two keys, by rising key, those of the first `limit` of them: one
/// operation, and an entry for each.
pub fn range_values<S: Store<L>, L: Ledger>(
    alloc: Global,
    catalog: &Catalog,
    number: u8,
    access: Access,
    low: &[u8],
    high: &[u8],
    limit: u32,
    calls: &mut Calls<S, L>,
) -> Result<List<Row>, Broke>
    requires sequence { IsSequence catalog.now.tables number access }
    requires ends { AreEnds number access low.now high.now }
    requires limit { 1 ≤ limit }
    requires share { Affords calls.old.allowance.now 1 limit }
    ensures asks { Asks S.Store (where_told (ShowsRead catalog.now.tables)) calls.old calls.new 1 limit 1 result }
    ensures few { IfOk result (λ found. length found ≤ limit) }
    ensures fit { IfOk result (AllByRecursion (AllFit (sequence_types (table_at catalog.now.tables number) access))) }
    ensures there { IfOk result (AllByRecursion
        (IsKeyThere number (table_at catalog.now.tables number) access (S.content calls.old.store.now))) }
    // Over any content that is told, no pair is passed over.
    ensures keys { IfOk result (λ found. IfSome (S.content calls.old.store.now)
        (AreKeysWithin number (table_at catalog.now.tables number) access low.now high.now limit found)) }
    ensures answer { IfOk result
        (λ found. IfSome (S.content calls.old.store.now)
        (AreFirstValues number (table_at catalog.now.tables number) access low.now high.now limit found)) }
{
    let pairs = calls.range(alloc, low, high, limit)?;
    values_in(alloc, catalog, number, access, pairs.items())
}
