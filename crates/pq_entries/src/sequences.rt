//! The rows of a range of any sequence.
ghost use Rattle.std.specs.Prelude.{◌≡◌, ◌≤◌, ◌+◌, List, map, take, length, IfOk, IfErr, IfSome};
ghost use Rattle.std.specs.List.{AllByRecursion};
ghost use Rattle.pq_base.specs.Members.{In};
ghost use Rattle.pq_base.specs.Values.{AllFit};
ghost use Rattle.pq_base.specs.declared.value.Value.{Value};
ghost use Rattle.pq_schema.specs.Costs.{limit_cost};
ghost use Rattle.pq_schema.specs.Rows.{types_of};
ghost use Rattle.pq_schema.specs.Sequences.{index_sequence, index_numbered};
ghost use Rattle.pq_schema.specs.Tables.{table_at};
ghost use Rattle.pq_store.specs.Content.{pairs_within};
ghost use Rattle.pq_calls.specs.Calls.{Asks};
ghost use Rattle.pq_calls.specs.Keys.{sequence_types};
ghost use Rattle.pq_calls.specs.World.{Affords, where_told};
ghost use Rattle.pq_content.specs.Pairs.{Pair, HoldsRows, content_pairs};
ghost use Rattle.pq_content.specs.Tables.{Rows, values_of, rows_of};
ghost use Rattle.pq_plan.specs.Cost.{is_primary_access};
ghost use Rattle.pq_nodes.specs.Operators.{ShowsRead};
ghost use Rattle.pq_nodes.specs.Rounds.{access_rounds};
ghost use Rattle.pq_entries.specs.Entries.{IsSequence, AreEnds, AreNamedRows, AreSequenceRows, IsEntryThere, pair_of};

use crate::fetch::named_rows;
use crate::ranges::{range_rows, range_values};
use pq_base::{List, Row};
use pq_calls::Calls;
use pq_schema::{Access, Catalog};
use pq_store::{Broke, Store};
use std::alloc::Global;
use std::sync::ledger::Ledger;

/// The rows whose keys in a sequence lie between two keys, in its order, the first `limit` of them: one
/// range, and in a sequence of an index one get for each row.
pub fn sequence_rows<S: Store<L>, L: Ledger>(
    alloc: Global,
    catalog: &Catalog,
    number: u8,
    access: Access,
    low: &[u8],
    high: &[u8],
    limit: u32,
    calls: &mut Calls<S, L>,
) -> Result<List<Row>, Broke>
    requires sequence { IsSequence catalog.now.tables number access }
    requires ends { AreEnds number access low.now high.now }
    requires limit { 1 ≤ limit }
    requires share { Affords calls.old.allowance.now (limit_cost (is_primary_access access) limit).ops
        (limit_cost (is_primary_access access) limit).entries }
    ensures asks { Asks S.Store (where_told (ShowsRead catalog.now.tables)) calls.old calls.new
        (limit_cost (is_primary_access access) limit).ops (limit_cost (is_primary_access access) limit).entries
        (access_rounds access) result }
    ensures few { IfOk result (λ found. length found ≤ limit) }
    ensures fit { IfOk result (AllByRecursion (AllFit (types_of (table_at catalog.now.tables number)))) }
    // Over any content that is told, no pair is passed over.
    ensures codes { IfOk result (λ found. IfSome (S.content calls.old.store.now)
        (AreSequenceRows number (table_at catalog.now.tables number) access low.now high.now limit found)) }
    ensures answer { IfOk result (λ found. (rows : Rows) (others : List Pair) (within : List (List Value))
        → HoldsRows (S.content calls.old.store.now) catalog.now.tables rows others →
        AllByRecursion (λ row. In row (rows_of number rows)) within
        → pairs_within (content_pairs catalog.now.tables rows others) low.now high.now
        ≡ map (pair_of number (table_at catalog.now.tables number) access) within → found ≡ take limit within) }
{
    match access {
        Access::Primary => range_rows(alloc, catalog, number, low, high, limit, calls),
        Access::Secondary(index) => {
            let found = range_values(alloc, catalog, number, access, low, high, limit, calls)?;
            named_rows(alloc, catalog, number, index, found.items(), calls)
        }
    }
}
