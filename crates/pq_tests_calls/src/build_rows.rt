//! Stores with rows of one table, without and with the entries of its index, and the calls that build it.
ghost use Rattle.std.specs.Prelude.{◌≡◌, false, IfOk};
ghost use Rattle.pq_content.specs.Pairs.{is_of_rows};

use crate::calls::store_of;
use pq_base::{Bytes, ColType, Dir, List, NoMem, Row, Value};
use pq_builds::{Built, NewQuery, Target, build_index, complete_index};
use pq_key_code::{catalog_key, entry_key, row_key};
use pq_mem_store::MemStore;
use pq_schema::KeyPart;
use pq_store::{Broke, Meter, Pair, Store};
use std::alloc::Global;
use std::sync::ledger::Ledger;

const TEXT: &[u8] = b"PREPARE q AS SELECT x.a FROM t x ORDER BY x.b DESC LIMIT 5;";

// The number of the definition.
const NUMBER: u16 = 2;

/// The types and the defaults of a table's columns, and the sequence of its index.
pub(crate) type Indexed = (
    &'static [ColType],
    &'static [Option<i64>],
    &'static [KeyPart],
);

/// Two numbers, with the index by the second one, falling, and then by the key.
pub(crate) const PLAIN: Indexed = (
    &[ColType::Int; 2],
    &[None; 2],
    &[
        KeyPart {
            col: 1,
            dir: Dir::Desc,
        },
        KeyPart {
            col: 0,
            dir: Dir::Asc,
        },
    ],
);

/// The defaults of columns.
pub(crate) fn fillers_of(
    alloc: Global,
    defaults: &[Option<i64>],
) -> Result<List<Option<Value>>, NoMem> {
    let mut fillers = List::new(alloc);
    for default in defaults {
        let filler = match default {
            Some(number) => Some(Value::Int(*number)),
            None => None,
        };
        fillers.push(alloc, filler)?;
    }
    Ok(fillers)
}

fn target_of(alloc: Global, indexed: &Indexed) -> Result<Target, NoMem> {
    let types = Vec::from_slice(alloc, indexed.0)?;
    let fillers = fillers_of(alloc, indexed.1)?;
    let parts = Vec::from_slice(alloc, indexed.2)?;
    Ok(Target {
        table: 1,
        index: 1,
        types: List::from_vec(types),
        fillers,
        parts: List::from_vec(parts),
    })
}

// The definition of the query that makes the index.
fn query_of(alloc: Global) -> Result<NewQuery, NoMem>
    ensures { IfOk result (λ query. is_of_rows query.key ≡ false) }
{
    Ok(NewQuery {
        key: catalog_key(alloc, NUMBER)?,
        format: 1,
        text: Bytes::of_bytes(alloc, TEXT)?,
    })
}

/// Builds the index.
pub(crate) fn build<S: Store<L>, L: Ledger>(
    alloc: Global,
    indexed: &Indexed,
    store: &mut S,
    meter: &mut Meter<L>,
) -> Result<Built, Broke> {
    let target = target_of(alloc, indexed)?;
    let query = query_of(alloc)?;
    build_index(alloc, &target, &query, store, meter)
}

/// Completes an index whose build was left.
pub(crate) fn complete<S: Store<L>, L: Ledger>(
    alloc: Global,
    store: &mut S,
    meter: &mut Meter<L>,
) -> Result<u32, Broke> {
    let target = target_of(alloc, &PLAIN)?;
    let query = query_of(alloc)?;
    complete_index(alloc, &target, &query, store, meter)
}

// The definition's pair with a mark.
fn definition(alloc: Global, mark: u8) -> Result<Pair, NoMem> {
    let key = catalog_key(alloc, NUMBER)?;
    let mut value = Bytes::of_bytes(alloc, &[1, mark])?;
    value.extend(alloc, TEXT)?;
    Ok(Pair { key, value })
}

// The row with this number as its key, and its remainder by 7 behind it.
fn row_pair(alloc: Global, number: u32) -> Result<Pair, NoMem> {
    let number = number as i64;
    let mut row = Row::new(alloc);
    row.push(alloc, Value::Int(number))?;
    let key = row_key(alloc, 1, &row)?;
    let mut value = Bytes::of_bytes(alloc, &[2])?;
    value.extend(alloc, &number.to_be_bytes())?;
    value.extend(alloc, &(number % 7).to_be_bytes())?;
    Ok(Pair { key, value })
}

fn entry_pair(alloc: Global, number: u32) -> Result<Pair, NoMem> {
    let number = number as i64;
    let mut values = Row::new(alloc);
    values.push(alloc, Value::Int(number % 7))?;
    values.push(alloc, Value::Int(number))?;
    let key = entry_key(alloc, 1, 1, &values, &[Dir::Desc, Dir::Asc])?;
    let value = Bytes::new(alloc);
    Ok(Pair { key, value })
}

// The entries of the rows with a remainder.
fn push_entries(
    alloc: Global,
    rows: u32,
    remainder: u32,
    pairs: &mut List<Pair>,
) -> Result<(), NoMem> {
    for number in 0..rows {
        if number % 7 == remainder {
            pairs.push(alloc, entry_pair(alloc, number)?)?;
        }
    }
    Ok(())
}

// So many rows behind what is there.
fn push_rows(alloc: Global, rows: u32, pairs: &mut List<Pair>) -> Result<(), NoMem> {
    for number in 0..rows {
        pairs.push(alloc, row_pair(alloc, number)?)?;
    }
    Ok(())
}

/// So many rows.
pub(crate) fn plain_store(alloc: Global, rows: u32) -> Result<MemStore, NoMem> {
    let mut pairs = List::new(alloc);
    push_rows(alloc, rows, &mut pairs)?;
    store_of(alloc, pairs)
}

/// So many rows behind a definition whose index is being filled, and has no entry yet.
pub(crate) fn marked_store(alloc: Global, rows: u32) -> Result<MemStore, NoMem> {
    let mut pairs = List::new(alloc);
    pairs.push(alloc, definition(alloc, 1)?)?;
    push_rows(alloc, rows, &mut pairs)?;
    store_of(alloc, pairs)
}

/// The same with a ready definition and all entries: the greatest remainder comes first.
pub(crate) fn built_store(alloc: Global, rows: u32) -> Result<MemStore, NoMem> {
    let mut pairs = List::new(alloc);
    pairs.push(alloc, definition(alloc, 0)?)?;
    push_rows(alloc, rows, &mut pairs)?;
    for remainder in [6, 5, 4, 3, 2, 1, 0] {
        push_entries(alloc, rows, remainder, &mut pairs)?;
    }
    store_of(alloc, pairs)
}

/// So many rows, and behind them a pair of the same table that is no row.
pub(crate) fn damaged_store(alloc: Global, rows: u32) -> Result<MemStore, NoMem> {
    let mut pairs = List::new(alloc);
    push_rows(alloc, rows, &mut pairs)?;
    let mut broken = row_pair(alloc, rows)?;
    broken.value = Bytes::of_bytes(alloc, &[2])?;
    pairs.push(alloc, broken)?;
    store_of(alloc, pairs)
}

/// Whether both have the same pairs.
pub(crate) fn same(alloc: Global, a: &MemStore, b: &MemStore) -> Result<bool, NoMem> {
    let (a, b) = (a.pairs(alloc)?, b.pairs(alloc)?);
    Ok(
        a.items().len() == b.items().len()
            && a.items().iter().zip(b.items()).all(|(x, y)| x.key.items() == y.key.items()
                && x.value.items() == y.value.items()),
    )
}
