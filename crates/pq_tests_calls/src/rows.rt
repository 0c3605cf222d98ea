//! The tables of the tests, their rows, and a store that holds them.
ghost use Rattle.std.specs.Prelude.{◌≡◌, length, IfOk};

use pq_base::{Bytes, Dir, List, NoMem, Row, Value};
use pq_key_code::{entry_key, row_key};
use pq_mem_store::MemStore;
use pq_store::{Broke, Guard, Meter, Store};
use std::alloc::Global;
use std::sync::ledger::Ledger;

/// The group, the value and the id of a row.
pub(crate) type Cells = (i64, i64, i64);

/// Of s and w few rows are in one group, of t any number, and of u one.
pub(crate) const TABLES: [&'static str; 4] = [
    "CREATE TABLE s (g INT, v INT, id INT, PRIMARY KEY (g, id), CARDINALITY LIMIT 4 (g));",
    "CREATE TABLE t (g INT, v INT, id INT, PRIMARY KEY (g, v, id));",
    "CREATE TABLE u (g INT, v INT, id INT, PRIMARY KEY (g));",
    "CREATE TABLE w (g INT, v INT, id INT, PRIMARY KEY (id, v), CARDINALITY LIMIT 9 (g));",
];

/// What makes the index of t on which values fall.
pub(crate) const FALLING: &'static str =
    "SELECT t.v FROM t WHERE t.g = 1 ORDER BY t.v DESC LIMIT 3;";

/// Rows, each as three numbers. The values of the first group of s are groups of t and u. Two of them are no group of u,
/// and one no group of t.
pub(crate) const S: &'static str = "1 -1 1, 1 0 2, 1 2 3, 1 3 4, 2 0 5, 2 1 6";

/// Of each value there are several rows.
pub(crate) const T: &'static str =
    "0 -1 4, 0 0 3, 0 2 1, 0 2 2, 1 -1 1, 1 -1 2, 1 0 1, 1 0 2, 1 0 3, 1 2 1, 1 2 2, 2 -1 1, 2 -1 2, 2 0 1, 2 2 2, 3 0 3, 3 2 1";

pub(crate) const U: &'static str = "0 2 1, 1 0 2, 2 -1 3, 4 0 4";

pub(crate) const W: &'static str =
    "1 0 1, 0 0 2, 1 2 3, 1 -1 4, 2 2 5, 1 0 6, 1 2 7, 2 -1 8, 1 -1 9";

fn number_of(word: Option<&str>) -> i64 {
    match word {
        Some(word) => word.parse::<i64>().unwrap_or(0),
        None => 0,
    }
}

/// The three numbers of a text.
pub(crate) fn cells_in(text: &str) -> Cells {
    let mut words = text.split(" ");
    let g = number_of(words.next());
    let v = number_of(words.next());
    (g, v, number_of(words.next()))
}

/// The rows that a text says.
pub(crate) fn rows_in(alloc: Global, text: &str) -> Result<Vec<Cells>, NoMem> {
    let mut rows = Vec::new(alloc);
    for row in text.split(", ") {
        rows.push(cells_in(row))?;
    }
    Ok(rows)
}

/// Three values.
fn three(alloc: Global, values: Cells) -> Result<Row, NoMem>
    ensures { IfOk result (λ row. length row ≡ 3) }
{
    let mut row = Row::new(alloc);
    row.push(alloc, Value::Int(values.0))?;
    row.push(alloc, Value::Int(values.1))?;
    row.push(alloc, Value::Int(values.2))?;
    Ok(row)
}

/// The row's key in the table of this number.
fn key_of(alloc: Global, table: u8, row: Cells) -> Result<Bytes, NoMem> {
    let (g, v, id) = row;
    let (values, count) = match table {
        1 => ((g, id, v), 2),
        2 => ((g, v, id), 3),
        3 => ((g, v, id), 1),
        _ => ((id, v, g), 2),
    };
    let mut key = three(alloc, values)?;
    key.truncate(count);
    row_key(alloc, table, &key)
}

/// The row's code: how many values there are, and their bytes.
fn code_of(alloc: Global, row: Cells) -> Result<Bytes, NoMem> {
    let mut code = Bytes::of_bytes(alloc, &[3])?;
    code.extend(alloc, &row.0.to_be_bytes())?;
    code.extend(alloc, &row.1.to_be_bytes())?;
    code.extend(alloc, &row.2.to_be_bytes())?;
    Ok(code)
}

/// The row's entry in the first index of its table, where that has one.
fn entry_of(alloc: Global, table: u8, row: Cells) -> Result<Option<Bytes>, NoMem> {
    let (g, v, id) = row;
    let (values, dir) = match table {
        2 => ((g, v, id), Dir::Desc),
        4 => ((g, id, v), Dir::Asc),
        _ => return Ok(None),
    };
    let values = three(alloc, values)?;
    let key = entry_key(alloc, table, 1, &values, &[Dir::Asc, dir, Dir::Asc])?;
    Ok(Some(key))
}

fn put<L: Ledger>(
    alloc: Global,
    key: &Bytes,
    value: &[u8],
    store: &mut MemStore,
    meter: &mut Meter<L>,
) -> Result<(), Broke> {
    store.write(alloc, key.items(), Guard::Any, Some(value), meter)?;
    Ok(())
}

fn put_row<L: Ledger>(
    alloc: Global,
    table: u8,
    row: Cells,
    store: &mut MemStore,
    meter: &mut Meter<L>,
) -> Result<(), Broke> {
    let key = key_of(alloc, table, row)?;
    let code = code_of(alloc, row)?;
    put(alloc, &key, code.items(), store, meter)?;
    if let Some(entry) = entry_of(alloc, table, row)? {
        put(alloc, &entry, b"", store, meter)?;
    }
    Ok(())
}

fn put_rows<L: Ledger>(
    alloc: Global,
    table: u8,
    text: &str,
    store: &mut MemStore,
    meter: &mut Meter<L>,
) -> Result<(), Broke> {
    let rows = rows_in(alloc, text)?;
    for row in &rows {
        put_row(alloc, table, *row, store, meter)?;
    }
    Ok(())
}

/// A store of the rows and their entries.
pub(crate) fn store_of<L: Ledger>(alloc: Global, meter: &mut Meter<L>) -> Result<MemStore, Broke> {
    let mut store = MemStore::new(alloc);
    put_rows(alloc, 1, S, &mut store, meter)?;
    put_rows(alloc, 2, T, &mut store, meter)?;
    put_rows(alloc, 3, U, &mut store, meter)?;
    put_rows(alloc, 4, W, &mut store, meter)?;
    Ok(store)
}
