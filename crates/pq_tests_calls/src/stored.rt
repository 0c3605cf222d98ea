//! Rows of a table whose last column was added with a default, by their key and in a build. A default at a row's end is
//! left out of what is stored.
ghost use Rattle.std.specs.Prelude.{◌≡◌};

use crate::build_rows::{Indexed, build, fillers_of, same};
use crate::calls::store_of;
use crate::lines::{cut_at, pair_in, pairs_in};
use crate::operators::cells_of;
use crate::pages::AMPLE;
use crate::rows::cells_in;
use pq_base::{ColType, Dir, List, NoMem, PText, Row, Value};
use pq_builds::Built;
use pq_calls::{Calls, StoredRow};
use pq_mem_store::MemStore;
use pq_schema::{Column, KeyPart, Table};
use pq_store::{Allowance, Broke, Damage, Meter, Opening, Pair};
use std::alloc::Global;
use std::marker::Brand;
use std::sync::ledger::{Blank, Ledger};
use std::test;

// id and v are of the definition, and w was added with the default 5. The index is by w, and then by id.
const GROWN: Indexed = (
    &[ColType::Int; 3],
    &[None, None, Some(5)],
    &[
        KeyPart {
            col: 2,
            dir: Dir::Asc,
        },
        KeyPart {
            col: 0,
            dir: Dir::Asc,
        },
    ],
);

// What is stored at the key of the row with the id 1, and the row that it is: codes of two, three, three and one column.
// A default that is spelt out at the end is damage, and so is a code without a column of the definition.
const STORED: &'static str =
    "%02%01%10%80%00%00%00%00%00%00%01=%02%00%00%00%00%00%00%00%01%00%00%00%00%00%00%00%07 | 1 7 5
%02%01%10%80%00%00%00%00%00%00%01=%03%00%00%00%00%00%00%00%01%00%00%00%00%00%00%00%07%00%00%00%00%00%00%00%06 | 1 7 6
%02%01%10%80%00%00%00%00%00%00%01=%03%00%00%00%00%00%00%00%01%00%00%00%00%00%00%00%07%00%00%00%00%00%00%00%05 | damage
%02%01%10%80%00%00%00%00%00%00%01=%01%00%00%00%00%00%00%00%01 | damage";

fn columns_of(alloc: Global) -> Result<List<Column>, NoMem> {
    let mut columns = List::new(alloc);
    for name in ["id", "v", "w"] {
        let name = PText::from_string(String::from_str(alloc, name)?);
        let ty = ColType::Int;
        columns.push(alloc, Column { name, ty })?;
    }
    Ok(columns)
}

// The table, whose key is id.
fn table_of(alloc: Global) -> Result<Table, NoMem> {
    let columns = columns_of(alloc)?;
    let fillers = fillers_of(alloc, GROWN.1)?;
    let key = Vec::from_slice(alloc, &[0])?;
    Ok(Table {
        name: PText::from_string(String::new(alloc)),
        columns,
        fillers,
        key: List::from_vec(key),
        limits: List::new(alloc),
        foreign: List::new(alloc),
        indexes: List::new(alloc),
    })
}

// The row of table 1 with the id 1.
fn row_of<L: Ledger>(
    alloc: Global,
    table: &Table,
    store: &mut MemStore,
    meter: &mut Meter<L>,
) -> Result<Option<StoredRow>, Broke> {
    let mut key = Row::new(alloc);
    key.push(alloc, Value::Int(1))?;
    let mut allowance = Allowance::grant(AMPLE);
    let mut calls = Calls {
        store,
        allowance: &mut allowance,
        meter,
    };
    calls.row(alloc, 1, table, &key)
}

// Whether damage is just the pair.
fn names_pair(damage: &Damage, pair: &Pair) -> bool {
    match &damage.value {
        Some(found) => {
            damage.key.items() == pair.key.items() && found.items() == pair.value.items()
        }
        None => false,
    }
}

// Whether the pair is read as these words say.
fn is_outcome(pair: &Pair, words: &str, found: &Result<Option<StoredRow>, Broke>) -> bool {
    match found {
        Ok(Some(found)) => {
            words != "damage"
                && found.at.items() == pair.key.items()
                && cells_of(&found.row) == Some(cells_in(words))
        }
        Err(Broke::Damaged(damage)) => words == "damage" && names_pair(damage, pair),
        _ => false,
    }
}

// The store that has the pairs of a text.
fn store_in(alloc: Global, text: &str) -> Result<MemStore, NoMem> {
    store_of(alloc, pairs_in(alloc, text)?)
}

fn is_read<L: Ledger>(alloc: Global, line: &str, meter: &mut Meter<L>) -> Result<bool, NoMem> {
    let (text, words) = cut_at(line, " | ");
    let table = table_of(alloc)?;
    let pair = pair_in(alloc, text)?;
    let mut store = store_in(alloc, text)?;
    let found = row_of(alloc, &table, &mut store, meter);
    Ok(is_outcome(&pair, words, &found))
}

// A row with the default and one with another value.
const BEFORE: &'static str =
    "%02%01%10%80%00%00%00%00%00%00%01=%02%00%00%00%00%00%00%00%01%00%00%00%00%00%00%00%07
%02%01%10%80%00%00%00%00%00%00%02=%03%00%00%00%00%00%00%00%02%00%00%00%00%00%00%00%07%00%00%00%00%00%00%00%04";

// The same between the ready definition and the entries: w and id of the second row, and those of the first.
const AFTER: &'static str =
    "%01%00%02=%01%00PREPARE%20q%20AS%20SELECT%20x.a%20FROM%20t%20x%20ORDER%20BY%20x.b%20DESC%20LIMIT%205;
%02%01%10%80%00%00%00%00%00%00%01=%02%00%00%00%00%00%00%00%01%00%00%00%00%00%00%00%07
%02%01%10%80%00%00%00%00%00%00%02=%03%00%00%00%00%00%00%00%02%00%00%00%00%00%00%00%07%00%00%00%00%00%00%00%04
%03%01%01%10%80%00%00%00%00%00%00%04%10%80%00%00%00%00%00%00%02=
%03%01%01%10%80%00%00%00%00%00%00%05%10%80%00%00%00%00%00%00%01=";

// Whether a build gives each row its entry.
fn is_built<L: Ledger>(alloc: Global, meter: &mut Meter<L>) -> Result<bool, Broke> {
    let mut store = store_in(alloc, BEFORE)?;
    let built = build(alloc, &GROWN, &mut store, meter)?;
    let want = store_in(alloc, AFTER)?;
    Ok(built == Built::Rows(2) && same(alloc, &store, &want)?)
}

// The first of the pairs that is read otherwise, and behind them the build.
fn first_unlike<L: Ledger>(alloc: Global, blank: Blank) -> Result<Option<&'static str>, Broke>
    requires name { blank.name ≡ L.name }
    requires parts { blank.parts ≡ L.parts }
    requires two { blank.parts ≡ 2 }
{
    let mut meter = Meter::<L>::start(Opening::of(blank));
    for line in STORED.split("\n") {
        if !is_read(alloc, line, &mut meter)? {
            return Ok(Some(line));
        }
    }
    let built = is_built(alloc, &mut meter)?;
    Ok((!built).then_some("build"))
}

#[test]
fn defaults_are_left_out_at_the_end(rt: HostRuntime) -> Result<(), test::Fail> {
    let unlike = first_unlike::<Brand>(rt.alloc(), Blank::new(2));
    assert!(rt; matches!(unlike, Ok(None)));
    Ok(())
}
