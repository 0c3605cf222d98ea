//! A sorted join over a store that fails at each of its calls in turn.
ghost use Rattle.std.specs.Prelude.{◌≡◌, ◌≤◌, length};
ghost use Rattle.pq_calls.specs.World.{Affords};
ghost use Rattle.pq_compile.specs.Chosen.{IsCompiled};
ghost use Rattle.pq_nodes.specs.Operators.{IsAsked, AreInputs};
ghost use Rattle.pq_schema.specs.Resolved.{IsResolved};

use crate::asked::{Planned, catalog_of, failure, plan_of};
use crate::calls::failing;
use crate::operators::{are_rows, is_asked, page_of};
use crate::pages::{AMPLE, read_first, read_matching};
use crate::plain::{Case, groups_of, plain};
use crate::rows::{Cells, T, rows_in, store_of};
use pq_base::{Dir, List, NoMem, Op, Row, Used};
use pq_local_ops::project;
use pq_plan::Combo;
use pq_schema::Catalog;
use pq_store::{Allowance, Broke, Meter, Opening};
use pq_test_faults::FailingStore;
use std::alloc::Global;
use std::marker::Brand;
use std::sync::ledger::{Blank, Ledger};
use std::test;

const TEXT: &'static str =
    "SELECT t.g, t.v, t.id FROM s, t WHERE s.g = 1 AND t.g = s.v AND t.v >= 0 ORDER BY t.v DESC LIMIT 3;";

const CASE: Case = Case {
    op: Op::Ge,
    of_groups: false,
    constant: 0,
    dir: Dir::Desc,
};

/// What is to be: the entries of each call, and the rows.
#[derive(Drop)]
struct Want {
    entries: Vec<u64>,
    rows: Vec<Cells>,
}

/// A range for each group, of at most a page, and a get for each row of the page.
fn want_of(alloc: Global) -> Result<Want, NoMem> {
    let groups = groups_of(alloc, true)?;
    let read = rows_in(alloc, T)?;
    let mut entries = Vec::new(alloc);
    for group in &groups {
        let found = plain(alloc, &read, &[*group], &CASE)?;
        entries.push(page_of(&found, 0).len() as u64)?;
    }
    let rows = plain(alloc, &read, &groups, &CASE)?;
    for _ in page_of(&rows, 0) {
        entries.push(1)?;
    }
    Ok(Want { entries, rows })
}

/// The entries of the first calls.
fn entries_of(want: &Want, calls: usize) -> u64 {
    let mut sum: u64 = 0;
    for entries in want.entries.iter().take(calls) {
        sum = sum.saturating_add(*entries);
    }
    sum
}

/// Whether the join stops at a call that fails, with what was used up to there, and else gives the rows.
fn is_outcome(want: &Want, call: usize, found: &Result<List<Row>, Broke>, used: Used) -> bool {
    let calls = want.entries.len();
    let is_used = used.entries == entries_of(want, call.saturating_sub(1));
    match found {
        Err(Broke::Failed) => call <= calls && is_used && used.ops == call as u64,
        Ok(rows) => {
            call > calls
                && is_used
                && used.ops == calls as u64
                && are_rows(rows, page_of(&want.rows, 0))
        }
        _ => false,
    }
}

/// The rows of the join over a store.
fn joined<L: Ledger>(
    alloc: Global,
    catalog: &Catalog,
    planned: &Planned,
    params: &Row,
    inputs: List<Combo>,
    store: &mut FailingStore,
    allowance: &mut Allowance,
    meter: &mut Meter<L>,
) -> Result<List<Row>, Broke>
    requires asked { IsAsked catalog.now.tables planned.now.query params.now }
    requires compiled { IsCompiled catalog.now.tables planned.now.query planned.now.made }
    requires inputs { AreInputs catalog.now.tables planned.now.query 2 inputs }
    requires few { length inputs ≤ 9 }
    requires share { Affords allowance.old 200000 200000 }
{
    let combos = read_matching(
        alloc, catalog, planned, params, 2, inputs, None, store, allowance, meter,
    )?;
    Ok(project(alloc, &planned.query, &combos)?)
}

/// Whether the join ends as it is to where this call fails.
fn ends_so<L: Ledger>(
    alloc: Global,
    catalog: &Catalog,
    planned: &Planned,
    params: &Row,
    want: &Want,
    fail: (usize, bool),
    meter: &mut Meter<L>,
) -> Result<bool, Broke>
    requires asked { IsAsked catalog.now.tables planned.now.query params.now }
    requires compiled { IsCompiled catalog.now.tables planned.now.query planned.now.made }
{
    let mut inner = store_of(alloc, meter)?;
    let inputs = read_first(alloc, catalog, planned, params, None, &mut inner, meter)?;
    if inputs.items().len() > 9 {
        return Ok(false);
    }
    let mut store = failing(alloc, inner, fail.0 as u64, fail.1)?;
    let mut allowance = Allowance::grant(AMPLE);
    let found = joined(
        alloc,
        catalog,
        planned,
        params,
        inputs,
        &mut store,
        &mut allowance,
        meter,
    );
    Ok(is_outcome(want, fail.0, &found, allowance.used()))
}

/// Whether it does where the call that fails is done, and where it isn't.
fn ends_both<L: Ledger>(
    alloc: Global,
    catalog: &Catalog,
    planned: &Planned,
    params: &Row,
    want: &Want,
    call: usize,
    meter: &mut Meter<L>,
) -> Result<bool, Broke>
    requires asked { IsAsked catalog.now.tables planned.now.query params.now }
    requires compiled { IsCompiled catalog.now.tables planned.now.query planned.now.made }
{
    let undone = (call, false);
    let done = (call, true);
    Ok(
        ends_so(alloc, catalog, planned, params, want, undone, meter)?
            && ends_so(alloc, catalog, planned, params, want, done, meter)?,
    )
}

/// The first call at which the join ends otherwise, and behind its calls where it fails though none does; 0 where
/// it isn't asked.
fn first_unlike<L: Ledger>(
    alloc: Global,
    blank: Blank,
    catalog: &Catalog,
    planned: &Planned,
) -> Result<Option<usize>, Broke>
    requires name { blank.name ≡ L.name }
    requires parts { blank.parts ≡ L.parts }
    requires two { blank.parts ≡ 2 }
    requires resolved { IsResolved catalog.now.tables planned.now.query }
    requires compiled { IsCompiled catalog.now.tables planned.now.query planned.now.made }
{
    let mut meter = Meter::<L>::start(Opening::of(blank));
    let params = Row::new(alloc);
    if !is_asked(catalog, planned, &params) {
        return Ok(Some(0));
    }
    let want = want_of(alloc)?;
    for call in 1..want.entries.len().saturating_add(2) {
        if !ends_both(alloc, catalog, planned, &params, &want, call, &mut meter)? {
            return Ok(Some(call));
        }
    }
    Ok(None)
}

#[test]
fn a_join_stops_at_the_call_that_fails(rt: HostRuntime) -> Result<(), test::Fail> {
    let catalog = catalog_of(rt.alloc()).map_err(failure)?;
    let planned = match plan_of(rt.alloc(), &catalog, TEXT) {
        Ok(planned) => planned,
        Err(stopped) => return Err(failure(stopped)),
    };
    let unlike = first_unlike::<Brand>(rt.alloc(), Blank::new(2), &catalog, &planned)?;
    assert_eq!(rt; unlike, None);
    Ok(())
}
