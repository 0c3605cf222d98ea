//! Each operator over a store in memory, by comparison and direction, beside the plain definition.
ghost use Rattle.std.specs.Prelude.{◌≡◌, IsTrue};
ghost use Rattle.pq_compile.specs.Chosen.{IsCompiled};
ghost use Rattle.pq_nodes.specs.Operators.{IsAsked};
ghost use Rattle.pq_schema.specs.Resolved.{IsResolved};

use crate::asked::{Planned, catalog_of, failure, plan_of, read_of};
use crate::pages::{PAGE, page};
use crate::plain::{Case, groups_of, plain};
use crate::rows::{Cells, S, T, U, W, rows_in, store_of};
use pq_base::{Dir, List, NoMem, Op, Row, Value, all_fit};
use pq_local_ops::{position_of, project};
use pq_mem_store::MemStore;
use pq_plan::{Combo, Physical};
use pq_schema::{Access, Catalog};
use pq_store::{Broke, Meter, Opening};
use std::alloc::Global;
use std::marker::Brand;
use std::sync::ledger::{Blank, Ledger};
use std::test::Fail;

/// A form of queries, and how the rows of its last relation are read.
struct Form {
    /// The alias of the last relation, and the relations.
    alias: &'static str,
    from: &'static str,
    /// What gives the groups.
    given: &'static str,
    is_joined: bool,
    limit: &'static str,
    rows: &'static str,
    /// Where values rise, and where they fall.
    ways: [&'static str; 2],
}

const FORMS: [Form; 5] = [
    Form {
        alias: "s",
        from: "s",
        given: "s.g = 1",
        is_joined: false,
        limit: "",
        rows: S,
        ways: ["range", "range"],
    },
    Form {
        alias: "w",
        from: "w",
        given: "w.g = 1",
        is_joined: false,
        limit: "",
        rows: W,
        ways: ["index range", "index range"],
    },
    Form {
        alias: "u",
        from: "s, u",
        given: "s.g = 1 AND u.g = s.v",
        is_joined: true,
        limit: "",
        rows: U,
        ways: ["get", "get"],
    },
    Form {
        alias: "t",
        from: "t",
        given: "t.g = 1",
        is_joined: false,
        limit: " LIMIT 3",
        rows: T,
        ways: ["stop", "index stop"],
    },
    Form {
        alias: "t",
        from: "s, t",
        given: "s.g = 1 AND t.g = s.v",
        is_joined: true,
        limit: " LIMIT 3",
        rows: T,
        ways: ["stop", "index stop"],
    },
];

const OPS: [(Op, &'static str); 6] = [
    (Op::Eq, "="),
    (Op::Ne, "<>"),
    (Op::Lt, "<"),
    (Op::Le, "<="),
    (Op::Gt, ">"),
    (Op::Ge, ">="),
];

const DIRS: [(Dir, &'static str); 2] = [(Dir::Asc, ""), (Dir::Desc, " DESC")];

/// A value of the rows, and none between two of them.
const CONSTANTS: [i64; 2] = [0, 1];

/// How a node reads.
fn way_of(node: &Physical) -> &'static str {
    match node {
        Physical::Lookup { .. } => "get",
        Physical::LimitRange {
            access: Access::Primary,
            ..
        } => "range",
        Physical::LimitRange { .. } => "index range",
        Physical::StopScan {
            access: Access::Primary,
            ..
        } => "stop",
        Physical::StopScan { .. } => "index stop",
        _ => "none",
    }
}

/// The three numbers of a row.
pub(crate) fn cells_of(row: &Row) -> Option<Cells> {
    match row.items() {
        [Value::Int(g), Value::Int(v), Value::Int(id)] => Some((*g, *v, *id)),
        _ => None,
    }
}

/// Whether the rows are just these.
pub(crate) fn are_rows(found: &List<Row>, want: &[Cells]) -> bool {
    if found.items().len() != want.len() {
        return false;
    }
    for (row, cells) in found.items().iter().zip(want) {
        if cells_of(row) != Some(*cells) {
            return false;
        }
    }
    true
}

/// The page of the rows behind so many.
pub(crate) fn page_of(rows: &[Cells], from: usize) -> &[Cells] {
    let rest = &rows[from.min(rows.len())..];
    &rest[..rest.len().min(PAGE as usize)]
}

/// Whether the first page is of these rows, and the one behind its last row is the next of them.
fn has_pages<L: Ledger>(
    alloc: Global,
    catalog: &Catalog,
    planned: &Planned,
    params: &Row,
    want: &[Cells],
    store: &mut MemStore,
    meter: &mut Meter<L>,
) -> Result<bool, Broke>
    requires asked { IsAsked catalog.now.tables planned.now.query params.now }
    requires compiled { IsCompiled catalog.now.tables planned.now.query planned.now.made }
{
    let first = page(alloc, catalog, planned, params, None, store, meter)?;
    let rows = project(alloc, &planned.query, &first)?;
    let Some(last) = first.items().last() else {
        return Ok(want.is_empty());
    };
    let at = position_of(alloc, catalog, &planned.query, last)?;
    let second = page(alloc, catalog, planned, params, Some(&at), store, meter)?;
    let next = project(alloc, &planned.query, &second)?;
    Ok(are_rows(&rows, page_of(want, 0)) && are_rows(&next, page_of(want, PAGE as usize)))
}

/// Whether there are just the parameters of the query.
pub(crate) fn is_asked(catalog: &Catalog, planned: &Planned, params: &Row) -> bool
    requires { IsResolved catalog.now.tables planned.now.query }
    ensures { IsTrue result → IsAsked catalog.now.tables planned.now.query params.now }
{
    catalog.known();
    all_fit(params.items(), planned.query.params.items())
}

/// The text of a query.
fn text_of(alloc: Global, form: &Form, case: &Case, words: (&str, &str)) -> Result<String, NoMem> {
    let (sign, dir) = words;
    let (alias, from, given, limit) = (form.alias, form.from, form.given, form.limit);
    let column = if case.of_groups { "g" } else { "v" };
    let constant = case.constant;
    Ok(format!(in alloc;
        "SELECT {alias}.g, {alias}.v, {alias}.id FROM {from} WHERE {given} AND {alias}.{column} {sign} {constant} ORDER BY {alias}.v{dir}{limit};"
    )?)
}

/// How the last relation is to be read. Values that are tied to one need no index.
fn way_by(form: &Form, case: &Case) -> &'static str {
    match (case.op, case.dir) {
        (Op::Eq, _) | (_, Dir::Asc) => form.ways[0],
        (_, Dir::Desc) => form.ways[1],
    }
}

/// Whether the last relation is read in the right way.
fn is_read_so(catalog: &Catalog, form: &Form, case: &Case, planned: &Planned) -> bool
    requires resolved { IsResolved catalog.now.tables planned.now.query }
    requires compiled { IsCompiled catalog.now.tables planned.now.query planned.now.made }
{
    let rel = if form.is_joined { 2 } else { 1 };
    match read_of(catalog, planned, rel) {
        Some(node) => way_of(node) == way_by(form, case),
        None => false,
    }
}

/// The rows of the plain definition.
fn want_of(alloc: Global, form: &Form, case: &Case) -> Result<Vec<Cells>, NoMem> {
    let rows = rows_in(alloc, form.rows)?;
    let groups = groups_of(alloc, form.is_joined)?;
    plain(alloc, &rows, &groups, case)
}

/// Whether the query is read in the right way, and has the pages of the plain definition.
fn is_answered<L: Ledger>(
    alloc: Global,
    catalog: &Catalog,
    form: &Form,
    case: &Case,
    planned: &Planned,
    meter: &mut Meter<L>,
) -> Result<bool, Broke>
    requires resolved { IsResolved catalog.now.tables planned.now.query }
    requires compiled { IsCompiled catalog.now.tables planned.now.query planned.now.made }
{
    let params = Row::new(alloc);
    if !is_asked(catalog, planned, &params) || !is_read_so(catalog, form, case, planned) {
        return Ok(false);
    }
    let want = want_of(alloc, form, case)?;
    let mut store = store_of(alloc, meter)?;
    has_pages(alloc, catalog, planned, &params, &want, &mut store, meter)
}

/// The first query of a form that is answered otherwise, or has no plan.
fn first_of<L: Ledger>(
    alloc: Global,
    catalog: &Catalog,
    form: &Form,
    op: (Op, &'static str),
    dir: (Dir, &'static str),
    meter: &mut Meter<L>,
) -> Result<Option<String>, Broke> {
    for constant in &CONSTANTS {
        let case = Case {
            op: op.0,
            of_groups: op.0 == Op::Ne && !form.limit.is_empty(),
            constant: *constant,
            dir: dir.0,
        };
        let text = text_of(alloc, form, &case, (op.1, dir.1))?;
        let Ok(planned) = plan_of(alloc, catalog, text.as_str()) else {
            return Ok(Some(text));
        };
        if !is_answered(alloc, catalog, form, &case, &planned, meter)? {
            return Ok(Some(text));
        }
    }
    Ok(None)
}

/// The first query that is answered otherwise.
fn first_unlike<L: Ledger>(
    alloc: Global,
    blank: Blank,
    catalog: &Catalog,
) -> Result<Option<String>, Broke>
    requires name { blank.name ≡ L.name }
    requires parts { blank.parts ≡ L.parts }
    requires two { blank.parts ≡ 2 }
{
    let mut meter = Meter::<L>::start(Opening::of(blank));
    for form in &FORMS {
        for op in &OPS {
            for dir in &DIRS {
                if let Some(text) = first_of(alloc, catalog, form, *op, *dir, &mut meter)? {
                    return Ok(Some(text));
                }
            }
        }
    }
    Ok(None)
}

#[test]
fn operators_give_the_plain_rows(rt: HostRuntime) -> Result<(), Fail> {
    let catalog = catalog_of(rt.alloc()).map_err(failure)?;
    let unlike = first_unlike::<Brand>(rt.alloc(), Blank::new(2), &catalog)?;
    assert!(rt; unlike.is_none(), "{unlike:?}");
    Ok(())
}
