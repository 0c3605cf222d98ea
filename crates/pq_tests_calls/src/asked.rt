//! Queries over the tables of the tests, and the nodes of their plans.
ghost use Rattle.std.specs.Prelude.{◌≡◌, ◌≤◌, length, option_copied, IsTrue, IfOk, IfSome};
ghost use Rattle.std.specs.List.{AllByRecursion};
ghost use Rattle.pq_schema.specs.Resolved.{IsResolved};
ghost use Rattle.pq_compile.specs.Chosen.{IsCompiled};
ghost use Rattle.pq_nodes.specs.Operators.{IsReadyNode};
ghost use Rattle.pq_plan.specs.Nodes.{nodes};
ghost use Rattle.pq_tests_calls.specs.Reads.{input_of, IsReadyAt};

use crate::rows::{FALLING, TABLES};
use pq_base::{NoMem, PText, Refusal, Stopped};
use pq_compile::{Compiled, compile};
use pq_def_read::{Statement, read_statement};
use pq_definitions::{add_query, add_table};
use pq_names::{is_name, is_spelt_table};
use pq_plan::Physical;
use pq_query_read::read_query;
use pq_schema::{Catalog, Query, TableDef};
use pq_text::tokens;
use std::alloc::Global;
use std::test::Fail;

/// A text of the tests that has no answer, as the failure of a test.
pub(crate) fn failure(stopped: Stopped) -> Fail {
    Fail::new(match &stopped {
        Stopped::Refused(_) => "a text of the tests is refused",
        Stopped::NoMem => "there is no memory",
    })
}

/// The text, which isn't too long to be read.
fn text_of(alloc: Global, text: &str) -> Result<PText, NoMem>
    ensures { IfOk result (λ made. length made ≤ 1048576) }
{
    if text.len() > 1_048_576 {
        return Err(NoMem);
    }
    Ok(PText::from_string(String::from_str(alloc, text)?))
}

/// The query that the text spells.
fn query_of(alloc: Global, catalog: &Catalog, text: &str) -> Result<Query, Stopped>
    ensures { IfOk result (IsResolved catalog.now.tables) }
{
    let name = text_of(alloc, "q")?;
    let text = text_of(alloc, text)?;
    let seen = tokens(alloc, &text)?;
    read_query(alloc, catalog, name, &text, &seen, 0)
}

/// A query, and what it is compiled to.
#[derive(Drop)]
pub(crate) struct Planned {
    pub query: Query,
    pub made: Compiled,
}

/// The query that the text spells, with its plan.
pub(crate) fn plan_of(alloc: Global, catalog: &Catalog, text: &str) -> Result<Planned, Stopped>
    ensures resolved { IfOk result (λ p. IsResolved catalog.now.tables p.query) }
    ensures compiled { IfOk result (λ p. IsCompiled catalog.now.tables p.query p.made) }
{
    catalog.known();
    let query = query_of(alloc, catalog, text)?;
    let made = compile(alloc, catalog, &query)?;
    Ok(Planned { query, made })
}

/// The definition that the text spells.
fn table_of(alloc: Global, text: &str) -> Result<TableDef, Stopped> {
    let text = text_of(alloc, text)?;
    let seen = tokens(alloc, &text)?;
    match read_statement(alloc, &text, &seen)? {
        Statement::Create(def) => Ok(def),
        _ => Err(Stopped::Refused(Refusal::Syntax { at: 0 })),
    }
}

fn define_table(alloc: Global, catalog: &mut Catalog, text: &str) -> Result<(), Stopped> {
    let def = table_of(alloc, text)?;
    if !is_spelt_table(&def) {
        return Err(Stopped::Refused(Refusal::Syntax { at: 0 }));
    }
    let _number = add_table(alloc, catalog, def)?;
    Ok(())
}

/// Defines a query with the index that it wants.
fn define_query(alloc: Global, catalog: &mut Catalog, text: &str) -> Result<(), Stopped> {
    let Planned { query, made } = plan_of(alloc, catalog, text)?;
    if !is_name(&query.name) {
        return Err(Stopped::Refused(Refusal::Syntax { at: 0 }));
    }
    let _number = add_query(alloc, catalog, query, made.wanted)?;
    Ok(())
}

/// The tables with their indexes.
pub(crate) fn catalog_of(alloc: Global) -> Result<Catalog, Stopped> {
    let mut catalog = Catalog::new(alloc);
    for text in &TABLES {
        define_table(alloc, &mut catalog, text)?;
    }
    define_query(alloc, &mut catalog, FALLING)?;
    Ok(catalog)
}

/// Whether the outermost node of a tree reads the relation.
fn is_read(catalog: &Catalog, query: &Query, tree: &Physical, rel: u8) -> bool
    requires { AllByRecursion (IsReadyNode catalog.now.tables query.now) (nodes tree.now) }
    ensures { IsTrue result → IsReadyAt catalog.now.tables query.now rel tree.now }
{
    match tree {
        Physical::Lookup { rel: at, .. } => *at == rel,
        Physical::LimitRange { rel: at, .. } => *at == rel,
        Physical::StopScan { rel: at, .. } => *at == rel,
        _ => false,
    }
}

/// The tree under the outermost node.
fn input_of(tree: &Physical) -> Option<&Physical>
    ensures { option_copied result ≡ input_of tree.now }
{
    match tree {
        Physical::Unit => None,
        Physical::Lookup { input, .. }
        | Physical::LimitRange { input, .. }
        | Physical::StopScan { input, .. }
        | Physical::Filter { input, .. }
        | Physical::Sort { input }
        | Physical::Cut { input, .. }
        | Physical::Project { input } => Some(input),
    }
}

/// The node of a tree that reads the relation.
fn read_in<'a>(
    catalog: &Catalog,
    query: &Query,
    tree: &'a Physical,
    rel: u8,
) -> Option<&'a Physical>
    requires { AllByRecursion (IsReadyNode catalog.now.tables query.now) (nodes tree.now) }
    ensures { IfSome (option_copied result) (IsReadyAt catalog.now.tables query.now rel) }
{
    if is_read(catalog, query, tree, rel) {
        return Some(tree);
    }
    match input_of(tree) {
        Some(input) => read_in(catalog, query, input, rel),
        None => None,
    }
}

/// The node of a plan that reads the relation. There is none where the plan wants an index.
pub(crate) fn read_of<'a>(catalog: &Catalog, planned: &'a Planned, rel: u8) -> Option<&'a Physical>
    requires resolved { IsResolved catalog.now.tables planned.now.query }
    requires compiled { IsCompiled catalog.now.tables planned.now.query planned.now.made }
    ensures { IfSome (option_copied result) (IsReadyAt catalog.now.tables planned.now.query rel) }
{
    catalog.known();
    match &planned.made.wanted {
        None => read_in(catalog, &planned.query, planned.made.plan.tree(), rel),
        Some(_) => None,
    }
}
