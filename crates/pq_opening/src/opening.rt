//! The opening of a store: what its catalog's pairs tell.
ghost use Rattle.std.specs.Prelude.{◌≡◌, ◌≤◌, length, map, option_map, option_and_then, Some, IfOk, IfSome};
ghost use Rattle.std.specs.Result.{result_ok};
ghost use Rattle.pq_store.specs.Content.{entry};
ghost use Rattle.pq_schema.specs.Definitions.{new_table, new_query, new_column, new_counter};
ghost use Rattle.pq_planning.specs.Planned.{IsComputed};
ghost use Rattle.pq_schema.specs.Names.{IsName, IsTableDef, IsAlterDef, IsCounterDef};
ghost use Rattle.pq_text.specs.Tokens.{tokens_of};
ghost use Rattle.pq_planning.specs.Planning.{plan_from};
ghost use Rattle.pq_opening.specs.Opening.{has_last_text, with_made, with_planned, defined_by, text_defines, text_adds, if_formatted, pair_adds, goes_on, added_from};
ghost use Rattle.pq_opening.specs.Opened.{TellsOpened};
ghost use Rattle.pq_planning.specs.Names.{IsNamedStatement};

use crate::last::last_made;
use pq_base::{Bytes, List, NoMem, PText, Stopped};
use pq_catalog::{Mark, PlannedCatalog, has_format, marked_text};
use pq_compile::Compiled;
use pq_def_read::{Statement, read_statement};
use pq_key_code::catalog_key;
use pq_planning::{PlannedQuery, plan_query};
use pq_print::print_definition;
use pq_schema::{AlterDef, Catalog, CounterDef, TableDef};
use pq_store::{Damage, Pair};
use pq_text::{Token, tokens};
use std::alloc::Global;

/// The greatest number of bytes of a canonical text that is read.
const TEXT_BYTES: usize = 1048576;

/// A catalog with its plans, and the mark of its last definition.
pub(crate) type Added = (PlannedCatalog, Mark);

/// Whether the last definition has this canonical text.
fn has_last_text(alloc: Global, catalog: &Catalog, text: &PText) -> Result<bool, NoMem>
    requires { 1 ≤ length catalog.now.definitions }
    ensures { IfOk result (λ has. has ≡ has_last_text text.now catalog.now) }
{
    let last = print_definition(alloc, catalog, catalog.defs())?;
    Ok(last.bytes() == text.bytes())
}

/// A pair that is no definition's.
fn damage_of(alloc: Global, pair: &Pair) -> Result<Damage, NoMem>
    ensures key { IfOk result (λ damage. damage.key ≡ pair.now.key) }
    ensures value { IfOk result (λ damage. damage.value ≡ Some pair.now.value) }
{
    Ok(Damage {
        key: Bytes::of_bytes(alloc, pair.key.items())?,
        value: Some(Bytes::of_bytes(alloc, pair.value.items())?),
    })
}

/// The catalog with a mark, where a value has the format of its last definition's pair.
fn formatted(value: &[u8], mark: Mark, next: Option<PlannedCatalog>) -> Option<Added>
    requires { IfSome next (λ schema. 1 ≤ length schema.definitions) }
    ensures { result ≡ option_map (λ schema. (schema, mark)) (option_and_then (if_formatted value.now) next) }
{
    match next {
        None => None,
        Some(next) => {
            if has_format(value, next.catalog()) {
                Some((next, mark))
            } else {
                None
            }
        }
    }
}

/// The catalog with the table that the definition makes, None where it is refused.
fn read_table(
    alloc: Global,
    planned: PlannedCatalog,
    def: TableDef,
) -> Result<Option<PlannedCatalog>, NoMem>
    requires { IsTableDef def }
    ensures { IfOk result (λ next. next ≡ with_made planned (new_table planned def)) }
{
    match planned.with_table_of(alloc, def)? {
        (next, Ok(_)) => Ok(Some(next)),
        (_, Err(_)) => Ok(None),
    }
}

/// The catalog with the column that the definition adds, None where it is refused.
fn read_column(
    alloc: Global,
    planned: PlannedCatalog,
    def: AlterDef,
) -> Result<Option<PlannedCatalog>, NoMem>
    requires { IsAlterDef def }
    ensures { IfOk result (λ next. next ≡ result_ok (new_column planned def)) }
{
    match planned.with_column_of(alloc, def)? {
        (next, Ok(_)) => Ok(Some(next)),
        (_, Err(_)) => Ok(None),
    }
}

/// The catalog with the counter that is defined, None where it is refused.
fn read_counter(
    alloc: Global,
    planned: PlannedCatalog,
    def: CounterDef,
) -> Result<Option<PlannedCatalog>, NoMem>
    requires { IsCounterDef def }
    ensures { IfOk result (λ next. next ≡ result_ok (new_counter planned def)) }
{
    match planned.with_counter_of(alloc, def)? {
        (next, Ok(_)) => Ok(Some(next)),
        (_, Err(_)) => Ok(None),
    }
}

/// The catalog with the query that the tokens from a place on spell and the index that it wants, None
/// where it is refused.
fn read_query(
    alloc: Global,
    planned: PlannedCatalog,
    name: PText,
    text: &PText,
    tokens: &List<Token>,
    from: u32,
) -> Result<Option<PlannedCatalog>, NoMem>
    requires spelled { tokens.now ≡ tokens_of text.now }
    requires within { from ≤ length tokens.now }
    requires name { IsName name }
    ensures { IfOk result (λ next. next ≡ with_planned planned (plan_from planned name text.now tokens.now from)) }
{
    match plan_query(alloc, planned.catalog(), name, text, tokens, from) {
        Err(Stopped::NoMem) => Err(NoMem),
        Err(Stopped::Refused(_)) => Ok(None),
        Ok(plan) => add_planned(alloc, planned, plan),
    }
}

/// The catalog with a planned query and the index that it wants, None where it is refused.
fn add_planned(
    alloc: Global,
    planned: PlannedCatalog,
    plan: PlannedQuery,
) -> Result<Option<PlannedCatalog>, NoMem>
    requires name { IsName plan.query.name }
    requires computed { IsComputed planned.tables plan }
    ensures { IfOk result (λ next. next ≡ result_ok (new_query planned plan.query plan.compiled.wanted)) }
{
    let PlannedQuery { query, compiled } = plan;
    let Compiled {
        plan: kept,
        wanted,
        ..
    } = compiled;
    match planned.with_query(alloc, query, kept, wanted)? {
        (next, Ok(_)) => Ok(Some(next)),
        (_, Err(_)) => Ok(None),
    }
}

/// The catalog with what a statement defines, None where it defines nothing.
fn define(
    alloc: Global,
    planned: PlannedCatalog,
    text: &PText,
    tokens: &List<Token>,
    statement: Statement,
) -> Result<Option<PlannedCatalog>, NoMem>
    requires spelled { tokens.now ≡ tokens_of text.now }
    requires named { IsNamedStatement tokens.now statement }
    ensures { IfOk result (λ next. next ≡ defined_by planned text.now tokens.now statement) }
{
    match statement {
        Statement::Create(def) => read_table(alloc, planned, def),
        Statement::Alter(def) => read_column(alloc, planned, def),
        Statement::Counter(def) => read_counter(alloc, planned, def),
        Statement::Prepare { name, from } => {
            read_query(alloc, planned, name, text, tokens, from)
        }
        _ => Ok(None),
    }
}

/// The catalog with the definition of a text.
#[tactic(auto, unfolding(crate::specs::Opening::text_defines))]
fn define_text(
    alloc: Global,
    planned: PlannedCatalog,
    text: &PText,
) -> Result<Option<PlannedCatalog>, NoMem>
    requires { length text.now ≤ 1048576 }
    ensures { IfOk result (λ next. next ≡ text_defines planned text.now) }
{
    let found = tokens(alloc, text)?;
    match read_statement(alloc, text, &found) {
        Err(Stopped::NoMem) => Err(NoMem),
        Err(Stopped::Refused(_)) => Ok(None),
        Ok(statement) => define(alloc, planned, text, &found, statement),
    }
}

/// The catalog with the definition of a canonical text.
#[tactic(auto, unfolding(crate::specs::Opening::text_adds))]
fn with_text(
    alloc: Global,
    planned: PlannedCatalog,
    text: &PText,
) -> Result<Option<PlannedCatalog>, NoMem>
    ensures { IfOk result (λ next. next ≡ text_adds planned text.now) }
{
    if text.bytes().len() > TEXT_BYTES {
        return Ok(None);
    }
    let Some(next) = define_text(alloc, planned, text)? else {
        return Ok(None);
    };
    if has_last_text(alloc, next.catalog(), text)? {
        Ok(Some(next))
    } else {
        Ok(None)
    }
}

/// The catalog with the definition of a pair and the definition's mark, None where it isn't the next
/// definition's.
#[tactic(auto, unfolding(crate::specs::Opening::pair_adds))]
fn with_pair(alloc: Global, planned: PlannedCatalog, pair: &Pair) -> Result<Option<Added>, NoMem>
    ensures { IfOk result (λ added. added ≡ pair_adds planned (entry pair.now)) }
{
    let key = catalog_key(alloc, planned.catalog().defs() + 1)?;
    if pair.key.items() != key.items() {
        return Ok(None);
    }
    match marked_text(alloc, pair.value.items())? {
        Some((mark, text)) => {
            let next = with_text(alloc, planned, &text)?;
            Ok(formatted(pair.value.items(), mark, next))
        }
        None => Ok(None),
    }
}

/// Whether other pairs may come: the definition is ready; or it comes last, and made an index.
fn goes_on(added: &Added, rest: &[Pair]) -> bool
    ensures { result ≡ goes_on added.now (map entry rest.now) }
{
    match added.1 {
        Mark::Ready => true,
        Mark::Building => rest.is_empty() && last_made(added.0.catalog()).is_some(),
    }
}

/// The catalog with the definitions of the pairs and the mark of the last one, or the first pair that is
/// none's.
#[tactic(auto, unfolding(crate::specs::Opening::added_from))]
pub(crate) fn with_pairs(
    alloc: Global,
    added: Added,
    pairs: &[Pair],
) -> Result<Result<Added, Damage>, NoMem>
    ensures { IfOk result (λ answer. TellsOpened answer (added_from added (map entry pairs.now))) }
{
    let (planned, mark) = added;
    match pairs.split_first() {
        None => Ok(Ok((planned, mark))),
        Some((pair, rest)) => match with_pair(alloc, planned, pair)? {
            None => Ok(Err(damage_of(alloc, pair)?)),
            Some(next) => {
                if goes_on(&next, rest) {
                    with_pairs(alloc, next, rest)
                } else {
                    Ok(Err(damage_of(alloc, pair)?))
                }
            }
        },
    }
}
