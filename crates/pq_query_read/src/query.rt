//! The query of a text over a catalog.
ghost use Rattle.std.specs.Prelude.{◌≡◌, ◌≤◌, ◌<◌, ◌||◌, ℕ, List as Items, length, drop, nat_lt, IfOk, IfErr};
ghost use Rattle.pq_base.specs.Answers.{Answers, Passes};
ghost use Rattle.pq_schema.specs.Definitions.{is_outside};
ghost use Rattle.pq_schema.specs.Resolved.{IsResolved};
ghost use Rattle.pq_shape.specs.Shapes.{shapes_of};
ghost use Rattle.pq_text.specs.Tokens.{tokens_of};
ghost use Rattle.pq_query_read.specs.Grammar.{SpellsSelect};
ghost use Rattle.pq_query_read.specs.Queries.{read_query_of, IsQueryOf, IsQueryRefusal};
ghost use Rattle.pq_query_read.specs.Resolving.{is_outside_selected, clause_counts_refusal, resolved_select};
ghost use Rattle.pq_query_read.specs.declared.select.SelectDef as declared;

use crate::columns::selected;
use crate::conditions::predicates;
use crate::ordering::{order, stop};
use crate::params::params;
use crate::reading::read_select;
use crate::relations::relations;
use crate::select::{SelectDef, Selected};
use pq_base::{List, PText, Refusal, Stopped, count_word};
use pq_schema::{Catalog, Query};
use pq_text::Token;
use std::alloc::Global;

fn counted(word: u8) -> Stopped
    ensures { result ≡ Stopped.Refused (Refusal.Count word) }
{
    Stopped::Refused(Refusal::Count { word })
}

fn is_outside(count: usize, most: usize) -> bool
    ensures { result ≡ is_outside count most }
{
    count < 1 || most < count
}

fn is_outside_selected(selected: &Selected) -> bool
    ensures { result ≡ is_outside_selected selected.now }
{
    match selected {
        Selected::Star => false,
        Selected::Refs(refs) => is_outside(refs.items().len(), 192),
    }
}

/// Refuses no relation, and a relation, a predicate, an order column or a selected column too many.
fn check_counts(def: &SelectDef) -> Result<(), Stopped>
    ensures refusal { Passes result (clause_counts_refusal def.now) }
    ensures relations { IfOk result (λ _. length def.now.relations ≤ 6) }
    ensures preds { IfOk result (λ _. length def.now.preds ≤ 16) }
{
    if is_outside(def.relations.items().len(), 6) {
        return Err(counted(count_word::RELATIONS));
    }
    if 16 < def.preds.items().len() {
        return Err(counted(count_word::PREDICATES));
    }
    if 4 < def.order.items().len() {
        return Err(counted(count_word::ORDER));
    }
    if is_outside_selected(&def.selected) {
        return Err(counted(count_word::SELECTED));
    }
    Ok(())
}

/// The query that the text stands for over the catalog, or its first refusal.
#[tactic(auto, unfolding(crate::specs::Resolving::resolved_select))]
fn resolve(alloc: Global, catalog: &Catalog, name: PText, def: &SelectDef) -> Result<Query, Stopped>
    ensures { Answers result (resolved_select catalog.now name def.now) }
{
    check_counts(def)?;
    let relations = relations(alloc, catalog, def.relations.items())?;
    let from = relations.items();
    let select = selected(alloc, catalog, from, &def.selected)?;
    let preds = predicates(alloc, catalog, from, def.preds.items())?;
    let order = order(alloc, catalog, from, def.order.items())?;
    let stop = stop(&def.stop)?;
    let params = params(alloc, catalog, from, preds.items())?;
    Ok(Query {
        name,
        relations,
        select,
        preds,
        order,
        stop,
        params,
    })
}

/// The query of this name that the tokens of the text spell from a place on, over the catalog.
///
/// # Errors
///
/// `Syntax` where they spell none, with the offset of the first token such that no query begins with the tokens
/// from the place up to and with it, or the length of the text where there is no such token. Else the first of
/// these: too many relations, predicates, order columns or selected columns; for each relation in order an unknown
/// table and a repeated alias; an unknown selected column; for each predicate an unknown column left and right, and
/// an operand of another kind; for each column of ORDER BY an unknown and a repeated one; a number of rows outside
/// its limit; parameters that aren't numbered from 1 without a gap or have two kinds.
pub fn read_query(
    alloc: Global,
    catalog: &Catalog,
    name: PText,
    text: &PText,
    tokens: &List<Token>,
    from: u32,
) -> Result<Query, Stopped>
    requires tokens { tokens.now ≡ tokens_of text.now }
    requires within { from ≤ length tokens.now }
    // What is read is what the tokens spell, with numbers in place of names.
    ensures found { IfOk result (IsQueryOf catalog.now name (drop from (shapes_of text.now tokens.now))) }
    // What the tokens spell is read, or refused with its first refusal, unless memory runs out.
    ensures only { (def : declared.SelectDef) → SpellsSelect def (drop from (shapes_of text.now tokens.now))
        → Answers result (resolved_select catalog.now name def) }
    // A refusal is the first one of what the tokens spell, or the place of the fault where they spell nothing.
    ensures refused { IfErr result (IsQueryRefusal catalog.now name text.now tokens.now from) }
    // The query that reading from left to right and resolving gives.
    ensures reads { Answers result (read_query_of catalog.now name text.now tokens.now from) }
    // The query is one that planning takes, under the name that was asked.
    ensures sound { IfOk result (λ query. IsResolved catalog.now.tables query × query.name ≡ name) }
{
    catalog.known();
    match read_select(alloc, text, tokens, from) {
        Err(stopped) => Err(stopped),
        Ok(def) => match resolve(alloc, catalog, name, &def) {
            Err(stopped) => Err(stopped),
            Ok(query) => Ok(query),
        },
    }
}
