//! Reading queries.
ghost use Rattle.std.specs.Prelude.{◌≡◌, ◌≤◌, Ok, IfOk, IfErr, MatchResult, length, drop};
ghost use Rattle.pq_grammar.specs.Answers.{Gives};
ghost use Rattle.pq_shape.specs.Faults.{IsRefusalOf, IsNoMem, IsFaultFrom};
ghost use Rattle.pq_shape.specs.Shapes.{shapes_of};
ghost use Rattle.pq_query_read.specs.Grammar.{SpellsSelect};
ghost use Rattle.pq_query_read.specs.declared.select.SelectDef as declared;
ghost use Rattle.pq_query_read.specs.Reading.{refs_at, relations_at, preds_at, items_at, where_at, order_at, selected_at, select_at, select_read_at, select_of};

use crate::parts::stop;
use crate::select::{ItemDef, PredDef, RefDef, RelationDef, SelectDef, Selected};
use pq_base::{List, PText, Stopped};
use pq_grammar::ReadError;
use pq_shape::{
    BY, Between, Cursor, FROM, ORDER, SELECT, SEMICOLON, STAR, WHERE, separated, syntax,
};
use pq_text::Token;
use std::alloc::Global;

#[tactic(auto, unfolding(crate::specs::Reading::refs_at))]
fn refs(alloc: Global, c: &mut Cursor) -> Result<List<RefDef>, ReadError>
    ensures { Gives (λ x. (x, c.new)) result (refs_at c.old) }
{
    separated(alloc, c, Between::Comma)
}

#[tactic(auto, unfolding(crate::specs::Reading::relations_at))]
fn relations(alloc: Global, c: &mut Cursor) -> Result<List<RelationDef>, ReadError>
    ensures { Gives (λ x. (x, c.new)) result (relations_at c.old) }
{
    separated(alloc, c, Between::CommaOrJoin)
}

#[tactic(auto, unfolding(crate::specs::Reading::preds_at))]
fn preds(alloc: Global, c: &mut Cursor) -> Result<List<PredDef>, ReadError>
    ensures { Gives (λ x. (x, c.new)) result (preds_at c.old) }
{
    separated(alloc, c, Between::And)
}

#[tactic(auto, unfolding(crate::specs::Reading::items_at))]
fn items(alloc: Global, c: &mut Cursor) -> Result<List<ItemDef>, ReadError>
    ensures { Gives (λ x. (x, c.new)) result (items_at c.old) }
{
    separated(alloc, c, Between::Comma)
}

#[tactic(auto, unfolding(crate::specs::Reading::where_at))]
fn all_preds(alloc: Global, c: &mut Cursor) -> Result<List<PredDef>, ReadError>
    ensures { Gives (λ x. (x, c.new)) result (where_at c.old) }
{
    if !c.is_word(WHERE) {
        return Ok(List::new(alloc));
    }
    c.word(WHERE)?;
    preds(alloc, c)
}

#[tactic(auto, unfolding(crate::specs::Reading::order_at))]
fn order(alloc: Global, c: &mut Cursor) -> Result<List<ItemDef>, ReadError>
    ensures { Gives (λ x. (x, c.new)) result (order_at c.old) }
{
    if !c.is_word(ORDER) {
        return Ok(List::new(alloc));
    }
    c.word(ORDER)?;
    c.word(BY)?;
    items(alloc, c)
}

#[tactic(auto, unfolding(crate::specs::Reading::selected_at))]
fn columns(alloc: Global, c: &mut Cursor) -> Result<Selected, ReadError>
    ensures { Gives (λ x. (x, c.new)) result (selected_at c.old) }
{
    if c.is_mark(STAR) {
        c.mark(STAR)?;
        return Ok(Selected::Star);
    }
    let refs = refs(alloc, c)?;
    Ok(Selected::Refs(refs))
}

#[tactic(auto, unfolding(crate::specs::Reading::select_at))]
fn query(alloc: Global, c: &mut Cursor) -> Result<SelectDef, ReadError>
    ensures { Gives (λ x. (x, c.new)) result (select_at c.old) }
{
    c.word(SELECT)?;
    let selected = columns(alloc, c)?;
    c.word(FROM)?;
    let relations = relations(alloc, c)?;
    let preds = all_preds(alloc, c)?;
    let order = order(alloc, c)?;
    let stop = stop(c)?;
    c.mark(SEMICOLON)?;
    Ok(SelectDef {
        selected,
        relations,
        preds,
        order,
        stop,
    })
}

/// Reads all that is left.
#[tactic(auto, unfolding(crate::specs::Reading::select_read_at))]
fn whole(alloc: Global, c: &mut Cursor) -> Result<SelectDef, ReadError>
    ensures { Gives (λ x. x) result (select_read_at c.old) }
{
    let select = query(alloc, c)?;
    let left = c.left();
    if left != 0 {
        return Err(ReadError::Stuck(left));
    }
    Ok(select)
}

/// The tokens from a place on.
fn after(tokens: &[Token], from: usize) -> &[Token]
    requires { from ≤ length tokens.now }
    ensures { result.now ≡ drop from tokens.now }
{
    &tokens[from..]
}

/// Reads from left to right.
#[tactic(auto, using(crate::proofs::After::shapes_after))]
fn read(alloc: Global, text: &PText, tokens: &List<Token>, from: u32) -> Result<SelectDef, Stopped>
    requires { from ≤ length tokens.now }
    ensures reads { IfOk result (λ s. select_of text.now tokens.now from ≡ Ok s) }
    ensures stops { IfErr result (IsRefusalOf text.now tokens.now (select_of text.now tokens.now from)) }
{
    let rest = after(tokens.items(), from as usize);
    match whole(alloc, &mut Cursor::over(text.bytes(), rest)) {
        Ok(select) => Ok(select),
        Err(ReadError::NoMem) => Err(Stopped::NoMem),
        Err(ReadError::Stuck(left)) => Err(syntax(text.bytes(), tokens.items(), left)),
    }
}

/// The query that the tokens of the text from a place on spell.
///
/// # Errors
///
/// `Syntax` where they spell none, with the offset of the first token such that no query begins with the tokens
/// from the place up to and with it, or the length of the text where there is no such token.
pub fn read_select(
    alloc: Global,
    text: &PText,
    tokens: &List<Token>,
    from: u32,
) -> Result<SelectDef, Stopped>
    requires { from ≤ length tokens.now }
    // What is read is spelled so.
    ensures found { IfOk result (λ s. SpellsSelect s (drop from (shapes_of text.now tokens.now))) }
    // What is spelled so is read, unless memory runs out.
    ensures only { (s : declared.SelectDef) → SpellsSelect s (drop from (shapes_of text.now tokens.now))
        → MatchResult result (λ x. x ≡ s) IsNoMem }
    // The place of the fault.
    ensures fault { IfErr result (IsFaultFrom SpellsSelect text.now tokens.now from) }
    // The query that reading from left to right gives.
    ensures reads { IfOk result (λ s. select_of text.now tokens.now from ≡ Ok s) }
    // The refusal for the place where reading stopped.
    ensures stops { IfErr result (IsRefusalOf text.now tokens.now (select_of text.now tokens.now from)) }
{
    match read(alloc, text, tokens, from) {
        Ok(select) => Ok(select),
        Err(stopped) => Err(stopped),
    }
}
