//! Reading the parts of a query.
ghost use Rattle.std.specs.Prelude.{◌≡◌, Ok};
ghost use Rattle.pq_grammar.specs.Answers.{Gives};
ghost use Rattle.pq_query_read.specs.Reading.{part_at, ref_at, alias_at, relation_clause_at, label_at, param_at, plain_at, operand_at, equality_at, compare_at, null_test_at, comparison_at, pred_at, dir_at, item_at, stop_clause_at};

use crate::select::{ItemDef, OperandDef, PredDef, RefDef, RelationDef, StopDef};
use pq_base::{Dir, Op, PText, Value};
use pq_grammar::ReadError;
use pq_shape::{
    AS, ASC, CLOSE_SQUARE, COLON, Cursor, DESC, EQUAL, LIMIT, OPEN_SQUARE, PAGINATE, POINT, Part,
    Soft, operator,
};
use std::alloc::Global;

#[tactic(auto, unfolding(crate::specs::Reading::part_at))]
fn part(alloc: Global, c: &mut Cursor) -> Result<Option<PText>, ReadError>
    ensures { Gives (λ x. (x, c.new)) result (part_at c.old) }
{
    if c.is_mark(POINT) {
        c.mark(POINT)?;
        let name = c.name(alloc)?;
        return Ok(Some(name));
    }
    Ok(None)
}

#[tactic(auto, unfolding(crate::specs::Reading::ref_at))]
fn reference(alloc: Global, c: &mut Cursor) -> Result<RefDef, ReadError>
    ensures { Gives (λ x. (x, c.new)) result (ref_at c.old) }
{
    let first = c.name(alloc)?;
    let second = part(alloc, c)?;
    Ok(RefDef { first, second })
}

impl Part for RefDef {
    ghost use Rattle.pq_query_read.specs.Reading.{ref_at};
    ghost use Rattle.pq_query_read.specs.Shrinking.{ref_shrinks};

    ghost reads = { ref_at };

    fn part(alloc: Global, c: &mut Cursor) -> Result<RefDef, ReadError> {
        reference(alloc, c)
    }

    ghost shrinks = { ref_shrinks };
}

#[tactic(auto, unfolding(crate::specs::Reading::alias_at))]
fn alias(alloc: Global, c: &mut Cursor) -> Result<Option<PText>, ReadError>
    ensures { Gives (λ x. (x, c.new)) result (alias_at c.old) }
{
    if c.is_word(AS) {
        c.word(AS)?;
        let name = c.name(alloc)?;
        return Ok(Some(name));
    }
    if c.is_name() {
        let name = c.name(alloc)?;
        return Ok(Some(name));
    }
    Ok(None)
}

#[tactic(auto, unfolding(crate::specs::Reading::relation_clause_at))]
fn relation(alloc: Global, c: &mut Cursor) -> Result<RelationDef, ReadError>
    ensures { Gives (λ x. (x, c.new)) result (relation_clause_at c.old) }
{
    let table = c.name(alloc)?;
    let alias = alias(alloc, c)?;
    Ok(RelationDef { table, alias })
}

impl Part for RelationDef {
    ghost use Rattle.pq_query_read.specs.Reading.{relation_clause_at};
    ghost use Rattle.pq_query_read.specs.Shrinking.{relation_shrinks};

    ghost reads = { relation_clause_at };

    fn part(alloc: Global, c: &mut Cursor) -> Result<RelationDef, ReadError> {
        relation(alloc, c)
    }

    ghost shrinks = { relation_shrinks };
}

#[tactic(auto, unfolding(crate::specs::Reading::label_at))]
fn label(alloc: Global, c: &mut Cursor) -> Result<Option<PText>, ReadError>
    ensures { Gives (λ x. (x, c.new)) result (label_at c.old) }
{
    if c.is_mark(COLON) {
        c.mark(COLON)?;
        let name = c.name(alloc)?;
        return Ok(Some(name));
    }
    Ok(None)
}

#[tactic(auto, unfolding(crate::specs::Reading::param_at))]
fn param(alloc: Global, c: &mut Cursor) -> Result<OperandDef, ReadError>
    ensures { Gives (λ x. (x, c.new)) result (param_at c.old) }
{
    c.mark(OPEN_SQUARE)?;
    let number = c.number()?;
    let _label = label(alloc, c)?;
    c.mark(CLOSE_SQUARE)?;
    Ok(OperandDef::Param(number))
}

#[tactic(auto, unfolding(crate::specs::Reading::plain_at))]
fn plain(alloc: Global, c: &mut Cursor) -> Result<OperandDef, ReadError>
    ensures { Gives (λ x. (x, c.new)) result (plain_at c.old) }
{
    if c.is_mark(OPEN_SQUARE) {
        return param(alloc, c);
    }
    let value = c.constant(alloc)?;
    Ok(OperandDef::Const(value))
}

#[tactic(auto, unfolding(crate::specs::Reading::operand_at))]
fn operand(alloc: Global, c: &mut Cursor) -> Result<OperandDef, ReadError>
    ensures { Gives (λ x. (x, c.new)) result (operand_at c.old) }
{
    if c.is_name() {
        let col = reference(alloc, c)?;
        return Ok(OperandDef::Ref(col));
    }
    plain(alloc, c)
}

#[tactic(auto, unfolding(crate::specs::Reading::equality_at))]
fn equality(alloc: Global, c: &mut Cursor) -> Result<(Op, OperandDef), ReadError>
    ensures { Gives (λ x. ((x.0, x.1), c.new)) result (equality_at c.old) }
{
    c.mark(EQUAL)?;
    let right = operand(alloc, c)?;
    Ok((Op::Eq, right))
}

#[tactic(auto, unfolding(crate::specs::Reading::compare_at))]
fn comparison(alloc: Global, c: &mut Cursor) -> Result<(Op, OperandDef), ReadError>
    ensures { Gives (λ x. ((x.0, x.1), c.new)) result (compare_at c.old) }
{
    if c.is_mark(EQUAL) {
        return equality(alloc, c);
    }
    let op = operator(c)?;
    let right = plain(alloc, c)?;
    Ok((op, right))
}

#[tactic(auto, unfolding(crate::specs::Reading::null_test_at))]
fn null_test(c: &mut Cursor) -> Result<(Op, OperandDef), ReadError>
    ensures { Gives (λ x. ((x.0, x.1), c.new)) result (null_test_at c.old) }
{
    c.soft(Soft::Is)?;
    c.soft(Soft::Null)?;
    Ok((Op::IsNull, OperandDef::Const(Value::Null)))
}

/// Reads a comparison, or IS NULL.
#[tactic(auto, unfolding(crate::specs::Reading::comparison_at))]
fn condition(alloc: Global, c: &mut Cursor) -> Result<(Op, OperandDef), ReadError>
    ensures { Gives (λ x. ((x.0, x.1), c.new)) result (comparison_at c.old) }
{
    if c.is_soft(Soft::Is) {
        return null_test(c);
    }
    comparison(alloc, c)
}

#[tactic(auto, unfolding(crate::specs::Reading::pred_at))]
fn pred(alloc: Global, c: &mut Cursor) -> Result<PredDef, ReadError>
    ensures { Gives (λ x. (x, c.new)) result (pred_at c.old) }
{
    let left = reference(alloc, c)?;
    let (op, right) = condition(alloc, c)?;
    Ok(PredDef { left, op, right })
}

impl Part for PredDef {
    ghost use Rattle.pq_query_read.specs.Reading.{pred_at};
    ghost use Rattle.pq_query_read.specs.Shrinking.{pred_shrinks};

    ghost reads = { pred_at };

    fn part(alloc: Global, c: &mut Cursor) -> Result<PredDef, ReadError> {
        pred(alloc, c)
    }

    ghost shrinks = { pred_shrinks };
}

#[tactic(auto, unfolding(crate::specs::Reading::dir_at))]
fn direction(c: &mut Cursor) -> Result<Dir, ReadError>
    ensures { Gives (λ x. (x, c.new)) result (dir_at c.old) }
{
    if c.is_word(DESC) {
        c.word(DESC)?;
        return Ok(Dir::Desc);
    }
    if c.is_word(ASC) {
        c.word(ASC)?;
    }
    Ok(Dir::Asc)
}

#[tactic(auto, unfolding(crate::specs::Reading::item_at))]
fn item(alloc: Global, c: &mut Cursor) -> Result<ItemDef, ReadError>
    ensures { Gives (λ x. (x, c.new)) result (item_at c.old) }
{
    let col = reference(alloc, c)?;
    let dir = direction(c)?;
    Ok(ItemDef { col, dir })
}

impl Part for ItemDef {
    ghost use Rattle.pq_query_read.specs.Reading.{item_at};
    ghost use Rattle.pq_query_read.specs.Shrinking.{item_shrinks};

    ghost reads = { item_at };

    fn part(alloc: Global, c: &mut Cursor) -> Result<ItemDef, ReadError> {
        item(alloc, c)
    }

    ghost shrinks = { item_shrinks };
}

/// Reads LIMIT or PAGINATE and a number, or nothing.
#[tactic(auto, unfolding(crate::specs::Reading::stop_clause_at))]
pub fn stop(c: &mut Cursor) -> Result<StopDef, ReadError>
    ensures { Gives (λ x. (x, c.new)) result (stop_clause_at c.old) }
{
    if c.is_word(LIMIT) {
        c.word(LIMIT)?;
        let number = c.number()?;
        return Ok(StopDef::Limit(number));
    }
    if c.is_word(PAGINATE) {
        c.word(PAGINATE)?;
        let number = c.number()?;
        return Ok(StopDef::Paginate(number));
    }
    Ok(StopDef::All)
}
