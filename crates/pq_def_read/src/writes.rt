//! Reading writes.
ghost use Rattle.pq_grammar.specs.Answers.{Gives};
ghost use Rattle.pq_grammar.specs.Reader.{option_at};
ghost use Rattle.pq_shape.specs.Front.{is_mark_shape};
ghost use Rattle.pq_def_read.specs.Definitions.{cols_at};
ghost use Rattle.pq_def_read.specs.Writes.{values_clause_at, setting_at, set_at, sets_at, assign_at, key_clause_at, any_operator_at, compare_at, null_test_at, comparison_at, cond_at, conds_at, conditions_at, insert_at, update_at, delete_at, write_at, writes_at};

use crate::definition::cols;
use crate::write::{Assign, CondDef, SetDef, Setting, WriteDef};
use pq_base::{List, Op, PText, Value};
use pq_grammar::ReadError;
use pq_shape::{
    Between, CLOSE, Cursor, DELETE, EQUAL, FROM, INSERT, INTO, OPEN, Part, SET, Soft, UPDATE,
    VALUES, WHERE, operator, separated,
};
use std::alloc::Global;

/// Reads one value or more.
#[tactic(auto, unfolding(crate::specs::Writes::values_clause_at))]
pub fn values(alloc: Global, c: &mut Cursor) -> Result<List<Value>, ReadError>
    ensures { Gives (λ x. (x, c.new)) result (values_clause_at c.old) }
{
    separated(alloc, c, Between::Comma)
}

/// Reads ADD and a number, or `=` and a value.
#[tactic(auto, unfolding(crate::specs::Writes::setting_at))]
fn setting(alloc: Global, c: &mut Cursor) -> Result<Setting, ReadError>
    ensures { Gives (λ x. (x, c.new)) result (setting_at c.old) }
{
    if c.is_soft(Soft::Add) {
        c.soft(Soft::Add)?;
        let number = c.number()?;
        return Ok(Setting::Add(number));
    }
    c.mark(EQUAL)?;
    let value = c.value(alloc)?;
    Ok(Setting::Is(value))
}

#[tactic(auto, unfolding(crate::specs::Writes::set_at))]
fn set(alloc: Global, c: &mut Cursor) -> Result<SetDef, ReadError>
    ensures { Gives (λ x. (x, c.new)) result (set_at c.old) }
{
    let col = c.name(alloc)?;
    let to = setting(alloc, c)?;
    Ok(SetDef { col, to })
}

impl Part for SetDef {
    ghost use Rattle.pq_def_read.specs.Writes.{set_at};
    ghost use Rattle.pq_def_read.specs.Shrinking.{set_shrinks};

    ghost reads = { set_at };

    fn part(alloc: Global, c: &mut Cursor) -> Result<SetDef, ReadError> {
        set(alloc, c)
    }

    ghost shrinks = { set_shrinks };
}

#[tactic(auto, unfolding(crate::specs::Writes::sets_at))]
fn sets(alloc: Global, c: &mut Cursor) -> Result<List<SetDef>, ReadError>
    ensures { Gives (λ x. (x, c.new)) result (sets_at c.old) }
{
    separated(alloc, c, Between::Comma)
}

impl Part for Assign {
    ghost use Rattle.pq_def_read.specs.Writes.{assign_at};
    ghost use Rattle.pq_def_read.specs.Shrinking.{assign_shrinks};

    ghost reads = { assign_at };

    fn part(alloc: Global, c: &mut Cursor) -> Result<Assign, ReadError> {
        let col = c.name(alloc)?;
        c.mark(EQUAL)?;
        let value = c.value(alloc)?;
        Ok(Assign { col, value })
    }

    ghost shrinks = { assign_shrinks };
}

#[tactic(auto, unfolding(crate::specs::Writes::key_clause_at))]
fn key(alloc: Global, c: &mut Cursor) -> Result<List<Assign>, ReadError>
    ensures { Gives (λ x. (x, c.new)) result (key_clause_at c.old) }
{
    separated(alloc, c, Between::And)
}

/// Reads an operator.
#[tactic(auto, unfolding(crate::specs::Writes::any_operator_at))]
fn any_operator(c: &mut Cursor) -> Result<Op, ReadError>
    ensures { Gives (λ x. (x, c.new)) result (any_operator_at c.old) }
{
    if c.is_mark(EQUAL) {
        c.mark(EQUAL)?;
        return Ok(Op::Eq);
    }
    operator(c)
}

#[tactic(auto, unfolding(crate::specs::Writes::compare_at))]
fn compare(alloc: Global, c: &mut Cursor) -> Result<(Op, Value), ReadError>
    ensures { Gives (λ x. ((x.0, x.1), c.new)) result (compare_at c.old) }
{
    let op = any_operator(c)?;
    let value = c.constant(alloc)?;
    Ok((op, value))
}

#[tactic(auto, unfolding(crate::specs::Writes::null_test_at))]
fn null_test(c: &mut Cursor) -> Result<(Op, Value), ReadError>
    ensures { Gives (λ x. ((x.0, x.1), c.new)) result (null_test_at c.old) }
{
    c.soft(Soft::Is)?;
    c.soft(Soft::Null)?;
    Ok((Op::IsNull, Value::Null))
}

/// Reads an operator and a constant, or IS NULL.
#[tactic(auto, unfolding(crate::specs::Writes::comparison_at))]
fn comparison(alloc: Global, c: &mut Cursor) -> Result<(Op, Value), ReadError>
    ensures { Gives (λ x. ((x.0, x.1), c.new)) result (comparison_at c.old) }
{
    if c.is_soft(Soft::Is) {
        return null_test(c);
    }
    compare(alloc, c)
}

#[tactic(auto, unfolding(crate::specs::Writes::cond_at))]
fn condition(alloc: Global, c: &mut Cursor) -> Result<CondDef, ReadError>
    ensures { Gives (λ x. (x, c.new)) result (cond_at c.old) }
{
    let col = c.name(alloc)?;
    let (op, value) = comparison(alloc, c)?;
    Ok(CondDef { col, op, value })
}

impl Part for CondDef {
    ghost use Rattle.pq_def_read.specs.Writes.{cond_at};
    ghost use Rattle.pq_def_read.specs.Shrinking.{cond_shrinks};

    ghost reads = { cond_at };

    fn part(alloc: Global, c: &mut Cursor) -> Result<CondDef, ReadError> {
        condition(alloc, c)
    }

    ghost shrinks = { cond_shrinks };
}

#[tactic(auto, unfolding(crate::specs::Writes::conds_at))]
fn conditions(alloc: Global, c: &mut Cursor) -> Result<List<CondDef>, ReadError>
    ensures { Gives (λ x. (x, c.new)) result (conds_at c.old) }
{
    separated(alloc, c, Between::And)
}

/// Reads IF and conditions, or nothing.
#[tactic(auto, unfolding(crate::specs::Writes::conditions_at))]
fn all_conditions(alloc: Global, c: &mut Cursor) -> Result<List<CondDef>, ReadError>
    ensures { Gives (λ x. (x, c.new)) result (conditions_at c.old) }
{
    if !c.is_soft(Soft::If) {
        return Ok(List::new(alloc));
    }
    c.soft(Soft::If)?;
    conditions(alloc, c)
}

fn option_cols(alloc: Global, c: &mut Cursor) -> Result<Option<List<PText>>, ReadError>
    ensures { Gives (λ x. (x, c.new)) result (option_at (is_mark_shape OPEN) cols_at c.old) }
{
    if c.is_mark(OPEN) {
        let names = cols(alloc, c)?;
        return Ok(Some(names));
    }
    Ok(None)
}

#[tactic(auto, unfolding(crate::specs::Writes::insert_at))]
fn insert(alloc: Global, c: &mut Cursor) -> Result<WriteDef, ReadError>
    ensures { Gives (λ x. (x, c.new)) result (insert_at c.old) }
{
    c.word(INSERT)?;
    c.word(INTO)?;
    let table = c.name(alloc)?;
    let cols = option_cols(alloc, c)?;
    c.word(VALUES)?;
    c.mark(OPEN)?;
    let values = values(alloc, c)?;
    c.mark(CLOSE)?;
    Ok(WriteDef::Insert {
        table,
        cols,
        values,
    })
}

#[tactic(auto, unfolding(crate::specs::Writes::update_at))]
fn update(alloc: Global, c: &mut Cursor) -> Result<WriteDef, ReadError>
    ensures { Gives (λ x. (x, c.new)) result (update_at c.old) }
{
    c.word(UPDATE)?;
    let table = c.name(alloc)?;
    c.word(SET)?;
    let sets = sets(alloc, c)?;
    c.word(WHERE)?;
    let key = key(alloc, c)?;
    let conds = all_conditions(alloc, c)?;
    Ok(WriteDef::Update {
        table,
        sets,
        key,
        conds,
    })
}

#[tactic(auto, unfolding(crate::specs::Writes::delete_at))]
fn delete(alloc: Global, c: &mut Cursor) -> Result<WriteDef, ReadError>
    ensures { Gives (λ x. (x, c.new)) result (delete_at c.old) }
{
    c.word(DELETE)?;
    c.word(FROM)?;
    let table = c.name(alloc)?;
    c.word(WHERE)?;
    let key = key(alloc, c)?;
    let conds = all_conditions(alloc, c)?;
    Ok(WriteDef::Delete { table, key, conds })
}

/// Reads a write, without a mark behind it.
#[tactic(auto, unfolding(crate::specs::Writes::write_at))]
pub fn any_write(alloc: Global, c: &mut Cursor) -> Result<WriteDef, ReadError>
    ensures { Gives (λ x. (x, c.new)) result (write_at c.old) }
{
    if c.is_word(INSERT) {
        return insert(alloc, c);
    }
    if c.is_word(UPDATE) {
        return update(alloc, c);
    }
    delete(alloc, c)
}

impl Part for WriteDef {
    ghost use Rattle.pq_def_read.specs.Writes.{write_at};
    ghost use Rattle.pq_def_read.specs.Shrinking.{write_shrinks};

    ghost reads = { write_at };

    fn part(alloc: Global, c: &mut Cursor) -> Result<WriteDef, ReadError> {
        any_write(alloc, c)
    }

    ghost shrinks = { write_shrinks };
}

/// Reads the writes of a batch.
#[tactic(auto, unfolding(crate::specs::Writes::writes_at))]
pub fn writes(alloc: Global, c: &mut Cursor) -> Result<List<WriteDef>, ReadError>
    ensures { Gives (λ x. (x, c.new)) result (writes_at c.old) }
{
    separated(alloc, c, Between::Comma)
}
