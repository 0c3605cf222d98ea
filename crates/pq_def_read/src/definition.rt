//! Reading the definitions of a table, of an added column and of a counter.
ghost use Rattle.std.specs.Prelude.{◌≡◌, IfOk, OnOk};
ghost use Rattle.pq_grammar.specs.Answers.{Gives};
ghost use Rattle.pq_def_read.specs.Definitions.{names_at, cols_at, text_kind_at, kind_at, nullable_at, column_at, ended_column_at, columns_at, limit_clause_at, foreign_at, constraint_at, next_constraint_at, constraints_at, with_constraint, statement_end_at, body_at, table_definition_at, counter_definition_at, alter_at};

use pq_base::{List, NoMem, PText};
use pq_grammar::ReadError;
use pq_schema::{AlterDef, ColumnDef, CounterDef, ForeignDef, LimitDef, TableDef};
use pq_shape::{
    BOOL, Between, CARDINALITY, CLOSE, COMMA, Cursor, FOREIGN, INT, KEY, LIMIT, OPEN, PRIMARY,
    REFERENCES, SEMICOLON, Soft, TABLE, TEXT, separated,
};
use std::alloc::Global;

#[tactic(auto, unfolding(crate::specs::Definitions::names_at))]
fn names(alloc: Global, c: &mut Cursor) -> Result<List<PText>, ReadError>
    ensures { Gives (λ x. (x, c.new)) result (names_at c.old) }
{
    separated(alloc, c, Between::Comma)
}

/// Reads names between parentheses.
#[tactic(auto, unfolding(crate::specs::Definitions::cols_at))]
pub fn cols(alloc: Global, c: &mut Cursor) -> Result<List<PText>, ReadError>
    ensures { Gives (λ x. (x, c.new)) result (cols_at c.old) }
{
    c.mark(OPEN)?;
    let names = names(alloc, c)?;
    c.mark(CLOSE)?;
    Ok(names)
}

/// The text of a word.
fn word_text(alloc: Global, word: &str) -> Result<PText, NoMem>
    ensures { IfOk result (λ text. text ≡ word.now) }
{
    let made = PText::from_bytes(alloc, word.as_bytes())?;
    match made {
        Some(text) => Ok(text),
        None => unreachable!(),
    }
}

/// The kind of a column, with the size of TEXT, else 0.
#[derive(Drop)]
pub struct Kind {
    pub name: PText,
    pub size: i64,
}

#[tactic(auto, unfolding(crate::specs::Definitions::text_kind_at))]
fn text_kind(alloc: Global, c: &mut Cursor) -> Result<Kind, ReadError>
    ensures { Gives (λ x. (x, c.new)) result (text_kind_at c.old) }
{
    c.word(TEXT)?;
    c.mark(OPEN)?;
    let size = c.number()?;
    c.mark(CLOSE)?;
    let name = word_text(alloc, "TEXT")?;
    Ok(Kind { name, size })
}

#[tactic(auto, unfolding(crate::specs::Definitions::kind_at))]
fn any_kind(alloc: Global, c: &mut Cursor) -> Result<Kind, ReadError>
    ensures { Gives (λ x. (x, c.new)) result (kind_at c.old) }
{
    if c.is_word(TEXT) {
        return text_kind(alloc, c);
    }
    if c.is_word(INT) {
        c.word(INT)?;
        let name = word_text(alloc, "INT")?;
        return Ok(Kind { name, size: 0 });
    }
    c.word(BOOL)?;
    let name = word_text(alloc, "BOOL")?;
    Ok(Kind { name, size: 0 })
}

/// Reads NULL, where it is there.
#[tactic(auto, unfolding(crate::specs::Definitions::nullable_at))]
fn nullable(c: &mut Cursor) -> Result<bool, ReadError>
    ensures { Gives (λ x. (x, c.new)) result (nullable_at c.old) }
{
    if !c.is_soft(Soft::Null) {
        return Ok(false);
    }
    c.soft(Soft::Null)?;
    Ok(true)
}

#[tactic(auto, unfolding(crate::specs::Definitions::column_at))]
fn column(alloc: Global, c: &mut Cursor) -> Result<ColumnDef, ReadError>
    ensures { Gives (λ x. (x, c.new)) result (column_at c.old) }
{
    let name = c.name(alloc)?;
    let kind = any_kind(alloc, c)?;
    let nullable = nullable(c)?;
    Ok(ColumnDef {
        name,
        kind: kind.name,
        size: kind.size,
        nullable,
    })
}

/// Reads a column and a comma.
fn ended_column(alloc: Global, c: &mut Cursor) -> Result<ColumnDef, ReadError>
    ensures { Gives (λ x. (x, c.new)) result (ended_column_at c.old) }
{
    let column = column(alloc, c)?;
    c.mark(COMMA)?;
    Ok(column)
}

#[tactic(auto, unfolding(crate::specs::Definitions::columns_at))]
fn columns(alloc: Global, c: &mut Cursor) -> Result<List<ColumnDef>, ReadError>
    ensures { Gives (λ x. (x, c.new)) result (columns_at c.old) }
{
    let mut columns = List::new(alloc);
    let first = ended_column(alloc, c)?;
    columns.push(alloc, first)?;
    'more: while c.is_name() {
        let next = ended_column(alloc, c)?;
        columns.push(alloc, next)?;
    }
    Ok(columns)
}

#[tactic(auto, unfolding(crate::specs::Definitions::limit_clause_at))]
fn limit(alloc: Global, c: &mut Cursor) -> Result<LimitDef, ReadError>
    ensures { Gives (λ x. (x, c.new)) result (limit_clause_at c.old) }
{
    c.word(CARDINALITY)?;
    c.word(LIMIT)?;
    let n = c.number()?;
    let cols = cols(alloc, c)?;
    Ok(LimitDef { n, cols })
}

#[tactic(auto, unfolding(crate::specs::Definitions::foreign_at))]
fn foreign(alloc: Global, c: &mut Cursor) -> Result<ForeignDef, ReadError>
    ensures { Gives (λ x. (x, c.new)) result (foreign_at c.old) }
{
    c.word(FOREIGN)?;
    c.word(KEY)?;
    let cols = cols(alloc, c)?;
    c.word(REFERENCES)?;
    let table = c.name(alloc)?;
    Ok(ForeignDef { cols, table })
}

/// A limit or a foreign key.
#[derive(Drop)]
pub enum Constraint {
    Limit(LimitDef),
    Foreign(ForeignDef),
}

#[tactic(auto, unfolding(crate::specs::Definitions::constraint_at))]
fn any_constraint(alloc: Global, c: &mut Cursor) -> Result<Constraint, ReadError>
    ensures { Gives (λ x. (x, c.new)) result (constraint_at c.old) }
{
    if c.is_word(FOREIGN) {
        return Ok(Constraint::Foreign(foreign(alloc, c)?));
    }
    Ok(Constraint::Limit(limit(alloc, c)?))
}

/// Reads a comma and a limit or a foreign key.
#[tactic(auto, unfolding(crate::specs::Definitions::next_constraint_at))]
fn next_constraint(alloc: Global, c: &mut Cursor) -> Result<Constraint, ReadError>
    ensures { Gives (λ x. (x, c.new)) result (next_constraint_at c.old) }
{
    c.mark(COMMA)?;
    any_constraint(alloc, c)
}

/// The limits in order, and the foreign keys in order.
#[derive(Drop)]
pub struct Constraints {
    pub limits: List<LimitDef>,
    pub foreign: List<ForeignDef>,
}

/// Puts a limit or a foreign key behind those of its kind.
fn put(alloc: Global, held: &mut Constraints, constraint: Constraint) -> Result<(), NoMem>
    ensures { OnOk result (held.new ≡ with_constraint held.old constraint) }
{
    match constraint {
        Constraint::Limit(limit) => held.limits.push(alloc, limit),
        Constraint::Foreign(foreign) => held.foreign.push(alloc, foreign),
    }
}

#[tactic(auto, unfolding(crate::specs::Definitions::constraints_at))]
fn all_constraints(alloc: Global, c: &mut Cursor) -> Result<Constraints, ReadError>
    ensures { Gives (λ x. (x, c.new)) result (constraints_at c.old) }
{
    let mut held = Constraints {
        limits: List::new(alloc),
        foreign: List::new(alloc),
    };
    'more: while c.is_mark(COMMA) {
        let next = next_constraint(alloc, c)?;
        put(alloc, &mut held, next)?;
    }
    Ok(held)
}

/// Reads what ends a list and the statement.
#[tactic(auto, unfolding(crate::specs::Definitions::statement_end_at))]
pub fn stop(c: &mut Cursor) -> Result<(), ReadError>
    ensures { Gives (λ x. (x, c.new)) result (statement_end_at c.old) }
{
    c.mark(CLOSE)?;
    c.mark(SEMICOLON)
}

/// The key, the limits and the foreign keys.
#[derive(Drop)]
struct Body {
    key: List<PText>,
    held: Constraints,
}

/// Reads from PRIMARY on.
#[tactic(auto, unfolding(crate::specs::Definitions::body_at))]
fn table_body(alloc: Global, c: &mut Cursor) -> Result<Body, ReadError>
    ensures { Gives (λ x. ((x.key, x.held), c.new)) result (body_at c.old) }
{
    c.word(PRIMARY)?;
    c.word(KEY)?;
    let key = cols(alloc, c)?;
    let held = all_constraints(alloc, c)?;
    stop(c)?;
    Ok(Body { key, held })
}

/// Reads a table's definition from TABLE on.
#[tactic(auto, unfolding(crate::specs::Definitions::table_definition_at))]
pub fn table_definition(alloc: Global, c: &mut Cursor) -> Result<TableDef, ReadError>
    ensures { Gives (λ x. (x, c.new)) result (table_definition_at c.old) }
{
    c.word(TABLE)?;
    let name = c.name(alloc)?;
    c.mark(OPEN)?;
    let columns = columns(alloc, c)?;
    let body = table_body(alloc, c)?;
    Ok(TableDef {
        name,
        columns,
        key: body.key,
        limits: body.held.limits,
        foreign: body.held.foreign,
    })
}

/// Reads a counter's definition from COUNTER on.
#[tactic(auto, unfolding(crate::specs::Definitions::counter_definition_at))]
pub fn counter_definition(alloc: Global, c: &mut Cursor) -> Result<CounterDef, ReadError>
    ensures { Gives (λ x. (x, c.new)) result (counter_definition_at c.old) }
{
    c.soft(Soft::Counter)?;
    let name = c.name(alloc)?;
    c.soft(Soft::Of)?;
    let table = c.name(alloc)?;
    let cols = cols(alloc, c)?;
    c.mark(SEMICOLON)?;
    Ok(CounterDef { name, table, cols })
}

/// Reads ALTER TABLE.
#[tactic(auto, unfolding(crate::specs::Definitions::alter_at))]
pub fn alter(alloc: Global, c: &mut Cursor) -> Result<AlterDef, ReadError>
    ensures { Gives (λ x. (x, c.new)) result (alter_at c.old) }
{
    c.soft(Soft::Alter)?;
    c.word(TABLE)?;
    let table = c.name(alloc)?;
    c.soft(Soft::Add)?;
    c.soft(Soft::Column)?;
    let column = column(alloc, c)?;
    c.soft(Soft::Default)?;
    let filler = c.value(alloc)?;
    c.mark(SEMICOLON)?;
    Ok(AlterDef {
        table,
        column,
        filler,
    })
}
