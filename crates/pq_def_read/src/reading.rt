//! Reading statements.
ghost use Rattle.std.specs.Prelude.{◌≡◌, ◌-◌, ◌≤◌, ◌^◌, ℕ, length, Result, Ok, Err, IfOk, IfErr, MatchResult, min};
ghost use Rattle.pq_grammar.specs.Answers.{Gives};
ghost use Rattle.pq_grammar.specs.Reader.{close_at};
ghost use Rattle.pq_def_read.specs.Reading.{create_statement_at, written_at, batch_at, prepare_at, explain_at, select_at, listed_values_at, arguments_at, after_at, run_at, read_counter_at, show_at, statement_at, read_at, statement_of};
ghost use Rattle.pq_shape.specs.Front.{mark_at};
ghost use Rattle.pq_shape.specs.Shapes.{shapes_of};
ghost use Rattle.pq_shape.specs.declared.mark.TheConstants.{CLOSE};
ghost use Rattle.pq_text.specs.Tokens.{text_limit, tokens_of};
ghost use Rattle.pq_shape.specs.Faults.{IsRefusalOf, IsNoMem};
ghost use Rattle.pq_def_read.specs.Grammar.{Spells};
ghost use Rattle.pq_def_read.specs.Faults.{IsFault};
ghost use Rattle.pq_def_read.specs.Known.{HasValues};
ghost use Rattle.pq_def_read.specs.declared.statement.Statement as declared;

use crate::definition::{alter, counter_definition, stop, table_definition};
use crate::known::known_statement;
use crate::statement::Statement;
use crate::writes::{any_write, values, writes};
use pq_base::{List, NoMem, PText, Stopped, Value};
use pq_grammar::ReadError;
use pq_shape::{
    AFTER, AS, CLOSE, CREATE, Cursor, EXPLAIN, OPEN, PREPARE, RUN, SELECT, SEMICOLON, SHOW, Soft,
    TABLE, syntax,
};
use pq_text::{Token, tokens};
use std::alloc::Global;

/// The arm of the word that comes next.
macro_rules! by_word {
    ($c:expr; $($word:ident => $arm:expr,)+ _ => $other:expr) => {
        $(if $c.is_word($word) { $arm } else)+ { $other }
    };
}

/// Reads CREATE TABLE or CREATE COUNTER.
#[tactic(auto, unfolding(crate::specs::Reading::create_statement_at))]
fn create(alloc: Global, c: &mut Cursor) -> Result<Statement, ReadError>
    ensures { Gives (λ x. (x, c.new)) result (create_statement_at c.old) }
{
    c.word(CREATE)?;
    if c.is_word(TABLE) {
        return Ok(Statement::Create(table_definition(alloc, c)?));
    }
    Ok(Statement::Counter(counter_definition(alloc, c)?))
}

/// Reads a write and the mark behind it.
#[tactic(auto, unfolding(crate::specs::Reading::written_at))]
fn write(alloc: Global, c: &mut Cursor) -> Result<Statement, ReadError>
    ensures { Gives (λ x. (x, c.new)) result (written_at c.old) }
{
    let write = any_write(alloc, c)?;
    c.mark(SEMICOLON)?;
    Ok(Statement::Write(write))
}

/// Reads a BATCH.
#[tactic(auto, unfolding(crate::specs::Reading::batch_at))]
fn batch(alloc: Global, c: &mut Cursor) -> Result<Statement, ReadError>
    ensures { Gives (λ x. (x, c.new)) result (batch_at c.old) }
{
    c.soft(Soft::Batch)?;
    let writes = writes(alloc, c)?;
    c.mark(SEMICOLON)?;
    Ok(Statement::Batch(writes))
}

/// Reads the head of a PREPARE, and passes over the query.
#[tactic(auto, unfolding(crate::specs::Reading::prepare_at))]
fn prepare(alloc: Global, c: &mut Cursor) -> Result<Statement, ReadError>
    ensures { Gives (λ x. (x, c.new)) result (prepare_at c.old) }
{
    c.word(PREPARE)?;
    let name = c.name(alloc)?;
    c.word(AS)?;
    c.pass_rest();
    Ok(Statement::Prepare { name, from: 3 })
}

/// Reads the head of an EXPLAIN, and passes over the query.
#[tactic(auto, unfolding(crate::specs::Reading::explain_at))]
fn explain(c: &mut Cursor) -> Result<Statement, ReadError>
    ensures { Gives (λ x. (x, c.new)) result (explain_at c.old) }
{
    c.word(EXPLAIN)?;
    c.pass_rest();
    Ok(Statement::Explain { from: 1 })
}

/// Reads the head of a SELECT, and passes over the rest.
#[tactic(auto, unfolding(crate::specs::Reading::select_at))]
fn select(c: &mut Cursor) -> Result<Statement, ReadError>
    ensures { Gives (λ x. (x, c.new)) result (select_at c.old) }
{
    c.word(SELECT)?;
    c.pass_rest();
    Ok(Statement::Select)
}

/// Reads the values, if there are any, and the mark behind them.
#[tactic(auto, using(crate::proofs::Arguments::closes_none, crate::proofs::Arguments::closes_values))]
fn closed_values(alloc: Global, c: &mut Cursor) -> Result<List<Value>, ReadError>
    ensures { Gives (λ x. (x, c.new)) result (close_at listed_values_at (mark_at CLOSE) c.old) }
{
    if c.is_mark(CLOSE) {
        c.mark(CLOSE)?;
        return Ok(List::new(alloc));
    }
    let values = values(alloc, c)?;
    c.mark(CLOSE)?;
    Ok(values)
}

#[tactic(auto, unfolding(crate::specs::Reading::arguments_at))]
fn arguments(alloc: Global, c: &mut Cursor) -> Result<List<Value>, ReadError>
    ensures { Gives (λ x. (x, c.new)) result (arguments_at c.old) }
{
    if !c.is_mark(OPEN) {
        return Ok(List::new(alloc));
    }
    c.mark(OPEN)?;
    closed_values(alloc, c)
}

#[tactic(auto, unfolding(crate::specs::Reading::after_at))]
fn after(alloc: Global, c: &mut Cursor) -> Result<Option<PText>, ReadError>
    ensures { Gives (λ x. (x, c.new)) result (after_at c.old) }
{
    if c.is_word(AFTER) {
        c.word(AFTER)?;
        let cursor = c.text(alloc)?;
        return Ok(Some(cursor));
    }
    Ok(None)
}

#[tactic(auto, unfolding(crate::specs::Reading::run_at))]
fn run(alloc: Global, c: &mut Cursor) -> Result<Statement, ReadError>
    ensures { Gives (λ x. (x, c.new)) result (run_at c.old) }
{
    c.word(RUN)?;
    let name = c.name(alloc)?;
    let values = arguments(alloc, c)?;
    let after = after(alloc, c)?;
    c.mark(SEMICOLON)?;
    Ok(Statement::Run {
        name,
        values,
        after,
    })
}

/// Reads a READ of a counter.
#[tactic(auto, unfolding(crate::specs::Reading::read_counter_at))]
fn read_counter(alloc: Global, c: &mut Cursor) -> Result<Statement, ReadError>
    ensures { Gives (λ x. (x, c.new)) result (read_counter_at c.old) }
{
    c.soft(Soft::Read)?;
    let name = c.name(alloc)?;
    c.mark(OPEN)?;
    let group = values(alloc, c)?;
    stop(c)?;
    Ok(Statement::Read {
        name,
        values: group,
    })
}

#[tactic(auto, unfolding(crate::specs::Reading::show_at))]
fn show(c: &mut Cursor) -> Result<Statement, ReadError>
    ensures { Gives (λ x. (x, c.new)) result (show_at c.old) }
{
    c.word(SHOW)?;
    c.mark(SEMICOLON)?;
    Ok(Statement::Show)
}

#[tactic(auto, unfolding(crate::specs::Reading::statement_at))]
fn any_statement(alloc: Global, c: &mut Cursor) -> Result<Statement, ReadError>
    ensures { Gives (λ x. (x, c.new)) result (statement_at c.old) }
{
    by_word!(c;
        CREATE => create(alloc, c),
        PREPARE => prepare(alloc, c),
        EXPLAIN => explain(c),
        RUN => run(alloc, c),
        SELECT => select(c),
        SHOW => show(c),
        _ => if c.is_soft(Soft::Alter) {
            Ok(Statement::Alter(alter(alloc, c)?))
        } else if c.is_soft(Soft::Read) {
            read_counter(alloc, c)
        } else if c.is_soft(Soft::Batch) {
            batch(alloc, c)
        } else {
            write(alloc, c)
        }
    )
}

/// Reads all that is left.
#[tactic(auto, unfolding(crate::specs::Reading::read_at))]
fn whole(alloc: Global, c: &mut Cursor) -> Result<Statement, ReadError>
    ensures { Gives (λ x. x) result (read_at c.old) }
{
    let statement = any_statement(alloc, c)?;
    let left = c.left();
    if left != 0 {
        return Err(ReadError::Stuck(left));
    }
    Ok(statement)
}

/// Reads these tokens from left to right.
fn read(alloc: Global, text: &PText, tokens: &List<Token>) -> Result<Statement, Stopped>
    ensures reads { IfOk result (λ s. statement_of text.now tokens.now ≡ Ok s) }
    ensures stops { IfErr result (IsRefusalOf text.now tokens.now (statement_of text.now tokens.now)) }
{
    match whole(alloc, &mut Cursor::over(text.bytes(), tokens.items())) {
        Ok(statement) => Ok(statement),
        Err(ReadError::NoMem) => Err(Stopped::NoMem),
        Err(ReadError::Stuck(left)) => Err(syntax(text.bytes(), tokens.items(), left)),
    }
}

/// The refusal of a text in which so many tokens are left.
fn refused(alloc: Global, text: &PText, left: usize) -> Stopped
    requires { length text.now ≤ text_limit }
    ensures { (read : Result declared.Statement ℕ) → read ≡ Err left
        → IsRefusalOf text.now (tokens_of text.now) read result }
{
    match tokens(alloc, text) {
        Ok(tokens) => syntax(text.bytes(), tokens.items(), left),
        Err(NoMem) => Stopped::NoMem,
    }
}

/// Reads the tokens of a text from left to right, each where it is found.
fn read_through(alloc: Global, text: &PText) -> Result<Statement, Stopped>
    requires { length text.now ≤ text_limit }
    ensures reads { IfOk result (λ s. statement_of text.now (tokens_of text.now) ≡ Ok s) }
    ensures stops { IfErr result (IsRefusalOf text.now (tokens_of text.now)
        (statement_of text.now (tokens_of text.now))) }
{
    match whole(alloc, &mut Cursor::new(text.bytes())) {
        Ok(statement) => Ok(statement),
        Err(ReadError::NoMem) => Err(Stopped::NoMem),
        Err(ReadError::Stuck(left)) => Err(refused(alloc, text, left)),
    }
}

/// The statement that the tokens of the text spell.
///
/// # Errors
///
/// `Syntax` where they spell none, with the offset of the first token such that no statement begins with the
/// tokens up to and with it, or the length of the text where there is no such token.
pub fn read_statement(
    alloc: Global,
    text: &PText,
    tokens: &List<Token>,
) -> Result<Statement, Stopped>
    // What is read is spelled so.
    ensures found { IfOk result (λ s. Spells s (shapes_of text.now tokens.now)) }
    // What is spelled so is read, unless memory runs out.
    ensures only { (s : declared.Statement) → Spells s (shapes_of text.now tokens.now)
        → MatchResult result (λ x. x ≡ s) IsNoMem }
    // The place of the fault.
    ensures fault { IfErr result (IsFault text.now tokens.now) }
    // The statement that reading from left to right gives.
    ensures reads { IfOk result (λ s. statement_of text.now tokens.now ≡ Ok s) }
    // The refusal for the place where reading stopped.
    ensures stops { IfErr result (IsRefusalOf text.now tokens.now (statement_of text.now tokens.now)) }
    // Numbers are of 64 bits, and texts are UTF-8.
    ensures values { IfOk result HasValues }
{
    match read(alloc, text, tokens) {
        Ok(statement) => {
            known_statement(&statement);
            Ok(statement)
        }
        Err(stopped) => Err(stopped),
    }
}

/// The statement that a text of at most 1,048,576 bytes spells. No list of its tokens is made where it spells one.
///
/// # Errors
///
/// As of `read_statement` over the tokens of the text.
pub fn read_text(alloc: Global, text: &PText) -> Result<Statement, Stopped>
    requires { length text.now ≤ text_limit }
    // What is read is spelled so.
    ensures found { IfOk result (λ s. Spells s (shapes_of text.now (tokens_of text.now))) }
    // What is spelled so is read, unless memory runs out.
    ensures only { (s : declared.Statement) → Spells s (shapes_of text.now (tokens_of text.now))
        → MatchResult result (λ x. x ≡ s) IsNoMem }
    // The place of the fault.
    ensures fault { IfErr result (IsFault text.now (tokens_of text.now)) }
    // The statement that reading from left to right gives.
    ensures reads { IfOk result (λ s. statement_of text.now (tokens_of text.now) ≡ Ok s) }
    // The refusal for the place where reading stopped.
    ensures stops { IfErr result (IsRefusalOf text.now (tokens_of text.now)
        (statement_of text.now (tokens_of text.now))) }
    // Numbers are of 64 bits, and texts are UTF-8.
    ensures values { IfOk result HasValues }
{
    match read_through(alloc, text) {
        Ok(statement) => {
            known_statement(&statement);
            Ok(statement)
        }
        Err(stopped) => Err(stopped),
    }
}
