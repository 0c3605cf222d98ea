//! What a piece of a script asks for, as far as the definitions decide it.
ghost use Rattle.std.specs.Prelude.{◌≡◌, ◌≤◌, None, Ok, length, map, option_copied, IfOk, IfErr};
ghost use Rattle.pq_base.specs.Answers.{Passes, Refuses};
ghost use Rattle.pq_index_keep.specs.Checking.{checked_write};
ghost use Rattle.pq_running.specs.Running.{running_of};
ghost use Rattle.pq_schema.specs.Counters.{IsCounterNumber};
ghost use Rattle.pq_schema.specs.Definitions.{definition_refusal};
ghost use Rattle.pq_schema.specs.Resolved.{param_type};
ghost use Rattle.pq_schema.specs.Tables.{types_at};
ghost use Rattle.pq_text.specs.Tokens.{text_limit, tokens_of};
ghost use Rattle.pq_statement.specs.Actions.{Writes, action_from, action_of, asked_by, asked_text, batch_action, batch_asked};
ghost use Rattle.pq_statement.specs.Batches.{HasWrites, checked_writes};
ghost use Rattle.pq_planning.specs.Names.{IsNamedStatement};
ghost use Rattle.pq_planning.specs.Planned.{IsOnce, IsPlanned};
ghost use Rattle.pq_planning.specs.Planning.{arranged_from, explained_name, prepared_from, selected_from};
ghost use Rattle.pq_statement.specs.Readings.{IsReading, reading_of, reading_types};
ghost use Rattle.pq_statement.specs.Requests.{Asks, RunsAs, reading_asked};

use pq_base::{ColType, List, NoMem, PText, Refusal, Row, Stopped, count_word};
use pq_def_read::{Statement, WriteDef, read_text};
use pq_definitions::DEFINITIONS;
use pq_index_keep::{Write, check_write};
use pq_planning::{PlannedQuery, explained_name, plan_arranged, plan_select};
use pq_running::{begin, check_params};
use pq_schema::{AlterDef, Catalog, Column, CounterDef, TableDef, param_type, type_at};
use pq_text::{Piece, Token, tokens};
use std::alloc::Global;

/// The greatest number of bytes of a statement.
const STATEMENT_BYTES: usize = 65536;

/// The greatest number of writes of a batch.
const BATCH_WRITES: usize = 256;

/// A defined query, by its number, with parameters and the position behind which its page begins.
pub struct RunRequest {
    pub query: u16,
    pub params: Row,
    pub after: Option<Row>,
}

// Written out, so that whoever drops a request makes one call for it.
impl Drop for RunRequest {
    fn drop(self) {
        let RunRequest {
            query: _query,
            params: _params,
            after: _after,
        } = self;
    }
}

/// A counter, by the number of its definition, and the values of a group.
pub struct ReadRequest {
    pub counter: u16,
    pub values: Row,
}

// Written out, so that whoever drops a request makes one call for it.
impl Drop for ReadRequest {
    fn drop(self) {
        let ReadRequest {
            counter: _counter,
            values: _values,
        } = self;
    }
}

/// What a piece asks for.
#[derive(Drop)]
pub enum Request {
    /// Whether a table is refused is found as it is added.
    Create(TableDef),
    /// Whether a column is refused is found as it is added.
    Alter(AlterDef),
    Write(Write),
    /// From 1 to 256 writes, which are made as one.
    Batch(List<Write>),
    /// A batch of which the write at this place, from 1, is refused by reading.
    Misread { place: u16, cause: Refusal },
    Prepare(PlannedQuery),
    Explain(PlannedQuery),
    Run(RunRequest),
    /// Whether a counter is refused is found as it is added.
    Count(CounterDef),
    Read(ReadRequest),
    Show,
    /// Without parameters, and with a plan that wants no index.
    Select(PlannedQuery),
}

/// What a piece asks for, or the first refusal that needs no call of the store.
pub fn asked(alloc: Global, catalog: &Catalog, piece: &Piece) -> Result<Request, Stopped>
    ensures asks { IfOk result (λ request. Asks catalog.now request (action_of catalog.now piece.now)) }
    ensures refused { IfErr result (λ stopped. Refuses stopped (action_of catalog.now piece.now)) }
{
    match piece {
        Piece::Statement(text) => asked_text(alloc, catalog, text),
        Piece::NotUtf8 => Err(Stopped::Refused(Refusal::NotUtf8)),
        Piece::TooLong => Err(Stopped::Refused(Refusal::StatementLong)),
    }
}

/// What the statement of a text asks for.
fn asked_text(alloc: Global, catalog: &Catalog, text: &PText) -> Result<Request, Stopped>
    ensures asks { IfOk result (λ request. Asks catalog.now request (asked_text catalog.now text.now)) }
    ensures refused { IfErr result (λ stopped. Refuses stopped (asked_text catalog.now text.now)) }
{
    if text.bytes().len() > STATEMENT_BYTES {
        return Err(Stopped::Refused(Refusal::StatementLong));
    }
    let statement = read_text(alloc, text)?;
    asked_by(alloc, catalog, text, statement)
}

/// What a statement that was read asks for.
fn asked_by(
    alloc: Global,
    catalog: &Catalog,
    text: &PText,
    statement: Statement,
) -> Result<Request, Stopped>
    requires limit { length text.now ≤ text_limit }
    requires named { IsNamedStatement (tokens_of text.now) statement }
    requires some { HasWrites statement }
    ensures asks { IfOk result
        (λ request. Asks catalog.now request (asked_by catalog.now text.now (tokens_of text.now) statement)) }
    ensures refused { IfErr result
        (λ stopped. Refuses stopped (asked_by catalog.now text.now (tokens_of text.now) statement)) }
{
    match statement {
        Statement::Create(def) => Ok(Request::Create(def)),
        Statement::Alter(def) => Ok(Request::Alter(def)),
        Statement::Prepare { name, from } => {
            let plan = prepared(alloc, catalog, name, text, from)?;
            Ok(Request::Prepare(plan))
        }
        Statement::Explain { from } => {
            let name = explained_name(alloc)?;
            let plan = arranged(alloc, catalog, name, text, from)?;
            Ok(Request::Explain(plan))
        }
        Statement::Run {
            name,
            values,
            after,
        } => {
            let run = asked_run(alloc, catalog, name, values, after.as_ref())?;
            Ok(Request::Run(run))
        }
        Statement::Counter(def) => Ok(Request::Count(def)),
        Statement::Read { name, values } => {
            let read = asked_read(alloc, catalog, name, values)?;
            Ok(Request::Read(read))
        }
        Statement::Show => Ok(Request::Show),
        Statement::Select => {
            let plan = selected(alloc, catalog, text)?;
            Ok(Request::Select(plan))
        }
        Statement::Write(write) => asked_write(alloc, catalog, &write),
        Statement::Batch(writes) => asked_batch(alloc, catalog, writes.items()),
    }
}

/// What an INSERT, UPDATE or DELETE asks for.
fn asked_write(alloc: Global, catalog: &Catalog, write: &WriteDef) -> Result<Request, Stopped>
    ensures asks { IfOk result
        (λ request. Asks catalog.now request (action_from Writes (checked_write catalog.now write.now))) }
    ensures refused { IfErr result
        (λ stopped. Refuses stopped (action_from Writes (checked_write catalog.now write.now))) }
{
    let write = check_write(alloc, catalog, write)?;
    Ok(Request::Write(write))
}

/// What a BATCH of these writes asks for.
fn asked_batch(alloc: Global, catalog: &Catalog, defs: &[WriteDef]) -> Result<Request, Stopped>
    requires { 1 ≤ length defs.now }
    ensures asks { IfOk result (λ request. Asks catalog.now request (batch_asked catalog.now defs.now)) }
    ensures refused { IfErr result (λ stopped. Refuses stopped (batch_asked catalog.now defs.now)) }
{
    if defs.len() > BATCH_WRITES {
        return Err(Stopped::Refused(Refusal::Count {
            word: count_word::WRITES,
        }));
    }
    Ok(asked_writes(alloc, catalog, defs)?)
}

/// The batch of these writes, or of the first that is refused by reading its place and the cause.
fn asked_writes(alloc: Global, catalog: &Catalog, defs: &[WriteDef]) -> Result<Request, NoMem>
    requires some { 1 ≤ length defs.now }
    requires few { length defs.now ≤ 256 }
    ensures { IfOk result
        (λ request. Asks catalog.now request (Ok (batch_action (checked_writes catalog.now 1 defs.now)))) }
{
    let mut writes = List::new(alloc);
    let mut place = 1;
    for def in defs {
        match check_write(alloc, catalog, def) {
            Ok(write) => writes.push(alloc, write)?,
            Err(Stopped::Refused(cause)) => return Ok(Request::Misread { place, cause }),
            Err(Stopped::NoMem) => return Err(NoMem),
        }
        place += 1;
    }
    Ok(Request::Batch(writes))
}

/// The query of this name that the tokens from a place on spell, arranged, with its plan, where it may be
/// defined.
fn definable(
    alloc: Global,
    catalog: &Catalog,
    name: PText,
    text: &PText,
    tokens: &List<Token>,
    from: u32,
) -> Result<PlannedQuery, Stopped>
    requires spelled { tokens.now ≡ tokens_of text.now }
    requires within { from ≤ length tokens.now }
    ensures planned { IfOk result (IsPlanned catalog.now name
        (arranged_from catalog.now name text.now tokens.now from)) }
    ensures free { IfOk result (λ plan. definition_refusal catalog.now plan.query.name ≡ None) }
    ensures refused { IfErr result
        (λ stopped. Refuses stopped (prepared_from catalog.now name text.now tokens.now from)) }
{
    let plan = plan_arranged(alloc, catalog, name, text, tokens, from)?;
    check_definition(alloc, catalog, &plan.query.name)?;
    Ok(plan)
}

/// The same of the tokens of a text.
fn prepared(
    alloc: Global,
    catalog: &Catalog,
    name: PText,
    text: &PText,
    from: u32,
) -> Result<PlannedQuery, Stopped>
    requires limit { length text.now ≤ text_limit }
    requires within { from ≤ length (tokens_of text.now) }
    ensures planned { IfOk result (IsPlanned catalog.now name
        (arranged_from catalog.now name text.now (tokens_of text.now) from)) }
    ensures free { IfOk result (λ plan. definition_refusal catalog.now plan.query.name ≡ None) }
    ensures refused { IfErr result
        (λ stopped. Refuses stopped (prepared_from catalog.now name text.now (tokens_of text.now) from)) }
{
    let tokens = tokens(alloc, text)?;
    definable(alloc, catalog, name, text, &tokens, from)
}

/// The query of this name that the tokens of a text from a place on spell, arranged, with its plan.
fn arranged(
    alloc: Global,
    catalog: &Catalog,
    name: PText,
    text: &PText,
    from: u32,
) -> Result<PlannedQuery, Stopped>
    requires limit { length text.now ≤ text_limit }
    requires within { from ≤ length (tokens_of text.now) }
    ensures planned { IfOk result (IsPlanned catalog.now name
        (arranged_from catalog.now name text.now (tokens_of text.now) from)) }
    ensures refused { IfErr result
        (λ stopped. Refuses stopped (arranged_from catalog.now name text.now (tokens_of text.now) from)) }
{
    let tokens = tokens(alloc, text)?;
    plan_arranged(alloc, catalog, name, text, &tokens, from)
}

/// The query that a text spells, arranged, with its plan, as it is run once.
fn selected(alloc: Global, catalog: &Catalog, text: &PText) -> Result<PlannedQuery, Stopped>
    requires { length text.now ≤ text_limit }
    ensures planned { IfOk result (IsPlanned catalog.now explained_name
        (selected_from catalog.now text.now (tokens_of text.now))) }
    ensures once { IfOk result IsOnce }
    ensures refused { IfErr result
        (λ stopped. Refuses stopped (selected_from catalog.now text.now (tokens_of text.now))) }
{
    let tokens = tokens(alloc, text)?;
    plan_select(alloc, catalog, text, &tokens)
}

/// Refuses one definition more than there may be, and a name that is taken.
fn check_definition(alloc: Global, catalog: &Catalog, name: &PText) -> Result<(), Stopped>
    ensures { Passes result (definition_refusal catalog.now name.now) }
{
    if catalog.defs() as usize >= DEFINITIONS {
        return Err(Stopped::Refused(Refusal::Count {
            word: count_word::DEFINITIONS,
        }));
    }
    if catalog.is_taken(name) {
        let name = name.copy(alloc)?;
        return Err(Stopped::Refused(Refusal::NameTaken { name }));
    }
    Ok(())
}

/// The run of the query of this name, with these parameters, behind this cursor.
fn asked_run(
    alloc: Global,
    catalog: &Catalog,
    name: PText,
    params: Row,
    after: Option<&PText>,
) -> Result<RunRequest, Stopped>
    ensures runs { IfOk result
        (λ run. RunsAs catalog.now run (running_of catalog.now name params (option_copied after.entry))) }
    ensures refused { IfErr result
        (λ stopped. Refuses stopped (running_of catalog.now name params (option_copied after.entry))) }
{
    let Some(query) = catalog.find_query(&name) else {
        return Err(Stopped::Refused(Refusal::NoQuery { name }));
    };
    let after = begin(alloc, catalog, query, &params, after)?;
    Ok(RunRequest {
        query,
        params,
        after,
    })
}

/// The types of values that are compared with these columns.
fn value_types(alloc: Global, columns: &[Column], cols: &[u8]) -> Result<List<ColType>, NoMem>
    ensures { IfOk result (λ types. types ≡ map param_type (types_at columns.now cols.now)) }
{
    let mut types = List::new(alloc);
    for col in cols {
        types.push(alloc, param_type(type_at(columns, *col)))?;
    }
    Ok(types)
}

/// The types of the values of a counter's groups.
fn reading_types(alloc: Global, catalog: &Catalog, number: u16) -> Result<List<ColType>, NoMem>
    requires { IsCounterNumber catalog.now number }
    ensures types { IfOk result (λ types. types ≡ reading_types catalog.now number) }
    ensures few { IfOk result (λ types. length types ≤ 4) }
{
    catalog.known();
    let counter = catalog.counter(number);
    let table = catalog.table(counter.table);
    value_types(alloc, table.columns.items(), counter.cols.items())
}

/// The read of the counter of this name, of the group of these values.
fn asked_read(
    alloc: Global,
    catalog: &Catalog,
    name: PText,
    values: Row,
) -> Result<ReadRequest, Stopped>
    ensures fits { IfOk result (λ read. IsReading catalog.now (reading_asked read)) }
    ensures reads { IfOk result (λ read. reading_of catalog.now name values ≡ Ok (reading_asked read)) }
    ensures refused { IfErr result (λ stopped. Refuses stopped (reading_of catalog.now name values)) }
{
    let Some(counter) = catalog.find_counter(&name) else {
        return Err(Stopped::Refused(Refusal::NoCounter { name }));
    };
    let types = reading_types(alloc, catalog, counter)?;
    check_params(types.items(), values.items())?;
    Ok(ReadRequest { counter, values })
}
