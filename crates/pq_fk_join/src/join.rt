//! One paid get for each input.
ghost use Rattle.std.specs.Prelude.{◌≡◌, ◌≤◌, ◌+◌, ◌++◌, ◌∷◌, ◌⊎◌, [], length, map, not, replicate, take, None, IsTrue};
ghost use Rattle.std.specs.Prelude.{IfOk, IfErr, OnOk, IfSome, IfNone, option_copied, unwrap_or};
ghost use Rattle.pq_base.specs.declared.value.Dir.TheVariants.{Asc};
ghost use Rattle.pq_base.specs.Values.{AllFit, has_null, is_null};
ghost use Rattle.pq_key_code.specs.KeyCode.{code_of, component};
ghost use Rattle.pq_schema.specs.Rows.{no_value, types_of, shape_of};
ghost use Rattle.pq_store.specs.Breaks.{IsAnswered};
ghost use Rattle.pq_store.specs.Rounds.{IsValueOf, IsValueAnswered};
ghost use Rattle.pq_calls.specs.Calls.{Uses, Fails};
ghost use Rattle.pq_calls.specs.Evidence.{IsRead};
ghost use Rattle.pq_calls.specs.World.{Affords, no_damage, world};
ghost use Rattle.pq_plan.specs.Nodes.{lookup};
ghost use Rattle.pq_nodes.specs.Operators.{IsAsked, IsReadyNode, AreInputs, AffordsNode, ReadsNode, AreFound, AnswersNode, StopsReading, IsSoundOverRows};
ghost use Rattle.pq_nodes.specs.Rounds.{node_rounds};
ghost use Rattle.pq_operands.specs.Ties.{cells_tied};
ghost use Rattle.pq_scan.specs.Request.{IsAskedFor, IsNodeFor, AreInputsFor, AreFoundFor, AnswersFor, Spends, SpendsNode, StopsRead};
ghost use Rattle.pq_fk_join.specs.Joined.{tied_for, IsLookupFor, IsUnreadFrom, AddsRead, AreJoined, AreJoinedFor, AddsJoinedFor, AddsLookedUpFor};

use pq_base::{Bytes, ColType, Dir, List, NoMem, Row, Value, no_value};
use pq_calls::{Calls, answered_row, types_of};
use pq_key_code::{put_component, row_front};
use pq_operands::tied_value;
use pq_plan::Combo;
use pq_predicates::{table_number, table_of};
use pq_scan::Request;
use pq_schema::{Catalog, Query, Table};
use pq_store::{Allowance, Broke, Meter, Store};
use std::alloc::Global;
use std::sync::ledger::Ledger;

// A table has no more columns than this.
const MOST_COLUMNS: usize = 32;

/// Puts the component of a value behind what is there, where it is no NULL; whether it is none.
fn put_plain(alloc: Global, out: &mut Bytes, value: &Value) -> Result<bool, NoMem>
    ensures plain { IfOk result (λ plain. plain ≡ not (is_null value.now)) }
    ensures code { IfOk result (λ plain. IsTrue plain → out.new ≡ out.old ++ component Asc value.now) }
{
    if value.is_null() {
        return Ok(false);
    }
    put_component(alloc, out, Dir::Asc, value)?;
    Ok(true)
}

/// The same of a tied value, or of the value of a column that isn't there.
fn put_tied(alloc: Global, out: &mut Bytes, value: Option<&Value>) -> Result<bool, NoMem>
    ensures plain { IfOk result (λ plain. plain ≡ not (is_null (unwrap_or (option_copied value.entry) no_value))) }
    ensures code { IfOk result (λ plain. IsTrue plain
        → out.new ≡ out.old ++ component Asc (unwrap_or (option_copied value.entry) no_value)) }
{
    match value {
        Some(value) => put_plain(alloc, out, value),
        None => put_plain(alloc, out, &no_value()),
    }
}

/// Puts the components of the tied values of some columns, up to the first NULL; whether there is none.
fn put_tied_values(
    alloc: Global,
    out: &mut Bytes,
    request: &Request<'_>,
    rel: u8,
    input: &Combo,
    cols: &[u8],
) -> Result<bool, NoMem>
    ensures plain { IfOk result (λ plain.
        plain ≡ not (has_null (cells_tied request.now.query.now request.now.params.now rel
        input.now cols.now))) }
    ensures code { IfOk result (λ plain. IsTrue plain → out.new ≡ out.old
        ++ code_of (replicate (length cols.now) Asc) (cells_tied request.now.query.now request.now.params.now rel
        input.now cols.now)) }
{
    for col in cols {
        if !put_tied(
            alloc,
            out,
            tied_value(request.query, request.params, rel, input, *col),
        )? {
            return Ok(false);
        }
    }
    Ok(true)
}

/// The key in the store of the row whose key equalities tie behind the input; none where a tied value is NULL.
fn partner_at(
    alloc: Global,
    request: &Request<'_>,
    rel: u8,
    input: &Combo,
) -> Result<Option<Bytes>, NoMem>
    requires asked { IsAskedFor request.now }
    requires lookup { IsLookupFor request.now rel }
    ensures { IfOk result (λ at. at ≡ tied_for request.now rel input.now) }
{
    let Request { catalog, query, .. } = *request;
    catalog.known();
    let table = table_of(catalog, query, rel);
    let mut key = row_front(alloc, table_number(query, rel))?;
    if put_tied_values(alloc, &mut key, request, rel, input, table.key.items())? {
        Ok(Some(key))
    } else {
        Ok(None)
    }
}

/// The same for each input.
fn partners_at(
    alloc: Global,
    request: &Request<'_>,
    rel: u8,
    inputs: &[Combo],
) -> Result<List<Option<Bytes>>, NoMem>
    requires asked { IsAskedFor request.now }
    requires lookup { IsLookupFor request.now rel }
    ensures { IfOk result (λ asked. asked ≡ map (tied_for request.now rel) inputs.now) }
{
    let mut asked = List::with_room(alloc, inputs.len())?;
    for input in inputs {
        let at = partner_at(alloc, request, rel, input)?;
        asked.push(alloc, at)?;
    }
    Ok(asked)
}

/// Puts the types of the columns in front.
fn put_types(room: &mut [ColType], table: &Table)
    requires { length table.now.columns ≤ length room.old }
    ensures { take (length table.now.columns) room.new ≡ types_of table.now }
{
    let columns = table.columns.items();
    for i in 0..columns.len() {
        room[i] = columns[i].ty;
    }
}

/// The row that stands at the key that was asked for, where there is one.
fn partner(
    alloc: Global,
    table: &Table,
    types: &[ColType],
    asked: &Option<Bytes>,
    code: &Option<Bytes>,
) -> Result<Option<Row>, Broke>
    requires types { types.now ≡ types_of table.now }
    requires unasked { IfNone asked.now (code.now ≡ None) }
    ensures fits { IfOk result (λ found. IfSome found (AllFit (types_of table.now))) }
    ensures read { IfOk result (IsRead (shape_of table.now) code.now) }
    ensures cause { IfErr result (IsUnreadFrom (shape_of table.now) asked.now code.now) }
{
    let Some(at) = asked else {
        return Ok(None);
    };
    let Some(code) = code else {
        return Ok(None);
    };
    let row = answered_row(alloc, at.items(), code.items(), types, &table.fillers)?;
    Ok(Some(row))
}

/// Adds the input followed by the row that stands at its key, where there is one.
#[inline(always)]
fn join_one(
    alloc: Global,
    table: &Table,
    types: &[ColType],
    input: Combo,
    asked: &Option<Bytes>,
    code: &Option<Bytes>,
    found: &mut List<Combo>,
) -> Result<(), Broke>
    requires types { types.now ≡ types_of table.now }
    requires unasked { IfNone asked.now (code.now ≡ None) }
    ensures few { OnOk result (length found.new ≤ length found.old + 1) }
    ensures adds { OnOk result (AddsRead (shape_of table.now) input code.now found.old found.new) }
    ensures cause { IfErr result (λ why. (why ≡ Broke.NoMem) ⊎ IsUnreadFrom (shape_of table.now) asked.now code.now why) }
{
    let Some(row) = partner(alloc, table, types, asked, code)? else {
        return Ok(());
    };
    let mut combo = input;
    combo.push(alloc, row)?;
    found.push(alloc, combo)?;
    Ok(())
}

/// The value of the key that is asked for. Where none is, nothing is asked, and there is no value.
fn asked_code<S: Store<L>, L: Ledger>(
    alloc: Global,
    asked: &Option<Bytes>,
    calls: &mut Calls<S, L>,
) -> Result<Option<Bytes>, Broke>
    requires share { Affords calls.old.allowance.now 1 1 }
    ensures uses { Uses S.content S.faults calls.old calls.new 1 1 }
    ensures rounds { S.rounds calls.new.store.now ≤ S.rounds calls.old.store.now + 1 }
    ensures cause { IfErr result (Fails no_damage S.content S.faults calls.old calls.new) }
    ensures answered { IfErr result (IsAnswered S.answers) }
    ensures answer { IfOk result (IsValueOf (S.content calls.old.store.now) asked.now) }
    ensures answers { IfOk result (IsValueAnswered S.answers asked.now) }
{
    match asked {
        Some(at) => calls.get(alloc, at.items()),
        None => Ok(None),
    }
}

/// The only input, and the list without it, which has room for one.
fn only(inputs: List<Combo>) -> (Combo, List<Combo>)
    requires { length inputs ≡ 1 }
    ensures only { inputs ≡ result.0 ∷ [] }
    ensures left { result.1 ≡ [] }
{
    let mut left = inputs.into_vec();
    match left.pop() {
        Some(input) => (input, List::from_vec(left)),
        None => unreachable!(),
    }
}

/// The input where it has a partner, followed by it: one call asks for it.
fn join_single<S: Store<L>, L: Ledger>(
    alloc: Global,
    request: &Request<'_>,
    rel: u8,
    inputs: List<Combo>,
    calls: &mut Calls<S, L>,
) -> Result<List<Combo>, Broke>
    requires asked { IsAskedFor request.now }
    requires lookup { IsLookupFor request.now rel }
    requires inputs { AreInputsFor request.now rel inputs }
    requires single { length inputs ≡ 1 }
    requires share { Affords calls.old.allowance.now 1 1 }
    ensures spends { Spends S.Store calls.old calls.new 1 1 1 }
    ensures stops { IfErr result (StopsRead S.Store request.now.catalog.now.tables calls.old calls.new) }
    ensures found { IfOk result (AreFoundFor request.now rel 1 (lookup rel)) }
    ensures codes { IfOk result (AddsJoinedFor (S.content calls.old.store.now) request.now rel inputs []) }
    ensures answer { IfOk result (AddsLookedUpFor (S.content calls.old.store.now) request.now rel inputs []) }
{
    let Request { catalog, query, .. } = *request;
    catalog.known();
    let table = table_of(catalog, query, rel);
    let mut types = [ColType::Int; MOST_COLUMNS];
    put_types(&mut types, table);
    let types = &types[..table.columns.items().len()];
    let (input, mut found) = only(inputs);
    let asked = partner_at(alloc, request, rel, &input)?;
    let code = asked_code(alloc, &asked, calls)?;
    join_one(alloc, table, types, input, &asked, &code, &mut found)?;
    Ok(found)
}

/// The inputs that have a partner, each followed by it: all are asked at once.
fn join_several<S: Store<L>, L: Ledger>(
    alloc: Global,
    request: &Request<'_>,
    rel: u8,
    inputs: List<Combo>,
    calls: &mut Calls<S, L>,
) -> Result<List<Combo>, Broke>
    requires asked { IsAskedFor request.now }
    requires lookup { IsLookupFor request.now rel }
    requires inputs { AreInputsFor request.now rel inputs }
    requires share { Affords calls.old.allowance.now (length inputs) (length inputs) }
    ensures spends { Spends S.Store calls.old calls.new (length inputs) (length inputs) 1 }
    ensures stops { IfErr result (StopsRead S.Store request.now.catalog.now.tables calls.old calls.new) }
    ensures found { IfOk result (AreFoundFor request.now rel (length inputs) (lookup rel)) }
    ensures codes { IfOk result (AddsJoinedFor (S.content calls.old.store.now) request.now rel inputs []) }
    ensures answer { IfOk result (AddsLookedUpFor (S.content calls.old.store.now) request.now rel inputs []) }
{
    let Request { catalog, query, .. } = *request;
    catalog.known();
    let table = table_of(catalog, query, rel);
    let types = types_of(alloc, table)?;
    let asked = partners_at(alloc, request, rel, inputs.items())?;
    let mut found = List::with_room(alloc, inputs.items().len())?;
    let codes = calls.gets(alloc, asked.items())?;
    let mut place = 0;
    for input in inputs.into_vec() {
        join_one(
            alloc,
            table,
            types.items(),
            input,
            &asked.items()[place],
            &codes.items()[place],
            &mut found,
        )?;
        place += 1;
    }
    Ok(found)
}

/// The same; a single input has a way of its own, which makes no lists.
fn join_each<S: Store<L>, L: Ledger>(
    alloc: Global,
    request: &Request<'_>,
    rel: u8,
    inputs: List<Combo>,
    calls: &mut Calls<S, L>,
) -> Result<List<Combo>, Broke>
    requires asked { IsAskedFor request.now }
    requires lookup { IsLookupFor request.now rel }
    requires inputs { AreInputsFor request.now rel inputs }
    requires share { Affords calls.old.allowance.now (length inputs) (length inputs) }
    ensures spends { Spends S.Store calls.old calls.new (length inputs) (length inputs) 1 }
    ensures stops { IfErr result (StopsRead S.Store request.now.catalog.now.tables calls.old calls.new) }
    ensures found { IfOk result (AreFoundFor request.now rel (length inputs) (lookup rel)) }
    ensures codes { IfOk result (AddsJoinedFor (S.content calls.old.store.now) request.now rel inputs []) }
    ensures answer { IfOk result (AddsLookedUpFor (S.content calls.old.store.now) request.now rel inputs []) }
{
    if inputs.items().len() == 1 {
        join_single(alloc, request, rel, inputs, calls)
    } else {
        join_several(alloc, request, rel, inputs, calls)
    }
}

/// Each input followed by the row of the relation whose key equalities tie, in the order of the inputs. An input
/// without such a row falls out.
pub fn join_inputs<S: Store<L>, L: Ledger>(
    alloc: Global,
    request: &Request<'_>,
    rel: u8,
    inputs: List<Combo>,
    calls: &mut Calls<S, L>,
) -> Result<List<Combo>, Broke>
    requires asked { IsAskedFor request.now }
    requires ready { IsNodeFor request.now (lookup rel) }
    requires inputs { AreInputsFor request.now rel inputs }
    requires share { AffordsNode calls.old.allowance.now (length inputs) (lookup rel) }
    ensures spends { SpendsNode S.Store calls.old calls.new (length inputs) (lookup rel) }
    ensures stops { IfErr result (StopsRead S.Store request.now.catalog.now.tables calls.old calls.new) }
    ensures found { IfOk result (AreFoundFor request.now rel (length inputs) (lookup rel)) }
    // Over any content that is told, no row is passed over, and none stands in for another.
    ensures codes { IfOk result (λ found. IfSome (S.content calls.old.store.now)
        (AreJoinedFor request.now rel inputs found)) }
    ensures answer { IfOk result (AnswersFor (S.content calls.old.store.now) request.now inputs (lookup rel)) }
{
    join_each(alloc, request, rel, inputs, calls)
}

/// What is asked from the first row on.
fn from_start<'a>(catalog: &'a Catalog, query: &'a Query, params: &'a Row) -> Request<'a>
    ensures { result ≡ record { catalog = catalog.entry; query = query.entry; params = params.entry; after = None } }
{
    Request {
        catalog,
        query,
        params,
        after: None,
    }
}

/// Each input followed by the row of the relation whose key equalities tie, in the order of the inputs: one
/// get for each. An input without such a row falls out.
pub fn fk_join<S: Store<L>, L: Ledger>(
    alloc: Global,
    catalog: &Catalog,
    query: &Query,
    params: &Row,
    rel: u8,
    inputs: List<Combo>,
    store: &mut S,
    allowance: &mut Allowance,
    meter: &mut Meter<L>,
) -> Result<List<Combo>, Broke>
    requires asked { IsAsked catalog.now.tables query.now params.now }
    requires ready { IsReadyNode catalog.now.tables query.now (lookup rel) }
    requires inputs { AreInputs catalog.now.tables query.now rel inputs }
    requires share { AffordsNode allowance.old (length inputs) (lookup rel) }
    // Over any content that is told, no row is passed over, and none stands in for another.
    ensures codes { IfOk result (λ found. IfSome (S.content store.old)
        (AreJoined catalog.now.tables query.now params.now rel inputs found)) }
    ensures answer { IfOk result (AnswersNode (S.content store.old)
        catalog.now.tables query.now params.now None inputs (lookup rel)) }
    ensures reads { ReadsNode (world (S.content store.old) (S.faults store.old) allowance.old meter.old)
        (world (S.content store.new) (S.faults store.new) allowance.new meter.new) (length inputs) (lookup rel) }
    ensures found { IfOk result (AreFound catalog.now.tables query.now rel (length inputs) (lookup rel)) }
    ensures cause { IfErr result (StopsReading catalog.now.tables
        (world (S.content store.old) (S.faults store.old) allowance.old meter.old)
        (world (S.content store.new) (S.faults store.new) allowance.new meter.new)) }
    ensures rounds { S.rounds store.new ≤ S.rounds store.old + node_rounds (lookup rel) }
    ensures answered { IfErr result (IsAnswered S.answers) }
    ensures undamaged { IfErr result (IsSoundOverRows (S.content store.old) catalog.now.tables) }
{
    let request = from_start(catalog, query, params);
    let mut calls = Calls {
        store,
        allowance,
        meter,
    };
    join_inputs(alloc, &request, rel, inputs, &mut calls)
}
