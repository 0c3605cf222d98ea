//! One range for each input, under the tied values of a limit's columns, all asked at once.
ghost use Rattle.std.specs.Prelude.{◌≡◌, ◌≤◌, ◌<◌, ◌+◌, ◌*◌, ◌++◌, ◌∷◌, [], All, map, length, None, IfOk, IfErr, IfSome, OnOk};
ghost use Rattle.std.specs.List.{AllByRecursion, AllZip};
ghost use Rattle.pq_schema.specs.Costs.{limit_cost};
ghost use Rattle.pq_schema.specs.Resolved.{IsResolved};
ghost use Rattle.pq_schema.specs.Sound.{AreColumns};
ghost use Rattle.pq_store.specs.Breaks.{IsAnswered};
ghost use Rattle.pq_store.specs.Content.{entry, AreAnswers};
ghost use Rattle.pq_calls.specs.World.{Affords, where_told, world};
ghost use Rattle.pq_content.specs.Tables.{first_columns};
ghost use Rattle.pq_plan.specs.Cost.{is_primary_access};
ghost use Rattle.pq_nodes.specs.Combos.{FitsTables};
ghost use Rattle.pq_nodes.specs.Operators.{IsAsked, IsReadyNode, AreInputs, AffordsNode, ReadsNode, AreFound, AnswersNode, ShowsRead, StopsReading, IsSoundOverRows};
ghost use Rattle.pq_nodes.specs.Rounds.{access_rounds, node_rounds};
ghost use Rattle.pq_operands.specs.Ties.{cells_tied};
ghost use Rattle.pq_entries.specs.Entries.{IsSequence, OfEachRange, IsUnread, OneShows, TellsPair, key_front};
ghost use Rattle.pq_scan.specs.Request.{IsAskedFor, IsNodeFor, AreInputsFor, AreFoundFor, AnswersFor, Spends, SpendsNode, StopsRead};
ghost use Rattle.pq_index_scan.specs.Ranged.{limit_node, limit_node_for, first_of_range_for, ends_for, IsRangeOf, IsRangeFor, IsPartFor, FollowsPart, AddsPart, AreEntriesFor, AreFollowedFor, AreRanged, AreRangedFor, followed_at, AddsRangedFor};

use pq_base::{Bytes, ColSet, List, NoMem, Row, has_null};
use pq_calls::Calls;
use pq_entries::{named_rows, rows_in, sequence_key, values_in};
use pq_key_code::past;
use pq_operands::tied_cells;
use pq_plan::Combo;
use pq_predicates::{table_number, table_of};
use pq_scan::Request;
use pq_schema::{Access, Catalog, KeyPart, Query, sequence};
use pq_store::{Allowance, Broke, Ends, Meter, Pair, Store};
use std::alloc::Global;
use std::sync::ledger::Ledger;

/// What a limit range goes over, whatever the input.
#[derive(Drop)]
struct LimitRange {
    rel: u8,
    limit: u8,
    /// The number of the relation's table.
    number: u8,
    access: Access,
    /// At most so many rows are under one range.
    n: u32,
    /// The columns whose values begin the keys of a range.
    first: List<u8>,
}

/// The first columns of the parts, as many as there are different ones among the columns.
fn first_columns(alloc: Global, parts: &[KeyPart], cols: &[u8]) -> Result<List<u8>, NoMem>
    requires { AreColumns cols.now }
    ensures { IfOk result (λ first. first ≡ first_columns parts.now cols.now) }
{
    let mut first = List::new(alloc);
    for part in parts {
        first.push(alloc, part.col)?;
    }
    first.truncate(ColSet::of(cols).count() as usize);
    Ok(first)
}

/// The range of a limit, by its number from 1.
fn range_of(
    alloc: Global,
    catalog: &Catalog,
    query: &Query,
    rel: u8,
    limit: u8,
    access: Access,
) -> Result<LimitRange, NoMem>
    requires resolved { IsResolved catalog.now.tables query.now }
    requires ready { IsReadyNode catalog.now.tables query.now
        (limit_node catalog.now.tables query.now rel limit access) }
    ensures range { IfOk result (IsRangeOf catalog.now.tables query.now) }
    ensures rel { IfOk result (λ range. range.rel ≡ rel) }
    ensures limit { IfOk result (λ range. range.limit ≡ limit) }
    ensures access { IfOk result (λ range. range.access ≡ access) }
{
    catalog.known();
    let table = table_of(catalog, query, rel);
    let own = &table.limits.items()[limit as usize - 1];
    let parts = sequence(alloc, table, access)?;
    Ok(LimitRange {
        rel,
        limit,
        number: table_number(query, rel),
        access,
        n: own.n,
        first: first_columns(alloc, parts.items(), own.cols.items())?,
    })
}

/// The beginning of the keys of the range behind an input, by the tied values of its first columns.
fn range_start(
    alloc: Global,
    request: &Request<'_>,
    range: &LimitRange,
    input: &Combo,
    values: &Row,
) -> Result<Bytes, NoMem>
    requires asked { IsAskedFor request.now }
    requires range { IsRangeFor request.now range.now }
    requires values { values.now ≡ cells_tied request.now.query.now request.now.params.now range.now.rel input.now
        range.now.first }
    ensures { IfOk result (λ low. low ≡ first_of_range_for request.now range.now input.now) }
{
    let Request { catalog, query, .. } = *request;
    catalog.known();
    let table = table_of(catalog, query, range.rel);
    sequence_key(alloc, range.number, table, range.access, values)
}

/// The ends of the range behind an input; none where a tied value is NULL.
fn range_ends(
    alloc: Global,
    request: &Request<'_>,
    range: &LimitRange,
    input: &Combo,
) -> Result<Option<Ends>, NoMem>
    requires asked { IsAskedFor request.now }
    requires range { IsRangeFor request.now range.now }
    ensures { IfOk result (λ ends. ends ≡ ends_for request.now range.now input.now) }
{
    let Request { query, params, .. } = *request;
    let values = tied_cells(alloc, query, params, range.rel, input, range.first.items())?;
    if has_null(values.items()) {
        return Ok(None);
    }
    let low = range_start(alloc, request, range, input, &values)?;
    let high = past(alloc, Bytes::of_bytes(alloc, low.items())?)?;
    Ok(Some(Ends { low, high }))
}

/// The same for each input.
fn all_ends(
    alloc: Global,
    request: &Request<'_>,
    range: &LimitRange,
    inputs: &[Combo],
) -> Result<List<Option<Ends>>, NoMem>
    requires asked { IsAskedFor request.now }
    requires range { IsRangeFor request.now range.now }
    ensures { IfOk result (λ asks. asks ≡ map (ends_for request.now range.now) inputs.now) }
{
    let mut asks = List::new(alloc);
    for input in inputs {
        let ends = range_ends(alloc, request, range, input)?;
        asks.push(alloc, ends)?;
    }
    Ok(asks)
}

/// The pairs of the range behind each input, none where a tied value is NULL: all are asked at once.
fn all_parts<S: Store<L>, L: Ledger>(
    alloc: Global,
    request: &Request<'_>,
    range: &LimitRange,
    inputs: &[Combo],
    calls: &mut Calls<S, L>,
) -> Result<List<List<Pair>>, Broke>
    requires asked { IsAskedFor request.now }
    requires range { IsRangeFor request.now range.now }
    requires share { Affords calls.old.allowance.now (length inputs.now) (length inputs.now * range.now.n) }
    ensures spends { Spends S.Store calls.old calls.new (length inputs.now) (length inputs.now * range.now.n) 1 }
    ensures stops { IfErr result (StopsRead S.Store request.now.catalog.now.tables calls.old calls.new) }
    ensures long { IfOk result (λ parts. length parts ≡ length inputs.now) }
    ensures parts { IfOk result (AllZip (IsPartFor (S.content calls.old.store.now) request.now range.now) inputs.now) }
    ensures answers { IfOk result (AllByRecursion (AreAnswers S.answers)) }
{
    let asks = all_ends(alloc, request, range, inputs)?;
    calls.ranges(alloc, asks.items(), range.n)
}

/// The input followed by a row.
fn followed(alloc: Global, input: &Combo, row: Row) -> Result<Combo, NoMem>
    ensures { IfOk result (λ combo. combo ≡ input.now ++ row ∷ []) }
{
    let mut combo = input.copy(alloc)?;
    combo.push(alloc, row)?;
    Ok(combo)
}

/// Adds the input followed by each of the rows.
fn follow(
    alloc: Global,
    input: &Combo,
    rows: List<Row>,
    found: &mut List<Combo>,
) -> Result<(), NoMem>
    ensures { OnOk result (found.new ≡ found.old ++ map (λ row. input.now ++ row ∷ []) rows) }
{
    for row in rows.into_vec() {
        found.push(alloc, followed(alloc, input, row)?)?;
    }
    Ok(())
}

/// Adds the input followed by each row of its part.
fn follow_part(
    alloc: Global,
    catalog: &Catalog,
    number: u8,
    input: &Combo,
    part: &[Pair],
    found: &mut List<Combo>,
) -> Result<(), Broke>
    requires sequence { IsSequence catalog.now.tables number Access.Primary }
    ensures cause { IfErr result (λ why. OfEachRange number Access.Primary part.now
        (λ told low high limit. IsUnread (where_told (ShowsRead catalog.now.tables) told) why)) }
    ensures tells { IfErr result (IsUnread (OneShows TellsPair (map entry part.now))) }
    ensures follows { OnOk result (FollowsPart catalog.now.tables number input.now part.now found.old found.new) }
{
    let rows = rows_in(alloc, catalog, number, part)?;
    follow(alloc, input, rows, found)?;
    Ok(())
}

/// Each input followed by each row of the range behind it, in the primary sequence.
fn range_primary<S: Store<L>, L: Ledger>(
    alloc: Global,
    request: &Request<'_>,
    range: &LimitRange,
    inputs: &[Combo],
    calls: &mut Calls<S, L>,
) -> Result<List<Combo>, Broke>
    requires asked { IsAskedFor request.now }
    requires range { IsRangeFor request.now range.now }
    requires primary { range.now.access ≡ Access.Primary }
    requires inputs { AreInputsFor request.now range.now.rel inputs.now }
    requires share { Affords calls.old.allowance.now (length inputs.now) (length inputs.now * range.now.n) }
    ensures spends { Spends S.Store calls.old calls.new (length inputs.now) (length inputs.now * range.now.n) 1 }
    ensures stops { IfErr result (StopsRead S.Store request.now.catalog.now.tables calls.old calls.new) }
    ensures few { IfOk result (λ found. length found ≤ length inputs.now * range.now.n) }
    ensures fit { IfOk result (AllByRecursion (FitsTables request.now.catalog.now.tables request.now.query.now
        range.now.rel)) }
    ensures codes { IfOk result (λ found. IfSome (S.content calls.old.store.now)
        (AreFollowedFor request.now range.now inputs.now found)) }
    ensures answer { IfOk result (AddsRangedFor (S.content calls.old.store.now) request.now range.now inputs.now []) }
{
    let parts = all_parts(alloc, request, range, inputs, calls)?;
    let mut found = List::new(alloc);
    for place in 0..inputs.len() {
        follow_part(
            alloc,
            request.catalog,
            range.number,
            &inputs[place],
            parts.items()[place].items(),
            &mut found,
        )?;
    }
    Ok(found)
}

/// Entries of an index, found in the ranges behind inputs: the place of each one's input, and its values.
#[derive(Drop)]
struct Entries {
    places: List<usize>,
    values: List<Row>,
}

/// Adds the entries with these values, all behind the input at this place.
fn add_values(
    alloc: Global,
    place: usize,
    values: List<Row>,
    entries: &mut Entries,
) -> Result<(), NoMem>
    ensures places { OnOk result (entries.new.places ≡ entries.old.places ++ map (λ held. place) values) }
    ensures values { OnOk result (entries.new.values ≡ entries.old.values ++ values) }
{
    for held in values.into_vec() {
        entries.places.push(alloc, place)?;
        entries.values.push(alloc, held)?;
    }
    Ok(())
}

/// Adds the entries of the part behind the input at this place.
fn add_part(
    alloc: Global,
    catalog: &Catalog,
    range: &LimitRange,
    place: usize,
    part: &[Pair],
    entries: &mut Entries,
) -> Result<(), Broke>
    requires sequence { IsSequence catalog.now.tables range.now.number range.now.access }
    requires front { All (λ pair. length (key_front 0 range.now.access) ≤ length pair.key) part.now }
    ensures cause { IfErr result (λ why. OfEachRange range.now.number range.now.access part.now
        (λ told low high limit. IsUnread (where_told (ShowsRead catalog.now.tables) told) why)) }
    ensures tells { IfErr result (IsUnread (OneShows TellsPair (map entry part.now))) }
    ensures adds { OnOk result (AddsPart catalog.now.tables range.now place part.now entries.old entries.new) }
{
    let values = values_in(alloc, catalog, range.number, range.access, part)?;
    add_values(alloc, place, values, entries)?;
    Ok(())
}

/// The entries of the ranges behind the inputs, in the order of the inputs.
fn range_entries<S: Store<L>, L: Ledger>(
    alloc: Global,
    request: &Request<'_>,
    range: &LimitRange,
    inputs: &[Combo],
    calls: &mut Calls<S, L>,
) -> Result<Entries, Broke>
    requires asked { IsAskedFor request.now }
    requires range { IsRangeFor request.now range.now }
    requires inputs { AreInputsFor request.now range.now.rel inputs.now }
    requires share { Affords calls.old.allowance.now (length inputs.now) (length inputs.now * range.now.n) }
    ensures spends { Spends S.Store calls.old calls.new (length inputs.now) (length inputs.now * range.now.n) 1 }
    ensures stops { IfErr result (StopsRead S.Store request.now.catalog.now.tables calls.old calls.new) }
    ensures entries { IfOk result (AreEntriesFor (S.content calls.old.store.now) request.now range.now inputs.now inputs.now) }
{
    let parts = all_parts(alloc, request, range, inputs, calls)?;
    let mut entries = Entries {
        places: List::new(alloc),
        values: List::new(alloc),
    };
    for place in 0..inputs.len() {
        let part = parts.items()[place].items();
        add_part(alloc, request.catalog, range, place, part, &mut entries)?;
    }
    Ok(entries)
}

/// The rows, each behind the input at its place.
fn follow_at(
    alloc: Global,
    inputs: &[Combo],
    places: &[usize],
    rows: List<Row>,
) -> Result<List<Combo>, NoMem>
    requires alike { length rows ≡ length places.now }
    requires within { AllByRecursion (λ place. place < length inputs.now) places.now }
    ensures { IfOk result (λ found. found ≡ followed_at inputs.now places.now rows) }
{
    let mut found = List::new(alloc);
    let mut at = 0;
    for row in rows.into_vec() {
        let input = &inputs[places[at]];
        found.push(alloc, followed(alloc, input, row)?)?;
        at += 1;
    }
    Ok(found)
}

/// Each input followed by each row that an entry of the range behind it names, in the sequence of an index: the rows
/// of all entries are asked at once.
fn range_secondary<S: Store<L>, L: Ledger>(
    alloc: Global,
    request: &Request<'_>,
    range: &LimitRange,
    index: u8,
    inputs: &[Combo],
    calls: &mut Calls<S, L>,
) -> Result<List<Combo>, Broke>
    requires asked { IsAskedFor request.now }
    requires range { IsRangeFor request.now range.now }
    requires secondary { range.now.access ≡ Access.Secondary index }
    requires inputs { AreInputsFor request.now range.now.rel inputs.now }
    requires share { Affords calls.old.allowance.now (length inputs.now + length inputs.now * range.now.n)
        (length inputs.now * range.now.n + length inputs.now * range.now.n) }
    ensures spends { Spends S.Store calls.old calls.new (length inputs.now + length inputs.now * range.now.n)
        (length inputs.now * range.now.n + length inputs.now * range.now.n) 2 }
    ensures stops { IfErr result (StopsRead S.Store request.now.catalog.now.tables calls.old calls.new) }
    ensures few { IfOk result (λ found. length found ≤ length inputs.now * range.now.n) }
    ensures fit { IfOk result (AllByRecursion (FitsTables request.now.catalog.now.tables request.now.query.now
        range.now.rel)) }
    ensures codes { IfOk result (λ found. IfSome (S.content calls.old.store.now)
        (AreFollowedFor request.now range.now inputs.now found)) }
    ensures answer { IfOk result (AddsRangedFor (S.content calls.old.store.now) request.now range.now inputs.now []) }
{
    let entries = range_entries(alloc, request, range, inputs, calls)?;
    let values = entries.values.items();
    let rows = named_rows(alloc, request.catalog, range.number, index, values, calls)?;
    let found = follow_at(alloc, inputs, entries.places.items(), rows)?;
    Ok(found)
}

/// Each input followed by each row that matches.
fn range_each<S: Store<L>, L: Ledger>(
    alloc: Global,
    request: &Request<'_>,
    range: &LimitRange,
    inputs: &[Combo],
    calls: &mut Calls<S, L>,
) -> Result<List<Combo>, Broke>
    requires asked { IsAskedFor request.now }
    requires range { IsRangeFor request.now range.now }
    requires inputs { AreInputsFor request.now range.now.rel inputs.now }
    requires share { AffordsNode calls.old.allowance.now (length inputs.now)
        (limit_node_for request.now range.now.rel range.now.limit range.now.access) }
    ensures spends { Spends S.Store calls.old calls.new
        (length inputs.now * (limit_cost (is_primary_access range.now.access) range.now.n).ops)
        (length inputs.now * (limit_cost (is_primary_access range.now.access) range.now.n).entries)
        (access_rounds range.now.access) }
    ensures stops { IfErr result (StopsRead S.Store request.now.catalog.now.tables calls.old calls.new) }
    ensures few { IfOk result (λ found. length found ≤ length inputs.now * range.now.n) }
    ensures fit { IfOk result (AllByRecursion (FitsTables request.now.catalog.now.tables request.now.query.now
        range.now.rel)) }
    ensures codes { IfOk result (λ found. IfSome (S.content calls.old.store.now)
        (AreFollowedFor request.now range.now inputs.now found)) }
    ensures answer { IfOk result (AddsRangedFor (S.content calls.old.store.now) request.now range.now inputs.now []) }
{
    match range.access {
        Access::Primary => range_primary(alloc, request, range, inputs, calls),
        Access::Secondary(index) => range_secondary(alloc, request, range, index, inputs, calls),
    }
}

/// Each input followed by each row of the relation that has the tied values at the columns of the limit, by its
/// number from 1, in a sequence that begins with them.
pub fn range_inputs<S: Store<L>, L: Ledger>(
    alloc: Global,
    request: &Request<'_>,
    rel: u8,
    limit: u8,
    access: Access,
    inputs: &[Combo],
    calls: &mut Calls<S, L>,
) -> Result<List<Combo>, Broke>
    requires asked { IsAskedFor request.now }
    requires ready { IsNodeFor request.now (limit_node_for request.now rel limit access) }
    requires inputs { AreInputsFor request.now rel inputs.now }
    requires share { AffordsNode calls.old.allowance.now (length inputs.now)
        (limit_node_for request.now rel limit access) }
    ensures spends { SpendsNode S.Store calls.old calls.new (length inputs.now)
        (limit_node_for request.now rel limit access) }
    ensures stops { IfErr result (StopsRead S.Store request.now.catalog.now.tables calls.old calls.new) }
    ensures found { IfOk result (AreFoundFor request.now rel (length inputs.now)
        (limit_node_for request.now rel limit access)) }
    // Over any content that is told, no row is passed over, and none stands in for another.
    ensures codes { IfOk result (λ found. IfSome (S.content calls.old.store.now)
        (AreRangedFor request.now rel limit access inputs.now found)) }
    ensures answer { IfOk result (AnswersFor (S.content calls.old.store.now) request.now inputs.now
        (limit_node_for request.now rel limit access)) }
{
    let range = range_of(alloc, request.catalog, request.query, rel, limit, access)?;
    range_each(alloc, request, &range, inputs, calls)
}

/// What is asked from the first row on.
fn from_start<'a>(catalog: &'a Catalog, query: &'a Query, params: &'a Row) -> Request<'a>
    ensures { result ≡ record { catalog = catalog.entry; query = query.entry; params = params.entry; after = None } }
{
    Request {
        catalog,
        query,
        params,
        after: None,
    }
}

/// Each input followed by each row of the relation that has the tied values at the columns of the limit: one
/// range of at most n keys for each input, all asked at once, and over an index one get for each row, which are
/// asked at once too. `limit` is the number of the limit taken, from 1, and `access` the sequence that begins
/// with its columns. The order of what is found is the order of the inputs, and behind one input that of the
/// sequence.
pub fn limit_range<S: Store<L>, L: Ledger>(
    alloc: Global,
    catalog: &Catalog,
    query: &Query,
    params: &Row,
    rel: u8,
    limit: u8,
    access: Access,
    inputs: List<Combo>,
    store: &mut S,
    allowance: &mut Allowance,
    meter: &mut Meter<L>,
) -> Result<List<Combo>, Broke>
    requires asked { IsAsked catalog.now.tables query.now params.now }
    requires ready { IsReadyNode catalog.now.tables query.now
        (limit_node catalog.now.tables query.now rel limit access) }
    requires inputs { AreInputs catalog.now.tables query.now rel inputs }
    requires share { AffordsNode allowance.old (length inputs)
        (limit_node catalog.now.tables query.now rel limit access) }
    // Over any content that is told, no row is passed over, and none stands in for another.
    ensures codes { IfOk result (λ found. IfSome (S.content store.old)
        (AreRanged catalog.now.tables query.now params.now rel limit access inputs found)) }
    ensures answer { IfOk result (AnswersNode (S.content store.old) catalog.now.tables query.now params.now None
        inputs (limit_node catalog.now.tables query.now rel limit access)) }
    ensures reads { ReadsNode (world (S.content store.old) (S.faults store.old) allowance.old meter.old)
        (world (S.content store.new) (S.faults store.new) allowance.new meter.new) (length inputs)
        (limit_node catalog.now.tables query.now rel limit access) }
    ensures found { IfOk result (AreFound catalog.now.tables query.now rel (length inputs)
        (limit_node catalog.now.tables query.now rel limit access)) }
    ensures cause { IfErr result (StopsReading catalog.now.tables
        (world (S.content store.old) (S.faults store.old) allowance.old meter.old)
        (world (S.content store.new) (S.faults store.new) allowance.new meter.new)) }
    ensures rounds { S.rounds store.new ≤ S.rounds store.old
        + node_rounds (limit_node catalog.now.tables query.now rel limit access) }
    ensures answered { IfErr result (IsAnswered S.answers) }
    ensures undamaged { IfErr result (IsSoundOverRows (S.content store.old) catalog.now.tables) }
{
    let request = from_start(catalog, query, params);
    let mut calls = Calls {
        store,
        allowance,
        meter,
    };
    range_inputs(
        alloc,
        &request,
        rel,
        limit,
        access,
        inputs.items(),
        &mut calls,
    )
}
