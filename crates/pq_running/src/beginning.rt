//! What a RUN is refused for before any call of the store, and where its page begins.
ghost use Rattle.std.specs.Prelude.{◌≡◌, ◌≤◌, ◌+◌, length, None, option_copied, IfOk};
ghost use Rattle.pq_base.specs.Answers.{Answers, Passes};
ghost use Rattle.pq_base.specs.Values.{AllFit};
ghost use Rattle.pq_schema.specs.Resolved.{IsResolved, ref_type};
ghost use Rattle.pq_schema.specs.Schema.{query_at};
ghost use Rattle.pq_schema.specs.Sound.{IsQuery};
ghost use Rattle.pq_nodes.specs.Combos.{position_types};
ghost use Rattle.pq_nodes.specs.Operators.{IsCursor};
ghost use Rattle.pq_running.specs.Running.{IsQueryNumber, misfit, params_refusal, page_size, position_dirs, begins_after, cursor_start};

use pq_base::{ColType, Dir, List, NoMem, PText, Refusal, Row, Stopped, Value, fits};
use pq_cursor::read_cursor;
use pq_predicates::{position_columns, table_of};
use pq_schema::{Catalog, ColRef, Query, Stop, type_at};
use std::alloc::Global;

/// The number of the first value that does not fit its parameter, from this number on.
fn misfit(number: u8, types: &[ColType], values: &[Value]) -> Option<u8>
    requires { number + length values.now ≤ 255 }
    ensures number { result ≡ misfit number types.now values.now }
    ensures fits { result ≡ None → length values.now ≡ length types.now → AllFit types.now values.now }
{
    match (types.split_first(), values.split_first()) {
        (Some((ty, types)), Some((value, values))) => {
            if fits(value, *ty) {
                misfit(number + 1, types, values)
            } else {
                Some(number)
            }
        }
        _ => None,
    }
}

/// Refuses another number of values than there are parameters, and the first value that does not fit.
pub fn check_params(types: &[ColType], values: &[Value]) -> Result<(), Stopped>
    requires { length types.now ≤ 16 }
    ensures passes { Passes result (params_refusal types.now values.now) }
    ensures fits { IfOk result (λ _. AllFit types.now values.now) }
{
    if values.len() != types.len() {
        return Err(Stopped::Refused(Refusal::ParamValue { number: 0 }));
    }
    match misfit(1, types, values) {
        None => Ok(()),
        Some(number) => Err(Stopped::Refused(Refusal::ParamValue { number })),
    }
}

/// What the values of a position are read by: their types and directions.
#[derive(Drop)]
pub struct PositionShape {
    pub types: List<ColType>,
    pub dirs: List<Dir>,
}

/// The type of a column of a query.
fn type_of(catalog: &Catalog, query: &Query, col: ColRef) -> ColType
    requires query { IsQuery catalog.now.tables query.now }
    requires from_one { 1 ≤ col.rel }
    requires there { col.rel ≤ length query.now.relations }
    ensures { result ≡ ref_type catalog.now.tables query.now col }
{
    type_at(table_of(catalog, query, col.rel).columns.items(), col.col)
}

/// The types and the directions of a query's position columns.
pub fn position_shape(
    alloc: Global,
    catalog: &Catalog,
    query: &Query,
) -> Result<PositionShape, NoMem>
    requires { IsResolved catalog.now.tables query.now }
    ensures types { IfOk result (λ shape. shape.types ≡ position_types catalog.now.tables query.now) }
    ensures dirs { IfOk result (λ shape. shape.dirs ≡ position_dirs catalog.now.tables query.now) }
{
    catalog.known();
    let mut types = List::new(alloc);
    let mut dirs = List::new(alloc);
    for item in position_columns(alloc, catalog, query)?.items() {
        types.push(alloc, type_of(catalog, query, item.col))?;
        dirs.push(alloc, item.dir)?;
    }
    Ok(PositionShape { types, dirs })
}

/// k of PAGINATE k.
pub fn page_size(stop: Stop) -> Option<u16>
    ensures { result ≡ page_size stop }
{
    match stop {
        Stop::All | Stop::Limit(_) => None,
        Stop::Paginate(k) => Some(k),
    }
}

/// The position of a cursor, None where there is no cursor.
fn begin_after(
    alloc: Global,
    catalog: &Catalog,
    number: u16,
    query: &Query,
    after: Option<&PText>,
) -> Result<Option<Row>, Stopped>
    requires { IsResolved catalog.now.tables query.now }
    ensures answer { Answers result (begins_after catalog.now.tables number query.now (option_copied after.entry)) }
    ensures cursor { IfOk result (IsCursor catalog.now.tables query.now) }
{
    let Some(text) = after else {
        return Ok(None);
    };
    if page_size(query.stop).is_none() {
        return Err(Stopped::Refused(Refusal::NotPaged));
    }
    let shape = position_shape(alloc, catalog, query)?;
    let position = read_cursor(alloc, text, number, shape.types.items(), shape.dirs.items())?;
    Ok(Some(position))
}

/// The position behind which a page of the query begins, None at the front.
///
/// # Errors
///
/// `ParamValue` with 0 for another number of values than the query has parameters, or with the number of
/// the first value that does not fit; `NotPaged` for a cursor where the query has no PAGINATE; `Cursor`
/// where the text is no cursor of this query.
pub fn begin(
    alloc: Global,
    catalog: &Catalog,
    number: u16,
    params: &Row,
    after: Option<&PText>,
) -> Result<Option<Row>, Stopped>
    requires { IsQueryNumber catalog.now number }
    ensures answer { Answers result (cursor_start catalog.now.tables number (query_at catalog.now number) params.now
        (option_copied after.entry)) }
    ensures fits { IfOk result (λ _. AllFit (query_at catalog.now number).params params.now) }
    ensures cursor { IfOk result (IsCursor catalog.now.tables (query_at catalog.now number)) }
{
    catalog.known();
    let query = catalog.query(number);
    check_params(query.params.items(), params.items())?;
    begin_after(alloc, catalog, number, query, after)
}
