//! The ends of an input's range as keys.
ghost use Rattle.std.specs.Prelude.{◌≡◌, ◌<◌, ◌==◌, ◌++◌, ◌∷◌, [], cond, map, slice_get, option_copied, IfOk, OnOk};
ghost use Rattle.std.specs.List.{AllByRecursion};
ghost use Rattle.std.specs.Option.{option_to_list};
ghost use Rattle.pq_base.specs.declared.value.Value.{Value};
ghost use Rattle.pq_key_code.specs.KeyCode.{code_of};
ghost use Rattle.pq_schema.specs.Relations.{belongs_to};
ghost use Rattle.pq_serving.specs.Keys.{bound_key, higher, lesser_key};
ghost use Rattle.pq_serving.specs.Scanning.{first_direction, rest, constant};
ghost use Rattle.pq_serving.specs.Starts.{under, lower, upper};
ghost use Rattle.pq_scan.specs.Ends.{is_past, edge_value, edge_bounds, bounds_by, pred_bounds, own_bounds, farther, farthest, with_key, bound_of, direction_of, started_key, end_code};
ghost use Rattle.pq_scan.specs.Asked.{range_of};
ghost use Rattle.pq_scan.specs.Inputs.{input_with, low_code, high_code};
ghost use Rattle.pq_entries.specs.Entries.{key_front};
ghost use Rattle.pq_scan.specs.Prepared.{asked_over, IsPrepared};

use crate::forms::{blank_code, items_from};
use crate::passing::is_tied;
use crate::places::constants;
use crate::prepared::Scan;
use crate::starts::{Start, start_at};
use pq_base::{Bytes, Dir, NoMem, Op, Row, Value};
use pq_key_code::{entry_front, past, put_component, row_front};
use pq_operands::{side, tied_cells};
use pq_plan::Combo;
use pq_predicates::belongs_to;
use pq_schema::{Access, KeyPart, Pred};
use pq_store::Ends;
use std::alloc::Global;
use std::cmp::Ordering;

/// An end of a range: where it starts, or before which it ends.
#[derive(Clone, Copy)]
pub(crate) enum End {
    Low,
    High,
}

/// Whether a bound is at its values, or past them; the value behind the tied ones may be NULL in place of an
/// operand.
#[derive(Clone, Copy)]
pub(crate) enum Edge {
    At,
    Past,
    AtNull,
    PastNull,
}

fn lower_edge(dir: Dir, op: Op) -> Option<Edge>
    ensures { (w : Value) → edge_bounds result w ≡ lower dir op w }
{
    match (dir, op) {
        (Dir::Asc, Op::Gt) | (Dir::Desc, Op::Lt) => Some(Edge::Past),
        (Dir::Asc, Op::Ge) | (Dir::Desc, Op::Le) => Some(Edge::At),
        (Dir::Asc, Op::Lt | Op::Le) => Some(Edge::PastNull),
        (Dir::Asc, Op::Eq | Op::Ne | Op::IsNull) => None,
        (Dir::Desc, Op::Eq | Op::Ne | Op::Gt | Op::Ge | Op::IsNull) => None,
    }
}

fn upper_edge(dir: Dir, op: Op) -> Option<Edge>
    ensures { (w : Value) → edge_bounds result w ≡ upper dir op w }
{
    match (dir, op) {
        (Dir::Asc, Op::Lt) | (Dir::Desc, Op::Gt) => Some(Edge::At),
        (Dir::Asc, Op::Le) | (Dir::Desc, Op::Ge) => Some(Edge::Past),
        (Dir::Desc, Op::Lt | Op::Le) => Some(Edge::AtNull),
        (Dir::Asc, Op::Eq | Op::Ne | Op::Gt | Op::Ge | Op::IsNull) => None,
        (Dir::Desc, Op::Eq | Op::Ne | Op::IsNull) => None,
    }
}

/// Where a range predicate bounds an end of the range, in the direction of the column.
fn edge_of(end: End, dir: Dir, op: Op) -> Option<Edge>
    ensures { (w : Value) → edge_bounds result w ≡ bounds_by end dir op w }
{
    match end {
        End::Low => lower_edge(dir, op),
        End::High => upper_edge(dir, op),
    }
}

/// Whether an edge is past its values.
fn is_past(edge: Edge) -> bool
    ensures { result ≡ is_past edge }
{
    match edge {
        Edge::At | Edge::AtNull => false,
        Edge::Past | Edge::PastNull => true,
    }
}

/// Puts the code of values, as far as there are directions.
fn put_front(alloc: Global, out: &mut Bytes, values: &[Value], dirs: &[Dir]) -> Result<(), NoMem>
    ensures { OnOk result (out.new ≡ out.old ++ code_of dirs.now values.now) }
{
    let Some((dir, dirs)) = dirs.split_first() else {
        return Ok(());
    };
    let Some((value, values)) = values.split_first() else {
        return Ok(());
    };
    put_component(alloc, out, *dir, value)?;
    put_front(alloc, out, values, dirs)
}

/// Puts the code of a value, where there is a direction.
#[tactic(auto, using(crate::proofs::Codes::one_value))]
fn put_one(alloc: Global, out: &mut Bytes, value: &Value, dirs: &[Dir]) -> Result<(), NoMem>
    ensures { OnOk result (out.new ≡ out.old ++ code_of dirs.now (value.now ∷ [])) }
{
    match dirs.split_first() {
        Some((dir, _)) => put_component(alloc, out, *dir, value),
        None => Ok(()),
    }
}

/// A code, and 20 behind it where it is past its values.
#[tactic(auto, using(crate::proofs::Codes::nil_behind))]
fn ended(alloc: Global, code: Bytes, is_past: bool) -> Result<Bytes, NoMem>
    ensures { IfOk result (λ key. key ≡ code ++ cond is_past (32 ∷ []) []) }
{
    if is_past { past(alloc, code) } else { Ok(code) }
}

/// The code of the tied values.
fn ties_code(alloc: Global, dirs: &[Dir], ties: &Row) -> Result<Bytes, NoMem>
    ensures { IfOk result (λ code. code ≡ code_of dirs.now ties.now) }
{
    let mut code = blank_code(alloc)?;
    put_front(alloc, &mut code, ties.items(), dirs)?;
    Ok(code)
}

/// The key of the tied values alone.
fn tied_key(alloc: Global, dirs: &[Dir], ties: &Row, edge: Edge) -> Result<Bytes, NoMem>
    ensures { IfOk result (λ key. key ≡ bound_key dirs.now (record { past = is_past edge; values = ties.now })) }
{
    let code = ties_code(alloc, dirs, ties)?;
    ended(alloc, code, is_past(edge))
}

/// The key of an edge of an operand behind the tied values.
fn edge_key(
    alloc: Global,
    dirs: &[Dir],
    ties: &Row,
    operand: &Value,
    edge: Edge,
) -> Result<Bytes, NoMem>
    ensures { IfOk result (λ key. key ≡ bound_key dirs.now (under ties.now
        (record { past = is_past edge; values = edge_value edge operand.now ∷ [] }))) }
{
    match edge {
        Edge::At | Edge::Past => value_key(alloc, dirs, ties, operand, edge),
        Edge::AtNull | Edge::PastNull => value_key(alloc, dirs, ties, &Value::Null, edge),
    }
}

/// The key of one value behind the tied ones.
#[tactic(auto, using(crate::proofs::Codes::code_behind))]
fn value_key(
    alloc: Global,
    dirs: &[Dir],
    ties: &Row,
    value: &Value,
    edge: Edge,
) -> Result<Bytes, NoMem>
    ensures { IfOk result (λ key. key ≡ bound_key dirs.now (under ties.now
        (record { past = is_past edge; values = value.now ∷ [] }))) }
{
    let mut code = ties_code(alloc, dirs, ties)?;
    put_one(
        alloc,
        &mut code,
        value,
        items_from(dirs, ties.items().len()),
    )?;
    ended(alloc, code, is_past(edge))
}

/// The key of a start behind the tied values.
#[tactic(auto, using(crate::proofs::Codes::code_behind))]
fn start_key(alloc: Global, dirs: &[Dir], ties: &Row, start: &Start) -> Result<Bytes, NoMem>
    ensures { IfOk result (λ key. key ≡ bound_key dirs.now (under ties.now (bound_of start.now))) }
{
    let mut code = ties_code(alloc, dirs, ties)?;
    let rest = items_from(dirs, ties.items().len());
    put_front(alloc, &mut code, start.values.items(), rest)?;
    ended(alloc, code, start.past)
}

fn higher(a: Bytes, b: Bytes) -> Bytes
    ensures { result ≡ higher a b }
{
    match a.items().cmp(b.items()) {
        Ordering::Less => b,
        _ => a,
    }
}

fn lesser(a: Bytes, b: Bytes) -> Bytes
    ensures { result ≡ lesser_key a b }
{
    match a.items().cmp(b.items()) {
        Ordering::Less => a,
        _ => b,
    }
}

/// Which of two keys is the end: the higher low one, the lesser high one.
fn farther(end: End, a: Bytes, b: Bytes) -> Bytes
    ensures { result ≡ farther end a b }
{
    match end {
        End::Low => higher(a, b),
        End::High => lesser(a, b),
    }
}

fn with_key(end: End, found: Option<Bytes>, key: Bytes) -> Bytes
    ensures { result ≡ with_key end found key }
{
    match found {
        None => key,
        Some(one) => farther(end, one, key),
    }
}

/// An input, and the values that equalities tie behind it.
#[derive(Clone, Copy)]
struct TiedInput<'a> {
    combo: &'a Combo,
    ties: &'a Row,
}

/// The key of the bound that a predicate makes at an end, where it is one of the relation's on a column
/// that is not tied, with an operand.
fn pred_key(
    alloc: Global,
    scan: &Scan<'_>,
    input: &TiedInput<'_>,
    end: End,
    dir: Dir,
    pred: &Pred,
) -> Result<Option<Bytes>, NoMem>
    requires sound { IsPrepared scan.now }
    requires column { pred.now.left.col < 32 }
    ensures { IfOk result (λ key. option_to_list key ≡ map (λ b. bound_key scan.now.dirs (under input.now.ties.now b))
        (cond (belongs_to pred.now == scan.now.rel)
        (pred_bounds (asked_over scan.now []) scan.now.rel end dir input.now.combo.now pred.now) [])) }
{
    if belongs_to(pred) != scan.rel || is_tied(scan, pred) {
        return Ok(None);
    }
    let Some(operand) = side(scan.params, input.combo, &pred.right) else {
        return Ok(None);
    };
    match edge_of(end, dir, pred.op) {
        None => Ok(None),
        Some(edge) => Ok(Some(edge_key(alloc, scan.dirs.items(), input.ties, operand, edge)?)),
    }
}

/// The end of a key and of the bounds that some predicates make.
fn farthest_from(
    alloc: Global,
    scan: &Scan<'_>,
    input: &TiedInput<'_>,
    end: End,
    dir: Dir,
    preds: &[Pred],
    base: Bytes,
) -> Result<Bytes, NoMem>
    requires sound { IsPrepared scan.now }
    requires columns { AllByRecursion (λ pred. pred.left.col < 32) preds.now }
    ensures { IfOk result (λ key. key ≡ farthest end scan.now.dirs base (map (under input.now.ties.now)
        (own_bounds (asked_over scan.now []) scan.now.rel end dir input.now.combo.now preds.now))) }
{
    let Some((pred, rest)) = preds.split_first() else {
        return Ok(base);
    };
    let key = farthest_from(alloc, scan, input, end, dir, rest, base)?;
    let found = pred_key(alloc, scan, input, end, dir, pred)?;
    Ok(with_key(end, found, key))
}

/// The direction of a part, ascending where there is none.
fn direction_of(part: Option<&KeyPart>) -> Dir
    ensures { result ≡ direction_of (option_copied part.entry) }
{
    match part {
        Some(part) => part.dir,
        None => Dir::Asc,
    }
}

/// The part of the sequence at a place.
fn part_at<'s>(scan: &'s Scan<'_>, place: usize) -> Option<&'s KeyPart>
    ensures { option_copied result ≡ slice_get scan.now.sequence place }
{
    scan.sequence.items().get(place)
}

/// The direction of the first column behind the tied ones.
fn rest_direction(scan: &Scan<'_>) -> Dir
    requires { IsPrepared scan.now }
    ensures { result ≡ first_direction (rest (asked_over scan.now []) scan.now.rel scan.now.sequence) }
{
    direction_of(part_at(scan, scan.fixed.count() as usize))
}

/// A low end, and the start that a cursor makes.
fn with_start(
    alloc: Global,
    scan: &Scan<'_>,
    input: &TiedInput<'_>,
    after: Option<&Row>,
    key: Bytes,
) -> Result<Bytes, NoMem>
    requires { IsPrepared scan.now }
    ensures { IfOk result (λ low. low ≡ started_key scan.now.dirs input.now.ties.now scan.now.position_dirs
        (map (constant (asked_over scan.now []) scan.now.rel input.now.combo.now) scan.now.items) (option_copied after.entry)
        key) }
{
    match after {
        None => Ok(key),
        Some(at) => {
            let constants = constants(alloc, scan, input.combo)?;
            let dirs = scan.position_dirs.items();
            let start = start_at(alloc, dirs, constants.items(), at)?;
            let one = start_key(alloc, scan.dirs.items(), input.ties, &start)?;
            Ok(higher(one, key))
        }
    }
}

/// An end of an input's range as a code, before a cursor plays a part.
fn end_code(
    alloc: Global,
    scan: &Scan<'_>,
    input: &TiedInput<'_>,
    end: End,
    edge: Edge,
) -> Result<Bytes, NoMem>
    requires { IsPrepared scan.now }
    ensures { IfOk result (λ key. key ≡ end_code scan.now input.now.combo.now input.now.ties.now end edge) }
{
    let dir = rest_direction(scan);
    let base = tied_key(alloc, scan.dirs.items(), input.ties, edge)?;
    let preds = scan.query.preds.items();
    farthest_from(alloc, scan, input, end, dir, preds, base)
}

/// A code behind what the keys of the scan's sequence begin with.
fn with_front(alloc: Global, scan: &Scan<'_>, code: &Bytes) -> Result<Bytes, NoMem>
    ensures { IfOk result (λ key. key ≡ key_front scan.now.number scan.now.access ++ code.now) }
{
    let mut key = match scan.access {
        Access::Primary => row_front(alloc, scan.number)?,
        Access::Secondary(index) => entry_front(alloc, scan.number, index)?,
    };
    key.extend(alloc, code.items())?;
    Ok(key)
}

/// The keys from which an input's range starts, strictly after a cursor, and before which it ends, by the tied
/// values.
fn ends_of(
    alloc: Global,
    scan: &Scan<'_>,
    input: &TiedInput<'_>,
    after: Option<&Row>,
) -> Result<Ends, NoMem>
    requires { IsPrepared scan.now }
    ensures low { IfOk result (λ ends. ends.low ≡ key_front scan.now.number scan.now.access ++ low_code scan.now
        input.now.combo.now (input_with scan.now input.now.combo.now input.now.ties.now) (option_copied after.entry)) }
    ensures high { IfOk result (λ ends. ends.high ≡ key_front scan.now.number scan.now.access ++ high_code scan.now
        input.now.combo.now (input_with scan.now input.now.combo.now input.now.ties.now)) }
{
    let low = end_code(alloc, scan, input, End::Low, Edge::At)?;
    let low = with_start(alloc, scan, input, after, low)?;
    let low = with_front(alloc, scan, &low)?;
    let high = end_code(alloc, scan, input, End::High, Edge::Past)?;
    let high = with_front(alloc, scan, &high)?;
    Ok(Ends { low, high })
}

/// The range of an input, strictly after a cursor.
pub(crate) fn range_of(
    alloc: Global,
    scan: &Scan<'_>,
    combo: &Combo,
    after: Option<&Row>,
) -> Result<Ends, NoMem>
    requires { IsPrepared scan.now }
    ensures { IfOk result (λ ends. ends ≡ range_of scan.now (option_copied after.entry) combo.now) }
{
    let front = scan.front.items();
    let ties = tied_cells(alloc, scan.query, scan.params, scan.rel, combo, front)?;
    let input = TiedInput { combo, ties: &ties };
    ends_of(alloc, scan, &input, after)
}
