//! Where the range of an input starts.
ghost use Rattle.std.specs.Prelude.{◌≡◌, ◌++◌, IfOk};
ghost use Rattle.pq_base.specs.Order.{directed_order, value_cmp};
ghost use Rattle.pq_serving.specs.Starts.{start_of};
ghost use Rattle.pq_scan.specs.Ends.{bound_of};

use pq_base::{Dir, NoMem, Row, Value, cmp_values};
use std::alloc::Global;
use std::cmp::Ordering;

/// A prefix of a sequence's rest: from its first code on, or past its last one.
#[derive(Drop)]
pub(crate) struct Start {
    pub past: bool,
    pub values: Row,
}

/// The order of two values in a direction.
fn order_in(dir: Dir, a: &Value, b: &Value) -> Ordering
    ensures { result ≡ directed_order dir (value_cmp a.now b.now) }
{
    match dir {
        Dir::Asc => cmp_values(a, b),
        Dir::Desc => cmp_values(a, b).reverse(),
    }
}

/// From where on an input's rows are strictly after a cursor, behind values that are settled.
fn start_behind(
    alloc: Global,
    dirs: &[Dir],
    constants: &[Option<Value>],
    at: &[Value],
    mut values: Row,
) -> Result<Start, NoMem>
    ensures { IfOk result (λ start. let s = start_of dirs.now constants.now at.now in
        bound_of start ≡ record { past = s.past; values = values ++ s.values }) }
{
    let (Some((dir, dirs)), Some((constant, constants)), Some((value, at))) = (
        dirs.split_first(),
        constants.split_first(),
        at.split_first(),
    ) else {
        return Ok(Start { past: true, values });
    };
    match constant {
        None => {
            values.push(alloc, value.copy(alloc)?)?;
            start_behind(alloc, dirs, constants, at, values)
        }
        Some(constant) => match order_in(*dir, value, constant) {
            Ordering::Less => Ok(Start {
                past: false,
                values,
            }),
            Ordering::Equal => start_behind(alloc, dirs, constants, at, values),
            Ordering::Greater => Ok(Start { past: true, values }),
        },
    }
}

/// From where on an input's rows are strictly after a cursor.
pub(crate) fn start_at(
    alloc: Global,
    dirs: &[Dir],
    constants: &[Option<Value>],
    at: &Row,
) -> Result<Start, NoMem>
    ensures { IfOk result (λ start. bound_of start ≡ start_of dirs.now constants.now at.now) }
{
    start_behind(alloc, dirs, constants, at.items(), Row::new(alloc))
}
