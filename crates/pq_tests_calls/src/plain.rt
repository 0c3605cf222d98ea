//! What a query answers by its definition: the rows of some groups that pass a comparison, in order.
use crate::rows::{Cells, S, rows_in};
use pq_base::{Dir, NoMem, Op};
use std::alloc::Global;

/// A comparison of the values with a constant, and the direction in which the values are ordered.
#[derive(Clone, Copy)]
pub(crate) struct Case {
    pub op: Op,
    /// Whether the groups are compared in place of the values.
    pub of_groups: bool,
    pub constant: i64,
    pub dir: Dir,
}

fn compares(op: Op, a: i64, b: i64) -> bool {
    match op {
        Op::Eq => a == b,
        Op::Ne => a != b,
        Op::Lt => a < b,
        Op::Le => a <= b,
        Op::Gt => a > b,
        Op::Ge => a >= b,
        Op::IsNull => false,
    }
}

/// A value, such that those in the direction rise.
fn turned(dir: Dir, value: i64) -> i64 {
    match dir {
        Dir::Asc => value,
        Dir::Desc => value.wrapping_neg(),
    }
}

/// The groups of a query: those that the first group of s names, or the first group alone.
pub(crate) fn groups_of(alloc: Global, is_joined: bool) -> Result<Vec<i64>, NoMem> {
    let mut groups = Vec::new(alloc);
    if !is_joined {
        groups.push(1)?;
        return Ok(groups);
    }
    let rows = rows_in(alloc, S)?;
    for row in &rows {
        if row.0 == 1 {
            groups.push(row.1)?;
        }
    }
    Ok(groups)
}

/// The rows of the groups that pass the comparison, by value in the direction, and by group and id.
pub(crate) fn plain(
    alloc: Global,
    rows: &[Cells],
    groups: &[i64],
    case: &Case,
) -> Result<Vec<Cells>, NoMem> {
    let mut found = Vec::new(alloc);
    for row in rows {
        let (g, v, _) = *row;
        let compared = if case.of_groups { g } else { v };
        if groups.contains(&g) && compares(case.op, compared, case.constant) {
            found.push(*row)?;
        }
    }
    found.sort_by_key(|row| (turned(case.dir, row.1), row.0, row.2))?;
    Ok(found)
}
