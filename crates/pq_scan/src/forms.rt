//! The codes of positions: the constants of an input are coded once for all its rows.
ghost use Rattle.std.specs.Prelude.{◌≡◌, ◌<◌, ◌++◌, [], drop, map, option_copied, unwrap_or, IfOk, OnOk};
ghost use Rattle.std.specs.List.{AllByRecursion};
ghost use Rattle.pq_base.specs.Cells.{no_value, value_of};
ghost use Rattle.pq_key_code.specs.KeyCode.{component};
ghost use Rattle.pq_schema.specs.Rows.{cells};
ghost use Rattle.pq_schema.specs.Sequences.{columns_of};
ghost use Rattle.pq_serving.specs.Scanning.{constant_value, constant};
ghost use Rattle.pq_scan.specs.Forms.{form_of, form_with, filled_code};
ghost use Rattle.pq_scan.specs.Prepared.{asked_over, item_directions, IsPrepared};

use crate::places::{is_free, known_value};
use crate::prepared::Scan;
use pq_base::{Bytes, Dir, List, NoMem, Value, no_value};
use pq_key_code::put_component;
use pq_plan::Combo;
use pq_schema::{KeyPart, OrderItem};
use std::alloc::Global;

// Most codes have no more bytes than this.
const CODE_ROOM: usize = 40;

/// A code without a byte, with room for those of most codes.
pub(crate) fn blank_code(alloc: Global) -> Result<Bytes, NoMem>
    ensures { IfOk result (λ code. code ≡ []) }
{
    Bytes::with_room(alloc, CODE_ROOM)
}

/// The items from a place on.
pub(crate) fn items_from<T>(items: &[T], place: usize) -> &[T]
    ensures { result.now ≡ drop place items.now }
{
    if place < items.len() {
        &items[place..]
    } else {
        &[]
    }
}

/// The code of constants, and the direction of a value of the row behind them.
#[derive(Drop)]
pub(crate) struct FormPart {
    pub before: Bytes,
    pub dir: Dir,
}

/// A position whose constants are coded: the parts, and the code of the constants behind the last value.
#[derive(Drop)]
pub(crate) struct PlaceForm {
    pub parts: List<FormPart>,
    pub behind: Bytes,
}

/// Puts a value that is there, and else what stands at a column that isn't there.
fn put_known(alloc: Global, out: &mut Bytes, dir: Dir, value: Option<&Value>) -> Result<(), NoMem>
    ensures { OnOk result (out.new ≡ out.old ++ component dir (unwrap_or (option_copied value.entry) no_value)) }
{
    match value {
        Some(value) => put_component(alloc, out, dir, value),
        None => put_component(alloc, out, dir, &no_value()),
    }
}

/// The code of constants, and of one more behind them.
fn with_constant(
    alloc: Global,
    scan: &Scan<'_>,
    combo: &Combo,
    item: &OrderItem,
    code: Bytes,
) -> Result<Bytes, NoMem>
    ensures { IfOk result (λ whole. whole ≡ code
        ++ component item.now.dir (constant_value (asked_over scan.now []) scan.now.rel combo.now item.now)) }
{
    let mut whole = if code.items().is_empty() {
        blank_code(alloc)?
    } else {
        code
    };
    put_known(alloc, &mut whole, item.dir, known_value(scan, combo, item))?;
    Ok(whole)
}

/// The form of an input's positions, behind parts and behind the code of constants.
fn form_behind(
    alloc: Global,
    scan: &Scan<'_>,
    combo: &Combo,
    items: &[OrderItem],
    code: Bytes,
    mut parts: List<FormPart>,
) -> Result<PlaceForm, NoMem>
    requires sound { IsPrepared scan.now }
    requires columns { AllByRecursion (λ item. item.col.col < 32) items.now }
    ensures { IfOk result (λ form. form ≡ form_with parts code
        (map (constant (asked_over scan.now []) scan.now.rel combo.now) items.now) (item_directions items.now)) }
{
    let Some((item, items)) = items.split_first() else {
        return Ok(PlaceForm {
            parts,
            behind: code,
        });
    };
    if is_free(scan, item) {
        parts.push(
            alloc,
            FormPart {
                before: code,
                dir: item.dir,
            },
        )?;
        form_behind(alloc, scan, combo, items, List::new(alloc), parts)
    } else {
        let code = with_constant(alloc, scan, combo, item, code)?;
        form_behind(alloc, scan, combo, items, code, parts)
    }
}

/// The form of the positions of an input's rows.
pub(crate) fn form_of(alloc: Global, scan: &Scan<'_>, combo: &Combo) -> Result<PlaceForm, NoMem>
    requires { IsPrepared scan.now }
    ensures { IfOk result (λ form. form ≡ form_of
        (map (constant (asked_over scan.now []) scan.now.rel combo.now) scan.now.items) scan.now.position_dirs) }
{
    let items = scan.items.items();
    form_behind(
        alloc,
        scan,
        combo,
        items,
        List::new(alloc),
        List::new(alloc),
    )
}

/// Puts the code of a position, with these values of the row in order.
pub(crate) fn put_filled(
    alloc: Global,
    out: &mut Bytes,
    parts: &[FormPart],
    behind: &[u8],
    values: &[Value],
) -> Result<(), NoMem>
    ensures { OnOk result (out.new ≡ out.old ++ filled_code parts.now behind.now values.now) }
{
    let Some((part, parts)) = parts.split_first() else {
        return out.extend(alloc, behind);
    };
    out.extend(alloc, part.before.items())?;
    let Some((value, values)) = values.split_first() else {
        return Ok(());
    };
    put_component(alloc, out, part.dir, value)?;
    put_filled(alloc, out, parts, behind, values)
}

/// Puts the row's value at a column.
fn put_cell(alloc: Global, out: &mut Bytes, dir: Dir, row: &[Value], col: u8) -> Result<(), NoMem>
    ensures { OnOk result (out.new ≡ out.old ++ component dir (value_of row.now col)) }
{
    put_known(alloc, out, dir, row.get(col as usize))
}

/// The same, with the values of a row at the columns of these parts of a sequence.
pub(crate) fn put_filled_cells(
    alloc: Global,
    out: &mut Bytes,
    parts: &[FormPart],
    behind: &[u8],
    sequence: &[KeyPart],
    row: &[Value],
) -> Result<(), NoMem>
    ensures { OnOk result (out.new ≡ out.old
        ++ filled_code parts.now behind.now (cells (columns_of sequence.now) row.now)) }
{
    let Some((part, parts)) = parts.split_first() else {
        return out.extend(alloc, behind);
    };
    out.extend(alloc, part.before.items())?;
    let Some((column, sequence)) = sequence.split_first() else {
        return Ok(());
    };
    put_cell(alloc, out, part.dir, row, column.col)?;
    put_filled_cells(alloc, out, parts, behind, sequence, row)
}
