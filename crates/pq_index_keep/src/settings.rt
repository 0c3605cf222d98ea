//! What the columns of an UPDATE are set to, by their names, and whether it fits them.
ghost use Rattle.std.specs.Prelude.{◌≡◌, ◌≤◌, length, map, IfOk};
ghost use Rattle.pq_base.specs.Answers.{Passes};
ghost use Rattle.pq_index_keep.specs.Checking.{set_names, fits_setting, is_set_misfit, set_misfit, set_of_def};
ghost use Rattle.pq_def_read.specs.Known.{IsSetting, AreSettings};

use crate::column_values::named_type;
use crate::write::SetCol;
use pq_base::{ColType, DataKind, List, NoMem, PText, Refusal, Stopped, fits, known_value};
use pq_def_read::{SetDef, Setting};
use pq_schema::{Table, place_of};
use std::alloc::Global;

/// The columns that are named.
pub(crate) fn set_names(alloc: Global, sets: &[SetDef]) -> Result<List<PText>, NoMem>
    ensures { IfOk result (λ names. names ≡ set_names sets.now) }
{
    let mut names = List::new(alloc);
    for set in sets {
        names.push(alloc, set.col.copy(alloc)?)?;
    }
    Ok(names)
}

/// Whether the value fits the type; of an ADD, whether the type is of numbers.
fn fits_setting(to: &Setting, ty: ColType) -> bool
    ensures { result ≡ fits_setting ty to.now }
{
    match to {
        Setting::Is(value) => fits(value, ty),
        Setting::Add(_) => ty.kind().is(DataKind::Int),
    }
}

fn is_set_misfit(table: &Table, set: &SetDef) -> bool
    requires { length table.now.columns ≤ 32 }
    ensures { result ≡ is_set_misfit table.now set.now }
{
    !fits_setting(&set.to, named_type(table, &set.col))
}

/// Refuses the first column that is set to what doesn't fit it.
pub(crate) fn check_sets(alloc: Global, table: &Table, sets: &[SetDef]) -> Result<(), Stopped>
    requires { length table.now.columns ≤ 32 }
    ensures { Passes result (set_misfit table.now sets.now) }
{
    match sets.split_first() {
        None => Ok(()),
        Some((set, rest)) => {
            if !is_set_misfit(table, set) {
                return check_sets(alloc, table, rest);
            }
            let column = set.col.copy(alloc)?;
            let table = table.name.copy(alloc)?;
            Err(Stopped::Refused(Refusal::ValueKind { table, column }))
        }
    }
}

fn copy_setting(alloc: Global, to: &Setting) -> Result<Setting, NoMem>
    ensures { IfOk result (λ copy. copy ≡ to.now) }
{
    match to {
        Setting::Is(value) => Ok(Setting::Is(value.copy(alloc)?)),
        Setting::Add(number) => Ok(Setting::Add(*number)),
    }
}

/// The columns by their numbers, with what they are set to.
pub(crate) fn sets_of(alloc: Global, table: &Table, sets: &[SetDef]) -> Result<List<SetCol>, NoMem>
    requires { length table.now.columns ≤ 32 }
    ensures { IfOk result (λ made. made ≡ map (set_of_def table.now) sets.now) }
{
    let mut made = List::new(alloc);
    for set in sets {
        let col = place_of(table.columns.items(), &set.col) as u8;
        let to = copy_setting(alloc, &set.to)?;
        made.push(alloc, SetCol { col, to })?;
    }
    Ok(made)
}

fn known_setting(to: &Setting)
    ensures { IsSetting to.now }
{
    match to {
        Setting::Is(value) => known_value(value),
        Setting::Add(number) => {
            let _number = *number;
        }
    }
}

fn known_set(set: &SetDef)
    ensures { IsSetting set.now.to }
{
    known_setting(&set.to);
}

/// Tells a proof that values and numbers are in their ranges.
pub(crate) fn known_sets(sets: &[SetDef])
    ensures { AreSettings sets.now }
{
    for set in sets {
        known_set(set);
    }
}
