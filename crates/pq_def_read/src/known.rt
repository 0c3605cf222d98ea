//! Statements whose values are in their kinds' ranges.
ghost use Rattle.std.specs.Prelude.{All};
ghost use Rattle.pq_base.specs.Values.{IsValue};
ghost use Rattle.pq_def_read.specs.Known.{IsSetting, AreSettings, AreKnown, AreConditions, HasWriteValues, HaveWriteValues, HasValues};

use crate::statement::Statement;
use crate::write::{Assign, CondDef, SetDef, Setting, WriteDef};
use pq_base::{known_value, known_values};

fn known_setting(setting: &Setting)
    ensures { IsSetting setting.now }
{
    match setting {
        Setting::Is(value) => known_value(value),
        Setting::Add(number) => {
            let _number = *number;
        }
    }
}

fn known_set(set: &SetDef)
    ensures { IsSetting set.now.to }
{
    known_setting(&set.to);
}

fn known_sets(sets: &[SetDef])
    ensures { AreSettings sets.now }
{
    for set in sets {
        known_set(set);
    }
}

fn known_assign(assign: &Assign)
    ensures { IsValue assign.now.value }
{
    known_value(&assign.value);
}

fn known_assigns(assigns: &[Assign])
    ensures { AreKnown assigns.now }
{
    for assign in assigns {
        known_assign(assign);
    }
}

fn known_condition(cond: &CondDef)
    ensures { IsValue cond.now.value }
{
    known_value(&cond.value);
}

fn known_conditions(conds: &[CondDef])
    ensures { AreConditions conds.now }
{
    for cond in conds {
        known_condition(cond);
    }
}

fn known_write(write: &WriteDef)
    ensures { HasWriteValues write.now }
{
    match write {
        WriteDef::Insert { values, .. } => known_values(values.items()),
        WriteDef::Update {
            sets,
            key,
            conds,
            ..
        } => {
            known_sets(sets.items());
            known_assigns(key.items());
            known_conditions(conds.items());
        }
        WriteDef::Delete { key, conds, .. } => {
            known_assigns(key.items());
            known_conditions(conds.items());
        }
    }
}

fn known_writes(writes: &[WriteDef])
    ensures { HaveWriteValues writes.now }
{
    for write in writes {
        known_write(write);
    }
}

/// Tells a proof that the values of a statement are in their kinds' ranges.
pub fn known_statement(statement: &Statement)
    ensures { HasValues statement.now }
{
    match statement {
        Statement::Write(write) => known_write(write),
        Statement::Batch(writes) => known_writes(writes.items()),
        Statement::Run { values, .. } => known_values(values.items()),
        Statement::Alter(def) => known_value(&def.filler),
        Statement::Read { values, .. } => known_values(values.items()),
        Statement::Create(_)
        | Statement::Counter(_)
        | Statement::Prepare { .. }
        | Statement::Explain { .. }
        | Statement::Show
        | Statement::Select => {}
    }
}
