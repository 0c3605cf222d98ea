//! WHERE: what each column is compared with.
ghost use Rattle.std.specs.Prelude.{◌≡◌, ◌≤◌, ◌<◌, ◌+◌, IfOk, All, length};
ghost use Rattle.pq_base.specs.Answers.{Answers};
ghost use Rattle.pq_query_read.specs.Columns.{AreRelations, IsIn};
ghost use Rattle.pq_query_read.specs.Compared.{IsSideIn, IsLeftIn};
ghost use Rattle.pq_query_read.specs.Parameters.{param_number};
ghost use Rattle.pq_query_read.specs.Resolving.{operand_of, is_comparable, pred_with, pred_between, pred_of, preds_of};

use crate::columns::{column, type_of};
use crate::select::{OperandDef, PredDef};
use pq_base::{List, Op, Refusal, Stopped, fits};
use pq_schema::{Catalog, ColRef, Operand, Pred, Relation, param_type, same_kind};
use std::alloc::Global;

/// The greatest number of a parameter.
const PARAMS: i64 = 16;

/// The number of a parameter as it is kept: 0, which none has, for one that is too small or too large.
fn param_number(number: i64) -> u8
    ensures { result ≡ param_number number }
{
    if 0 <= number && number <= PARAMS {
        number as u8
    } else {
        0
    }
}

fn operand(
    alloc: Global,
    catalog: &Catalog,
    relations: &[Relation],
    def: &OperandDef,
) -> Result<Operand, Stopped>
    requires { AreRelations catalog.now.tables relations.now }
    ensures answer { Answers result (operand_of catalog.now.tables relations.now def.now) }
    ensures there { IfOk result (IsSideIn catalog.now.tables relations.now) }
{
    match def {
        OperandDef::Const(value) => {
            let value = value.copy(alloc)?;
            Ok(Operand::Const(value))
        }
        OperandDef::Param(number) => Ok(Operand::Param(param_number(*number))),
        OperandDef::Ref(def) => {
            let col = column(alloc, catalog, relations, def)?;
            Ok(Operand::Col(col))
        }
    }
}

/// Whether the column may be compared with the operand: NULL behind IS NULL, a constant of its kind, any
/// parameter, or a column of its kind and of another relation.
fn is_comparable(
    catalog: &Catalog,
    relations: &[Relation],
    op: Op,
    left: ColRef,
    right: &Operand,
) -> bool
    requires relations { AreRelations catalog.now.tables relations.now }
    requires left { IsIn catalog.now.tables relations.now left }
    requires right { IsSideIn catalog.now.tables relations.now right.now }
    ensures { result ≡ is_comparable catalog.now.tables relations.now op left right.now }
{
    match right {
        Operand::Const(value) => {
            matches!(op, Op::IsNull) || fits(value, param_type(type_of(catalog, relations, left)))
        }
        Operand::Param(_) => true,
        Operand::Col(right) => {
            let kind = type_of(catalog, relations, left);
            right.rel != left.rel && same_kind(kind, type_of(catalog, relations, *right))
        }
    }
}

/// The predicate, a column equality with the later relation on the left.
fn pred_with(left: ColRef, op: Op, right: Operand) -> Pred
    ensures { result ≡ pred_with left op right }
{
    match right {
        Operand::Col(right) if left.rel < right.rel => Pred {
            left: right,
            op,
            right: Operand::Col(left),
        },
        right => Pred { left, op, right },
    }
}

/// The predicate of this number, where its sides may be compared.
fn pred_between(
    catalog: &Catalog,
    relations: &[Relation],
    number: u8,
    left: ColRef,
    op: Op,
    right: Operand,
) -> Result<Pred, Stopped>
    requires relations { AreRelations catalog.now.tables relations.now }
    requires left { IsIn catalog.now.tables relations.now left }
    requires right { IsSideIn catalog.now.tables relations.now right }
    ensures answer { Answers result (pred_between catalog.now.tables relations.now number left op right) }
    ensures there { IfOk result (IsLeftIn catalog.now.tables relations.now) }
{
    if !is_comparable(catalog, relations, op, left, &right) {
        return Err(Stopped::Refused(Refusal::OperandKind { pred: number }));
    }
    Ok(pred_with(left, op, right))
}

/// The predicate behind these.
fn pred(
    alloc: Global,
    catalog: &Catalog,
    relations: &[Relation],
    before: &[Pred],
    def: &PredDef,
) -> Result<Pred, Stopped>
    requires relations { AreRelations catalog.now.tables relations.now }
    requires few { length before.now < 16 }
    ensures answer { Answers result (pred_of catalog.now.tables relations.now before.now def.now) }
    ensures there { IfOk result (IsLeftIn catalog.now.tables relations.now) }
{
    let left = column(alloc, catalog, relations, &def.left)?;
    let right = operand(alloc, catalog, relations, &def.right)?;
    pred_between(
        catalog,
        relations,
        before.len() as u8 + 1,
        left,
        def.op,
        right,
    )
}

/// The predicates in order, or the first refusal of one.
pub fn predicates(
    alloc: Global,
    catalog: &Catalog,
    relations: &[Relation],
    defs: &[PredDef],
) -> Result<List<Pred>, Stopped>
    requires relations { AreRelations catalog.now.tables relations.now }
    requires few { length defs.now ≤ 16 }
    ensures answer { Answers result (preds_of catalog.now.tables relations.now defs.now) }
    ensures there { IfOk result (All (IsLeftIn catalog.now.tables relations.now)) }
{
    let mut preds = List::new(alloc);
    for def in defs {
        let next = pred(alloc, catalog, relations, preds.items(), def)?;
        preds.push(alloc, next)?;
    }
    Ok(preds)
}
