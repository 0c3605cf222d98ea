//! The parameters of a query: their numbers and their types.
ghost use Rattle.std.specs.Prelude.{◌≡◌, ◌≤◌, IfOk, All, length, List as Items};
ghost use Rattle.std.specs.List.{list_all, list_any};
ghost use Rattle.pq_base.specs.Answers.{Answers};
ghost use Rattle.pq_query_read.specs.Columns.{AreRelations};
ghost use Rattle.pq_query_read.specs.Compared.{IsLeftIn};
ghost use Rattle.pq_query_read.specs.Parameters.{use_in, uses, has_number, has_param_number, agrees_with_all, are_params, param_count, param_type_of, param_types, params_of};

use crate::columns::type_of;
use pq_base::{ColType, List, NoMem, Refusal, Stopped};
use pq_schema::{Catalog, Operand, Pred, Relation, param_type, same_kind};
use std::alloc::Global;

/// A parameter where a predicate uses it: its number, and the type of what is compared there.
#[derive(Clone, Copy, PartialEq, Eq)]
pub struct ParamUse {
    pub number: u8,
    pub ty: ColType,
}

/// The parameter of a predicate.
fn use_in(catalog: &Catalog, relations: &[Relation], pred: &Pred) -> Option<ParamUse>
    requires relations { AreRelations catalog.now.tables relations.now }
    requires left { IsLeftIn catalog.now.tables relations.now pred.now }
    ensures { result ≡ use_in catalog.now.tables relations.now pred.now.left pred.now.right }
{
    match &pred.right {
        Operand::Param(number) => Some(ParamUse {
            number: *number,
            ty: param_type(type_of(catalog, relations, pred.left)),
        }),
        Operand::Const(_) | Operand::Col(_) => None,
    }
}

/// The parameters of the predicates, in order.
fn uses(
    alloc: Global,
    catalog: &Catalog,
    relations: &[Relation],
    preds: &[Pred],
) -> Result<List<ParamUse>, NoMem>
    requires relations { AreRelations catalog.now.tables relations.now }
    requires left { All (IsLeftIn catalog.now.tables relations.now) preds.now }
    ensures { IfOk result (λ made. made ≡ uses catalog.now.tables relations.now preds.now) }
{
    let mut made = List::new(alloc);
    for pred in preds {
        if let Some(next) = use_in(catalog, relations, pred) {
            made.push(alloc, next)?;
        }
    }
    Ok(made)
}

fn has_number(uses: &[ParamUse], number: u8) -> bool
    ensures { result ≡ list_any (has_number number) uses.now }
{
    uses.iter().any(|param| param.number == number)
}

/// Whether the number is 1, or the number below it is used too.
fn is_numbered(uses: &[ParamUse], param: &ParamUse) -> bool
    ensures { result ≡ has_param_number uses.now param.now }
{
    param.number == 1 || 1 < param.number && has_number(uses, param.number - 1)
}

/// Whether each use of the same parameter is of the same kind.
fn agrees_with_all(uses: &[ParamUse], param: &ParamUse) -> bool
    ensures { result ≡ agrees_with_all uses.now param.now }
{
    uses.iter().all(|other| param.number != other.number || same_kind(param.ty, other.ty))
}

fn are_numbered(uses: &[ParamUse]) -> bool
    ensures { result ≡ list_all (has_param_number uses.now) uses.now }
{
    uses.iter().all(|param| is_numbered(uses, param))
}

fn agree(uses: &[ParamUse]) -> bool
    ensures { result ≡ list_all (agrees_with_all uses.now) uses.now }
{
    uses.iter().all(|param| agrees_with_all(uses, param))
}

/// Whether the numbers are exactly 1 to n, and each has one kind.
fn are_params(uses: &[ParamUse]) -> bool
    ensures { result ≡ are_params uses.now }
{
    are_numbered(uses) && agree(uses)
}

/// The greatest number.
fn param_count(uses: &[ParamUse]) -> u8
    ensures { result ≡ param_count uses.now }
{
    let mut count = 0;
    for param in uses {
        count = count.max(param.number);
    }
    count
}

/// The type of the parameter of this number, from its first use.
fn param_type_of(uses: &[ParamUse], number: u8) -> ColType
    ensures { result ≡ param_type_of uses.now number }
{
    match uses.iter().find(|param| param.number == number) {
        Some(param) => param.ty,
        None => ColType::Bool,
    }
}

fn param_types(alloc: Global, uses: &[ParamUse]) -> Result<List<ColType>, NoMem>
    ensures { IfOk result (λ types. types ≡ param_types uses.now) }
{
    let mut types = List::new(alloc);
    for place in 0..param_count(uses) {
        types.push(alloc, param_type_of(uses, place + 1))?;
    }
    Ok(types)
}

/// The types of the parameters that the predicates use, refused unless they are numbered from 1 without a gap and
/// each is of one kind.
pub fn params(
    alloc: Global,
    catalog: &Catalog,
    relations: &[Relation],
    preds: &[Pred],
) -> Result<List<ColType>, Stopped>
    requires relations { AreRelations catalog.now.tables relations.now }
    requires left { All (IsLeftIn catalog.now.tables relations.now) preds.now }
    ensures { Answers result (params_of (uses catalog.now.tables relations.now preds.now)) }
{
    let uses = uses(alloc, catalog, relations, preds)?;
    if !are_params(uses.items()) {
        return Err(Stopped::Refused(Refusal::Params));
    }
    let types = param_types(alloc, uses.items())?;
    Ok(types)
}
