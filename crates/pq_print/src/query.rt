//! The canonical text of a query.
ghost use Rattle.std.specs.Prelude.{◌≡◌, ◌++◌, OnOk, IfOk, string_bytes};
ghost use Rattle.pq_print.specs.Canonical.{ref_text, relation_text, op_text, operand_text, pred_text, order_text, stop_text, select_text, query_text};

use crate::names::{column_name, relation_alias, relation_table, table_columns, table_name};
use crate::number::put_number;
use crate::part::{Part, put_clause, put_separated};
use crate::print::put_dir;
use pq_base::{Bytes, List, NoMem, Op};
use pq_schema::{ColRef, Operand, OrderItem, Pred, Query, Relation, Stop, Table};
use std::alloc::{AllocError, Global};

/// A query and the tables that it is over.
#[derive(Clone, Copy)]
struct Over<'a> {
    tables: &'a [Table],
    query: &'a Query,
}

#[tactic(auto, unfolding(crate::specs::Canonical::ref_text))]
fn put_ref(over: &Over<'_>, column: ColRef, out: &mut String) -> Result<(), AllocError>
    ensures { OnOk result (string_bytes out.new
        ≡ string_bytes out.old ++ ref_text over.now.tables.now over.now.query.now column) }
{
    out.push_str(relation_alias(over.query, column.rel))?;
    out.push_str(".")?;
    let table = relation_table(over.query, column.rel);
    out.push_str(column_name(table_columns(over.tables, table), column.col))
}

impl<'a> Part<Over<'a>> for ColRef {
    ghost text = { λ over column. ref_text over.tables.now over.query.now column };

    fn put(&self, over: &Over<'a>, out: &mut String) -> Result<(), AllocError> {
        put_ref(over, *self, out)
    }
}

#[tactic(auto, unfolding(crate::specs::Canonical::relation_text))]
fn put_relation(tables: &[Table], relation: &Relation, out: &mut String) -> Result<(), AllocError>
    ensures { OnOk result (string_bytes out.new ≡ string_bytes out.old ++ relation_text tables.now relation.now) }
{
    out.push_str(table_name(tables, relation.table))?;
    out.push_str(" AS ")?;
    out.push_str(relation.alias.as_str())
}

impl<'a> Part<Over<'a>> for Relation {
    ghost text = { λ over relation. relation_text over.tables.now relation };

    fn put(&self, over: &Over<'a>, out: &mut String) -> Result<(), AllocError> {
        put_relation(over.tables, self, out)
    }
}

fn op_word(op: Op) -> &'static str
    ensures { result.now ≡ op_text op }
{
    match op {
        Op::Eq => "=",
        Op::Ne => "<>",
        Op::Lt => "<",
        Op::Le => "<=",
        Op::Gt => ">",
        Op::Ge => ">=",
        Op::IsNull => "IS",
    }
}

fn put_operand(over: &Over<'_>, operand: &Operand, out: &mut String) -> Result<(), AllocError>
    ensures { OnOk result (string_bytes out.new
        ≡ string_bytes out.old ++ operand_text over.now.tables.now over.now.query.now operand.now) }
{
    match operand {
        Operand::Const(value) => value.put(&(), out),
        Operand::Param(number) => {
            out.push_str("[")?;
            put_number(out, *number)?;
            out.push_str("]")
        }
        Operand::Col(column) => put_ref(over, *column, out),
    }
}

#[tactic(auto, unfolding(crate::specs::Canonical::pred_text))]
fn put_pred(over: &Over<'_>, pred: &Pred, out: &mut String) -> Result<(), AllocError>
    ensures { OnOk result (string_bytes out.new
        ≡ string_bytes out.old ++ pred_text over.now.tables.now over.now.query.now pred.now) }
{
    put_ref(over, pred.left, out)?;
    out.push_str(" ")?;
    out.push_str(op_word(pred.op))?;
    out.push_str(" ")?;
    put_operand(over, &pred.right, out)
}

impl<'a> Part<Over<'a>> for Pred {
    ghost text = { λ over pred. pred_text over.tables.now over.query.now pred };

    fn put(&self, over: &Over<'a>, out: &mut String) -> Result<(), AllocError> {
        put_pred(over, self, out)
    }
}

impl<'a> Part<Over<'a>> for OrderItem {
    ghost text = { λ over item. order_text over.tables.now over.query.now item };

    fn put(&self, over: &Over<'a>, out: &mut String) -> Result<(), AllocError> {
        put_ref(over, self.col, out)?;
        put_dir(self.dir, out)
    }
}

fn put_stop(stop: Stop, out: &mut String) -> Result<(), AllocError>
    ensures { OnOk result (string_bytes out.new ≡ string_bytes out.old ++ stop_text stop) }
{
    match stop {
        Stop::All => Ok(()),
        Stop::Limit(k) => {
            out.push_str(" LIMIT ")?;
            put_number(out, k)
        }
        Stop::Paginate(k) => {
            out.push_str(" PAGINATE ")?;
            put_number(out, k)
        }
    }
}

#[tactic(auto, unfolding(crate::specs::Canonical::select_text))]
fn put_select(tables: &[Table], query: &Query, out: &mut String) -> Result<(), AllocError>
    ensures { OnOk result (string_bytes out.new ≡ string_bytes out.old ++ select_text tables.now query.now) }
{
    let over = Over { tables, query };
    out.push_str("SELECT ")?;
    put_separated(query.select.items(), &over, ", ", out)?;
    out.push_str(" FROM ")?;
    put_separated(query.relations.items(), &over, ", ", out)?;
    put_clause(query.preds.items(), &over, " WHERE ", " AND ", out)?;
    put_clause(query.order.items(), &over, " ORDER BY ", ", ", out)?;
    put_stop(query.stop, out)
}

/// Puts the query's text behind what is there.
#[tactic(auto, unfolding(crate::specs::Canonical::query_text))]
pub fn put_query(tables: &[Table], query: &Query, out: &mut String) -> Result<(), AllocError>
    ensures { OnOk result (string_bytes out.new ≡ string_bytes out.old ++ query_text tables.now query.now) }
{
    out.push_str("PREPARE ")?;
    out.push_str(query.name.as_str())?;
    out.push_str(" AS ")?;
    put_select(tables, query, out)?;
    out.push_str(";")
}

/// The canonical text of a query over the tables.
pub fn print_query(alloc: Global, tables: &[Table], query: &Query) -> Result<Bytes, NoMem>
    ensures { IfOk result (λ text. text ≡ query_text tables.now query.now) }
{
    let mut text = String::new(alloc);
    put_query(tables, query, &mut text)?;
    Ok(List::from_vec(text.into_bytes()))
}
