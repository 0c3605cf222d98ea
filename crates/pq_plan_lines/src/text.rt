//! The lines of nodes as text (docs/FORMATS.md, "Plans").
ghost use Rattle.std.specs.Prelude.{◌≡◌, ◌++◌, ◌-◌, flat_map, map, OnOk, IfOk, string_bytes};
ghost use Rattle.pq_schema.specs.Relations.{relation_at};
ghost use Rattle.pq_schema.specs.Sequences.{ascending_part};
ghost use Rattle.pq_schema.specs.Tables.{table_at};
ghost use Rattle.pq_plan.specs.Cost.{IsPlanTree};
ghost use Rattle.pq_nodes.specs.Rounds.{plan_rounds};
ghost use Rattle.pq_plan_lines.specs.Texts.{column_name, cost_text, index_parts, later_text, line_text, node_text, part_text, parts_text, read_text, relation_text, rounds_text, sequence_text, wanted_parts};

use crate::node_line::{NodeLine, PlanNode};
use crate::rounds::plan_rounds;
use itoa::{Buffer, Integer};
use pq_base::{Bound, Dir, List, NoMem};
use pq_plan::BoundedPlan;
use pq_schema::{Access, Column, Index, KeyPart, NewIndex, Query, Table};
use std::alloc::{AllocError, Global};

/// A number from 1 as a place from 0.
fn place(number: u8) -> usize
    ensures { result ≡ number - 1 }
{
    (number as usize).saturating_sub(1)
}

fn put_number<I: Integer>(out: &mut String, number: I) -> Result<(), AllocError>
    ensures { OnOk result (string_bytes out.new ≡ string_bytes out.old ++ I.text number) }
{
    let mut buffer = Buffer::new();
    out.push_str(buffer.format(number))
}

/// The name of the table of this number, from 1.
fn table_name(tables: &[Table], number: u8) -> &str
    ensures { result.now ≡ (table_at tables.now number).name }
{
    match tables.get(place(number)) {
        Some(table) => table.name.as_str(),
        None => "",
    }
}

fn table_columns(tables: &[Table], number: u8) -> &[Column]
    ensures { result.now ≡ (table_at tables.now number).columns }
{
    match tables.get(place(number)) {
        Some(table) => table.columns.items(),
        None => &[],
    }
}

/// The name of the column of this place, from 0.
fn column_name(columns: &[Column], col: u8) -> &str
    ensures { result.now ≡ column_name columns.now col }
{
    match columns.get(col as usize) {
        Some(column) => column.name.as_str(),
        None => "",
    }
}

/// The alias of the relation of this number, from 1.
fn relation_alias(query: &Query, rel: u8) -> &str
    ensures { result.now ≡ (relation_at query.now rel).alias }
{
    match query.relations.items().get(place(rel)) {
        Some(relation) => relation.alias.as_str(),
        None => "",
    }
}

/// The number of the table of the relation of this number, from 1.
fn relation_table(query: &Query, rel: u8) -> u8
    ensures { result ≡ (relation_at query.now rel).table }
{
    match query.relations.items().get(place(rel)) {
        Some(relation) => relation.table,
        None => 0,
    }
}

fn put_part(columns: &[Column], part: &KeyPart, out: &mut String) -> Result<(), AllocError>
    ensures { OnOk result (string_bytes out.new ≡ string_bytes out.old ++ part_text columns.now part.now) }
{
    out.push_str(column_name(columns, part.col))?;
    match part.dir {
        Dir::Asc => Ok(()),
        Dir::Desc => out.push_str(" DESC"),
    }
}

/// Puts parts, each behind a comma.
fn put_later(columns: &[Column], parts: &[KeyPart], out: &mut String) -> Result<(), AllocError>
    ensures { OnOk result (string_bytes out.new
        ≡ string_bytes out.old ++ later_text columns.now parts.now) }
{
    match parts.split_first() {
        None => Ok(()),
        Some((part, rest)) => {
            out.push_str(", ")?;
            put_part(columns, part, out)?;
            put_later(columns, rest, out)
        }
    }
}

fn put_parts(columns: &[Column], parts: &[KeyPart], out: &mut String) -> Result<(), AllocError>
    ensures { OnOk result (string_bytes out.new
        ≡ string_bytes out.old ++ parts_text columns.now parts.now) }
{
    match parts.split_first() {
        None => Ok(()),
        Some((part, rest)) => {
            put_part(columns, part, out)?;
            put_later(columns, rest, out)
        }
    }
}

fn table_key(tables: &[Table], number: u8) -> &[u8]
    ensures { result.now ≡ (table_at tables.now number).key }
{
    match tables.get(place(number)) {
        Some(table) => table.key.items(),
        None => &[],
    }
}

/// The columns of a key, ascending.
fn ascending_parts(alloc: Global, key: &[u8]) -> Result<List<KeyPart>, NoMem>
    ensures { IfOk result (λ parts. parts ≡ map ascending_part key.now) }
{
    let mut parts = List::new(alloc);
    for col in key {
        parts.push(
            alloc,
            KeyPart {
                col: *col,
                dir: Dir::Asc,
            },
        )?;
    }
    Ok(parts)
}

/// The columns of an index that is wanted.
fn wanted_parts(wanted: &Option<NewIndex>) -> &[KeyPart]
    ensures { result.now ≡ wanted_parts wanted.now }
{
    match wanted {
        None => &[],
        Some(new) => new.index.cols.items(),
    }
}

fn indexes_of(tables: &[Table], number: u8) -> &[Index]
    ensures { result.now ≡ (table_at tables.now number).indexes }
{
    match tables.get(place(number)) {
        Some(table) => table.indexes.items(),
        None => &[],
    }
}

/// The columns of the index of this number, from 1: of the table's, or of the one that is wanted.
fn index_parts<'a>(indexes: &'a [Index], wanted: &'a Option<NewIndex>, number: u8) -> &'a [KeyPart]
    ensures { result.now ≡ index_parts indexes.now wanted.now number }
{
    match indexes.get(place(number)) {
        Some(index) => index.cols.items(),
        None => wanted_parts(wanted),
    }
}

/// Puts the sequence of the table of this number, from 1.
#[tactic(auto, unfolding(crate::specs::Texts::sequence_text))]
fn put_sequence(
    alloc: Global,
    tables: &[Table],
    number: u8,
    wanted: &Option<NewIndex>,
    access: Access,
    out: &mut String,
) -> Result<(), NoMem>
    ensures { OnOk result (string_bytes out.new
        ≡ string_bytes out.old ++ sequence_text (table_at tables.now number) wanted.now access) }
{
    let columns = table_columns(tables, number);
    match access {
        Access::Primary => {
            let parts = ascending_parts(alloc, table_key(tables, number))?;
            out.push_str(" key (")?;
            put_parts(columns, parts.items(), out)?;
        }
        Access::Secondary(index) => {
            out.push_str(" index ")?;
            put_number(out, index)?;
            out.push_str(" (")?;
            let parts = index_parts(indexes_of(tables, number), wanted, index);
            put_parts(columns, parts, out)?;
        }
    }
    Ok(out.push_str(")")?)
}

/// Puts the alias of the relation of this number, from 1, and its table.
fn put_relation(
    tables: &[Table],
    query: &Query,
    rel: u8,
    out: &mut String,
) -> Result<(), AllocError>
    ensures { OnOk result (string_bytes out.new
        ≡ string_bytes out.old ++ relation_text tables.now query.now rel) }
{
    out.push_str(" ")?;
    out.push_str(relation_alias(query, rel))?;
    out.push_str(" ")?;
    out.push_str(table_name(tables, relation_table(query, rel)))
}

/// Puts a relation and its sequence.
fn put_read(
    alloc: Global,
    tables: &[Table],
    query: &Query,
    wanted: &Option<NewIndex>,
    rel: u8,
    access: Access,
    out: &mut String,
) -> Result<(), NoMem>
    ensures { OnOk result (string_bytes out.new
        ≡ string_bytes out.old ++ read_text tables.now query.now wanted.now rel access) }
{
    put_relation(tables, query, rel, out)?;
    put_sequence(
        alloc,
        tables,
        relation_table(query, rel),
        wanted,
        access,
        out,
    )
}

#[tactic(auto, unfolding(crate::specs::Texts::node_text))]
fn put_node(
    alloc: Global,
    tables: &[Table],
    query: &Query,
    wanted: &Option<NewIndex>,
    node: PlanNode,
    out: &mut String,
) -> Result<(), NoMem>
    ensures { OnOk result (string_bytes out.new
        ≡ string_bytes out.old ++ node_text tables.now query.now wanted.now node) }
{
    match node {
        PlanNode::Lookup { rel } => {
            out.push_str("lookup")?;
            put_read(alloc, tables, query, wanted, rel, Access::Primary, out)
        }
        PlanNode::LimitRange { rel, n, access, .. } => {
            out.push_str("range")?;
            put_read(alloc, tables, query, wanted, rel, access, out)?;
            out.push_str(" limit ")?;
            Ok(put_number(out, n)?)
        }
        PlanNode::StopScan { rel, k, access } => {
            out.push_str("stop")?;
            put_read(alloc, tables, query, wanted, rel, access, out)?;
            out.push_str(" first ")?;
            Ok(put_number(out, k)?)
        }
        PlanNode::Filter { rel } => {
            out.push_str("filter")?;
            Ok(put_relation(tables, query, rel, out)?)
        }
        PlanNode::Sort => Ok(out.push_str("sort")?),
        PlanNode::Cut { k } => {
            out.push_str("cut ")?;
            Ok(put_number(out, k)?)
        }
        PlanNode::Project => Ok(out.push_str("project")?),
    }
}

/// Puts what a node costs and gives.
fn put_cost(cost: Bound, size: u128, out: &mut String) -> Result<(), AllocError>
    ensures { OnOk result (string_bytes out.new ≡ string_bytes out.old ++ cost_text cost size) }
{
    out.push_str(" bound ")?;
    put_number(out, cost.ops)?;
    out.push_str(" ")?;
    put_number(out, cost.entries)?;
    out.push_str(" size ")?;
    put_number(out, size)?;
    out.push_str("\n")
}

/// Puts the line of a node.
fn put_line(
    alloc: Global,
    tables: &[Table],
    query: &Query,
    wanted: &Option<NewIndex>,
    line: &NodeLine,
    out: &mut String,
) -> Result<(), NoMem>
    ensures { OnOk result (string_bytes out.new
        ≡ string_bytes out.old ++ line_text tables.now query.now wanted.now line.now) }
{
    out.push_str("node ")?;
    put_node(alloc, tables, query, wanted, line.node, out)?;
    Ok(put_cost(line.cost, line.size, out)?)
}

/// Puts the lines of a plan's nodes, of a query over the tables, which wants the index. After `NoMem` a part may
/// be there.
pub fn put_lines(
    alloc: Global,
    tables: &[Table],
    query: &Query,
    wanted: &Option<NewIndex>,
    lines: &[NodeLine],
    out: &mut String,
) -> Result<(), NoMem>
    ensures { OnOk result (string_bytes out.new
        ≡ string_bytes out.old ++ flat_map (line_text tables.now query.now wanted.now) lines.now) }
{
    for line in lines {
        put_line(alloc, tables, query, wanted, line, out)?;
    }
    Ok(())
}

/// Puts how many rounds a plan asks the store for. After `NoMem` a part may be there.
pub fn put_rounds(plan: &BoundedPlan, out: &mut String) -> Result<(), NoMem>
    requires { IsPlanTree plan.now }
    ensures { OnOk result (string_bytes out.new ≡ string_bytes out.old ++ rounds_text (plan_rounds plan.now)) }
{
    out.push_str("rounds ")?;
    put_number(out, plan_rounds(plan.tree()))?;
    Ok(out.push_str("\n")?)
}
