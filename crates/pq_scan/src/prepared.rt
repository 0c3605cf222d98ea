//! A scan, prepared once for all inputs of its node.
ghost use Rattle.std.specs.Prelude.{◌≡◌, ◌≤◌, length, map, take, IfOk};
ghost use Rattle.pq_schema.specs.Relations.{table_of};
ghost use Rattle.pq_schema.specs.Sequences.{columns_of, IsAccess};
ghost use Rattle.pq_schema.specs.Sound.{IsQuery};
ghost use Rattle.pq_scan.specs.Prepared.{IsPrepared, subject_of, item_directions};

use crate::request::Request;
use pq_base::{ColSet, ColType, Dir, List, NoMem, Row};
use pq_entries::types_at;
use pq_predicates::{fixed, position_columns, table_number, table_of};
use pq_schema::{Access, Catalog, KeyPart, OrderItem, Query, dirs_of, sequence};
use std::alloc::Global;

/// What a stop scan of a relation goes by.
#[derive(Drop)]
pub(crate) struct Scan<'a> {
    pub catalog: &'a Catalog,
    pub query: &'a Query,
    pub params: &'a Row,
    /// The relation, from 1, and the sequence that serves it.
    pub rel: u8,
    pub access: Access,
    /// The number of the relation's table.
    pub number: u8,
    /// The columns that equalities tie.
    pub fixed: ColSet,
    /// The tied columns, in the order in which the sequence begins with them.
    pub front: List<u8>,
    /// The parts of the sequence, and their types and directions.
    pub sequence: List<KeyPart>,
    pub types: List<ColType>,
    pub dirs: List<Dir>,
    /// The position columns, and their directions.
    pub items: List<OrderItem>,
    pub position_dirs: List<Dir>,
}

/// The directions of a position.
fn item_dirs(alloc: Global, items: &[OrderItem]) -> Result<List<Dir>, NoMem>
    ensures { IfOk result (λ dirs. dirs ≡ item_directions items.now) }
{
    let mut dirs = List::with_room(alloc, items.len())?;
    for item in items {
        dirs.push(alloc, item.dir)?;
    }
    Ok(dirs)
}

/// The columns of a sequence.
fn columns_in(alloc: Global, parts: &[KeyPart]) -> Result<List<u8>, NoMem>
    ensures { IfOk result (λ cols. cols ≡ columns_of parts.now) }
{
    let mut cols = List::with_room(alloc, parts.len())?;
    for part in parts {
        cols.push(alloc, part.col)?;
    }
    Ok(cols)
}

impl<'a> Scan<'a> {
    /// The scan of a relation by an access.
    pub(crate) fn prepare(
        alloc: Global,
        request: &Request<'a>,
        rel: u8,
        access: Access,
    ) -> Result<Scan<'a>, NoMem>
        requires query { IsQuery request.now.catalog.now.tables request.now.query.now }
        requires from_one { 1 ≤ rel }
        requires there { rel ≤ length request.now.query.now.relations }
        requires access { IsAccess (table_of request.now.catalog.now.tables request.now.query.now rel) access }
        ensures sound { IfOk result IsPrepared }
        ensures subject { IfOk result (λ scan. subject_of scan ≡
            record {
              tables = request.now.catalog.now.tables;
              query = request.now.query.now;
              params = request.now.params.now;
              rel = rel;
              access = access;
            }) }
    {
        let Request {
            catalog,
            query,
            params,
            ..
        } = *request;
        let table = table_of(catalog, query, rel);
        let fixed = fixed(query, rel);
        let sequence = sequence(alloc, table, access)?;
        let mut front = columns_in(alloc, sequence.items())?;
        front.truncate(fixed.count() as usize);
        let types = types_at(alloc, table.columns.items(), sequence.items())?;
        let dirs = dirs_of(alloc, sequence.items())?;
        let items = position_columns(alloc, catalog, query)?;
        let position_dirs = item_dirs(alloc, items.items())?;
        Ok(Scan {
            catalog,
            query,
            params,
            rel,
            access,
            number: table_number(query, rel),
            fixed,
            front,
            sequence,
            types,
            dirs,
            items,
            position_dirs,
        })
    }
}
