//! Rows by their keys.
ghost use Rattle.std.specs.Prelude.{◌≡◌, ◌≤◌, ◌+◌, option_map, None, IfOk, IfErr, IfSome, IfNone};
ghost use Rattle.std.specs.FinMap.{get as value_at};
ghost use Rattle.pq_base.specs.Shapes.{row_shape};
ghost use Rattle.pq_base.specs.Values.{AllFit};
ghost use Rattle.pq_key_code.specs.KeyCode.{row_key};
ghost use Rattle.pq_schema.specs.Rows.{types_of, shape_of};
ghost use Rattle.pq_calls.specs.Calls.{Asks};
ghost use Rattle.pq_row_code.specs.StoredRow.{code_as};
ghost use Rattle.pq_calls.specs.Evidence.{IsRead, IsNoRowAt, IsUnreadRow};
ghost use Rattle.pq_calls.specs.World.{Affords};

use crate::calls::Calls;
use pq_base::{Bytes, ColType, List, NoMem, Row, Value};
use pq_key_code::row_key;
use pq_row_code::decode_filled;
use pq_schema::Table;
use pq_store::{Broke, Damage, Store};
use std::alloc::Global;
use std::sync::ledger::Ledger;

/// A row that is there, and its key in the store.
#[derive(Drop)]
pub struct StoredRow {
    pub at: Bytes,
    pub row: Row,
}

/// The types of the columns.
pub fn types_of(alloc: Global, table: &Table) -> Result<List<ColType>, NoMem>
    ensures { IfOk result (λ types. types ≡ types_of table.now) }
{
    let mut types = List::new(alloc);
    for column in table.columns.items() {
        types.push(alloc, column.ty)?;
    }
    Ok(types)
}

/// The row that the value at its key is the code of. A value that is the code of no row that fits is damage.
pub fn answered_row(
    alloc: Global,
    at: &[u8],
    code: &[u8],
    types: &[ColType],
    fillers: &List<Option<Value>>,
) -> Result<Row, Broke>
    ensures fits { IfOk result (AllFit types.now) }
    ensures code { IfOk result (λ row. code_as (row_shape types.now fillers.now) row ≡ code.now) }
    ensures cause { IfErr result (IsUnreadRow (row_shape types.now fillers.now) at.now code.now) }
{
    match decode_filled(alloc, code, types, fillers)? {
        Some(row) => Ok(row),
        None => Err(Broke::Damaged(Damage {
            key: Bytes::of_bytes(alloc, at)?,
            value: Some(Bytes::of_bytes(alloc, code)?),
        })),
    }
}

impl<'a, S: Store<L>, L: Ledger> Calls<'a, S, L> {
    /// The row at a key of the store, which has to fit the types.
    fn row_at(
        &mut self,
        alloc: Global,
        at: Bytes,
        types: &[ColType],
        fillers: &List<Option<Value>>,
    ) -> Result<Option<StoredRow>, Broke>
        requires share { Affords self.old.allowance.now 1 1 }
        ensures asks { Asks S.Store (IsNoRowAt (row_shape types.now fillers.now) at) self.old self.new 1 1 1 result }
        ensures read { IfOk result (λ found. IfSome (S.content self.old.store.now) (λ c.
            IsRead (row_shape types.now fillers.now) (value_at c at) (option_map (λ stored. stored.row) found))) }
        ensures none { IfOk result (λ found. IfNone found (S.answers at None)) }
        ensures at { IfOk result (λ found. IfSome found (λ stored. stored.at ≡ at)) }
        ensures fits { IfOk result (λ found. IfSome found (λ stored. AllFit types.now stored.row)) }
    {
        let Some(code) = self.get(alloc, at.items())? else {
            return Ok(None);
        };
        let row = answered_row(alloc, at.items(), code.items(), types, fillers)?;
        Ok(Some(StoredRow { at, row }))
    }

    /// The row of the table with this key, and its key in the store. A value that is the code of no
    /// row of the table is damage.
    pub fn row(
        &mut self,
        alloc: Global,
        number: u8,
        table: &Table,
        key: &Row,
    ) -> Result<Option<StoredRow>, Broke>
        requires share { Affords self.old.allowance.now 1 1 }
        ensures asks { Asks S.Store (IsNoRowAt (shape_of table.now) (row_key number key.now)) self.old self.new
            1 1 1 result }
        ensures read { IfOk result (λ found. IfSome (S.content self.old.store.now) (λ c.
            IsRead (shape_of table.now) (value_at c (row_key number key.now)) (option_map
            (λ stored. stored.row) found))) }
        ensures none { IfOk result (λ found. IfNone found (S.answers (row_key number key.now) None)) }
        ensures at { IfOk result (λ found. IfSome found (λ stored. stored.at ≡ row_key number key.now)) }
        ensures fits { IfOk result (λ found. IfSome found (λ stored. AllFit (types_of table.now) stored.row)) }
    {
        let types = types_of(alloc, table)?;
        let at = row_key(alloc, number, key)?;
        self.row_at(alloc, at, types.items(), &table.fillers)
    }
}
