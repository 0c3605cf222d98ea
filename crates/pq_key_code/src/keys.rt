//! The keys of the store.
ghost use Rattle.std.specs.Prelude.{◌≡◌, ◌++◌, [], length, replicate, OnOk, IfOk};
ghost use Rattle.pq_base.specs.declared.value.Dir.TheVariants.{Asc};
ghost use Rattle.pq_key_code.specs.KeyCode.{code_of, past_code, row_key, entry_key, catalog_key, intent_key};

use crate::encode::{begun, put_code, put_component};
use pq_base::{Bytes, Dir, NoMem, Row};
use std::alloc::Global;

/// The code and 0x20, which is above every code that goes on from this one. After `NoMem` the code
/// is dropped.
pub fn past(alloc: Global, code: Bytes) -> Result<Bytes, NoMem>
    ensures { IfOk result (λ key. key ≡ past_code code) }
{
    let mut code = code;
    code.push(alloc, 0x20)?;
    Ok(code)
}

fn put_ascending(alloc: Global, out: &mut Bytes, row: &Row) -> Result<(), NoMem>
    ensures { OnOk result (out.new ≡ out.old ++ code_of (replicate (length row.now) Asc) row.now) }
{
    for value in row.items() {
        put_component(alloc, out, Dir::Asc, value)?;
    }
    Ok(())
}

/// What stands before the code in the keys of a table's rows: space 02 and the table's number.
pub fn row_front(alloc: Global, table: u8) -> Result<Bytes, NoMem>
    ensures { IfOk result (λ bytes. bytes ≡ row_key table []) }
{
    begun(alloc, &[0x02, table])
}

/// The key of the row with this primary key: space 02, the table's number, and the key's code.
pub fn row_key(alloc: Global, table: u8, key: &Row) -> Result<Bytes, NoMem>
    ensures { IfOk result (λ bytes. bytes ≡ row_key table key.now) }
{
    let mut bytes = row_front(alloc, table)?;
    put_ascending(alloc, &mut bytes, key)?;
    Ok(bytes)
}

/// What stands before the code in the keys of an index's entries: space 03, the table's number and
/// the index's number.
pub fn entry_front(alloc: Global, table: u8, index: u8) -> Result<Bytes, NoMem>
    ensures { IfOk result (λ bytes. bytes ≡ entry_key table index [] []) }
{
    begun(alloc, &[0x03, table, index])
}

/// The key of an index entry, or, with the first values of a sequence only, the beginning of such
/// keys: space 03, the table's number, the index's number, and the code of the values.
pub fn entry_key(
    alloc: Global,
    table: u8,
    index: u8,
    values: &Row,
    dirs: &[Dir],
) -> Result<Bytes, NoMem>
    requires { length values.now ≡ length dirs.now }
    ensures { IfOk result (λ bytes. bytes ≡ entry_key table index dirs.now values.now) }
{
    let mut bytes = entry_front(alloc, table, index)?;
    put_code(alloc, &mut bytes, values.items(), dirs)?;
    Ok(bytes)
}

/// The key of a definition: space 01 and its number in two bytes, the higher first.
pub fn catalog_key(alloc: Global, number: u16) -> Result<Bytes, NoMem>
    ensures { IfOk result (λ bytes. bytes ≡ catalog_key number) }
{
    let [high, low] = number.to_be_bytes();
    Bytes::of_bytes(alloc, &[0x01, high, low])
}

/// The key of the intent: space 04 alone.
pub fn intent_key(alloc: Global) -> Result<Bytes, NoMem>
    ensures { IfOk result (λ bytes. bytes ≡ intent_key) }
{
    Bytes::of_bytes(alloc, &[0x04])
}
