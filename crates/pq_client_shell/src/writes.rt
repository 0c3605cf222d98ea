//! The writes of a script.
ghost use Rattle.std.specs.Prelude.{◌≡◌, ◌≤◌, IfOk, IfSome, is_some, length};
ghost use Rattle.pq_index_keep.specs.Sound.{IsWrite};
ghost use Rattle.pq_tallies.specs.Writes.{written_table};
ghost use Rattle.pq_client_shell.specs.Writes.{IsUncounted, as_write, front_count, has_counters, if_uncounted, text_written, write_of, written_of};

use pq_base::{NoMem, PText, Stopped};
use pq_def_read::{Statement, WriteDef, read_statement};
use pq_index_keep::{Write, check_write};
use pq_schema::Catalog;
use pq_text::{Piece, tokens};
use std::alloc::Global;

/// The greatest number of bytes of a statement.
const STATEMENT_BYTES: usize = 65536;

/// The INSERT, UPDATE or DELETE, where the statement is one.
fn as_write(statement: Statement) -> Option<WriteDef>
    ensures { result ≡ as_write statement }
{
    match statement {
        Statement::Write(def) => Some(def),
        _ => None,
    }
}

/// The INSERT, UPDATE or DELETE that a text spells.
fn text_written(alloc: Global, text: &PText) -> Result<Option<WriteDef>, NoMem>
    ensures { IfOk result (λ found. found ≡ text_written text.now) }
{
    if text.bytes().len() > STATEMENT_BYTES {
        return Ok(None);
    }
    let found = tokens(alloc, text)?;
    match read_statement(alloc, text, &found) {
        Ok(statement) => Ok(as_write(statement)),
        Err(Stopped::NoMem) => Err(NoMem),
        Err(Stopped::Refused(_)) => Ok(None),
    }
}

/// The INSERT, UPDATE or DELETE that a piece spells.
#[tactic(auto, unfolding(crate::specs::Writes::written_of))]
fn written_of(alloc: Global, piece: &Piece) -> Result<Option<WriteDef>, NoMem>
    ensures { IfOk result (λ found. found ≡ written_of piece.now) }
{
    match piece {
        Piece::Statement(text) => text_written(alloc, text),
        Piece::NotUtf8 | Piece::TooLong => Ok(None),
    }
}

/// The number of the table of a write.
fn written_table(write: &Write) -> u8
    ensures { result ≡ written_table write.now }
{
    match write {
        Write::Insert { table, .. } | Write::Update { table, .. } | Write::Delete { table, .. } =>
            *table,
    }
}

/// Whether a table has counters.
fn has_counters(alloc: Global, catalog: &Catalog, table: u8) -> Result<bool, NoMem>
    ensures { IfOk result (λ has. has ≡ has_counters catalog.now table) }
{
    let counters = catalog.counters_of(alloc, table)?;
    Ok(!counters.items().is_empty())
}

/// The write, where its table has no counters.
fn if_uncounted(alloc: Global, catalog: &Catalog, write: Write) -> Result<Option<Write>, NoMem>
    requires { IsWrite catalog.now.tables write }
    ensures is { IfOk result (λ found. found ≡ if_uncounted catalog.now write) }
    ensures write { IfOk result (λ found. IfSome found (IsWrite catalog.now.tables)) }
    ensures uncounted { IfOk result (λ found. IfSome found (IsUncounted catalog.now)) }
{
    let counted = has_counters(alloc, catalog, written_table(&write))?;
    if counted {
        return Ok(None);
    }
    Ok(Some(write))
}

/// The write of a piece, where it spells one that is accepted, of a table without counters.
pub fn write_of(alloc: Global, catalog: &Catalog, piece: &Piece) -> Result<Option<Write>, NoMem>
    ensures is { IfOk result (λ found. found ≡ write_of catalog.now piece.now) }
    ensures write { IfOk result (λ found. IfSome found (IsWrite catalog.now.tables)) }
    ensures uncounted { IfOk result (λ found. IfSome found (IsUncounted catalog.now)) }
{
    let Some(def) = written_of(alloc, piece)? else {
        return Ok(None);
    };
    match check_write(alloc, catalog, &def) {
        Ok(write) => if_uncounted(alloc, catalog, write),
        Err(Stopped::NoMem) => Err(NoMem),
        Err(Stopped::Refused(_)) => Ok(None),
    }
}

/// Whether a piece spells an INSERT, UPDATE or DELETE.
fn spells_write(alloc: Global, piece: &Piece) -> Result<bool, NoMem>
    ensures { IfOk result (λ spells. spells ≡ is_some (written_of piece.now)) }
{
    let found = written_of(alloc, piece)?;
    Ok(found.is_some())
}

/// How many pieces stand before the first write.
pub fn front_count(alloc: Global, pieces: &[Piece]) -> Result<usize, NoMem>
    ensures count { IfOk result (λ count. count ≡ front_count pieces.now) }
    ensures few { IfOk result (λ count. count ≤ length pieces.now) }
{
    let mut count = 0;
    for piece in pieces {
        let spells = spells_write(alloc, piece)?;
        if spells {
            return Ok(count);
        }
        count += 1;
    }
    Ok(count)
}
