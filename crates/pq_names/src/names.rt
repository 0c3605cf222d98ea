//! Names in small letters, and whether the words of a definition are names and kinds.

ghost use Rattle.std.specs.Prelude.{◌≡◌, ◌↔◌, All, IsTrue};
ghost use Rattle.std.specs.List.{list_all};
ghost use Rattle.pq_schema.specs.Names.{is_small_letter, is_name_byte, is_word, is_keyword, is_name, IsName, IsKind, IsColumnDef, IsLimitDef, IsForeignDef, IsTableDef};

use pq_base::{PText, keyword_table};
use pq_schema::{ColumnDef, ForeignDef, LimitDef, TableDef};

/// The greatest number of bytes of a name.
pub const NAME_BYTES: usize = 32;

fn is_small_letter(b: u8) -> bool
    ensures { result ≡ is_small_letter b }
{
    b == b'_' || b.is_ascii_lowercase()
}

fn is_name_byte(b: u8) -> bool
    ensures { result ≡ is_name_byte b }
{
    is_small_letter(b) || b.is_ascii_digit()
}

fn are_name_bytes(bytes: &[u8]) -> bool
    ensures { result ≡ list_all is_name_byte bytes.now }
{
    bytes.iter().all(|b| is_name_byte(*b))
}

fn is_word(bytes: &[u8]) -> bool
    ensures { result ≡ is_word bytes.now }
{
    match bytes.split_first() {
        None => false,
        Some((first, rest)) => is_small_letter(*first) && are_name_bytes(rest),
    }
}

fn is_keyword(bytes: &[u8]) -> bool
    ensures { result ≡ is_keyword bytes.now }
{
    keyword_table().lookup(bytes).is_some()
}

/// Whether it is a name: small letters, digits and `_`, at most 32 bytes, no digit first, and no keyword.
#[tactic(auto, unfolding(pq_schema::specs::Names::is_name))]
pub fn is_name(name: &PText) -> bool
    ensures { result ≡ is_name name.now }
{
    let bytes = name.bytes();
    is_word(bytes) && bytes.len() <= NAME_BYTES && !is_keyword(bytes)
}

fn are_names(names: &[PText]) -> bool
    ensures { IsTrue result ↔ All IsName names.now }
{
    names.iter().all(|name| is_name(name))
}

fn has_kind(column: &ColumnDef) -> bool
    ensures { IsTrue result ↔ IsKind column.now.kind column.now.size }
{
    let kind = column.kind.bytes();
    if kind == b"TEXT".as_slice() {
        return true;
    }
    column.size == 0 && (kind == b"INT".as_slice() || kind == b"BOOL".as_slice())
}

fn is_spelt_column(column: &ColumnDef) -> bool
    ensures { IsTrue result ↔ IsColumnDef column.now }
{
    is_name(&column.name) && has_kind(column)
}

fn is_spelt_limit(limit: &LimitDef) -> bool
    ensures { IsTrue result ↔ IsLimitDef limit.now }
{
    are_names(limit.cols.items())
}

fn is_spelt_foreign(foreign: &ForeignDef) -> bool
    ensures { IsTrue result ↔ IsForeignDef foreign.now }
{
    is_name(&foreign.table) && are_names(foreign.cols.items())
}

fn columns_spelt(columns: &[ColumnDef]) -> bool
    ensures { IsTrue result ↔ All IsColumnDef columns.now }
{
    columns.iter().all(|column| is_spelt_column(column))
}

fn limits_spelt(limits: &[LimitDef]) -> bool
    ensures { IsTrue result ↔ All IsLimitDef limits.now }
{
    limits.iter().all(|limit| is_spelt_limit(limit))
}

fn foreign_spelt(foreign: &[ForeignDef]) -> bool
    ensures { IsTrue result ↔ All IsForeignDef foreign.now }
{
    foreign.iter().all(|item| is_spelt_foreign(item))
}

/// Whether a statement may spell the definition: its names are names, and its kinds are kinds.
pub fn is_spelt_table(table: &TableDef) -> bool
    ensures { IsTrue result ↔ IsTableDef table.now }
{
    is_name(&table.name)
        && columns_spelt(table.columns.items())
        && are_names(table.key.items())
        && limits_spelt(table.limits.items())
        && foreign_spelt(table.foreign.items())
}
