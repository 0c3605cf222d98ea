//! What the definitions promise by themselves: the law is the contract of a call that does nothing.
ghost use Rattle.std.specs.Prelude.{◌≡◌, ℕ, ◌≤◌, List, length, option_map};
ghost use Rattle.pq_base.specs.declared.value.Value.{Value};
ghost use Rattle.pq_base.specs.Values.{FitsType};
ghost use Rattle.pq_schema.specs.declared.table.Column.{Column};
ghost use Rattle.pq_schema.specs.declared.table.Table.{Table};
ghost use Rattle.pq_schema.specs.Schema.{with_added};
ghost use Rattle.pq_schema.specs.Sound.{AreMade};
ghost use Rattle.pq_schema.specs.Tables.{table_at};
ghost use Rattle.pq_content.specs.Pairs.{Pair, row_pairs, content_pairs};
ghost use Rattle.pq_content.specs.Tables.{Rows, IsTableNumber, Keeps, row_at};
ghost use Rattle.pq_added.specs.Added.{grown_row, grown_rows};

/// What one more column changes: each row of its table has the default behind its values, and
/// nothing else.
pub fn column_laws()
    ensures found { (tables : List Table) (t : ℕ) (column : Column) (filler : Value) (rows : Rows)
        → AreMade tables → IsTableNumber tables t → Keeps tables rows → (u : ℕ) (key : List Value)
        → row_at (with_added tables t column filler) (grown_rows t filler rows) u key
        ≡ option_map (grown_row t filler u) (row_at tables rows u key) }

    ensures row_pairs { (tables : List Table) (t : ℕ) (column : Column) (filler : Value) (rows : Rows)
        → AreMade tables → IsTableNumber tables t → length (table_at tables t).columns ≤ 31 → Keeps tables rows
        → row_pairs (with_added tables t column filler) (grown_rows t filler rows) ≡ row_pairs tables rows }

    // So the store stays as it is.
    ensures pairs { (tables : List Table) (t : ℕ) (column : Column) (filler : Value) (rows : Rows)
        (others : List Pair) → AreMade tables → IsTableNumber tables t
        → length (table_at tables t).columns ≤ 31 → Keeps tables rows
        → content_pairs (with_added tables t column filler) (grown_rows t filler rows) others
        ≡ content_pairs tables rows others }

    ensures keeps { (tables : List Table) (t : ℕ) (column : Column) (filler : Value) (rows : Rows)
        → AreMade tables → IsTableNumber tables t → length (table_at tables t).columns ≤ 31 → Keeps tables rows
        → FitsType column.ty filler → Keeps (with_added tables t column filler) (grown_rows t filler rows) }
{}
