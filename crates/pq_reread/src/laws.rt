//! What the definitions promise by themselves: each law is the contract of a call that does nothing.
ghost use Rattle.std.specs.Prelude.{◌≡◌, ◌<◌, ◌≤◌, ◌∷◌, ◌++◌, ◌+◌, ◌-◌, ℕ, List, [], All, Ok, Err, length, true};
ghost use Rattle.std.specs.Str.{is_utf8};
ghost use Rattle.pq_schema.specs.declared.counter.Counter.{Counter};
ghost use Rattle.pq_schema.specs.declared.definition.AlterDef.{AlterDef};
ghost use Rattle.pq_schema.specs.declared.definition.CounterDef.{CounterDef};
ghost use Rattle.pq_schema.specs.declared.definition.TableDef.{TableDef};
ghost use Rattle.pq_schema.specs.declared.query.Query.{Query};
ghost use Rattle.pq_schema.specs.declared.table.Table.{Table};
ghost use Rattle.pq_schema.specs.Definitions.{altered_table, counter_of_def, new_table};
ghost use Rattle.pq_schema.specs.Names.{IsName, IsTableDef, IsAlterDef, IsCounterDef};
ghost use Rattle.pq_schema.specs.Schema.{Schema};
ghost use Rattle.pq_schema.specs.Tables.{table_at};
ghost use Rattle.pq_schema.specs.Valid.{IsValid, IsAddition, IsCounted};
ghost use Rattle.pq_grammar.specs.Language.{IsFaultPlace};
ghost use Rattle.pq_text.specs.Tokens.{text_limit, tokens_of};
ghost use Rattle.pq_text.specs.declared.token.Token.{Token};
ghost use Rattle.pq_shape.specs.Shapes.{shapes_of};
ghost use Rattle.pq_def_read.specs.Reading.{statement_of};
ghost use Rattle.pq_def_read.specs.declared.statement.Statement.TheVariants.{Create, Prepare, Alter};
ghost use Rattle.pq_def_read.specs.declared.statement.Statement.TheVariants as statement;
ghost use Rattle.pq_print.specs.Canonical.{table_text, query_text, added_text, counter_text, definition_text};
ghost use Rattle.pq_reread.specs.Orderly.{AreOrderly};
ghost use Rattle.pq_reread.specs.Printed.{Piece, ArePieces, joins_none, printed_pieces, shapes_printed};
ghost use Rattle.pq_reread.specs.ReadBack.{IsNamedQuery, IsReadBack, IsReadBackLater, IsReadBackDefined, IsReadLater, IsAddedText, IsAddedLater, IsCounterText, IsCounterLater};
ghost use Rattle.pq_reread.specs.Said.{Says, SaysAdded, SaysCounter};
ghost use Rattle.pq_reread.specs.WholeStatements.{WholeStatement, SpellsWhole, whole_of};

/// Names in a statement are words in small letters, of at most 32 bytes, and no keywords.
pub fn names_law()
    // In the definition of a table that a text spells, and its kinds are kinds.
    ensures tables { (text : List ℕ) (def : TableDef) → statement_of text (tokens_of text) ≡ Ok (Create def)
        → IsTableDef def }

    // In that of an added column.
    ensures columns { (text : List ℕ) (def : AlterDef) → statement_of text (tokens_of text) ≡ Ok (Alter def)
        → IsAlterDef def }

    // In that of a counter.
    ensures counters { (text : List ℕ) (def : CounterDef)
        → statement_of text (tokens_of text) ≡ Ok (statement.Counter def) → IsCounterDef def }

    // In the head of a query.
    ensures queries { (text name : List ℕ) (from : ℕ)
        → statement_of text (tokens_of text) ≡ Ok (Prepare name from) → IsName name }
{}

/// Reading a statement, and the query of a PREPARE, an EXPLAIN or a SELECT, is reading the whole statement.
pub fn whole_statements_law()
    // What is read is what the tokens spell.
    ensures found { (text : List ℕ) (tokens : List Token) (whole : WholeStatement)
        → whole_of (shapes_of text tokens) ≡ Ok whole → SpellsWhole whole (shapes_of text tokens) }

    // What the tokens spell is read.
    ensures only { (text : List ℕ) (tokens : List Token) (whole : WholeStatement)
        → SpellsWhole whole (shapes_of text tokens) → whole_of (shapes_of text tokens) ≡ Ok whole }

    // Where they spell no statement, reading stops at the first token such that no whole statement
    // begins with the tokens up to and with it.
    ensures place { (text : List ℕ) (tokens : List Token) (left : ℕ)
        → whole_of (shapes_of text tokens) ≡ Err left
        → (left ≤ length (shapes_of text tokens))
        × IsFaultPlace SpellsWhole (shapes_of text tokens) (length (shapes_of text tokens) - left) }
{}

/// Words, numbers, texts, marks and spaces that were printed one behind the other are cut into just these.
pub fn printed_law()
    ensures { (pieces : List Piece) → ArePieces joins_none pieces
        → shapes_of (printed_pieces pieces) (tokens_of (printed_pieces pieces)) ≡ shapes_printed pieces }
{}

/// The canonical text of a table is read as the definition that says the same.
pub fn tables_law()
    // Whatever table says it.
    ensures said { (tables : List Table) (def : TableDef) (table : Table) → IsTableDef def
        → Says tables def table → statement_of (table_text tables table) (tokens_of (table_text tables table))
        ≡ Ok (Create def) }

    // The table that the definition makes does.
    ensures made { (schema : Schema) (def : TableDef) (table : Table)
        → All (λ (other : Table). 0 < length other.key) schema.tables → new_table schema def ≡ Ok table
        → Says (schema.tables ++ table ∷ []) def table }

    // So a table that was defined is read back over the tables before it.
    ensures again { (schema : Schema) (def : TableDef) (table : Table)
        → All (λ (other : Table). 0 < length other.key) schema.tables → IsTableDef def
        → new_table schema def ≡ Ok table
        → statement_of (table_text (schema.tables ++ table ∷ []) table)
        (tokens_of (table_text (schema.tables ++ table ∷ []) table)) ≡ Ok (Create def) }

    // Also as it is printed over later tables, with more tables, columns and indexes: so each definition of a table,
    // whenever it is shown.
    ensures later { (schema : Schema) (def : TableDef) (table : Table)
        → All (λ (other : Table). 0 < length other.key) schema.tables → IsTableDef def
        → new_table schema def ≡ Ok table → IsReadLater (schema.tables ++ table ∷ []) def table }
{}

/// The canonical text of an added column is UTF-8 and short enough to be cut, and it is read as the definition that
/// says the same.
pub fn columns_law()
    // Whatever table has such a column.
    ensures said { (def : AlterDef) (table : Table) (col : ℕ) → IsAlterDef def → SaysAdded def table col
        → IsAddedText def (added_text table col) }

    // The column that the definition adds does.
    ensures made { (schema : Schema) (def : AlterDef) (next : Schema) → IsValid schema → IsAddition schema def next
        → SaysAdded def (table_at next.tables (altered_table schema def))
        (length (table_at schema.tables (altered_table schema def)).columns) }

    // So each column that was added is read back as its definition.
    ensures defined { (schema : Schema) (def : AlterDef) (next : Schema) → IsValid schema → IsAddition schema def next
        → IsAddedText def (definition_text next (length schema.definitions + 1)) }

    // Also as it is printed of a later table, with more columns and indexes.
    ensures later { (schema : Schema) (def : AlterDef) (next : Schema) → IsValid schema → IsAddition schema def next
        → IsAddedLater def (table_at next.tables (altered_table schema def))
        (length (table_at schema.tables (altered_table schema def)).columns) }
{}

/// The canonical text of a counter is UTF-8 and short enough to be cut, and it is read as the definition that says the
/// same.
pub fn counters_law()
    // Whatever counter says it.
    ensures said { (tables : List Table) (def : CounterDef) (counter : Counter) → IsCounterDef def
        → SaysCounter tables def counter → IsCounterText def (counter_text tables counter) }

    // The counter that the definition makes does.
    ensures made { (schema : Schema) (def : CounterDef) (next : Schema) → IsValid schema → IsCounted schema def next
        → SaysCounter next.tables def (counter_of_def schema def) }

    // So each counter that was defined is read back as its definition.
    ensures defined { (schema : Schema) (def : CounterDef) (next : Schema) → IsValid schema
        → IsCounted schema def next → IsCounterText def (definition_text next (length schema.definitions + 1)) }

    // Also as it is printed over later tables, with more tables, columns and indexes.
    ensures later { (schema : Schema) (def : CounterDef) (next : Schema) → IsValid schema
        → IsCounted schema def next → IsCounterLater schema.tables def (counter_of_def schema def) }
{}

/// The canonical text of every query over a valid schema is read back: it is UTF-8 and short enough to be cut, its head
/// is that of a PREPARE under the query's name, and the rest stands for the query.
pub fn queries_law()
    // Over orderly tables, as those of a valid schema are.
    ensures resolved { (schema : Schema) (query : Query) → IsNamedQuery schema query
        → IsReadBack schema query (query_text schema.tables query) }

    // Also as it is printed over later tables, with more tables, columns and indexes.
    ensures later { (schema : Schema) (query : Query) → IsNamedQuery schema query → IsReadBackLater schema query }

    // So each query that was defined is read back over the schema before it, with the index that it made or without.
    ensures defined { (schema : Schema) (query : Query) → IsValid schema → IsReadBackDefined schema query }
{}

/// The canonical text of a table that was defined over orderly tables is UTF-8, and short enough to be cut into
/// tokens.
pub fn texts_law()
    ensures { (schema : Schema) (def : TableDef) (table : Table) → AreOrderly schema.tables → IsTableDef def
        → new_table schema def ≡ Ok table → (is_utf8 (table_text (schema.tables ++ table ∷ []) table) ≡ true)
        × (length (table_text (schema.tables ++ table ∷ []) table) ≤ text_limit) }
{}

/// Tables that are defined one after the other are orderly: their names are names and lead back to them.
pub fn orderly_law()
    ensures none { AreOrderly [] }
    ensures one_more { (schema : Schema) (def : TableDef) (table : Table) → AreOrderly schema.tables
        → IsTableDef def → new_table schema def ≡ Ok table → AreOrderly (schema.tables ++ table ∷ []) }

    // So are the tables of a valid schema.
    ensures valid { (schema : Schema) → IsValid schema → AreOrderly schema.tables }
{}
