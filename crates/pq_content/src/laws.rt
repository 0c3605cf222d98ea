//! What the definitions promise by themselves: each law is the contract of a call that does nothing.
ghost use Rattle.std.specs.Prelude.{◌≡◌, ℕ, ◌+◌, ◌≤◌, ◌++◌, ◌∷◌, [], true, Bool, List, Some, None, option_map, length, map, take, slice_get, Contains, IsPermutation, All, false};
ghost use Rattle.std.specs.List.{AllByRecursion};
ghost use Rattle.std.specs.Option.{option_to_list};
ghost use Rattle.std.specs.FinMap.{get, insert, remove, empty, find, is_sorted, entries};
ghost use Rattle.pq_base.specs.Columns.{set_of};
ghost use Rattle.pq_base.specs.declared.value.Value.{Value};
ghost use Rattle.pq_base.specs.Order.{position_cmp};
ghost use Rattle.pq_base.specs.Values.{IsType, AllFit};
ghost use Rattle.pq_key_code.specs.KeyCode.{past_code, row_key, entry_key, intent_key};
ghost use Rattle.pq_row_code.specs.declared.changes.Change.{Change as Coded};
ghost use Rattle.pq_row_code.specs.Changes.{changes_code, AreChanges};
ghost use Rattle.pq_schema.specs.declared.table.Index.{Index};
ghost use Rattle.pq_schema.specs.declared.table.KeyPart.{KeyPart};
ghost use Rattle.pq_schema.specs.declared.table.Table.{Table};
ghost use Rattle.pq_schema.specs.Sequences.{columns_of, primary_sequence, index_sequence, begins_with};
ghost use Rattle.pq_schema.specs.Tables.{table_at};
ghost use Rattle.pq_content.specs.Pairs.{Pair, Change, AreCatalog, AreOfCounters, row_pair, entry_pair, pairs_of_row, row_pairs, changed_content, puts, removals, update_changes, content_pairs, is_of_rows, AreBeside, pairs_of_rows, pairs_beside};
ghost use Rattle.pq_store.specs.Content.{key_cmp, Content, pairs_within};
ghost use Rattle.pq_base.specs.Sorting.{sort_by};
ghost use Rattle.pq_content.specs.Standing.{change_of, AreOfRows, SettlesTo, IsIntent, IsFilledPartOf, is_entry_of, AreIntended};
ghost use Rattle.pq_content.specs.Tables.{Rows, AllOfKinds, rows_of, types_of, types_at, key_types, key_of, values_of, dirs_of, row_at, rows_without, group_of, first_columns, IsTableNumber, HasRoom, HasParent, MayChangeRow, MayRefer, IsUnreferenced, IsFound, Keeps, stored_code};
ghost use Rattle.pq_schema.specs.Schema.{with_wanted};
ghost use Rattle.pq_schema.specs.declared.table.NewIndex.{NewIndex};

/// How a row is found.
pub fn read_laws()
    // A get of a row's key answers the code of the row with this key, also for texts that are
    // longer than the key's.
    ensures get { (tables : List Table) (rows : Rows) (others : List Pair) (t : ℕ) (key : List Value)
        → Keeps tables rows → AllOfKinds (key_types (table_at tables t)) key → AreBeside others
        → get (content_pairs tables rows others) (row_key t key)
        ≡ option_map (stored_code (table_at tables t)) (row_at tables rows t key) }

    // A row that is found is there, fits and has the key.
    ensures found { (tables : List Table) (rows : Rows) (t : ℕ) (key row : List Value) → Keeps tables rows
        → row_at tables rows t key ≡ Some row → IsFound tables rows t key row }

    // No other row has its key.
    ensures only { (tables : List Table) (rows : Rows) (t : ℕ) (key : List Value) → Keeps tables rows
        → group_of t (table_at tables t).key key rows ≡ option_to_list (row_at tables rows t key) }
{}

/// What an insert makes.
pub fn insert_laws()
    // A row's pair and its entries, written one after the other, add the row.
    ensures changes { (tables : List Table) (rows : Rows) (others : List Pair) (t : ℕ) (row : List Value)
        → changed_content (puts (pairs_of_row t (table_at tables t) row)) (content_pairs tables rows others)
        ≡ content_pairs tables ((t, row) ∷ rows) others }

    // A table with no indexes takes one write.
    ensures one_write { (tables : List Table) (rows : Rows) (others : List Pair) (t : ℕ) (row : List Value)
        → (table_at tables t).indexes ≡ []
        → insert (content_pairs tables rows others) (row_key t (key_of (table_at tables t) row))
        (stored_code (table_at tables t) row) ≡ content_pairs tables ((t, row) ∷ rows) others }

    // A row that fits, is short, has a new key, has room in its groups and has its parents keeps
    // the definitions.
    ensures keeps { (tables : List Table) (rows : Rows) (t : ℕ) (row : List Value) → Keeps tables rows
        → IsTableNumber tables t → AllFit (types_of (table_at tables t)) row
        → length (stored_code (table_at tables t) row) ≤ 4096
        → row_at tables rows t (key_of (table_at tables t) row) ≡ None
        → AllByRecursion (HasRoom t rows row) (table_at tables t).limits
        → AllByRecursion (HasParent tables rows row) (table_at tables t).foreign
        → Keeps tables ((t, row) ∷ rows) }
{}

/// What a delete makes.
pub fn delete_laws()
    // The removals of a row's pair and its entries remove the row.
    ensures changes { (tables : List Table) (rows : Rows) (others : List Pair) (t : ℕ) (key row : List Value)
        → Keeps tables rows → AreBeside others → row_at tables rows t key ≡ Some row
        → changed_content (removals (pairs_of_row t (table_at tables t) row)) (content_pairs tables rows others)
        ≡ content_pairs tables (rows_without tables t key rows) others }

    // A row that no row names may go.
    ensures keeps { (tables : List Table) (rows : Rows) (t : ℕ) (key : List Value) → Keeps tables rows
        → IsUnreferenced tables rows t key → Keeps tables (rows_without tables t key rows) }
{}

/// What an update makes.
pub fn update_laws()
    // The new row's pair, and the old and the new entry where they differ, put the new row in the
    // place of the old one.
    ensures changes { (tables : List Table) (rows : Rows) (others : List Pair) (t : ℕ) (old new : List Value)
        → Keeps tables rows → AreBeside others
        → row_at tables rows t (key_of (table_at tables t) old) ≡ Some old
        → key_of (table_at tables t) old ≡ key_of (table_at tables t) new
        → changed_content (update_changes t (table_at tables t) old new) (content_pairs tables rows others)
        ≡ content_pairs tables ((t, new) ∷ rows_without tables t (key_of (table_at tables t) old) rows) others }

    // A new row that fits and is short, and whose changes have room and parents, keeps the
    // definitions.
    ensures keeps { (tables : List Table) (rows : Rows) (t : ℕ) (old new : List Value) → Keeps tables rows
        → row_at tables rows t (key_of (table_at tables t) old) ≡ Some old
        → key_of (table_at tables t) old ≡ key_of (table_at tables t) new
        → AllFit (types_of (table_at tables t)) new → length (stored_code (table_at tables t) new) ≤ 4096
        → AllByRecursion (MayChangeRow t rows old new) (table_at tables t).limits
        → AllByRecursion (MayRefer tables rows old new) (table_at tables t).foreign
        → Keeps tables ((t, new) ∷ rows_without tables t (key_of (table_at tables t) old) rows) }
{}

/// What ranges under first values answer.
pub fn range_laws()
    // Under first values of the key: the rows that have them, in the order of the key.
    ensures rows { (tables : List Table) (rows : Rows) (others : List Pair) → Keeps tables rows
        → AreBeside others → (t : ℕ) (prefix : List Value)
        → AllOfKinds (take (length prefix) (key_types (table_at tables t))) prefix
        → length prefix ≤ length (table_at tables t).key
        → pairs_within (content_pairs tables rows others) (row_key t prefix) (past_code (row_key t prefix))
        ≡ map (row_pair t (table_at tables t))
        (sort_by (position_cmp (dirs_of (primary_sequence (table_at tables t))))
        (values_of (primary_sequence (table_at tables t)))
        (group_of t (take (length prefix) (table_at tables t).key) prefix rows)) }

    ensures row_count { (tables : List Table) (rows : Rows) (others : List Pair) → Keeps tables rows
        → AreBeside others → (t : ℕ) (prefix : List Value)
        → AllOfKinds (take (length prefix) (key_types (table_at tables t))) prefix
        → length prefix ≤ length (table_at tables t).key
        → length (pairs_within (content_pairs tables rows others) (row_key t prefix)
        (past_code (row_key t prefix)))
        ≡ length (group_of t (take (length prefix) (table_at tables t).key) prefix rows) }

    // Under first values of an index: the entries of the rows that have them, in the index's order.
    ensures entries { (tables : List Table) (rows : Rows) (others : List Pair) → Keeps tables rows
        → AreBeside others → (t place : ℕ) (index : Index)
        → slice_get (table_at tables t).indexes place ≡ Some index → (prefix : List Value)
        → AllOfKinds (take (length prefix) (types_at (table_at tables t).columns
        (columns_of (index_sequence (table_at tables t) index)))) prefix
        → length prefix ≤ length (index_sequence (table_at tables t) index)
        → pairs_within (content_pairs tables rows others)
        (entry_key t (1 + place) (dirs_of (index_sequence (table_at tables t) index)) prefix)
        (past_code (entry_key t (1 + place) (dirs_of (index_sequence (table_at tables t) index)) prefix))
        ≡ map (entry_pair t (1 + place) (index_sequence (table_at tables t) index))
        (sort_by (position_cmp (dirs_of (index_sequence (table_at tables t) index)))
        (values_of (index_sequence (table_at tables t) index))
        (group_of t (take (length prefix) (columns_of (index_sequence (table_at tables t) index))) prefix
        rows)) }

    ensures entry_count { (tables : List Table) (rows : Rows) (others : List Pair) → Keeps tables rows
        → AreBeside others → (t place : ℕ) (index : Index)
        → slice_get (table_at tables t).indexes place ≡ Some index → (prefix : List Value)
        → AllOfKinds (take (length prefix) (types_at (table_at tables t).columns
        (columns_of (index_sequence (table_at tables t) index)))) prefix
        → length prefix ≤ length (index_sequence (table_at tables t) index)
        → length (pairs_within (content_pairs tables rows others)
        (entry_key t (1 + place) (dirs_of (index_sequence (table_at tables t) index)) prefix)
        (past_code (entry_key t (1 + place) (dirs_of (index_sequence (table_at tables t) index)) prefix)))
        ≡ length (group_of t (take (length prefix) (columns_of (index_sequence (table_at tables t) index)))
        prefix rows) }

    // The rows with these values at the first columns of a sequence that begins with a set of
    // columns are those with these values at the set's columns, in whatever order they are named.
    ensures groups { (sequence : List KeyPart) (cols : List ℕ) (assign : ℕ → Value) (t : ℕ) (rows : Rows)
        → begins_with sequence (set_of cols) ≡ true
        → group_of t (take (length (map assign (first_columns sequence cols))) (columns_of sequence))
        (map assign (first_columns sequence cols)) rows ≡ group_of t cols (map assign cols) rows }
{}

/// What one more table changes: nothing of the rows.
pub fn table_laws()
    ensures found { (tables : List Table) (table : Table) (rows : Rows) (t : ℕ) (key : List Value)
        → IsTableNumber tables t → row_at (tables ++ table ∷ []) rows t key ≡ row_at tables rows t key }

    ensures pairs { (tables : List Table) (table : Table) (rows : Rows) → Keeps tables rows
        → row_pairs (tables ++ table ∷ []) rows ≡ row_pairs tables rows }

    ensures keeps { (tables : List Table) (table : Table) (rows : Rows) → Keeps tables rows
        → Keeps (tables ++ table ∷ []) rows }
{}

/// Which contents the other laws speak of: all that have just the pairs of the rows among those of
/// rows and entries, whatever stands beside them.
pub fn beside_laws()
    ensures alone { (tables : List Table) (rows : Rows) (others : List Pair) → AreBeside others
        → pairs_of_rows (content_pairs tables rows others) ≡ entries (content_pairs tables rows []) }

    ensures beside { (content : Content) → AreBeside (pairs_beside content) }

    ensures whatever { (tables : List Table) (rows : Rows) (content : Content)
        → pairs_of_rows content ≡ entries (content_pairs tables rows [])
        → content ≡ content_pairs tables rows (pairs_beside content) }
{}

/// What a content has beside the rows' pairs: those of the counters, and those of the catalog.
pub fn catalog_laws()
    // A key that is of neither rows nor entries is looked up among the other pairs.
    ensures get { (tables : List Table) (rows : Rows) (others : List Pair) (key : List ℕ)
        → is_of_rows key ≡ false → get (content_pairs tables rows others) key ≡ find key_cmp key others }

    // A new pair with such a key is put behind the others.
    ensures put { (tables : List Table) (rows : Rows) (others : List Pair) (key value : List ℕ)
        → is_of_rows key ≡ false → find key_cmp key others ≡ None
        → insert (content_pairs tables rows others) key value
        ≡ content_pairs tables rows (others ++ (key, value) ∷ []) }

    // No intent is there.
    ensures no_intent { (tables : List Table) (rows : Rows) (beside catalog : List Pair) → AreOfCounters beside
        → AreCatalog catalog → get (content_pairs tables rows (beside ++ catalog)) intent_key ≡ None }

    // The range of the catalog's space has just the catalog's pairs.
    ensures range { (tables : List Table) (rows : Rows) (beside catalog : List Pair) → AreOfCounters beside
        → AreCatalog catalog → is_sorted key_cmp catalog ≡ true
        → pairs_within (content_pairs tables rows (beside ++ catalog)) (1 ∷ []) (2 ∷ []) ≡ catalog }

    // With no rows and no catalog there is nothing.
    ensures nothing { content_pairs [] [] [] ≡ empty }
{}

/// What a content stands for: one catalog, and for each table one set of rows.
pub fn standing_laws()
    ensures catalog { (tables more : List Table) (rows others : Rows) (beside behind catalog after : List Pair)
        → AreOfCounters beside → AreOfCounters behind → AreCatalog catalog → AreCatalog after
        → is_sorted key_cmp catalog ≡ true → is_sorted key_cmp after ≡ true
        → content_pairs tables rows (beside ++ catalog) ≡ content_pairs more others (behind ++ after)
        → catalog ≡ after }

    ensures rows { (tables : List Table) (rows others : Rows) (beside after : List Pair) (t : ℕ)
        → All IsType (types_of (table_at tables t)) → Keeps tables rows → Keeps tables others → AreBeside beside
        → AreBeside after → content_pairs tables rows beside ≡ content_pairs tables others after
        → IsPermutation (rows_of t rows) (rows_of t others) }

    // Rows in another order make the same content.
    ensures order { (tables : List Table) (rows others : Rows) (catalog : List Pair) → Keeps tables rows
        → IsPermutation rows others → content_pairs tables rows catalog ≡ content_pairs tables others catalog }
{}

/// What a content settles to while changes are made under an intent.
pub fn intent_laws()
    // From the write of the intent on it settles to the changed content, however many of the
    // changes are made.
    ensures partway { (content : Content) (changes : List Coded) (made : ℕ) → get content intent_key ≡ None
        → AreChanges changes → AreIntended (map change_of changes)
        → SettlesTo (changed_content (take made (map change_of changes))
        (insert content intent_key (changes_code changes))) (changed_content (map change_of changes) content) }

    // Without the intent it is the changed content.
    ensures last { (content : Content) (changes : List Change) (code : List ℕ) → get content intent_key ≡ None
        → AreIntended changes → remove (changed_content changes (insert content intent_key code)) intent_key
        ≡ changed_content changes content }

    // A content in which an intent was left settles to the same while its changes are made again.
    ensures again { (content settled : Content) (code : List ℕ) (made : ℕ)
        (intent : IsIntent content settled code) → get content intent_key ≡ Some code
        → SettlesTo (changed_content (take made (map change_of intent.changes)) content) settled }

    // It settles to one content, and to itself where no intent is there.
    ensures once { (content settled other : Content) → SettlesTo content settled → SettlesTo content other
        → settled ≡ other }

    ensures itself { (content : Content) → get content intent_key ≡ None → SettlesTo content content }

    // What a write may change, an intent may hold.
    ensures rows { (changes : List Change) → AreOfRows changes → AreIntended changes }

    // The changes of an insert, a delete and an update are of rows and entries alone.
    ensures insert { (t : ℕ) (table : Table) (row : List Value) → AreOfRows (puts (pairs_of_row t table row)) }

    ensures delete { (t : ℕ) (table : Table) (row : List Value) → AreOfRows (removals (pairs_of_row t table row)) }

    ensures update { (t : ℕ) (table : Table) (old new : List Value) → AreOfRows (update_changes t table old new) }
{}

/// What a content is while one more index of a table is filled.
pub fn build_laws()
    // The same rows keep the tables.
    ensures keeps { (tables : List Table) (rows : Rows) (new : NewIndex) → IsTableNumber tables new.table
        → Keeps tables rows → Keeps (with_wanted tables (Some new)) rows }

    // Before the first entry all of them are missing.
    ensures none { (tables : List Table) (rows : Rows) (others : List Pair) (new : NewIndex)
        → IsTableNumber tables new.table → Keeps tables rows → AreBeside others
        → IsFilledPartOf (is_entry_of new.table (1 + length (table_at tables new.table).indexes))
        (content_pairs (with_wanted tables (Some new)) rows others) (content_pairs tables rows others) }

    // Each row has its entry in each index of its table.
    ensures entry { (tables : List Table) (rows : Rows) (others : List Pair) (t place : ℕ) (index : Index)
        (row : List Value) → Contains rows (t, row) → slice_get (table_at tables t).indexes place ≡ Some index
        → get (content_pairs tables rows others)
        (entry_pair t (1 + place) (index_sequence (table_at tables t) index) row).0 ≡ Some [] }

    // A pair of the whole is written, and what is there stays a part.
    ensures write { (may_miss : List ℕ → Bool) (whole part : Content) (key value : List ℕ)
        → get whole key ≡ Some value → IsFilledPartOf may_miss whole part
        → IsFilledPartOf may_miss whole (insert part key value) }

    // After the last entry nothing is missing.
    ensures all { (tables : List Table) (rows : Rows) (others : List Pair) (new : NewIndex) (content : Content)
        → IsTableNumber tables new.table → AreBeside others
        → IsFilledPartOf (is_entry_of new.table (1 + length (table_at tables new.table).indexes))
        (content_pairs (with_wanted tables (Some new)) rows others) content
        → ((row : List Value) → Contains rows (new.table, row)
        → get content (entry_pair new.table (1 + length (table_at tables new.table).indexes)
        (index_sequence (table_at tables new.table) new.index) row).0 ≡ Some [])
        → content ≡ content_pairs (with_wanted tables (Some new)) rows others }

    // A key that may not be missing is looked up in a part as in the whole.
    ensures get { (may_miss : List ℕ → Bool) (whole part : Content) (key : List ℕ)
        → IsFilledPartOf may_miss whole part → may_miss key ≡ false → get part key ≡ get whole key }
{}
