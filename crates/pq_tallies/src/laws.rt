//! What the definitions promise by themselves: each law is the contract of a call that does nothing.
ghost use Rattle.std.specs.Prelude.{◌≡◌, ℕ, ◌+◌, ◌++◌, ◌∷◌, ◌==◌, ◌&&◌, ◌≤◌, [], false, not, cond, filter, length, map, List, Option, Some, Ok};
ghost use Rattle.std.specs.FinMap.{get};
ghost use Rattle.pq_base.specs.Members.{In};
ghost use Rattle.pq_base.specs.Values.{has_null};
ghost use Rattle.pq_base.specs.declared.value.Value.{Value};
ghost use Rattle.pq_schema.specs.declared.counter.Counter.{Counter};
ghost use Rattle.pq_schema.specs.declared.query.Query.{Query};
ghost use Rattle.pq_schema.specs.declared.table.Column.{Column};
ghost use Rattle.pq_schema.specs.declared.table.NewIndex.{NewIndex};
ghost use Rattle.pq_schema.specs.declared.table.Table.{Table};
ghost use Rattle.pq_schema.specs.Counters.{IsCounterNumber};
ghost use Rattle.pq_schema.specs.Schema.{Schema, counters_of, with_table, with_query, with_column, with_counter};
ghost use Rattle.pq_schema.specs.Tables.{table_at};
ghost use Rattle.pq_schema.specs.Valid.{IsValid};
ghost use Rattle.pq_content.specs.Pairs.{Pair, AreOfCounters, changed_content};
ghost use Rattle.pq_content.specs.Standing.{AreIntended};
ghost use Rattle.pq_content.specs.Tables.{Rows, AllOfKinds, IsTableNumber, agrees, cells, rows_of, row_at, rows_without, Keeps};
ghost use Rattle.pq_added.specs.Added.{grown_rows};
ghost use Rattle.pq_index_keep.specs.Effects.{effect, changes_of};
ghost use Rattle.pq_index_keep.specs.Sound.{AreWritable, IsWrite};
ghost use Rattle.pq_index_keep.specs.declared.write.Write.{Write};
ghost use Rattle.pq_tallies.specs.Counters.{tally, counter_key, stored_count, counter_pairs, all_pairs, AreFewRows, AreBesideCounters};
ghost use Rattle.pq_tallies.specs.Defined.{NumberedCounter, AreCounters, counters_in, counter_numbered, group_types, with_number};
ghost use Rattle.pq_tallies.specs.Writes.{counter_changes, full_refusal};

/// What one row more, one less, or one in the place of another makes of the tallies.
pub fn tally_laws()
    // A row that comes raises the tally of its own group by one, and no other. With NULL in the columns it is in none.
    ensures comes { (rows : Rows) (counter : NumberedCounter) (t : ℕ) (row values : List Value)
        → tally ((t, row) ∷ rows) counter values
        ≡ tally rows counter values
        + cond ((t == counter.table) && (not (has_null (cells counter.cols row)) && agrees counter.cols values row))
        1 0 }

    // A row that goes lowers the tally of its own group by one, and no other.
    ensures goes { (tables : List Table) (rows : Rows) (counter : NumberedCounter) (t : ℕ)
        (key old values : List Value) → Keeps tables rows → row_at tables rows t key ≡ Some old
        → tally (rows_without tables t key rows) counter values
        + cond ((t == counter.table) && (not (has_null (cells counter.cols old)) && agrees counter.cols values old))
        1 0 ≡ tally rows counter values }

    // A row that takes the place of another of its own group changes no tally.
    ensures stays { (tables : List Table) (rows : Rows) (counter : NumberedCounter) (t : ℕ)
        (key old new values : List Value) → Keeps tables rows → row_at tables rows t key ≡ Some old
        → cells counter.cols old ≡ cells counter.cols new
        → tally ((t, new) ∷ rows_without tables t key rows) counter values ≡ tally rows counter values }
{}

/// What the content with the counters' pairs is, and what writes make of it.
pub fn counter_laws()
    // All of them are of the counters' space.
    ensures space { (counters : List NumberedCounter) (rows : Rows) → AreOfCounters (counter_pairs counters rows) }

    // A get of a group's key answers the code of its number of rows, and nothing for a group of none.
    ensures get { (tables : List Table) (counters : List NumberedCounter) (rows : Rows) (others : List Pair)
        (counter : NumberedCounter) (values : List Value) → Keeps tables rows → AreCounters tables counters
        → AreBesideCounters others → In counter counters → AllOfKinds (group_types tables counter) values
        → get (all_pairs tables counters rows others) (counter_key counter.number values)
        ≡ stored_count (tally rows counter values) }

    // The changes of the rows' pairs and then those of the counters' make the content of the write's rows.
    ensures write { (schema : Schema) (rows made : Rows) (others : List Pair) (write : Write) → IsValid schema
        → Keeps schema.tables rows → AreBesideCounters others → AreWritable schema.tables
        → IsWrite schema.tables write → effect schema.tables rows write ≡ Ok made
        → changed_content (changes_of schema.tables rows write ++ counter_changes schema rows write)
        (all_pairs schema.tables (counters_in schema) rows others)
        ≡ all_pairs schema.tables (counters_in schema) made others }

    // They are changes that an intent may hold.
    ensures intended { (schema : Schema) (rows : Rows) (write : Write)
        → AreIntended (counter_changes schema rows write) }

    // Where no counter is full, no group of the write's rows has too many.
    ensures few { (schema : Schema) (rows made : Rows) (write : Write) → IsValid schema → Keeps schema.tables rows
        → AreFewRows (counters_in schema) rows → effect schema.tables rows write ≡ Ok made
        → full_refusal schema rows write ≡ None → AreFewRows (counters_in schema) made }

    // A new counter of a table without rows adds no pair, and its groups are few.
    ensures fresh { (counters : List NumberedCounter) (counter : NumberedCounter) (rows : Rows)
        → rows_of counter.table rows ≡ []
        → counter_pairs (counters ++ counter ∷ []) rows ≡ counter_pairs counters rows }
    ensures fresh_few { (counters : List NumberedCounter) (counter : NumberedCounter) (rows : Rows)
        → rows_of counter.table rows ≡ [] → AreFewRows counters rows → AreFewRows (counters ++ counter ∷ []) rows }

    // A column more behind the others changes no tally, and so no pair.
    ensures grown { (tables : List Table) (counters : List NumberedCounter) (t : ℕ) (filler : Value) (rows : Rows)
        → Keeps tables rows → AreCounters tables counters
        → counter_pairs counters (grown_rows t filler rows) ≡ counter_pairs counters rows }
    ensures grown_few { (tables : List Table) (counters : List NumberedCounter) (t : ℕ) (filler : Value) (rows : Rows)
        → Keeps tables rows → AreCounters tables counters → AreFewRows counters rows
        → AreFewRows counters (grown_rows t filler rows) }

    // Without rows there is none, and no group has too many.
    ensures none { (counters : List NumberedCounter) → counter_pairs counters [] ≡ [] }
    ensures none_few { (counters : List NumberedCounter) → AreFewRows counters [] }
{}

/// Which counters a schema has.
pub fn schema_laws()
    ensures counters { (schema : Schema) → IsValid schema → AreCounters schema.tables (counters_in schema) }

    // A number of a counter's definition is that of one of them.
    ensures numbered { (schema : Schema) (number : ℕ) → IsCounterNumber schema number
        → In (counter_numbered schema number) (counters_in schema) }

    // Those of a table, in order.
    ensures of_table { (schema : Schema) (table : ℕ)
        → map (counter_numbered schema) (counters_of schema table)
        ≡ filter (λ counter. counter.table == table) (counters_in schema) }

    // A counter's definition adds it behind the others, and no other definition adds one.
    ensures with_table { (schema : Schema) (table : Table) → counters_in (with_table schema table) ≡ counters_in schema }
    ensures with_query { (schema : Schema) (query : Query) (wanted : Option NewIndex)
        → counters_in (with_query schema query wanted) ≡ counters_in schema }
    ensures with_column { (schema : Schema) (table : ℕ) (column : Column) (filler : Value)
        → counters_in (with_column schema table column filler) ≡ counters_in schema }
    ensures with_counter { (schema : Schema) (counter : Counter)
        → counters_in (with_counter schema counter)
        ≡ counters_in schema ++ with_number (length schema.definitions + 1) counter ∷ [] }
{}
