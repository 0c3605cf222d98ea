//! What the definitions promise by themselves: each law is the contract of a call that does nothing.
ghost use Rattle.std.specs.Prelude.{◌≡◌, ℕ, true, false, List, [], ◌∷◌, ◌++◌, Option, Some, None, All, IsPermutation};
ghost use Rattle.std.specs.FinMap.{get, insert, find, is_sorted};
ghost use Rattle.pq_base.specs.declared.number.Bound.{Bound};
ghost use Rattle.pq_base.specs.Values.{IsType};
ghost use Rattle.pq_key_code.specs.KeyCode.{intent_key};
ghost use Rattle.pq_schema.specs.declared.made.Made.{Made};
ghost use Rattle.pq_schema.specs.declared.table.NewIndex.{NewIndex};
ghost use Rattle.pq_schema.specs.declared.table.Table.{Table};
ghost use Rattle.pq_schema.specs.Tables.{table_at};
ghost use Rattle.pq_store.specs.Content.{key_cmp, Content, pairs_within};
ghost use Rattle.pq_store.specs.Counts.{Counts};
ghost use Rattle.pq_content.specs.Pairs.{Pair, AreBeside, AreCatalog, AreOfCounters, is_in_space, is_of_rows, content_pairs, HoldsRows};
ghost use Rattle.pq_content.specs.Tables.{Rows, Keeps, rows_of, types_of};
ghost use Rattle.pq_builds.specs.declared.build.Built.{Built};
ghost use Rattle.pq_builds.specs.declared.target.NewQuery.{NewQuery};
ghost use Rattle.pq_builds.specs.declared.target.Target.{Target};
ghost use Rattle.pq_builds.specs.Bounds.{fixed_bound, prepare_bound, build_bound};
ghost use Rattle.pq_builds.specs.Filling.{row_pairs_in};
ghost use Rattle.pq_builds.specs.Stages.{building_value, Takes, TakesBuild};
ghost use Rattle.pq_builds.specs.Standing.{defined_content, IsFilling, Origin, IsTarget, IsNewIn, Makes, rows_in, tables_with, whole_content};

/// What is told by a content in which an index is being filled.
pub fn filling_law()
    // The catalog has the other definitions' pairs, and the definition with its mark as the last one.
    ensures catalog { (tables : List Table) (rows : Rows) (beside catalog : List Pair) (made : Made)
        (query : NewQuery) (content : Content) → AreOfCounters beside → AreCatalog catalog
        → is_in_space 1 query.key ≡ true
        → is_sorted key_cmp (catalog ++ (query.key, building_value query) ∷ []) ≡ true
        → IsFilling tables rows (beside ++ catalog) made query content
        → pairs_within content (1 ∷ []) (2 ∷ []) ≡ catalog ++ (query.key, building_value query) ∷ [] }

    // The rows' pairs of each table are those of the rows alone.
    ensures rows { (tables : List Table) (rows : Rows) (others : List Pair) (made : Made) (query : NewQuery)
        (content : Content) (t : ℕ)
        → Keeps tables rows → AreBeside others → is_of_rows query.key ≡ false
        → IsFilling tables rows others made query content
        → row_pairs_in t content ≡ row_pairs_in t (content_pairs tables rows []) }

    // No intent is there.
    ensures no_intent { (tables : List Table) (rows : Rows) (beside catalog : List Pair) (made : Made)
        (query : NewQuery) (content : Content) → AreOfCounters beside → AreCatalog catalog
        → is_in_space 1 query.key ≡ true → IsFilling tables rows (beside ++ catalog) made query content
        → get content intent_key ≡ None }

    // Of which rows a table's pairs are: of one set alone.
    ensures once { (tables : List Table) (rows more : Rows) (t : ℕ)
        → All IsType (types_of (table_at tables t)) → Keeps tables rows → Keeps tables more
        → row_pairs_in t (content_pairs tables rows []) ≡ row_pairs_in t (content_pairs tables more [])
        → IsPermutation (rows_of t rows) (rows_of t more) }
{}

/// What a whole build leaves: rows that keep the tables with the index, and the definition behind the other pairs. The
/// definition's mark is no part of anything else.
pub fn built_law()
    ensures holds { (origin : Origin) (target : Target) (query : NewQuery) (value : List ℕ) (now : Option Content)
        → IsNewIn origin query → IsTarget origin target → now ≡ Some (whole_content origin target query value)
        → HoldsRows now (tables_with origin target) origin.rows (origin.others ++ (query.key, value) ∷ []) }

    ensures marks { (tables : List Table) (rows : Rows) (others : List Pair) (query : NewQuery) (old new : List ℕ)
        → is_of_rows query.key ≡ false → find key_cmp query.key others ≡ None
        → insert (defined_content tables rows others query old) query.key new
        ≡ defined_content tables rows others query new }
{}

/// The bound of a PREPARE depends on rows for a build alone, and a build uses just its bound.
pub fn bound_law()
    ensures fixed { (wanted : Option NewIndex) (most : Bound) (rows : Rows)
        → fixed_bound wanted ≡ Some most → prepare_bound wanted rows ≡ most }

    ensures used { (origin : Origin) (target : Target) (query : NewQuery) (built : Built) (now : Option Content)
        (before after : Counts)
        → Makes origin target query built now → TakesBuild built before after
        → Takes (build_bound (rows_in origin target)).ops (build_bound (rows_in origin target)).entries before after }
{}
