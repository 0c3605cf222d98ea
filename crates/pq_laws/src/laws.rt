//! What the definitions promise by themselves: each law is the contract of a call that does nothing.
ghost use Rattle.std.specs.Prelude.{◌≡◌, ◌+◌, ◌≤◌, ℕ, List, [], true, length, map, flat_map, Option, Some, None, Ok, Err, IsPermutation};
ghost use Rattle.std.specs.FinMap.{empty};
ghost use Rattle.pq_base.specs.declared.refusal.Refusal.TheVariants.{IndexWanted, NoBound, Params, Syntax};
ghost use Rattle.pq_base.specs.declared.value.Value.{Value};
ghost use Rattle.pq_schema.specs.declared.definition.AlterDef.{AlterDef};
ghost use Rattle.pq_schema.specs.declared.definition.CounterDef.{CounterDef};
ghost use Rattle.pq_schema.specs.declared.definition.TableDef.{TableDef};
ghost use Rattle.pq_schema.specs.declared.query.Query.{Query};
ghost use Rattle.pq_schema.specs.declared.table.NewIndex.{NewIndex};
ghost use Rattle.pq_schema.specs.declared.table.Table.{Table};
ghost use Rattle.pq_schema.specs.Definitions.{new_table};
ghost use Rattle.pq_schema.specs.Names.{IsTableDef};
ghost use Rattle.pq_schema.specs.Resolved.{IsResolved};
ghost use Rattle.pq_schema.specs.Rows.{Rows};
ghost use Rattle.pq_schema.specs.Tables.{table_at};
ghost use Rattle.pq_schema.specs.declared.query.Stop.TheVariants.{All};
ghost use Rattle.pq_schema.specs.Schema.{Schema, IsQueryDefinition, definition_at, empty_schema, find_query, query_at, with_table, with_query};
ghost use Rattle.pq_schema.specs.Valid.{IsValid, IsDefined, IsAddition, IsCounted};
ghost use Rattle.pq_schema.specs.Wanted.{no_bound};
ghost use Rattle.pq_stop_push.specs.Having.{has_candidate};
ghost use Rattle.pq_arrange.specs.Arrange.{arranged_query};
ghost use Rattle.pq_text.specs.Tokens.{tokens_of};
ghost use Rattle.pq_text.specs.declared.token.Token.{Token};
ghost use Rattle.pq_grammar.specs.Language.{IsFaultPlace};
ghost use Rattle.pq_shape.specs.Faults.{offset_at};
ghost use Rattle.pq_shape.specs.Shapes.{shapes_of};
ghost use Rattle.pq_reread.specs.WholeStatements.{WholeStatement, SpellsWhole};
ghost use Rattle.pq_print.specs.Canonical.{definition_text};
ghost use Rattle.pq_store.specs.Content.{Content};
ghost use Rattle.pq_content.specs.Tables.{IsTableNumber, rows_of};
ghost use Rattle.pq_running.specs.Running.{params_refusal};
ghost use Rattle.pq_plan.specs.Answer.{answer, selected_values, whole};
ghost use Rattle.pq_print.specs.declared.report.Report.{Report};
ghost use Rattle.pq_statement.specs.Actions.{asked_text};
ghost use Rattle.pq_catalog.specs.Model.{Model};
ghost use Rattle.pq_opening.specs.Opening.{IsQuiet, text_defines};
ghost use Rattle.pq_planning.specs.Planning.{HasNoCandidate, PlannedDefinition, arranged_from, arranged_plan, plan_from, plan_of, selected_plan};
ghost use Rattle.pq_laws.specs.Pages.{ArePages, AreRuns, IsPaged, line_of, question_of};
ghost use Rattle.pq_laws.specs.Spelling.{asked_whole, SpellsNone};
ghost use Rattle.pq_catalog.specs.Stands.{HoldsModel, Opens};

/// What a text asks for is decided by what its tokens spell: no rule of reading plays a part.
pub fn spelling_law()
    // Where they spell a whole statement, it is what this statement asks for.
    ensures spelled { (schema : Schema) (text : List ℕ) (whole : WholeStatement) → length text ≤ 65536
        → SpellsWhole whole (shapes_of text (tokens_of text)) → asked_text schema text ≡ asked_whole schema whole }

    // Where they spell none, it is refused with the offset of the first token such that no whole statement begins with
    // the tokens up to and with it, or the length of the text where there is no such token.
    ensures fault { (schema : Schema) (text : List ℕ) → length text ≤ 65536
        → SpellsNone (shapes_of text (tokens_of text))
        → (place : ℕ) × IsFaultPlace SpellsWhole (shapes_of text (tokens_of text)) place
        × (asked_text schema text ≡ Err (Syntax (offset_at text (tokens_of text) place))) }
{}

/// A PREPARE and an EXPLAIN take a query arranged, and an opening takes it as it stands.
pub fn arranging_law()
    // A query that has a candidate is planned as it is written, also where its bound is too large.
    ensures kept { (tables : List Table) (query : Query) → has_candidate tables query ≡ true
        → arranged_plan tables query ≡ plan_of tables query }

    // A query is refused for want of a bound exactly where none of the three has a candidate. The alias is that for
    // the query as it is written.
    ensures unbounded { (tables : List Table) (query : Query) → HasNoCandidate tables query
        → arranged_plan tables query ≡ Err (no_bound tables query) }
    ensures bounded { (tables : List Table) (query : Query) (alias : List ℕ)
        → arranged_plan tables query ≡ Err (NoBound alias) → HasNoCandidate tables query }

    // What may be defined is its own arrangement, and stays so over all later definitions.
    ensures own { (schema : Schema) (query : Query) (wanted : Option NewIndex) → IsDefined schema query wanted
        → arranged_query schema.tables query ≡ query }
    ensures stays { (schema : Schema) (n : ℕ) → IsValid schema → IsQueryDefinition (definition_at schema n)
        → arranged_query schema.tables (query_at schema n) ≡ query_at schema n }

    // So each catalog is read as it was before queries were arranged: what an opening finds in a text is what a
    // PREPARE finds in it.
    ensures read { (schema : Schema) (name text : List ℕ) (tokens : List Token) (from : ℕ)
        (plan : PlannedDefinition) → plan_from schema name text tokens from ≡ Ok plan
        → arranged_from schema name text tokens from ≡ Ok plan }
{}

/// A SELECT takes a query as an EXPLAIN does, but for its parameters and for an index that is to be made.
pub fn selecting_law()
    // It is planned as it is explained: without parameters, over the indexes that are there.
    ensures planned { (tables : List Table) (query : Query) (plan : PlannedDefinition)
        → selected_plan tables query ≡ Ok plan
        → (query.params ≡ []) × (arranged_plan tables query ≡ Ok plan) × (plan.chosen.wanted ≡ None) }

    // Parameters are refused before all that planning refuses.
    ensures params { (tables : List Table) (query : Query) → 1 ≤ length query.params
        → selected_plan tables query ≡ Err Params }

    // And an index that is to be made behind all of that, with the name of its table.
    ensures wanted { (tables : List Table) (query : Query) (plan : PlannedDefinition) (new : NewIndex)
        → query.params ≡ [] → arranged_plan tables query ≡ Ok plan → plan.chosen.wanted ≡ Some new
        → selected_plan tables query ≡ Err (IndexWanted (table_at tables new.table).name) }

    // Without LIMIT and PAGINATE its rows are those of the query as it is written, each as often.
    ensures answers { (tables : List Table) (query : Query) (plan : PlannedDefinition)
        → selected_plan tables query ≡ Ok plan → IsResolved tables query → query.stop ≡ All → (rows : Rows)
        → IsPermutation (answer tables query rows [] None) (answer tables plan.query rows [] None) }
{}

/// The canonical text of a definition, read over the definitions before it, defines it again.
pub fn reading_back_law()
    // Of a table over any valid schema, with its limits, its foreign keys and the indexes that these need.
    ensures tables { (schema : Schema) (def : TableDef) (table : Table) → IsValid schema → IsTableDef def
        → new_table schema def ≡ Ok table
        → text_defines schema (definition_text (with_table schema table) (length schema.definitions + 1))
        ≡ Some (with_table schema table) }

    // Of a query over any valid schema, with the index that it wants or without one.
    ensures queries { (schema : Schema) (query : Query) (wanted : Option NewIndex) → IsValid schema
        → IsDefined schema query wanted
        → text_defines schema (definition_text (with_query schema query wanted) (length schema.definitions + 1))
        ≡ Some (with_query schema query wanted) }

    // Of an added column over any valid schema, with its default.
    ensures columns { (schema : Schema) (def : AlterDef) (next : Schema) → IsValid schema
        → IsAddition schema def next
        → text_defines schema (definition_text next (length schema.definitions + 1)) ≡ Some next }

    // Of a counter over any valid schema.
    ensures counters { (schema : Schema) (def : CounterDef) (next : Schema) → IsValid schema
        → IsCounted schema def next
        → text_defines schema (definition_text next (length schema.definitions + 1)) ≡ Some next }
{}

/// A content opens to one schema, and to one set of rows of each table: the same content, whether it has an
/// intent or none, stands for no two models. An empty content opens to the empty schema and no rows.
pub fn standing_law()
    ensures empty { Opens (Some empty) (record { schema = empty_schema; rows = [] }) }

    ensures schema { (content : Option Content) (m n : Model) → Opens content m → Opens content n
        → m.schema ≡ n.schema }

    ensures rows { (content : Option Content) (m n : Model) → Opens content m → Opens content n → (t : ℕ)
        → IsTableNumber m.schema.tables t → IsPermutation (rows_of t m.rows) (rows_of t n.rows) }

    // A quiet content, which an opening leaves as it is, is just that of the model: what a content holds after a
    // statement or an opening is quiet, and a quiet one has nothing besides.
    ensures quiet { (content : Content) (m : Model) → HoldsModel (Some content) m → IsQuiet content }
    ensures own { (content : Content) (m : Model) → Opens (Some content) m → IsQuiet content
        → HoldsModel (Some content) m }
{}

/// Over tables without a write between, and with the same parameters, the pages of a query with PAGINATE k are all of
/// its answer in order, where each page begins behind the last row of the one before it.
pub fn page_law()
    // One behind the other, up to the first with fewer than k rows.
    ensures all { (m : Model) (query : Query) (params : List Value) (k : ℕ)
        (pages : List (List (List (List Value)))) → IsPaged m query k
        → ArePages (question_of m query params) k None pages
        → flat_map (map (selected_values query)) pages
        ≡ map (selected_values query) (whole (question_of m query params)) }

    // And there is such a page: the pages end.
    ensures ends { (m : Model) (query : Query) (params : List Value) (k : ℕ) → IsPaged m query k
        → (pages : List (List (List (List Value)))) × ArePages (question_of m query params) k None pages }

    // So it is for the reports of RUN after RUN: each begins behind the cursor that the report before it prints, up to
    // the first that prints none.
    ensures runs { (m : Model) (name : List ℕ) (params : List Value) (number k : ℕ) (reports : List Report)
        → find_query m.schema name ≡ Some number → IsPaged m (query_at m.schema number) k
        → AreRuns m name params None reports
        → flat_map (λ report. report.lines) reports ≡ map (line_of (query_at m.schema number))
        (whole (question_of m (query_at m.schema number) params)) }
    ensures runs_end { (m : Model) (name : List ℕ) (params : List Value) (number k : ℕ)
        → find_query m.schema name ≡ Some number → IsPaged m (query_at m.schema number) k
        → params_refusal (query_at m.schema number).params params ≡ None
        → (reports : List Report) × AreRuns m name params None reports }
{}
