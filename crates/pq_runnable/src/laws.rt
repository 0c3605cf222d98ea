//! What running a query that was defined earlier rests on.

ghost use Rattle.std.specs.Prelude.{◌≡◌, ℕ, ◌^◌, ◌<◌, ◌≤◌, true, List, [], ◌∷◌, ◌++◌, Option, Some, None};
ghost use Rattle.std.specs.List.{AllByRecursion};
ghost use Rattle.pq_base.specs.Answers.{Refuses};
ghost use Rattle.pq_base.specs.declared.number.Bound.{Bound};
ghost use Rattle.pq_base.specs.declared.refusal.Stopped.{Stopped};
ghost use Rattle.pq_base.specs.declared.refusal.Stopped.TheVariants.{NoMem};
ghost use Rattle.pq_schema.specs.declared.query.Query.{Query};
ghost use Rattle.pq_schema.specs.declared.table.Access.{Access};
ghost use Rattle.pq_schema.specs.declared.table.KeyPart.{KeyPart};
ghost use Rattle.pq_schema.specs.declared.table.NewIndex.{NewIndex};
ghost use Rattle.pq_schema.specs.declared.table.Table.{Table};
ghost use Rattle.pq_schema.specs.Candidates.{candidates};
ghost use Rattle.pq_schema.specs.Relations.{table_of, tied_set, order_rest};
ghost use Rattle.pq_schema.specs.Resolved.{IsResolved};
ghost use Rattle.pq_schema.specs.Schema.{Schema, IsQueryDefinition, definition_at, query_at, with_wanted};
ghost use Rattle.pq_schema.specs.Sequences.{IsAccess, begins_with, sequence_of, serves, index_sequence, new_index, serving_access, group_access};
ghost use Rattle.pq_schema.specs.Sound.{IsQuery};
ghost use Rattle.pq_schema.specs.Valid.{IsValid, IsDefined};
ghost use Rattle.pq_schema.specs.Wanted.{ChosenCandidate, chosen_candidate};
ghost use Rattle.pq_plan.specs.declared.physical.Physical.{Physical};
ghost use Rattle.pq_plan.specs.Cost.{cost};
ghost use Rattle.pq_plan.specs.Nodes.{Node, nodes, plan_nodes};
ghost use Rattle.pq_compile.specs.Chosen.{IsCompiled};
ghost use Rattle.pq_compile.specs.declared.compiler.Compiled.{Compiled};
ghost use Rattle.pq_nodes.specs.Inverse.{HasIndex};
ghost use Rattle.pq_runnable.specs.Grown.{HaveGrown, IsStillChosen};
ghost use Rattle.pq_runnable.specs.Runnable.{IsRunnable, IsRunnableNode, IsRunnablePlan};

/// A query that was defined stays what it was over every later catalog.
pub fn grown_laws()
    // The query of each definition is one that reading gives over the tables of now.
    ensures resolved { (s : Schema) (n : ℕ) → IsValid s → IsQueryDefinition (definition_at s n)
        → IsResolved s.tables (query_at s n) }

    // And one that planning takes.
    ensures planned { (s : Schema) (n : ℕ) → IsValid s → IsQueryDefinition (definition_at s n)
        → IsQuery s.tables (query_at s n) }

    // Its least candidate is the one that its PREPARE chose, and it wants no index.
    ensures chosen { (s : Schema) (n : ℕ) → IsValid s → IsQueryDefinition (definition_at s n)
        → IsStillChosen s (query_at s n) }

    // Over tables that have grown the candidates and their costs are as they were.
    ensures candidates { (before now : List Table) (query : Query) → HaveGrown before now
        → IsResolved before query → candidates now query ≡ candidates before query }
{}

/// Where an index is found, it is of the table and is what was looked for.
pub fn index_laws()
    ensures group { (table : Table) (set : ℕ) (access : Access) → group_access table set ≡ Some access
        → IsAccess table access × (begins_with (sequence_of table access) set ≡ true) }

    ensures serving { (table : Table) (set : ℕ) (order : List KeyPart) (access : Access)
        → serving_access table set order ≡ Some access
        → IsAccess table access × (serves table set order (sequence_of table access) ≡ true) }

    // The index that a query wants serves it.
    ensures wanted { (tables : List Table) (query : Query) (p : ℕ) → IsResolved tables query
        → serves (table_of tables query p) (tied_set query p) (order_rest query p)
        (index_sequence (table_of tables query p)
        (new_index (table_of tables query p) (tied_set query p) (order_rest query p))) ≡ true }
{}

/// What a query is compiled to: its numbers are small, its indexes are there, and later it is as it was.
pub fn compiled_laws()
    // Where no index is wanted, the sequence of each node is there.
    ensures indexed { (tables : List Table) (query : Query) (made : Compiled) → IsQuery tables query
        → IsCompiled tables query made → made.wanted ≡ None
        → AllByRecursion (HasIndex tables query) (nodes made.plan) }

    // Its numbers are at most 50,000.
    ensures small { (tables : List Table) (query : Query) (made : Compiled) → IsCompiled tables query made
        → ((cost made.plan).ops ≤ 50000) × ((cost made.plan).entries ≤ 50000) }

    // So they can be granted.
    ensures narrow { (tables : List Table) (query : Query) (made : Compiled) → IsCompiled tables query made
        → ((cost made.plan).ops < 2 ^ 32) × ((cost made.plan).entries < 2 ^ 32) }

    // A query that was defined wants no index when it is compiled again.
    ensures again { (s : Schema) (n : ℕ) (made : Compiled) → IsValid s → IsQueryDefinition (definition_at s n)
        → IsCompiled s.tables (query_at s n) made → made.wanted ≡ None }

    // Nor is it refused, but for want of memory.
    ensures unrefused { (s : Schema) (n : ℕ) (stopped : Stopped) → IsValid s
        → IsQueryDefinition (definition_at s n)
        → Refuses {A = ChosenCandidate} stopped (chosen_candidate s.tables (query_at s n))
        → stopped ≡ NoMem }

    // The nodes of its plan are those at its definition.
    ensures stays { (before : Schema) (query : Query) (wanted : Option NewIndex) (now : List Table)
        (valid : IsValid before) (defined : IsDefined before query wanted)
        → HaveGrown (with_wanted before.tables wanted) now
        → plan_nodes now query defined.chosen.best.choice
        ≡ plan_nodes before.tables query defined.chosen.best.choice }

    // And so its plan goes over sequences that are there.
    ensures run { (s : Schema) (n : ℕ) (made : Compiled) → IsValid s → IsQueryDefinition (definition_at s n)
        → IsCompiled s.tables (query_at s n) made
        → AllByRecursion (HasIndex s.tables (query_at s n)) (nodes made.plan) }
{}

/// How a plan is run node by node.
pub fn run_laws()
    // The plan of a query that was defined can be run within its own cost, which can be granted.
    ensures plan { (s : Schema) (n : ℕ) (made : Compiled) → IsValid s → IsQueryDefinition (definition_at s n)
        → IsCompiled s.tables (query_at s n) made → IsRunnablePlan s.tables (query_at s n) made.plan }

    // At its definition, over the tables with the index that it wants.
    ensures defined { (s : Schema) (query : Query) (made : Compiled) → IsValid s → IsDefined s query made.wanted
        → IsCompiled s.tables query made → IsRunnablePlan (with_wanted s.tables made.wanted) query made.plan }

    // And over tables that have grown since it could.
    ensures grown { (before now : List Table) (query : Query) (plan : Physical) → HaveGrown before now
        → IsResolved before query → IsRunnablePlan before query plan → IsRunnablePlan now query plan }

    // The nodes of a tree are those of its input and then its own.
    ensures split { (tables : List Table) (query : Query) (granted : Bound) (front : List Node) (node : Node)
        → IsRunnable tables query granted (front ++ node ∷ [])
        → IsRunnable tables query granted front × IsRunnableNode tables query granted front node }
{}
