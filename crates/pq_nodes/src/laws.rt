//! What the definitions promise by themselves.
ghost use Rattle.std.specs.Prelude.{◌≡◌, ℕ, ◌-◌, ◌≤◌, true, cond, List, [], ◌∷◌, ◌++◌, length, map, flat_map, take, option_to_list, Option, IsPermutation};
ghost use Rattle.std.specs.List.{AllByRecursion, range_with_len};
ghost use Rattle.pq_base.specs.Columns.{is_column_within, set_of};
ghost use Rattle.pq_base.specs.Values.{AllFit, has_null};
ghost use Rattle.pq_base.specs.declared.number.Bound.{Bound};
ghost use Rattle.pq_base.specs.declared.number.Choice.{Choice};
ghost use Rattle.pq_base.specs.declared.number.Choice.TheVariants.{Stop};
ghost use Rattle.pq_base.specs.declared.value.Value.{Value};
ghost use Rattle.pq_schema.specs.Costs.{ReachedCost, plus};
ghost use Rattle.pq_schema.specs.Relations.{relation_at, table_of, tied_set};
ghost use Rattle.pq_schema.specs.Resolved.{IsResolved};
ghost use Rattle.pq_schema.specs.Rows.{Rows, row_at, KeepsSchema};
ghost use Rattle.pq_schema.specs.Sequences.{begins_with, sequence_of};
ghost use Rattle.pq_schema.specs.Sound.{IsQuery};
ghost use Rattle.pq_schema.specs.Tables.{is_lookup};
ghost use Rattle.pq_schema.specs.declared.query.Query.{Query};
ghost use Rattle.pq_schema.specs.declared.table.Access.{Access};
ghost use Rattle.pq_schema.specs.declared.table.Table.{Table};
ghost use Rattle.pq_content.specs.Tables.{AllOfKinds, types_at};
ghost use Rattle.pq_store.specs.declared.damage.Broke.{Broke};
ghost use Rattle.pq_calls.specs.World.{World};
ghost use Rattle.pq_plan.specs.Answer.{Question, question, position, selected_values};
ghost use Rattle.pq_plan.specs.Executing.{Makes, Gives};
ghost use Rattle.pq_plan.specs.Nodes.{Node, plan_nodes, node_step, run_of};
ghost use Rattle.pq_plan.specs.Plans.{HasChoice, IsPlanNode};
ghost use Rattle.pq_plan.specs.Running.{apply, matching, ranged};
ghost use Rattle.pq_nodes.specs.Combos.{IsCombo, FitsTables, position_types, selected_types};
ghost use Rattle.pq_nodes.specs.Inverse.{IsNodeOf};
ghost use Rattle.pq_nodes.specs.Operators.{StopsReading, IsSoundOverRows};
ghost use Rattle.pq_nodes.specs.Ordered.{relation_read, node_relations, after_node, after_nodes, StandsAt, StandInOrder};
ghost use Rattle.pq_nodes.specs.Paid.{node_cost, node_size, IsAtMost, IsUpTo};
ghost use Rattle.pq_nodes.specs.Tied.{tied_group, tied_cells, HasRange};

/// What a node of a plan for a query says of the query.
pub fn node_laws()
    ensures { (tables : List Table) (query : Query) (node : Node) → IsQuery tables query
        → IsPlanNode tables query node → IsNodeOf tables query node }
{}

/// The order in which nodes read.
pub fn order_laws()
    // Each read is of the next relation, and all relations are read.
    ensures order { (tables : List Table) (query : Query) (choice : Choice) → IsQuery tables query
        → HasChoice tables query choice → StandInOrder 0 (plan_nodes tables query choice)
        × (after_nodes 0 (plan_nodes tables query choice) ≡ length query.relations) }

    // The nodes before one that reads a relation read those before it, in their order.
    ensures before { (tables : List Table) (query : Query) (choice : Choice) (front : List Node) (node : Node)
        (back : List Node) (rel : ℕ) → IsQuery tables query → HasChoice tables query choice
        → plan_nodes tables query choice ≡ front ++ node ∷ back → relation_read node ≡ rel ∷ []
        → (node_relations front ≡ range_with_len 1 (rel - 1)) × (after_nodes 0 front ≡ rel - 1)
        × StandInOrder 0 front }
{}

/// What nodes cost.
pub fn cost_laws()
    ensures costs { (r : ReachedCost) (node : Node) → (node_step r node).cost ≡ plus r.cost (node_cost r.inputs node) }

    ensures size { (r : ReachedCost) (node : Node) → (node_step r node).inputs ≡ node_size r.inputs node }

    // More inputs cost and give no less.
    ensures more { (a b : ReachedCost) (node : Node) → IsUpTo a b → IsUpTo (node_step a node) (node_step b node) }

    // The nodes up to one cost at most what all do.
    ensures front { (front back : List Node) → IsAtMost (run_of front).cost (run_of (front ++ back)).cost }

    // What the whole's cost leaves suffices at each node.
    ensures affords { (front : List Node) (node : Node) (back : List Node) (inputs : ℕ) (spent : Bound)
        → inputs ≤ (run_of front).inputs → IsAtMost spent (run_of front).cost
        → IsAtMost (plus spent (node_cost inputs node)) (run_of (front ++ node ∷ back)).cost }
{}

/// What combinations are while nodes are run.
pub fn combo_laws()
    // Each node keeps one row for each relation that was read.
    ensures applied { (q : Question) (after : Option (List Value)) (count : ℕ) (node : Node)
        (inputs : List (List (List Value))) → StandsAt count node → AllByRecursion (IsCombo q count) inputs
        → AllByRecursion (IsCombo q (after_node count node)) (apply q after inputs node) }

    // Also where a range gives them in any order.
    ensures made { (q : Question) (after : Option (List Value)) (count : ℕ) (node : Node)
        (inputs found : List (List (List Value))) → StandsAt count node
        → AllByRecursion (IsCombo q count) inputs → Makes q after inputs node found
        → AllByRecursion (IsCombo q (after_node count node)) found }

    ensures given { (q : Question) (after : Option (List Value)) (count : ℕ) (list : List Node)
        (inputs found : List (List (List Value))) → StandInOrder count list
        → AllByRecursion (IsCombo q count) inputs → Gives q after inputs list found
        → AllByRecursion (IsCombo q (after_nodes count list)) found }

    // Over tables that keep the schema a node gives no more than its size.
    ensures few { (tables : List Table) (query : Query) (rows : Rows) (params : List Value)
        (after : Option (List Value)) (node : Node) (inputs : List (List (List Value))) → IsQuery tables query
        → KeepsSchema tables rows → IsNodeOf tables query node
        → length (apply (question tables query rows params) after inputs node) ≤ node_size (length inputs) node }

    ensures few_made { (tables : List Table) (query : Query) (rows : Rows) (params : List Value)
        (after : Option (List Value)) (node : Node) (inputs found : List (List (List Value))) → IsQuery tables query
        → KeepsSchema tables rows → IsNodeOf tables query node
        → Makes (question tables query rows params) after inputs node found
        → length found ≤ node_size (length inputs) node }

    // A combination's rows fit their tables.
    ensures fits { (tables : List Table) (query : Query) (rows : Rows) (params : List Value) (count : ℕ)
        (combo : List (List Value)) → IsQuery tables query → KeepsSchema tables rows → count ≤ length query.relations
        → IsCombo (question tables query rows params) count combo → FitsTables tables query count combo }

    // The position fits the position columns, of all relations and of those up to a stop.
    ensures positions { (tables : List Table) (query : Query) (rows : Rows) (params : List Value)
        (combo : List (List Value)) → IsQuery tables query → IsResolved tables query
        → FitsTables tables query (length query.relations) combo
        → AllFit (position_types tables query) (position (question tables query rows params) combo) }

    ensures stop_positions { (tables : List Table) (query : Query) (rows : Rows) (params : List Value) (p : ℕ)
        (combo : List (List Value)) → IsQuery tables query → IsResolved tables query → HasChoice tables query (Stop p)
        → FitsTables tables query p combo
        → AllFit (position_types tables query) (position (question tables query rows params) combo) }

    ensures selection { (tables : List Table) (query : Query) (combo : List (List Value)) → IsQuery tables query
        → IsResolved tables query → FitsTables tables query (length query.relations) combo
        → AllFit (selected_types tables query) (selected_values query combo) }
{}

/// Behind a combination that fits, with parameters that fit.
pub fn tied_laws()
    // Columns that lie in the fixed ones have tied values, which are of their kinds.
    ensures kinds { (tables : List Table) (query : Query) (rows : Rows) (params : List Value) (rel : ℕ)
        (combo : List (List Value)) (cols : List ℕ) → IsResolved tables query → AllFit query.params params
        → FitsTables tables query (rel - 1) combo → is_column_within (set_of cols) (tied_set query rel) ≡ true
        → AllOfKinds (types_at (table_of tables query rel).columns cols)
        (tied_cells (question tables query rows params) rel cols combo) }

    // The rows that match are those of the group with these values, and none where one is NULL.
    ensures group { (tables : List Table) (query : Query) (rows : Rows) (params : List Value) (rel : ℕ)
        (combo : List (List Value)) (cols : List ℕ) → IsResolved tables query → AllFit query.params params
        → FitsTables tables query (rel - 1) combo → KeepsSchema tables rows
        → is_column_within (set_of cols) (tied_set query rel) ≡ true
        → matching (question tables query rows params) rel cols combo ≡ tied_group (relation_at query rel).table cols
        (tied_cells (question tables query rows params) rel cols combo) rows }

    // Where the key is tied, it is the row with this key, and none where the key has NULL.
    ensures row { (tables : List Table) (query : Query) (rows : Rows) (params : List Value) (rel : ℕ)
        (combo : List (List Value)) → IsResolved tables query → AllFit query.params params
        → FitsTables tables query (rel - 1) combo → KeepsSchema tables rows
        → is_lookup (table_of tables query rel) (tied_set query rel) ≡ true
        → take 1 (matching (question tables query rows params) rel (table_of tables query rel).key combo)
        ≡ cond (has_null (tied_cells (question tables query rows params) rel
        (table_of tables query rel).key combo)) [] (option_to_list (row_at tables rows (relation_at query rel).table
        (tied_cells (question tables query rows params) rel (table_of tables query rel).key combo))) }

    // The range of a sequence that begins with the columns, under the tied values of its first columns, has the rows
    // that match.
    ensures range { (tables : List Table) (query : Query) (rows : Rows) (params : List Value) (rel : ℕ)
        (combo : List (List Value)) (cols : List ℕ) (access : Access) → IsResolved tables query
        → AllFit query.params params → FitsTables tables query (rel - 1) combo → KeepsSchema tables rows
        → is_column_within (set_of cols) (tied_set query rel) ≡ true
        → begins_with (sequence_of (table_of tables query rel) access) (set_of cols) ≡ true
        → HasRange (question tables query rows params) rel cols access combo }

    // What each input is given in some order makes what all are given in some order.
    ensures ranges { (q : Question) (rel : ℕ) (cols : List ℕ) (found : List (List Value)
        → List (List Value)) (inputs : List (List (List Value)))
        → AllByRecursion (λ combo. IsPermutation (matching q rel cols combo) (found combo)) inputs
        → IsPermutation (ranged q rel cols inputs) (flat_map
        (λ combo. map (λ row. combo ++ row ∷ []) (found combo)) inputs) }
{}

/// Reads over a content that holds rows tell no damage.
pub fn damage_laws()
    ensures { (tables : List Table) (before after : World) (error : Broke)
        → StopsReading tables before after error → IsSoundOverRows before.told tables error }
{}
