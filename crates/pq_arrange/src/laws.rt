//! What the definitions promise by themselves.
ghost use Rattle.pq_arrange.specs.Laws.{ArrangedOnce, ArrangedResolved, ClassesAreChains, FindsCandidate, LeavesPlanned, NoMorePredicates, PlacesEach, RearrangedResolved, ResolvedInAnyOrder, ResolvedWhenClosed, RowsByPlaces, SameAnswers, SameArranged, SameInAnyOrder, SameRearranged, SameWhenClosed};

/// A query with its relations in another order.
pub fn order_laws()
    // It has the same combinations, each once, with their rows in that order.
    ensures combos { SameInAnyOrder }

    // The row of each relation stands at its new number.
    ensures rows { RowsByPlaces }

    // It is again a query that reading gives.
    ensures resolved { ResolvedInAnyOrder }

    // The order in which relations are placed has each of them once.
    ensures placed { PlacesEach }
{}

/// A query with its equalities closed.
pub fn closing_laws()
    // Two columns are of one class exactly where a chain of column equalities joins them.
    ensures classes { ClassesAreChains }

    // The query has the same combinations.
    ensures combos { SameWhenClosed }

    // It is again a query that reading gives,
    ensures resolved { ResolvedWhenClosed }

    // and has no more predicates.
    ensures fewer { NoMorePredicates }
{}

/// The query that is planned in place of a query.
pub fn arranging_laws()
    // The rearranged query has the same combinations, each once, with their rows in the new order.
    ensures rearranged { SameRearranged }

    // So has the arranged one.
    ensures combos { SameArranged }

    // Without a stop the answers have the same rows, each as often.
    ensures answers { SameAnswers }

    // Both are again queries that reading gives, with the same name, parameters and stop.
    ensures rearranged_resolved { RearrangedResolved }
    ensures resolved { ArrangedResolved }

    // A query that has a candidate is left as it is.
    ensures leaves { LeavesPlanned }

    // There is a candidate exactly where one of the three queries has one.
    ensures finds { FindsCandidate }

    // An arranged query is its own arrangement.
    ensures once { ArrangedOnce }
{}
