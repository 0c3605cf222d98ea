//! What the definitions promise by themselves.
ghost use Rattle.std.specs.Prelude.{ℕ, List};
ghost use Rattle.pq_print.specs.declared.report.Opened.{Opened};
ghost use Rattle.pq_print.specs.declared.report.Report.{Report};
ghost use Rattle.pq_fill.specs.Laws.{HasStatements, HasKinds, BeginsSummary, GoesOn, IsTotalledFor};

/// How many statements a script has, and that each is of one kind; that a summary is made report by
/// report; and that its total is what the opening and all reports used.
pub fn filling_laws()
    ensures statements { (n : ℕ) → HasStatements n }
    ensures kinds { (n : ℕ) → HasKinds n }
    ensures begins { (n : ℕ) (opened : Opened) → BeginsSummary n opened }
    ensures goes_on { (n : ℕ) (opened : Opened) (reports : List Report) → GoesOn n opened reports }
    ensures totals { (n : ℕ) (opened : Opened) (reports : List Report) → IsTotalledFor n opened reports }
{}
