//! What holds of clients by the definitions of their steps: a law is the contract of a call that does nothing.
ghost use Rattle.std.specs.Prelude.{List};
ghost use Rattle.pq_schema.specs.declared.table.Table.{Table};
ghost use Rattle.pq_content.specs.Pairs.{Pair};
ghost use Rattle.pq_store.specs.Content.{Content};
ghost use Rattle.pq_content.specs.Tables.{Rows};
ghost use Rattle.pq_clients.specs.Clients.{View};
ghost use Rattle.pq_clients.specs.OneCall.{MakesOneCall};
ghost use Rattle.pq_clients.specs.Runs.{Event};
ghost use Rattle.pq_clients.specs.Promises.{Begins, HoldsThroughout};

/// What holds of any clients with any writes over any rows that keep their tables, after any steps in any order,
/// whatever calls fail.
pub fn client_laws()
    ensures throughout { (tables : List Table) (rows : Rows) (others : List Pair) (clients : List View)
        → Begins tables rows others clients
        → (events : List Event) → HoldsThroughout tables rows others clients events }
{}

/// Each step is one call of the store, with its cap or its guard, and goes on by the call's answer.
pub fn call_laws()
    ensures one { (tables : List Table) (view : View) (content : Content) → MakesOneCall tables view content }
{}
