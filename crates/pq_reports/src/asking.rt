//! What a piece asks for, over the catalog with its plans.
ghost use Rattle.std.specs.Prelude.{IfOk, IfErr};
ghost use Rattle.pq_base.specs.Answers.{Refuses};
ghost use Rattle.pq_statement.specs.Actions.{action_of};
ghost use Rattle.pq_statement.specs.Requests.{Asks};

use pq_base::Stopped;
use pq_catalog::PlannedCatalog;
use pq_statement::{Request, asked};
use pq_text::Piece;
use std::alloc::Global;

/// What a piece asks for, or the first refusal that needs no call of the store.
pub fn request_of(
    alloc: Global,
    planned: &PlannedCatalog,
    piece: &Piece,
) -> Result<Request, Stopped>
    ensures asks { IfOk result (λ request. Asks planned.now request (action_of planned.now piece.now)) }
    ensures refused { IfErr result (λ stopped. Refuses stopped (action_of planned.now piece.now)) }
{
    asked(alloc, planned.catalog(), piece)
}
