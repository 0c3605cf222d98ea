//! The operators of comparisons.
ghost use Rattle.pq_grammar.specs.Answers.{Gives};
ghost use Rattle.pq_shape.specs.Operators.{op_at};

use crate::cursor::Cursor;
use crate::mark::{GREATER, GREATER_EQUAL, LESS, LESS_EQUAL, UNEQUAL};
use pq_base::Op;
use pq_grammar::ReadError;

/// Reads an operator other than `=`.
#[tactic(auto, unfolding(crate::specs::Operators::op_at))]
pub fn operator(c: &mut Cursor) -> Result<Op, ReadError>
    ensures { Gives (λ x. (x, c.new)) result (op_at c.old) }
{
    if c.is_mark(UNEQUAL) {
        c.mark(UNEQUAL)?;
        return Ok(Op::Ne);
    }
    if c.is_mark(LESS) {
        c.mark(LESS)?;
        return Ok(Op::Lt);
    }
    if c.is_mark(LESS_EQUAL) {
        c.mark(LESS_EQUAL)?;
        return Ok(Op::Le);
    }
    if c.is_mark(GREATER) {
        c.mark(GREATER)?;
        return Ok(Op::Gt);
    }
    c.mark(GREATER_EQUAL)?;
    Ok(Op::Ge)
}
