//! What is repeated with something between.
ghost use Rattle.std.specs.Prelude.{◌≡◌, ◌<◌, ℕ, length, Result, Ok};
ghost use Rattle.std.specs.Prelude as prelude;
ghost use Rattle.pq_grammar.specs.Reader.{separated_at, skip_at};
ghost use Rattle.pq_grammar.specs.Answers.{Gives};
ghost use Rattle.pq_shape.specs.Front.{is_between, between_at};
ghost use Rattle.pq_shape.specs.Shape.{Shape};

use crate::between::Between;
use crate::cursor::Cursor;
use pq_base::{List, PText, Value};
use pq_grammar::ReadError;
use std::alloc::Global;

/// What can be read from the front of the tokens.
pub trait Part: Drop {
    ghost reads: { prelude.List Shape → Result (Self × prelude.List Shape) ℕ };

    /// Reads one.
    fn part(alloc: Global, c: &mut Cursor) -> Result<Self, ReadError>
        ensures { Gives (λ x. (x, c.new)) result (reads c.old) };

    /// Each takes a token at least.
    ghost shrinks: { (ts : prelude.List Shape) (x : Self) (rest : prelude.List Shape) → reads ts ≡ Ok (x, rest)
        → length rest < length ts };
}

/// Reads what stands between, and a part.
fn next_part<P: Part>(alloc: Global, c: &mut Cursor, between: Between) -> Result<P, ReadError>
    ensures { Gives (λ x. (x, c.new)) result (skip_at (between_at between) P.reads c.old) }
{
    c.between(between)?;
    P::part(alloc, c)
}

/// Reads one or more.
pub fn separated<P: Part>(
    alloc: Global,
    c: &mut Cursor,
    between: Between,
) -> Result<List<P>, ReadError>
    ensures { Gives (λ x. (x, c.new)) result (separated_at (is_between between) (between_at between) P.reads c.old) }
{
    let mut items = List::new(alloc);
    let first = P::part(alloc, c)?;
    items.push(alloc, first)?;
    'more: while c.is_between(between) {
        let next: P = next_part(alloc, c, between)?;
        items.push(alloc, next)?;
    }
    Ok(items)
}

impl Part for PText {
    ghost use Rattle.pq_grammar.specs.Shrinking.{token_shrinks};
    ghost use Rattle.pq_shape.specs.Front.{name_at, name_of};

    ghost reads = { name_at };

    fn part(alloc: Global, c: &mut Cursor) -> Result<PText, ReadError> {
        c.name(alloc)
    }

    ghost shrinks = { token_shrinks name_of };
}

impl Part for Value {
    ghost use Rattle.pq_grammar.specs.Shrinking.{token_shrinks};
    ghost use Rattle.pq_shape.specs.Front.{value_shape_at, value_in};

    ghost reads = { value_shape_at };

    fn part(alloc: Global, c: &mut Cursor) -> Result<Value, ReadError> {
        c.value(alloc)
    }

    ghost shrinks = { token_shrinks value_in };
}
