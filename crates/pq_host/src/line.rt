//! Whose turn it is on a line.
use std::cell::Cell;

/// What the ends of one pair of streams share: the turn of the line, while no request waits for its answer.
#[derive(Drop)]
pub struct Line {
    turn: Cell<Option<Turn>>,
}

/// The right to send a request. A line has one, which nothing copies and only `Line::new` makes.
#[derive(Drop)]
pub(crate) struct Turn {
    _of_a_line: (),
}

impl Line {
    /// A line that can be used.
    pub fn new() -> Line {
        let turn = Turn { _of_a_line: () };
        Line {
            turn: Cell::new(Some(turn)),
        }
    }

    /// The turn, unless an end has it: from then on that end has it alone.
    pub(crate) fn take(&self) -> Option<Turn> {
        self.turn.replace(None)
    }

    /// The next request is any end's.
    pub(crate) fn give_back(&self, turn: Turn) {
        self.turn.set(Some(turn));
    }
}
