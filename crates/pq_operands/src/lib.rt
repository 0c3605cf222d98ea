//! The values that operands and ties stand for, .
#![tactic(auto)]

mod operands;
mod ties;

pub use operands::{cell, side};
pub use ties::{tied_cells, tied_value};
