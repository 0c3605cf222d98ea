//! What a statement's tokens stand for, and a cursor over them.
//!
//! A token is read as a shape: a keyword, a name in small letters, a number of 64 bits, a text without its quotes,
//! a mark, or something that no statement has. Both readers go over shapes, by the parts that stand here.
#![tactic(auto)]

mod behind;
mod between;
mod cursor;
mod fault;
mod keyword;
pub mod laws;
mod mark;
mod next;
mod number;
mod op;
mod part;
mod soft;

pub use between::Between;
pub use cursor::Cursor;
pub use fault::syntax;
pub use keyword::{
    AFTER, AND, AS, ASC, BOOL, BY, CARDINALITY, CREATE, DELETE, DESC, EXPLAIN, FALSE, FOREIGN,
    FROM, INSERT, INT, INTO, JOIN, KEY, LIMIT, ORDER, PAGINATE, PREPARE, PRIMARY, REFERENCES, RUN,
    SELECT, SET, SHOW, TABLE, TEXT, TRUE, UPDATE, VALUES, WHERE,
};
pub use mark::{
    CLOSE, CLOSE_SQUARE, COLON, COMMA, EQUAL, GREATER, GREATER_EQUAL, LESS, LESS_EQUAL, OPEN,
    OPEN_SQUARE, POINT, SEMICOLON, STAR, UNEQUAL,
};
pub use op::operator;
pub use part::{Part, separated};
pub use soft::Soft;
