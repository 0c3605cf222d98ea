//! What stands between the parts of a list.

/// What stands between the parts of a list.
#[derive(Clone, Copy, PartialEq, Eq)]
pub enum Between {
    /// A comma.
    Comma,
    /// AND.
    And,
    /// A comma or JOIN.
    CommaOrJoin,
}
