//! The words that are known where the grammar has them, and are names elsewhere.
ghost use Rattle.std.specs.Prelude.{◌≡◌};
ghost use Rattle.pq_shape.specs.Front.{soft_name};

/// A word of the table of soft words. It stands in the tokens as the name that has its letters.
#[derive(Clone, Copy, PartialEq, Eq)]
pub enum Soft {
    Add,
    Alter,
    Batch,
    Column,
    Counter,
    Default,
    If,
    Is,
    Null,
    Of,
    Read,
}

impl Soft {
    /// Its letters as a name has them.
    pub fn name(self) -> &'static [u8]
        ensures { result.now ≡ soft_name self }
    {
        match self {
            Soft::Add => b"add",
            Soft::Alter => b"alter",
            Soft::Batch => b"batch",
            Soft::Column => b"column",
            Soft::Counter => b"counter",
            Soft::Default => b"default",
            Soft::If => b"if",
            Soft::Is => b"is",
            Soft::Null => b"null",
            Soft::Of => b"of",
            Soft::Read => b"read",
        }
    }
}
