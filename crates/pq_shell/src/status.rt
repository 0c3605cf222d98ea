//! How a run ended.
ghost use Rattle.std.specs.Prelude.{◌≡◌};
ghost use Rattle.pq_shell.specs.Run.{status_code};

/// How a run ended.
#[derive(Debug, Clone, Copy, PartialEq, Eq)]
pub enum Status {
    /// All statements were made, and none was refused.
    Good,
    /// All statements were made, and at least one was refused.
    SomeRefused,
    /// The words are of no form. Nothing was read, written or called.
    Usage,
    /// A call of the source failed. The statements that were read whole are made and reported.
    ReadFault,
    /// A call of the sink failed.
    WriteFault,
    /// A call of the store failed.
    StoreFault,
    /// The content of the store is none that this engine writes.
    Damaged,
    /// There was no memory.
    NoMem,
    /// The script is too long. The statements that end within the limit are made and reported.
    TooLong,
}

impl Status {
    /// The exit status of a program that ends so.
    pub fn code(self) -> u8
        ensures { result ≡ status_code self }
    {
        match self {
            Status::Good => 0,
            Status::SomeRefused => 1,
            Status::Usage => 2,
            Status::ReadFault => 3,
            Status::WriteFault => 4,
            Status::StoreFault => 5,
            Status::Damaged => 6,
            Status::NoMem => 7,
            Status::TooLong => 8,
        }
    }
}
