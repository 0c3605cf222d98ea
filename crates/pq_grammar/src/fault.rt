//! Why tokens could not be read.
ghost use Rattle.std.specs.Prelude.{◌≡◌};
ghost use Rattle.pq_grammar.specs.declared.fault.ReadError.TheVariants.{NoMem as Spent};

use pq_base::NoMem;

/// Why a reader answered nothing.
#[derive(Drop)]
pub enum ReadError {
    /// There was no memory.
    NoMem,
    /// So many tokens are left where reading stopped.
    Stuck(usize),
}

impl From<NoMem> for ReadError {
    ghost from_gives = { λ _ e. e ≡ Spent };

    fn from(_error: NoMem) -> ReadError {
        ReadError::NoMem
    }
}
