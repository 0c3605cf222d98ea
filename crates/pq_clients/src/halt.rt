//! Why a step has no answer.
ghost use Rattle.std.specs.Prelude.{◌≡◌};

use pq_base::NoMem;
use pq_store::StoreErr;

/// Why a step ended without its call's answer.
#[derive(Clone, Copy, PartialEq, Eq)]
pub enum Halt {
    /// The call of the store failed.
    Failed,
    /// There was no memory, before the call or for it.
    NoMem,
}

impl From<StoreErr> for Halt {
    ghost use Rattle.std.specs.Prelude.{◌≡◌};
    ghost use Rattle.pq_clients.specs.Goes.{halt_of};

    ghost from_gives = { λ error halt. halt ≡ halt_of error };

    fn from(error: StoreErr) -> Halt {
        match error {
            StoreErr::Failed => Halt::Failed,
            StoreErr::NoMem => Halt::NoMem,
        }
    }
}

impl From<NoMem> for Halt {
    ghost use Rattle.std.specs.Prelude.{◌≡◌};
    ghost use Rattle.pq_clients.specs.declared.halt.Halt.TheVariants as halt;

    ghost from_gives = { λ _ made. made ≡ halt.NoMem };

    fn from(_error: NoMem) -> Halt {
        Halt::NoMem
    }
}
