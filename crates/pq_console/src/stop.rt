//! Why a run stops before the end of its script.
ghost use Rattle.std.specs.Prelude.{◌≡◌};
ghost use Rattle.pq_console.specs.Stops.{stop_of_broke};

use pq_store::{Broke, Damage};

/// Why a run stopped.
#[derive(Drop)]
pub enum Stop {
    /// A call of the store failed.
    StoreFailed,
    /// A call of the sink failed.
    WriteFailed,
    /// There was no memory.
    NoMem,
    /// The content of the store is none that this engine opens or goes on with.
    Damaged(Damage),
}

impl Stop {
    /// The stop where a session breaks off.
    pub fn of(broke: Broke) -> Stop
        ensures { result ≡ stop_of_broke broke }
    {
        match broke {
            Broke::Failed => Stop::StoreFailed,
            Broke::NoMem => Stop::NoMem,
            Broke::Damaged(damage) => Stop::Damaged(damage),
        }
    }
}
