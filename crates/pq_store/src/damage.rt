//! The error of calls that work over a store, and what shows that its content is damaged.
ghost use Rattle.std.specs.Prelude.{◌≡◌};

use crate::store::StoreErr;
use pq_base::{Bytes, NoMem};

/// A key, and the value that a call of this run answered for it: None where there was none.
#[derive(Debug, Drop)]
pub struct Damage {
    pub key: Bytes,
    pub value: Option<Bytes>,
}

/// Why a call over a store broke off.
#[derive(Debug, Drop)]
pub enum Broke {
    /// A call of the store failed: its count of faults rose, or stands at its type's end.
    Failed,
    /// There was no memory.
    NoMem,
    /// The content of the store is none that this engine opens or goes on with.
    Damaged(Damage),
}

impl From<StoreErr> for Broke {
    ghost use Rattle.pq_store.specs.Breaks.{broke_of};

    ghost from_gives = { λ error broke. broke ≡ broke_of error };

    fn from(error: StoreErr) -> Broke {
        match error {
            StoreErr::Failed => Broke::Failed,
            StoreErr::NoMem => Broke::NoMem,
        }
    }
}

impl From<NoMem> for Broke {
    ghost use Rattle.pq_store.specs.declared.damage.Broke.TheVariants as broke;

    ghost from_gives = { λ _ made. made ≡ broke.NoMem };

    fn from(_error: NoMem) -> Broke {
        Broke::NoMem
    }
}
