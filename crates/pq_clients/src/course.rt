//! Courses of steps, and want of memory.
ghost use Rattle.std.specs.Prelude.{◌≡◌};
ghost use Rattle.pq_clients.specs.Clients.{Flying};
ghost use Rattle.pq_clients.specs.Flights.{Flight};
ghost use Rattle.pq_clients.specs.Goes.{Memory};
ghost use Rattle.pq_clients.specs.Seen.{seen_stage, seen_course};
ghost use Rattle.pq_clients.specs.Steps.{On};

use crate::halt::Halt;
use crate::stage::{Course, Phase, Stage};
use pq_base::NoMem;

pub(crate) fn flying(stage: Stage) -> Course
    ensures { (f : Flight) → seen_course f result ≡ On (Flying f (seen_stage stage)) }
{
    Course::On {
        next: Phase::Flying { stage },
    }
}

pub(crate) fn in_memory<T>(made: Result<T, NoMem>) -> Result<T, Halt>
    ensures { Memory made result }
{
    match made {
        Err(_) => Err(Halt::NoMem),
        Ok(made) => Ok(made),
    }
}
