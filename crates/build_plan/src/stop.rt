ghost use Rattle.std.specs.Prelude.{◌≡◌};
ghost use Rattle.build_plan.specs.declared.stop.Stop.TheVariants.{NoMemory};

use crate::PlanFault;
use std::alloc::{AllocError, AllocFailed};

/// Why a step to a plan doesn't come to its end.
#[derive(Debug, Drop)]
pub enum Stop {
    NoMemory,
    Refused(PlanFault),
}

impl From<AllocError> for Stop {
    ghost from_gives = { λ _ stop. stop ≡ NoMemory };

    fn from(_: AllocError) -> Stop {
        Stop::NoMemory
    }
}

/// What has no room is dropped.
impl<T: Drop> From<AllocFailed<T>> for Stop {
    ghost from_gives = { λ _ stop. stop ≡ NoMemory };

    fn from(_: AllocFailed<T>) -> Stop {
        Stop::NoMemory
    }
}
