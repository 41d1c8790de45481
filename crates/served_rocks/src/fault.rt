use rocks_outside::ShelfError;
use rocks_reply::Refusal;
use std::alloc::{AllocError, AllocFailed};

/// Why nothing is served.
#[derive(Debug, Drop)]
pub enum Unserved {
    /// The servers don't have it, or what they have can't be used.
    Refused(Refusal),
    /// The shelf failed, or memory ran out.
    Failed(ShelfError),
}

impl From<ShelfError> for Unserved {
    ghost use Rattle.std.specs.Prelude.{◌≡◌};
    ghost use Rattle.served_rocks.specs.declared.fault.Unserved.TheVariants.{Failed};

    ghost from_gives = { λ error fault. fault ≡ Failed error };

    fn from(error: ShelfError) -> Unserved {
        Unserved::Failed(error)
    }
}

impl From<AllocError> for Unserved {
    ghost use Rattle.std.specs.Prelude.{◌≡◌};
    ghost use Rattle.rocks_outside.specs.declared.fault.ShelfError.TheVariants.{NoMemory};
    ghost use Rattle.served_rocks.specs.declared.fault.Unserved.TheVariants.{Failed};

    ghost from_gives = { λ _ fault. fault ≡ Failed NoMemory };

    fn from(_: AllocError) -> Unserved {
        Unserved::Failed(ShelfError::NoMemory)
    }
}
