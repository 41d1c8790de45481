ghost use Rattle.std.specs.Prelude.{◌≡◌};
ghost use Rattle.rock_manifest.specs.declared.fault.RecordFault.TheVariants.{NoMemory};

use std::alloc::AllocError;

/// Why a text was not taken as a record (this project's own).
#[derive(Clone, Copy, Debug, PartialEq, Eq)]
pub enum RecordFault {
    /// It is the text of no record.
    BadRecord,
    /// Memory ran out.
    NoMemory,
}

impl From<AllocError> for RecordFault {
    ghost from_gives = { λ _ fault. fault ≡ NoMemory };

    fn from(_: AllocError) -> RecordFault {
        RecordFault::NoMemory
    }
}
