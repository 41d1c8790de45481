use rocks_outside::DeviceError;
use std::alloc::AllocError;

/// Why moves weren't made, or not all of them.
#[derive(Clone, Copy, Debug, PartialEq, Eq)]
pub enum JournalFault {
    /// The device failed.
    DeviceFault,
    /// Memory ran out.
    NoMemory,
}

impl From<DeviceError> for JournalFault {
    ghost use Rattle.std.specs.Prelude.{◌≡◌};
    ghost use Rattle.tree_moves.specs.Performing.{fault_of};

    ghost from_gives = { λ error fault. fault ≡ fault_of error };

    fn from(error: DeviceError) -> JournalFault {
        match error {
            DeviceError::Failed => JournalFault::DeviceFault,
            DeviceError::NoMemory => JournalFault::NoMemory,
        }
    }
}

impl From<AllocError> for JournalFault {
    ghost use Rattle.std.specs.Prelude.{◌≡◌};
    ghost use Rattle.tree_moves.specs.declared.fault.JournalFault.TheVariants.{NoMemory};

    ghost from_gives = { λ _ fault. fault ≡ NoMemory };

    fn from(_: AllocError) -> JournalFault {
        JournalFault::NoMemory
    }
}
