use rocks_outside::{DeviceError, ShelfError};
use rocks_text::TreePath;
use std::alloc::{AllocError, AllocFailed};

/// Why a tree wasn't opened.
#[derive(Debug, Drop)]
pub enum OpenFault {
    /// The files are those of no set of rocks. The path is the least that shows it.
    Damaged(TreePath),
    /// The device failed.
    DeviceFault,
    /// Memory ran out.
    NoMemory,
}

impl From<DeviceError> for OpenFault {
    ghost use Rattle.std.specs.Prelude.{◌≡◌};
    ghost use Rattle.rocks_session.specs.Faults.{opening_fault};

    ghost from_gives = { λ error fault. fault ≡ opening_fault error };

    fn from(error: DeviceError) -> OpenFault {
        match error {
            DeviceError::Failed => OpenFault::DeviceFault,
            DeviceError::NoMemory => OpenFault::NoMemory,
        }
    }
}

/// Why a command was not carried out.
#[derive(Clone, Copy, Debug, PartialEq, Eq)]
pub enum SessionFault {
    /// The device failed.
    DeviceFault,
    /// The shelf failed.
    ShelfFault,
    /// Memory ran out.
    NoMemory,
}

impl From<DeviceError> for SessionFault {
    ghost use Rattle.std.specs.Prelude.{◌≡◌};
    ghost use Rattle.rocks_session.specs.Faults.{fault_of_device};

    ghost from_gives = { λ error fault. fault ≡ fault_of_device error };

    fn from(error: DeviceError) -> SessionFault {
        match error {
            DeviceError::Failed => SessionFault::DeviceFault,
            DeviceError::NoMemory => SessionFault::NoMemory,
        }
    }
}

impl From<ShelfError> for SessionFault {
    ghost use Rattle.std.specs.Prelude.{◌≡◌};
    ghost use Rattle.rocks_session.specs.Faults.{fault_of_shelf};

    ghost from_gives = { λ error fault. fault ≡ fault_of_shelf error };

    fn from(error: ShelfError) -> SessionFault {
        match error {
            ShelfError::Failed => SessionFault::ShelfFault,
            ShelfError::NoMemory => SessionFault::NoMemory,
        }
    }
}

impl From<AllocError> for SessionFault {
    ghost use Rattle.std.specs.Prelude.{◌≡◌};
    ghost use Rattle.rocks_session.specs.declared.fault.SessionFault.TheVariants.{NoMemory};

    ghost from_gives = { λ _ fault. fault ≡ NoMemory };

    fn from(_: AllocError) -> SessionFault {
        SessionFault::NoMemory
    }
}

impl<T: Drop> From<AllocFailed<T>> for SessionFault {
    ghost use Rattle.std.specs.Prelude.{◌≡◌};
    ghost use Rattle.rocks_session.specs.declared.fault.SessionFault.TheVariants.{NoMemory};

    ghost from_gives = { λ _ fault. fault ≡ NoMemory };

    fn from(_: AllocFailed<T>) -> SessionFault {
        SessionFault::NoMemory
    }
}
