use std::alloc::{AllocError, AllocFailed};

/// Why a call of a device was not done.
#[derive(Clone, Copy, Debug, PartialEq, Eq)]
pub enum DeviceError {
    /// The device failed. A change may have happened, whole or in part.
    Failed,
    /// Memory ran out, and nothing has changed.
    NoMemory,
}

impl From<AllocError> for DeviceError {
    ghost use Rattle.std.specs.Prelude.{◌≡◌};
    ghost use Rattle.rocks_outside.specs.declared.fault.DeviceError.TheVariants.{NoMemory};

    ghost from_gives = { λ _ error. error ≡ NoMemory };

    fn from(_: AllocError) -> DeviceError {
        DeviceError::NoMemory
    }
}

impl<T: Drop> From<AllocFailed<T>> for DeviceError {
    ghost use Rattle.std.specs.Prelude.{◌≡◌};
    ghost use Rattle.rocks_outside.specs.declared.fault.DeviceError.TheVariants.{NoMemory};

    ghost from_gives = { λ _ error. error ≡ NoMemory };

    fn from(_: AllocFailed<T>) -> DeviceError {
        DeviceError::NoMemory
    }
}

/// Why a shelf didn't answer.
#[derive(Clone, Copy, Debug, PartialEq, Eq)]
pub enum ShelfError {
    /// The shelf failed.
    Failed,
    /// Memory ran out.
    NoMemory,
}

impl From<AllocError> for ShelfError {
    ghost use Rattle.std.specs.Prelude.{◌≡◌};
    ghost use Rattle.rocks_outside.specs.declared.fault.ShelfError.TheVariants.{NoMemory};

    ghost from_gives = { λ _ error. error ≡ NoMemory };

    fn from(_: AllocError) -> ShelfError {
        ShelfError::NoMemory
    }
}

impl<T: Drop> From<AllocFailed<T>> for ShelfError {
    ghost use Rattle.std.specs.Prelude.{◌≡◌};
    ghost use Rattle.rocks_outside.specs.declared.fault.ShelfError.TheVariants.{NoMemory};

    ghost from_gives = { λ _ error. error ≡ NoMemory };

    fn from(_: AllocFailed<T>) -> ShelfError {
        ShelfError::NoMemory
    }
}

/// Why a stream gave nothing.
#[derive(Clone, Copy, Debug, PartialEq, Eq)]
pub enum SourceError {
    /// The stream failed.
    Failed,
}
