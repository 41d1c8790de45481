ghost use Rattle.std.specs.Prelude.{◌↔◌, IsTrue};
ghost use Rattle.std.specs.IoError.{error_kind};
ghost use Rattle.disk_paths.specs.Faults.{IsAbsence};

use rocks_outside::{DeviceError, ShelfError};
use std::alloc::{AllocError, AllocFailed};
use std::io;

/// Why something on the disk was not done.
#[derive(Clone, Copy, Debug, PartialEq, Eq)]
pub enum DiskError {
    /// The file system failed, or something stands there that is neither a plain file nor a folder.
    Failed,
    /// Memory ran out before anything was changed.
    NoMemory,
}

impl From<AllocError> for DiskError {
    ghost use Rattle.std.specs.Prelude.{◌≡◌};
    ghost use Rattle.disk_paths.specs.declared.fault.DiskError.TheVariants.{NoMemory};

    ghost from_gives = { λ _ error. error ≡ NoMemory };

    fn from(_: AllocError) -> DiskError {
        DiskError::NoMemory
    }
}

impl<T: Drop> From<AllocFailed<T>> for DiskError {
    ghost use Rattle.std.specs.Prelude.{◌≡◌};
    ghost use Rattle.disk_paths.specs.declared.fault.DiskError.TheVariants.{NoMemory};

    ghost from_gives = { λ _ error. error ≡ NoMemory };

    fn from(_: AllocFailed<T>) -> DiskError {
        DiskError::NoMemory
    }
}

impl From<io::Error> for DiskError {
    ghost use Rattle.std.specs.Prelude.{◌≡◌};
    ghost use Rattle.disk_paths.specs.Faults.{disk_error};

    ghost from_gives = { λ error other. other ≡ disk_error error };

    fn from(error: io::Error) -> DiskError {
        match error.kind() {
            io::ErrorKind::OutOfMemory => DiskError::NoMemory,
            _ => DiskError::Failed,
        }
    }
}

impl From<DiskError> for DeviceError {
    ghost use Rattle.std.specs.Prelude.{◌≡◌};
    ghost use Rattle.disk_paths.specs.Faults.{device_error};

    ghost from_gives = { λ error other. other ≡ device_error error };

    fn from(error: DiskError) -> DeviceError {
        match error {
            DiskError::Failed => DeviceError::Failed,
            DiskError::NoMemory => DeviceError::NoMemory,
        }
    }
}

impl From<DiskError> for ShelfError {
    ghost use Rattle.std.specs.Prelude.{◌≡◌};
    ghost use Rattle.disk_paths.specs.Faults.{shelf_error};

    ghost from_gives = { λ error other. other ≡ shelf_error error };

    fn from(error: DiskError) -> ShelfError {
        match error {
            DiskError::Failed => ShelfError::Failed,
            DiskError::NoMemory => ShelfError::NoMemory,
        }
    }
}

/// Whether an error says that nothing stands at a path.
pub fn is_absence(error: &io::Error) -> bool
    ensures { IsTrue result ↔ IsAbsence (error_kind error.now) }
{
    matches!(
        error.kind(),
        io::ErrorKind::NotFound | io::ErrorKind::NotADirectory
    )
}
