ghost use Rattle.std.specs.Prelude.{◌≡◌};
ghost use Rattle.rocks_version.specs.declared.fault.VersionFault.TheVariants.{NoMemory};

use std::alloc::AllocError;

/// Why a text was not taken as a version (this project's own). Places are counted in bytes from 0; one above
/// 4,294,967,295 is told as that.
#[derive(Clone, Copy, Debug, PartialEq, Eq)]
pub enum VersionFault {
    /// It has not the form of a version. The place is that of the first byte that no version has, else that of the
    /// byte behind the 40th, else that of a first byte that is no letter or digit; 0 in an empty text.
    BadVersion { place: u32 },
    /// It has the form of a version, but a number or the revision has more than 18 digits. The place is that of the
    /// first digit of the first such number.
    NumberTooLong { place: u32 },
    /// Memory ran out.
    NoMemory,
}

impl From<AllocError> for VersionFault {
    ghost from_gives = { λ _ fault. fault ≡ NoMemory };

    fn from(_: AllocError) -> VersionFault {
        VersionFault::NoMemory
    }
}
