ghost use Rattle.std.specs.Prelude.{◌≡◌, ◌∷◌, ◌++◌, IfOk};
ghost use Rattle.rock_files.specs.Texts.{build_fault_text};

use rocks_bytes::Bytes;
use rocks_outside::ShelfError;
use rocks_text::FilePath;
use std::alloc::{AllocError, AllocFailed, Global};

/// Why a rock can't be made from the files of a folder. Paths are relative to it.
#[derive(Debug, Drop)]
pub enum BuildFault {
    /// The recipe names something, and the source folder has no file.
    NoSourceFolder,
    /// A file isn't there, or a named folder has no file.
    MissingFile(FilePath),
    /// The file is too long, or with it the rock has too many files or too many bytes.
    TooLarge(FilePath),
    /// A file of an unpacked rock stands below the place of its record or of its rockspec.
    BadTarget(FilePath),
    /// The shelf failed.
    ShelfFault,
    /// Memory ran out.
    NoMemory,
}

impl BuildFault {
    /// The fault as replies tell it: its name, and the path. The only error is want of memory.
    pub fn text(&self, alloc: Global) -> Result<Bytes, AllocError>
        ensures { IfOk result (λ text. text ≡ build_fault_text self.now) }
    {
        match self {
            BuildFault::NoSourceFolder => Ok(Bytes::from(b"NoSourceFolder".to_vec(alloc)?)),
            BuildFault::MissingFile(path) => named(alloc, "MissingFile", path),
            BuildFault::TooLarge(path) => named(alloc, "TooLarge", path),
            BuildFault::BadTarget(path) => named(alloc, "BadTarget", path),
            BuildFault::ShelfFault => Ok(Bytes::from(b"ShelfFault".to_vec(alloc)?)),
            BuildFault::NoMemory => Ok(Bytes::from(b"NoMemory".to_vec(alloc)?)),
        }
    }
}

// A name, a blank and a path.
fn named(alloc: Global, name: &str, path: &FilePath) -> Result<Bytes, AllocError>
    ensures { IfOk result (λ text. text ≡ name.now ++ 32 ∷ path.now) }
{
    let path = path.as_str();
    Ok(Bytes::from(format!(in alloc; "{name} {path}")?.into_bytes()))
}

impl From<ShelfError> for BuildFault {
    ghost use Rattle.std.specs.Prelude.{◌≡◌};
    ghost use Rattle.rock_files.specs.Faults.{fault_of_shelf};

    ghost from_gives = { λ error fault. fault ≡ fault_of_shelf error };

    fn from(error: ShelfError) -> BuildFault {
        match error {
            ShelfError::Failed => BuildFault::ShelfFault,
            ShelfError::NoMemory => BuildFault::NoMemory,
        }
    }
}

impl From<AllocError> for BuildFault {
    ghost use Rattle.std.specs.Prelude.{◌≡◌};
    ghost use Rattle.rock_files.specs.declared.fault.BuildFault.TheVariants.{NoMemory};

    ghost from_gives = { λ _ fault. fault ≡ NoMemory };

    fn from(_: AllocError) -> BuildFault {
        BuildFault::NoMemory
    }
}

impl<T: Drop> From<AllocFailed<T>> for BuildFault {
    ghost use Rattle.std.specs.Prelude.{◌≡◌};
    ghost use Rattle.rock_files.specs.declared.fault.BuildFault.TheVariants.{NoMemory};

    ghost from_gives = { λ _ fault. fault ≡ NoMemory };

    fn from(_: AllocFailed<T>) -> BuildFault {
        BuildFault::NoMemory
    }
}
