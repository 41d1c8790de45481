ghost use Rattle.std.specs.Prelude.{◌≡◌};
ghost use Rattle.tree_manifest.specs.declared.fault.ManifestFault.TheVariants.{NoMemory};

use std::alloc::AllocError;

/// Why a text was not taken as a manifest (this project's own).
#[derive(Clone, Copy, Debug, PartialEq, Eq)]
pub enum ManifestFault {
    /// It is the text of no manifest.
    NotCanonical,
    /// Memory ran out.
    NoMemory,
}

impl From<AllocError> for ManifestFault {
    ghost from_gives = { λ _ fault. fault ≡ NoMemory };

    fn from(_: AllocError) -> ManifestFault {
        ManifestFault::NoMemory
    }
}
