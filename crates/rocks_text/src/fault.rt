ghost use Rattle.std.specs.Prelude.{◌≡◌};
ghost use Rattle.rocks_text.specs.declared.fault.TextFault.TheVariants.{NoMemory};

use std::alloc::AllocError;

/// Why a text was not taken as a name or a path.
#[derive(Clone, Copy, Debug, PartialEq, Eq)]
pub enum TextFault {
    /// It is no name of a package.
    BadName,
    /// It is no path.
    BadPath,
    /// Memory ran out.
    NoMemory,
}

impl From<AllocError> for TextFault {
    ghost from_gives = { λ _ fault. fault ≡ NoMemory };

    fn from(_: AllocError) -> TextFault {
        TextFault::NoMemory
    }
}
