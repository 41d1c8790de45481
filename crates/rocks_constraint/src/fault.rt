ghost use Rattle.std.specs.Prelude.{◌≡◌};
ghost use Rattle.rocks_constraint.specs.declared.fault.DependencyFault.TheVariants.{NoMemory};

use std::alloc::AllocError;

/// Why a text was not taken as a dependency (this project's own). It tells the first part that is wrong. Places are
/// counted in bytes from 0, and are 1,000 at most.
#[derive(Clone, Copy, Debug, PartialEq, Eq)]
pub enum DependencyFault {
    /// A run of operator bytes where an operator may stand that is none. The place is that of its first byte.
    BadOperator { place: u32 },
    /// Anything else. The place is that of the first byte that doesn't fit: of a run that is no name, its first byte;
    /// of one that is no version, where that version's fault lies; where the text ends before a name or a version, its
    /// length; and 1,000 in a text that is too long and has nothing wrong before that.
    BadDependency { place: u32 },
    /// Memory ran out.
    NoMemory,
}

impl From<AllocError> for DependencyFault {
    ghost from_gives = { λ _ fault. fault ≡ NoMemory };

    fn from(_: AllocError) -> DependencyFault {
        DependencyFault::NoMemory
    }
}
