ghost use Rattle.std.specs.Prelude.{◌≡◌, IfOk};

use rocks_text::TreePath;
use rocks_version::RockKey;
use std::alloc::{AllocError, Global};

/// Why a rock can't be added to a set of rocks: the least of its paths that isn't free, and the
/// first rock that has it (this project's own).
#[derive(Debug, PartialEq, Eq, Drop)]
pub struct Clash {
    /// The path of the added rock that isn't free.
    pub path: TreePath,
    /// The added rock.
    pub by: RockKey,
    /// The first rock of those with a path that can't stand beside that one. It is the added rock
    /// itself where no other has such a path.
    pub other: RockKey,
}

impl Clash {
    /// An equal clash. The only error is want of memory.
    pub fn copy(&self, alloc: Global) -> Result<Clash, AllocError>
        ensures { IfOk result (λ copied. copied ≡ self.now) }
    {
        Ok(Clash {
            path: self.path.copy(alloc)?,
            by: self.by.copy(alloc)?,
            other: self.other.copy(alloc)?,
        })
    }
}
