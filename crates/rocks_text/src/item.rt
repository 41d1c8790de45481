ghost use Rattle.std.specs.Prelude.{◌≡◌, IfOk};

use crate::FilePath;
use std::alloc::{AllocError, Global};

/// Where a file of a rock is deployed: among the Lua modules, the compiled modules or the commands.
#[derive(Clone, Copy, Debug, PartialEq, Eq, PartialOrd, Ord)]
pub enum Kind {
    Lua,
    Lib,
    Bin,
}

/// A file that a rock deploys, ordered by kind and then by path (this project's own).
#[derive(Debug, PartialEq, Eq, PartialOrd, Ord, Drop)]
pub struct Item {
    pub kind: Kind,
    /// The path below the kind's place.
    pub path: FilePath,
}

impl Item {
    /// An equal item. The only error is want of memory.
    pub fn copy(&self, alloc: Global) -> Result<Item, AllocError>
        ensures { IfOk result (λ copied. copied ≡ self.now) }
    {
        Ok(Item {
            kind: self.kind,
            path: self.path.copy(alloc)?,
        })
    }
}
