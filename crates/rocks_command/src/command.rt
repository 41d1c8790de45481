ghost use Rattle.std.specs.Prelude.{◌≡◌, IfOk};

use rocks_bytes::Text;
use rocks_text::{FilePath, Name};
use rocks_version::{RockKey, Version};
use sqlite_items::Items;
use std::alloc::{AllocError, Global};

/// What `rocks` is asked to do.
#[derive(Debug, Drop)]
pub enum Command {
    /// Take the rock of an unpacked rock's folder into the tree. Its version is one that a rock may have.
    Add(RockKey),
    /// Build a rock from the sources beside its rockspec on the earliest server that has it, into the tree. Its version
    /// is one that a rock may have.
    Install(RockKey),
    /// Tell the format of a rock's rockspec on the earliest server that has it. Its version is one that a rock may
    /// have.
    Lint(RockKey),
    /// Tell the globals of the Lua text at a path of the earliest server that has it.
    Eval(FilePath),
    /// Tell how two versions compare.
    Compare(Version, Version),
}

/// A rock, or all versions of a name.
#[derive(Debug, Drop)]
pub struct Wanted {
    pub name: Name,
    pub version: Option<Version>,
}

/// Where a command works: the tree's folder and the servers' folders, in their order.
#[derive(Debug, Drop)]
pub struct RootWords {
    pub tree: Text,
    pub servers: Items<Text>,
}

impl Command {
    /// An equal command. The only error is want of memory.
    pub fn copy(&self, alloc: Global) -> Result<Command, AllocError>
        ensures { IfOk result (λ copied. copied ≡ self.now) }
    {
        match self {
            Command::Add(key) => Ok(Command::Add(key.copy(alloc)?)),
            Command::Install(key) => Ok(Command::Install(key.copy(alloc)?)),
            Command::Lint(key) => Ok(Command::Lint(key.copy(alloc)?)),
            Command::Eval(path) => Ok(Command::Eval(path.copy(alloc)?)),
            Command::Compare(left, right) => {
                Ok(Command::Compare(left.copy(alloc)?, right.copy(alloc)?))
            }
        }
    }
}

impl Wanted {
    /// An equal value. The only error is want of memory.
    pub fn copy(&self, alloc: Global) -> Result<Wanted, AllocError>
        ensures { IfOk result (λ copied. copied ≡ self.now) }
    {
        let name = self.name.copy(alloc)?;
        match &self.version {
            None => Ok(Wanted {
                name,
                version: None,
            }),
            Some(version) => Ok(Wanted {
                name,
                version: Some(version.copy(alloc)?),
            }),
        }
    }
}

impl RootWords {
    /// An equal value. The only error is want of memory.
    pub fn copy(&self, alloc: Global) -> Result<RootWords, AllocError>
        ensures { IfOk result (λ copied. copied ≡ self.now) }
    {
        let mut servers = Items::new(alloc);
        for server in self.servers.as_slice() {
            servers.push(server.copy(alloc)?)?;
        }
        Ok(RootWords {
            tree: self.tree.copy(alloc)?,
            servers,
        })
    }
}
