ghost use Rattle.std.specs.Prelude.{◌≡◌, IfOk};

use rocks_constraint::Dependency;
use rocks_text::FilePath;
use rocks_version::RockKey;
use sqlite_items::Items;
use std::alloc::{AllocError, Global};

/// What the manifest of a tree says of the rocks that are installed in it (LuaRocks's tree manifest).
#[derive(Debug, Drop)]
pub struct ManifestView {
    /// For each path of a command the rocks that have it.
    pub commands: Items<(FilePath, Items<RockKey>)>,
    /// The same for compiled modules.
    pub libs: Items<(FilePath, Items<RockKey>)>,
    /// The same for Lua modules.
    pub modules: Items<(FilePath, Items<RockKey>)>,
    pub rocks: Items<ViewRock>,
}

/// A rock that is installed, and for each of its dependencies the rock that meets it.
#[derive(Debug, Drop)]
pub struct ViewRock {
    pub key: RockKey,
    pub dependencies: Items<(Dependency, RockKey)>,
}

impl ManifestView {
    /// An equal view. The only error is want of memory.
    pub fn copy(&self, alloc: Global) -> Result<ManifestView, AllocError>
        ensures { IfOk result (λ copied. copied ≡ self.now) }
    {
        Ok(ManifestView {
            commands: copied_provided(alloc, self.commands.as_slice())?,
            libs: copied_provided(alloc, self.libs.as_slice())?,
            modules: copied_provided(alloc, self.modules.as_slice())?,
            rocks: copied_rocks(alloc, self.rocks.as_slice())?,
        })
    }
}

impl ViewRock {
    /// An equal rock. The only error is want of memory.
    pub fn copy(&self, alloc: Global) -> Result<ViewRock, AllocError>
        ensures { IfOk result (λ copied. copied ≡ self.now) }
    {
        let mut dependencies = Items::new(alloc);
        for (dependency, met) in self.dependencies.as_slice() {
            dependencies.push((dependency.copy(alloc)?, met.copy(alloc)?))?;
        }
        Ok(ViewRock {
            key: self.key.copy(alloc)?,
            dependencies,
        })
    }
}

fn copied_provided(
    alloc: Global,
    provided: &[(FilePath, Items<RockKey>)],
) -> Result<Items<(FilePath, Items<RockKey>)>, AllocError>
    ensures { IfOk result (λ copied. copied ≡ provided.now) }
{
    let mut copied = Items::new(alloc);
    for (path, rocks) in provided {
        copied.push((path.copy(alloc)?, copied_keys(alloc, rocks.as_slice())?))?;
    }
    Ok(copied)
}

fn copied_keys(alloc: Global, keys: &[RockKey]) -> Result<Items<RockKey>, AllocError>
    ensures { IfOk result (λ copied. copied ≡ keys.now) }
{
    let mut copied = Items::new(alloc);
    for key in keys {
        copied.push(key.copy(alloc)?)?;
    }
    Ok(copied)
}

fn copied_rocks(alloc: Global, rocks: &[ViewRock]) -> Result<Items<ViewRock>, AllocError>
    ensures { IfOk result (λ copied. copied ≡ rocks.now) }
{
    let mut copied = Items::new(alloc);
    for rock in rocks {
        copied.push(rock.copy(alloc)?)?;
    }
    Ok(copied)
}
