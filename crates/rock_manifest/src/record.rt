ghost use Rattle.std.specs.Prelude.{◌≡◌, IfOk};

use rocks_text::{FilePath, Item};
use sqlite_items::Items;
use std::alloc::{AllocError, Global};

/// The files of a rock, each with the digest of its bytes (LuaRocks; the digest is an MD5).
#[derive(Debug, Drop)]
pub struct Record {
    /// The files that the rock deploys.
    pub items: Items<(Item, [u8; 16])>,
    /// The files that stay in the rock's own folder, its rockspec among them.
    pub own: Items<(FilePath, [u8; 16])>,
}

impl Record {
    /// An equal record. The only error is want of memory.
    pub fn copy(&self, alloc: Global) -> Result<Record, AllocError>
        ensures { IfOk result (λ copied. copied ≡ self.now) }
    {
        Ok(Record {
            items: copied_items(alloc, self.items.as_slice())?,
            own: copied_files(alloc, self.own.as_slice())?,
        })
    }
}

fn copied_items(
    alloc: Global,
    items: &[(Item, [u8; 16])],
) -> Result<Items<(Item, [u8; 16])>, AllocError>
    ensures { IfOk result (λ copied. copied ≡ items.now) }
{
    let mut copied = Items::new(alloc);
    for (item, digest) in items {
        copied.push((item.copy(alloc)?, *digest))?;
    }
    Ok(copied)
}

fn copied_files(
    alloc: Global,
    files: &[(FilePath, [u8; 16])],
) -> Result<Items<(FilePath, [u8; 16])>, AllocError>
    ensures { IfOk result (λ copied. copied ≡ files.now) }
{
    let mut copied = Items::new(alloc);
    for (path, digest) in files {
        copied.push((path.copy(alloc)?, *digest))?;
    }
    Ok(copied)
}
