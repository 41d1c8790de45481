ghost use Rattle.std.specs.Prelude.{◌≡◌, map, IfOk};
ghost use Rattle.tree_sets.specs.Sets.{entry_of};

use rock_record::{Rock, copied_dependencies};
use rocks_bytes::Bytes;
use rocks_constraint::Dependency;
use rocks_text::{FilePath, Item};
use rocks_version::RockKey;
use sqlite_items::Items;
use std::alloc::{AllocError, Global};

/// What a tree's index keeps of a rock: all but the bytes of its files.
#[derive(Debug, Drop)]
pub struct IndexEntry {
    pub key: RockKey,
    pub dependencies: Items<Dependency>,
    /// The files that it deploys.
    pub items: Items<Item>,
    /// The files that stay in its own folder, without the rockspec and the record.
    pub own: Items<FilePath>,
}

impl IndexEntry {
    /// The entry of a rock. The only error is want of memory.
    pub fn of_rock(alloc: Global, rock: &Rock) -> Result<IndexEntry, AllocError>
        ensures { IfOk result (λ entry. entry ≡ entry_of rock.now) }
    {
        Ok(IndexEntry {
            key: rock.key.copy(alloc)?,
            dependencies: copied_dependencies(alloc, rock.dependencies.as_slice())?,
            items: items_of(alloc, rock.items.as_slice())?,
            own: own_of(alloc, rock.own.as_slice())?,
        })
    }

    /// An equal entry. The only error is want of memory.
    pub fn copy(&self, alloc: Global) -> Result<IndexEntry, AllocError>
        ensures { IfOk result (λ copied. copied ≡ self.now) }
    {
        Ok(IndexEntry {
            key: self.key.copy(alloc)?,
            dependencies: copied_dependencies(alloc, self.dependencies.as_slice())?,
            items: copied_items(alloc, self.items.as_slice())?,
            own: copied_own(alloc, self.own.as_slice())?,
        })
    }
}

fn items_of(alloc: Global, files: &[(Item, Bytes)]) -> Result<Items<Item>, AllocError>
    ensures { IfOk result (λ items. items ≡ map (λ file. file.0) files.now) }
{
    let mut items = Items::new(alloc);
    for (item, _) in files {
        items.push(item.copy(alloc)?)?;
    }
    Ok(items)
}

fn own_of(alloc: Global, files: &[(FilePath, Bytes)]) -> Result<Items<FilePath>, AllocError>
    ensures { IfOk result (λ own. own ≡ map (λ file. file.0) files.now) }
{
    let mut own = Items::new(alloc);
    for (path, _) in files {
        own.push(path.copy(alloc)?)?;
    }
    Ok(own)
}

fn copied_items(alloc: Global, items: &[Item]) -> Result<Items<Item>, AllocError>
    ensures { IfOk result (λ copied. copied ≡ items.now) }
{
    let mut copied = Items::new(alloc);
    for item in items {
        copied.push(item.copy(alloc)?)?;
    }
    Ok(copied)
}

fn copied_own(alloc: Global, own: &[FilePath]) -> Result<Items<FilePath>, AllocError>
    ensures { IfOk result (λ copied. copied ≡ own.now) }
{
    let mut copied = Items::new(alloc);
    for path in own {
        copied.push(path.copy(alloc)?)?;
    }
    Ok(copied)
}
