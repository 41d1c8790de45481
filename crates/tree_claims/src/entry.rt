ghost use Rattle.std.specs.Prelude.{◌≡◌, ◌↔◌, true, false, map, IfOk, IsTrue};
ghost use Rattle.tree_paths.specs.Places.{plain_path, versioned_path};
ghost use Rattle.tree_claims.specs.Claims.{claims_of, claims_of_rock};
ghost use Rattle.tree_claims.specs.Index.{entry_of, may_stand, Hits, IsIndex};

use rocks_text::{Item, TreePath};
use rocks_version::RockKey;
use sqlite_items::Items;
use std::alloc::{AllocError, Global};
use tree_paths::{conflict, plain, versioned};

/// A path that a rock claims.
#[derive(Debug, Drop)]
pub struct Entry {
    pub path: TreePath,
    pub key: RockKey,
    /// Whether it is the plain path of its item, and not the versioned one.
    pub is_plain: bool,
}

impl Entry {
    /// An equal entry. The only error is want of memory.
    pub fn copy(&self, alloc: Global) -> Result<Entry, AllocError>
        ensures { IfOk result (λ copied. copied ≡ self.now) }
    {
        Ok(Entry {
            path: self.path.copy(alloc)?,
            key: self.key.copy(alloc)?,
            is_plain: self.is_plain,
        })
    }
}

/// The entries of a rock's claims. The only error is want of memory.
pub fn entries(alloc: Global, key: &RockKey, items: &[Item]) -> Result<Vec<Entry>, AllocError>
    ensures { IfOk result
        (λ entries. IsIndex (claims_of_rock key.now items.now) entries.items) }
{
    let mut entries = unsorted(alloc, key, items)?;
    entries.sort_by(|left, right| left.path.cmp(&right.path))?;
    Ok(entries)
}

/// The entries of the claims of rocks. The only error is want of memory.
pub fn entries_of(alloc: Global, rocks: &[(RockKey, Items<Item>)]) -> Result<Vec<Entry>, AllocError>
    ensures { IfOk result (λ entries. IsIndex (claims_of rocks.now) entries.items) }
{
    let mut entries = unsorted_of(alloc, rocks)?;
    entries.sort_by(|left, right| left.path.cmp(&right.path))?;
    Ok(entries)
}

fn unsorted(alloc: Global, key: &RockKey, items: &[Item]) -> Result<Vec<Entry>, AllocError>
    ensures { IfOk result
        (λ entries. entries.items ≡ map entry_of (claims_of_rock key.now items.now)) }
{
    let mut entries = Vec::new(alloc);
    for item in items {
        entries.push(plain_entry(alloc, key, item)?)?;
        entries.push(versioned_entry(alloc, key, item)?)?;
    }
    Ok(entries)
}

fn unsorted_of(alloc: Global, rocks: &[(RockKey, Items<Item>)]) -> Result<Vec<Entry>, AllocError>
    ensures { IfOk result (λ entries. entries.items ≡ map entry_of (claims_of rocks.now)) }
{
    let mut entries = Vec::new(alloc);
    for (key, items) in rocks {
        let mut more = unsorted(alloc, key, items.as_slice())?;
        entries.append(&mut more)?;
    }
    Ok(entries)
}

fn plain_entry(alloc: Global, key: &RockKey, item: &Item) -> Result<Entry, AllocError>
    ensures { IfOk result (λ entry. entry
        ≡ record { path = plain_path item.now; key = key.now; is_plain = true }) }
{
    Ok(Entry {
        path: plain(alloc, item)?,
        key: key.copy(alloc)?,
        is_plain: true,
    })
}

fn versioned_entry(alloc: Global, key: &RockKey, item: &Item) -> Result<Entry, AllocError>
    ensures { IfOk result (λ entry. entry
        ≡ record { path = versioned_path item.now key.now; key = key.now; is_plain = false }) }
{
    Ok(Entry {
        path: versioned(alloc, item, key)?,
        key: key.copy(alloc)?,
        is_plain: false,
    })
}

/// Whether the claims of two entries can't stand beside each other.
pub fn is_hit(mine: &Entry, other: &Entry) -> bool
    ensures { IsTrue result ↔ Hits mine.now other.now }
{
    conflict(&mine.path, &other.path) && !may_stand(mine, other)
}

/// Whether two entries of one path may stand beside each other.
#[tactic(auto, using(crate::proofs::Entries::may_stand_is))]
pub fn may_stand(left: &Entry, right: &Entry) -> bool
    ensures { result ≡ may_stand left.now right.now }
{
    if left.path != right.path {
        return false;
    }
    if left.is_plain {
        right.is_plain
    } else {
        !right.is_plain && left.key == right.key
    }
}
