//! How the rocks of an index change.
ghost use Rattle.std.specs.Prelude.{◌≡◌, IfOk, OnOk};
ghost use Rattle.std.specs.List.{list_any, position_or_len};
ghost use Rattle.rocks_version.specs.Keys.{is_before};
ghost use Rattle.tree_claims.specs.Rocks.{is_same_rock};
ghost use Rattle.tree_model.specs.Held.{changed, is_among, with_entry, without};
ghost use Rattle.tree_sets.specs.Sets.{entries_of};

use rock_record::Rock;
use rocks_version::{RockKey, before};
use std::alloc::{AllocError, Global};
use tree_sets::IndexEntry;

/// The rocks without some and with others, each of which is put at its place in the order of rocks. The only error is
/// want of memory.
pub fn changed(
    alloc: Global,
    entries: &[IndexEntry],
    added: &[Rock],
    removed: &[RockKey],
) -> Result<Vec<IndexEntry>, AllocError>
    ensures { IfOk result (λ made. made.items
        ≡ changed (entries_of added.now) removed.now entries.now) }
{
    let mut made = kept(alloc, entries, removed)?;
    for rock in added {
        put(&mut made, IndexEntry::of_rock(alloc, rock)?)?;
    }
    Ok(made)
}

/// Equal entries. The only error is want of memory.
pub fn copied_entries(alloc: Global, entries: &[IndexEntry]) -> Result<Vec<IndexEntry>, AllocError>
    ensures { IfOk result (λ copied. copied.items ≡ entries.now) }
{
    let mut copied = Vec::new(alloc);
    for entry in entries {
        copied.push(entry.copy(alloc)?)?;
    }
    Ok(copied)
}

/// Whether a rock is there.
pub fn has_key(entries: &[IndexEntry], key: &RockKey) -> bool
    ensures { result ≡ list_any (λ entry. is_same_rock entry.key key.now) entries.now }
{
    entries.iter().any(|entry| is_same_rock(&entry.key, key))
}

// Copies of the rocks without some.
fn kept(
    alloc: Global,
    entries: &[IndexEntry],
    removed: &[RockKey],
) -> Result<Vec<IndexEntry>, AllocError>
    ensures { IfOk result (λ copied. copied.items ≡ without removed.now entries.now) }
{
    let mut copied = Vec::new(alloc);
    for entry in entries {
        if !is_among(removed, &entry.key) {
            copied.push(entry.copy(alloc)?)?;
        }
    }
    Ok(copied)
}

fn is_among(keys: &[RockKey], key: &RockKey) -> bool
    ensures { result ≡ is_among keys.now key.now }
{
    keys.iter().any(|other| is_same_rock(key, other))
}

#[tactic(auto, using(tree_claims::proofs::Entries::same_rock_is))]
fn is_same_rock(left: &RockKey, right: &RockKey) -> bool
    ensures { result ≡ is_same_rock left.now right.now }
{
    left == right
}

// Puts a rock before those that it is listed before. The only error is want of memory.
fn put(entries: &mut Vec<IndexEntry>, entry: IndexEntry) -> Result<(), AllocError>
    ensures { OnOk result (entries.new.items ≡ with_entry entry entries.old.items) }
{
    let at = count_before(entries, &entry.key);
    entries.insert(at, entry)?;
    Ok(())
}

// How many rocks stand before one that is added.
fn count_before(entries: &[IndexEntry], key: &RockKey) -> usize
    ensures { result ≡ position_or_len (λ entry. is_before key.now entry.key) entries.now }
{
    entries
        .iter()
        .take_while(|entry| !before(key, &entry.key))
        .count()
}
