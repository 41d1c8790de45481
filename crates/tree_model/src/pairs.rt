//! The items of rocks, each with its rock.
ghost use Rattle.std.specs.Prelude.{◌≡◌, ◌++◌, map, IfOk, OnOk};
ghost use Rattle.std.specs.List.Sorted.{IsPermutation, IsSortedBy};
ghost use Rattle.tree_model.specs.Held.{goes_before, item_pair, pairs_of};

use rocks_text::Item;
use rocks_version::RockKey;
use std::alloc::{AllocError, Global};
use tree_sets::IndexEntry;

/// Each item of each rock with the rock, in the order of items. The only error is want of memory.
pub fn sorted_pairs(
    alloc: Global,
    entries: &[IndexEntry],
) -> Result<Vec<(Item, RockKey)>, AllocError>
    ensures same { IfOk result (λ pairs. IsPermutation (pairs_of entries.now) pairs.items) }
    ensures in_order { IfOk result (λ pairs. IsSortedBy goes_before pairs.items) }
{
    let mut pairs = pairs(alloc, entries)?;
    pairs.sort_by(|left, right| left.0.cmp(&right.0))?;
    Ok(pairs)
}

fn pairs(alloc: Global, entries: &[IndexEntry]) -> Result<Vec<(Item, RockKey)>, AllocError>
    ensures { IfOk result (λ pairs. pairs.items ≡ pairs_of entries.now) }
{
    let mut pairs = Vec::new(alloc);
    for entry in entries {
        add_pairs(alloc, &entry.key, entry.items.as_slice(), &mut pairs)?;
    }
    Ok(pairs)
}

fn add_pairs(
    alloc: Global,
    key: &RockKey,
    items: &[Item],
    pairs: &mut Vec<(Item, RockKey)>,
) -> Result<(), AllocError>
    ensures { OnOk result (pairs.new.items ≡ pairs.old.items ++ map (item_pair key.now) items.now) }
{
    for item in items {
        pairs.push((item.copy(alloc)?, key.copy(alloc)?))?;
    }
    Ok(())
}
