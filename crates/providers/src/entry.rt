ghost use Rattle.std.specs.Prelude.{◌≡◌, ◌∷◌, [], IfOk, length};
ghost use Rattle.std.specs.List.Sorted.{IsBinarySearchResult, IsSearchInRange};
ghost use Rattle.rocks_text.specs.Items.{item_cmp};
ghost use Rattle.rocks_version.specs.Keys.{listing_cmp};

use rocks_text::Item;
use rocks_version::{RockKey, listing};
use std::alloc::{AllocError, Global};
use std::marker::Model;

/// An item with the rocks that have it, in the order in which rocks are listed.
#[derive(Debug, Drop)]
pub struct Entry {
    pub item: Item,
    pub rocks: Vec<RockKey>,
}

impl Model for Entry {
    ghost use Rattle.std.specs.Prelude.{List};
    ghost use Rattle.rocks_text.specs.declared.item.Item.{Item};
    ghost use Rattle.rocks_version.specs.declared.key.RockKey.{RockKey};

    ghost Value = { Item × List RockKey };

    ghost view = { λ e. (e.item, e.rocks.items) };
}

impl Entry {
    /// An item that one rock has. The only error is want of memory.
    pub fn of_one(alloc: Global, item: &Item, key: &RockKey) -> Result<Entry, AllocError>
        ensures { IfOk result (λ entry. entry ≡ (item.now, key.now ∷ [])) }
    {
        let mut rocks = Vec::new(alloc);
        rocks.push(key.copy(alloc)?)?;
        Ok(Entry {
            item: item.copy(alloc)?,
            rocks,
        })
    }
}

/// Where an item stands among entries, or would stand.
pub fn item_place(entries: &[Entry], item: &Item) -> Result<usize, usize>
    ensures bound { IsSearchInRange result (length entries.now) }
    ensures place { IsBinarySearchResult (λ entry. item_cmp entry.0 item.now) entries.now result }
{
    entries.binary_search_by(|entry| entry.item.cmp(item))
}

/// Where a rock stands among rocks, or would stand.
pub fn rock_place(rocks: &[RockKey], key: &RockKey) -> Result<usize, usize>
    ensures bound { IsSearchInRange result (length rocks.now) }
    ensures place { IsBinarySearchResult (λ rock. listing_cmp rock key.now) rocks.now result }
{
    rocks.binary_search_by(|rock| listing(rock, key))
}
