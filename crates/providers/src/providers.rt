ghost use Rattle.std.specs.Prelude.{◌≡◌, ◌⊎◌, ◌↔◌, ◌∷◌, [], false, List, IsTrue, OnOk, OnErr, Contains};
ghost use Rattle.std.specs.Prelude.{◌<◌, ◌^◌, drop, length, slice_get};
ghost use Rattle.std.specs.Option.{option_map};
ghost use Rattle.rocks_text.specs.declared.item.Item.{Item as AnItem};
ghost use Rattle.rocks_version.specs.declared.key.RockKey.{RockKey as ARock};
ghost use Rattle.rocks_version.specs.Keys.{listing_cmp};
ghost use Rattle.providers.specs.Lists.{rocks_of, AreProviders, AreWithout, Rises};

use crate::entry::{Entry, item_place, rock_place};
use rocks_text::Item;
use rocks_version::RockKey;
use std::alloc::{AllocError, Global};
use std::marker::Model;

/// For each item of a set of rocks the rocks that have it, in the order in which rocks are listed: names rise by their
/// bytes, and the versions of one name fall by their rank. The first of them holds the item's plain path (this project's
/// own). Items and rocks are found by binary search.
#[derive(Debug, Drop)]
pub struct Providers {
    alloc: Global,
    entries: Vec<Entry>,
}

impl Model for Providers {
    ghost use Rattle.std.specs.Prelude.{List};
    ghost use Rattle.rocks_text.specs.declared.item.Item.{Item};
    ghost use Rattle.rocks_version.specs.declared.key.RockKey.{RockKey};
    ghost use Rattle.providers.specs.Lists.{AreListed};

    ghost Value = { List (Item × List RockKey) };

    ghost view = { λ p. p.entries.items };

    ghost invariant = { λ p. AreListed p.entries.items };
}

impl Providers {
    /// No item has a rock. It takes no memory.
    pub fn new(alloc: Global) -> Providers
        ensures { result ≡ [] }
    {
        Providers {
            alloc,
            entries: Vec::new(alloc),
        }
    }

    /// Adds a rock to those that have the item, which it isn't among yet. The only error is want of memory, and it leaves
    /// everything as it was.
    pub fn insert(&mut self, item: &Item, key: &RockKey) -> Result<(), AllocError>
        requires absent { ¬ Contains (rocks_of self.old item.now) key.now }
        ensures ok { OnOk result ((pairs : List (AnItem × ARock)) → AreProviders pairs self.old
            → AreProviders ((item.now, key.now) ∷ pairs) self.new) }
        ensures err { OnErr result (self.new ≡ self.old) }
    {
        match item_place(&self.entries, item) {
            Ok(at) => insert_rock(self.alloc, &mut self.entries[at].rocks, key),
            Err(at) => {
                let entry = Entry::of_one(self.alloc, item, key)?;
                self.entries.insert(at, entry)?;
                Ok(())
            }
        }
    }

    /// Takes a rock from those that have the item, and answers whether it was among them. It takes no memory.
    pub fn remove(&mut self, item: &Item, key: &RockKey) -> bool
        ensures found { IsTrue result ↔ Contains (rocks_of self.old item.now) key.now }
        ensures value { (pairs left : List (AnItem × ARock)) → AreProviders pairs self.old
            → AreWithout (item.now, key.now) pairs left → AreProviders left self.new }
        ensures kept { result ≡ false → self.new ≡ self.old }
    {
        let Ok(at) = item_place(&self.entries, item) else {
            return false;
        };
        let rocks = self.entries[at].rocks.as_slice();
        let Ok(rock) = rock_place(rocks, key) else {
            return false;
        };
        if rocks.len() == 1 {
            self.entries.remove(at);
        } else {
            self.entries[at].rocks.remove(rock);
        }
        true
    }

    /// The first rock that has the item, which holds its plain path; None where none has it. It takes no memory.
    pub fn first(&self, item: &Item) -> Option<&RockKey>
        ensures { option_map (λ key. key.now) result ≡ slice_get (rocks_of self.now item.now) 0 }
    {
        self.rocks(item).first()
    }

    /// The rocks that have the item but for the first. It takes no memory.
    pub fn rest(&self, item: &Item) -> &[RockKey]
        ensures { result.now ≡ drop 1 (rocks_of self.now item.now) }
    {
        match self.rocks(item) {
            [] => &[],
            [_, rest @ ..] => rest,
        }
    }

    /// The item at a place in the order of items, with the rocks that have it, in the order in which rocks are listed; None
    /// behind the last. It takes no memory.
    pub fn entry(&self, at: usize) -> Option<(&Item, &[RockKey])>
        ensures value { option_map (λ e. (e.0.now, e.1.now)) result ≡ slice_get self.now at }
        ensures few { length self.now < 2 ^ 63 }
    {
        let entry = self.entries.get(at)?;
        Some((&entry.item, entry.rocks.as_slice()))
    }

    // The rocks that have the item.
    fn rocks(&self, item: &Item) -> &[RockKey]
        ensures { result.now ≡ rocks_of self.now item.now }
    {
        match item_place(&self.entries, item) {
            Ok(at) => self.entries[at].rocks.as_slice(),
            Err(_) => &[],
        }
    }
}

// Puts a rock among rocks that it isn't one of.
fn insert_rock(alloc: Global, rocks: &mut Vec<RockKey>, key: &RockKey) -> Result<(), AllocError>
    requires up { Rises listing_cmp rocks.old.items }
    requires absent { ¬ Contains rocks.old.items key.now }
    ensures up { Rises listing_cmp rocks.new.items }
    ensures ok { OnOk result ((other : ARock)
        → Contains rocks.new.items other ↔ ((other ≡ key.now) ⊎ Contains rocks.old.items other)) }
    ensures err { OnErr result (rocks.new.items ≡ rocks.old.items) }
{
    let copied = key.copy(alloc)?;
    if let Err(at) = rock_place(rocks, key) {
        rocks.insert(at, copied)?;
    }
    Ok(())
}
