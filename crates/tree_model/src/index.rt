ghost use Rattle.std.specs.Prelude.{◌≡◌, ◌↔◌, [], Contains, IfOk, IsTrue, OnOk, OnErr};
ghost use Rattle.providers.specs.Lists.{AreProviders};
ghost use Rattle.tree_model.specs.Held.{changed, pairs_of};
ghost use Rattle.tree_sets.specs.Places.{place_of};
ghost use Rattle.tree_sets.specs.Sets.{entries_of, keys_in, IsIndex};
ghost use Rattle.tree_sets.specs.View.{view_of};

use crate::changes::{changed, copied_entries, has_key};
use crate::pairs::sorted_pairs;
use crate::view::view;
use manifest_text::ManifestView;
use providers::Providers;
use rock_record::Rock;
use rocks_text::{Item, TreePath};
use rocks_version::{RockKey, before};
use std::alloc::{AllocError, Global};
use std::marker::Model;
use tree_paths::{plain, versioned};
use tree_sets::IndexEntry;

/// The rocks of a tree without the bytes of their files, in the order in which rocks are listed. Their files can stand
/// beside each other in a tree. A contract sees the list of the rocks. Beside them it keeps which rocks have which items,
/// so that an item's holder is found fast (this project's own).
#[derive(Debug, Drop)]
pub struct Index {
    alloc: Global,
    entries: Vec<IndexEntry>,
    providers: Providers,
}

impl Model for Index {
    ghost use Rattle.std.specs.Prelude.{List};
    ghost use Rattle.tree_model.specs.Held.{IsHeld};
    ghost use Rattle.tree_sets.specs.declared.entry.IndexEntry.{IndexEntry};

    ghost Value = { List IndexEntry };

    ghost view = { λ i. i.entries.items };

    ghost invariant = { λ i. IsHeld i.entries.items i.providers };
}

impl Index {
    /// The index of no rock, which will take its memory from `alloc`. This takes none.
    pub fn new(alloc: Global) -> Index
        ensures { result ≡ [] }
    {
        Index {
            alloc,
            entries: Vec::new(alloc),
            providers: Providers::new(alloc),
        }
    }

    /// The index of rocks that stand in their order. The only error is want of memory.
    pub fn of_entries(alloc: Global, entries: Vec<IndexEntry>) -> Result<Index, AllocError>
        requires { IsIndex entries.items }
        ensures { IfOk result (λ index. index ≡ entries.items) }
    {
        let providers = providers_of(alloc, &entries)?;
        Ok(Index {
            alloc,
            entries,
            providers,
        })
    }

    /// The rocks, in the order in which they are listed. It takes no memory.
    pub fn entries(&self) -> &[IndexEntry]
        ensures value { result.now ≡ self.now }
        ensures index { IsIndex self.now }
    {
        &self.entries
    }

    /// Whether a rock is there. It takes no memory.
    pub fn holds(&self, key: &RockKey) -> bool
        ensures { IsTrue result ↔ Contains (keys_in self.now) key.now }
    {
        has_key(&self.entries, key)
    }

    /// Takes rocks away, and adds others in any order. The new set's files can stand beside each other, and it has each
    /// rock once. The only error is want of memory; then the index is as it was.
    pub fn apply(&mut self, added: &[Rock], removed: &[RockKey]) -> Result<(), AllocError>
        requires { IsIndex (changed (entries_of added.now) removed.now self.old) }
        ensures ok { OnOk result
            (self.new ≡ changed (entries_of added.now) removed.now self.old) }
        ensures err { OnErr result (self.new ≡ self.old) }
    {
        let entries = changed(self.alloc, &self.entries, added, removed)?;
        let providers = providers_of(self.alloc, &entries)?;
        self.entries = entries;
        self.providers = providers;
        Ok(())
    }

    /// Where a rock's item stands in the tree: at its plain path where the rock is the first that has the item, and
    /// else at its versioned one. The only error is want of memory.
    pub fn place(&self, alloc: Global, key: &RockKey, item: &Item) -> Result<TreePath, AllocError>
        ensures { IfOk result (λ path. path ≡ place_of self.now key.now item.now) }
    {
        match self.providers.first(item) {
            Some(first) if first == key => plain(alloc, item),
            _ => versioned(alloc, item, key),
        }
    }

    /// What the tree's manifest says. The only error is want of memory.
    pub fn view(&self, alloc: Global) -> Result<ManifestView, AllocError>
        ensures { IfOk result (λ whole. whole ≡ view_of self.now) }
    {
        view(alloc, &self.entries, &self.providers)
    }

    /// An equal index. The only error is want of memory.
    pub fn copy(&self, alloc: Global) -> Result<Index, AllocError>
        ensures { IfOk result (λ copied. copied ≡ self.now) }
    {
        Index::of_entries(alloc, copied_entries(alloc, &self.entries)?)
    }
}

// For each item the rocks that have it. Items are put in their order first, so that each stands behind those before.
fn providers_of(alloc: Global, entries: &[IndexEntry]) -> Result<Providers, AllocError>
    requires { IsIndex entries.now }
    ensures { IfOk result (λ providers. AreProviders (pairs_of entries.now) providers) }
{
    let mut providers = Providers::new(alloc);
    let pairs = sorted_pairs(alloc, entries)?;
    for (item, key) in &pairs {
        providers.insert(item, key)?;
    }
    Ok(providers)
}
