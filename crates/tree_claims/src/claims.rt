ghost use Rattle.std.specs.Prelude.{◌≡◌, ◌<◌, ◌≤◌, ◌↔◌, List, [], ◌∷◌, length, insert};
ghost use Rattle.std.specs.Prelude.{IfOk, IsTrue, MatchOption, OnErr, OnOk};
ghost use Rattle.std.specs.List.{list_any, position_or_len};
ghost use Rattle.std.specs.Vec.{vec_len, vec_capacity};
ghost use Rattle.rocks_version.specs.Keys.{is_before};
ghost use Rattle.tree_claims.specs.Claims.{claims_of, claims_of_rock, IsClean};
ghost use Rattle.tree_claims.specs.Clashes.{IsClash};
ghost use Rattle.tree_claims.specs.Index.{AreMerged};
ghost use Rattle.tree_claims.specs.Rocks.{HasRock, IsListed, with_rock, without_rock};
ghost use Rattle.tree_claims.specs.Rocks.{in_item_order, is_same_rock};

use crate::Clash;
use crate::entry::{Entry, entries, entries_of};
use crate::search::{first_hit, first_of, hits_any, least_hit, same_path};
use rocks_text::Item;
use rocks_version::{RockKey, before};
use sqlite_items::Items;
use std::alloc::{AllocError, Global};
use std::marker::Model;

/// The paths that the rocks of a set claim in a tree: of each item its plain path and its versioned
/// one. A contract sees the rocks, each with its items, in the order in which they are listed; any
/// two of them can stand beside each other (this project's own).
#[derive(Debug, Drop)]
pub struct Claims {
    alloc: Global,
    rocks: Vec<(RockKey, Items<Item>)>,
    index: Vec<Entry>,
}

impl Model for Claims {
    ghost use Rattle.std.specs.Prelude.{List};
    ghost use Rattle.rocks_text.specs.declared.item.Item.{Item};
    ghost use Rattle.rocks_version.specs.declared.key.RockKey.{RockKey};

    ghost Value = { List (RockKey × List Item) };

    ghost use Rattle.tree_claims.specs.Index.{IsHeld};

    ghost view = { λ c. c.rocks.items };

    ghost invariant = { λ c. IsHeld c.rocks.items c.index.items };
}

impl Claims {
    /// The claims of no rock, which will take their memory from `alloc`. This takes none.
    pub fn new(alloc: Global) -> Claims
        ensures { result ≡ [] }
    {
        Claims {
            alloc,
            rocks: Vec::new(alloc),
            index: Vec::new(alloc),
        }
    }

    /// The claims of rocks that stand in their order and can stand beside each other. The only error
    /// is want of memory.
    pub fn of_rocks(alloc: Global, rocks: Vec<(RockKey, Items<Item>)>) -> Result<Claims, AllocError>
        requires listed { IsListed rocks.items }
        requires clean { IsClean rocks.items }
        ensures { IfOk result (λ claims. claims ≡ rocks.items) }
    {
        let index = entries_of(alloc, &rocks)?;
        Ok(Claims {
            alloc,
            rocks,
            index,
        })
    }

    /// Whether a rock is there. It takes no memory.
    pub fn has_rock(&self, key: &RockKey) -> bool
        ensures { IsTrue result ↔ HasRock key.now self.now }
    {
        has_rock(&self.rocks, key)
    }

    /// Adds a rock with its items, in any order. That it isn't there, `has_rock` tells, and that it
    /// can stand beside the others, `clash`. The only error is want of memory, and it leaves the
    /// claims as they were.
    pub fn add(&mut self, key: &RockKey, items: &[Item]) -> Result<(), AllocError>
        requires absent { ¬ (HasRock key.now self.old) }
        requires clean { IsClean ((key.now, items.now) ∷ self.old) }
        ensures ok { OnOk result
            (self.new ≡ with_rock key.now (in_item_order items.now) self.old) }
        ensures err { OnErr result (self.new ≡ self.old) }
    {
        let rock = (key.copy(self.alloc)?, in_order(self.alloc, items)?);
        let own = entries(self.alloc, key, items)?;
        let at = count_before(&self.rocks, key);
        self.rocks.reserve(1)?;
        merge(&mut self.index, own)?;
        put_in_room(&mut self.rocks, at, rock);
        Ok(())
    }

    /// Takes a rock away with all its claims, and answers whether it was there. It takes no memory.
    pub fn drop_rock(&mut self, key: &RockKey) -> bool
        ensures was { IsTrue result ↔ HasRock key.now self.old }
        ensures rest { self.new ≡ without_rock key.now self.old }
    {
        let was = has_rock(&self.rocks, key);
        self.rocks.retain(|rock| !is_same_rock(&rock.0, key));
        self.index.retain(|entry| !is_same_rock(&entry.key, key));
        was
    }

    /// Why a rock with these items can't be added: the least of its paths that isn't free, and the
    /// first rock that has it. `None` exactly where it can stand beside the others. The only error
    /// is want of memory.
    pub fn clash(&self, key: &RockKey, items: &[Item]) -> Result<Option<Clash>, AllocError>
        ensures clash { IfOk result (λ found. MatchOption found
            (IsClean ((key.now, items.now) ∷ self.now))
            (IsClash self.now key.now items.now)) }
        ensures listed { IsListed self.now }
        ensures clean { IsClean self.now }
    {
        let own = entries(self.alloc, key, items)?;
        let Some(first) = first_hit(self.alloc, &self.index, &own)? else {
            return Ok(None);
        };
        let mine = same_path(&own, first);
        let other = first_of(key, hits_any(mine, &own), least_hit(&self.index, mine));
        Ok(Some(Clash {
            path: own[first].path.copy(self.alloc)?,
            by: key.copy(self.alloc)?,
            other: other.copy(self.alloc)?,
        }))
    }

    /// Equal claims. The only error is want of memory.
    pub fn copy(&self, alloc: Global) -> Result<Claims, AllocError>
        ensures { IfOk result (λ copied. copied ≡ self.now) }
    {
        Ok(Claims {
            alloc,
            rocks: copied_rocks(alloc, &self.rocks)?,
            index: copied_entries(alloc, &self.index)?,
        })
    }
}

fn has_rock(rocks: &[(RockKey, Items<Item>)], key: &RockKey) -> bool
    ensures { result ≡ list_any (λ rock. is_same_rock rock.0 key.now) rocks.now }
{
    rocks.iter().any(|rock| is_same_rock(&rock.0, key))
}

#[tactic(auto, using(crate::proofs::Entries::same_rock_is))]
fn is_same_rock(left: &RockKey, right: &RockKey) -> bool
    ensures { result ≡ is_same_rock left.now right.now }
{
    left == right
}

// How many rocks stand before one that is added.
fn count_before(rocks: &[(RockKey, Items<Item>)], key: &RockKey) -> usize
    ensures { result ≡ position_or_len (λ rock. is_before key.now rock.0) rocks.now }
{
    rocks
        .iter()
        .take_while(|rock| !before(key, &rock.0))
        .count()
}

// Puts a rock where there is room for it, which takes no memory.
fn put_in_room(rocks: &mut Vec<(RockKey, Items<Item>)>, at: usize, rock: (RockKey, Items<Item>))
    requires within { at ≤ length rocks.old.items }
    requires room { vec_len rocks.old < vec_capacity rocks.old }
    ensures { rocks.new.items ≡ insert rocks.old.items at rock }
{
    if rocks.insert(at, rock).is_err() {
        unreachable!();
    }
}

// Puts further entries among those of an index. The only error is want of memory, and it leaves
// them as they were.
fn merge(index: &mut Vec<Entry>, more: Vec<Entry>) -> Result<(), AllocError>
    ensures ok { OnOk result (AreMerged index.old.items more.items index.new.items) }
    ensures err { OnErr result (index.new.items ≡ index.old.items) }
{
    let mut more = more;
    let count = index.len();
    index.append(&mut more)?;
    if let Err(fault) = index.sort_by(|left, right| left.path.cmp(&right.path)) {
        index.truncate(count);
        return Err(fault);
    }
    Ok(())
}

// Equal items, in their order. The only error is want of memory.
fn in_order(alloc: Global, items: &[Item]) -> Result<Items<Item>, AllocError>
    ensures { IfOk result (λ sorted. sorted ≡ in_item_order items.now) }
{
    let mut sorted = copied_items(alloc, items)?;
    sorted.sort()?;
    Ok(Items::from_vec(sorted))
}

fn copied_items(alloc: Global, items: &[Item]) -> Result<Vec<Item>, AllocError>
    ensures { IfOk result (λ copied. copied.items ≡ items.now) }
{
    let mut copied = Vec::new(alloc);
    for item in items {
        copied.push(item.copy(alloc)?)?;
    }
    Ok(copied)
}

fn copied_rocks(
    alloc: Global,
    rocks: &[(RockKey, Items<Item>)],
) -> Result<Vec<(RockKey, Items<Item>)>, AllocError>
    ensures { IfOk result (λ copied. copied.items ≡ rocks.now) }
{
    let mut copied = Vec::new(alloc);
    for (key, items) in rocks {
        let items = copied_items(alloc, items.as_slice())?;
        copied.push((key.copy(alloc)?, Items::from_vec(items)))?;
    }
    Ok(copied)
}

fn copied_entries(alloc: Global, entries: &[Entry]) -> Result<Vec<Entry>, AllocError>
    ensures { IfOk result (λ copied. copied.items ≡ entries.now) }
{
    let mut copied = Vec::new(alloc);
    for entry in entries {
        copied.push(entry.copy(alloc)?)?;
    }
    Ok(copied)
}
