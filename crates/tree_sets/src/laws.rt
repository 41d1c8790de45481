//! Laws of sets and their trees, as contracts of functions that do nothing.
ghost use Rattle.std.specs.Prelude.{◌≡◌, ℕ, ◌⊎◌, ◌↔◌, List, [], true, Some, IsTrue};
ghost use Rattle.std.specs.List.{Contains, find};
ghost use Rattle.std.specs.FinMap.{empty, get};
ghost use Rattle.rocks_constraint.specs.Wanted.{Wanted};
ghost use Rattle.rocks_text.specs.Files.{HasNoFileAsFolder};
ghost use Rattle.rocks_text.specs.declared.item.Item.{Item};
ghost use Rattle.rocks_version.specs.Keys.{is_before};
ghost use Rattle.rocks_version.specs.declared.key.RockKey.{RockKey};
ghost use Rattle.rock_record.specs.declared.rock.Rock.{Rock};
ghost use Rattle.tree_sets.specs.Needs.{is_met, is_met_by, lua_key, met_by};
ghost use Rattle.tree_sets.specs.Places.{providers_of};
ghost use Rattle.tree_sets.specs.Sets.{keys_in, AreListed, CanStand};
ghost use Rattle.tree_sets.specs.Trees.{tree_files, tree_of, HaveOwnPaths};
ghost use Rattle.tree_sets.specs.View.{items_in};
ghost use Rattle.tree_sets.specs.declared.entry.IndexEntry.{IndexEntry as Entry};

/// The tree of the empty set has no file.
pub fn empty_tree()
    ensures { tree_of [] ≡ empty }
{}

/// No two parts of a tree claim one path.
pub fn files_have_own_paths()
    ensures { (set : List Rock) → CanStand set → HaveOwnPaths (tree_files set) }
{}

/// What a tree has at a path is a file of its rocks or its manifest, and it has each of them.
pub fn files_of_a_tree()
    ensures only { (set : List Rock) (path bytes : List ℕ)
        → get (tree_of set) path ≡ Some bytes → Contains (tree_files set) (path, bytes) }
    ensures each { (set : List Rock) (path bytes : List ℕ) → CanStand set
        → Contains (tree_files set) (path, bytes) → get (tree_of set) path ≡ Some bytes }
{}

/// The providers of an item are the rocks that have it, and they stand in the order of rocks.
pub fn providers_have_the_item()
    ensures members { (entries : List Entry) (item : Item) (key : RockKey)
        → Contains (providers_of entries item) key
        ↔ ((entry : Entry) × Contains entries entry × (entry.key ≡ key)
        × Contains entry.items item) }
    ensures listed { (entries : List Entry) (item : Item) → AreListed (keys_in entries)
        → AreListed (providers_of entries item) }
{}

/// The first rock of a set that meets a dependency is the newest that does.
pub fn newest_meets()
    ensures { (keys : List RockKey) (wanted : Wanted) (key other : RockKey) → AreListed keys
        → find (is_met_by wanted) keys ≡ Some key → Contains keys other
        → IsTrue (is_met_by wanted other) → (other ≡ key) ⊎ IsTrue (is_before key other) }
{}

/// The items of a set are those of its rocks.
pub fn items_of_rocks()
    ensures { (entries : List Entry) (item : Item) → Contains (items_in entries) item
        ↔ ((entry : Entry) × Contains entries entry × Contains entry.items item) }
{}

/// No file of a tree stands in another's way: its path is no folder of the other's.
pub fn no_folder_is_a_file()
    ensures { (set : List Rock) → CanStand set → HasNoFileAsFolder (tree_of set) }
{}

/// What meets a dependency is Lua or one of the rocks, and where some of these meet it, it does.
pub fn needs_are_met()
    ensures meets { (keys : List RockKey) (wanted : Wanted) → IsTrue (is_met keys wanted)
        → is_met_by wanted (met_by keys wanted) ≡ true }
    ensures among { (keys : List RockKey) (wanted : Wanted)
        → (met_by keys wanted ≡ lua_key) ⊎ Contains keys (met_by keys wanted) }
{}
