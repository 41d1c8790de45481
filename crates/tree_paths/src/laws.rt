//! Laws of places, as contracts of functions that do nothing.
ghost use Rattle.std.specs.Prelude.{◌≡◌, ℕ, List, IsTrue};
ghost use Rattle.rocks_text.specs.Texts.{is_name, is_file_path, is_tree_path};
ghost use Rattle.rocks_text.specs.declared.item.Item.{Item};
ghost use Rattle.rocks_version.specs.Texts.{is_version};
ghost use Rattle.rocks_version.specs.declared.key.RockKey.{RockKey};
ghost use Rattle.tree_paths.specs.Places.{plain_path, versioned_path, own_path};

/// Each place of a rock's file is a path in a tree.
pub fn places_are_tree_paths()
    ensures plain { (item : Item) → IsTrue (is_file_path item.path)
        → IsTrue (is_tree_path (plain_path item)) }
    ensures versioned { (item : Item) (key : RockKey) → IsTrue (is_file_path item.path)
        → IsTrue (is_name key.name) → IsTrue (is_version key.version)
        → IsTrue (is_tree_path (versioned_path item key)) }
    ensures own { (key : RockKey) (path : List ℕ) → IsTrue (is_file_path path)
        → IsTrue (is_name key.name) → IsTrue (is_version key.version)
        → IsTrue (is_tree_path (own_path key path)) }
{}

/// Two items have no plain path in common, and of one rock no versioned one.
pub fn places_are_apart()
    ensures plain { (left right : Item) → plain_path left ≡ plain_path right → left ≡ right }
    ensures versioned { (key : RockKey) (left right : Item)
        → versioned_path left key ≡ versioned_path right key → left ≡ right }
{}
