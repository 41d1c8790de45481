//! Laws of changes, as contracts of functions that do nothing.
ghost use Rattle.std.specs.Prelude.{◌≡◌, ◌≤◌, ◌^◌, List, length};
ghost use Rattle.rocks_version.specs.declared.key.RockKey.{RockKey};
ghost use Rattle.rock_record.specs.declared.rock.Rock.{Rock};
ghost use Rattle.tree_change.specs.Change.{changed_set, lists_of};
ghost use Rattle.tree_model.specs.Held.{changed};
ghost use Rattle.tree_moves.specs.Moves.{performed};
ghost use Rattle.tree_sets.specs.Sets.{entries_of, CanStand};
ghost use Rattle.tree_sets.specs.Trees.{tree_files, tree_of};

/// The moves of a change, made on the tree of a set, give the tree of the changed set, at every path, and no further file.
/// The numbers that files get on their way have texts of their own below 2 ^ 64, so neither tree has more files.
pub fn trees_change()
    ensures { (set added : List Rock) (removed : List RockKey) → CanStand set
        → CanStand (changed_set added removed set)
        → length (tree_files set) ≤ 2 ^ 64
        → length (tree_files (changed_set added removed set)) ≤ 2 ^ 64
        → performed (lists_of added removed (entries_of set)) (tree_of set)
        ≡ tree_of (changed_set added removed set) }
{}

/// The rocks of a changed set, without the bytes of their files, are those of the set, changed alike.
pub fn entries_change()
    ensures { (set added : List Rock) (removed : List RockKey)
        → entries_of (changed_set added removed set)
        ≡ changed (entries_of added) removed (entries_of set) }
{}
