//! Laws of the definition, as contracts of functions that do nothing.
ghost use Rattle.std.specs.Prelude.{◌≡◌, ℕ, List, [], Some};
ghost use Rattle.std.specs.List.{flat_map, Contains};
ghost use Rattle.std.specs.FinMap.{empty, get};
ghost use Rattle.rock_record.specs.Made.{HasGoodPaths};
ghost use Rattle.rock_record.specs.declared.rock.Rock.{Rock};
ghost use Rattle.tree_model.specs.Tree.{tree_of, files_of, HaveOwnPaths};

/// The tree of the empty set has no file.
pub fn empty_tree()
    ensures { tree_of [] ≡ empty }
{}

/// What a tree has at a path, one of its rocks brings. Where no two files of the rocks have one path, the tree has
/// each of them.
pub fn files_of_a_tree()
    ensures only { (rocks : List Rock) (path bytes : List ℕ)
        → get (tree_of rocks) path ≡ Some bytes → Contains (flat_map files_of rocks) (path, bytes) }
    ensures each { (rocks : List Rock) (path bytes : List ℕ)
        → HaveOwnPaths (flat_map files_of rocks)
        → Contains (flat_map files_of rocks) (path, bytes)
        → get (tree_of rocks) path ≡ Some bytes }
{}

/// The files that a rock brings have paths of their own, where its items and own files can stand beside each other.
pub fn a_rock_has_own_paths()
    ensures { (rock : Rock) → HasGoodPaths rock → HaveOwnPaths (files_of rock) }
{}
