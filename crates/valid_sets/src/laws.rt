//! Laws of valid sets, as contracts of functions that do nothing.
ghost use Rattle.std.specs.Prelude.{◌≡◌, List, []};
ghost use Rattle.rock_record.specs.declared.rock.Rock.{Rock};
ghost use Rattle.tree_sets.specs.Trees.{tree_of};
ghost use Rattle.valid_sets.specs.Valid.{IsValid};

/// Equal trees come from equal sets alone.
pub fn one_set()
    ensures { (left right : List Rock) → IsValid left → IsValid right
        → tree_of left ≡ tree_of right → left ≡ right }
{}

/// The empty set is valid.
pub fn empty_set()
    ensures { IsValid [] }
{}
