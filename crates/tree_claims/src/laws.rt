//! Laws of claims, as contracts of functions that do nothing.
ghost use Rattle.std.specs.Prelude.{◌≡◌, ◌⊎◌, ◌↔◌, List, ◌∷◌};
ghost use Rattle.std.specs.List.{Contains};
ghost use Rattle.std.specs.List.Sorted.{IsPermutation, IsSorted};
ghost use Rattle.rocks_text.specs.Items.{item_cmp};
ghost use Rattle.rocks_text.specs.declared.item.Item.{Item};
ghost use Rattle.rocks_version.specs.declared.key.RockKey.{RockKey};
ghost use Rattle.tree_claims.specs.Claims.{claims_of, Claim, IsClean};
ghost use Rattle.tree_claims.specs.Clashes.{IsClash};
ghost use Rattle.tree_claims.specs.Rocks.{in_item_order, with_rock, without_rock, HasRock};
ghost use Rattle.tree_claims.specs.Rocks.{IsListed};
ghost use Rattle.tree_claims.specs.declared.clash.Clash.{Clash};

/// A rock that clashes with a set can't be added to it, and it has one clash.
pub fn clashes_are_unclean()
    ensures unclean { (rocks : List (RockKey × List Item)) (key : RockKey) (items : List Item)
        (clash : Clash) → IsClash rocks key items clash → ¬ (IsClean ((key, items) ∷ rocks)) }
    ensures one { (rocks : List (RockKey × List Item)) (key : RockKey) (items : List Item)
        (left right : Clash) → IsClash rocks key items left → IsClash rocks key items right
        → left ≡ right }
{}

/// A set whose claims are among those of a clean one is clean: so is each subset, and in whatever
/// order rocks are added, the set is clean or not alike.
pub fn clean_by_claims()
    ensures { (some all : List (RockKey × List Item))
        → ((claim : Claim) → Contains (claims_of some) claim → Contains (claims_of all) claim)
        → IsClean all → IsClean some }
{}

/// A set with a rock, its items in order, has the claims of the set and of the rock. A set without
/// a rock has no others than the set.
pub fn claims_of_changed_sets()
    ensures added { (rocks : List (RockKey × List Item)) (key : RockKey) (items : List Item)
        (claim : Claim) → Contains (claims_of (with_rock key (in_item_order items) rocks)) claim
        ↔ Contains (claims_of ((key, items) ∷ rocks)) claim }
    ensures dropped { (rocks : List (RockKey × List Item)) (key : RockKey) (claim : Claim)
        → Contains (claims_of (without_rock key rocks)) claim
        → Contains (claims_of rocks) claim }
{}

/// A set with a rock that it hadn't, and one without a rock, have theirs in the order in which they
/// are listed.
pub fn changed_sets_are_listed()
    ensures added { (rocks : List (RockKey × List Item)) (key : RockKey) (items : List Item)
        → IsListed rocks → ¬ (HasRock key rocks) → IsListed (with_rock key items rocks) }
    ensures dropped { (rocks : List (RockKey × List Item)) (key : RockKey)
        → IsListed rocks → IsListed (without_rock key rocks) }
{}

/// Items in their order are the same items, and that is their only order.
pub fn items_have_one_order()
    ensures same { (items : List Item) → IsPermutation items (in_item_order items) }
    ensures in_order { (items : List Item) → IsSorted item_cmp (in_item_order items) }
    ensures one { (items other : List Item) → IsPermutation items other
        → IsSorted item_cmp other → other ≡ in_item_order items }
{}
