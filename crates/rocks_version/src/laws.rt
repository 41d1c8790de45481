//! Laws of versions and their orders, as contracts of functions that do nothing.
ghost use Rattle.std.specs.Prelude.{◌≡◌, ℕ, ◌≤◌, ◌⊎◌, ◌↔◌, false, List, ◌∷◌, ◌++◌, length};
ghost use Rattle.std.specs.Prelude.{IsTrue, None, Some};
ghost use Rattle.std.specs.List.{list_all};
ghost use Rattle.std.specs.Char.{is_ascii_digit};
ghost use Rattle.std.specs.Ordering.{is_le, is_lt, nat_cmp, ordering_reverse, ordering_then};
ghost use Rattle.std.specs.Cmp.Lexicographic.{slice_cmp};
ghost use Rattle.std.specs.Str.Parse.{digits_value};
ghost use Rattle.std.specs.declared.cmp.Ordering.TheVariants.{Equal};
ghost use Rattle.rocks_version.specs.Faults.{fault_of};
ghost use Rattle.rocks_version.specs.Keys.{is_before, listing_cmp};
ghost use Rattle.rocks_version.specs.Orders.{version_cmp, version_rank};
ghost use Rattle.rocks_version.specs.Texts.{body, has_revision, is_numeral, is_version, revision};
ghost use Rattle.rocks_version.specs.declared.key.RockKey.{RockKey};

/// Rank is a total order on texts.
pub fn rank_is_total()
    ensures reflexive { (text : List ℕ) → version_rank text text ≡ Equal }
    ensures antisymmetric { (left right : List ℕ) → IsTrue (is_le (version_rank left right))
        → IsTrue (is_le (version_rank right left)) → left ≡ right }
    ensures transitive { (left middle right : List ℕ)
        → IsTrue (is_le (version_rank left middle)) → IsTrue (is_le (version_rank middle right))
        → IsTrue (is_le (version_rank left right)) }
    ensures total { (left right : List ℕ)
        → IsTrue (is_le (version_rank left right)) ⊎ IsTrue (is_le (version_rank right left)) }
{}

/// Two texts compare one way as they do the other, and every text is equal to itself. Among texts that have a
/// revision the comparison is transitive, and rank goes by it, and by the bytes where it finds them equal.
pub fn comparison_is_a_preorder()
    ensures reflexive { (text : List ℕ) → version_cmp text text ≡ Equal }
    ensures reversed { (left right : List ℕ)
        → version_cmp right left ≡ ordering_reverse (version_cmp left right) }
    ensures transitive { (left middle right : List ℕ)
        → IsTrue (has_revision left) → IsTrue (has_revision middle) → IsTrue (has_revision right)
        → IsTrue (is_le (version_cmp left middle)) → IsTrue (is_le (version_cmp middle right))
        → IsTrue (is_le (version_cmp left right)) }
    ensures refined { (left right : List ℕ)
        → IsTrue (has_revision left) → IsTrue (has_revision right) → version_rank left right
        ≡ ordering_then (version_cmp left right) (slice_cmp nat_cmp left right) }
{}

/// No rock is listed before itself, and of two different ones one is listed before the other, and never both. A rock is
/// before another where they compare as less.
pub fn listing_is_strict()
    ensures compared { (left right : RockKey)
        → is_before left right ≡ is_lt (listing_cmp left right) }
    ensures irreflexive { (key : RockKey) → is_before key key ≡ false }
    ensures transitive { (first second third : RockKey) → IsTrue (is_before first second)
        → IsTrue (is_before second third) → IsTrue (is_before first third) }
    ensures asymmetric { (left right : RockKey) → IsTrue (is_before left right)
        → is_before right left ≡ false }
    ensures connected { (left right : RockKey)
        → (left ≡ right) ⊎ (IsTrue (is_before left right) ⊎ IsTrue (is_before right left)) }
{}

/// A text has no fault exactly where it is a version, and then no more than 18 digits stand in a row in it.
pub fn versions_have_short_numbers()
    ensures no_fault { (text : List ℕ) → (fault_of text ≡ None) ↔ IsTrue (is_version text) }
    ensures short { (before digits after : List ℕ)
        → IsTrue (is_version (before ++ (digits ++ after)))
        → IsTrue (list_all is_ascii_digit digits)
        → length digits ≤ 18 }
{}

/// Some bytes, a dash and digits have those bytes as their body and the number of those digits as their revision,
/// and each text that has a revision is such a one.
pub fn revisions_end_texts()
    ensures read { (before digits : List ℕ) → 1 ≤ length before → IsTrue (is_numeral digits)
        → (body (before ++ 45 ∷ digits) ≡ before)
        × (revision (before ++ 45 ∷ digits) ≡ Some (digits_value 10 digits)) }
    ensures spelled { (text : List ℕ) → IsTrue (has_revision text)
        → (digits : List ℕ) × (text ≡ body text ++ 45 ∷ digits) × IsTrue (is_numeral digits)
        × (1 ≤ length (body text)) }
{}
