//! Laws of plans, as contracts of functions that do nothing.
ghost use Rattle.std.specs.Prelude.{◌≡◌, ◌≢◌, ℕ, List, Ok, Contains, false};
ghost use Rattle.std.specs.List.{AllPairs};
ghost use Rattle.lua_value.specs.Pairs.{Pairs};
ghost use Rattle.rocks_text.specs.Paths.{IsFolderOf};
ghost use Rattle.build_targets.specs.declared.meanings.Listing.TheVariants.{Modules};
ghost use Rattle.build_targets.specs.declared.target.Target.{Target};
ghost use Rattle.build_plan.specs.declared.plan.BuildPlan.{BuildPlan};
ghost use Rattle.build_plan.specs.declared.plan.BuildPlan.TheVariants.{Build};
ghost use Rattle.build_plan.specs.declared.recipe.Recipe.{Recipe};
ghost use Rattle.build_plan.specs.Entries.{entries, is_builtin, meaning, Entry};
ghost use Rattle.build_plan.specs.Plans.{path_of, sort_of, HasPlan};

/// A build has one plan.
pub fn one_plan()
    ensures { (rockspec : List ℕ) (fields : Pairs) (left right : BuildPlan)
        → HasPlan rockspec fields left → HasPlan rockspec fields right → left ≡ right }
{}

/// The targets of a recipe differ, and none lies below another one of its sort. Its folders differ, and none is inside
/// another one.
pub fn targets_are_apart()
    ensures differ { (rockspec : List ℕ) (fields : Pairs) (recipe : Recipe)
        → HasPlan rockspec fields (Build recipe)
        → AllPairs (λ target other. target.to ≢ other.to) recipe.files }
    ensures beside { (rockspec : List ℕ) (fields : Pairs) (recipe : Recipe) (upper lower : Target)
        → HasPlan rockspec fields (Build recipe)
        → Contains recipe.files upper → Contains recipe.files lower
        → sort_of upper.to ≡ sort_of lower.to
        → ¬ (IsFolderOf (path_of upper.to) (path_of lower.to)) }
    ensures folders_differ { (rockspec : List ℕ) (fields : Pairs) (recipe : Recipe)
        → HasPlan rockspec fields (Build recipe)
        → AllPairs (λ folder other. folder ≢ other) recipe.folders }
    ensures folders_beside { (rockspec : List ℕ) (fields : Pairs) (recipe : Recipe)
        (folder other : List ℕ) → HasPlan rockspec fields (Build recipe)
        → Contains recipe.folders folder → Contains recipe.folders other
        → ¬ (IsFolderOf folder other) }
{}

/// A build that isn't `builtin` takes nothing from `modules`: none of its entries stands there, and each target of its
/// recipe is that of such an entry.
pub fn none_takes_no_modules()
    ensures entries { (fields : Pairs) (entry : Entry) → is_builtin fields ≡ false
        → Contains (entries fields) entry → entry.listing ≢ Modules }
    ensures targets { (rockspec : List ℕ) (fields : Pairs) (recipe : Recipe) (target : Target)
        → is_builtin fields ≡ false → HasPlan rockspec fields (Build recipe)
        → Contains recipe.files target
        → (entry : Entry) × Contains (entries fields) entry × (meaning entry ≡ Ok target)
        × (entry.listing ≢ Modules) }
{}
