//! Laws of the steps, as contracts of functions that do nothing.
ghost use Rattle.std.specs.Prelude.{◌≡◌, ℕ, List, None, IsTrue};
ghost use Rattle.std.specs.List.{find};
ghost use Rattle.lua_value.specs.Pairs.{Pairs};
ghost use Rattle.rocks_text.specs.Texts.{is_name};
ghost use Rattle.rocks_version.specs.Keys.{rockspec_name};
ghost use Rattle.rocks_version.specs.Texts.{is_version};
ghost use Rattle.rocks_outside.specs.Shelf.{IsFolderListing};
ghost use Rattle.build_plan.specs.Plans.{HasPlan};
ghost use Rattle.build_plan.specs.declared.plan.BuildPlan.TheVariants.{Build};
ghost use Rattle.build_plan.specs.declared.recipe.Recipe.{Recipe};
ghost use Rattle.rock_steps.specs.Steps.{AreGood, build_steps, is_bad, taken_steps};

/// The files that the steps of a build make can stand beside each other and beside the rock's record and rockspec,
/// whatever the source folder lists.
pub fn built_files_are_good()
    ensures { (name version : List ℕ) (fields : Pairs) (recipe : Recipe)
        (folder : List ℕ) (listing : List (List ℕ))
        → IsTrue (is_name name) → IsTrue (is_version version)
        → HasPlan (rockspec_name name version) fields (Build recipe)
        → IsFolderListing folder listing
        → AreGood (rockspec_name name version) (build_steps recipe listing) }
{}

/// So can those of an unpacked rock's folder, where no path in it is bad.
pub fn taken_files_are_good()
    ensures { (rockspec folder : List ℕ) (listing : List (List ℕ))
        → IsFolderListing folder listing → find (is_bad rockspec) listing ≡ None
        → AreGood rockspec (taken_steps rockspec listing) }
{}
