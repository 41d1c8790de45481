//! Laws of builds, as contracts of functions that do nothing.
ghost use Rattle.std.specs.Prelude.{◌≡◌, ℕ, List, Result};
ghost use Rattle.rocks_text.specs.Files.{Files};
ghost use Rattle.build_plan.specs.declared.recipe.Recipe.{Recipe};
ghost use Rattle.rockspec.specs.declared.read.Rockspec.{Rockspec};
ghost use Rattle.rock_files.specs.declared.fault.BuildFault.{BuildFault};
ghost use Rattle.rock_record.specs.declared.rock.Rock.{Rock};
ghost use Rattle.rock_build.specs.Contents.{IsContents, IsUnpacked};

/// What a server holds makes one rock, or has one first fault, and never both.
pub fn one_rock()
    ensures built { (spec : Rockspec) (bytes : List ℕ) (recipe : Recipe) (files : Files)
        (one other : Result Rock BuildFault) → IsContents spec bytes recipe files one
        → IsContents spec bytes recipe files other → one ≡ other }
    ensures taken { (spec : Rockspec) (bytes : List ℕ) (files : Files)
        (one other : Result Rock BuildFault) → IsUnpacked spec bytes files one
        → IsUnpacked spec bytes files other → one ≡ other }
{}
