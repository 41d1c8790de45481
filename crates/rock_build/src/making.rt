ghost use Rattle.std.specs.Prelude.{◌≡◌, ◌<◌, ◌&&◌, IfOk};
ghost use Rattle.rockspec.specs.Specs.{IsSpec};
ghost use Rattle.build_plan.specs.declared.recipe.Recipe.{Recipe as Steps};
ghost use Rattle.build_plan.specs.declared.plan.BuildPlan.TheVariants.{Build};
ghost use Rattle.rock_files.specs.Faults.{Asks};
ghost use Rattle.rock_steps.specs.Steps.{AreGood};
ghost use Rattle.rock_build.specs.Contents.{is_none, lacks_sources, rockspec_of};
ghost use Rattle.rock_build.specs.Contents.{IsContentsOn, IsUnpackedOn, Makes};
ghost use Rattle.rock_build.specs.Making.{rock_with, IsComing};

use crate::BuildFault;
use crate::folders::{source_folder, unpacked_folder};
use rock_files::{Gathered, gather};
use rock_record::{Rock, copied_dependencies};
use rock_steps::{Step, build_steps, first_bad, taken_steps};
use rocks_bytes::Bytes;
use rocks_outside::Shelf;
use rocks_text::FilePath;
use rocks_version::rockspec_name;
use rockspec::{BuildPlan, Recipe, Rockspec};
use std::alloc::{AllocError, Global};

/// Builds the rock of a rockspec from the folder `NAME-VERSION/` of a server, whatever the rockspec says of its source
/// (this project's own). The bytes are the rockspec's, which has a build.
///
/// `NoSourceFolder` exactly where the recipe names something and the folder has no file. Else files and folders go in
/// the recipe's order, a folder's files in byte order, and the first that fails answers: `MissingFile` where it isn't
/// there, or a folder has no file, and `TooLarge` where it passes a limit on one rock. `ShelfFault` only where the shelf
/// failed in the call, and `NoMemory` where memory runs out. A rock that is answered is well made, also where the shelf
/// doesn't tell what it holds.
pub fn build<F: Shelf>(
    alloc: Global,
    spec: &Rockspec,
    bytes: &[u8],
    shelf: &mut F,
    server: u32,
) -> Result<Rock, BuildFault>
    requires server { server < (F.state shelf.old).servers }
    requires spec { IsSpec bytes.now spec.now }
    requires plan { (recipe : Steps) × (spec.now.plan ≡ Build recipe) }
    ensures contents { IsContentsOn (F.state shelf.old).holds server spec.now bytes.now result }
    ensures makes { IfOk result (Makes spec.now bytes.now) }
    ensures asks { Asks result (F.state shelf.old) (F.state shelf.new) }
{
    let BuildPlan::Build(recipe) = &spec.plan else {
        unreachable!();
    };
    // They are looked at for what their types promise: so the rockspec's name is in no file's way.
    let _name = spec.key.name.as_str();
    let _version = spec.key.version.as_str();
    let folder = source_folder(alloc, &spec.key)?;
    let listing = shelf.list(alloc, server, &folder)?;
    if lacks_sources(recipe, &listing) {
        return Err(BuildFault::NoSourceFolder);
    }
    let steps = build_steps(alloc, recipe, &listing)?;
    made(alloc, shelf, server, &folder, steps, spec, bytes)
}

// Whether the recipe names something, and the source folder has no file.
fn lacks_sources(recipe: &Recipe, listing: &[FilePath]) -> bool
    ensures { result ≡ lacks_sources recipe.now listing.now }
{
    listing.is_empty() && !names_nothing(recipe)
}

fn names_nothing(recipe: &Recipe) -> bool
    ensures { result ≡ (is_none recipe.now.files && is_none recipe.now.folders) }
{
    recipe.files.as_slice().is_empty() && recipe.folders.as_slice().is_empty()
}

/// Takes the rock of a rockspec from the folder `NAME-VERSION.rock/` of a server (this project's own). The bytes are
/// the rockspec's, which stands in that folder.
///
/// `BadTarget` exactly where a file stands below the place of the record or of the rockspec, with the least such path.
/// Else the files go in byte order, and the first that fails answers: `MissingFile` where it isn't there any more, and
/// `TooLarge` where it passes a limit on one rock. `ShelfFault` only where the shelf failed in the call, and `NoMemory`
/// where memory runs out. A rock that is answered is well made, also where the shelf doesn't tell what it holds.
pub fn take<F: Shelf>(
    alloc: Global,
    spec: &Rockspec,
    bytes: &[u8],
    shelf: &mut F,
    server: u32,
) -> Result<Rock, BuildFault>
    requires server { server < (F.state shelf.old).servers }
    requires spec { IsSpec bytes.now spec.now }
    ensures unpacked { IsUnpackedOn (F.state shelf.old).holds server spec.now bytes.now result }
    ensures makes { IfOk result (Makes spec.now bytes.now) }
    ensures asks { Asks result (F.state shelf.old) (F.state shelf.new) }
{
    let folder = unpacked_folder(alloc, &spec.key)?;
    let rockspec = rockspec_name(alloc, &spec.key)?;
    let listing = shelf.list(alloc, server, &folder)?;
    if let Some(path) = first_bad(&rockspec, &listing) {
        return Err(BuildFault::BadTarget(path.copy(alloc)?));
    }
    let steps = taken_steps(alloc, &rockspec, &listing)?;
    made(alloc, shelf, server, &folder, steps, spec, bytes)
}

// The rock of a rockspec with the files that the steps find in a folder of a server.
fn made<F: Shelf>(
    alloc: Global,
    shelf: &mut F,
    server: u32,
    folder: &FilePath,
    steps: Vec<Step>,
    spec: &Rockspec,
    bytes: &[u8],
) -> Result<Rock, BuildFault>
    requires server { server < (F.state shelf.old).servers }
    requires spec { IsSpec bytes.now spec.now }
    requires good { AreGood (rockspec_of spec.now.key) steps.items }
    ensures comes { IsComing (F.state shelf.old).holds server folder.now steps.items
        spec.now bytes.now result }
    ensures makes { IfOk result (Makes spec.now bytes.now) }
    ensures asks { Asks result (F.state shelf.old) (F.state shelf.new) }
{
    let files = gather(alloc, shelf, server, folder, steps)?;
    Ok(rock(alloc, spec, bytes, files)?)
}

// The rock of a rockspec with these files.
fn rock(alloc: Global, spec: &Rockspec, bytes: &[u8], files: Gathered) -> Result<Rock, AllocError>
    ensures { IfOk result (λ rock. rock ≡ rock_with spec.now bytes.now files) }
{
    Ok(Rock {
        key: spec.key.copy(alloc)?,
        dependencies: copied_dependencies(alloc, spec.dependencies.as_slice())?,
        rockspec: Bytes::from(bytes.to_vec(alloc)?),
        items: files.items,
        own: files.own,
    })
}
