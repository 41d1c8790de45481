ghost use Rattle.std.specs.Prelude.{◌≡◌, ◌++◌, ℕ, List, IfOk, IsTrue, codes, map};
ghost use Rattle.std.specs.List.{All, filter};
ghost use Rattle.lua_value.specs.Pairs.{Pairs};
ghost use Rattle.rocks_text.specs.Texts.{is_file_path};
ghost use Rattle.build_targets.specs.Places.{path_of};
ghost use Rattle.build_plan.specs.Plans.{HasPlan};
ghost use Rattle.build_plan.specs.declared.plan.BuildPlan.TheVariants.{Build};
ghost use Rattle.rock_steps.specs.Steps.{build_steps, folder_steps, is_in, kept, part_of};
ghost use Rattle.rock_steps.specs.Steps.{target_step};

use crate::{Part, Source, Step};
use build_plan::{Dest, Recipe, Target};
use rocks_text::FilePath;
use std::alloc::{AllocError, Global};

/// The steps of a build, for the paths of all files in its source folder: the files of its recipe first, then for each
/// named folder the files below it, which keep their paths as the rock's own (LuaRocks documentation, rockspec format:
/// build). The only error is want of memory.
pub fn build_steps(
    alloc: Global,
    recipe: &Recipe,
    listing: &[FilePath],
) -> Result<Vec<Step>, AllocError>
    requires { (rockspec : List ℕ) × (fields : Pairs) × HasPlan rockspec fields (Build recipe.now) }
    ensures { IfOk result (λ steps. steps.items ≡ build_steps recipe.now listing.now) }
{
    let mut steps = target_steps(alloc, recipe.files.as_slice())?;
    for folder in recipe.folders.as_slice() {
        steps.append(&mut folder_steps(alloc, folder, listing)?)?;
    }
    Ok(steps)
}

// The steps of targets that stand at paths.
fn target_steps(alloc: Global, targets: &[Target]) -> Result<Vec<Step>, AllocError>
    requires { All (λ target. IsTrue (is_file_path (path_of target.to))) targets.now }
    ensures { IfOk result (λ steps. steps.items ≡ map target_step targets.now) }
{
    let mut steps = Vec::new(alloc);
    for target in targets {
        steps.push(target_step(alloc, target)?)?;
    }
    Ok(steps)
}

fn target_step(alloc: Global, target: &Target) -> Result<Step, AllocError>
    requires { IsTrue (is_file_path (path_of target.now.to)) }
    ensures { IfOk result (λ step. step ≡ target_step target.now) }
{
    Ok(Step::Read(Source {
        part: part_of(alloc, &target.to)?,
        from: target.from.copy(alloc)?,
    }))
}

fn part_of(alloc: Global, dest: &Dest) -> Result<Part, AllocError>
    requires { IsTrue (is_file_path (path_of dest.now)) }
    ensures { IfOk result (λ part. part ≡ part_of dest.now) }
{
    match dest {
        Dest::Item(item) => Ok(Part::Item(item.copy(alloc)?)),
        Dest::Conf(path) => Ok(Part::Own(conf_path(alloc, path.as_str())?)),
    }
}

fn conf_path(alloc: Global, path: &str) -> Result<FilePath, AllocError>
    requires { IsTrue (is_file_path (codes "conf/" ++ path.now)) }
    ensures { IfOk result (λ whole. whole ≡ codes "conf/" ++ path.now) }
{
    FilePath::known(alloc, &format!(in alloc; "conf/{path}")?)
}

// The steps of a named folder.
fn folder_steps(
    alloc: Global,
    folder: &FilePath,
    listing: &[FilePath],
) -> Result<Vec<Step>, AllocError>
    ensures { IfOk result (λ steps. steps.items ≡ folder_steps listing.now folder.now) }
{
    let mut steps = kept_steps(alloc, folder, listing)?;
    if steps.is_empty() {
        steps.push(Step::NoFile(folder.copy(alloc)?))?;
    }
    Ok(steps)
}

// The steps of a folder's files.
fn kept_steps(
    alloc: Global,
    folder: &FilePath,
    listing: &[FilePath],
) -> Result<Vec<Step>, AllocError>
    ensures { IfOk result (λ steps.
        steps.items ≡ map kept (filter (is_in folder.now) listing.now)) }
{
    let mut steps = Vec::new(alloc);
    for path in listing {
        if path.below(folder).is_some() {
            steps.push(kept(alloc, path)?)?;
        }
    }
    Ok(steps)
}

fn kept(alloc: Global, path: &FilePath) -> Result<Step, AllocError>
    ensures { IfOk result (λ step. step ≡ kept path.now) }
{
    Ok(Step::Read(Source {
        part: Part::Own(path.copy(alloc)?),
        from: path.copy(alloc)?,
    }))
}
