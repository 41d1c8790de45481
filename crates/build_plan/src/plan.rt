ghost use Rattle.std.specs.Prelude.{◌≡◌, IfOk};
ghost use Rattle.lua_value.specs.Ordered.{IsOrdered};
ghost use Rattle.rocks_version.specs.Keys.{rockspec_name};
ghost use Rattle.build_plan.specs.Plans.{HasPlan};
ghost use Rattle.build_plan.specs.Steps.{places_of, IsPlanned, IsApart};

use crate::checks::{check_build, modules};
use crate::entries::{folders, targets};
use crate::fields::{copied, table_at};
use crate::places::{in_order, places};
use crate::stop::Stop;
use crate::{PlanFault, Recipe};
use build_targets::Target;
use lua_value::Table;
use rocks_text::FilePath;
use rocks_version::{RockKey, rockspec_name};
use std::alloc::{AllocError, Global};
use twofold_paths::least_twofold;

/// What comes of a rockspec's build.
#[derive(Debug, Drop)]
pub enum BuildPlan {
    Build(Recipe),
    /// The build isn't served, or it doesn't say where its files stand.
    Refused(PlanFault),
}

/// The build plan of a rock, from the fields of its rockspec with the tables for platforms merged (LuaRocks
/// documentation, rockspec format: build). Fields of another shape than rockspecs have count as absent. The only
/// error is want of memory.
pub fn build_plan(alloc: Global, key: &RockKey, fields: &Table) -> Result<BuildPlan, AllocError>
    requires { IsOrdered fields.now }
    ensures { IfOk result (HasPlan (rockspec_name key.now.name key.now.version) fields.now) }
{
    let rockspec = rockspec_name(alloc, key)?;
    match recipe(alloc, &rockspec, fields) {
        Ok(recipe) => Ok(BuildPlan::Build(recipe)),
        Err(Stop::Refused(fault)) => Ok(BuildPlan::Refused(fault)),
        Err(Stop::NoMemory) => Err(AllocError),
    }
}

fn recipe(alloc: Global, rockspec: &str, fields: &Table) -> Result<Recipe, Stop>
    requires { IsOrdered fields.now }
    ensures { IsPlanned rockspec.now fields.now result }
{
    let empty = Table::new(alloc);
    let build = table_at(alloc, fields, "build", &empty)?;
    let modules = modules(alloc, build, &empty)?;
    check_build(alloc, fields, build, modules, &empty)?;
    let install = table_at(alloc, build, "install", &empty)?;
    let targets = targets(alloc, modules, install, &empty)?;
    let named = table_at(alloc, build, "copy_directories", &empty)?;
    let folders = folders(alloc, rockspec, named)?;
    check_apart(alloc, &targets, &folders)?;
    Ok(in_order(targets, folders)?)
}

// Looks for a path of targets and folders at which one is in another's way.
fn check_apart(alloc: Global, targets: &[Target], folders: &[FilePath]) -> Result<(), Stop>
    ensures { IsApart (places_of targets.now folders.now) result }
{
    match least_twofold(alloc, places(alloc, targets, folders)?)? {
        Some(path) => {
            let path = copied(alloc, path.as_str().as_bytes())?;
            Err(Stop::Refused(PlanFault::TwoForOne(path)))
        }
        None => Ok(()),
    }
}
