ghost use Rattle.std.specs.Prelude.{IfErr, IfOk};
ghost use Rattle.served_rocks.specs.Asking.{AsksFor};
ghost use Rattle.served_rocks.specs.Fetched.{IsRock, IsNoRock};
ghost use Rattle.served_rocks.specs.Making.{IsBuiltOf, IsRefusedPlan, IsUnplanned};
ghost use Rattle.served_rocks.specs.Rockspecs.{IsServed};

use crate::Unserved;
use crate::rockspecs::{Origin, Served, find_rockspec};
use build_plan::BuildPlan;
use rock_build::{BuildFault, build, take};
use rock_record::Rock;
use rocks_outside::{Shelf, ShelfError};
use rocks_reply::{BuildFailed, Refusal};
use rocks_version::RockKey;
use std::alloc::Global;

/// Makes the rock of a key from what the earliest server has of it: its rockspec is read, and then all its files.
///
/// The refusals are those of `find_rockspec`, and then `Build`, where the rockspec has no build plan (from sources alone) or
/// its files can't be taken. `Failed` comes only where the shelf failed in the call, and `NoMemory` where memory runs
/// out. A rock that is answered is well made, also where the shelf doesn't tell what it holds.
pub fn fetch<F: Shelf>(
    alloc: Global,
    shelf: &mut F,
    key: &RockKey,
    origin: Origin,
) -> Result<Rock, Unserved>
    ensures rock { IfOk result (IsRock origin key.now (F.state shelf.old).holds) }
    ensures no_rock { IfErr result (IsNoRock origin key.now (F.state shelf.old).holds) }
    ensures asks { AsksFor result (F.state shelf.old) (F.state shelf.new) }
{
    let served = find_rockspec(alloc, shelf, key, origin)?;
    match origin {
        Origin::Unpacked => from_folder(alloc, shelf, key, &served),
        Origin::Sources => from_sources(alloc, shelf, key, served),
    }
}

fn from_folder<F: Shelf>(
    alloc: Global,
    shelf: &mut F,
    key: &RockKey,
    served: &Served,
) -> Result<Rock, Unserved>
    requires { IsServed Origin.Unpacked key.now (F.state shelf.old) served.now }
    ensures rock { IfOk result (IsRock Origin.Unpacked key.now (F.state shelf.old).holds) }
    ensures no_rock { IfErr result (IsNoRock Origin.Unpacked key.now (F.state shelf.old).holds) }
    ensures asks { AsksFor result (F.state shelf.old) (F.state shelf.new) }
{
    let bytes = served.bytes.as_slice();
    let made = take(alloc, &served.spec, bytes, shelf, served.server);
    built(alloc, key, made)
}

fn from_sources<F: Shelf>(
    alloc: Global,
    shelf: &mut F,
    key: &RockKey,
    served: Served,
) -> Result<Rock, Unserved>
    requires { IsServed Origin.Sources key.now (F.state shelf.old) served }
    ensures rock { IfOk result (IsRock Origin.Sources key.now (F.state shelf.old).holds) }
    ensures no_rock { IfErr result (IsNoRock Origin.Sources key.now (F.state shelf.old).holds) }
    ensures asks { AsksFor result (F.state shelf.old) (F.state shelf.new) }
{
    if let BuildPlan::Build(_) = &served.spec.plan {
        let bytes = served.bytes.as_slice();
        let made = build(alloc, &served.spec, bytes, shelf, served.server);
        return built(alloc, key, made);
    }
    let spec = served.spec;
    unplanned(alloc, key, spec.plan)
}

fn unplanned(alloc: Global, key: &RockKey, plan: BuildPlan) -> Result<Rock, Unserved>
    requires { IsRefusedPlan plan }
    ensures { IsUnplanned key.now plan result }
{
    match plan {
        BuildPlan::Build(_) => unreachable!(),
        BuildPlan::Refused(fault) => Err(Unserved::Refused(Refusal::Build {
            key: key.copy(alloc)?,
            fault: BuildFailed::Plan(fault),
        })),
    }
}

// The rock that was made, or why there is none.
fn built(alloc: Global, key: &RockKey, made: Result<Rock, BuildFault>) -> Result<Rock, Unserved>
    ensures { IsBuiltOf key.now made result }
{
    match made {
        Ok(rock) => Ok(rock),
        Err(BuildFault::ShelfFault) => Err(Unserved::Failed(ShelfError::Failed)),
        Err(BuildFault::NoMemory) => Err(Unserved::Failed(ShelfError::NoMemory)),
        Err(fault) => Err(Unserved::Refused(Refusal::Build {
            key: key.copy(alloc)?,
            fault: BuildFailed::Build(fault),
        })),
    }
}
