// What a rock needs that isn't there.
ghost use Rattle.std.specs.Prelude.{◌≡◌, ◌∷◌, IfOk};
ghost use Rattle.std.specs.List.{list_any};
ghost use Rattle.std.specs.Option.{option_map};
ghost use Rattle.rocks_session.specs.Step.{is_met_by, lua_key, unmet};

use crate::{RockKey, Version};
use rock_record::Rock;
use rocks_constraint::{Dependency, meets};
use rocks_text::{Name, TextFault};
use rocks_version::VersionFault;
use std::alloc::{AllocError, Global};

/// The first dependency of a rock that is met by neither Lua nor the rock itself nor the rocks that are installed.
pub(crate) fn unmet<'a>(
    alloc: Global,
    installed: &[RockKey],
    rock: &'a Rock,
) -> Result<Option<&'a Dependency>, AllocError>
    ensures { IfOk result (λ found. option_map (λ dependency. dependency.now) found
        ≡ unmet installed.now rock.now.key rock.now.dependencies) }
{
    let lua = lua_key(alloc)?;
    Ok(
        rock.dependencies.as_slice().iter().find(|dependency| !is_met(
            dependency, &lua, &rock.key, installed,
        )),
    )
}

fn is_met(dependency: &Dependency, lua: &RockKey, key: &RockKey, installed: &[RockKey]) -> bool
    ensures { result ≡ list_any (is_met_by dependency.now) (lua.now ∷ key.now ∷ installed.now) }
{
    is_met_by(dependency, lua) || is_met_by(dependency, key) || is_met_among(dependency, installed)
}

fn is_met_among(dependency: &Dependency, rocks: &[RockKey]) -> bool
    ensures { result ≡ list_any (is_met_by dependency.now) rocks.now }
{
    rocks.iter().any(|key| is_met_by(dependency, key))
}

fn is_met_by(dependency: &Dependency, key: &RockKey) -> bool
    ensures { result ≡ is_met_by dependency.now key.now }
{
    dependency.name().as_str() == key.name.as_str() && meets(&key.version, dependency.constraints())
}

// What Lua itself provides.
#[tactic(auto, using(crate::proofs::LuaVersion::no_fault))]
fn lua_key(alloc: Global) -> Result<RockKey, AllocError>
    ensures { IfOk result (λ key. key ≡ lua_key) }
{
    let name = match Name::from_text(alloc, "lua") {
        Ok(name) => name,
        Err(TextFault::NoMemory) => return Err(AllocError),
        Err(_) => unreachable!(),
    };
    let version = match Version::read(alloc, "5.4-1") {
        Ok(version) => version,
        Err(VersionFault::NoMemory) => return Err(AllocError),
        Err(VersionFault::BadVersion { .. } | VersionFault::NumberTooLong { .. }) => unreachable!(),
    };
    Ok(RockKey { name, version })
}
