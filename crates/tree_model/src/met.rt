//! The rock that meets a dependency.
ghost use Rattle.std.specs.Prelude.{◌≡◌, ◌≤◌, IfOk, length};
ghost use Rattle.std.specs.List.{find, AllWithin};
ghost use Rattle.std.specs.Option.{option_map};
ghost use Rattle.std.specs.declared.cmp.Ordering.TheVariants.{Less};
ghost use Rattle.rocks_text.specs.Files.{path_cmp};
ghost use Rattle.tree_sets.specs.Needs.{is_met_by, lua_key, met_by};
ghost use Rattle.tree_sets.specs.Sets.{keys_in, AreListed};

use rocks_constraint::{Dependency, meets};
use rocks_text::{Name, TextFault};
use rocks_version::{RockKey, Version, VersionFault};
use std::alloc::{AllocError, Global};
use tree_sets::IndexEntry;

/// The rock that meets a dependency: Lua, or the first of the rocks that does, and Lua again where none does. Rocks of
/// the dependency's name are found by binary search.
pub fn met_by<'a>(
    lua: &'a RockKey,
    entries: &'a [IndexEntry],
    dependency: &Dependency,
) -> &'a RockKey
    requires lua { lua.now ≡ lua_key }
    requires listed { AreListed (keys_in entries.now) }
    ensures { result.now ≡ met_by (keys_in entries.now) dependency.now }
{
    if is_met_by(dependency, lua) {
        return lua;
    }
    let start = start_of(entries, dependency.name());
    match first_met(&entries[start..], dependency) {
        Some(entry) => &entry.key,
        None => lua,
    }
}

fn first_met<'a>(entries: &'a [IndexEntry], dependency: &Dependency) -> Option<&'a IndexEntry>
    ensures { option_map (λ entry. entry.now) result
        ≡ find (λ entry. is_met_by dependency.now entry.key) entries.now }
{
    entries
        .iter()
        .find(|entry| is_met_by(dependency, &entry.key))
}

// How many rocks have a name below this one.
fn start_of(entries: &[IndexEntry], name: &Name) -> usize
    requires { AreListed (keys_in entries.now) }
    ensures within { result ≤ length entries.now }
    ensures below { AllWithin (λ entry. path_cmp entry.key.name name.now ≡ Less) entries.now 0 result }
{
    entries.partition_point(|entry| entry.key.name < *name)
}

fn is_met_by(dependency: &Dependency, key: &RockKey) -> bool
    ensures { result ≡ is_met_by dependency.now key.now }
{
    dependency.name().as_str() == key.name.as_str() && meets(&key.version, dependency.constraints())
}

/// What Lua itself provides. The only error is want of memory.
#[tactic(auto, using(crate::proofs::LuaVersion::no_fault))]
pub fn lua_key(alloc: Global) -> Result<RockKey, AllocError>
    ensures { IfOk result (λ key. key ≡ lua_key) }
{
    let name = match Name::from_text(alloc, "lua") {
        Ok(name) => name,
        Err(TextFault::NoMemory) => return Err(AllocError),
        Err(_) => unreachable!(),
    };
    let version = match Version::read(alloc, "5.4-1") {
        Ok(version) => version,
        Err(VersionFault::NoMemory) => return Err(AllocError),
        Err(VersionFault::BadVersion { .. } | VersionFault::NumberTooLong { .. }) => unreachable!(),
    };
    Ok(RockKey { name, version })
}
