//! What the manifest of an index says.
ghost use Rattle.std.specs.Prelude.{◌≡◌, map, IfOk};
ghost use Rattle.std.specs.List.{filter};
ghost use Rattle.rock_manifest.specs.Text.{is_kind};
ghost use Rattle.providers.specs.Lists.{AreProviders};
ghost use Rattle.tree_model.specs.Held.{pairs_of};
ghost use Rattle.tree_sets.specs.Needs.{lua_key};
ghost use Rattle.tree_sets.specs.Sets.{keys_in, AreListed, IsIndex};
ghost use Rattle.tree_sets.specs.View.{view_of, view_rock};

use crate::met::{lua_key, met_by};
use manifest_text::{ManifestView, ViewRock};
use providers::Providers;
use rocks_text::{FilePath, Kind};
use rocks_version::RockKey;
use sqlite_items::Items;
use std::alloc::{AllocError, Global};
use tree_sets::IndexEntry;

/// What the manifest of rocks says, by the rocks and by which of them have which items. The only error is want of
/// memory.
pub fn view(
    alloc: Global,
    entries: &[IndexEntry],
    providers: &Providers,
) -> Result<ManifestView, AllocError>
    requires index { IsIndex entries.now }
    requires provided { AreProviders (pairs_of entries.now) providers.now }
    ensures { IfOk result (λ whole. whole ≡ view_of entries.now) }
{
    Ok(ManifestView {
        commands: provided(alloc, Kind::Bin, providers)?,
        libs: provided(alloc, Kind::Lib, providers)?,
        modules: provided(alloc, Kind::Lua, providers)?,
        rocks: view_rocks(alloc, entries)?,
    })
}

// The paths of the items of one kind, each with the rocks that have it.
fn provided(
    alloc: Global,
    kind: Kind,
    providers: &Providers,
) -> Result<Items<(FilePath, Items<RockKey>)>, AllocError>
    ensures { IfOk result (λ paths. paths ≡ map (λ entry. (entry.0.path, entry.1))
        (filter (λ entry. is_kind entry.0.kind kind) providers.now)) }
{
    let mut paths = Items::new(alloc);
    let mut at = 0;
    while let Some((item, rocks)) = providers.entry(at) {
        if is_kind(item.kind, kind) {
            paths.push((item.path.copy(alloc)?, copied_keys(alloc, rocks)?))?;
        }
        at += 1;
    }
    Ok(paths)
}

fn is_kind(kind: Kind, other: Kind) -> bool
    ensures { result ≡ is_kind kind other }
{
    kind == other
}

fn copied_keys(alloc: Global, keys: &[RockKey]) -> Result<Items<RockKey>, AllocError>
    ensures { IfOk result (λ copied. copied ≡ keys.now) }
{
    let mut copied = Items::new(alloc);
    for key in keys {
        copied.push(key.copy(alloc)?)?;
    }
    Ok(copied)
}

// Each rock, with the rocks that meet its dependencies.
fn view_rocks(alloc: Global, entries: &[IndexEntry]) -> Result<Items<ViewRock>, AllocError>
    requires { AreListed (keys_in entries.now) }
    ensures { IfOk result (λ rocks. rocks ≡ map (view_rock (keys_in entries.now)) entries.now) }
{
    let lua = lua_key(alloc)?;
    let mut rocks = Items::new(alloc);
    for entry in entries {
        rocks.push(view_rock(alloc, &lua, entries, entry)?)?;
    }
    Ok(rocks)
}

fn view_rock(
    alloc: Global,
    lua: &RockKey,
    entries: &[IndexEntry],
    entry: &IndexEntry,
) -> Result<ViewRock, AllocError>
    requires lua { lua.now ≡ lua_key }
    requires listed { AreListed (keys_in entries.now) }
    ensures { IfOk result (λ rock. rock ≡ view_rock (keys_in entries.now) entry.now) }
{
    let mut dependencies = Items::new(alloc);
    for dependency in entry.dependencies.as_slice() {
        let met = met_by(lua, entries, dependency).copy(alloc)?;
        dependencies.push((dependency.copy(alloc)?, met))?;
    }
    Ok(ViewRock {
        key: entry.key.copy(alloc)?,
        dependencies,
    })
}
