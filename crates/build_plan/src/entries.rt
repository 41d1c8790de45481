//! The targets and the folders that a build names.
ghost use Rattle.std.specs.Prelude.{◌≡◌, ◌<◌, ◌++◌, map, slice_get};
ghost use Rattle.lua_value.specs.Ordered.{IsOrdered};
ghost use Rattle.lua_value.specs.Pairs.{no_pairs, count};
ghost use Rattle.build_targets.specs.Meanings.{source};
ghost use Rattle.build_plan.specs.Entries.{entries_of};
ghost use Rattle.build_plan.specs.Plans.{folder_blame};
ghost use Rattle.build_plan.specs.Steps.{targets_of, blamed_in, entries_in, texts_in, first_some};
ghost use Rattle.build_plan.specs.Steps.{Finds, IsMeantAt, IsNamedAt};

use crate::PlanFault;
use crate::fields::{bytes_of, copied, table_at};
use crate::stop::Stop;
use build_targets::{Listing, Target, folder, meaning};
use lua_value::Table;
use rocks_text::FilePath;
use rockspec_table::entry_at;
use std::alloc::Global;

/// The targets of all entries of the modules and of the table `install`, in their order.
pub fn targets(
    alloc: Global,
    modules: &Table,
    install: &Table,
    empty: &Table,
) -> Result<Vec<Target>, Stop>
    requires modules { IsOrdered modules.now }
    requires install { IsOrdered install.now }
    requires empty { empty.now ≡ no_pairs }
    ensures { Finds (λ targets. targets.items ≡ targets_of (entries_in modules.now install.now))
        (blamed_in (entries_in modules.now install.now)) result }
{
    let mut targets = Vec::new(alloc);
    add_targets(alloc, Listing::Modules, modules, &mut targets)?;
    let lua = table_at(alloc, install, "lua", empty)?;
    add_targets(alloc, Listing::Lua, lua, &mut targets)?;
    let lib = table_at(alloc, install, "lib", empty)?;
    add_targets(alloc, Listing::Lib, lib, &mut targets)?;
    let bin = table_at(alloc, install, "bin", empty)?;
    add_targets(alloc, Listing::Bin, bin, &mut targets)?;
    let conf = table_at(alloc, install, "conf", empty)?;
    add_targets(alloc, Listing::Conf, conf, &mut targets)?;
    Ok(targets)
}

// Appends the targets of a table's entries.
fn add_targets(
    alloc: Global,
    listing: Listing,
    table: &Table,
    targets: &mut Vec<Target>,
) -> Result<(), Stop>
    requires { IsOrdered table.now }
    ensures { Finds (λ _. targets.new.items
        ≡ targets.old.items ++ targets_of (entries_of listing table.now))
        (blamed_in (entries_of listing table.now)) result }
{
    for at in 0..table.len() {
        targets.push(target_at(alloc, listing, table, at)?)?;
    }
    Ok(())
}

fn target_at(alloc: Global, listing: Listing, table: &Table, at: usize) -> Result<Target, Stop>
    requires ordered { IsOrdered table.now }
    requires within { at < count table.now }
    ensures { IsMeantAt (slice_get (entries_of listing table.now) at) result }
{
    let (key, value) = entry_at(table, at);
    match meaning(alloc, listing, key, bytes_of(value))? {
        Ok(target) => Ok(target),
        Err(text) => Err(Stop::Refused(PlanFault::BadTarget(text))),
    }
}

/// The folders that the texts of a table name, in their order, for a rock whose rockspec has this file name.
pub fn folders(alloc: Global, rockspec: &str, table: &Table) -> Result<Vec<FilePath>, Stop>
    requires { IsOrdered table.now }
    ensures { Finds (λ folders. folders.items ≡ map source (texts_in table.now))
        (first_some (map (folder_blame rockspec.now) (texts_in table.now))) result }
{
    let mut folders = Vec::new(alloc);
    for at in 0..table.len() {
        folders.push(folder_at(alloc, rockspec, table, at)?)?;
    }
    Ok(folders)
}

fn folder_at(alloc: Global, rockspec: &str, table: &Table, at: usize) -> Result<FilePath, Stop>
    requires ordered { IsOrdered table.now }
    requires within { at < count table.now }
    ensures { IsNamedAt rockspec.now (slice_get (texts_in table.now) at) result }
{
    let text = bytes_of(entry_at(table, at).1);
    match folder(alloc, rockspec, text)? {
        Some(folder) => Ok(folder),
        None => Err(Stop::Refused(PlanFault::BadTarget(copied(alloc, text)?))),
    }
}
