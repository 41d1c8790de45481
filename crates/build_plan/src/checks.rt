//! The faults of a build that come before those of its targets.
ghost use Rattle.std.specs.Prelude.{◌≡◌, ◌↔◌, IfOk, IsTrue, codes, map};
ghost use Rattle.std.specs.Option.{option_map};
ghost use Rattle.std.specs.Str.{bytes_eq};
ghost use Rattle.lua_value.specs.Ordered.{IsOrdered};
ghost use Rattle.lua_value.specs.Pairs.{no_pairs};
ghost use Rattle.build_targets.specs.Meanings.{is_lua_file};
ghost use Rattle.build_targets.specs.declared.meanings.Listing.TheVariants.{Modules};
ghost use Rattle.build_plan.specs.Entries.{build_of, entries_of};
ghost use Rattle.build_plan.specs.Plans.{key_bytes};
ghost use Rattle.build_plan.specs.Steps.{type_in, is_served, modules_in, LacksModules, first_some};
ghost use Rattle.build_plan.specs.Steps.{compiled_name, Passes};

use crate::PlanFault;
use crate::fields::{bytes_of, copied, has_entries, key_bytes, table_at};
use crate::stop::Stop;
use lua_value::{Key, Table};
use rockspec_table::{entry_at, value_at};
use std::alloc::{AllocError, Global};

/// Looks for the first fault of a build, up to a module that needs a compiler. Given are the fields, the table
/// `build` in them, its modules, and a table without entries.
pub fn check_build(
    alloc: Global,
    fields: &Table,
    build: &Table,
    modules: &Table,
    empty: &Table,
) -> Result<(), Stop>
    requires ordered { IsOrdered fields.now }
    requires build { build.now ≡ build_of fields.now }
    requires build_ordered { IsOrdered build.now }
    requires modules { modules.now ≡ modules_in build.now }
    requires modules_ordered { IsOrdered modules.now }
    requires empty { empty.now ≡ no_pairs }
    ensures { Passes fields.now 5 result }
{
    let told = build_type(alloc, build)?;
    if !is_served(told) {
        return Err(Stop::Refused(PlanFault::BuildType(copied(alloc, told)?)));
    }
    if lacks_modules(alloc, build)? {
        return Err(Stop::Refused(PlanFault::NoModules));
    }
    if has_entries(alloc, fields, "external_dependencies", empty)? {
        return Err(Stop::Refused(PlanFault::External));
    }
    if has_entries(alloc, build, "patches", empty)? {
        return Err(Stop::Refused(PlanFault::Patches));
    }
    if let Some(key) = first_compiled(modules) {
        let name = copied(alloc, key_bytes(key))?;
        return Err(Stop::Refused(PlanFault::NeedsCompiler(name)));
    }
    Ok(())
}

/// The modules of a build; one that isn't `builtin` has none. The only error is want of memory.
pub fn modules<'a>(
    alloc: Global,
    build: &'a Table,
    empty: &'a Table,
) -> Result<&'a Table, AllocError>
    requires ordered { IsOrdered build.now }
    requires empty { empty.now ≡ no_pairs }
    ensures value { IfOk result (λ found. found.now ≡ modules_in build.now) }
    ensures ordered { IfOk result (λ found. IsOrdered found.now) }
{
    if is_builtin(alloc, build)? {
        return table_at(alloc, build, "modules", empty);
    }
    Ok(empty)
}

// What a build's type says. The only error is want of memory.
fn build_type<'a>(alloc: Global, build: &'a Table) -> Result<&'a [u8], AllocError>
    requires { IsOrdered build.now }
    ensures { IfOk result (λ told. told.now ≡ type_in build.now) }
{
    match value_at(alloc, build, "type")? {
        Some(value) => Ok(bytes_of(value)),
        None => Ok(b"builtin"),
    }
}

fn is_served(told: &[u8]) -> bool
    ensures { result ≡ is_served told.now }
{
    told == b"builtin".as_slice() || told == b"none".as_slice()
}

fn is_builtin(alloc: Global, build: &Table) -> Result<bool, AllocError>
    requires { IsOrdered build.now }
    ensures { IfOk result (λ is. is ≡ bytes_eq (type_in build.now) (codes "builtin")) }
{
    Ok(build_type(alloc, build)? == b"builtin".as_slice())
}

// Whether a `builtin` build doesn't say `modules`. The only error is want of memory.
fn lacks_modules(alloc: Global, build: &Table) -> Result<bool, AllocError>
    requires { IsOrdered build.now }
    ensures { IfOk result (λ lacks. IsTrue lacks ↔ LacksModules build.now) }
{
    Ok(is_builtin(alloc, build)? && value_at(alloc, build, "modules")?.is_none())
}

// The first of the modules whose file is no Lua file.
fn first_compiled(modules: &Table) -> Option<&Key>
    requires { IsOrdered modules.now }
    ensures { option_map (λ key. key_bytes key.now) result
        ≡ first_some (map compiled_name (entries_of Modules modules.now)) }
{
    for at in 0..modules.len() {
        let (key, value) = entry_at(modules, at);
        if !is_lua_file(bytes_of(value)) {
            return Some(key);
        }
    }
    None
}

fn is_lua_file(file: &[u8]) -> bool
    ensures { result ≡ is_lua_file file.now }
{
    file.ends_with(b".lua")
}
