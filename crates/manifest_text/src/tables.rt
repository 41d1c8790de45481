// The manifest as a table of Lua.
ghost use Rattle.std.specs.Prelude.{◌≡◌, string_bytes, IfOk, OnOk};
ghost use Rattle.lua_print.specs.Printed.{HasNames};
ghost use Rattle.lua_value.specs.Key.{IsKey};
ghost use Rattle.lua_value.specs.Ordered.{IsOrdered};
ghost use Rattle.lua_value.specs.Pairs.{no_pairs, put, table_value, text_value, value_at};
ghost use Rattle.lua_value.specs.declared.key.Key.TheVariants.{Text};
ghost use Rattle.manifest_text.specs.Text.{dependencies_of, installed, key_text, keys_pairs};
ghost use Rattle.manifest_text.specs.Text.{manifest_pairs, need_pairs, needs_pairs, provided_pairs};
ghost use Rattle.manifest_text.specs.Text.{put_rock, repository_of, table_in};

use crate::{ManifestView, ViewRock};
use lua_value::{Key, Table, Value};
use rocks_bytes::Bytes;
use rocks_constraint::Dependency;
use rocks_text::FilePath;
use rocks_version::RockKey;
use sqlite_items::Items;
use std::alloc::{AllocError, Global};

/// The table of the five globals. The only error is want of memory.
pub fn manifest_table(alloc: Global, whole: &ManifestView) -> Result<Table, AllocError>
    ensures value { IfOk result (λ table. table ≡ manifest_pairs whole.now) }
    ensures ordered { IfOk result (λ table. IsOrdered table) }
    ensures named { IfOk result (λ table. HasNames table) }
{
    let rocks = whole.rocks.as_slice();
    let mut table = Table::new(alloc);
    set(
        alloc,
        &mut table,
        b"commands",
        provided(alloc, whole.commands.as_slice())?,
    )?;
    set(
        alloc,
        &mut table,
        b"dependencies",
        dependencies(alloc, rocks)?,
    )?;
    set(
        alloc,
        &mut table,
        b"libs",
        provided(alloc, whole.libs.as_slice())?,
    )?;
    set(
        alloc,
        &mut table,
        b"modules",
        provided(alloc, whole.modules.as_slice())?,
    )?;
    set(alloc, &mut table, b"repository", repository(alloc, rocks)?)?;
    Ok(table)
}

// Sets the table at a key.
fn set(alloc: Global, table: &mut Table, key: &[u8], value: Table) -> Result<(), AllocError>
    requires ordered { IsOrdered table.old }
    requires value { IsOrdered value }
    ensures ordered { IsOrdered table.new }
    ensures ok { OnOk result (table.new ≡ put (Text key.now) (table_value value) table.old) }
{
    table.insert(text_key(alloc, key)?, Value::Table(value))?;
    Ok(())
}

// Sets the text at a key.
fn set_text(alloc: Global, table: &mut Table, key: Key, text: &[u8]) -> Result<(), AllocError>
    requires ordered { IsOrdered table.old }
    requires key { IsKey key }
    ensures ordered { IsOrdered table.new }
    ensures ok { OnOk result (table.new ≡ put key (text_value text.now) table.old) }
{
    table.insert(key, Value::Text(Bytes::from(Vec::from_slice(alloc, text)?)))?;
    Ok(())
}

fn text_key(alloc: Global, key: &[u8]) -> Result<Key, AllocError>
    ensures { IfOk result (λ made. made ≡ Text key.now) }
{
    Ok(Key::Text(Bytes::from(Vec::from_slice(alloc, key)?)))
}

// Each path with the rocks that have it.
fn provided(alloc: Global, paths: &[(FilePath, Items<RockKey>)]) -> Result<Table, AllocError>
    ensures value { IfOk result (λ table. table ≡ provided_pairs paths.now) }
    ensures ordered { IfOk result (λ table. IsOrdered table) }
{
    let mut table = Table::new(alloc);
    for (path, rocks) in paths {
        let keys = keys(alloc, rocks.as_slice())?;
        set(alloc, &mut table, path.as_str().as_bytes(), keys)?;
    }
    Ok(table)
}

// A list of rocks.
fn keys(alloc: Global, rocks: &[RockKey]) -> Result<Table, AllocError>
    ensures value { IfOk result (λ table. table ≡ keys_pairs rocks.now) }
    ensures ordered { IfOk result (λ table. IsOrdered table) }
{
    let mut table = Table::new(alloc);
    for at in 0..rocks.len() {
        let text = key_text(alloc, &rocks[at])?;
        set_text(
            alloc,
            &mut table,
            Key::Int((at + 1) as u64),
            text.as_bytes(),
        )?;
    }
    Ok(table)
}

fn key_text(alloc: Global, key: &RockKey) -> Result<String, AllocError>
    ensures { IfOk result (λ text. string_bytes text ≡ key_text key.now) }
{
    let name = key.name.as_str();
    let version = key.version.as_str();
    format!(in alloc; "{name}/{version}")
}

// For each name and version what the rock needs.
fn dependencies(alloc: Global, rocks: &[ViewRock]) -> Result<Table, AllocError>
    ensures value { IfOk result (λ table. table ≡ dependencies_of rocks.now) }
    ensures ordered { IfOk result (λ table. IsOrdered table) }
{
    let mut table = Table::new(alloc);
    for rock in rocks {
        let needs = needs(alloc, rock.dependencies.as_slice())?;
        set_rock(alloc, &mut table, &rock.key, needs)?;
    }
    Ok(table)
}

// For each name and version that the rock is installed.
fn repository(alloc: Global, rocks: &[ViewRock]) -> Result<Table, AllocError>
    ensures value { IfOk result (λ table. table ≡ repository_of rocks.now) }
    ensures ordered { IfOk result (λ table. IsOrdered table) }
{
    let mut table = Table::new(alloc);
    for rock in rocks {
        set_rock(alloc, &mut table, &rock.key, installed(alloc)?)?;
    }
    Ok(table)
}

// What a rock needs, each with the rock that meets it.
fn needs(alloc: Global, needed: &[(Dependency, RockKey)]) -> Result<Table, AllocError>
    ensures value { IfOk result (λ table. table ≡ needs_pairs needed.now) }
    ensures ordered { IfOk result (λ table. IsOrdered table) }
{
    let mut table = Table::new(alloc);
    for at in 0..needed.len() {
        let (dependency, met) = &needed[at];
        table.insert(
            Key::Int((at + 1) as u64),
            Value::Table(need(alloc, dependency, met)?),
        )?;
    }
    Ok(table)
}

fn need(alloc: Global, dependency: &Dependency, met: &RockKey) -> Result<Table, AllocError>
    ensures value { IfOk result (λ table. table ≡ need_pairs (dependency.now, met.now)) }
    ensures ordered { IfOk result (λ table. IsOrdered table) }
{
    let met = key_text(alloc, met)?;
    let needs = dependency.text(alloc)?;
    let mut table = Table::new(alloc);
    set_text(alloc, &mut table, text_key(alloc, b"met")?, met.as_bytes())?;
    set_text(
        alloc,
        &mut table,
        text_key(alloc, b"needs")?,
        needs.as_bytes(),
    )?;
    Ok(table)
}

// Sets the table of a rock below its name and version.
fn set_rock(alloc: Global, table: &mut Table, key: &RockKey, value: Table) -> Result<(), AllocError>
    requires ordered { IsOrdered table.old }
    requires value { IsOrdered value }
    ensures ordered { IsOrdered table.new }
    ensures ok { OnOk result (table.new ≡ put_rock key.now (table_value value) table.old) }
{
    let name = key.name.as_str().as_bytes();
    let mut versions = taken(alloc, table, name)?;
    set(alloc, &mut versions, key.version.as_str().as_bytes(), value)?;
    set(alloc, table, name, versions)
}

// Takes the table at a key out, and leaves an empty one; an empty one where there was none.
fn taken(alloc: Global, table: &mut Table, key: &[u8]) -> Result<Table, AllocError>
    requires { IsOrdered table.old }
    ensures ordered { IsOrdered table.new }
    ensures left { OnOk result (table.new ≡ put (Text key.now) (table_value no_pairs) table.old) }
    ensures value { IfOk result (λ old. old ≡ table_in (value_at (Text key.now) table.old)) }
    ensures taken_ordered { IfOk result (λ old. IsOrdered old) }
{
    match table.insert(text_key(alloc, key)?, Value::Table(Table::new(alloc)))? {
        Some(Value::Table(old)) => Ok(old),
        _ => Ok(Table::new(alloc)),
    }
}

// The one entry that says that a rock is installed.
fn installed(alloc: Global) -> Result<Table, AllocError>
    ensures value { IfOk result (λ table. table ≡ installed) }
    ensures ordered { IfOk result (λ table. IsOrdered table) }
{
    let mut entry = Table::new(alloc);
    set_text(alloc, &mut entry, text_key(alloc, b"arch")?, b"installed")?;
    let mut list = Table::new(alloc);
    list.insert(Key::Int(1), Value::Table(entry))?;
    Ok(list)
}
