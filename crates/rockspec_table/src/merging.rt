//! The merge of the tables for platforms.
ghost use Rattle.std.specs.Prelude.{◌≡◌, ◌≢◌, ◌↔◌, IsTrue, IfOk, OnOk};
ghost use Rattle.lua_value.specs.Key.{IsKey};
ghost use Rattle.lua_value.specs.Ordered.{IsOrdered, IsServed};
ghost use Rattle.lua_value.specs.Pairs.{put};
ghost use Rattle.lua_value.specs.Merge.{merged_pairs};
ghost use Rattle.lua_value.specs.View.{datum};
ghost use Rattle.lua_value.specs.declared.key.Key.TheVariants.{Text};
ghost use Rattle.rockspec_table.specs.Platforms.{table_at, without, for_platforms};
ghost use Rattle.rockspec_table.specs.Platforms.{field_value, merged_fields};

use crate::lookups::{entry_at, table_at};
use crate::platforms::is_platform_field;
use lua_value::{Key, Table, Value};
use std::alloc::{AllocError, Global};

fn is_named(key: &Key, name: &str) -> bool
    ensures { IsTrue result ↔ (key.now ≡ Text name.now) }
{
    match key {
        Key::Text(bytes) => bytes.as_slice() == name.as_bytes(),
        _ => false,
    }
}

fn put(key: Key, value: Value, into: &mut Table) -> Result<(), AllocError>
    requires ordered { IsOrdered into.old }
    requires key { IsKey key }
    requires some { value ≢ Value.Nil }
    requires served { IsServed (datum value) }
    ensures ordered { IsOrdered into.new }
    ensures value { OnOk result (into.new ≡ put key (datum value) into.old) }
{
    into.insert(key, value)?;
    Ok(())
}

// The entries but the one at a text key.
fn without(alloc: Global, table: &Table, name: &str) -> Result<Table, AllocError>
    requires { IsOrdered table.now }
    ensures ordered { IfOk result (λ others. IsOrdered others) }
    ensures value { IfOk result (λ others. others ≡ without (Text name.now) table.now) }
{
    let mut others = Table::new(alloc);
    for at in 0..table.len() {
        let (key, value) = entry_at(table, at);
        if !is_named(key, name) {
            put(key.copy(alloc)?, value.copy(alloc)?, &mut others)?;
        }
    }
    Ok(others)
}

// A table with the table of one platform merged over it, where there is one.
fn over_platform(
    alloc: Global,
    field: Table,
    platforms: &Table,
    name: &str,
) -> Result<Table, AllocError>
    requires lower { IsOrdered field }
    requires upper { IsOrdered platforms.now }
    ensures ordered { IfOk result (λ merged. IsOrdered merged) }
    ensures value { IfOk result
        (λ merged. merged ≡ merged_pairs field (table_at name.now platforms.now)) }
{
    match table_at(alloc, platforms, name)? {
        Some(over) => field.merged(alloc, over),
        None => Ok(field),
    }
}

fn for_platforms(alloc: Global, field: &Table) -> Result<Table, AllocError>
    requires { IsOrdered field.now }
    ensures ordered { IfOk result (λ merged. IsOrdered merged) }
    ensures value { IfOk result (λ merged. merged ≡ for_platforms field.now) }
{
    let own = without(alloc, field, "platforms")?;
    let Some(platforms) = table_at(alloc, field, "platforms")? else {
        return Ok(own);
    };
    let unix = over_platform(alloc, own, platforms, "unix")?;
    over_platform(alloc, unix, platforms, "linux")
}

// What becomes of the value at a key of the globals.
fn field_value(alloc: Global, key: &Key, value: &Value) -> Result<Value, AllocError>
    requires served { IsServed (datum value.now) }
    requires some { value.now ≢ Value.Nil }
    ensures value { IfOk result (λ made. datum made ≡ field_value key.now (datum value.now)) }
    ensures some { IfOk result (λ made. made ≢ Value.Nil) }
    ensures served { IfOk result (λ made. IsServed (datum made)) }
{
    match value {
        Value::Table(field) if is_platform_field(key) => {
            Ok(Value::Table(for_platforms(alloc, field)?))
        }
        _ => value.copy(alloc),
    }
}

/// The globals with the tables for platforms merged. The only error is want of memory.
pub fn merged_fields(alloc: Global, globals: &Table) -> Result<Table, AllocError>
    requires { IsOrdered globals.now }
    ensures ordered { IfOk result (λ merged. IsOrdered merged) }
    ensures value { IfOk result (λ merged. merged ≡ merged_fields globals.now) }
{
    let mut merged = Table::new(alloc);
    for at in 0..globals.len() {
        let (key, value) = entry_at(globals, at);
        put(
            key.copy(alloc)?,
            field_value(alloc, key, value)?,
            &mut merged,
        )?;
    }
    Ok(merged)
}
