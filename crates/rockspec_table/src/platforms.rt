//! Which fields may have tables for platforms, and which have bad ones.
ghost use Rattle.std.specs.Prelude.{◌≡◌, ◌↔◌, IfOk, IfErr, OnOk, IsTrue};
ghost use Rattle.std.specs.List.{list_any};
ghost use Rattle.std.specs.Str.{bytes_eq};
ghost use Rattle.lua_value.specs.Ordered.{IsOrdered};
ghost use Rattle.lua_value.specs.Pairs.{value_at};
ghost use Rattle.lua_value.specs.declared.key.Key.TheVariants.{Text};
ghost use Rattle.schema_table.specs.Paths.{referents};
ghost use Rattle.rockspec_table.specs.Faults.{IsPlatformsFault};
ghost use Rattle.rockspec_table.specs.Platforms.{platform_fields, is_platform_field, table_at};
ghost use Rattle.rockspec_table.specs.Platforms.{IsNoTable, HasBadPlatforms, HasGoodPlatforms};

use crate::TableFault;
use crate::lookups::{table_at, value_at};
use lua_value::{Key, Table, Value};
use rocks_bytes::Bytes;
use std::alloc::{AllocError, Global};

// The fields that may have tables for platforms, in the order in which their faults are told.
fn platform_fields() -> &'static [&'static str]
    ensures { referents result.now ≡ platform_fields }
{
    &[
        "build",
        "dependencies",
        "build_dependencies",
        "test_dependencies",
        "external_dependencies",
        "source",
        "hooks",
        "test",
    ]
}

fn is_among(names: &[&str], name: &[u8]) -> bool
    ensures { result ≡ list_any (λ other. bytes_eq name.now other.now) names.now }
{
    names.iter().any(|other| name == other.as_bytes())
}

/// Whether the key is that of a field that may have tables for platforms.
pub fn is_platform_field(key: &Key) -> bool
    ensures { result ≡ is_platform_field key.now }
{
    match key {
        Key::Text(name) => is_among(platform_fields(), name.as_slice()),
        _ => false,
    }
}

// Whether something stands at a text key, and is no table.
fn is_no_table(alloc: Global, table: &Table, name: &str) -> Result<bool, AllocError>
    requires { IsOrdered table.now }
    ensures { IfOk result (λ is. IsTrue is ↔ IsNoTable (value_at (Text name.now) table.now)) }
{
    match value_at(alloc, table, name)? {
        None | Some(Value::Table(_)) => Ok(false),
        Some(_) => Ok(true),
    }
}

fn has_bad_platforms(alloc: Global, field: &Table) -> Result<bool, AllocError>
    requires { IsOrdered field.now }
    ensures { IfOk result (λ is. IsTrue is ↔ HasBadPlatforms field.now) }
{
    match value_at(alloc, field, "platforms")? {
        None => Ok(false),
        Some(Value::Table(platforms)) => {
            Ok(is_no_table(alloc, platforms, "unix")? || is_no_table(alloc, platforms, "linux")?)
        }
        Some(_) => Ok(true),
    }
}

// Whether the field is a table with bad platforms.
fn is_bad_field(alloc: Global, globals: &Table, name: &str) -> Result<bool, AllocError>
    requires { IsOrdered globals.now }
    ensures { IfOk result (λ is. IsTrue is ↔ HasBadPlatforms (table_at name.now globals.now)) }
{
    match table_at(alloc, globals, name)? {
        Some(field) => has_bad_platforms(alloc, field),
        None => Ok(false),
    }
}

/// Finds the first field with bad platforms. The error is `BadPlatforms` with it, or `NoMemory`.
pub fn check_platforms(alloc: Global, globals: &Table) -> Result<(), TableFault>
    requires { IsOrdered globals.now }
    ensures ok { OnOk result (HasGoodPlatforms globals.now) }
    ensures err { IfErr result (IsPlatformsFault globals.now) }
{
    for name in platform_fields() {
        if is_bad_field(alloc, globals, name)? {
            let field = Bytes::from(Vec::from_slice(alloc, name.as_bytes())?);
            return Err(TableFault::BadPlatforms { field });
        }
    }
    Ok(())
}
