//! Reading the tables of a rockspec.
ghost use Rattle.std.specs.Prelude.{◌≡◌, ◌≢◌, ◌↔◌, IfOk, IsTrue};
ghost use Rattle.lua_value.specs.Ordered.{IsOrdered};
ghost use Rattle.lua_value.specs.Pairs.{no_pairs};
ghost use Rattle.lua_value.specs.View.{datum};
ghost use Rattle.build_plan.specs.Entries.{bytes_of, table_at};
ghost use Rattle.build_plan.specs.Plans.{key_bytes};

use lua_value::{Key, Table, Value};
use rocks_bytes::Bytes;
use rockspec_table::value_at;
use std::alloc::{AllocError, Global};

/// The table at a text key, or else the empty one. The only error is want of memory.
pub fn table_at<'a>(
    alloc: Global,
    table: &'a Table,
    name: &str,
    empty: &'a Table,
) -> Result<&'a Table, AllocError>
    requires ordered { IsOrdered table.now }
    requires empty { empty.now ≡ no_pairs }
    ensures value { IfOk result (λ found. found.now ≡ table_at name.now table.now) }
    ensures ordered { IfOk result (λ found. IsOrdered found.now) }
{
    match value_at(alloc, table, name)? {
        Some(Value::Table(found)) => Ok(found),
        _ => Ok(empty),
    }
}

/// Whether a table stands at a text key that has entries. The only error is want of memory.
pub fn has_entries(
    alloc: Global,
    table: &Table,
    name: &str,
    empty: &Table,
) -> Result<bool, AllocError>
    requires ordered { IsOrdered table.now }
    requires empty { empty.now ≡ no_pairs }
    ensures { IfOk result (λ has. IsTrue has ↔ (table_at name.now table.now ≢ no_pairs)) }
{
    Ok(table_at(alloc, table, name, empty)?.len() > 0)
}

/// The bytes of a text; another value has none.
pub fn bytes_of(value: &Value) -> &[u8]
    ensures { result.now ≡ bytes_of (datum value.now) }
{
    match value {
        Value::Text(bytes) => bytes.as_slice(),
        _ => &[],
    }
}

/// The bytes of a text; another key has none.
pub fn key_bytes(key: &Key) -> &[u8]
    ensures { result.now ≡ key_bytes key.now }
{
    match key {
        Key::Text(bytes) => bytes.as_slice(),
        _ => &[],
    }
}

/// Equal bytes. The only error is want of memory.
pub fn copied(alloc: Global, bytes: &[u8]) -> Result<Bytes, AllocError>
    ensures { IfOk result (λ copied. copied ≡ bytes.now) }
{
    Ok(Bytes::from(Vec::from_slice(alloc, bytes)?))
}
