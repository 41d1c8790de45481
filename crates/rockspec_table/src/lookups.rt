//! What tables have at text keys, and at places.
ghost use Rattle.std.specs.Prelude.{◌≡◌, ◌≢◌, ◌<◌, IfOk, IfSome, MatchOption, Some};
ghost use Rattle.std.specs.Prelude.{option_map, slice_get};
ghost use Rattle.lua_value.specs.Key.{IsKey};
ghost use Rattle.lua_value.specs.Ordered.{IsOrdered, IsServed};
ghost use Rattle.lua_value.specs.Pairs.{no_pairs, count, listed, value_at};
ghost use Rattle.lua_value.specs.View.{datum};
ghost use Rattle.lua_value.specs.declared.key.Key.TheVariants.{Text};
ghost use Rattle.rockspec_table.specs.Platforms.{table_at};

use lua_value::{Key, Table, Value};
use rocks_bytes::Bytes;
use std::alloc::{AllocError, Global};

/// The value at a text key. The only error is want of memory.
pub fn value_at<'a>(
    alloc: Global,
    table: &'a Table,
    name: &str,
) -> Result<Option<&'a Value>, AllocError>
    requires { IsOrdered table.now }
    ensures value { IfOk result (λ found. option_map (λ value. datum value.now) found
        ≡ value_at (Text name.now) table.now) }
    ensures served { IfOk result (λ found. IfSome found (λ value. IsServed (datum value.now))) }
{
    let key = Key::Text(Bytes::from(Vec::from_slice(alloc, name.as_bytes())?));
    Ok(table.get(&key))
}

/// The table at a text key. None where another value stands there, or none. The only error is want of memory.
pub fn table_at<'a>(
    alloc: Global,
    table: &'a Table,
    name: &str,
) -> Result<Option<&'a Table>, AllocError>
    requires { IsOrdered table.now }
    ensures { IfOk result (λ found. MatchOption found
        (table_at name.now table.now ≡ no_pairs)
        (λ within. IsOrdered within.now × (within.now ≡ table_at name.now table.now))) }
{
    match value_at(alloc, table, name)? {
        Some(Value::Table(within)) => Ok(Some(within)),
        _ => Ok(None),
    }
}

/// The entry at a place that the table has.
pub fn entry_at(table: &Table, at: usize) -> (&Key, &Value)
    requires ordered { IsOrdered table.now }
    requires within { at < count table.now }
    ensures entry { slice_get (listed table.now) at
        ≡ Some (result.0.now, datum result.1.now) }
    ensures key { IsKey result.0.now }
    ensures some { result.1.now ≢ Value.Nil }
    ensures served { IsServed (datum result.1.now) }
{
    table.entry(at).unwrap()
}
