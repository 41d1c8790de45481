//! The tables that tests are made of, and how they are compared.
ghost use Rattle.std.specs.Prelude.{◌≡◌, ◌≢◌, IfOk};
ghost use Rattle.lua_value.specs.Key.{IsKey};
ghost use Rattle.lua_value.specs.Ordered.{IsOrdered, IsServed};
ghost use Rattle.lua_value.specs.View.{datum};
ghost use Rattle.lua_print.specs.Printed.{HasNames};

use lua_print::print;
use lua_value::{Key, Table, Value};
use rocks_bytes::Bytes;
use std::alloc::{AllocError, Global};
use std::process::Abort;
use std::test::Fail;

pub fn text(alloc: Global, bytes: &[u8]) -> Result<Bytes, AllocError>
    ensures { IfOk result (λ made. made ≡ bytes.now) }
{
    Ok(Bytes::from(Vec::from_slice(alloc, bytes)?))
}

/// The table with one more entry.
pub fn with(table: Table, key: Key, value: Value) -> Result<Table, AllocError>
    requires ordered { IsOrdered table }
    requires key { IsKey key }
    requires not_nil { value ≢ Value.Nil }
    requires value { IsServed (datum value) }
    ensures { IfOk result (λ made. IsOrdered made) }
{
    let mut made = table;
    made.insert(key, value)?;
    Ok(made)
}

/// The table whose keys are these numbers, each with itself as its value.
pub fn numbers(alloc: Global, keys: &[u8]) -> Result<Table, AllocError>
    ensures { IfOk result (λ made. IsOrdered made) }
{
    let mut made = Table::new(alloc);
    for key in keys {
        let number = u64::from(*key);
        made.insert(Key::Int(number), Value::Int(number))?;
    }
    Ok(made)
}

/// The table whose keys are 1, 2 and so on, with these values, of which there are few.
pub fn list(alloc: Global, items: &[u8]) -> Result<Table, AllocError>
    ensures { IfOk result (λ made. IsOrdered made) }
{
    let mut made = Table::new(alloc);
    let mut key: u8 = 1;
    for item in items {
        made.insert(Key::Int(u64::from(key)), Value::Int(u64::from(*item)))?;
        key = key.wrapping_add(1);
    }
    Ok(made)
}

// The globals of `t = VALUE`.
fn global(alloc: Global, value: Value) -> Result<Table, AllocError>
    requires not_nil { value ≢ Value.Nil }
    requires value { IsServed (datum value) }
    ensures ordered { IfOk result (λ made. IsOrdered made) }
    ensures named { IfOk result (λ made. HasNames made) }
{
    let mut made = Table::new(alloc);
    made.insert(Key::Text(text(alloc, b"t")?), value)?;
    Ok(made)
}

/// Compares what is printed of `t = VALUE`.
pub fn check(rt: &impl Abort, alloc: Global, value: Value, expected: &[u8]) -> Result<(), Fail>
    requires not_nil { value ≢ Value.Nil }
    requires value { IsServed (datum value) }
{
    let mut out = Vec::new(alloc);
    print(alloc, &global(alloc, value)?, &mut out)?;
    assert_eq!(rt; out.as_slice(), expected);
    Ok(())
}
