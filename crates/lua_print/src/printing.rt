ghost use Rattle.std.specs.Prelude.{◌≡◌, ◌≢◌, ◌++◌, ◌<◌, ◌∷◌, [], length, slice_get, if◌then◌else◌, IfOk, OnOk, OnErr, Some, codes};
ghost use Rattle.std.specs.Fmt.{decimal};
ghost use Rattle.lua_value.specs.Ordered.{IsOrdered, IsServed};
ghost use Rattle.lua_value.specs.Pairs.{count, listed, keys};
ghost use Rattle.lua_value.specs.View.{datum};
ghost use Rattle.lua_print.specs.Printed.{truth_text, key_text, value_text, entries_text, table_text, deeper, name_text, globals_text, IsNameKey, HasNames};
ghost use Rattle.lua_print.specs.Steps.{is_number_key, entry_text};

use crate::quote::print_quoted;
use lua_names::is_name;
use lua_value::{Key, Table, Value};
use std::alloc::{AllocError, Global};

/// Appends the text of a table of globals: for each global in key order its name, ` = `, its value
/// and a line feed (this project's own). Each key is a name and no keyword.
/// The only error is want of memory, and it leaves `into` as it was.
pub fn print(alloc: Global, table: &Table, into: &mut Vec<u8>) -> Result<(), AllocError>
    requires ordered { IsOrdered table.now }
    requires named { HasNames table.now }
    ensures ok { OnOk result (into.new.items ≡ into.old.items ++ globals_text table.now) }
    ensures err { OnErr result (into.new.items ≡ into.old.items) }
{
    let mut out = Vec::new(alloc);
    for at in 0..table.len() {
        let (key, value) = entry_at(table, at);
        print_global(alloc, key, value, &mut out)?;
    }
    into.extend_from_slice(&out)
}

fn entry_at(table: &Table, at: usize) -> (&Key, &Value)
    requires ordered { IsOrdered table.now }
    requires within { at < count table.now }
    ensures entry { slice_get (listed table.now) at
        ≡ Some (result.0.now, datum result.1.now) }
    ensures served { IsServed (datum result.1.now) }
{
    table.entry(at).unwrap()
}

fn print_global(
    alloc: Global,
    key: &Key,
    value: &Value,
    out: &mut Vec<u8>,
) -> Result<(), AllocError>
    requires named { IsNameKey key.now }
    requires served { IsServed (datum value.now) }
    ensures { OnOk result (out.new.items
        ≡ out.old.items
        ++ (name_text key.now ++ codes " = " ++ value_text [] (datum value.now) ++ 10 ∷ [])) }
{
    if let Key::Text(name) = key {
        out.extend_from_slice(name.as_slice())?;
    }
    out.extend_from_slice(b" = ")?;
    print_value(alloc, value, &[], out)?;
    out.extend_from_slice(b"\n")
}

// Appends a value on a line with this indentation.
#[cycle(print)]
fn print_value(
    alloc: Global,
    value: &Value,
    indent: &[u8],
    out: &mut Vec<u8>,
) -> Result<(), AllocError>
    requires { IsServed (datum value.now) }
    ensures { OnOk result
        (out.new.items ≡ out.old.items ++ value_text indent.now (datum value.now)) }
{
    match value {
        Value::Nil => out.extend_from_slice(b"nil"),
        Value::Bool(truth) => print_truth(*truth, out),
        Value::Int(number) => print_number(alloc, *number, out),
        Value::Text(bytes) => print_quoted(bytes.as_slice(), out),
        Value::Table(table) => print_table(alloc, table, indent, out),
    }
}

#[cycle(print)]
fn print_table(
    alloc: Global,
    table: &Table,
    indent: &[u8],
    out: &mut Vec<u8>,
) -> Result<(), AllocError>
    requires { IsOrdered table.now }
    ensures { OnOk result (out.new.items
        ≡ out.old.items ++ table_text indent.now table.now) }
{
    if table.len() == 0 {
        return out.extend_from_slice(b"{}");
    }
    let within = deeper(alloc, indent)?;
    out.extend_from_slice(b"{\n")?;
    print_entries(alloc, table, &within, out)?;
    out.extend_from_slice(indent)?;
    out.extend_from_slice(b"}")
}

// The indentation of the lines within a table that stands on a line with this one.
fn deeper(alloc: Global, indent: &[u8]) -> Result<Vec<u8>, AllocError>
    ensures { IfOk result (λ made. made.items ≡ deeper indent.now) }
{
    let mut made = Vec::from_slice(alloc, indent)?;
    made.extend_from_slice(b"   ")?;
    Ok(made)
}

#[cycle(print)]
fn print_entries(
    alloc: Global,
    table: &Table,
    indent: &[u8],
    out: &mut Vec<u8>,
) -> Result<(), AllocError>
    requires { IsOrdered table.now }
    ensures { OnOk result (out.new.items
        ≡ out.old.items ++ entries_text indent.now (keys table.now) table.now) }
{
    // How many of the keys 1, 2 and so on came so far without a gap.
    let mut positions = 0;
    for at in 0..table.len() {
        let (key, value) = entry_at(table, at);
        let is_position = is_number(key, positions + 1);
        if is_position {
            positions += 1;
        }
        print_entry(alloc, value, key, is_position, indent, out)?;
    }
    Ok(())
}

#[cycle(print)]
fn print_entry(
    alloc: Global,
    value: &Value,
    key: &Key,
    is_position: bool,
    indent: &[u8],
    out: &mut Vec<u8>,
) -> Result<(), AllocError>
    requires { IsServed (datum value.now) }
    ensures { OnOk result (out.new.items
        ≡ out.old.items ++ entry_text indent.now is_position key.now (datum value.now)) }
{
    out.extend_from_slice(indent)?;
    if !is_position {
        print_key(alloc, key, out)?;
    }
    print_value(alloc, value, indent, out)?;
    out.extend_from_slice(b",\n")
}

fn is_number(key: &Key, number: u64) -> bool
    ensures { result ≡ is_number_key key.now number }
{
    match key {
        Key::Int(found) => *found == number,
        _ => false,
    }
}

fn print_key(alloc: Global, key: &Key, out: &mut Vec<u8>) -> Result<(), AllocError>
    ensures { OnOk result (out.new.items ≡ out.old.items ++ key_text key.now) }
{
    if let Key::Text(bytes) = key {
        if is_name(bytes.as_slice()) {
            out.extend_from_slice(bytes.as_slice())?;
            return out.extend_from_slice(b" = ");
        }
    }
    out.extend_from_slice(b"[")?;
    match key {
        Key::Int(number) => print_number(alloc, *number, out)?,
        Key::Text(bytes) => print_quoted(bytes.as_slice(), out)?,
        Key::Bool(truth) => print_truth(*truth, out)?,
    }
    out.extend_from_slice(b"] = ")
}

fn print_truth(truth: bool, out: &mut Vec<u8>) -> Result<(), AllocError>
    ensures { OnOk result (out.new.items ≡ out.old.items ++ truth_text truth) }
{
    out.extend_from_slice(if truth { b"true" } else { b"false" })
}

fn print_number(alloc: Global, number: u64, out: &mut Vec<u8>) -> Result<(), AllocError>
    ensures { OnOk result (out.new.items ≡ out.old.items ++ decimal number) }
{
    out.extend_from_slice(number.to_string(alloc)?.as_bytes())
}
