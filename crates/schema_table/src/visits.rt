//! The first fault of what a table holds.
ghost use Rattle.std.specs.Prelude.{◌≡◌, ◌<◌, ◌≤◌, ◌^◌, ◌↔◌, ◌∷◌, ◌++◌, [], IsTrue, IfOk, IfErr};
ghost use Rattle.std.specs.Prelude.{OnOk, MatchResult, length, List, ℕ, None};
ghost use Rattle.lua_value.specs.Ordered.{IsOrdered, IsServed};
ghost use Rattle.lua_value.specs.View.{datum};
ghost use Rattle.schema_table.specs.Formats.{IsOlder};
ghost use Rattle.schema_table.specs.Paths.{referents, key_text, path_text};
ghost use Rattle.schema_table.specs.Rows.{row_number};
ghost use Rattle.schema_table.specs.Visits.{IsOpened, IsGoneInto, IsClosed, IsFaultOf, IsUnknown};
ghost use Rattle.schema_table.specs.Walk.{IsClear, IsClearTable, IsFirstReached, IsFirstReachedIn};
ghost use Rattle.schema_table.specs.Walk.{IfTold, IsFaultlessAt, IsUnknownFault};

use crate::fault::ShapeFault;
use crate::matching::{has_deeper, row_number};
use crate::row::{Format, Row, Shape};
use crate::shapes::{entry_at, has_shape};
use lua_value::{Key, Table, Value};
use rocks_bytes::Bytes;
use std::alloc::{AllocError, Global};

fn append_key(alloc: Global, key: &Key, out: &mut Vec<u8>) -> Result<(), AllocError>
    ensures { OnOk result (out.new.items ≡ out.old.items ++ key_text key.now) }
{
    match key {
        Key::Int(number) => out.extend_from_slice(number.to_string(alloc)?.as_bytes()),
        Key::Text(bytes) => out.extend_from_slice(bytes.as_slice()),
        Key::Bool(true) => out.extend_from_slice(b"true"),
        Key::Bool(false) => out.extend_from_slice(b"false"),
    }
}

fn path_text(alloc: Global, path: &[&Key]) -> Result<Bytes, AllocError>
    ensures { IfOk result (λ text. text ≡ path_text (referents path.now)) }
{
    let mut out = Vec::new(alloc);
    for (at, key) in path.iter().enumerate() {
        if at > 0 {
            out.push(b'.')?;
        }
        append_key(alloc, key, &mut out)?;
    }
    Ok(Bytes::from(out))
}

fn is_older(format: Format, other: Format) -> bool
    ensures { IsTrue result ↔ IsOlder format other }
{
    format < other
}

fn is_opened(rows: &[Row], path: &[&Key], shape: Shape) -> bool
    ensures { IsTrue result ↔ IsOpened rows.now (referents path.now) shape }
{
    match shape {
        Shape::Closed | Shape::Open | Shape::Lists => true,
        Shape::Named => has_deeper(rows, path),
        _ => false,
    }
}

// Whether a table at the path has no keys but those of rows.
fn is_closed(rows: &[Row], path: &[&Key]) -> bool
    ensures { IsTrue result ↔ IsClosed rows.now (referents path.now) }
{
    if path.is_empty() {
        return true;
    }
    match row_number(rows, path) {
        Some(number) => rows[number].shape == Shape::Closed,
        None => false,
    }
}

// Checks a path that has no row.
fn check_unknown(alloc: Global, rows: &[Row], path: &[&Key]) -> Result<(), ShapeFault>
    requires { row_number rows.now (referents path.now) ≡ None }
    ensures ok { OnOk result ((told : List ℕ) → ¬ IsUnknown rows.now (referents path.now) told) }
    ensures err { IfErr result (λ fault. IfTold fault
        (IsUnknownFault rows.now (referents path.now) fault)) }
{
    if let Some((_, front)) = path.split_last() {
        if is_closed(rows, front) {
            return Err(ShapeFault::Unknown {
                path: path_text(alloc, path)?,
            });
        }
    }
    Ok(())
}

// Checks the value at the path alone, and answers whether it is gone into, if it's a table.
fn check_value(
    alloc: Global,
    rows: &[Row],
    format: Format,
    value: &Value,
    path: &[&Key],
) -> Result<bool, ShapeFault>
    requires few { length rows.now ≤ 2 ^ 32 }
    requires served { IsServed (datum value.now) }
    ensures ok { OnOk result
        (IsFaultlessAt rows.now format (referents path.now) (datum value.now)) }
    ensures enters { IfOk result
        (λ enters. IsTrue enters ↔ IsGoneInto rows.now (referents path.now)) }
    ensures err { IfErr result (λ fault. IfTold fault
        (IsFaultOf rows.now format (referents path.now) (datum value.now) fault)) }
{
    let Some(number) = row_number(rows, path) else {
        check_unknown(alloc, rows, path)?;
        return Ok(false);
    };
    let row = &rows[number];
    if is_older(format, row.since) {
        return Err(ShapeFault::TooNew { row: number as u32 });
    }
    if !has_shape(row.shape, value) {
        return Err(ShapeFault::WrongShape { row: number as u32 });
    }
    Ok(is_opened(rows, path, row.shape))
}

// The path with one more key.
fn extended<'a>(alloc: Global, path: &[&'a Key], key: &'a Key) -> Result<Vec<&'a Key>, AllocError>
    ensures { IfOk result
        (λ made. referents made.items ≡ referents path.now ++ key.now ∷ []) }
{
    let mut made = Vec::from_slice(alloc, path)?;
    made.push(key)?;
    Ok(made)
}

// Checks the value at the path, and what it holds.
#[cycle(visit)]
fn visit<'a>(
    alloc: Global,
    rows: &[Row],
    format: Format,
    value: &'a Value,
    path: &[&'a Key],
) -> Result<(), ShapeFault>
    requires few { length rows.now ≤ 2 ^ 32 }
    requires served { IsServed (datum value.now) }
    ensures { MatchResult result
        (λ _. IsClear rows.now format (referents path.now) (datum value.now))
        (λ fault. IfTold fault
        (IsFirstReached rows.now format (referents path.now) (datum value.now) fault)) }
{
    let enters = check_value(alloc, rows, format, value, path)?;
    match value {
        Value::Table(table) if enters => visit_entries(alloc, rows, format, table, path),
        _ => Ok(()),
    }
}

/// Checks what the table at the path holds, in key order, a table before its entries.
#[cycle(visit)]
pub fn visit_entries<'a>(
    alloc: Global,
    rows: &[Row],
    format: Format,
    table: &'a Table,
    path: &[&'a Key],
) -> Result<(), ShapeFault>
    requires few { length rows.now ≤ 2 ^ 32 }
    requires ordered { IsOrdered table.now }
    ensures { MatchResult result
        (λ _. IsClearTable rows.now format (referents path.now) table.now)
        (λ fault. IfTold fault
        (IsFirstReachedIn rows.now format (referents path.now) table.now fault)) }
{
    for at in 0..table.len() {
        let (key, value) = entry_at(table, at);
        let below = extended(alloc, path, key)?;
        visit(alloc, rows, format, value, &below)?;
    }
    Ok(())
}
