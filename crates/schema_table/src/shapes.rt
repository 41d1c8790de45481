//! Whether a value has a shape.
ghost use Rattle.std.specs.Prelude.{◌≡◌, ◌<◌, ◌↔◌, IsTrue, Some, slice_get};
ghost use Rattle.lua_value.specs.Ordered.{IsOrdered, IsServed};
ghost use Rattle.lua_value.specs.Pairs.{count, listed};
ghost use Rattle.lua_value.specs.View.{datum};
ghost use Rattle.schema_table.specs.Shapes.{IsText, IsTable, EachValue, EachKey, IsTextKey};
ghost use Rattle.schema_table.specs.Shapes.{IsIntOrTextKey, HasTableShape, HasShape};

use crate::row::Shape;
use lua_value::{Key, Table, Value};

/// The entry at a place that the table has.
pub fn entry_at(table: &Table, at: usize) -> (&Key, &Value)
    requires ordered { IsOrdered table.now }
    requires within { at < count table.now }
    ensures entry { slice_get (listed table.now) at
        ≡ Some (result.0.now, datum result.1.now) }
    ensures served { IsServed (datum result.1.now) }
{
    table.entry(at).unwrap()
}

fn is_text(value: &Value) -> bool
    ensures { IsTrue result ↔ IsText (datum value.now) }
{
    matches!(value, Value::Text(_))
}

fn is_table(value: &Value) -> bool
    ensures { IsTrue result ↔ IsTable (datum value.now) }
{
    matches!(value, Value::Table(_))
}

fn is_text_key(key: &Key) -> bool
    ensures { IsTrue result ↔ IsTextKey key.now }
{
    matches!(key, Key::Text(_))
}

fn is_int_or_text_key(key: &Key) -> bool
    ensures { IsTrue result ↔ IsIntOrTextKey key.now }
{
    matches!(key, Key::Int(_) | Key::Text(_))
}

fn has_texts(table: &Table) -> bool
    requires { IsOrdered table.now }
    ensures { IsTrue result ↔ EachValue IsText table.now }
{
    for at in 0..table.len() {
        if !is_text(entry_at(table, at).1) {
            return false;
        }
    }
    true
}

fn has_tables(table: &Table) -> bool
    requires { IsOrdered table.now }
    ensures { IsTrue result ↔ EachValue IsTable table.now }
{
    for at in 0..table.len() {
        if !is_table(entry_at(table, at).1) {
            return false;
        }
    }
    true
}

fn has_text_keys(table: &Table) -> bool
    requires { IsOrdered table.now }
    ensures { IsTrue result ↔ EachKey IsTextKey table.now }
{
    for at in 0..table.len() {
        if !is_text_key(entry_at(table, at).0) {
            return false;
        }
    }
    true
}

fn has_int_or_text_keys(table: &Table) -> bool
    requires { IsOrdered table.now }
    ensures { IsTrue result ↔ EachKey IsIntOrTextKey table.now }
{
    for at in 0..table.len() {
        if !is_int_or_text_key(entry_at(table, at).0) {
            return false;
        }
    }
    true
}

fn table_has_shape(shape: Shape, table: &Table) -> bool
    requires { IsOrdered table.now }
    ensures { IsTrue result ↔ HasTableShape shape table.now }
{
    match shape {
        Shape::Text | Shape::Bool => false,
        Shape::Texts => table.is_list() && has_texts(table),
        Shape::Mixed => has_int_or_text_keys(table) && has_texts(table),
        Shape::Named => has_text_keys(table),
        Shape::Closed | Shape::Open => true,
        Shape::Lists => table.is_list() && has_tables(table),
    }
}

/// Whether the value has the shape.
pub fn has_shape(shape: Shape, value: &Value) -> bool
    requires { IsServed (datum value.now) }
    ensures { IsTrue result ↔ HasShape shape (datum value.now) }
{
    match value {
        Value::Table(table) => table_has_shape(shape, table),
        Value::Text(_) => shape == Shape::Text,
        Value::Bool(_) => shape == Shape::Bool,
        _ => false,
    }
}
