//! The first row that is missing.
ghost use Rattle.std.specs.Prelude.{◌<◌, ◌↔◌, ℕ, IsTrue, MatchOption, length};
ghost use Rattle.lua_value.specs.Ordered.{IsOrdered, IsServed};
ghost use Rattle.lua_value.specs.View.{datum};
ghost use Rattle.schema_table.specs.Absence.{IsAbsent, IsMissing, IsMissingRow, HasMatch};
ghost use Rattle.schema_table.specs.Absence.{IsAbsentWithin};
ghost use Rattle.schema_table.specs.Formats.{IsMandatory};
ghost use Rattle.schema_table.specs.Paths.{referents};
ghost use Rattle.schema_table.specs.Rows.{part_matches};
ghost use Rattle.schema_table.specs.Shapes.{IsTableAnd};

use crate::matching::part_matches;
use crate::row::{Format, Must, Row};
use crate::shapes::entry_at;
use lua_value::{Table, Value};

fn is_mandatory(must: Must, format: Format) -> bool
    ensures { IsTrue result ↔ IsMandatory must format }
{
    match must {
        Must::No => false,
        Must::Always => true,
        Must::BeforeThree => format < Format::Three,
    }
}

fn has_match(part: &str, table: &Table) -> bool
    requires { IsOrdered table.now }
    ensures { IsTrue result ↔ HasMatch part.now table.now }
{
    for at in 0..table.len() {
        if part_matches(part, entry_at(table, at).0) {
            return true;
        }
    }
    false
}

#[cycle(absence)]
fn is_absent(parts: &[&str], table: &Table) -> bool
    requires { IsOrdered table.now }
    ensures { IsTrue result ↔ IsAbsent (referents parts.now) table.now }
{
    match parts {
        [] => false,
        [last] => !has_match(last, table),
        [first, rest @ ..] => is_absent_within(first, rest, table),
    }
}

// Whether the rest of the parts is absent from a table at a key that the first part matches.
#[cycle(absence)]
fn is_absent_within(first: &str, rest: &[&str], table: &Table) -> bool
    requires { IsOrdered table.now }
    ensures { IsTrue result ↔ IsAbsentWithin first.now (referents rest.now) table.now }
{
    for at in 0..table.len() {
        let (key, value) = entry_at(table, at);
        if part_matches(first, key) && is_absent_in(rest, value) {
            return true;
        }
    }
    false
}

#[cycle(absence)]
fn is_absent_in(parts: &[&str], value: &Value) -> bool
    requires { IsServed (datum value.now) }
    ensures { IsTrue result ↔ IsTableAnd (datum value.now) (IsAbsent (referents parts.now)) }
{
    match value {
        Value::Table(table) => is_absent(parts, table),
        _ => false,
    }
}

fn is_missing(row: &Row, table: &Table, format: Format) -> bool
    requires { IsOrdered table.now }
    ensures { IsTrue result ↔ IsMissingRow table.now format row.now }
{
    is_mandatory(row.must, format) && is_absent(row.path, table)
}

/// The number of the first row that is missing, counted from 0. None where none is.
pub fn first_missing(rows: &[Row], table: &Table, format: Format) -> Option<usize>
    requires { IsOrdered table.now }
    ensures { MatchOption result
        ((number : ℕ) → ¬ IsMissing rows.now table.now format number)
        (λ number. (number < length rows.now) × IsMissing rows.now table.now format number
        × ((other : ℕ) → other < number → ¬ IsMissing rows.now table.now format other)) }
{
    for (number, row) in rows.iter().enumerate() {
        if is_missing(row, table, format) {
            return Some(number);
        }
    }
    None
}
