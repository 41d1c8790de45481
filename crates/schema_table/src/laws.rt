//! Laws of checks, as contracts of functions that do nothing.
ghost use Rattle.std.specs.Prelude.{◌≡◌, ◌≢◌, Err};
ghost use Rattle.schema_table.specs.declared.fault.ShapeFault.TheVariants.{NoMemory};
ghost use Rattle.schema_table.specs.Checks.{Fits, Checks};
ghost use Rattle.schema_table.specs.Formats.{IsOlder};

use crate::fault::ShapeFault;
use crate::row::{Format, Row};
use lua_value::Table;

/// A table that fits rows in a format fits them in every later format.
pub fn later_formats(rows: &[Row], table: &Table, format: Format, later: Format)
    requires fits { Fits rows.now table.now format }
    requires older { IsOlder format later }
    ensures { Fits rows.now table.now later }
{}

/// For rows, a table and a format there is one answer at most, besides want of memory.
pub fn one_answer(
    rows: &[Row],
    table: &Table,
    format: Format,
    first: &Result<(), ShapeFault>,
    second: &Result<(), ShapeFault>,
)
    requires first { Checks rows.now table.now format first.now }
    requires second { Checks rows.now table.now format second.now }
    requires first_told { first.now ≢ Err NoMemory }
    requires second_told { second.now ≢ Err NoMemory }
    ensures { first.now ≡ second.now }
{}
