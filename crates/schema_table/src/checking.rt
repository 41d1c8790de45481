ghost use Rattle.std.specs.Prelude.{◌≤◌, ◌^◌, length};
ghost use Rattle.lua_value.specs.Ordered.{IsOrdered};
ghost use Rattle.schema_table.specs.Checks.{Checks};

use crate::absence::first_missing;
use crate::fault::ShapeFault;
use crate::row::{Format, Row};
use crate::visits::visit_entries;
use lua_value::Table;
use std::alloc::Global;

/// Checks a table by rows, in a format. There are at most 4,294,967,296 rows.
///
/// The row of a path, which is a list of keys, is the first that matches it and has no part `*`,
/// and where there is none the first that matches it. Entries are visited in key order, and a table
/// before its entries. A table within is gone into where its row's shape is `Closed`, `Open` or
/// `Lists`, or where it is `Named` and some row has one more part and matches the path up to that.
///
/// The error is that of the first visited path that has one: `Unknown` where it has no row and the
/// table above is the whole one or has a row of shape `Closed`, else `TooNew`, else `WrongShape`.
/// Where none has one, it is `Missing` for the first row that has to be there, and isn't in some
/// table where its last part would be. `NoMemory` may come instead of any answer
/// (this project's own).
pub fn check(alloc: Global, rows: &[Row], value: &Table, format: Format) -> Result<(), ShapeFault>
    requires few { length rows.now ≤ 2 ^ 32 }
    requires ordered { IsOrdered value.now }
    ensures { Checks rows.now value.now format result }
{
    visit_entries(alloc, rows, format, value, &[])?;
    match first_missing(rows, value, format) {
        Some(number) => Err(ShapeFault::Missing { row: number as u32 }),
        None => Ok(()),
    }
}
