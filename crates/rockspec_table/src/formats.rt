//! The format that globals say.
ghost use Rattle.std.specs.Prelude.{◌≡◌, IfOk, IfErr, None, Some};
ghost use Rattle.lua_value.specs.Ordered.{IsOrdered};
ghost use Rattle.rockspec_table.specs.Formats.{format_named, format_of};
ghost use Rattle.rockspec_table.specs.Faults.{IsFormatFault};

use crate::TableFault;
use crate::lookups::value_at;
use lua_value::{Table, Value};
use schema_table::Format;
use std::alloc::Global;

fn format_named(name: &[u8]) -> Option<Format>
    ensures { result ≡ format_named name.now }
{
    match name {
        b"1.0" => Some(Format::One),
        b"1.1" => Some(Format::OneOne),
        b"3.0" => Some(Format::Three),
        _ => None,
    }
}

/// The format of a rockspec with these globals. The error is `BadFormat` or `NoMemory`.
pub fn read_format(alloc: Global, globals: &Table) -> Result<Format, TableFault>
    requires { IsOrdered globals.now }
    ensures ok { IfOk result (λ format. format_of globals.now ≡ Some format) }
    ensures err { IfErr result (IsFormatFault globals.now) }
{
    let Some(value) = value_at(alloc, globals, "rockspec_format")? else {
        return Ok(Format::One);
    };
    let Value::Text(name) = value else {
        return Err(TableFault::BadFormat);
    };
    format_named(name.as_slice()).ok_or(TableFault::BadFormat)
}
