ghost use Rattle.std.specs.Prelude.{◌≡◌, ◌≢◌, IfOk, IfErr, Err};
ghost use Rattle.lua_value.specs.Ordered.{IsOrdered};
ghost use Rattle.rockspec_table.specs.Fields.{HasFields, IsTableFault};
ghost use Rattle.rockspec_table.specs.declared.fault.TableFault.TheVariants.{NoMemory};

use crate::TableFault;
use crate::formats::read_format;
use crate::merging::merged_fields;
use crate::platforms::check_platforms;
use crate::rows::check_rows;
use lua_value::Table;
use schema_table::{Format, ShapeFault};
use std::alloc::Global;

/// The fields of a rockspec.
#[derive(Debug, Drop)]
pub struct Fields {
    pub format: Format,
    /// The globals, with the tables for platforms merged.
    pub table: Table,
}

/// The fields that a rockspec's globals are (LuaRocks documentation, rockspec format).
///
/// The format is `1.0` where `rockspec_format` is absent. In each of `build`, `dependencies`, `build_dependencies`,
/// `test_dependencies`, `external_dependencies`, `source`, `hooks` and `test` that is a table, the entry `platforms` is
/// taken out, and its table `unix` and then its table `linux`, where they are there, are merged over the field.
/// What comes of it has to fit the rows of rockspecs.
///
/// The error is the first of `BadFormat`, `BadPlatforms` with the first such field in the order above, and `Shape`;
/// `NoMemory` may come instead of any answer.
pub fn read_fields(alloc: Global, globals: &Table) -> Result<Fields, TableFault>
    requires { IsOrdered globals.now }
    ensures ordered { IfOk result (λ found. IsOrdered found.table) }
    ensures value { IfOk result (λ found. HasFields globals.now found.format found.table) }
    ensures fault { IfErr result (IsTableFault globals.now) }
{
    let format = read_format(alloc, globals)?;
    check_platforms(alloc, globals)?;
    let table = merged_fields(alloc, globals)?;
    match check_rows(alloc, &table, format) {
        Ok(()) => Ok(Fields { format, table }),
        Err(ShapeFault::NoMemory) => Err(TableFault::NoMemory),
        Err(fault) => Err(TableFault::Shape(fault)),
    }
}
