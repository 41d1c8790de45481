//! The rows of rockspecs.
ghost use Rattle.std.specs.Prelude.{◌≡◌, ◌++◌, IfOk, OnOk};
ghost use Rattle.std.specs.List.{join_with_byte};
ghost use Rattle.lua_value.specs.Ordered.{IsOrdered};
ghost use Rattle.schema_table.specs.Paths.{referents};
ghost use Rattle.rockspec_table.specs.Rows.{row_path, AreRockspecRows, ChecksRockspec};

use lua_value::Table;
use rocks_bytes::Bytes;
use schema_table::{Format, Row, ShapeFault, check};
use std::alloc::{AllocError, Global};

// A row of a path's parts, a shape, a format and when it has to be there.
macro_rules! row {
    ($path:expr, $shape:ident, $since:ident, $must:ident) => {
        schema_table::Row {
            path: &$path,
            shape: schema_table::Shape::$shape,
            since: schema_table::Format::$since,
            must: schema_table::Must::$must,
        }
    };
}

// The rows of rockspecs, numbered from 0 in this order.
fn rows() -> [Row; 41]
    ensures { AreRockspecRows result }
{
    [
        row!(["rockspec_format"], Text, One, No),
        row!(["package"], Text, One, Always),
        row!(["version"], Text, One, Always),
        row!(["description"], Closed, One, No),
        row!(["description", "summary"], Text, One, No),
        row!(["description", "detailed"], Text, One, No),
        row!(["description", "homepage"], Text, One, No),
        row!(["description", "license"], Text, One, No),
        row!(["description", "maintainer"], Text, One, No),
        row!(["description", "labels"], Texts, Three, No),
        row!(["description", "issues_url"], Text, Three, No),
        row!(["supported_platforms"], Texts, One, No),
        row!(["dependencies"], Texts, One, No),
        row!(["build_dependencies"], Texts, Three, No),
        row!(["test_dependencies"], Texts, Three, No),
        row!(["external_dependencies"], Open, One, No),
        row!(["external_dependencies", "*"], Open, One, No),
        row!(["source"], Open, One, Always),
        row!(["source", "url"], Text, One, Always),
        row!(["source", "md5"], Text, One, No),
        row!(["source", "file"], Text, One, No),
        row!(["source", "dir"], Text, One, No),
        row!(["source", "tag"], Text, One, No),
        row!(["source", "branch"], Text, One, No),
        row!(["source", "module"], Text, One, No),
        row!(["source", "cvs_tag"], Text, One, No),
        row!(["source", "cvs_module"], Text, One, No),
        row!(["build"], Open, One, BeforeThree),
        row!(["build", "type"], Text, One, BeforeThree),
        row!(["build", "modules"], Named, One, No),
        row!(["build", "install"], Closed, One, No),
        row!(["build", "install", "lua"], Mixed, One, No),
        row!(["build", "install", "lib"], Mixed, One, No),
        row!(["build", "install", "bin"], Mixed, One, No),
        row!(["build", "install", "conf"], Mixed, One, No),
        row!(["build", "copy_directories"], Texts, One, No),
        row!(["build", "patches"], Named, One, No),
        row!(["hooks"], Open, One, No),
        row!(["deploy"], Open, One, No),
        row!(["deploy", "wrap_bin_scripts"], Bool, One, No),
        row!(["test"], Open, Three, No),
    ]
}

/// Checks a table by the rows of rockspecs, in a format.
pub fn check_rows(alloc: Global, table: &Table, format: Format) -> Result<(), ShapeFault>
    requires { IsOrdered table.now }
    ensures { ChecksRockspec table.now format result }
{
    check(alloc, &rows(), table, format)
}

/// The path of the row of this number, counted from 0, with dots between its parts; empty where there is no such row.
/// The only error is want of memory.
pub fn row_path(alloc: Global, number: u32) -> Result<Bytes, AllocError>
    ensures { IfOk result (λ path. path ≡ row_path number) }
{
    match rows().get(number as usize) {
        Some(row) => joined(alloc, row.path),
        None => Ok(Bytes::from(Vec::new(alloc))),
    }
}

fn joined(alloc: Global, parts: &[&str]) -> Result<Bytes, AllocError>
    ensures { IfOk result (λ path. path ≡ join_with_byte 46 (referents parts.now)) }
{
    let mut path = Vec::new(alloc);
    append_parts(parts, &mut path)?;
    Ok(Bytes::from(path))
}

// Appends parts with dots between them.
fn append_parts(parts: &[&str], path: &mut Vec<u8>) -> Result<(), AllocError>
    ensures { OnOk result
        (path.new.items ≡ path.old.items ++ join_with_byte 46 (referents parts.now)) }
{
    match parts {
        [] => Ok(()),
        [last] => path.extend_from_slice(last.as_bytes()),
        [first, rest @ ..] => {
            path.extend_from_slice(first.as_bytes())?;
            path.push(b'.')?;
            append_parts(rest, path)
        }
    }
}
