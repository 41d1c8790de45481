//! How the answers of checks are compared.
ghost use Rattle.std.specs.Prelude.{◌≤◌, length};

use lua_text::globals;
use schema_table::{Format, Row, ShapeFault, check};
use std::alloc::Global;
use std::process::Abort;
use std::test::Fail;

/// What is wanted of a check.
#[derive(Clone, Copy)]
pub enum Wanted {
    Fits,
    Unknown(&'static [u8]),
    TooNew(u32),
    WrongShape(u32),
    Missing(u32),
}

/// A Lua text, a format, and what is wanted of a check of the text's globals in that format.
pub type Case = (&'static [u8], Format, Wanted);

fn is_wanted(found: &Result<(), ShapeFault>, wanted: Wanted) -> bool {
    match (found, wanted) {
        (Ok(()), Wanted::Fits) => true,
        (Err(ShapeFault::Unknown { path }), Wanted::Unknown(text)) => path.as_slice() == text,
        (Err(ShapeFault::TooNew { row }), Wanted::TooNew(number)) => *row == number,
        (Err(ShapeFault::WrongShape { row }), Wanted::WrongShape(number)) => *row == number,
        (Err(ShapeFault::Missing { row }), Wanted::Missing(number)) => *row == number,
        _ => false,
    }
}

fn answers(
    alloc: Global,
    rows: &[Row],
    text: &[u8],
    format: Format,
    wanted: Wanted,
) -> Result<bool, Fail>
    requires { length rows.now ≤ 1000 }
{
    let Ok(table) = globals(alloc, text)? else {
        return Ok(false);
    };
    Ok(is_wanted(&check(alloc, rows, &table, format), wanted))
}

/// Compares what checks of the texts' globals answer.
pub fn compare(rt: &impl Abort, alloc: Global, rows: &[Row], cases: &[Case]) -> Result<(), Fail>
    requires { length rows.now ≤ 1000 }
{
    for (place, (text, format, wanted)) in cases.iter().enumerate() {
        let same = answers(alloc, rows, text, *format, *wanted)?;
        assert!(rt; same, "case {place}");
    }
    Ok(())
}
