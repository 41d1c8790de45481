//! How what comes of builds is compared with what is wanted.
use crate::made::{Way, made};
use crate::served::{Files, shelf};
use crate::told::told;
use rocks_outside::Shelf;
use std::alloc::Global;
use std::process::Abort;
use std::str;
use std::test::Fail;

/// The fields of a rockspec's table `build`, the files of a server, and what comes of them: a fault, or the lines of a
/// rock's files. Those that all rocks have here are left out.
pub type Case = (&'static str, Files, &'static str);

/// The first lines of each rock.
const HEAD: &str = "m 1.0-1\nneeds lua >= 5.1\nneeds b\n";

/// Compares the files of rocks with the texts.
pub fn compare_rocks(rt: &impl Abort, alloc: Global, way: Way, cases: &[Case]) -> Result<(), Fail> {
    for (fields, files, wanted) in cases {
        let mut shelf = shelf(rt, alloc, files)?;
        is_rock(rt, alloc, way, fields, &mut shelf, wanted)?;
    }
    Ok(())
}

/// Compares the texts of faults.
pub fn compare_faults(
    rt: &impl Abort,
    alloc: Global,
    way: Way,
    cases: &[Case],
) -> Result<(), Fail> {
    for (fields, files, wanted) in cases {
        let mut shelf = shelf(rt, alloc, files)?;
        is_told(rt, alloc, way, fields, &mut shelf, wanted)?;
    }
    Ok(())
}

/// A rock with these files is made.
pub fn is_rock<F: Shelf>(
    rt: &impl Abort,
    alloc: Global,
    way: Way,
    fields: &str,
    shelf: &mut F,
    files: &str,
) -> Result<(), Fail> {
    let wanted = format!(in alloc; "{HEAD}{files}")?;
    is_told(rt, alloc, way, fields, shelf, &wanted)
}

/// What comes of a rockspec has this text.
pub fn is_told<F: Shelf>(
    rt: &impl Abort,
    alloc: Global,
    way: Way,
    fields: &str,
    shelf: &mut F,
    wanted: &str,
) -> Result<(), Fail> {
    let made = made(rt, alloc, way, fields, shelf)?;
    let found = told(alloc, &made)?;
    let found = str::from_utf8(&found).unwrap_or("no text");
    assert_eq!(rt; found, wanted, "{fields}");
    Ok(())
}
