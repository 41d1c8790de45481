//! Shelves that fail at one call.
use crate::compare::{is_rock, is_told};
use crate::made::Way;
use crate::served::{Files, shelf};
use failing_objects::FailingShelf;
use std::alloc::Global;
use std::process::Abort;
use std::test::Fail;

// The build calls for the listing and three files.
const RECIPE: &str = "modules = {a = 'x.lua', b = 'y.lua'}, copy_directories = {'doc'}";

const SOURCES: Files = &[
    ("m-1.0-1/doc/z", "3"),
    ("m-1.0-1/x.lua", "1"),
    ("m-1.0-1/y.lua", "2"),
];

const BUILT: &str = "Lua a.lua = 1\nLua b.lua = 2\nown doc/z = 3\n";

// One file is missing, as the build finds at its third call.
const SOME_SOURCES: Files = &[("m-1.0-1/doc/z", "3"), ("m-1.0-1/x.lua", "1")];

// To take it calls for the listing and two files.
const ROCK: Files = &[
    ("m-1.0-1.rock/lua/a", "1"),
    ("m-1.0-1.rock/m-1.0-1.rockspec", "x"),
    ("m-1.0-1.rock/rock_manifest", "x"),
    ("m-1.0-1.rock/z", "2"),
];

const BAD_ROCK: Files = &[
    ("m-1.0-1.rock/lua/a", "1"),
    ("m-1.0-1.rock/rock_manifest/x", "x"),
];

// A shelf with these files on which so many calls are done and then none.
fn shelf_after(
    rt: &impl Abort,
    alloc: Global,
    files: Files,
    calls: u64,
) -> Result<FailingShelf, Fail> {
    Ok(FailingShelf::new(shelf(rt, alloc, files)?, calls))
}

// After fewer than so many calls the fault is the shelf's.
fn fails_before(
    rt: &impl Abort,
    alloc: Global,
    way: Way,
    files: Files,
    calls: u64,
) -> Result<(), Fail> {
    for done in 0..calls {
        let mut shelf = shelf_after(rt, alloc, files, done)?;
        is_told(rt, alloc, way, RECIPE, &mut shelf, "ShelfFault")?;
    }
    Ok(())
}

#[test]
fn a_build_fails_with_its_shelf(rt: HostRuntime) -> Result<(), Fail> {
    let alloc = rt.alloc();
    fails_before(&rt, alloc, Way::Build, SOURCES, 4)?;
    let mut shelf = shelf_after(&rt, alloc, SOURCES, 4)?;
    is_rock(&rt, alloc, Way::Build, RECIPE, &mut shelf, BUILT)
}

#[test]
fn taking_fails_with_its_shelf(rt: HostRuntime) -> Result<(), Fail> {
    let alloc = rt.alloc();
    fails_before(&rt, alloc, Way::Take, ROCK, 3)?;
    let mut shelf = shelf_after(&rt, alloc, ROCK, 3)?;
    is_rock(
        &rt,
        alloc,
        Way::Take,
        RECIPE,
        &mut shelf,
        "Lua a = 1\nown z = 2\n",
    )
}

// The shelf's fault comes only in place of what isn't known yet.
#[test]
fn what_was_found_first_answers(rt: HostRuntime) -> Result<(), Fail> {
    let alloc = rt.alloc();
    fails_before(&rt, alloc, Way::Build, SOME_SOURCES, 3)?;
    let mut shelf = shelf_after(&rt, alloc, SOME_SOURCES, 3)?;
    is_told(
        &rt,
        alloc,
        Way::Build,
        RECIPE,
        &mut shelf,
        "MissingFile y.lua",
    )?;
    fails_before(&rt, alloc, Way::Build, &[], 1)?;
    let mut shelf = shelf_after(&rt, alloc, &[], 1)?;
    is_told(&rt, alloc, Way::Build, RECIPE, &mut shelf, "NoSourceFolder")?;
    fails_before(&rt, alloc, Way::Take, BAD_ROCK, 1)?;
    let mut shelf = shelf_after(&rt, alloc, BAD_ROCK, 1)?;
    is_told(
        &rt,
        alloc,
        Way::Take,
        RECIPE,
        &mut shelf,
        "BadTarget rock_manifest/x",
    )
}
