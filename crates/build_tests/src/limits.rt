//! How many files and bytes a rock may have.
use crate::compare::{is_rock, is_told};
use crate::made::{Way, made};
use crate::served::{put, shelf};
use rocks_outside::MemoryShelf;
use std::alloc::Global;
use std::process::Abort;
use std::test::Fail;

const FOLDER: &str = "modules = {}, copy_directories = {'doc'}";

// A build that installs one source so many times, and what else it does.
fn targets(alloc: Global, count: u32, more: &str) -> Result<String, Fail> {
    let mut fields = String::from_str(alloc, "modules = {}, install = {bin = {")?;
    for number in 10_000..10_000u32.saturating_add(count) {
        fields.push_str(&format!(in alloc; "f{number} = 'x', ")?)?;
    }
    fields.push_str(more)?;
    Ok(fields)
}

// A server with so many empty files in the folder `doc`.
fn many(rt: &impl Abort, alloc: Global, count: u32) -> Result<MemoryShelf, Fail> {
    let mut shelf = shelf(rt, alloc, &[("m-1.0-1/x", "")])?;
    for number in 10_000..10_000u32.saturating_add(count) {
        let path = format!(in alloc; "m-1.0-1/doc/f{number}")?;
        put(rt, alloc, &mut shelf, &path, b"")?;
    }
    Ok(shelf)
}

// A rock is made with so many items and own files, which have so many bytes together.
fn is_made(
    rt: &impl Abort,
    alloc: Global,
    fields: &str,
    shelf: &mut MemoryShelf,
    wanted: (usize, usize, usize),
) -> Result<(), Fail> {
    let rock = made(rt, alloc, Way::Build, fields, shelf)??;
    let mut size = 0usize;
    for (_, bytes) in rock.items.as_slice() {
        size = size.saturating_add(bytes.as_slice().len());
    }
    for (_, bytes) in rock.own.as_slice() {
        size = size.saturating_add(bytes.as_slice().len());
    }
    assert!(rt;
        (rock.items.len(), rock.own.len(), size) == wanted,
        "{fields}"
    );
    Ok(())
}

#[test]
fn a_thousand_files_of_a_folder_are_copied(rt: HostRuntime) -> Result<(), Fail> {
    let mut shelf = shelf(&rt, rt.alloc(), &[])?;
    let mut wanted = String::new(rt.alloc());
    for number in 1_000..2_000 {
        let path = format!(in rt.alloc(); "m-1.0-1/doc/{number}")?;
        let bytes = format!(in rt.alloc(); "{number}")?;
        put(&rt, rt.alloc(), &mut shelf, &path, bytes.as_bytes())?;
        wanted.push_str(&format!(in rt.alloc(); "own doc/{number} = {number}\n")?)?;
    }
    is_rock(&rt, rt.alloc(), Way::Build, FOLDER, &mut shelf, &wanted)
}

// The files of a folder come behind 4,989 others and one of configuration.
#[test]
fn a_rock_may_have_5_000_files(rt: HostRuntime) -> Result<(), Fail> {
    let alloc = rt.alloc();
    let fields = targets(alloc, 4_989, "}, conf = {'x'}}, copy_directories = {'doc'}")?;
    is_made(
        &rt,
        alloc,
        &fields,
        &mut many(&rt, alloc, 10)?,
        (4_989, 11, 0),
    )
}

#[test]
fn the_next_file_is_too_large(rt: HostRuntime) -> Result<(), Fail> {
    let alloc = rt.alloc();
    let fields = targets(alloc, 4_989, "}, conf = {'x'}}, copy_directories = {'doc'}")?;
    let mut shelf = many(&rt, alloc, 12)?;
    is_told(
        &rt,
        alloc,
        Way::Build,
        &fields,
        &mut shelf,
        "TooLarge doc/f10010",
    )
}

#[test]
fn a_next_file_that_is_absent_is_missing(rt: HostRuntime) -> Result<(), Fail> {
    let alloc = rt.alloc();
    let fields = targets(alloc, 5_000, "f15000 = 'y'}}")?;
    let mut shelf = many(&rt, alloc, 0)?;
    is_told(&rt, alloc, Way::Build, &fields, &mut shelf, "MissingFile y")
}

fn zeros(alloc: Global, count: usize) -> Result<Vec<u8>, Fail> {
    Ok(vec![in alloc; 0; count]?)
}

const ONE: &str = "modules = {m = 'x.lua'}";

#[test]
fn a_file_may_have_16_mebibytes(rt: HostRuntime) -> Result<(), Fail> {
    let alloc = rt.alloc();
    let mut shelf = shelf(&rt, alloc, &[])?;
    put(
        &rt,
        alloc,
        &mut shelf,
        "m-1.0-1/x.lua",
        &zeros(alloc, 16_777_216)?,
    )?;
    is_made(&rt, alloc, ONE, &mut shelf, (1, 0, 16_777_216))
}

// With one byte more it is too large. What is missing before it answers first, and what is missing behind it doesn't.
#[test]
fn a_longer_file_is_too_large(rt: HostRuntime) -> Result<(), Fail> {
    let alloc = rt.alloc();
    let mut shelf = shelf(&rt, alloc, &[])?;
    put(
        &rt,
        alloc,
        &mut shelf,
        "m-1.0-1/x.lua",
        &zeros(alloc, 16_777_217)?,
    )?;
    is_told(&rt, alloc, Way::Build, ONE, &mut shelf, "TooLarge x.lua")?;
    let before = "modules = {a = 'y.lua', b = 'x.lua'}";
    is_told(
        &rt,
        alloc,
        Way::Build,
        before,
        &mut shelf,
        "MissingFile y.lua",
    )?;
    let behind = "modules = {a = 'x.lua', b = 'y.lua'}";
    is_told(&rt, alloc, Way::Build, behind, &mut shelf, "TooLarge x.lua")
}

// In an unpacked rock a file that stands in the way comes before all others.
#[test]
fn a_longer_file_of_an_unpacked_rock_is_too_large(rt: HostRuntime) -> Result<(), Fail> {
    let alloc = rt.alloc();
    let mut shelf = shelf(&rt, alloc, &[("m-1.0-1.rock/z", "")])?;
    put(
        &rt,
        alloc,
        &mut shelf,
        "m-1.0-1.rock/lua/x",
        &zeros(alloc, 16_777_217)?,
    )?;
    is_told(&rt, alloc, Way::Take, ONE, &mut shelf, "TooLarge lua/x")?;
    put(&rt, alloc, &mut shelf, "m-1.0-1.rock/rock_manifest/x", b"")?;
    is_told(
        &rt,
        alloc,
        Way::Take,
        ONE,
        &mut shelf,
        "BadTarget rock_manifest/x",
    )
}

// A build of a file of 16 mebibytes, four times, and of another. One source counts as often as it is installed.
const FIVE: &str =
    "modules = {a = 'x.lua', b = 'x.lua', c = 'x.lua'}, install = {bin = {'x.lua'}, conf = {'y'}}";

fn four_large(rt: &impl Abort, alloc: Global, last: &[u8]) -> Result<MemoryShelf, Fail> {
    let mut shelf = shelf(rt, alloc, &[])?;
    put(
        rt,
        alloc,
        &mut shelf,
        "m-1.0-1/x.lua",
        &zeros(alloc, 16_777_216)?,
    )?;
    put(rt, alloc, &mut shelf, "m-1.0-1/y", last)?;
    Ok(shelf)
}

#[test]
fn a_rock_may_have_64_mebibytes(rt: HostRuntime) -> Result<(), Fail> {
    let mut shelf = four_large(&rt, rt.alloc(), b"")?;
    is_made(&rt, rt.alloc(), FIVE, &mut shelf, (4, 1, 67_108_864))
}

#[test]
fn one_byte_more_is_too_large(rt: HostRuntime) -> Result<(), Fail> {
    let mut shelf = four_large(&rt, rt.alloc(), b"y")?;
    is_told(&rt, rt.alloc(), Way::Build, FIVE, &mut shelf, "TooLarge y")
}

// A path of a source of so many bytes.
fn long_path(alloc: Global, length: usize) -> Result<String, Fail> {
    let mut path = String::new(alloc);
    for place in 0..length {
        path.push_str(if place % 100 == 99 { "/" } else { "a" })?;
    }
    Ok(path)
}

// With the folder's name a path has 8 bytes more. One of 1,025 bytes can't be that of a file on a server.
#[test]
fn a_source_whose_path_is_too_long_is_missing(rt: HostRuntime) -> Result<(), Fail> {
    let alloc = rt.alloc();
    let mut shelf = shelf(&rt, alloc, &[("m-1.0-1/x", "")])?;
    let path = long_path(alloc, 1_016)?;
    let fields = format!(in alloc; "modules = {{}}, install = {{bin = {{x = '{path}'}}}}")?;
    put(
        &rt,
        alloc,
        &mut shelf,
        &format!(in alloc; "m-1.0-1/{path}")?,
        b"1",
    )?;
    is_rock(&rt, alloc, Way::Build, &fields, &mut shelf, "Bin x = 1\n")?;
    let path = long_path(alloc, 1_017)?;
    let fields = format!(in alloc; "modules = {{}}, install = {{bin = {{x = '{path}'}}}}")?;
    let wanted = format!(in alloc; "MissingFile {path}")?;
    is_told(&rt, alloc, Way::Build, &fields, &mut shelf, &wanted)
}
