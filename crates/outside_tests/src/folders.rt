//! The real objects over real folders. Each test has a folder of its own, named after it.

use crate::calls::{Call, Step, files, is_done, take_steps, tree_path};
use crate::reads::{Listing, Read, file_path, take_listings, take_reads};
use rocks_bytes::Text;
use rocks_folders::{FolderDevice, FolderShelf, StdSource};
use rocks_outside::{Device, DeviceError, Shelf, Source};
use sqlite_items::Items;
use std::fs;
use std::os::unix::fs::symlink;
use std::process::Abort;
use std::rt::Files;

// Makes a test's folder, empty.
fn fresh(rt: &(impl Abort + AllocGlobal + Files), folder: &str) {
    if exists(rt, folder) {
        clear(rt, folder);
    }
    make_folder(rt, folder);
}

fn clear(rt: &(impl Abort + AllocGlobal + Files), folder: &str) {
    fs::remove_dir_all(rt, folder).expect(rt, folder);
}

fn make_folder(rt: &(impl Abort + AllocGlobal + Files), folder: &str) {
    fs::create_dir(rt, folder).expect(rt, folder);
}

fn make_file(rt: &(impl Abort + AllocGlobal + Files), path: &str, bytes: &str) {
    fs::write(rt, path, bytes).expect(rt, path);
}

fn exists(rt: &(impl Abort + AllocGlobal + Files), path: &str) -> bool {
    fs::exists(rt, path).expect(rt, path)
}

fn text(rt: &(impl Abort + AllocGlobal), text: &str) -> Text {
    Text::from(String::from_str(rt.alloc(), text).expect(rt, "memory"))
}

fn device<R: Abort + AllocGlobal + Files + Print + Copy + Clone + Drop>(
    rt: &R,
    root: &str,
) -> FolderDevice<R> {
    FolderDevice::new(*rt, text(rt, root))
}

fn shelf<R: Abort + AllocGlobal + Files + Copy + Clone + Drop>(
    rt: &R,
    roots: &[&str],
) -> FolderShelf<R> {
    let mut items = Items::new(rt.alloc());
    for root in roots {
        items.push(text(rt, root)).expect(rt, "memory");
    }
    FolderShelf::new(*rt, items)
}

const STEPS_OF_A_TREE: [Step; 23] = [
    (Call::Remove("a"), true, ""),
    (Call::Rename("a", "b"), true, ""),
    (Call::Write("b", "1"), true, "b=1;"),
    (Call::Write("a/b/c", "2"), true, "a/b/c=2;b=1;"),
    (Call::Write("a/b/c", "longer"), true, "a/b/c=longer;b=1;"),
    (Call::Write("a/b/c", "3"), true, "a/b/c=3;b=1;"),
    (Call::Write("a/b", "4"), false, "a/b/c=3;b=1;"),
    (Call::Write("b/c", "4"), false, "a/b/c=3;b=1;"),
    (Call::Sync, true, "a/b/c=3;b=1;"),
    (Call::Rename("b", "a/b/c"), true, "a/b/c=1;"),
    (Call::Rename("a/b/c", "d/e/f"), true, "d/e/f=1;"),
    (
        Call::Write("a", "now a file"),
        true,
        "a=now a file;d/e/f=1;",
    ),
    (Call::Rename("d/e/f", "d/e"), false, "a=now a file;d/e/f=1;"),
    (Call::Rename("d/e", "g"), true, "a=now a file;d/e/f=1;"),
    (Call::Remove("d/e"), true, "a=now a file;d/e/f=1;"),
    (Call::Remove("a/x"), true, "a=now a file;d/e/f=1;"),
    (Call::Rename("a", "a"), true, "a=now a file;d/e/f=1;"),
    (Call::Write("d/x", "5"), true, "a=now a file;d/e/f=1;d/x=5;"),
    (Call::Remove("d/e/f"), true, "a=now a file;d/x=5;"),
    (Call::Remove("d/x"), true, "a=now a file;"),
    (Call::Write("d/x", "6"), true, "a=now a file;d/x=6;"),
    (Call::Say("said\n"), true, "a=now a file;d/x=6;"),
    (Call::Sync, true, "a=now a file;d/x=6;"),
];

#[test]
fn a_real_tree_keeps_what_is_written(rt: HostRuntime) {
    fresh(&rt, "written");
    let mut device = device(&rt, "written/far/tree/");
    assert!(rt; files(&rt, &mut device, "").as_str() == "");
    take_steps(&rt, &mut device, &STEPS_OF_A_TREE);
    assert!(rt; files(&rt, &mut device, "d/").as_str() == "d/x=6;");
    let of_a_folder = device.read(rt.alloc(), &tree_path(&rt, "d"));
    assert!(rt; of_a_folder.expect(&rt, "a read").is_none());
    clear(&rt, "written");
}

// A call, two folders that stand after it, and one that doesn't.
type FolderStep = (Call, [&'static str; 2], &'static str);

const STEPS_OF_FOLDERS: [FolderStep; 5] = [
    (
        Call::Write("a/b/c/d", "1"),
        ["emptied/tree/a/b", "emptied/tree/a/b/c"],
        "emptied/tree/x",
    ),
    (
        Call::Write("a/e/f", "2"),
        ["emptied/tree/a/e", "emptied/tree/a/b/c"],
        "emptied/tree/x",
    ),
    (
        Call::Rename("a/b/c/d", "x/y"),
        ["emptied/tree/a/e", "emptied/tree/x"],
        "emptied/tree/a/b",
    ),
    (
        Call::Remove("x/y"),
        ["emptied/tree/a/e", "emptied/tree"],
        "emptied/tree/x",
    ),
    (
        Call::Remove("a/e/f"),
        ["emptied/tree", "."],
        "emptied/tree/a",
    ),
];

fn take_folder_step<D: Device>(
    rt: &(impl Abort + AllocGlobal + Files),
    device: &mut D,
    step: &FolderStep,
) {
    let (call, [first, second], gone) = step;
    assert!(rt; is_done(rt, device, call), "{call:?}");
    assert!(rt; exists(rt, first), "{call:?} {first}");
    assert!(rt; exists(rt, second), "{call:?} {second}");
    assert!(rt; !exists(rt, gone), "{call:?} {gone}");
}

#[test]
fn folders_that_become_empty_go_and_the_tree_stays(rt: HostRuntime) {
    fresh(&rt, "emptied");
    let mut device = device(&rt, "emptied/tree");
    for step in &STEPS_OF_FOLDERS {
        take_folder_step(&rt, &mut device, step);
    }
    clear(&rt, "emptied");
}

const READS: [Read; 8] = [
    (0, "r/a", 6, "of one"),
    (0, "r/a", 5, "too long"),
    (1, "r/a", 9, "of two"),
    (1, "r/b", 9, "absent"),
    (0, "r/s", 9, "absent"),
    (0, "r/a/x", 9, "absent"),
    (0, "r/s/c", 4, "deep"),
    (2, "r/a", 9, "fault"),
];

const LISTINGS: [Listing; 6] = [
    (0, "r", "a;s-t;s/c;"),
    (0, "r/s", "c;"),
    (0, "r/a", ""),
    (0, "x", ""),
    (1, "r", "a;"),
    (2, "r", "fault"),
];

// The files of two servers.
fn make_servers(rt: &(impl Abort + AllocGlobal + Files)) {
    for folder in [
        "served/one",
        "served/one/r",
        "served/one/r/s",
        "served/two",
        "served/two/r",
    ] {
        make_folder(rt, folder);
    }
    for (path, bytes) in [
        ("served/one/r/a", "of one"),
        ("served/one/r/s/c", "deep"),
        ("served/one/r/s-t", "between"),
        ("served/two/r/a", "of two"),
    ] {
        make_file(rt, path, bytes);
    }
}

#[test]
fn real_servers_give_what_they_hold(rt: HostRuntime) {
    fresh(&rt, "served");
    make_servers(&rt);
    // The last one isn't there.
    let mut shelf = shelf(&rt, &["served/one", "served/two/", "served/three"]);
    assert_eq!(rt; shelf.servers(), 3);
    take_reads(&rt, &mut shelf, &READS);
    take_listings(&rt, &mut shelf, &LISTINGS);
    clear(&rt, "served");
}

fn make_linked(rt: &(impl Abort + AllocGlobal + Files)) {
    make_folder(rt, "linked/outside");
    make_folder(rt, "linked/tree");
    make_file(rt, "linked/outside/a", "1");
    symlink(rt, "../outside", "linked/tree/link").expect(rt, "a link");
}

#[test]
fn no_link_below_a_root_is_followed(rt: HostRuntime) {
    fresh(&rt, "linked");
    make_linked(&rt);
    let mut device = device(&rt, "linked/tree");
    for call in &[
        Call::Write("link/b", "2"),
        Call::Write("link", "2"),
        Call::Remove("link/a"),
        Call::Rename("link/a", "c"),
        Call::Rename("link", "c"),
    ] {
        assert!(rt; !is_done(&rt, &mut device, call), "{call:?}");
    }
    assert!(rt; device.list(rt.alloc(), "").is_err());
    assert!(rt; exists(&rt, "linked/outside/a"));
    assert!(rt; !exists(&rt, "linked/outside/b"));
    reads_of_links(&rt);
    clear(&rt, "linked");
}

// A root may be a link, also one that stands below another root.
fn reads_of_links(rt: &(impl Abort + AllocGlobal + Files + Copy + Clone + Drop)) {
    let mut shelf = shelf(rt, &["linked/tree/link", "linked/tree"]);
    take_reads(
        rt,
        &mut shelf,
        &[
            (0, "a", 9, "1"),
            (1, "link/a", 9, "fault"),
            (1, "a", 9, "absent"),
        ],
    );
}

fn write_numbered<D: Device>(rt: &(impl Abort + AllocGlobal), device: &mut D, number: u32) {
    let path = format!(in rt.alloc(); "r/{number}/{number}").expect(rt, "memory");
    assert!(rt; device.write(&tree_path(rt, path.as_str()), b"1").is_ok());
}

#[test]
fn many_files_are_listed(rt: HostRuntime) {
    fresh(&rt, "many");
    let mut device = device(&rt, "many/s");
    for number in 0..600u32 {
        write_numbered(&rt, &mut device, number);
    }
    let mut shelf = shelf(&rt, &["many/s"]);
    assert!(rt; shelf.servers() > 0);
    let paths = shelf.list(rt.alloc(), 0, &file_path(&rt, "r"));
    assert_eq!(rt; paths.expect(&rt, "a listing").len(), 600);
    clear(&rt, "many");
}

fn fails_at(rt: &(impl Abort + AllocGlobal + Files + Print + Copy + Clone + Drop), root: &str) {
    let mut device = device(rt, root);
    let write = device.write(&tree_path(rt, "a"), b"1");
    assert!(rt; write == Err(DeviceError::Failed), "{root}");
}

#[test]
fn a_fault_of_a_real_tree_is_answered(rt: HostRuntime) {
    fresh(&rt, "faulty");
    make_file(&rt, "faulty/file", "");
    for root in ["", "faulty/file", "faulty/file/below"] {
        fails_at(&rt, root);
    }
    clear(&rt, "faulty");
}

#[test]
fn standard_input_is_read(rt: HostRuntime) {
    let mut source = StdSource::new(rt);
    let mut piece = [b'.'; 4];
    assert!(rt; source.read(&mut piece) == Ok(0));
    assert!(rt; source.read(&mut piece[..0]) == Ok(0));
}
