//! The objects in memory.

use crate::calls::{Call, Step, files, take_steps, tree_path};
use crate::reads::{Listing, Read, file_path, take_listings, take_reads};
use rocks_outside::{Device, MemoryDevice, MemoryShelf, MemorySource, Shelf, Source};
use std::process::Abort;

const STEPS: [Step; 12] = [
    (Call::Write("b", "1"), true, "b=1;"),
    (Call::Write("a/b", "2"), true, "a/b=2;b=1;"),
    (Call::Write("a", "3"), true, "a=3;a/b=2;b=1;"),
    (Call::Write("a/b", "45"), true, "a=3;a/b=45;b=1;"),
    (Call::Rename("b", "a"), true, "a=1;a/b=45;"),
    (Call::Rename("b", "c"), true, "a=1;a/b=45;"),
    (Call::Rename("a", "a"), true, "a=1;a/b=45;"),
    (Call::Remove("a"), true, "a/b=45;"),
    (Call::Remove("a"), true, "a/b=45;"),
    (Call::Say("one"), true, "a/b=45;"),
    (Call::Say("two"), true, "a/b=45;"),
    (Call::Sync, true, "a/b=45;"),
];

fn device(rt: &(impl Abort + AllocGlobal)) -> MemoryDevice {
    MemoryDevice::new(rt.alloc()).expect(rt, "memory")
}

#[test]
fn a_device_keeps_what_is_written(rt: HostRuntime) {
    let mut device = device(&rt);
    assert_eq!(rt; device.clock(), 0);
    take_steps(&rt, &mut device, &STEPS);
    assert!(rt; device.said() == b"onetwo".as_slice());
    assert_eq!(rt; device.clock(), 12);
}

fn write(rt: &(impl Abort + AllocGlobal), device: &mut MemoryDevice, path: &str) {
    assert!(rt; device.write(&tree_path(rt, path), b"1").is_ok());
}

#[test]
fn a_device_lists_by_a_prefix(rt: HostRuntime) {
    let mut device = device(&rt);
    for path in ["a/c", "ab", "a/b", "b/a"] {
        write(&rt, &mut device, path);
    }
    assert!(rt; files(&rt, &mut device, "a/").as_str() == "a/b=1;a/c=1;");
    let read = device.read(rt.alloc(), &tree_path(&rt, "a"));
    assert!(rt; read.expect(&rt, "a read").is_none());
}

// A server, a path, the bytes, and whether they are taken.
const PUTS: [(u32, &str, &str, bool); 8] = [
    (0, "a/b", "12", true),
    (0, "a", "0", false),
    (0, "a/b/c", "0", false),
    (0, "a/b", "123", true),
    (0, "a/c/d", "4", true),
    (0, "a/b-", "5", true),
    (0, "ab", "6", true),
    (1, "a", "7", true),
];

fn put(rt: &(impl Abort + AllocGlobal), shelf: &mut MemoryShelf, row: &(u32, &str, &str, bool)) {
    let (server, path, bytes, taken) = row;
    let at = file_path(rt, path);
    assert!(rt; *server < shelf.servers());
    let answer = shelf.put(*server, &at, bytes.as_bytes());
    assert!(rt; answer.expect(rt, "memory") == *taken, "{path}");
}

// A shelf with two servers, and on them the files of which none is a folder of another.
fn shelf(rt: &(impl Abort + AllocGlobal)) -> MemoryShelf {
    let mut shelf = MemoryShelf::new(rt.alloc(), 2).expect(rt, "memory");
    for row in &PUTS {
        put(rt, &mut shelf, row);
    }
    shelf
}

const READS: [Read; 7] = [
    (0, "a/b", 3, "123"),
    (0, "a/b", 2, "too long"),
    (0, "a/b/c", 9, "absent"),
    (0, "a", 9, "absent"),
    (1, "a", 1, "7"),
    (1, "a", 0, "too long"),
    (1, "a/b", 9, "absent"),
];

const LISTINGS: [Listing; 5] = [
    (0, "a", "b;b-;c/d;"),
    (0, "a/c", "d;"),
    (0, "a/b", ""),
    (0, "z", ""),
    (1, "a", ""),
];

#[test]
fn a_shelf_keeps_files_and_folders_apart(rt: HostRuntime) {
    let mut shelf = shelf(&rt);
    take_reads(&rt, &mut shelf, &READS);
}

#[test]
fn a_shelf_lists_what_is_below_a_folder(rt: HostRuntime) {
    let mut shelf = shelf(&rt);
    take_listings(&rt, &mut shelf, &LISTINGS);
}

// A call with so much room, what it answers, and what stands in its piece then.
const PIECES: [(usize, &str); 6] = [
    (0, "Ok(0) ....."),
    (5, "Ok(3) abc.."),
    (2, "Ok(2) de..."),
    (5, "Err(Failed) ....."),
    (5, "Ok(2) fg..."),
    (5, "Ok(0) ....."),
];

fn piece<S: Source>(rt: &(impl Abort + AllocGlobal), source: &mut S, room: usize) -> String {
    let mut piece = [b'.'; 5];
    let room = room.min(5);
    let answer = source.read(&mut piece[..room]);
    let text = str::from_utf8(&piece).expect(rt, "text");
    format!(in rt.alloc(); "{answer:?} {text}").expect(rt, "memory")
}

#[test]
fn a_source_gives_its_bytes_in_order_and_fails_once(rt: HostRuntime) {
    let bytes = b"abcdefg".to_vec(rt.alloc()).expect(&rt, "memory");
    let mut source = MemorySource::new(bytes, 3, Some(3));
    for (room, told) in &PIECES {
        assert!(rt; piece(&rt, &mut source, *room).as_str() == *told, "{told}");
    }
}
