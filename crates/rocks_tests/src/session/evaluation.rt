//! The command `eval` over objects in memory.

use super::{
    ADD, ADDED, LEAST_PLACE, device, hello, is_broken_off, is_damaged, is_refused, no_input, put,
    runs, words,
};
use failing_objects::FailingShelf;
use rocks_outside::{MemoryShelf, Shelf};
use rocks_session::run;
use rocks_text::FilePath;
use std::process::Abort;

const EVAL: &str = "--tree T --from S eval a.lua";

// A shelf with one server, which has this text.
fn shelf_with(rt: &(impl Abort + AllocGlobal), text: &[u8]) -> MemoryShelf {
    let mut shelf = MemoryShelf::new(rt.alloc(), 1).expect(rt, "memory");
    let path = FilePath::from_text(rt.alloc(), "a.lua").expect(rt, "a path");
    assert!(rt; shelf.servers() == 1);
    let taken = shelf.put(0, &path, text);
    assert!(rt; taken.expect(rt, "memory"));
    shelf
}

const ACCEPTED: [(&str, &str); 6] = [
    ("", "ok\n"),
    ("a = 1 a = nil", "ok\n"),
    ("a = [==[\r\nx\r\ny]==]", "a = \"x\\ny\"\nok\n"),
    (
        "t = {1, 2, x = \"a\" .. 1, [5] = true}",
        "t = {\n   1,\n   2,\n   [5] = true,\n   x = \"a1\",\n}\nok\n",
    ),
    (
        "local _MODREV, _SPECREV = '1.0', '-1'\nversion = _MODREV .. _SPECREV\n",
        "version = \"1.0-1\"\nok\n",
    ),
    ("b, a = \"y\", false", "a = false\nb = \"y\"\nok\n"),
];

#[test]
fn the_globals_of_a_text_are_told(rt: HostRuntime) {
    for (text, reply) in &ACCEPTED {
        let mut shelf = shelf_with(&rt, text.as_bytes());
        let mut device = device(&rt);
        runs(&rt, &mut device, &mut shelf, EVAL, 0, reply);
        assert!(rt; device.clock() == 1, "{text}");
    }
}

const REFUSED: [(&str, &str); 5] = [
    (
        "version = (\"1\"):rep(2)",
        "refused Lua NotServed 15 Call\n",
    ),
    ("x = \"abc", "refused Lua OpenString 4\n"),
    ("a = \"x\" .. b", "refused Lua ConcatOf 8 nil\n"),
    ("x, x = 1, 2", "refused Lua TwiceName 3\n"),
    ("a = =", "refused Lua Expected 4\n"),
];

#[test]
fn a_faulty_text_is_refused(rt: HostRuntime) {
    for (text, refusal) in &REFUSED {
        let mut shelf = shelf_with(&rt, text.as_bytes());
        is_refused(&rt, &mut shelf, EVAL, refusal);
    }
}

// `a = ` and so many opened and closed tables.
fn tables(rt: &(impl Abort + AllocGlobal), opened: usize, closed: usize) -> MemoryShelf {
    let mut text = Vec::from_slice(rt.alloc(), b"a = ").expect(rt, "memory");
    for _ in 0..opened {
        text.push(b'{').expect(rt, "memory");
    }
    for _ in 0..closed {
        text.push(b'}').expect(rt, "memory");
    }
    shelf_with(rt, &text)
}

#[test]
fn tables_may_be_100_deep(rt: HostRuntime) {
    let mut shelf = tables(&rt, 101, 0);
    is_refused(&rt, &mut shelf, EVAL, "refused Lua TooDeep 104\n");
    let mut shelf = tables(&rt, 100, 100);
    let mut device = device(&rt);
    let words = words(&rt, EVAL);
    let status = run(
        rt.alloc(),
        &words,
        &mut device,
        &mut shelf,
        &mut no_input(&rt),
    );
    assert_eq!(rt; status.code(), 0);
    assert!(rt; device.said().ends_with(b"}\nok\n"));
}

#[test]
fn a_text_has_8_mebibytes_at_most(rt: HostRuntime) {
    let text = vec![in rt.alloc(); b' '; 8_388_609].expect(&rt, "memory");
    let mut shelf = shelf_with(&rt, &text);
    is_refused(&rt, &mut shelf, EVAL, "refused Lua TooLong 8388609\n");
}

#[test]
fn the_earliest_server_with_the_file_is_read(rt: HostRuntime) {
    let mut shelf = MemoryShelf::new(rt.alloc(), 3).expect(&rt, "memory");
    put(&rt, &mut shelf, 0, "b.lua", "a = 1");
    put(&rt, &mut shelf, 1, "a.lua", "a = 2");
    put(&rt, &mut shelf, 2, "a.lua", "a = 3");
    let line = "--tree T --from S --from L --from M eval a.lua";
    let mut device = device(&rt);
    runs(&rt, &mut device, &mut shelf, line, 0, "a = 2\nok\n");
    let line = "--tree T --from S eval a/b.lua";
    is_refused(&rt, &mut shelf, line, "refused NoFile a/b.lua\n");
}

#[test]
fn a_damaged_tree_evaluates_nothing(rt: HostRuntime) {
    let mut shelf = hello(&rt);
    put(&rt, &mut shelf, 0, "a.lua", "a = 1");
    let mut device = device(&rt);
    runs(&rt, &mut device, &mut shelf, ADD, 0, ADDED);
    let status = runs(&rt, &mut device, &mut shelf, EVAL, 7, ADDED);
    assert!(rt; is_damaged(&status, LEAST_PLACE));
}

#[test]
fn a_shelf_that_fails_evaluates_nothing(rt: HostRuntime) {
    let mut shelf = FailingShelf::new(shelf_with(&rt, b"a = 1"), 0);
    is_broken_off(&rt, &mut shelf, EVAL);
}
