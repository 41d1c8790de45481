//! Whole runs over objects in memory.

mod comparison;
mod evaluation;
mod installing;
mod linting;
mod refusals;

use failing_objects::{FailingDevice, FailingShelf};
use rocks_outside::{Device, MemoryDevice, MemoryShelf, MemorySource, Shelf};
use rocks_session::{Command, RootWords, Status, read_words, roots, run};
use rocks_text::{FilePath, TreePath};
use std::process::Abort;

const ROCKSPEC: &str = "package = \"Hello\"\nversion = \"1.0-1\"\n\
source = { url = \".\" }\nbuild = { type = \"none\" }\n";

const SPEC_PLACE: &str = "lib/luarocks/rocks-5.4/hello/1.0-1/hello-1.0-1.rockspec";

const RECORD_PLACE: &str = "lib/luarocks/rocks-5.4/hello/1.0-1/rock_manifest";

const DOC_PLACE: &str = "lib/luarocks/rocks-5.4/hello/1.0-1/doc/x.txt";

// The least path of the rock's files in a tree.
const LEAST_PLACE: &str = "bin/h";

// The digests but the rockspec's are those of RFC 1321.
const RECORD: &str = "bin = {
   h = \"d41d8cd98f00b204e9800998ecf8427e\",
}
lib = {}
lua = {
   [\"h.lua\"] = \"0cc175b9c0f1b6a831c399e269772661\",
   [\"h/i.lua\"] = \"900150983cd24fb0d6963f7d28e17f72\",
}
own = {
   [\"doc/x.txt\"] = \"f96b697d7cb7938d525a2f31aaf161d0\",
   [\"hello-1.0-1.rockspec\"] = \"a2b83658a77e90f42038b8ed41fd0c1f\",
}
";

const ADD: &str = "--tree T --from S add hello 1.0-1";

const ADDED: &str = "+ hello 1.0-1\nok\n";

fn words(rt: &(impl Abort + AllocGlobal), text: &str) -> Vec<String> {
    let mut words = Vec::new(rt.alloc());
    for word in text.split_whitespace() {
        words.push(owned(rt, word)).expect(rt, "memory");
    }
    words
}

fn owned(rt: &(impl Abort + AllocGlobal), word: &str) -> String {
    String::from_str(rt.alloc(), word).expect(rt, "memory")
}

fn no_input(rt: &(impl Abort + AllocGlobal)) -> MemorySource {
    MemorySource::new(Vec::new(rt.alloc()), 1, None)
}

fn device(rt: &(impl Abort + AllocGlobal)) -> MemoryDevice {
    MemoryDevice::new(rt.alloc()).expect(rt, "memory")
}

fn put(
    rt: &(impl Abort + AllocGlobal),
    shelf: &mut MemoryShelf,
    server: u32,
    path: &str,
    bytes: &str,
) {
    let path = FilePath::from_text(rt.alloc(), path).expect(rt, path);
    assert!(rt; server < shelf.servers());
    let taken = shelf.put(server, &path, bytes.as_bytes());
    assert!(rt; taken.expect(rt, "memory"));
}

// Two servers with an unpacked rock, of which the first is taken.
fn hello(rt: &(impl Abort + AllocGlobal)) -> MemoryShelf {
    let mut shelf = MemoryShelf::new(rt.alloc(), 2).expect(rt, "memory");
    let rockspec = "hello-1.0-1.rock/hello-1.0-1.rockspec";
    put(rt, &mut shelf, 0, rockspec, ROCKSPEC);
    put(rt, &mut shelf, 0, "hello-1.0-1.rock/bin/h", "");
    put(
        rt,
        &mut shelf,
        0,
        "hello-1.0-1.rock/doc/x.txt",
        "message digest",
    );
    put(rt, &mut shelf, 0, "hello-1.0-1.rock/lua/h.lua", "a");
    put(rt, &mut shelf, 0, "hello-1.0-1.rock/lua/h/i.lua", "abc");
    put(rt, &mut shelf, 0, "hello-1.0-1.rock/rock_manifest", "old");
    put(rt, &mut shelf, 1, rockspec, "later");
    shelf
}

// Runs the words, and looks at the status's code and at all that was said so far.
fn runs(
    rt: &(impl Abort + AllocGlobal),
    device: &mut MemoryDevice,
    shelf: &mut MemoryShelf,
    text: &str,
    code: u8,
    said: &str,
) -> Status {
    let words = words(rt, text);
    let status = run(rt.alloc(), &words, device, shelf, &mut no_input(rt));
    assert!(rt; status.code() == code, "of {text}");
    assert!(rt; device.said() == said.as_bytes(), "by {text}");
    status
}

// Looks at what a device holds at a path.
fn holds(rt: &(impl Abort + AllocGlobal), device: &mut MemoryDevice, path: &str, bytes: &str) {
    let at = TreePath::from_text(rt.alloc(), path).expect(rt, path);
    let read = device.read(rt.alloc(), &at).expect(rt, "a read");
    assert!(rt;
        read.expect(rt, path).as_slice() == bytes.as_bytes(),
        "{path}"
    );
}

// How many files a device holds.
fn count(rt: &(impl Abort + AllocGlobal), device: &mut MemoryDevice) -> usize {
    device.list(rt.alloc(), "").expect(rt, "a listing").len()
}

#[test]
fn an_unpacked_rock_is_added_to_an_empty_tree(rt: HostRuntime) {
    let mut shelf = hello(&rt);
    let mut device = device(&rt);
    let line = "--tree T --from S --from L add Hello 1.0-1";
    runs(&rt, &mut device, &mut shelf, line, 0, ADDED);
    holds(&rt, &mut device, SPEC_PLACE, ROCKSPEC);
    holds(&rt, &mut device, RECORD_PLACE, RECORD);
    holds(&rt, &mut device, DOC_PLACE, "message digest");
    holds(&rt, &mut device, "bin/h", "");
    holds(&rt, &mut device, "share/lua/5.4/h.lua", "a");
    holds(&rt, &mut device, "share/lua/5.4/h/i.lua", "abc");
    assert_eq!(rt; count(&rt, &mut device), 6);
    assert_eq!(rt; device.clock(), 8);

    // The tree can't be opened again yet.
    let status = runs(&rt, &mut device, &mut shelf, line, 7, ADDED);
    assert!(rt; is_damaged(&status, LEAST_PLACE));
    assert_eq!(rt; device.clock(), 8);
}

fn is_damaged(status: &Status, at: &str) -> bool {
    match status {
        Status::Damaged { path } => path.as_str() == at,
        _ => false,
    }
}

// A command on an empty tree is refused, and changes no file.
fn is_refused(rt: &(impl Abort + AllocGlobal), shelf: &mut MemoryShelf, line: &str, refusal: &str) {
    let mut device = device(rt);
    runs(rt, &mut device, shelf, line, 1, refusal);
    assert!(rt; count(rt, &mut device) == 0, "{line}");
    assert!(rt; device.clock() == 1, "{line}");
}

// A command on an empty tree ends with a fault of the shelf, and calls the device for nothing.
fn is_broken_off(rt: &(impl Abort + AllocGlobal), shelf: &mut FailingShelf, line: &str) {
    let mut device = device(rt);
    let words = words(rt, line);
    let status = run(rt.alloc(), &words, &mut device, shelf, &mut no_input(rt));
    assert!(rt; status.code() == 5, "{line}");
    assert!(rt; device.clock() == 0, "{line}");
}

#[test]
fn a_refused_command_changes_no_file(rt: HostRuntime) {
    let mut shelf = hello(&rt);
    let line = "--tree T --from S add hello 2.0-1";
    is_refused(&rt, &mut shelf, line, "refused NoRock hello 2.0-1\n");
    let line = "--tree T --from S add lua 5.4-1";
    is_refused(&rt, &mut shelf, line, "refused Provided\n");
    let path = "hello-1.0-1.rock/hello-1.0-1.rockspec";
    put(
        &rt,
        &mut shelf,
        0,
        path,
        "package = \"Hello\"\nversion = \"1.0-1\"\n",
    );
    is_refused(
        &rt,
        &mut shelf,
        ADD,
        "refused Spec hello 1.0-1 Missing source\n",
    );
}

const FAULTY: [&str; 23] = [
    "",
    "add hello 1.0-1",
    "--tree T",
    "--tree T add",
    "--tree T add hello",
    "--tree T add hello 1.0",
    "--tree T add hello 1.0-1 x",
    "--tree T add manifest 1.0-1",
    "--tree T add hello 1.0-1234567890123456789",
    "--from S --tree T add hello 1.0-1",
    "--tree T --from 1 --from 2 --from 3 --from 4 --from 5 --from 6 --from 7 --from 8 --from 9 \
add hello 1.0-1",
    "--tree T add --tree x",
    "install hello 1.0-1",
    "--tree T install",
    "--tree T install hello",
    "--tree T install hello 1.0",
    "--tree T install hello 1.0-1 x",
    "--tree T install lua-x/y 1.0-1",
    "--tree T install --from x",
    "--tree T remove hello",
    "--tree T eval",
    "--tree T eval a/../b",
    "--tree T eval a b",
];

#[test]
fn faulty_words_call_nothing(rt: HostRuntime) {
    let mut shelf = hello(&rt);
    let mut device = device(&rt);
    for line in &FAULTY {
        runs(&rt, &mut device, &mut shelf, line, 2, "");
    }
    assert_eq!(rt; device.clock(), 0);
}

const TWO_SERVERS: &str = "--tree T --from S --from --tree add a_B 1.0.rc-2";

// The folders that the words name, from a copy.
fn root_words(rt: &(impl Abort + AllocGlobal), words: &[String]) -> RootWords {
    let read = roots(rt.alloc(), words).ok().expect(rt, "roots");
    read.copy(rt.alloc()).expect(rt, "memory")
}

// The command that the words say, from a copy.
fn command(rt: &(impl Abort + AllocGlobal), words: &[String]) -> Command {
    let read = read_words(rt.alloc(), words).ok().expect(rt, "a command");
    read.copy(rt.alloc()).expect(rt, "memory")
}

#[test]
fn words_name_the_tree_and_the_servers(rt: HostRuntime) {
    let roots = root_words(&rt, &words(&rt, TWO_SERVERS));
    assert!(rt; roots.tree.as_str() == "T");
    assert!(rt; roots.servers.len() == 2);
}

#[test]
fn words_say_the_command(rt: HostRuntime) {
    let command = command(&rt, &words(&rt, TWO_SERVERS));
    assert!(rt; adds(&rt, &command, "a_b", "1.0.rc-2"));
}

fn adds(rt: &(impl Abort + AllocGlobal), command: &Command, name: &str, version: &str) -> bool {
    let Command::Add(key) = command else {
        return false;
    };
    let copied = key.copy(rt.alloc()).expect(rt, "memory");
    copied.name.as_str() == name && copied.version.as_str() == version
}

#[test]
fn words_say_what_to_install(rt: HostRuntime) {
    let command = command(&rt, &words(&rt, "--tree T install a_B 1.0.rc-2"));
    let Command::Install(key) = command else {
        panic!(rt; "another command");
    };
    assert!(rt; key.name.as_str() == "a_b");
    assert!(rt; key.version.as_str() == "1.0.rc-2");
}

fn calls(rt: &(impl Abort + AllocGlobal), line: &str, calls: &[&str]) {
    calls_over(rt, &mut hello(rt), line, calls);
}

// Looks at the device's calls of a run over a shelf.
fn calls_over<F: Shelf>(
    rt: &(impl Abort + AllocGlobal),
    shelf: &mut F,
    line: &str,
    calls: &[&str],
) {
    let mut device = FailingDevice::new(rt.alloc(), u64::MAX);
    let words = words(rt, line);
    run(rt.alloc(), &words, &mut device, shelf, &mut no_input(rt));
    assert!(rt; device.calls.as_slice() == calls, "{line}");
}

const ADD_CALLS: [&str; 9] = [
    "list", "write", "write", "write", "write", "write", "write", "sync", "say",
];

// Clauses can't speak yet of what a crash may leave, so the order of the calls is looked at.
#[test]
fn what_is_written_is_synced_and_then_said(rt: HostRuntime) {
    calls(&rt, ADD, &ADD_CALLS);
    calls(&rt, "--tree T --from S add hello 2.0-1", &["list", "say"]);
    calls(&rt, "--tree T --from S add lua 5.4-1", &["list", "say"]);
    calls(&rt, "--tree T --from S eval a.lua", &["list", "say"]);
}

// Runs the words on a device on which so many calls are done and then none. No call is made behind one that failed.
fn device_fails(
    rt: &(impl Abort + AllocGlobal),
    shelf: &mut MemoryShelf,
    line: &str,
    calls: &[&str],
    calls_left: usize,
) {
    let mut device = FailingDevice::new(rt.alloc(), calls_left as u64);
    let words = words(rt, line);
    let status = run(rt.alloc(), &words, &mut device, shelf, &mut no_input(rt));
    assert!(rt; status.code() == 4, "after {calls_left}");
    assert!(rt;
        device.calls.as_slice() == calls.get(..=calls_left).expect(rt, line),
        "after {calls_left}"
    );
    // What fails to be said has said a first part.
    let said = if device.calls.len() == calls.len() {
        "+"
    } else {
        ""
    };
    assert!(rt;
        device.said.as_slice() == said.as_bytes(),
        "after {calls_left}"
    );
}

#[test]
fn a_device_that_fails_in_mid_run_is_a_device_fault(rt: HostRuntime) {
    for calls_left in 0..ADD_CALLS.len() {
        device_fails(&rt, &mut hello(&rt), ADD, &ADD_CALLS, calls_left);
    }
}

// Runs the words over a shelf on which so many calls are done and then none. The tree is looked at, and nothing else is
// called.
fn shelf_fails(rt: &(impl Abort + AllocGlobal), servers: MemoryShelf, line: &str, calls_left: u64) {
    let mut shelf = FailingShelf::new(servers, calls_left);
    let mut device = FailingDevice::new(rt.alloc(), u64::MAX);
    let words = words(rt, line);
    let status = run(
        rt.alloc(),
        &words,
        &mut device,
        &mut shelf,
        &mut no_input(rt),
    );
    assert!(rt; status.code() == 5, "after {calls_left}");
    assert!(rt;
        device.calls.as_slice() == ["list"].as_slice(),
        "after {calls_left}"
    );
}

// The calls are the rockspec, the listing and four files.
#[test]
fn a_shelf_that_fails_in_mid_run_is_a_shelf_fault(rt: HostRuntime) {
    for calls_left in 0..6 {
        shelf_fails(&rt, hello(&rt), ADD, calls_left);
    }
    calls_over(&rt, &mut FailingShelf::new(hello(&rt), 6), ADD, &ADD_CALLS);
}
