//! The command `install` over objects in memory.

use super::{
    ADDED, RECORD_PLACE, SPEC_PLACE, calls_over, count, device, device_fails, holds, is_damaged,
    put, runs, shelf_fails,
};
use failing_objects::FailingShelf;
use rocks_outside::MemoryShelf;
use std::process::Abort;

const INSTALL: &str = "--tree T --from S --from L install Hello 1.0-1";

const ROCKSPEC: &str = "rockspec_format = \"3.0\"
package = \"Hello\"
version = \"1.0-1\"
source = { url = \"git://example.org/hello\" }
dependencies = { \"lua >= 5.1, < 5.5\" }
build = {
   modules = { hello = \"src/init.lua\", [\"hello.util\"] = \"./src/util.lua\" },
   install = { bin = { \"bin/hello\" } },
}
";

// The digests but the rockspec's are those of RFC 1321.
const RECORD: &str = "bin = {
   hello = \"d41d8cd98f00b204e9800998ecf8427e\",
}
lib = {}
lua = {
   [\"hello/init.lua\"] = \"0cc175b9c0f1b6a831c399e269772661\",
   [\"hello/util.lua\"] = \"900150983cd24fb0d6963f7d28e17f72\",
}
own = {
   [\"hello-1.0-1.rockspec\"] = \"a62f1a23a539f1ee50c94cd52536ef16\",
}
";

// Two servers, of which the first has a rockspec and its sources, and the second a later one.
fn sources(rt: &(impl Abort + AllocGlobal)) -> MemoryShelf {
    let mut shelf = MemoryShelf::new(rt.alloc(), 2).expect(rt, "memory");
    put(rt, &mut shelf, 0, "hello-1.0-1.rockspec", ROCKSPEC);
    put(rt, &mut shelf, 0, "hello-1.0-1/README", "unused");
    put(rt, &mut shelf, 0, "hello-1.0-1/bin/hello", "");
    put(rt, &mut shelf, 0, "hello-1.0-1/src/init.lua", "a");
    put(rt, &mut shelf, 0, "hello-1.0-1/src/util.lua", "abc");
    put(rt, &mut shelf, 1, "hello-1.0-1.rockspec", "later");
    put(rt, &mut shelf, 1, "hello-1.0-1/src/init.lua", "later");
    shelf
}

#[test]
fn a_rock_is_built_into_an_empty_tree(rt: HostRuntime) {
    let mut shelf = sources(&rt);
    let mut device = device(&rt);
    runs(&rt, &mut device, &mut shelf, INSTALL, 0, ADDED);
    holds(&rt, &mut device, SPEC_PLACE, ROCKSPEC);
    holds(&rt, &mut device, RECORD_PLACE, RECORD);
    holds(&rt, &mut device, "bin/hello", "");
    holds(&rt, &mut device, "share/lua/5.4/hello/init.lua", "a");
    holds(&rt, &mut device, "share/lua/5.4/hello/util.lua", "abc");
    assert_eq!(rt; count(&rt, &mut device), 5);
    assert_eq!(rt; device.clock(), 7);

    // The tree can't be opened again yet.
    let status = runs(&rt, &mut device, &mut shelf, INSTALL, 7, ADDED);
    assert!(rt; is_damaged(&status, "bin/hello"));
    assert_eq!(rt; device.clock(), 7);
}

const CALLS: [&str; 8] = [
    "list", "write", "write", "write", "write", "write", "sync", "say",
];

// The calls of the shelf are the rockspec, the listing and three files. So the second server isn't asked.
#[test]
fn all_is_read_before_the_first_file_is_written(rt: HostRuntime) {
    for calls_left in 0..5 {
        shelf_fails(&rt, sources(&rt), INSTALL, calls_left);
    }
    calls_over(
        &rt,
        &mut FailingShelf::new(sources(&rt), 5),
        INSTALL,
        &CALLS,
    );
}

#[test]
fn a_device_that_fails_is_a_device_fault(rt: HostRuntime) {
    for calls_left in 0..CALLS.len() {
        device_fails(&rt, &mut sources(&rt), INSTALL, &CALLS, calls_left);
    }
}
