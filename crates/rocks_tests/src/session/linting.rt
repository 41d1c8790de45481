//! The command `lint` over objects in memory.

use super::{device, is_broken_off, is_refused, put, runs};
use failing_objects::FailingShelf;
use rocks_outside::MemoryShelf;
use std::process::Abort;

const LINT: &str = "--tree T --from S lint M 1.0-1";

const SERVED: &str = "m-1.0-1.rockspec";

// A shelf with one server, which has this rockspec.
fn shelf_with(rt: &(impl Abort + AllocGlobal), text: &str) -> MemoryShelf {
    let mut shelf = MemoryShelf::new(rt.alloc(), 1).expect(rt, "memory");
    put(rt, &mut shelf, 0, SERVED, text);
    shelf
}

const BUILTIN: &str = "rockspec_format = \"3.0\"\npackage = \"M\"\nversion = \"1.0-1\"\n\
source = { url = \".\" }\nbuild = { type = \"builtin\", modules = { m = \"m.lua\" } }\n";

const FINE: [(&str, &str); 2] = [
    (BUILTIN, "m 1.0-1 3.0\nok\n"),
    (
        "package = \"m\"\nversion = \"1.0-1\"\nsource = { url = \".\" }\nbuild = { type = \"none\" }\n",
        "m 1.0-1 1.0\nok\n",
    ),
];

#[test]
fn the_format_of_a_rockspec_is_told(rt: HostRuntime) {
    for (text, reply) in &FINE {
        let mut shelf = shelf_with(&rt, text);
        let mut device = device(&rt);
        runs(&rt, &mut device, &mut shelf, LINT, 0, reply);
        assert!(rt; device.clock() == 1, "{text}");
    }
}

const REFUSED: [(&str, &str); 7] = [
    (
        "package = \"M\"\nversion = \"1.0-1\"\nsource = { url = \".\" }\nbuild = { type = \"make\" }\n",
        "refused Build m 1.0-1 BuildType make\n",
    ),
    (
        "package = \"M\"\nversion = \"1.0-1\"\ndescription = { labels = {} }\n\
source = { url = \".\" }\nbuild = { type = \"builtin\", modules = { m = \"m.lua\" } }\n",
        "refused Spec m 1.0-1 TooNew description.labels\n",
    ),
    (
        "package = \"M\"\nversion = \"1.0-2\"\nsource = { url = \".\" }\nbuild = { type = \"make\" }\n",
        "refused NotTheRock m 1.0-1\n",
    ),
    (
        "package = \"M\"\nversion = \"1.0.0-1\"\nsource = { url = \".\" }\nbuild = { type = \"none\" }\n",
        "refused NotTheRock m 1.0-1\n",
    ),
    (
        "package = \"N\"\nversion = \"1.0-1\"\nsource = { url = \".\" }\nbuild = { type = \"none\" }\n",
        "refused NotTheRock m 1.0-1\n",
    ),
    ("", "refused Spec m 1.0-1 Missing package\n"),
    ("a = =", "refused Spec m 1.0-1 Expected 4\n"),
];

#[test]
fn a_file_that_is_no_rockspec_of_the_rock_is_refused(rt: HostRuntime) {
    for (text, refusal) in &REFUSED {
        let mut shelf = shelf_with(&rt, text);
        is_refused(&rt, &mut shelf, LINT, refusal);
    }
}

#[test]
fn a_rockspec_has_256_kibibytes_at_most(rt: HostRuntime) {
    let blanks = vec![in rt.alloc(); b' '; 262_145].expect(&rt, "memory");
    let text = String::from_utf8(blanks).ok().expect(&rt, "blanks");
    let mut shelf = shelf_with(&rt, text.as_str());
    is_refused(
        &rt,
        &mut shelf,
        LINT,
        "refused Spec m 1.0-1 TooLarge 262145\n",
    );
}

#[test]
fn the_earliest_server_with_the_rockspec_is_asked(rt: HostRuntime) {
    let mut shelf = MemoryShelf::new(rt.alloc(), 3).expect(&rt, "memory");
    put(&rt, &mut shelf, 0, "m-1.0-2.rockspec", BUILTIN);
    put(&rt, &mut shelf, 1, SERVED, BUILTIN);
    put(&rt, &mut shelf, 2, SERVED, "");
    let line = "--tree T --from S --from L --from M lint m 1.0-1";
    let mut device = device(&rt);
    runs(&rt, &mut device, &mut shelf, line, 0, "m 1.0-1 3.0\nok\n");
    let line = "--tree T --from S lint m 1.0-3";
    is_refused(&rt, &mut shelf, line, "refused NoRockspec m 1.0-3\n");
}

#[test]
fn a_shelf_that_fails_checks_nothing(rt: HostRuntime) {
    let mut shelf = FailingShelf::new(shelf_with(&rt, BUILTIN), 0);
    is_broken_off(&rt, &mut shelf, LINT);
}
