//! Names of modules, and where their files stand.

use rocks_text::{FilePath, TextFault, is_module_name, module_path};
use std::alloc::Global;

/// A module's name, its file, and where that stands.
const PLACED: &[(&str, &str, &str)] = &[
    ("a", "a.lua", "a.lua"),
    ("a", "init.lua", "a/init.lua"),
    ("a.b", "src/init.lua", "a/b/init.lua"),
    ("a.b", "src/b.lua", "a/b.lua"),
    ("a.b", "src/init.lua/b.lua", "a/b.lua"),
    ("a.b", "my-init.lua", "a/b.lua"),
    ("a.b", "x.so", "a/b.lua"),
    ("a.init", "init.lua", "a/init.lua"),
    ("a.b.init", "src/init.lua", "a/b/init.lua"),
    ("a.init", "other.lua", "a/init.lua"),
    ("init", "init.lua", "init/init.lua"),
    ("a_init", "init.lua", "a_init/init.lua"),
    ("a.Init", "init.lua", "a/Init/init.lua"),
    ("init.a", "init.lua", "init/a/init.lua"),
    ("_-1.Z", "z.lua", "_-1/Z.lua"),
];

const NO_NAMES: &[&str] = &[
    "", ".", "a.", ".a", "a..b", "a/b", "a b", "a.b\n", "a:b", "a@", "[a", "`a", "{a", "\u{e9}",
    "a\\b", "a+",
];

fn is_placed(alloc: Global, name: &str, file: &str, path: &str) -> bool {
    let Ok(file) = FilePath::from_text(alloc, file) else {
        return false;
    };
    match module_path(alloc, name, &file) {
        Ok(found) => is_module_name(name) && found.as_str() == path,
        Err(_) => false,
    }
}

fn is_refused(alloc: Global, name: &str, file: &str) -> bool {
    let Ok(file) = FilePath::from_text(alloc, file) else {
        return false;
    };
    matches!(module_path(alloc, name, &file), Err(TextFault::BadPath))
}

#[test]
fn files_of_modules_are_placed(rt: HostRuntime) {
    for (name, file, path) in PLACED {
        assert!(rt;
            is_placed(rt.alloc(), name, file, path),
            "{name} from {file}"
        );
    }
}

#[test]
fn what_names_no_module_is_refused(rt: HostRuntime) {
    for name in NO_NAMES {
        assert!(rt; !is_module_name(name), "{name}");
        assert!(rt; is_refused(rt.alloc(), name, "a.lua"), "{name}");
    }
}

// A name of a part of that length, from a file.
fn has_place(alloc: Global, length: usize, file: &str) -> Option<bool> {
    let name = "m".repeat(alloc, length).ok()?;
    let file = FilePath::from_text(alloc, file).ok()?;
    match module_path(alloc, &name, &file) {
        Ok(_) => Some(true),
        Err(TextFault::BadPath) => Some(false),
        Err(_) => None,
    }
}

#[test]
fn the_longest_parts_have_places(rt: HostRuntime) {
    assert_eq!(rt; has_place(rt.alloc(), 146, "a.lua"), Some(true));
    assert_eq!(rt; has_place(rt.alloc(), 147, "a.lua"), Some(false));
    assert_eq!(rt; has_place(rt.alloc(), 150, "init.lua"), Some(true));
    assert_eq!(rt; has_place(rt.alloc(), 151, "init.lua"), Some(false));
}
