//! Which rocks clash, at which path, and with which rock.

use crate::rocks::{claims, rock};
use std::alloc::Global;
use std::test::Fail;

/// Rocks, and one that can be added to them.
const FREE: &[(&str, &str)] = &[
    ("", "a 1.0-1 lua:x.lua"),
    ("a_1 0-1 lua:x.lua", "b 1.0-1 lua:x.lua"),
    ("b 1.0-1 lua:x.lua", "a_1 0-1 lua:x.lua"),
    (
        "b 1.0-1 lua:x.lua; a_1 0-1 lua:x.lua",
        "c 1-1 lua:x.lua lib:x.lua",
    ),
    ("b 1.0-1 lua:x.lua", "c 1-1 lib:x.lua/y"),
    ("b 1.0-1 lua:x.lua", "c 1-1 bin:x.lua/y"),
    ("b 1.0-1 lua:x", "c 1-1 lua:x-y lua:xy"),
];

/// Rocks, one that can't be added to them, and the path, name and version of its clash.
const TAKEN: &[(&str, &str, &str)] = &[
    (
        "a_1 0-1 lua:x.lua",
        "a 1.0-1 lua:x.lua",
        "share/lua/5.4/a_1_0_1-x.lua a_1 0-1",
    ),
    (
        "a 1.0-1 lua:x.lua",
        "a_1 0-1 lua:x.lua",
        "share/lua/5.4/a_1_0_1-x.lua a 1.0-1",
    ),
    // A plain path that is another rock's versioned one.
    (
        "b 1.0-1 lua:x.lua",
        "c 1-1 lua:b_1_0_1-x.lua",
        "share/lua/5.4/b_1_0_1-x.lua b 1.0-1",
    ),
    (
        "c 1-1 lua:b_1_0_1-x.lua",
        "b 1.0-1 lua:x.lua",
        "share/lua/5.4/b_1_0_1-x.lua c 1-1",
    ),
    // A path that is that of a folder of another: plain and plain, plain and versioned, versioned
    // and versioned.
    (
        "b 1.0-1 lua:x.lua",
        "c 1-1 lua:x.lua/y.lua",
        "share/lua/5.4/x.lua/y.lua b 1.0-1",
    ),
    (
        "c 1-1 lua:x.lua/y.lua",
        "b 1.0-1 lua:x.lua",
        "share/lua/5.4/x.lua c 1-1",
    ),
    (
        "c 1-1 lua:b_1_0_1-x.lua/y",
        "b 1.0-1 lua:x.lua",
        "share/lua/5.4/b_1_0_1-x.lua c 1-1",
    ),
    (
        "b 1.0-1 lua:x.lua",
        "c 1-1 lua:b_1_0_1-x.lua/y",
        "share/lua/5.4/b_1_0_1-x.lua/y b 1.0-1",
    ),
    (
        "a_1 0-1 lua:x",
        "a 1.0-1 lua:x/y",
        "share/lua/5.4/a_1_0_1-x/y a_1 0-1",
    ),
    (
        "a_1 0-1 lib:x/y",
        "a 1.0-1 lib:x",
        "lib/lua/5.4/a_1_0_1-x a_1 0-1",
    ),
    ("b 1-1 bin:x", "c 1-1 bin:x/y", "bin/x/y b 1-1"),
    // A rock that clashes with itself.
    (
        "",
        "b 1.0-1 lua:x lua:x/y",
        "share/lua/5.4/b_1_0_1-x b 1.0-1",
    ),
    (
        "",
        "b 1.0-1 lua:x lua:b_1_0_1-x",
        "share/lua/5.4/b_1_0_1-x b 1.0-1",
    ),
    (
        "c 2-1 lua:x/y",
        "b 1.0-1 lua:x lua:x/z",
        "share/lua/5.4/b_1_0_1-x b 1.0-1",
    ),
    // The first rock by name and the greatest version is told, and the added one stands among them.
    (
        "d 1-1 lua:x.lua/a; c 1-1 lua:x.lua/b; c 2-1 lua:x.lua/c",
        "b 1.0-1 lua:x.lua",
        "share/lua/5.4/x.lua c 2-1",
    ),
    (
        "a 2-1 lua:b_1_0_1-x",
        "b 1.0-1 lua:x lua:b_1_0_1-x",
        "share/lua/5.4/b_1_0_1-x a 2-1",
    ),
    (
        "c 2-1 lua:b_1_0_1-x",
        "b 1.0-1 lua:x lua:b_1_0_1-x",
        "share/lua/5.4/b_1_0_1-x b 1.0-1",
    ),
];

// What is told of a rock that is to be added: the path, name and version of its clash, or nothing.
fn told(alloc: Global, before: &str, text: &str) -> Option<String> {
    let claims = claims(alloc, before)?;
    let (key, items) = rock(alloc, text)?;
    let Some(clash) = claims.clash(&key, &items).ok()? else {
        return Some(String::new(alloc));
    };
    if clash.by != key {
        return None;
    }
    let path = clash.path.as_str();
    let name = clash.other.name.as_str();
    let version = clash.other.version.as_str();
    format!(in alloc; "{path} {name} {version}").ok()
}

#[test]
fn rocks_clash_at_the_least_path(rt: HostRuntime) -> Result<(), Fail> {
    for (before, text) in FREE {
        let found = told(rt.alloc(), before, text).ok_or("rocks")?;
        assert_eq!(rt; found.as_str(), "", "{before} {text}");
    }
    for (before, text, clash) in TAKEN {
        let found = told(rt.alloc(), before, text).ok_or("rocks")?;
        assert!(rt; found.as_str() == *clash, "{before} {text}");
    }
    Ok(())
}
