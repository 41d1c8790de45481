//! Where the files of rocks stand, and which places conflict.

use crate::rocks::{item, key, rock};
use rocks_text::Kind::{Bin, Lib, Lua};
use rocks_text::{FilePath, Kind, TreePath};
use std::alloc::Global;
use std::test::Fail;
use tree_paths::{conflict, own_path, plain, rock_folder, versioned};

/// A rock of one item, the item's plain path and its versioned one.
const PLACES: &[(&str, &str, &str)] = &[
    (
        "b 1.0-1 lua:x.lua",
        "share/lua/5.4/x.lua",
        "share/lua/5.4/b_1_0_1-x.lua",
    ),
    (
        "lua-c.json 2.1.0-3 lib:a-b/c.so",
        "lib/lua/5.4/a-b/c.so",
        "lib/lua/5.4/lua_c_json_2_1_0_3-a-b/c.so",
    ),
    ("a_b scm-1 bin:run", "bin/run", "bin/a_b_scm_1-run"),
];

fn stands(alloc: Global, text: &str, first: &str, second: &str) -> Option<bool> {
    let (key, items) = rock(alloc, text)?;
    let item = items.first()?;
    let is_first = plain(alloc, item).ok()?.as_str() == first;
    let is_second = versioned(alloc, item, &key).ok()?.as_str() == second;
    Some(is_first && is_second)
}

#[test]
fn items_have_two_places(rt: HostRuntime) {
    for (text, first, second) in PLACES {
        assert!(rt;
            stands(rt.alloc(), text, first, second) == Some(true),
            "{text}"
        );
    }
}

#[test]
fn own_files_stand_in_the_rock_folder(rt: HostRuntime) -> Result<(), Fail> {
    let alloc = rt.alloc();
    let key = key(alloc, "hello", "1.0-1").ok_or("key")?;
    let path = FilePath::from_text(alloc, "doc/a.md").ok().ok_or("path")?;
    let folder = rock_folder(alloc, "hello", "1.0-1")?;
    assert_eq!(rt; folder.as_str(), "lib/luarocks/rocks-5.4/hello/1.0-1/");
    let place = own_path(alloc, &key, &path)?;
    assert_eq!(rt;
        place.as_str(),
        "lib/luarocks/rocks-5.4/hello/1.0-1/doc/a.md"
    );
    Ok(())
}

// Parts of `b` that are joined by slashes.
fn long_path(alloc: Global, part: usize, parts: usize) -> Option<String> {
    let mut path = String::new(alloc);
    for at in 0..parts {
        if at > 0 {
            path.push('/').ok()?;
        }
        for _ in 0..part {
            path.push('b').ok()?;
        }
    }
    Some(path)
}

// The lengths of an item's and an own file's places, where the name, the version and the path are
// the longest.
fn longest(alloc: Global, part: usize, parts: usize) -> Option<(usize, usize)> {
    let name = long_path(alloc, 60, 1)?;
    let key = key(
        alloc,
        name.as_str(),
        "1.1.1.1.1.1.1.1.1.1.1.1.1.1.1.1.1.1.10-1",
    )?;
    let text = long_path(alloc, part, parts)?;
    let item = item(alloc, Kind::Lua, text.as_str())?;
    let place = versioned(alloc, &item, &key).ok()?;
    let own = own_path(alloc, &key, &item.path).ok()?;
    Some((place.as_str().len(), own.as_str().len()))
}

#[test]
fn longest_paths_have_places(rt: HostRuntime) {
    assert!(rt; longest(rt.alloc(), 150, 1) == Some((266, 275)));
    assert!(rt; longest(rt.alloc(), 4, 205) == Some((1140, 1149)));
}

/// Two paths, and whether they conflict.
const PAIRS: &[(&str, &str, bool)] = &[
    ("a", "a", true),
    ("a", "a/b", true),
    ("a/b/c", "a", true),
    ("a/b/c", "a/b", true),
    ("a", "b", false),
    ("a", "ab", false),
    ("a/b", "a-b", false),
    ("a/b", "a/c", false),
    ("a/bc", "a/b", false),
];

fn meet(alloc: Global, left: &str, right: &str) -> Option<bool> {
    let left = TreePath::from_text(alloc, left).ok()?;
    let right = TreePath::from_text(alloc, right).ok()?;
    let found = conflict(&left, &right);
    if found == conflict(&right, &left) {
        Some(found)
    } else {
        None
    }
}

#[test]
fn paths_conflict_with_their_folders(rt: HostRuntime) {
    for (left, right, wanted) in PAIRS {
        assert!(rt;
            meet(rt.alloc(), left, right) == Some(*wanted),
            "{left} {right}"
        );
    }
}
