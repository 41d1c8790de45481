//! Names, paths and items.

use rocks_text::{FilePath, Item, Kind, Name, TextFault, TreePath};
use std::alloc::{AllocError, Global};
use std::cmp::Ordering;

const NAMES: [&str; 10] = [
    "a",
    "z",
    "0",
    "9",
    "az09_-.",
    "a.",
    "a..b",
    "manifes",
    "manifests",
    "anifest",
];

const NO_NAMES: [&str; 29] = [
    "", "_", "-", ".", "..", "_a", "-a", ".a", "manifest", "MANIFEST", "manifesT", "a@", "a[",
    "a`", "a{", "a/", "a:", "a,", "a^", "a b", "/a", "a\\", "a\0", "a\u{1f}", "a\u{7f}", "a\u{e9}",
    "\u{c9}a", " a", "a\n",
];

const PATHS: [&str; 18] = [
    "a",
    "A/B",
    "manifest",
    "...",
    ".a",
    "a.",
    "..a",
    "a..",
    "a/.b",
    "a/b./c",
    "a b",
    " ",
    "~b",
    "a[]b",
    "\u{80}",
    "\u{e9}/\u{e9}",
    "-",
    "a-b/c",
];

const NO_PATHS: [&str; 22] = [
    "", "/", "//", "/a", "a/", "a//b", ".", "..", "./a", "../a", "a/.", "a/..", "a/./b", "a/../b",
    "\\", "a\\b", "a\0b", "a\u{1f}b", "a\u{7f}b", "a/\u{1f}", "\u{7f}/a", "a\n",
];

// The name that a text is, from a copy.
fn name(alloc: Global, text: &str) -> Option<Name> {
    Name::from_text(alloc, text).ok()?.copy(alloc).ok()
}

fn is_name(alloc: Global, text: &str, name_in_lower_case: &str) -> bool {
    match name(alloc, text) {
        Some(name) => name.as_str() == name_in_lower_case,
        None => false,
    }
}

fn is_no_name(alloc: Global, text: &str) -> bool {
    Name::from_text(alloc, text) == Err(TextFault::BadName)
}

// Whether a name of so many letters is good, and one more is too much.
fn is_longest_name(alloc: Global, length: usize) -> bool {
    has_name_of(alloc, length, true) && has_name_of(alloc, length.saturating_add(1), false)
}

fn has_name_of(alloc: Global, length: usize, good: bool) -> bool {
    match "Z".repeat(alloc, length) {
        Ok(text) => Name::from_text(alloc, text.as_str()).is_ok() == good,
        Err(_) => false,
    }
}

#[test]
fn names_are_read(rt: HostRuntime) {
    for text in &NAMES {
        assert!(rt; is_name(rt.alloc(), text, text), "{text}");
    }
    for text in ["Abc", "aBc", "abC"] {
        assert!(rt; is_name(rt.alloc(), text, "abc"), "{text}");
    }
    assert!(rt; is_longest_name(rt.alloc(), 60));
}

#[test]
fn what_is_no_name_is_refused(rt: HostRuntime) {
    for text in &NO_NAMES {
        assert!(rt; is_no_name(rt.alloc(), text), "{text:?}");
    }
}

// The path of a rock's file that a text is, from a copy.
fn file_path(alloc: Global, text: &str) -> Result<FilePath, TextFault> {
    Ok(FilePath::from_text(alloc, text)?.copy(alloc)?)
}

// The path within a tree that a text is, from a copy.
fn tree_path(alloc: Global, text: &str) -> Result<TreePath, TextFault> {
    Ok(TreePath::from_text(alloc, text)?.copy(alloc)?)
}

fn is_file_path(alloc: Global, text: &str) -> bool {
    match file_path(alloc, text) {
        Ok(path) => path.as_str() == text,
        Err(_) => false,
    }
}

fn is_tree_path(alloc: Global, text: &str) -> bool {
    match tree_path(alloc, text) {
        Ok(path) => path.as_str() == text,
        Err(_) => false,
    }
}

fn is_no_file_path(alloc: Global, text: &str) -> bool {
    FilePath::from_text(alloc, text) == Err(TextFault::BadPath)
}

fn is_no_tree_path(alloc: Global, text: &str) -> bool {
    TreePath::from_text(alloc, text) == Err(TextFault::BadPath)
}

#[test]
fn paths_end_at_their_edges(rt: HostRuntime) {
    for text in &PATHS {
        assert!(rt; is_file_path(rt.alloc(), text), "{text:?}");
        assert!(rt; is_tree_path(rt.alloc(), text), "{text:?}");
    }
    for text in &NO_PATHS {
        assert!(rt; is_no_file_path(rt.alloc(), text), "{text:?}");
        assert!(rt; is_no_tree_path(rt.alloc(), text), "{text:?}");
    }
}

// Whether a text is a path of a rock's file and one within a tree, or is refused as none.
fn are_paths(alloc: Global, text: &str, in_rock: bool, in_tree: bool) -> bool {
    let as_file = if in_rock {
        is_file_path(alloc, text)
    } else {
        is_no_file_path(alloc, text)
    };
    let as_tree = if in_tree {
        is_tree_path(alloc, text)
    } else {
        is_no_tree_path(alloc, text)
    };
    as_file && as_tree
}

// Paths of so many parts `abcdefg/`, or of one long part.
fn are_long_paths(
    alloc: Global,
    part: &str,
    parts: usize,
    last: &str,
    in_rock: bool,
    in_tree: bool,
) -> bool {
    match long_path(alloc, part, parts, last) {
        Some(text) => are_paths(alloc, text.as_str(), in_rock, in_tree),
        None => false,
    }
}

fn long_path(alloc: Global, part: &str, parts: usize, last: &str) -> Option<String> {
    let mut text = part.repeat(alloc, parts).ok()?;
    text.push_str(last).ok()?;
    Some(text)
}

#[test]
fn parts_and_paths_have_their_longest(rt: HostRuntime) {
    let alloc = rt.alloc();
    assert!(rt; are_long_paths(alloc, "a", 149, "a", true, true));
    assert!(rt; are_long_paths(alloc, "a", 150, "a", false, true));
    assert!(rt; are_long_paths(alloc, "a", 254, "a", false, true));
    assert!(rt; are_long_paths(alloc, "a", 255, "a", false, false));
    assert!(rt; are_long_paths(alloc, "abcdefg/", 127, "abcdefgh", true, true));
    assert!(rt; are_long_paths(alloc, "abcdefg/", 127, "abcdefghi", false, true));
    assert!(rt; are_long_paths(alloc, "abcdefg/", 149, "abcdefgh", false, true));
    assert!(rt; are_long_paths(alloc, "abcdefg/", 149, "abcdefghi", false, false));
}

fn name_order(alloc: Global, left: &str, right: &str) -> Option<Ordering> {
    Some(name(alloc, left)?.cmp(&name(alloc, right)?))
}

fn tree_path_order(alloc: Global, left: &str, right: &str) -> Option<Ordering> {
    let left = tree_path(alloc, left).ok()?;
    Some(left.cmp(&tree_path(alloc, right).ok()?))
}

#[test]
fn texts_go_by_bytes(rt: HostRuntime) {
    let alloc = rt.alloc();
    for (low, high) in [("a", "a-"), ("a-", "a."), ("a.", "a0"), ("a_", "aa")] {
        assert!(rt;
            name_order(alloc, low, high) == Some(Ordering::Less),
            "{low}"
        );
        assert!(rt;
            name_order(alloc, high, high) == Some(Ordering::Equal),
            "{high}"
        );
        assert!(rt;
            tree_path_order(alloc, high, low) == Some(Ordering::Greater),
            "{low}"
        );
    }
    assert!(rt; TextFault::from(AllocError) == TextFault::NoMemory);
}

fn item(alloc: Global, kind: Kind, path: &str) -> Option<Item> {
    Some(Item {
        kind,
        path: file_path(alloc, path).ok()?,
    })
}

// The order of two items, the second one from a copy.
fn item_order(alloc: Global, low: Option<Item>, high: Option<Item>) -> Option<Ordering> {
    Some(low?.cmp(&high?.copy(alloc).ok()?))
}

#[test]
fn items_go_by_kind_and_then_by_path(rt: HostRuntime) {
    let alloc = rt.alloc();
    for (low, low_path, high, high_path) in [
        (Kind::Lua, "b", Kind::Lib, "a"),
        (Kind::Lib, "b", Kind::Bin, "a"),
        (Kind::Bin, "a.b", Kind::Bin, "a/b"),
        (Kind::Bin, "z", Kind::Bin, "\u{e9}"),
    ] {
        let order = item_order(
            alloc,
            item(alloc, low, low_path),
            item(alloc, high, high_path),
        );
        assert!(rt; order == Some(Ordering::Less), "{low_path}");
        let same = item_order(
            alloc,
            item(alloc, high, high_path),
            item(alloc, high, high_path),
        );
        assert!(rt; same == Some(Ordering::Equal), "{high_path}");
    }
}

// Whether the path is what is below the folder in the whole one, and nothing else is below another.
fn parts(alloc: Global, folder: &str, path: &str, whole: &str) -> Option<bool> {
    let folder = file_path(alloc, folder).ok()?;
    let whole = file_path(alloc, whole).ok()?;
    let alone = folder.below(&whole).is_none() && folder.below(&folder).is_none();
    Some(alone && whole.below(&folder) == Some(path))
}

fn is_below(alloc: Global, folder: &str, path: &str) -> Option<bool> {
    let folder = file_path(alloc, folder).ok()?;
    Some(file_path(alloc, path).ok()?.below(&folder).is_some())
}

// `b/c` below `a`.
fn joined(alloc: Global) -> Option<FilePath> {
    let folder = FilePath::from_text(alloc, "a").ok()?;
    FilePath::joined(alloc, &folder, "b/c").ok()
}

#[test]
fn paths_join_and_part_again(rt: HostRuntime) {
    let alloc = rt.alloc();
    assert!(rt; parts(alloc, "a", "b", "a/b") == Some(true));
    assert!(rt; parts(alloc, "a/b", "c/d", "a/b/c/d") == Some(true));
    assert!(rt; parts(alloc, "a-", "b", "a-/b") == Some(true));
    assert!(rt; is_below(alloc, "a", "a-b/c") == Some(false));
    assert!(rt; joined(alloc).expect(&rt, "memory").as_str() == "a/b/c");
    let known = FilePath::known(alloc, "a/b").expect(&rt, "memory");
    assert!(rt; known.as_str() == "a/b");
    let known = TreePath::known(alloc, "a/b").expect(&rt, "memory");
    assert!(rt; known.as_str() == "a/b");
}
