//! Where the files of rocks stand.

use rocks_text::{FilePath, Item, Kind, TreePath};
use std::alloc::Global;

fn place(alloc: Global, kind: Kind) -> Option<TreePath> {
    let path = FilePath::from_text(alloc, "h/i.x").ok()?;
    tree_paths::plain(alloc, &Item { kind, path }).ok()
}

fn is_place(alloc: Global, kind: Kind, text: &str) -> bool {
    match place(alloc, kind) {
        Some(path) => path.as_str() == text,
        None => false,
    }
}

#[test]
fn each_file_has_its_place(rt: HostRuntime) {
    assert!(rt; is_place(rt.alloc(), Kind::Lua, "share/lua/5.4/h/i.x"));
    assert!(rt; is_place(rt.alloc(), Kind::Lib, "lib/lua/5.4/h/i.x"));
    assert!(rt; is_place(rt.alloc(), Kind::Bin, "bin/h/i.x"));
}
