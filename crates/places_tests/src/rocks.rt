//! What the tests make of texts. A rock is written as its name, its version and its items, with blanks between them, and
//! an item as its kind, a colon and its path.

use rocks_text::{FilePath, Item, Kind, Name};
use rocks_version::{RockKey, Version};
use std::alloc::Global;

/// The key of a name and a version. None where they are none, or where memory runs out.
pub fn key(alloc: Global, name: &str, version: &str) -> Option<RockKey> {
    Some(RockKey {
        name: Name::from_text(alloc, name).ok()?,
        version: Version::read(alloc, version).ok()?,
    })
}

/// The item of a kind at a path. None where that is no path, or where memory runs out.
pub fn item(alloc: Global, kind: Kind, path: &str) -> Option<Item> {
    let path = FilePath::from_text(alloc, path).ok()?;
    Some(Item { kind, path })
}

fn written_item(alloc: Global, text: &str) -> Option<Item> {
    let (kind, path) = text.split_once(':')?;
    let kind = match kind {
        "lua" => Kind::Lua,
        "lib" => Kind::Lib,
        "bin" => Kind::Bin,
        _ => return None,
    };
    item(alloc, kind, path)
}

/// The rock that a text writes.
pub fn rock(alloc: Global, text: &str) -> Option<(RockKey, Vec<Item>)> {
    let mut words = text.split_whitespace();
    let name = words.next()?;
    let version = words.next()?;
    let mut items = Vec::new(alloc);
    for word in words {
        items.push(written_item(alloc, word)?).ok()?;
    }
    Some((key(alloc, name, version)?, items))
}
