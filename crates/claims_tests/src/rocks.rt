//! What the tests make of texts. A rock is written as its name, its version and its items, with
//! blanks between them, and an item as its kind, a colon and its path. Rocks are written with `;`
//! between them.

use rocks_text::{FilePath, Item, Kind, Name};
use rocks_version::{RockKey, Version};
use std::alloc::{AllocError, Global};
use tree_claims::Claims;

/// The key of a name and a version. None where they are none, or where memory runs out.
pub fn key(alloc: Global, name: &str, version: &str) -> Option<RockKey> {
    Some(RockKey {
        name: Name::from_text(alloc, name).ok()?,
        version: Version::read(alloc, version).ok()?,
    })
}

/// The item of a kind at a path. None where that is no path, or where memory runs out.
pub fn item(alloc: Global, kind: Kind, path: &str) -> Option<Item> {
    let path = FilePath::from_text(alloc, path).ok()?;
    Some(Item { kind, path })
}

fn written_item(alloc: Global, text: &str) -> Option<Item> {
    let (kind, path) = text.split_once(':')?;
    let kind = match kind {
        "lua" => Kind::Lua,
        "lib" => Kind::Lib,
        "bin" => Kind::Bin,
        _ => return None,
    };
    item(alloc, kind, path)
}

/// The rock that a text writes.
pub fn rock(alloc: Global, text: &str) -> Option<(RockKey, Vec<Item>)> {
    let mut words = text.split_whitespace();
    let name = words.next()?;
    let version = words.next()?;
    let mut items = Vec::new(alloc);
    for word in words {
        items.push(written_item(alloc, word)?).ok()?;
    }
    Some((key(alloc, name, version)?, items))
}

/// Adds a rock where it isn't there and can be added, and answers whether it did.
pub fn added(claims: &mut Claims, key: &RockKey, items: &[Item]) -> Result<bool, AllocError> {
    if claims.has_rock(key) || claims.clash(key, items)?.is_some() {
        return Ok(false);
    }
    claims.add(key, items)?;
    Ok(true)
}

/// The claims of the rocks that a text writes. None where one of them can't be added, or where
/// memory runs out.
pub fn claims(alloc: Global, text: &str) -> Option<Claims> {
    let mut claims = Claims::new(alloc);
    for part in text.split(';') {
        if let Some((key, items)) = rock(alloc, part)
            && !added(&mut claims, &key, &items).ok()?
        {
            return None;
        }
    }
    Some(claims)
}
