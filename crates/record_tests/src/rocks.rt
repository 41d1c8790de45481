//! Rocks from tables.

use rock_record::Rock;
use rocks_bytes::Bytes;
use rocks_text::{FilePath, Item, Kind, Name};
use rocks_version::{RockKey, Version};
use sqlite_items::Items;
use std::alloc::Global;
use std::test::Fail;

/// A rock in words: its name and version, its items, and its own files. The bytes of its rockspec
/// are `abc`.
pub struct Words {
    pub name: &'static str,
    pub version: &'static str,
    pub items: &'static [(Kind, &'static str, &'static str)],
    pub own: &'static [(&'static str, &'static str)],
}

pub fn rock(alloc: Global, words: &Words) -> Result<Rock, Fail> {
    Ok(Rock {
        key: RockKey {
            name: Name::from_text(alloc, words.name)?,
            version: Version::read(alloc, words.version)?,
        },
        dependencies: Items::new(alloc),
        rockspec: bytes(alloc, "abc")?,
        items: items(alloc, words.items)?,
        own: files(alloc, words.own)?,
    })
}

fn bytes(alloc: Global, text: &str) -> Result<Bytes, Fail> {
    Ok(Bytes::from(Vec::from_slice(alloc, text.as_bytes())?))
}

fn items(alloc: Global, table: &[(Kind, &str, &str)]) -> Result<Items<(Item, Bytes)>, Fail> {
    let mut items = Items::new(alloc);
    for (kind, path, text) in table {
        let item = Item {
            kind: *kind,
            path: FilePath::from_text(alloc, path)?,
        };
        items.push((item, bytes(alloc, text)?))?;
    }
    Ok(items)
}

fn files(alloc: Global, table: &[(&str, &str)]) -> Result<Items<(FilePath, Bytes)>, Fail> {
    let mut files = Items::new(alloc);
    for (path, text) in table {
        files.push((FilePath::from_text(alloc, path)?, bytes(alloc, text)?))?;
    }
    Ok(files)
}
