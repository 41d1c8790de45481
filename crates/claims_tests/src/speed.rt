//! That a clash is found fast: with the time of a walk through all claims for each path this would
//! not end.

use crate::rocks::{added, item, key};
use rocks_text::{Item, Kind};
use std::alloc::{AllocError, Global};
use std::test::Fail;
use tree_claims::Claims;

const ROCKS: u32 = 20;

const ITEMS: u32 = 5_000;

// Items in a folder of their own.
fn many_items(alloc: Global, folder: u32) -> Result<Vec<Item>, AllocError> {
    let mut items = Vec::new(alloc);
    for at in 0..ITEMS {
        let path = format!(in alloc; "folder{folder}/of/modules/m{at}.lua")?;
        if let Some(item) = item(alloc, Kind::Lua, path.as_str()) {
            items.push(item)?;
        }
    }
    Ok(items)
}

fn add_many(alloc: Global, claims: &mut Claims, folder: u32) -> Result<bool, AllocError> {
    let items = many_items(alloc, folder)?;
    let name = format!(in alloc; "rock{folder}")?;
    match key(alloc, name.as_str(), "1.0-1") {
        Some(key) => added(claims, &key, &items),
        None => Ok(false),
    }
}

#[test]
fn many_claims_are_searched_fast(rt: HostRuntime) -> Result<(), Fail> {
    let alloc = rt.alloc();
    let mut claims = Claims::new(alloc);
    for folder in 0..ROCKS {
        assert!(rt; add_many(alloc, &mut claims, folder)?);
    }
    let key = key(alloc, "late", "1.0-1").ok_or("key")?;
    let items = many_items(alloc, ROCKS)?;
    assert!(rt; claims.clash(&key, &items)?.is_none());
    let taken = many_items(alloc, 0)?;
    assert!(rt; claims.clash(&key, &taken)?.is_none());
    Ok(())
}
