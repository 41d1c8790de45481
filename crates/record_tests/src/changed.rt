//! A record's text with one byte changed.

use rock_record::{RecordFault, read_rock_manifest};
use std::alloc::Global;
use std::test::Fail;

const TEXT: &[u8] = b"bin = {}
lib = {}
lua = {
   a = \"0cc175b9c0f1b6a831c399e269772661\",
}
own = {}
";

// Whether bytes are read as a record, which then has them as its text.
fn is_read(alloc: Global, bytes: &[u8]) -> Result<bool, Fail> {
    let found = match read_rock_manifest(alloc, bytes) {
        Ok(found) => found,
        Err(RecordFault::BadRecord) => return Ok(false),
        Err(fault) => return Err(Fail::from(fault)),
    };
    let mut text = String::from_str(alloc, "bin = {}\nlib = {}\nlua = {\n")?;
    for (item, digest) in found.items.as_slice() {
        let path = item.path.as_str();
        let digits = hex::encode(alloc, digest.as_slice())?;
        text.push_str(format!(in alloc; "   {path} = \"{digits}\",\n")?.as_str())?;
    }
    text.push_str("}\nown = {}\n")?;
    Ok(text.as_bytes() == bytes)
}

// How many of the texts with another byte at a place are read.
fn read_with_another(alloc: Global, at: usize) -> Result<u32, Fail> {
    let mut count = 0u32;
    for byte in 0..=255 {
        let mut text = Vec::from_slice(alloc, TEXT)?;
        if let Some(place) = text.get_mut(at) {
            if *place != byte {
                *place = byte;
                if is_read(alloc, &text)? {
                    count = count.saturating_add(1);
                }
            }
        }
    }
    Ok(count)
}

// How many of the texts with a byte dropped, and with one doubled, are read.
fn read_with_one_less_or_more(alloc: Global) -> Result<(u32, u32), Fail> {
    let mut dropped = 0u32;
    let mut doubled = 0u32;
    for (at, byte) in TEXT.iter().enumerate() {
        let mut less = Vec::from_slice(alloc, TEXT)?;
        less.remove(at);
        if is_read(alloc, &less)? {
            dropped = dropped.saturating_add(1);
        }
        let mut more = Vec::from_slice(alloc, TEXT)?;
        more.insert(at, *byte)?;
        if is_read(alloc, &more)? {
            doubled = doubled.saturating_add(1);
        }
    }
    Ok((dropped, doubled))
}

// With another byte the text is that of a record where another letter or `_` stands in the place of
// the path's `a` (52), or another of the 16 digits in that of one of the 32 (480). With a byte
// doubled it is where the path is `aa`.
#[test]
fn changed_texts_are_refused(rt: HostRuntime) -> Result<(), Fail> {
    let mut changed = 0u32;
    for at in 0..TEXT.len() {
        changed = changed.saturating_add(read_with_another(rt.alloc(), at)?);
    }
    assert_eq!(rt; changed, 532);
    let (dropped, doubled) = read_with_one_less_or_more(rt.alloc())?;
    assert_eq!(rt; dropped, 0);
    assert_eq!(rt; doubled, 1);
    assert!(rt; is_read(rt.alloc(), TEXT)?);
    Ok(())
}
