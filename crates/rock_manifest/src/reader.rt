ghost use Rattle.std.specs.Prelude.{◌≡◌, ◌≢◌, ◌++◌, ◌↔◌, IfOk, OnOk, IsErrOf, IsTrue};
ghost use Rattle.rock_manifest.specs.Reading.{as_items, record_in};
ghost use Rattle.rock_manifest.specs.Records.{IsRecord, AreItemsInOrder, ArePathsInOrder};
ghost use Rattle.rock_manifest.specs.Text.{record_text};
ghost use Rattle.rock_manifest.specs.declared.record.Record.{Record as WholeRecord};

use crate::lines::files_under;
use crate::order::is_in_order;
use crate::printed::record_text;
use crate::{Record, RecordFault};
use rocks_text::{FilePath, Item, Kind};
use sqlite_items::Items;
use std::alloc::{AllocError, Global};

/// The record whose text the bytes are, of any length. (LuaRocks's `rock_manifest`; that a record
/// has one text is this project's own.)
///
/// `BadRecord` exactly where they are the text of no record, and else `NoMemory` where memory runs
/// out.
pub fn read_rock_manifest(alloc: Global, bytes: &[u8]) -> Result<Record, RecordFault>
    ensures valid { IfOk result (λ found. IsRecord found) }
    ensures text { IfOk result (λ found. bytes.now ≡ record_text found) }
    ensures bad { IsErrOf result RecordFault.BadRecord
        → (whole : WholeRecord) → IsRecord whole → record_text whole ≢ bytes.now }
{
    let found = record_in(alloc, bytes)?;
    if is_text_of(alloc, &found, bytes)? {
        Ok(found)
    } else {
        Err(RecordFault::BadRecord)
    }
}

// Whether the files are in order, and the bytes are the text of their record.
fn is_text_of(alloc: Global, whole: &Record, bytes: &[u8]) -> Result<bool, AllocError>
    ensures { IfOk result (λ is. IsTrue is
        ↔ ((AreItemsInOrder whole.now.items × ArePathsInOrder whole.now.own)
        × (bytes.now ≡ record_text whole.now))) }
{
    if !is_in_order(whole) {
        return Ok(false);
    }
    let text = record_text(alloc, whole)?;
    Ok(bytes == text.as_slice())
}

// What the bytes would say if they were the text of a record.
fn record_in(alloc: Global, bytes: &[u8]) -> Result<Record, AllocError>
    ensures { IfOk result (λ found. found ≡ record_in bytes.now) }
{
    let lua = files_under(alloc, b"lua", bytes)?;
    let lib = files_under(alloc, b"lib", bytes)?;
    let bin = files_under(alloc, b"bin", bytes)?;
    let own = files_under(alloc, b"own", bytes)?;
    let mut items = Items::new(alloc);
    add_items(Kind::Lua, lua, &mut items)?;
    add_items(Kind::Lib, lib, &mut items)?;
    add_items(Kind::Bin, bin, &mut items)?;
    Ok(Record {
        items,
        own: Items::from_vec(own),
    })
}

fn add_items(
    kind: Kind,
    files: Vec<(FilePath, [u8; 16])>,
    items: &mut Items<(Item, [u8; 16])>,
) -> Result<(), AllocError>
    ensures { OnOk result (items.new ≡ items.old ++ as_items kind files.items) }
{
    for (path, digest) in files {
        items.push((Item { kind, path }, digest))?;
    }
    Ok(())
}
