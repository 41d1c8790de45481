ghost use Rattle.std.specs.Prelude.{◌≡◌, ◌++◌, ◌∷◌, [], IfOk, OnOk};
ghost use Rattle.std.specs.List.{flat_map};
ghost use Rattle.lua_print.specs.Printed.{key_text};
ghost use Rattle.lua_value.specs.declared.key.Key.TheVariants.{Text};
ghost use Rattle.rock_manifest.specs.Lines.{file_line, files_text, table_lines};
ghost use Rattle.rock_manifest.specs.Text.{is_kind, of_kind, record_text};

use crate::Record;
use lua_names::is_name;
use lua_print::print_quoted;
use rocks_bytes::Bytes;
use rocks_text::{FilePath, Item, Kind};
use std::alloc::{AllocError, Global};

/// The text of a record (LuaRocks's `rock_manifest`). The only error is want of memory.
pub fn record_text(alloc: Global, whole: &Record) -> Result<Bytes, AllocError>
    ensures { IfOk result (λ text. text ≡ record_text whole.now) }
{
    let items = whole.items.as_slice();
    let mut text = Vec::new(alloc);
    print_items(alloc, b"bin", Kind::Bin, items, &mut text)?;
    print_items(alloc, b"lib", Kind::Lib, items, &mut text)?;
    print_items(alloc, b"lua", Kind::Lua, items, &mut text)?;
    let own = own_lines(alloc, whole.own.as_slice())?;
    print_table(b"own", &own, &mut text)?;
    Ok(Bytes::from(text))
}

// Appends the global of the items of one kind.
fn print_items(
    alloc: Global,
    name: &[u8],
    kind: Kind,
    items: &[(Item, [u8; 16])],
    out: &mut Vec<u8>,
) -> Result<(), AllocError>
    ensures { OnOk result (out.new.items
        ≡ out.old.items ++ table_lines name.now (files_text (of_kind kind items.now))) }
{
    print_table(name, &lines_of(alloc, kind, items)?, out)
}

// Appends a global and its table, which holds those lines.
fn print_table(name: &[u8], lines: &[u8], out: &mut Vec<u8>) -> Result<(), AllocError>
    ensures { OnOk result (out.new.items ≡ out.old.items ++ table_lines name.now lines.now) }
{
    out.extend_from_slice(name)?;
    if lines.is_empty() {
        return out.extend_from_slice(b" = {}\n");
    }
    out.extend_from_slice(b" = {\n")?;
    out.extend_from_slice(lines)?;
    out.extend_from_slice(b"}\n")
}

fn lines_of(alloc: Global, kind: Kind, items: &[(Item, [u8; 16])]) -> Result<Vec<u8>, AllocError>
    ensures { IfOk result (λ lines. lines.items ≡ files_text (of_kind kind items.now)) }
{
    let mut lines = Vec::new(alloc);
    for (item, digest) in items {
        if is_kind(item.kind, kind) {
            print_line(alloc, &item.path, digest, &mut lines)?;
        }
    }
    Ok(lines)
}

fn is_kind(kind: Kind, other: Kind) -> bool
    ensures { result ≡ is_kind kind other }
{
    kind == other
}

fn own_lines(alloc: Global, own: &[(FilePath, [u8; 16])]) -> Result<Vec<u8>, AllocError>
    ensures { IfOk result (λ lines. lines.items ≡ files_text own.now) }
{
    let mut lines = Vec::new(alloc);
    for (path, digest) in own {
        print_line(alloc, path, digest, &mut lines)?;
    }
    Ok(lines)
}

// Appends the line of a file.
fn print_line(
    alloc: Global,
    path: &FilePath,
    digest: &[u8; 16],
    out: &mut Vec<u8>,
) -> Result<(), AllocError>
    ensures { OnOk result (out.new.items ≡ out.old.items ++ file_line (path.now, digest.now)) }
{
    out.extend_from_slice(b"   ")?;
    print_key(path.as_str().as_bytes(), out)?;
    print_quoted(hex::encode(alloc, digest.as_slice())?.as_bytes(), out)?;
    out.extend_from_slice(b",\n")
}

fn print_key(path: &[u8], out: &mut Vec<u8>) -> Result<(), AllocError>
    ensures { OnOk result (out.new.items ≡ out.old.items ++ key_text (Text path.now)) }
{
    if is_name(path) {
        out.extend_from_slice(path)?;
        return out.extend_from_slice(b" = ");
    }
    out.extend_from_slice(b"[")?;
    print_quoted(path, out)?;
    out.extend_from_slice(b"] = ")
}
