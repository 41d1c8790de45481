// Where the file of an entry comes to stand, or which of the entry's texts is to blame that it doesn't.
ghost use Rattle.std.specs.Prelude.{◌≡◌, ◌++◌, ◌&&◌, not, codes, IfOk, Ok, Err, Some, None};
ghost use Rattle.std.specs.Prelude.{if◌then◌else◌};
ghost use Rattle.rocks_text.specs.Modules.{is_init_file, is_init_module, slashed};
ghost use Rattle.build_targets.specs.Meanings.{blamed_of, is_path};
ghost use Rattle.build_targets.specs.Meanings.{module_target, named_target, named, unnamed};
ghost use Rattle.build_targets.specs.Places.{from_file};

use crate::meanings::Listing;
use crate::paths::{front_part, joined, last_part, path, source};
use crate::target::Dest;
use rocks_bytes::Bytes;
use rocks_text::{FilePath, Item, Kind};
use std::alloc::{AllocError, Global};

// The place of a file under a good key.
pub(crate) fn named_place(
    alloc: Global,
    listing: Listing,
    key: &[u8],
    file: &[u8],
) -> Result<Result<Dest, Bytes>, AllocError>
    ensures { IfOk result (λ place. from_file file.now place ≡ named listing key.now file.now) }
{
    match listing {
        Listing::Modules => module_place(alloc, key, file),
        Listing::Lua => installed_place(alloc, Kind::Lua, key, file),
        Listing::Lib => installed_place(alloc, Kind::Lib, key, file),
        Listing::Bin => item_at(alloc, Kind::Bin, key, key),
        Listing::Conf => conf_at(alloc, key, key),
    }
}

// The place of a file that isn't named: it keeps its last part.
pub(crate) fn unnamed_place(
    alloc: Global,
    listing: Listing,
    file: &[u8],
) -> Result<Result<Dest, Bytes>, AllocError>
    ensures { IfOk result (λ place. from_file file.now place ≡ unnamed listing file.now) }
{
    let last = last_part(source(file));
    match listing {
        Listing::Modules | Listing::Lua => item_at(alloc, Kind::Lua, last, file),
        Listing::Lib => item_at(alloc, Kind::Lib, last, file),
        Listing::Bin => item_at(alloc, Kind::Bin, last, file),
        Listing::Conf => conf_at(alloc, last, file),
    }
}

// The place of a module.
fn module_place(alloc: Global, name: &[u8], file: &[u8]) -> Result<Result<Dest, Bytes>, AllocError>
    ensures { IfOk result (λ place. from_file file.now place ≡ module_target name.now file.now) }
{
    if !is_folder_module(name, source(file)) {
        return lua_item(alloc, Kind::Lua, name);
    }
    let mut folder = slashed(alloc, name)?;
    folder.push(b'/')?;
    item_in(alloc, Kind::Lua, &folder, b"init.lua", name, file)
}

// The place of a named entry of `install.lua` or `install.lib`.
fn installed_place(
    alloc: Global,
    kind: Kind,
    name: &[u8],
    file: &[u8],
) -> Result<Result<Dest, Bytes>, AllocError>
    ensures { IfOk result (λ place.
        from_file file.now place ≡ named_target kind name.now file.now) }
{
    if file.ends_with(b".lua") {
        return lua_item(alloc, kind, name);
    }
    let parts = slashed(alloc, name)?;
    let front = front_part(&parts);
    item_in(alloc, kind, front, last_part(source(file)), name, file)
}

// The item at the parts of a name and then `.lua`, or the name.
fn lua_item(alloc: Global, kind: Kind, name: &[u8]) -> Result<Result<Dest, Bytes>, AllocError>
    ensures { IfOk result (λ place. let path = slashed name.now ++ codes ".lua" in place
        ≡ (if is_path path then Ok (Dest.Item (record { kind = kind; path = path }))
        else Err name.now)) }
{
    let mut parts = slashed(alloc, name)?;
    parts.extend_from_slice(b".lua")?;
    item_at(alloc, kind, &parts, name)
}

// The item at a front and a last part, or the text that is to blame.
fn item_in(
    alloc: Global,
    kind: Kind,
    front: &[u8],
    last: &[u8],
    key: &[u8],
    file: &[u8],
) -> Result<Result<Dest, Bytes>, AllocError>
    ensures { IfOk result (λ place. let path = front.now ++ last.now in place
        ≡ (if is_path path then Ok (Dest.Item (record { kind = kind; path = path }))
        else Err (blamed_of front.now key.now file.now))) }
{
    let blamed = blamed_of(alloc, front, key, file)?;
    item_at(alloc, kind, &joined(alloc, front, last)?, blamed)
}

// The file where another last part would do, and else the key.
fn blamed_of<'a>(
    alloc: Global,
    front: &[u8],
    key: &'a [u8],
    file: &'a [u8],
) -> Result<&'a [u8], AllocError>
    ensures { IfOk result (λ blamed. blamed.now ≡ blamed_of front.now key.now file.now) }
{
    match path(alloc, &joined(alloc, front, b"x")?)? {
        Some(_) => Ok(file),
        None => Ok(key),
    }
}

// The item at these bytes where they are a path, and else what is to blame.
fn item_at(
    alloc: Global,
    kind: Kind,
    bytes: &[u8],
    blamed: &[u8],
) -> Result<Result<Dest, Bytes>, AllocError>
    ensures { IfOk result (λ place. place ≡ (if is_path bytes.now
        then Ok (Dest.Item (record { kind = kind; path = bytes.now })) else Err blamed.now)) }
{
    match path(alloc, bytes)? {
        Some(path) => Ok(Ok(Dest::Item(Item { kind, path }))),
        None => Ok(Err(copied(alloc, blamed)?)),
    }
}

// The file of `conf/` at these bytes where they make a path there, and else what is to blame.
fn conf_at(alloc: Global, bytes: &[u8], blamed: &[u8]) -> Result<Result<Dest, Bytes>, AllocError>
    ensures { IfOk result (λ place. place ≡ (if is_path (codes "conf/" ++ bytes.now)
        then Ok (Dest.Conf bytes.now) else Err blamed.now)) }
{
    match conf_path(alloc, bytes)? {
        Some(path) => Ok(Ok(Dest::Conf(path))),
        None => Ok(Err(copied(alloc, blamed)?)),
    }
}

// A path that is one with `conf/` before it too.
fn conf_path(alloc: Global, bytes: &[u8]) -> Result<Option<FilePath>, AllocError>
    ensures { IfOk result (λ found.
        found ≡ (if is_path (codes "conf/" ++ bytes.now) then Some bytes.now else None)) }
{
    match path(alloc, &joined(alloc, b"conf/", bytes)?)? {
        Some(_) => path(alloc, bytes),
        None => Ok(None),
    }
}

// The parts of a module's name joined by `/`.
fn slashed(alloc: Global, name: &[u8]) -> Result<Vec<u8>, AllocError>
    ensures { IfOk result (λ parts. parts.items ≡ slashed name.now) }
{
    name.iter()
        .map(|b| if *b == b'.' { b'/' } else { *b })
        .collect(alloc)
}

// Whether a file holds the module of a folder by its own name, `init.lua`.
fn is_folder_module(name: &[u8], file: &[u8]) -> bool
    ensures { result ≡ (is_init_file file.now && not (is_init_module name.now)) }
{
    is_init_file(file) && !name.ends_with(b".init")
}

fn is_init_file(file: &[u8]) -> bool
    ensures { result ≡ is_init_file file.now }
{
    file == b"init.lua".as_slice() || file.ends_with(b"/init.lua")
}

// An equal text. The only error is want of memory.
pub(crate) fn copied(alloc: Global, text: &[u8]) -> Result<Bytes, AllocError>
    ensures { IfOk result (λ copied. copied ≡ text.now) }
{
    Ok(Bytes::from(Vec::from_slice(alloc, text)?))
}
