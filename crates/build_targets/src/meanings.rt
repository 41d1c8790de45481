ghost use Rattle.std.specs.Prelude.{◌≡◌, IfOk, Err, if◌then◌else◌};
ghost use Rattle.lua_value.specs.declared.key.Key.TheVariants.{Text};
ghost use Rattle.build_targets.specs.Meanings.{is_source, meaning_at, unnamed};
ghost use Rattle.build_targets.specs.Places.{from_file};

use crate::keys::is_good_key;
use crate::paths::{path, source};
use crate::places::{copied, named_place, unnamed_place};
use crate::target::{Dest, Target};
use lua_value::Key;
use rocks_bytes::Bytes;
use std::alloc::{AllocError, Global};

/// The lists of a build whose entries name a file each (LuaRocks documentation, rockspec format: build).
#[derive(Debug, Clone, Copy, PartialEq, Eq)]
pub enum Listing {
    /// `modules`
    Modules,
    /// `install.lua`
    Lua,
    /// `install.lib`
    Lib,
    /// `install.bin`
    Bin,
    /// `install.conf`
    Conf,
}

/// What an entry of a list means: the target of the file that it names, or the text of it that has no meaning, as it
/// is given. A key that has none goes before a file that has none, and where both are good and make no path together,
/// it is the key's fault, unless the file's last part alone makes the path too long (LuaRocks documentation, rockspec
/// format: build; which texts have a meaning is this project's own).
///
/// A file is a path, and may begin with `./`, which is dropped. Under a text key:
/// - `modules` takes the name of a module: the file stands at the module's path.
/// - `install.lua` and `install.lib` take the name of a module: a file that ends in `.lua` stands at the name's parts
///   joined by `/`, then `.lua`; another at those parts with the last one replaced by the last part of the file.
/// - `install.bin` and `install.conf` take a path; with `conf/` before it a path of `install.conf` still has to be one.
///
/// Under another key the file keeps its last part. The only error is want of memory.
pub fn meaning(
    alloc: Global,
    listing: Listing,
    key: &Key,
    file: &[u8],
) -> Result<Result<Target, Bytes>, AllocError>
    ensures { IfOk result (λ found. found ≡ meaning_at listing key.now file.now) }
{
    match key {
        Key::Text(key) => named(alloc, listing, key.as_slice(), file),
        Key::Int(_) | Key::Bool(_) => unnamed(alloc, listing, file),
    }
}

// What a file means under a key that is a text.
fn named(
    alloc: Global,
    listing: Listing,
    key: &[u8],
    file: &[u8],
) -> Result<Result<Target, Bytes>, AllocError>
    ensures { IfOk result (λ found. found ≡ meaning_at listing (Text key.now) file.now) }
{
    if !is_good_key(alloc, listing, key)? {
        return Ok(Err(copied(alloc, key)?));
    }
    let place = named_place(alloc, listing, key, file)?;
    target_from(alloc, file, place)
}

// What a file means under another key.
fn unnamed(
    alloc: Global,
    listing: Listing,
    file: &[u8],
) -> Result<Result<Target, Bytes>, AllocError>
    ensures { IfOk result (λ found.
        found ≡ (if is_source file.now then unnamed listing file.now else Err file.now)) }
{
    let place = unnamed_place(alloc, listing, file)?;
    target_from(alloc, file, place)
}

// The target of a file at its place; a file that is no path goes before what the place blames.
fn target_from(
    alloc: Global,
    file: &[u8],
    place: Result<Dest, Bytes>,
) -> Result<Result<Target, Bytes>, AllocError>
    ensures { IfOk result (λ found.
        found ≡ (if is_source file.now then from_file file.now place else Err file.now)) }
{
    let Some(from) = path(alloc, source(file))? else {
        return Ok(Err(copied(alloc, file)?));
    };
    match place {
        Ok(to) => Ok(Ok(Target { to, from })),
        Err(blamed) => Ok(Err(blamed)),
    }
}
