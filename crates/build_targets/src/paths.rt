// Paths as bytes, before they are known to be any.
ghost use Rattle.std.specs.Prelude.{◌≡◌, ◌++◌, IfOk, Some, None, if◌then◌else◌};
ghost use Rattle.build_targets.specs.Folders.{first_part};
ghost use Rattle.build_targets.specs.Meanings.{front_part, is_path, last_part, source};

use rocks_text::{FilePath, TextFault};
use std::alloc::{AllocError, Global};
use std::str;

// The path that these bytes are, if they are one. The only error is want of memory.
pub(crate) fn path(alloc: Global, bytes: &[u8]) -> Result<Option<FilePath>, AllocError>
    ensures { IfOk result (λ found.
        found ≡ (if is_path bytes.now then Some bytes.now else None)) }
{
    let Ok(text) = str::from_utf8(bytes) else {
        return Ok(None);
    };
    match FilePath::from_text(alloc, text) {
        Ok(path) => Ok(Some(path)),
        Err(TextFault::NoMemory) => Err(AllocError),
        Err(_) => Ok(None),
    }
}

// The path without the `./` that it may begin with.
pub(crate) fn source(path: &[u8]) -> &[u8]
    ensures { result.now ≡ source path.now }
{
    if path.starts_with(b"./") {
        &path[2..]
    } else {
        path
    }
}

// What stands before the first slash, or all.
pub(crate) fn first_part(path: &[u8]) -> &[u8]
    ensures { result.now ≡ first_part path.now }
{
    match path.iter().position(|b| *b == b'/') {
        Some(slash) => &path[..slash],
        None => path,
    }
}

// What stands behind the last slash, or all.
pub(crate) fn last_part(path: &[u8]) -> &[u8]
    ensures { result.now ≡ last_part path.now }
{
    match path.iter().rposition(|b| *b == b'/') {
        Some(slash) => &path[slash + 1..],
        None => path,
    }
}

// What stands before that, with the slash.
pub(crate) fn front_part(path: &[u8]) -> &[u8]
    ensures { result.now ≡ front_part path.now }
{
    &path[..path.len() - last_part(path).len()]
}

// The one and then the other. The only error is want of memory.
pub(crate) fn joined(alloc: Global, front: &[u8], rest: &[u8]) -> Result<Vec<u8>, AllocError>
    ensures { IfOk result (λ whole. whole.items ≡ front.now ++ rest.now) }
{
    let mut whole = Vec::from_slice(alloc, front)?;
    whole.extend_from_slice(rest)?;
    Ok(whole)
}
