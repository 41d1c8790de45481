ghost use Rattle.std.specs.Prelude.{◌≡◌, IfOk, Some, None, if◌then◌else◌};
ghost use Rattle.std.specs.List.{list_any};
ghost use Rattle.std.specs.Str.{bytes_eq};
ghost use Rattle.build_targets.specs.Folders.{is_folder, kept_parts};
ghost use Rattle.build_targets.specs.Meanings.{source};

use crate::paths::{first_part, path, source};
use rocks_text::FilePath;
use std::alloc::{AllocError, Global};

/// The folder that a text of `copy_directories` names, for a rock whose rockspec has this file name; None where it has
/// no meaning. It is a path, and may begin with `./`, which is dropped; its first part is none of `lua`, `lib`, `bin`,
/// `conf`, `rock_manifest` and the rockspec's name (LuaRocks documentation, rockspec format: build; which texts have a
/// meaning is this project's own). The only error is want of memory.
pub fn folder(alloc: Global, rockspec: &str, named: &[u8]) -> Result<Option<FilePath>, AllocError>
    ensures { IfOk result (λ found.
        found ≡ (if is_folder rockspec.now named.now then Some (source named.now) else None)) }
{
    let folder = source(named);
    if is_kept(rockspec, first_part(folder)) {
        return Ok(None);
    }
    path(alloc, folder)
}

// Whether the first part is one that no named folder may have.
fn is_kept(rockspec: &str, first: &[u8]) -> bool
    ensures { result ≡ list_any (bytes_eq first.now) (kept_parts rockspec.now) }
{
    first == b"lua".as_slice()
        || first == b"lib".as_slice()
        || first == b"bin".as_slice()
        || first == b"conf".as_slice()
        || first == b"rock_manifest".as_slice()
        || first == rockspec.as_bytes()
}
