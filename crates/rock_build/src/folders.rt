// The folders of a server that rocks are made from.
ghost use Rattle.std.specs.Prelude.{◌≡◌, IfOk};
ghost use Rattle.rock_build.specs.Contents.{source_folder, unpacked_folder, unpacked_rockspec};

use rocks_text::FilePath;
use rocks_version::RockKey;
use std::alloc::{AllocError, Global};

/// `NAME-VERSION`: the sources of a rock.
pub(crate) fn source_folder(alloc: Global, key: &RockKey) -> Result<FilePath, AllocError>
    ensures { IfOk result (λ path. path ≡ source_folder key.now) }
{
    let name = key.name.as_str();
    let version = key.version.as_str();
    let text = format!(in alloc; "{name}-{version}")?;
    FilePath::known(alloc, &text)
}

/// `NAME-VERSION.rock`: an unpacked rock.
pub(crate) fn unpacked_folder(alloc: Global, key: &RockKey) -> Result<FilePath, AllocError>
    ensures { IfOk result (λ path. path ≡ unpacked_folder key.now) }
{
    let name = key.name.as_str();
    let version = key.version.as_str();
    let text = format!(in alloc; "{name}-{version}.rock")?;
    FilePath::known(alloc, &text)
}

/// The path on a server of the rockspec in an unpacked rock's folder: `NAME-VERSION.rock/NAME-VERSION.rockspec` (this
/// project's own, after LuaRocks' layout of rocks). The only error is want of memory.
pub fn unpacked_rockspec(alloc: Global, key: &RockKey) -> Result<FilePath, AllocError>
    ensures { IfOk result (λ path. path ≡ unpacked_rockspec key.now) }
{
    let name = key.name.as_str();
    let version = key.version.as_str();
    let text = format!(in alloc; "{name}-{version}.rock/{name}-{version}.rockspec")?;
    FilePath::known(alloc, &text)
}
