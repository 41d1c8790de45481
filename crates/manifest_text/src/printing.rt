ghost use Rattle.std.specs.Prelude.{◌≡◌, IfOk};
ghost use Rattle.manifest_text.specs.Text.{manifest_text};

use crate::ManifestView;
use crate::tables::manifest_table;
use lua_print::print;
use rocks_bytes::Bytes;
use std::alloc::{AllocError, Global};

/// The text of the manifest of a tree: the tables `commands`, `dependencies`, `libs`, `modules` and `repository`
/// (LuaRocks's tree manifest; that a view has one text is this project's own). The only error is want of memory.
#[tactic(auto, unfolding(crate::specs::Text::manifest_text))]
pub fn print_manifest(alloc: Global, whole: &ManifestView) -> Result<Bytes, AllocError>
    ensures { IfOk result (λ text. text ≡ manifest_text whole.now) }
{
    let table = manifest_table(alloc, whole)?;
    let mut text = Vec::new(alloc);
    print(alloc, &table, &mut text)?;
    Ok(Bytes::from(text))
}
