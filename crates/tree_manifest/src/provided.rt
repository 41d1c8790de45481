// Which rocks have which items.
ghost use Rattle.std.specs.Prelude.{◌≡◌, ℕ, List, map, IfOk};
ghost use Rattle.std.specs.List.{All};
ghost use Rattle.manifest_text.specs.Views.{IsRockKey};
ghost use Rattle.rocks_version.specs.declared.key.RockKey.{RockKey as WholeKey};
ghost use Rattle.tree_manifest.specs.Forms.{key_line, path_group};
ghost use Rattle.tree_manifest.specs.Found.{ArePaths};

use crate::groups::Group;
use crate::keys::{file_path, rock_key};
use crate::quoted::{key_in, text_in};
use rocks_bytes::Bytes;
use rocks_text::FilePath;
use rocks_version::RockKey;
use sqlite_items::Items;
use std::alloc::{AllocError, Global};

/// The paths that are gathered, each with the rocks that have it. The only error is want of memory.
pub fn provided(
    alloc: Global,
    groups: &[Group],
) -> Result<Items<(FilePath, Items<RockKey>)>, AllocError>
    ensures valid { IfOk result ArePaths }
    ensures known { IfOk result (λ found. (paths : List (List ℕ × List WholeKey)) → ArePaths paths
        → groups.now ≡ map path_group paths → found ≡ paths) }
{
    let mut found = Items::new(alloc);
    for group in groups {
        let rocks = keys_in(alloc, group.texts.as_slice())?;
        let path = key_in(alloc, group.head.as_slice())?;
        if let Some(path) = file_path(alloc, &path)? {
            found.push((path, rocks))?;
        }
    }
    Ok(found)
}

fn keys_in(alloc: Global, texts: &[Bytes]) -> Result<Items<RockKey>, AllocError>
    ensures valid { IfOk result (λ found. All IsRockKey found) }
    ensures known { IfOk result (λ found. (keys : List WholeKey) → All IsRockKey keys
        → texts.now ≡ map key_line keys → found ≡ keys) }
{
    let mut found = Items::new(alloc);
    for text in texts {
        let text = text_in(alloc, 0, text.as_slice())?;
        if let Some(key) = rock_key(alloc, &text)? {
            found.push(key)?;
        }
    }
    Ok(found)
}
