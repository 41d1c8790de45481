ghost use Rattle.std.specs.Prelude.{◌≡◌, ◌≢◌, ◌↔◌, codes, ℕ, List, map, IfOk, IsErrOf, IsTrue};
ghost use Rattle.std.specs.List.Sorted.{IsPermutation};
ghost use Rattle.manifest_text.specs.Text.{manifest_text};
ghost use Rattle.manifest_text.specs.Views.{IsView};
ghost use Rattle.manifest_text.specs.declared.view.ManifestView.{ManifestView as WholeView};
ghost use Rattle.manifest_text.specs.declared.view.ViewRock.{ViewRock as WholeRock};
ghost use Rattle.rocks_version.specs.declared.key.RockKey.{RockKey as WholeKey};
ghost use Rattle.tree_manifest.specs.Forms.{path_group, rock_group};
ghost use Rattle.tree_manifest.specs.Orders.{IsInOrder};
ghost use Rattle.tree_manifest.specs.Reading.{groups_under};
ghost use Rattle.tree_manifest.specs.Found.{path_depths, rock_depths, AreListed, ArePaths, AreRocks, IsMade};

use crate::groups::{Depths, groups_under};
use crate::order::is_in_order;
use crate::provided::provided;
use crate::rocks::rocks;
use crate::{ManifestFault, ManifestView, ViewRock, print_manifest};
use rocks_text::FilePath;
use rocks_version::{RockKey, listing};
use sqlite_items::Items;
use std::alloc::{AllocError, Global};

/// What the manifest says whose text the bytes are, of any length. (LuaRocks's tree manifest; that a view has one text
/// is this project's own.)
///
/// `NotCanonical` exactly where they are the text of no view, and else `NoMemory` where memory runs out.
pub fn read_manifest(alloc: Global, bytes: &[u8]) -> Result<ManifestView, ManifestFault>
    ensures valid { IfOk result (λ found. IsView found) }
    ensures text { IfOk result (λ found. bytes.now ≡ manifest_text found) }
    ensures bad { IsErrOf result ManifestFault.NotCanonical
        → (whole : WholeView) → IsView whole → manifest_text whole ≢ bytes.now }
{
    let found = view_in(alloc, bytes)?;
    if is_text_of(alloc, &found, bytes)? {
        Ok(found)
    } else {
        Err(ManifestFault::NotCanonical)
    }
}

// Whether the view is in order, and the bytes are its text.
fn is_text_of(alloc: Global, whole: &ManifestView, bytes: &[u8]) -> Result<bool, AllocError>
    ensures { IfOk result (λ is. IsTrue is
        ↔ (IsInOrder whole.now × (bytes.now ≡ manifest_text whole.now))) }
{
    if !is_in_order(whole) {
        return Ok(false);
    }
    let text = print_manifest(alloc, whole)?;
    Ok(bytes == text.as_slice())
}

// What the bytes say where they are the text of a view.
fn view_in(alloc: Global, bytes: &[u8]) -> Result<ManifestView, AllocError>
    ensures valid { IfOk result (λ found. IsMade found) }
    ensures known { IfOk result (λ found. (whole : WholeView) → IsView whole
        → bytes.now ≡ manifest_text whole → found ≡ whole) }
{
    let commands = provided_under(alloc, b"commands", bytes)?;
    let libs = provided_under(alloc, b"libs", bytes)?;
    let modules = provided_under(alloc, b"modules", bytes)?;
    let rocks = rocks_under(alloc, bytes)?;
    Ok(ManifestView {
        commands,
        libs,
        modules,
        rocks,
    })
}

fn provided_under(
    alloc: Global,
    name: &[u8],
    bytes: &[u8],
) -> Result<Items<(FilePath, Items<RockKey>)>, AllocError>
    ensures valid { IfOk result ArePaths }
    ensures known { IfOk result (λ found. (paths : List (List ℕ × List WholeKey))
        → ArePaths paths
        → groups_under name.now path_depths bytes.now ≡ map path_group paths → found ≡ paths) }
{
    let depths = Depths { head: 3, text: 6 };
    let groups = groups_under(alloc, name, depths, bytes)?;
    provided(alloc, groups.as_slice())
}

fn rocks_under(alloc: Global, bytes: &[u8]) -> Result<Items<ViewRock>, AllocError>
    ensures valid { IfOk result AreRocks }
    ensures listed { IfOk result (λ found. AreListed found) }
    ensures known { IfOk result (λ found. (rocks : List WholeRock) → AreRocks rocks
        → groups_under (codes "dependencies") rock_depths bytes.now ≡ map rock_group rocks
        → IsPermutation rocks found) }
{
    let depths = Depths { head: 6, text: 12 };
    let groups = groups_under(alloc, b"dependencies", depths, bytes)?;
    let mut found = rocks(alloc, groups.as_slice())?;
    found.sort_by(|left, right| listing(&left.key, &right.key))?;
    Ok(Items::from_vec(found))
}
