//! Where targets and folders stand, and their order.
ghost use Rattle.std.specs.Prelude.{◌≡◌, ◌++◌, IfOk, map};
ghost use Rattle.rocks_text.specs.Items.{rank_of};
ghost use Rattle.build_plan.specs.Steps.{place_of, folder_place, places_of, IsInOrder};

use crate::Recipe;
use build_targets::{Dest, Target};
use rocks_text::{FilePath, Kind};
use sqlite_items::Items;
use std::alloc::{AllocError, Global};
use twofold_paths::Place;

/// The sort of configuration files, behind those of items.
const CONF: u8 = 3;

/// The sort of folders.
const FOLDERS: u8 = 4;

/// The places of targets and of folders. The only error is want of memory.
pub fn places(
    alloc: Global,
    targets: &[Target],
    folders: &[FilePath],
) -> Result<Vec<Place>, AllocError>
    ensures { IfOk result (λ places. places.items ≡ places_of targets.now folders.now) }
{
    let mut places = target_places(alloc, targets)?;
    places.append(&mut folder_places(alloc, folders)?)?;
    Ok(places)
}

fn target_places(alloc: Global, targets: &[Target]) -> Result<Vec<Place>, AllocError>
    ensures { IfOk result (λ places. places.items
        ≡ map (λ target. place_of target.to) targets.now) }
{
    let mut places = Vec::new(alloc);
    for target in targets {
        places.push(place_of(alloc, &target.to)?)?;
    }
    Ok(places)
}

fn folder_places(alloc: Global, folders: &[FilePath]) -> Result<Vec<Place>, AllocError>
    ensures { IfOk result (λ places. places.items ≡ map folder_place folders.now) }
{
    let mut places = Vec::new(alloc);
    for folder in folders {
        places.push(Place {
            sort: FOLDERS,
            path: folder.copy(alloc)?,
        })?;
    }
    Ok(places)
}

fn place_of(alloc: Global, dest: &Dest) -> Result<Place, AllocError>
    ensures { IfOk result (λ place. place ≡ place_of dest.now) }
{
    match dest {
        Dest::Item(item) => Ok(Place {
            sort: sort_of(item.kind),
            path: item.path.copy(alloc)?,
        }),
        Dest::Conf(path) => Ok(Place {
            sort: CONF,
            path: path.copy(alloc)?,
        }),
    }
}

fn sort_of(kind: Kind) -> u8
    ensures { result ≡ rank_of kind }
{
    match kind {
        Kind::Lua => 0,
        Kind::Lib => 1,
        Kind::Bin => 2,
    }
}

/// The recipe of targets and folders, each in order. The only error is want of memory.
pub fn in_order(targets: Vec<Target>, folders: Vec<FilePath>) -> Result<Recipe, AllocError>
    ensures { IfOk result (IsInOrder targets.items folders.items) }
{
    let mut files = targets;
    files.sort_by(|left, right| left.to.cmp(&right.to))?;
    let mut folders = folders;
    folders.sort()?;
    Ok(Recipe {
        files: Items::from_vec(files),
        folders: Items::from_vec(folders),
    })
}
