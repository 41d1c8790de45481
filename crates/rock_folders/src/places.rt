//! The places of the files that a record names.
ghost use Rattle.std.specs.Prelude.{◌≡◌, ◌++◌, map, IfOk, OnOk};
ghost use Rattle.rocks_text.specs.Items.{rank_of};
ghost use Rattle.rock_folders.specs.Steps.{item_place, own_place, places_of};

use rock_record::Record;
use rocks_text::{FilePath, Item, Kind};
use std::alloc::{AllocError, Global};
use twofold_paths::Place;

/// The sort of the files in the rock's own folder, behind those of items.
const OWN: u8 = 3;

/// The name of the record in a rock's folder.
pub const RECORD: &str = "rock_manifest";

/// The places of a record's files and of the record itself. The only error is want of memory.
pub fn places_of(alloc: Global, whole: &Record) -> Result<Vec<Place>, AllocError>
    ensures { IfOk result (λ places. places.items ≡ places_of whole.now) }
{
    let mut places = item_places(alloc, whole.items.as_slice())?;
    add_own_places(alloc, whole.own.as_slice(), &mut places)?;
    places.push(Place {
        sort: OWN,
        path: FilePath::known(alloc, RECORD)?,
    })?;
    Ok(places)
}

fn item_places(alloc: Global, files: &[(Item, [u8; 16])]) -> Result<Vec<Place>, AllocError>
    ensures { IfOk result (λ places. places.items ≡ map (λ file. item_place file.0) files.now) }
{
    let mut places = Vec::new(alloc);
    for (item, _) in files {
        places.push(Place {
            sort: sort_of(item.kind),
            path: item.path.copy(alloc)?,
        })?;
    }
    Ok(places)
}

fn add_own_places(
    alloc: Global,
    files: &[(FilePath, [u8; 16])],
    places: &mut Vec<Place>,
) -> Result<(), AllocError>
    ensures { OnOk result (places.new.items
        ≡ places.old.items ++ map (λ file. own_place file.0) files.now) }
{
    for (path, _) in files {
        places.push(Place {
            sort: OWN,
            path: path.copy(alloc)?,
        })?;
    }
    Ok(())
}

fn sort_of(kind: Kind) -> u8
    ensures { result ≡ rank_of kind }
{
    match kind {
        Kind::Lua => 0,
        Kind::Lib => 1,
        Kind::Bin => 2,
    }
}
