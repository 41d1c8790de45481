ghost use Rattle.std.specs.Prelude.{◌≡◌, ◌≢◌, ◌⊎◌, List, ℕ, IfOk, IfSome, IsSome};
ghost use Rattle.std.specs.FinMap.{get};
ghost use Rattle.std.specs.declared.cmp.Ordering.TheVariants.{Greater};
ghost use Rattle.rocks_text.specs.Files.{path_cmp};
ghost use Rattle.rock_folders.specs.Folders.{IsReadingOf, IsRecordOf, IsSomeReading};
ghost use Rattle.rock_folders.specs.Found.{AsksDevice};
ghost use Rattle.rock_folders.specs.Steps.{IsRecordRead, IsRockspecRead, IsSomeRockspec};
ghost use Rattle.tree_sets.specs.Trees.{record_path, rockspec_path};

use crate::places::RECORD;
use crate::recorded::record_from;
use crate::rockspecs::rockspec_from;
use crate::{Folder, FoundRockspec};
use rock_record::{Record, rockspec_path as rockspec_name};
use rocks_outside::{Device, DeviceError};
use rocks_text::{FilePath, TreePath};
use rocks_version::RockKey;
use std::alloc::{AllocError, Global};
use tree_paths::own_path;

/// What comes of the folder of a rock.
#[derive(Debug, Drop)]
pub enum Reading {
    /// The record is one, names the rockspec, and its paths can stand beside each other; and the rockspec, if there is one,
    /// is the rock's.
    Good(Folder),
    /// The least path that shows otherwise: the record's or the rockspec's.
    Bad(TreePath),
}

/// Reads the record and the rockspec in the folder of a rock that was found.
///
/// `Failed` comes only where the device failed in the call, and `NoMemory` where memory runs out. Nothing is changed.
pub fn read_folder<V: Device>(
    alloc: Global,
    device: &mut V,
    key: &RockKey,
) -> Result<Reading, DeviceError>
    requires { IfSome (V.state device.old).files
        (λ files. IsSome (get files (record_path key.now))) }
    ensures reading { IfOk result (λ reading. IfSome (V.state device.old).files
        (λ files. IsReadingOf files key.now reading)) }
    ensures form { IfOk result (IsSomeReading key.now) }
    ensures asks { AsksDevice result (V.state device.old) (V.state device.new) }
{
    let record_path = record_path(alloc, key)?;
    let rockspec_path = rockspec_path(alloc, key)?;
    let found = read_record(alloc, device, key, &record_path)?;
    let rockspec = read_rockspec(alloc, device, key, &rockspec_path)?;
    match (found, rockspec) {
        (Some(record), Some(rockspec)) => Ok(Reading::Good(Folder {
            key: key.copy(alloc)?,
            record,
            rockspec,
        })),
        (Some(_), None) => Ok(Reading::Bad(rockspec_path)),
        (None, Some(_)) => Ok(Reading::Bad(record_path)),
        (None, None) => Ok(Reading::Bad(lesser(record_path, rockspec_path))),
    }
}

fn lesser(left: TreePath, right: TreePath) -> TreePath
    ensures one { (result ≡ left) ⊎ (result ≡ right) }
    ensures first { path_cmp result left ≢ Greater }
    ensures second { path_cmp result right ≢ Greater }
{
    if left < right { left } else { right }
}

// Where the record of a rock stands.
fn record_path(alloc: Global, key: &RockKey) -> Result<TreePath, AllocError>
    ensures { IfOk result (λ path. path ≡ record_path key.now) }
{
    own_path(alloc, key, &FilePath::known(alloc, RECORD)?)
}

// Where the rockspec of a rock stands.
fn rockspec_path(alloc: Global, key: &RockKey) -> Result<TreePath, AllocError>
    ensures { IfOk result (λ path. path ≡ rockspec_path key.now) }
{
    own_path(alloc, key, &rockspec_name(alloc, key)?)
}

// The record at the path, if it is one of the rock.
fn read_record<V: Device>(
    alloc: Global,
    device: &mut V,
    key: &RockKey,
    path: &TreePath,
) -> Result<Option<Record>, DeviceError>
    ensures read { IfOk result (λ read. IfSome (V.state device.old).files
        (λ files. IsRecordRead key.now (get files path.now) read)) }
    ensures form { IfOk result (λ read. IfSome read (IsRecordOf key.now)) }
    ensures asks { AsksDevice result (V.state device.old) (V.state device.new) }
{
    match device.read(alloc, path)? {
        Some(bytes) => Ok(record_from(alloc, key, &bytes)?),
        None => Ok(None),
    }
}

// What the rockspec at the path says, if there is one, or None where it isn't the rock's.
fn read_rockspec<V: Device>(
    alloc: Global,
    device: &mut V,
    key: &RockKey,
    path: &TreePath,
) -> Result<Option<Option<FoundRockspec>>, DeviceError>
    ensures read { IfOk result (λ read. IfSome (V.state device.old).files
        (λ files. IsRockspecRead key.now (get files path.now) read)) }
    ensures form { IfOk result (λ read. IfSome read (IsSomeRockspec key.now)) }
    ensures asks { AsksDevice result (V.state device.old) (V.state device.new) }
{
    match device.read(alloc, path)? {
        Some(bytes) => match rockspec_from(alloc, key, &bytes)? {
            Some(found) => Ok(Some(Some(found))),
            None => Ok(None),
        },
        None => Ok(Some(None)),
    }
}
